// When a heartbeat is due, and when a peer is taken for dead.
ghost use Rattle.std.specs.Prelude.{◌≡◌, ◌↔◌, IsTrue};
ghost use Rattle.isp1_tml.specs.Beat.{beat_at, IsDue, IsDead};

use std::marker::Model;

const PICOS_A_SECOND: u128 = 1_000_000_000_000;

/// The heartbeat of a connection: what its context agreed on, and when octets last went either way.
///
/// A moment is in picoseconds since 1958-01-01. No time has passed from a later moment to an
/// earlier one.
#[derive(Clone, Copy, Debug)]
pub struct Beat {
    interval: u16,
    factor: u16,
    sent: u128,
    heard: u128,
}

impl Model for Beat {
    ghost use Rattle.isp1_tml.specs.Beat.{Pulse};

    ghost Value = { Pulse };

    ghost view = { λ b. record {
      interval = b.interval;
      factor = b.factor;
      sent = b.sent;
      heard = b.heard;
    } };

    ghost inverse = { λ p. record {
      interval = p.interval;
      factor = p.factor;
      sent = p.sent;
      heard = p.heard;
    } };
}

impl Beat {
    /// A beat whose connection sent and heard its last octets at `now`. The interval is in seconds.
    pub fn new(interval: u16, factor: u16, now: u128) -> Beat
        ensures { result ≡ beat_at interval factor now }
    {
        Beat {
            interval,
            factor,
            sent: now,
            heard: now,
        }
    }

    /// Octets were sent at `now`.
    pub fn sent(&mut self, now: u128)
        ensures { self.new ≡ record self.old { sent = now } }
    {
        self.sent = now;
    }

    /// Octets were heard at `now`.
    pub fn heard(&mut self, now: u128)
        ensures { self.new ≡ record self.old { heard = now } }
    {
        self.heard = now;
    }

    /// Whether a heartbeat is to be sent.
    pub fn due(&self, now: u128) -> bool
        ensures { IsTrue result ↔ IsDue self.now now }
    {
        let quiet = u128::from(self.interval) * PICOS_A_SECOND;
        self.interval != 0 && quiet <= now.saturating_sub(self.sent)
    }

    /// Whether the peer is taken for dead.
    pub fn dead(&self, now: u128) -> bool
        ensures { IsTrue result ↔ IsDead self.now now }
    {
        let silence = u128::from(self.interval) * u128::from(self.factor) * PICOS_A_SECOND;
        self.interval != 0 && silence <= now.saturating_sub(self.heard)
    }
}
