// What was heard of a user, and whether it is silent for too long.

use operator_side::Uptime;
use std::time::Duration;

// The octets of a transport's context with its head (CCSDS 913.1-B), and where its heartbeat interval
// is: two octets.
const CONTEXT: usize = 20;

const INTERVAL: usize = 16;

/// How long a user may be silent. Zero is for ever.
#[derive(Clone, Copy, Debug, PartialEq, Eq)]
pub struct Limits {
    /// Until its first octet, and from then on until its context is whole.
    pub silence: Duration,
    /// Behind a context that asks for no heartbeat.
    pub idle: Duration,
}

impl Limits {
    /// None.
    pub const NONE: Limits = Limits {
        silence: Duration::ZERO,
        idle: Duration::ZERO,
    };
}

/// What was heard of a user since its link was given.
#[derive(Drop)]
pub(crate) struct Hearing {
    time: Uptime,
    limits: Limits,
    given: Duration,
    // The first octets, as many as were heard, and when the last came.
    head: [u8; CONTEXT],
    heard: usize,
    last: Duration,
    // The limit that passed, once one did.
    passed: Option<Duration>,
}

impl Hearing {
    /// Nothing was heard yet.
    pub fn new(time: Uptime, limits: Limits) -> Hearing {
        let now = time.now();
        Hearing {
            time,
            limits,
            given: now,
            head: [0; CONTEXT],
            heard: 0,
            last: now,
            passed: None,
        }
    }

    /// Hears octets.
    pub fn hear(&mut self, octets: &[u8]) {
        self.last = self.time.now();
        for octet in octets {
            let Some(place) = self.head.get_mut(self.heard) else {
                break;
            };
            *place = *octet;
            self.heard = self.heard.saturating_add(1);
        }
    }

    /// Looks whether the user is silent for too long.
    pub fn look(&mut self) -> bool {
        let (limit, since) = self.limit();
        if self.time.has_passed(limit, since) {
            self.passed = Some(limit);
        }
        self.is_over()
    }

    /// True once it was seen to be silent for too long.
    pub fn is_over(&self) -> bool {
        self.passed.is_some()
    }

    /// The limit that passed, if one did.
    pub fn passed(&self) -> Option<Duration> {
        self.passed
    }

    // How long it may be silent now, and since when that counts.
    fn limit(&self) -> (Duration, Duration) {
        if self.heard < CONTEXT {
            (self.limits.silence, self.given)
        } else if self.head[INTERVAL] == 0 && self.head[INTERVAL + 1] == 0 {
            (self.limits.idle, self.last)
        } else {
            (Duration::ZERO, self.last)
        }
    }
}
