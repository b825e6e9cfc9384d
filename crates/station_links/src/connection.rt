// A connection of a script.
ghost use Rattle.std.specs.Prelude.{◌≡◌, IfOk, OnErr, OnOk};
ghost use Rattle.drill_text.specs.Asks.{ask};
ghost use Rattle.isp1_tml.specs.Message.{spelling};
ghost use Rattle.link_model.specs.Steering.{with_piece, shut_behind, broken_next, stalling_for};
ghost use Rattle.station_config.specs.declared.site.Site.{Site};
ghost use Rattle.station_links.specs.Asked.{message_of};
ghost use Rattle.station_links.specs.Connected.{began, opened};
ghost use Rattle.station_links.specs.Lives.{Lives, with_steering};

use crate::asked::message_of;
use drill_text::AskLine;
use link_model::MemoryLink;
use octet_core::{Memory, Octets};
use session_core::{Session, laws};
use std::alloc::Global;
use std::marker::Model;

// The draw of a script's sessions.
const DRAW: u32 = 1;

/// A connection of a script that is there: its session, and its link with what waits on it.
#[derive(Drop)]
pub struct Connection {
    pub(crate) c: u32,
    pub(crate) session: Session,
    pub(crate) link: MemoryLink,
}

impl Model for Connection {
    ghost use Rattle.std.specs.Prelude.{◌≡◌, Some, []};
    ghost use Rattle.station_links.specs.Lives.{ConnectionState};

    ghost Value = { ConnectionState };

    ghost view = { λ c. record {
      c = c.c;
      session = c.session;
      steering = c.link.steering;
    } };

    ghost invariant = { λ c. c.link.told ≡ Some [] };
}

impl Connection {
    /// Connection `c` is opened, at a moment.
    pub fn new(alloc: Global, c: u32, now: u128) -> Result<Connection, Memory>
        ensures { IfOk result (λ connection. (site : Site)
            → Lives (began site c now) connection (opened c now)) }
    {
        laws::no_round_yet();
        let session = Session::new(alloc, c, DRAW, now)?;
        let failing = Vec::new(alloc);
        let link = MemoryLink::new(alloc, failing);
        Ok(Connection { c, session, link })
    }

    /// A piece of octets arrives. Behind a close none is read.
    pub fn arrive(&mut self, piece: Octets) -> Result<(), Memory>
        ensures ok { OnOk result (self.new
            ≡ with_steering self.old (with_piece self.old.steering piece)) }
        ensures err { OnErr result (self.new ≡ self.old) }
    {
        self.link.arrive(piece)
    }

    /// One whole message arrives, as one piece.
    pub fn ask(&mut self, alloc: Global, line: &AskLine) -> Result<(), Memory>
        requires { ask.Fits line.now }
        ensures ok { OnOk result (self.new ≡ with_steering self.old
            (with_piece self.old.steering (spelling (message_of line.now)))) }
        ensures err { OnErr result (self.new ≡ self.old) }
    {
        let message = message_of(alloc, line)?;
        self.link.arrive(message)
    }

    /// The peer closes behind the pieces that arrived.
    pub fn shut(&mut self)
        ensures { self.new ≡ with_steering self.old (shut_behind self.old.steering) }
    {
        self.link.shut();
    }

    /// The next poll fails, though pieces wait.
    pub fn break_poll(&mut self)
        ensures { self.new ≡ with_steering self.old (broken_next self.old.steering) }
    {
        self.link.break_poll();
    }

    /// So many of the next offers stall, in place of what is left of an earlier order.
    pub fn stall(&mut self, offers: u32)
        ensures { self.new ≡ with_steering self.old
            (stalling_for self.old.steering offers) }
    {
        self.link.stall(u64::from(offers));
    }
}
