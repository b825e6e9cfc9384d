// A session, and its round.
ghost use Rattle.std.specs.Prelude.{◌≡◌, ◌<◌, [], IfOk, OnOk, OnErr};
ghost use Rattle.std.specs.Prelude.{vec_len, IsTrue, IsFalse};
ghost use Rattle.cds_time.specs.declared.cds.TheConstants.{MOMENT_END};
ghost use Rattle.isp1_tml.specs.Feeding.{fresh};
ghost use Rattle.link_model.specs.Calls.{Tells};
ghost use Rattle.link_model.specs.Counts.{CountsWhere};
ghost use Rattle.station_config.specs.Validity.{IsSite};
ghost use Rattle.session_core.specs.Lists.{Began, StandsAt, GoesRound, to_listen, OnlyListens};
ghost use Rattle.session_core.specs.Outcome.{come_to, has_ended, has_failed, is_spent, FailsBy};
ghost use Rattle.session_core.specs.Outcome.{stalled_in, dropped_in, Spends, Repeats, Uncalled};
ghost use Rattle.session_core.specs.Session.{is_end};
ghost use Rattle.session_core.specs.declared.spoken.Spoken.TheVariants.{Going};

use crate::spoken::Spoken;
use crate::standing::Standing;
use isp1_tml::{Feeder, laws};
use link_model::Link;
use octet_core::Memory;
use station_book::Book;
use station_config::Site;
use std::alloc::Global;
use std::marker::Model;

/// A connection of a user with this provider, from its context to its end.
#[derive(Drop)]
pub struct Session {
    // Memory for what a BIND and an invocation want.
    pub(crate) alloc: Global,
    pub(crate) door: u32,
    pub(crate) feeder: Feeder,
    pub(crate) space: Vec<u8>,
    pub(crate) standing: Standing,
}

impl Model for Session {
    ghost use Rattle.std.specs.Prelude.{◌≡◌, vec_len};
    ghost use Rattle.session_core.specs.SessionState.{SessionState};

    ghost Value = { SessionState };

    ghost view = { λ s. record { door = s.door; feeder = s.feeder; standing = s.standing } };

    ghost invariant = { λ s. vec_len s.space ≡ 65536 };
}
// How many octets a poll takes at most.
const LONGEST_PIECE: usize = 65_536;

// So many octets 0.
fn zeros(alloc: Global, count: usize) -> Result<Vec<u8>, Memory>
    ensures { IfOk result (λ space. vec_len space ≡ count) }
{
    Ok(vec![in alloc; 0u8; count]?)
}

// A feeder at a connection's start.
fn new_feeder(alloc: Global) -> Result<Feeder, Memory>
    ensures { IfOk result (λ feeder. feeder ≡ fresh) }
{
    let Ok(feeder) = Feeder::new(alloc) else {
        return Err(Memory);
    };
    Ok(feeder)
}

impl Session {
    /// A session at its link's start, with all the memory that it will ever have: at the door of
    /// this number, with the program's draw, begun at a moment.
    pub fn new(alloc: Global, door: u32, draw: u32, now: u128) -> Result<Session, Memory>
        ensures lists { IfOk result (λ session. (b : Began) → b.door ≡ door → b.draw ≡ draw
            → b.entered ≡ now → StandsAt to_listen b session [] []) }
        ensures going { IfOk result (λ session. come_to session ≡ Going) }
        ensures spent { IfOk result (λ session. IsFalse (is_spent session)) }
    {
        laws::any_pieces();
        let feeder = new_feeder(alloc)?;
        let space = zeros(alloc, LONGEST_PIECE)?;
        let standing = Standing::begin(alloc, door, draw, now)?;
        Ok(Session {
            alloc,
            door,
            feeder,
            space,
            standing,
        })
    }

    /// How many items were dropped of a service's message that stalled in the latest round, if one
    /// was.
    pub fn dropped(&self) -> Option<u32>
        ensures { result ≡ dropped_in self.now }
    {
        self.standing.dropped
    }

    /// A whole round, at a reading of the clock: `listen`, `step` and `speak`. Want of memory is
    /// that of `step`.
    pub fn round<L: Link>(
        &mut self,
        site: &Site,
        book: &mut Book,
        reading: u128,
        link: &mut L,
    ) -> Result<Spoken, Memory>
        requires site { IsSite site.now }
        requires reading { reading < MOMENT_END }
        ensures lists { OnOk result (GoesRound site.now reading (L.calls link.old)
            (L.calls link.new) book.old book.new self.old self.new) }
        ensures faults { OnOk result (FailsBy (has_failed self.old) (has_failed self.new)
            (L.faults link.old) (L.faults link.new)) }

        // The link's count of stalls rises exactly where a block or the service's message stalled.
        ensures stalls { OnOk result (CountsWhere (stalled_in self.new) (L.stalls link.old)
            (L.stalls link.new)) }
        ensures outcome { IfOk result (λ spoken. spoken ≡ come_to self.new) }
        ensures over { IfOk result (λ spoken. has_ended self.new ≡ is_end spoken) }
        ensures memory { Spends result book.old book.new self.old self.new }

        // Where it runs out of memory, its calls of the link are those of a listen, and so are the
        // faults and the stalls that the link counts. A spent session doesn't call the link.
        ensures heard { OnErr result (OnlyListens (L.calls link.old) (L.calls link.new)
            (L.faults link.old) (L.faults link.new) (L.stalls link.old) (L.stalls link.new)
            self.old) }
        ensures spent { IsTrue (is_spent self.old) → Uncalled (L.calls link.old)
            (L.calls link.new) (L.faults link.old) (L.faults link.new) (L.stalls link.old)
            (L.stalls link.new) }

        // After an end neither link nor book is called, and the end repeats itself.
        ensures silent { IsTrue (has_ended self.old)
            → Tells (L.calls link.old) (L.calls link.new) [] }
        ensures ended { IsTrue (has_ended self.old)
            → Repeats result book.old book.new self.old self.new }
    {
        self.listen(link);
        self.step(site, book, reading)?;
        Ok(self.speak(link))
    }
}
