// The first call of a round.
ghost use Rattle.std.specs.Prelude.{◌≡◌, ◌∷◌, [], length, false, IsTrue};
ghost use Rattle.isp1_tml.specs.Feeding.{next_of as next_held};
ghost use Rattle.link_model.specs.declared.call.Call.TheVariants.{Offered};
ghost use Rattle.link_model.specs.Calls.{Tells};
ghost use Rattle.link_model.specs.Counts.{CountsWhere, offer_failed, offer_stalled};
ghost use Rattle.session_core.specs.SessionState.{Waited, PolledOnce, Hears};
ghost use Rattle.session_core.specs.Lists.{Goes, to_listen, to_step};
ghost use Rattle.session_core.specs.Outcome.{has_ended, has_failed, FailsBy};
ghost use Rattle.session_core.specs.Outcome.{is_blocked, has_waiting, Rests};
ghost use Rattle.session_core.specs.Course.{is_going};
ghost use Rattle.session_core.specs.Session.{spoken_of, is_fault};
ghost use Rattle.session_core.specs.Steps.{has_message};

use crate::arrival::Arrival;
use crate::course::Course;
use crate::session::Session;
use crate::standing::Standing;
use ber_core::laws as octets;
use isp1_tml::{Feeder, laws};
use link_model::{Link, Poll};
use octet_core::Offer;
use session_services::Block;

// Whether a whole message is held.
pub(crate) fn holds_message(feeder: &Feeder) -> bool
    ensures { result ≡ has_message (next_held feeder.now) }
{
    feeder.has_message()
}

// Offers a block.
pub(crate) fn offer<L: Link>(block: &Block, link: &mut L) -> Offer
    ensures told { Tells (L.calls link.old) (L.calls link.new) (Offered block.now result ∷ []) }
    ensures faults { CountsWhere (offer_failed result) (L.faults link.old) (L.faults link.new) }
    ensures stalls { CountsWhere (offer_stalled result) (L.stalls link.old) (L.stalls link.new) }
{
    link.offer(block.octets())
}

// Polls the link once, and feeds what arrived.
fn hear<L: Link>(feeder: &mut Feeder, standing: &mut Standing, space: &mut [u8], link: &mut L)
    requires space { length space.old ≡ 65536 }
    requires going { IsTrue (is_going standing.old.course) }
    ensures heard { Hears (L.calls link.old) (L.calls link.new) feeder.old feeder.new standing.old
        standing.new }
    ensures faults { FailsBy (is_fault (spoken_of standing.old.course))
        (is_fault (spoken_of standing.new.course)) (L.faults link.old) (L.faults link.new) }
    ensures stalls { CountsWhere false (L.stalls link.old) (L.stalls link.new) }
{
    let room = feeder.room().min(space.len());
    let into = &mut space[..room];
    match link.poll(into) {
        Poll::Arrived(count) => {
            laws::refused_for_good();
            let piece = &into[..count];
            octets::slice(piece);
            let _ = feeder.feed(piece);
            standing.arrival = Arrival::Octets;
        }
        Poll::Nothing => {}
        Poll::Closed => standing.arrival = Arrival::Closed,
        Poll::Failed => standing.course = Course::LinkFailing,
    }
}

impl Session {
    // Offers the block that waited, if there is one.
    fn clear_way<L: Link>(&mut self, link: &mut L)
        ensures waited { Waited (L.calls link.old) (L.calls link.new) self.old self.new }
        ensures faults { FailsBy (has_failed self.old) (has_failed self.new) (L.faults link.old)
            (L.faults link.new) }
        ensures stalls { CountsWhere (is_blocked self.new) (L.stalls link.old)
            (L.stalls link.new) }
    {
        let waits = self.standing.waits();
        self.standing.begin_round();
        if waits {
            let answer = offer(&self.standing.block, link);
            self.standing.end_wait(answer);
        }
    }

    // Polls, if it may.
    fn poll<L: Link>(&mut self, link: &mut L)
        ensures polled { PolledOnce (L.calls link.old) (L.calls link.new) self.old self.new }
        ensures faults { FailsBy (has_failed self.old) (has_failed self.new) (L.faults link.old)
            (L.faults link.new) }
        ensures stalls { CountsWhere false (L.stalls link.old) (L.stalls link.new) }
    {
        if self.standing.may_poll(holds_message(&self.feeder)) {
            hear(&mut self.feeder, &mut self.standing, &mut self.space, link);
        }
    }

    /// The first call of a round: offers the block that waits, and polls once where none waits any
    /// more and no whole message is held.
    pub fn listen<L: Link>(&mut self, link: &mut L)
        ensures lists { Goes to_listen to_step (L.calls link.old) (L.calls link.new) self.old
            self.new }

        // The link's count of faults rises exactly where the link fails in this call.
        ensures faults { FailsBy (has_failed self.old) (has_failed self.new) (L.faults link.old)
            (L.faults link.new) }

        // Its count of stalls rises exactly where the block that waited stalls: there alone a block
        // waits behind this call.
        ensures stalls { CountsWhere (is_blocked self.new) (L.stalls link.old)
            (L.stalls link.new) }
        ensures waits { has_waiting self.new ≡ is_blocked self.new }

        // A session that is still doesn't call its link; and no listen ends a session.
        ensures rests { Rests (L.calls link.old) (L.calls link.new) self.old self.new }
        ensures ended { has_ended self.new ≡ has_ended self.old }
    {
        laws::is_worked_out();
        laws::any_pieces();
        self.standing.holds_whole_messages();
        self.clear_way(link);
        self.poll(link);
    }
}
