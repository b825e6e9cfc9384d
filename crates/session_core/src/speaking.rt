// The third call of a round.
ghost use Rattle.std.specs.Prelude.{◌≡◌, ◌∷◌, [], not, ◌&&◌, ◌||◌};
ghost use Rattle.link_model.specs.declared.call.Call.TheVariants.{Offered};
ghost use Rattle.link_model.specs.Calls.{Tells};
ghost use Rattle.link_model.specs.Counts.{CountsWhere, offer_failed, offer_stalled};
ghost use Rattle.session_core.specs.SessionState.{IsSpoken, IsSent};
ghost use Rattle.session_core.specs.Lists.{Goes, to_listen, to_speak};
ghost use Rattle.session_core.specs.Outcome.{come_to, has_ended, has_failed, FailsBy, Rests};
ghost use Rattle.session_core.specs.Outcome.{is_blocked, has_waiting, has_kept, has_dropped};
ghost use Rattle.session_core.specs.Outcome.{is_left};
ghost use Rattle.session_core.specs.Session.{is_end};

use crate::course::Course;
use crate::listening::offer;
use crate::session::Session;
use crate::spoken::Spoken;
use link_model::Link;
use octet_core::Offer;
use session_services::Outgoing;

// Offers a service's message.
fn send<L: Link>(outgoing: &Outgoing, link: &mut L) -> Offer
    ensures told { Tells (L.calls link.old) (L.calls link.new)
        (Offered outgoing.now result ∷ []) }
    ensures faults { CountsWhere (offer_failed result) (L.faults link.old) (L.faults link.new) }
    ensures stalls { CountsWhere (offer_stalled result) (L.stalls link.old) (L.stalls link.new) }
{
    link.offer(outgoing.octets())
}

impl Session {
    // Offers the block, if it may.
    fn say<L: Link>(&mut self, link: &mut L)
        ensures said { IsSpoken (L.calls link.old) (L.calls link.new) self.old self.new }
        ensures faults { FailsBy (has_failed self.old) (has_failed self.new) (L.faults link.old)
            (L.faults link.new) }
        ensures stalls { CountsWhere (has_waiting self.new && not (is_blocked self.old))
            (L.stalls link.old) (L.stalls link.new) }
    {
        if self.standing.may_speak() {
            let answer = offer(&self.standing.block, link);
            self.standing.end_offer(answer);
        }
    }

    // Behind it offers the service's message, if it may.
    fn send<L: Link>(&mut self, link: &mut L)
        ensures sent { IsSent (L.calls link.old) (L.calls link.new) self.old self.new }
        ensures faults { FailsBy (has_failed self.old) (has_failed self.new) (L.faults link.old)
            (L.faults link.new) }
        ensures stalls { CountsWhere (not (is_blocked self.old) && (not (has_waiting self.old)
            && (has_kept self.new || has_dropped self.new))) (L.stalls link.old)
            (L.stalls link.new) }
    {
        if self.standing.may_send() {
            let answer = send(&self.standing.outgoing, link);
            self.standing.end_send(answer);
        } else {
            self.standing.send_nothing();
        }
    }

    // What the round comes to.
    fn outcome(&self) -> Spoken
        ensures { result ≡ come_to self.now }
    {
        match self.standing.course {
            Course::Over(end) => Spoken::Ended(end),
            Course::LinkFailing | Course::LinkFailed => Spoken::LinkFault,
            Course::Going | Course::Closing(_) | Course::Spent => Spoken::Going,
        }
    }

    /// The third call of a round: offers the block, and says what the round came to.
    pub fn speak<L: Link>(&mut self, link: &mut L) -> Spoken
        ensures lists { Goes to_speak to_listen (L.calls link.old) (L.calls link.new) self.old
            self.new }

        // The link's count of faults rises exactly where the link fails in this call.
        ensures faults { FailsBy (has_failed self.old) (has_failed self.new) (L.faults link.old)
            (L.faults link.new) }

        // Its count of stalls rises exactly where the block stalls in this call and waits on, or the
        // service's message stalls behind it, which is then kept or dropped.
        ensures stalls { CountsWhere (not (is_blocked self.old) && is_left self.new)
            (L.stalls link.old) (L.stalls link.new) }
        ensures blocked { is_blocked self.new ≡ is_blocked self.old }
        ensures rests { Rests (L.calls link.old) (L.calls link.new) self.old self.new }
        ensures outcome { result ≡ come_to self.new }

        // The session has ended exactly where the round came to an end or to a fault.
        ensures over { has_ended self.new ≡ is_end result }
    {
        self.standing.holds_whole_messages();
        self.say(link);
        self.send(link);
        self.standing.end_round();
        self.outcome()
    }
}
