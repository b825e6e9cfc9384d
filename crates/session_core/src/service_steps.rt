// The steps of a round in which a bound service has a part.
//
// Those that sign what they tell have an arm for each service: what it answers an
// invocation, the status report that is due, how a notice is told, and its message behind the block.
// Its returns are signed by `Standing::sign_bound`, become the block by `Block::put`, and are added
// to it by `Block::add`.
ghost use Rattle.std.specs.Prelude.{◌≡◌, ◌+◌, ◌<◌, ◌≤◌, None, IsTrue, IsFalse, length};
ghost use Rattle.cds_time.specs.declared.cds.TheConstants.{MOMENT_END};
ghost use Rattle.frame_select.specs.Want.{want_of};
ghost use Rattle.frame_select.specs.Glimpse.{glimpse_of};
ghost use Rattle.return_core.specs.Item.{are_of_archive};
ghost use Rattle.session_services.specs.Inquiry.{inquiry_of, replied_of};
ghost use Rattle.session_services.specs.Room.{HasOne, HasTwo};
ghost use Rattle.session_services.specs.Service.{invocation_of};
ghost use Rattle.session_core.specs.ServiceSteps.{with_invocation, led_to, may_tell};
ghost use Rattle.session_core.specs.ServiceSteps.{with_report, reported, noticed, with_notice};
ghost use Rattle.session_core.specs.ServiceSteps.{is_active, may_serve, has_outgoing, with_fixed};
ghost use Rattle.session_core.specs.ServiceSteps.{fixed, with_service, after_stall};
ghost use Rattle.session_core.specs.ServiceSteps.{after_send};
ghost use Rattle.session_services.specs.Served.{reported_by, fixed_by, dropped_by, unserved};
ghost use Rattle.session_core.specs.Returns.{bound_peer};
ghost use Rattle.session_core.specs.Steps.{running_want, with_want, may_send, unasked, is_idle};

use crate::course::Course;
use crate::handling::peer_at;
use crate::standing::Standing;
use assoc_core::{Outcome, State};
use cltu_queue::Notice;
use frame_select::{Glimpse, Want};
use octet_core::Offer;
use session_services::{
    Inquiry, Invocation, Replied, ServiceState, fcltu_asked, fcltu_view_due, put_message,
    return_asked,
};
use station_config::Site;

// What it wants, and what it answers.
impl Standing {
    // What a started service wants of the look: nothing where the dead timer ends the session.
    fn running_want(&self) -> Want
        ensures { want_of result ≡ running_want self.now self.now.moment }
    {
        if !self.service.may_want() || self.is_dead() {
            Want::Nothing
        } else {
            self.service.want()
        }
    }

    // What is asked, with what a started service wants, where it goes on.
    pub(crate) fn with_want(&self, stays: bool, inquiry: Inquiry) -> Inquiry
        ensures { inquiry_of result
            ≡ with_want stays self.now self.now.moment (inquiry_of inquiry) }
    {
        if !stays {
            return inquiry;
        }
        Inquiry {
            ask: inquiry.ask,
            want: self.running_want(),
        }
    }

    // An invocation that passed leads to this, where the book replied so.
    #[tactic(auto, unfolding(session_services::specs::Served::concluded_by))]
    pub(crate) fn answer_invocation(
        &mut self,
        site: &Site,
        invocation: &Invocation<'_>,
        answer: &Replied,
    )
        requires { self.old.moment < MOMENT_END }
        ensures { self.new ≡ with_invocation site.now self.old (invocation_of invocation.now)
            (replied_of answer.now) }
    {
        let channels = self.permitted(site);
        match &mut self.service {
            ServiceState::Nothing => self.lead_to(Outcome::Kept),
            ServiceState::Return(service) => {
                let asked = return_asked(invocation);
                let told = service.conclude(&asked, channels, &answer.glimpse, self.moment);
                self.put_answer(site, invocation, told);
            }
            ServiceState::Fcltu(fcltu) => {
                let asked = fcltu_asked(invocation);
                let told = fcltu.conclude(&asked, &answer.reply, self.moment);
                self.put_fcltu_answer(site, invocation, told);
            }
        }
    }

    // The association goes on by an outcome; a service that isn't started any more offers nothing.
    pub(crate) fn lead_to(&mut self, outcome: Outcome)
        ensures { self.new ≡ led_to outcome self.old }
    {
        self.association.moved(outcome);
        if !self.is_active() {
            self.outgoing.clear();
        }
    }
}

// What is told unasked, behind the return.
impl Standing {
    // Whether it tells of its service in this round.
    fn may_tell(&self) -> bool
        ensures { result ≡ may_tell self.now }
    {
        self.is_going() && !self.is_blocked()
    }

    // The status report, if one is due.
    #[tactic(auto, unfolding(session_services::specs::Served::reported_by))]
    fn report(&mut self, site: &Site, answer: &Replied)
        requires moment { self.old.moment < MOMENT_END }
        requires room { length self.old.block ≤ 3064 }
        ensures told { self.new ≡ reported site.now self.old
            (reported_by self.old.service (replied_of answer.now) self.old.moment) }
        ensures few { length self.new.block ≤ length self.old.block + 1032 }
    {
        match &mut self.service {
            ServiceState::Nothing => {}
            ServiceState::Return(service) => {
                let kind = service.kind();
                let due = service.report(&answer.glimpse, self.moment);
                self.put_return_report(site, kind, due);
            }
            ServiceState::Fcltu(fcltu) => {
                let due = fcltu_view_due(fcltu, &answer.view, self.moment);
                self.put_fcltu_report(site, due);
            }
        }
    }

    // A notice of the book.
    #[tactic(auto, unfolding(session_services::specs::Served::told_by_service))]
    fn tell(&mut self, site: &Site, notice: Option<Notice>)
        requires moment { self.old.moment < MOMENT_END }
        requires room { length self.old.block ≤ 3064 }
        ensures { self.new ≡ noticed site.now self.old notice }
    {
        let Some(notice) = notice else {
            return;
        };
        match self.service {
            ServiceState::Nothing | ServiceState::Return(_) => {}
            ServiceState::Fcltu(_) => self.put_fcltu_notice(site, notice),
        }
    }

    fn put_report(&mut self, site: &Site, answer: &Replied)
        requires moment { self.old.moment < MOMENT_END }
        requires room { IsTrue (may_tell self.old) → HasOne self.old.block }
        ensures told { self.new ≡ with_report site.now self.old (replied_of answer.now) }
        ensures room { IsTrue (may_tell self.old) → HasTwo self.new.block }
        ensures goes_on { may_tell self.new ≡ may_tell self.old }
    {
        if self.may_tell() {
            self.report(site, answer);
        }
    }

    fn put_notice(&mut self, site: &Site, notice: Option<Notice>)
        requires moment { self.old.moment < MOMENT_END }
        requires room { IsTrue (may_tell self.old) → HasTwo self.old.block }
        ensures { self.new ≡ with_notice site.now self.old notice }
    {
        if self.may_tell() {
            self.tell(site, notice);
        }
    }

    // The report that is due, the book's notice, or else a heartbeat.
    pub(crate) fn put_unasked(&mut self, site: &Site, answer: &Replied)
        requires moment { self.old.moment < MOMENT_END }
        requires room { IsTrue (may_tell self.old) → HasOne self.old.block }
        ensures { self.new ≡ unasked site.now (replied_of answer.now) self.old }
    {
        self.put_report(site, answer);
        self.put_notice(site, answer.notice);
        self.put_heartbeat();
    }
}

// The service's own step.
impl Standing {
    // Whether the service is started.
    pub(crate) fn is_active(&self) -> bool
        ensures { result ≡ is_active self.now.association }
    {
        matches!(self.association.state(), State::Active(_))
    }

    // Whether the session goes on with no service, in a round that isn't blocked.
    pub(crate) fn is_bare(&self) -> bool
        ensures service { IsTrue result → self.now.service ≡ unserved }
        ensures active { IsTrue result → IsFalse (is_active self.now.association) }
        ensures idle { IsTrue result → IsFalse (is_idle self.now) }
    {
        matches!(self.service, ServiceState::Nothing) && !self.is_active() && !self.is_idle()
    }

    // Whether the service takes its step, where it was started before the message or not.
    fn may_serve(&self, was: bool) -> bool
        ensures { result ≡ may_serve was self.now }
    {
        was && self.is_active() && self.is_going() && !self.is_blocked()
    }

    // Whether the service has a message to offer.
    fn has_outgoing(&self) -> bool
        ensures { result ≡ has_outgoing self.now }
    {
        !self.outgoing.is_empty()
    }

    // Makes the message of what the service holds, where it is due.
    fn make_message(&mut self, site: &Site)
        requires { self.old.moment < MOMENT_END }
        ensures { self.new ≡ with_fixed self.old (fixed_by self.old.service site.now
            (bound_peer site.now self.old) self.old.numbers self.old.moment) }
    {
        let peer = peer_at(site, self.bound_place());
        put_message(
            &mut self.outgoing,
            &mut self.numbers,
            &self.service,
            site,
            peer,
            self.moment,
        );
    }

    // The same, unless one is kept.
    fn fix(&mut self, site: &Site)
        requires { self.old.moment < MOMENT_END }
        ensures { self.new ≡ fixed site.now self.old }
    {
        if !self.has_outgoing() {
            self.make_message(site);
        }
    }

    // The service takes its step, and its message is to be offered, if one is due.
    pub(crate) fn serve(&mut self, site: &Site, was: bool, glimpse: Glimpse)
        requires moment { self.old.moment < MOMENT_END }
        requires look { IsTrue (are_of_archive glimpse.items) }
        ensures { self.new ≡ with_service site.now was (glimpse_of glimpse) self.old }
    {
        if self.may_serve(was) {
            self.service.step(glimpse, self.moment);
            self.fix(site);
        }
    }
}

// Its message is offered.
impl Standing {
    // Whether it is.
    pub(crate) fn may_send(&self) -> bool
        ensures { result ≡ may_send self.now }
    {
        self.is_going() && !self.has_block() && !self.is_blocked() && self.has_outgoing()
    }

    // None was offered.
    pub(crate) fn send_nothing(&mut self)
        ensures { self.new ≡ record self.old { dropped = None } }
    {
        self.dropped = None;
    }

    // It stalled: the service keeps it, or drops so many items.
    fn end_stall(&mut self)
        ensures { self.new ≡ after_stall self.old (dropped_by self.old.service) }
    {
        self.dropped = self.service.dropped();
        if self.dropped.is_some() {
            self.outgoing.clear();
        }
    }

    // It was offered, and answered so.
    pub(crate) fn end_send(&mut self, answer: Offer)
        ensures { self.new ≡ after_send self.old answer }
    {
        self.dropped = None;
        match answer {
            Offer::Whole => {
                self.outgoing.clear();
                self.sent = self.moment;
                self.service.settle(answer);
            }
            Offer::Stalled => {
                self.end_stall();
                self.service.settle(answer);
            }
            Offer::Failed => self.course = Course::LinkFailing,
        }
    }
}
