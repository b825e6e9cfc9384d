// How a session stands, but for its stream.
ghost use Rattle.std.specs.Prelude.{◌≡◌, [], IfOk, if◌then◌else◌, not, ◌&&◌};
ghost use Rattle.session_core.specs.Course.{is_going, is_live, is_over, is_blocked};
ghost use Rattle.session_core.specs.Course.{has_closed, is_spent};
ghost use Rattle.session_core.specs.declared.course.Course.TheVariants.{Spent};
ghost use Rattle.session_core.specs.declared.ended.Ended.TheVariants.{PeerClosed};
ghost use Rattle.session_core.specs.Handling.{ended_by, aborted};
ghost use Rattle.session_services.specs.Served.{unserved};
ghost use Rattle.session_core.specs.Session.{begun};
ghost use Rattle.session_services.specs.Whole.{AreWhole};
ghost use Rattle.session_core.specs.Steps.{round_begun, has_block, waits, after_wait, may_speak};
ghost use Rattle.session_core.specs.Steps.{after_offer, at_moment, is_idle, may_poll_by};
ghost use Rattle.session_core.specs.Steps.{pulse_of, is_dead, is_due, timed, with_heartbeat};
ghost use Rattle.session_core.specs.Steps.{course_at_end, round_ended};

use crate::arrival::Arrival;
use crate::course::Course;
use crate::ended::Ended;
use assoc_core::Association;
use isp1_auth::RandomNumbers;
use isp1_tml::Beat;
use octet_core::{Memory, Offer};
use session_services::{Block, Outgoing, ServiceState};
use sle_numbers::PeerAbortDiagnostic;
use std::alloc::Global;

/// How a session stands, but for the octets that arrived and the messages handled. Moments are in
/// picoseconds since 1958-01-01.
#[derive(Drop)]
pub struct Standing {
    pub association: Association,
    /// The place of the instance that is bound, once one is.
    pub bound: Option<u32>,
    pub course: Course,
    /// The heartbeat interval in seconds, or 0 where there are neither heartbeats nor dead timer.
    pub interval: u16,
    /// How many intervals of silence there are to the dead timer.
    pub factor: u16,
    /// When octets were last handed over.
    pub sent: u128,
    /// When octets last arrived.
    pub heard: u128,
    /// The moment of the latest round.
    pub moment: u128,
    /// The numbers of the credentials that it makes.
    pub numbers: RandomNumbers,
    /// What is to be offered next, or no octets.
    pub block: Block,
    /// What this round's `listen` came to.
    pub arrival: Arrival,
    /// Whether this round's `listen` handed the waiting block over.
    pub relieved: bool,
    /// What the bound service keeps.
    pub service: ServiceState,
    /// The service's message that is to be offered behind the block, or no octets.
    pub outgoing: Outgoing,
    /// How many items were dropped of a message that stalled in the latest round, if one was.
    pub dropped: Option<u32>,
}

impl Standing {
    // A session at a door begins, with the program's draw, at a moment.
    pub(crate) fn begin(alloc: Global, door: u32, draw: u32, now: u128) -> Result<Standing, Memory>
        ensures { IfOk result (λ standing. standing ≡ begun door draw now) }
    {
        let block = Block::new(alloc)?;
        let outgoing = Outgoing::new(alloc)?;
        Ok(Standing {
            association: Association::new(),
            bound: None,
            course: Course::Going,
            interval: 0,
            factor: 0,
            sent: now,
            heard: now,
            moment: now,
            numbers: RandomNumbers::new(draw, door),
            block,
            arrival: Arrival::Nothing,
            relieved: false,
            service: ServiceState::Nothing,
            outgoing,
            dropped: None,
        })
    }

    // Whether it has ended, by its link's failure too.
    pub(crate) fn is_over(&self) -> bool
        ensures { result ≡ is_over self.now.course }
    {
        matches!(self.course, Course::Over(_) | Course::LinkFailed)
    }

    // Whether it wanted memory.
    pub(crate) fn is_spent(&self) -> bool
        ensures { result ≡ is_spent self.now.course }
    {
        matches!(self.course, Course::Spent)
    }

    // Whether it has a link: it handles messages, or waits until its last block was taken.
    fn is_live(&self) -> bool
        ensures { result ≡ is_live self.now.course }
    {
        matches!(self.course, Course::Going | Course::Closing(_))
    }

    // Whether it handles messages.
    pub(crate) fn is_going(&self) -> bool
        ensures { result ≡ is_going self.now.course }
    {
        matches!(self.course, Course::Going)
    }

    // Whether a waiting block stalled in this round.
    pub(crate) fn is_blocked(&self) -> bool
        ensures { result ≡ is_blocked self.now.arrival }
    {
        matches!(self.arrival, Arrival::Blocked)
    }

    // What it has to offer is whole messages.
    pub(crate) fn holds_whole_messages(&self)
        ensures block { AreWhole self.now.block }
        ensures outgoing { AreWhole self.now.outgoing }
    {
        let _block = self.block.octets();
        let _outgoing = self.outgoing.octets();
    }

    // Whether there is a block.
    pub(crate) fn has_block(&self) -> bool
        ensures { result ≡ has_block self.now }
    {
        !self.block.is_empty()
    }
}

// The steps of listen.
impl Standing {
    // A round begins, with nothing heard.
    pub(crate) fn begin_round(&mut self)
        ensures { self.new ≡ round_begun self.old }
    {
        self.arrival = Arrival::Nothing;
        self.relieved = false;
    }

    // Whether a block is offered before the link is polled.
    pub(crate) fn waits(&self) -> bool
        ensures { result ≡ waits self.now }
    {
        self.is_live() && self.has_block()
    }

    // The block that waited was offered, and answered so.
    pub(crate) fn end_wait(&mut self, answer: Offer)
        ensures { self.new ≡ after_wait self.old answer }
    {
        match answer {
            Offer::Whole => {
                self.block.clear();
                self.relieved = true;
            }
            Offer::Stalled => self.arrival = Arrival::Blocked,
            Offer::Failed => self.course = Course::LinkFailing,
        }
    }

    // Whether the link is polled, where a whole message is held or not.
    pub(crate) fn may_poll(&self, is_held: bool) -> bool
        ensures { result ≡ may_poll_by self.now is_held }
    {
        self.is_going() && !self.is_blocked() && !is_held
    }
}

// The steps of step.
impl Standing {
    // The round has a moment: that of what listen heard and handed over.
    pub(crate) fn enter(&mut self, now: u128)
        ensures { self.new ≡ at_moment self.old now }
    {
        self.moment = now;
        if self.relieved {
            self.sent = now;
        }
        if let Arrival::Octets = self.arrival {
            self.heard = now;
        }
    }

    // It wanted memory, and does nothing any more.
    pub(crate) fn spend(&mut self)
        ensures { self.new ≡ record self.old { course = Spent } }
    {
        self.course = Course::Spent;
    }

    // Whether the round handles no message.
    pub(crate) fn is_idle(&self) -> bool
        ensures { result ≡ is_idle self.now }
    {
        self.is_blocked() || !self.is_going()
    }

    // Whether the step comes without its listen, over a block that waits.
    pub(crate) fn is_out_of_turn(&self) -> bool
        ensures { result ≡ (not (is_idle self.now) && has_block self.now) }
    {
        !self.is_idle() && self.has_block()
    }

    // What the service kept is gone.
    pub(crate) fn drop_service(&mut self)
        ensures { self.new ≡ record self.old { service = unserved; outgoing = [] } }
    {
        self.service = ServiceState::Nothing;
        self.outgoing.clear();
    }

    // An end, at which nothing more is offered.
    pub(crate) fn end(&mut self, end: Ended)
        ensures { self.new ≡ ended_by self.old end }
    {
        self.course = Course::Over(end);
        self.block.clear();
        self.drop_service();
    }

    // This provider aborts.
    pub(crate) fn abort(&mut self, diagnostic: PeerAbortDiagnostic)
        ensures { self.new ≡ aborted self.old diagnostic }
    {
        self.end(Ended::Aborted { diagnostic });
    }

    // Whether the peer closed.
    pub(crate) fn has_closed(&self) -> bool
        ensures { result ≡ has_closed self.now.arrival }
    {
        matches!(self.arrival, Arrival::Closed)
    }

    // With no message left, a close ends the session.
    pub(crate) fn end_if_closed(&mut self)
        ensures { self.new ≡ (if has_closed self.old.arrival
            then ended_by self.old PeerClosed else self.old) }
    {
        if self.has_closed() {
            self.end(Ended::PeerClosed);
        }
    }

    // What its heartbeats and its dead timer are judged by.
    fn beat(&self) -> Beat
        ensures { result ≡ pulse_of self.now }
    {
        let mut beat = Beat::new(self.interval, self.factor, self.sent);
        beat.heard(self.heard);
        beat
    }

    // Whether the peer is taken for dead.
    pub(crate) fn is_dead(&self) -> bool
        ensures { result ≡ is_dead (pulse_of self.now) self.now.moment }
    {
        self.beat().dead(self.moment)
    }

    // Whether a heartbeat is due.
    fn is_due(&self) -> bool
        ensures { result ≡ is_due (pulse_of self.now) self.now.moment }
    {
        self.beat().due(self.moment)
    }

    // Aborts where the dead timer has run out.
    pub(crate) fn look_at_timer(&mut self)
        ensures { self.new ≡ timed self.old }
    {
        if self.is_live() && self.is_dead() {
            self.abort(PeerAbortDiagnostic::CommunicationsFailure);
        }
    }

    // Makes a heartbeat the block, where there is none and a heartbeat is due.
    pub(crate) fn put_heartbeat(&mut self)
        ensures { self.new ≡ with_heartbeat self.old }
    {
        if self.is_live() && !self.has_block() && self.is_due() {
            self.block.put_heartbeat();
        }
    }
}

// The steps of speak.
impl Standing {
    // Whether the block is offered.
    pub(crate) fn may_speak(&self) -> bool
        ensures { result ≡ may_speak self.now }
    {
        self.is_live() && self.has_block() && !self.is_blocked()
    }

    // The block was offered, and answered so.
    pub(crate) fn end_offer(&mut self, answer: Offer)
        ensures { self.new ≡ after_offer self.old answer }
    {
        match answer {
            Offer::Whole => {
                self.block.clear();
                self.sent = self.moment;
            }
            Offer::Stalled => {}
            Offer::Failed => self.course = Course::LinkFailing,
        }
    }

    // A closing session ends once its block was taken whole, and one whose link fails ends with the
    // round.
    pub(crate) fn end_round(&mut self)
        ensures { self.new ≡ round_ended self.old }
    {
        self.course = course_at_end(self.course, self.has_block());
    }
}

// How a session goes on at the end of a round, where a block waits or not.
fn course_at_end(course: Course, waits: bool) -> Course
    ensures { result ≡ course_at_end course waits }
{
    match course {
        Course::Closing(end) => { if waits { course } else { Course::Over(end) } }
        Course::LinkFailing => Course::LinkFailed,
        _ => course,
    }
}
