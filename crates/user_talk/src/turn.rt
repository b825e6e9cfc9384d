// A turn of a talk.
ghost use Rattle.std.specs.Prelude.{◌≡◌, ◌⊎◌, ◌<◌, IsTrue, IfOk, OnOk, OnErr, IsErrOf};
ghost use Rattle.cds_time.specs.declared.cds.TheConstants.{MOMENT_END};
ghost use Rattle.link_model.specs.Calls.{Tells};
ghost use Rattle.link_model.specs.Counts.{CountsWhere};
ghost use Rattle.octet_core.specs.Fault.{Rose};
ghost use Rattle.octet_core.specs.Written.{Gains, GainsFront};
ghost use Rattle.user_core.specs.Hearing.{hearing_of};
ghost use Rattle.user_task.specs.Fitting.{fits_task};
ghost use Rattle.user_talk.specs.Outbox.{offered, any_failed};
ghost use Rattle.user_talk.specs.Rounds.{begun, answer_at, queued_at, after_turn_at};
ghost use Rattle.user_talk.specs.declared.turn.Stop.TheVariants as Stop;

use crate::outbox::{Answers, Outbox};
use crate::reading::Reading;
use link_model::Link;
use octet_core::Sink;
use std::alloc::Global;
use std::marker::Model;
use user_core::{Heard, Status, User};
use user_task::Task;

// A user and what it has to offer.
#[derive(Drop)]
pub(crate) struct Talk {
    user: User,
    outbox: Outbox,
}

impl Model for Talk {
    ghost use Rattle.user_talk.specs.Rounds.{TalkState};

    ghost Value = { TalkState };

    ghost view = { λ t. record { user = t.user; outbox = t.outbox } };
}

// What came of a turn.
#[derive(Clone, Copy, Debug)]
pub(crate) struct Turn {
    // How the user ended, once it has.
    pub status: Option<Status>,
    pub answers: Answers,
}

// Why a turn was broken off before its offers.
#[derive(Clone, Copy, Debug, PartialEq, Eq)]
pub(crate) enum Stop {
    // The output failed.
    WriteFault,
    // Memory was refused.
    Memory,
}

impl Talk {
    pub(crate) fn new(alloc: Global, task: Task) -> Talk
        requires { IsTrue (fits_task task) }
        ensures { result ≡ begun task }
    {
        Talk {
            user: User::new(alloc, task),
            outbox: Outbox::new(alloc),
        }
    }

    // Hears what came by the moment of a reading, prints, and offers what is to be offered.
    #[tactic(auto, using(crate::proofs::Turned::same_status, crate::proofs::Turned::front_none, crate::proofs::Turned::front_all))]
    pub(crate) fn turn<L: Link, O: Sink>(
        &mut self,
        read: Reading,
        heard: Heard<'_>,
        link: &mut L,
        output: &mut O,
    ) -> Result<Turn, Stop>
        requires { read.now < MOMENT_END }
        ensures state { IfOk result (λ t. self.new
            ≡ after_turn_at self.old read (hearing_of heard.entry) t.answers) }
        ensures status { IfOk result (λ t. t.status ≡ self.new.user.course.status) }
        ensures told { IfOk result (λ t. Tells (L.calls link.old) (L.calls link.new)
            (offered (queued_at self.old read (hearing_of heard.entry)) t.answers)) }
        ensures faults { IfOk result (λ t. CountsWhere (any_failed t.answers)
            (L.faults link.old) (L.faults link.new)) }
        ensures unheard { OnErr result (link.new ≡ link.old) }
        ensures printed { OnOk result (Gains (O.written output.old) (O.written output.new)
            (answer_at self.old read (hearing_of heard.entry)).lines) }
        ensures front { OnErr result (GainsFront (O.written output.old) (O.written output.new)
            (answer_at self.old read (hearing_of heard.entry)).lines) }
        ensures kept { IsErrOf result Stop.WriteFault
            ⊎ (O.faults output.new ≡ O.faults output.old) }
        ensures rose { IsErrOf result Stop.WriteFault
            → Rose (O.faults output.old) (O.faults output.new) }
    {
        let waits = self.outbox.waits();
        let Ok(turned) = self.user.turn(read.now, waits, read.asked, heard) else {
            return Err(Stop::Memory);
        };
        if output.put_all(turned.lines.as_slice()).is_err() {
            return Err(Stop::WriteFault);
        }
        if self.outbox.put(turned.offer.as_slice()).is_err() {
            return Err(Stop::Memory);
        }
        Ok(Turn {
            status: turned.status,
            answers: self.outbox.offer(link),
        })
    }
}
