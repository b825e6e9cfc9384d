// A user.
ghost use Rattle.std.specs.Prelude.{◌≡◌, ◌<◌, IsTrue, OnOk, OnErr, IfOk, Some};
ghost use Rattle.cds_time.specs.declared.cds.TheConstants.{MOMENT_END};
ghost use Rattle.user_task.specs.Fitting.{fits_task};
ghost use Rattle.user_core.specs.declared.status.Status.TheVariants as Status;
ghost use Rattle.user_core.specs.Hearing.{hearing_of, heard_in, heard_unread, unread_in, kept_of, stream_in};
ghost use Rattle.user_core.specs.Turn.{new_user, turned, answered, answer_of, talk_in};

use crate::dialogue::Dialogue;
use crate::hearing::Heard;
use crate::status::Status;
use crate::stream::Stream;
use cds_time::MOMENT_END;
use octet_core::Memory;
use std::alloc::{AllocError, Global};
use std::marker::Model;
use user_task::Task;

/// A user of a provider, whose invocations its task names.
#[derive(Drop)]
pub struct User {
    alloc: Global,
    task: Task,
    dialogue: Dialogue,
    stream: Stream,
}

impl Model for User {
    ghost use Rattle.std.specs.Prelude.{IsTrue};
    ghost use Rattle.user_task.specs.Fitting.{fits_task};
    ghost use Rattle.user_core.specs.Turn.{Standing};

    ghost Value = { Standing };

    ghost view = { λ u. record {
      task = u.task;
      course = u.dialogue.course;
      latest = u.dialogue.latest;
      beat = u.dialogue.beat;
      stream = u.stream;
    } };

    ghost invariant = { λ u. IsTrue (fits_task u.task) };
}

/// What a user does in a turn.
#[derive(Drop)]
pub struct Turned {
    /// The octets to be offered.
    pub offer: Vec<u8>,
    /// The lines to be printed.
    pub lines: Vec<u8>,
    /// How the user ended, once it has.
    pub status: Option<Status>,
}

impl User {
    /// A user that said nothing yet.
    pub fn new(alloc: Global, task: Task) -> User
        requires { IsTrue (fits_task task) }
        ensures { result ≡ new_user task }
    {
        let dialogue = Dialogue::new(alloc, task.draw);
        User {
            alloc,
            task,
            dialogue,
            stream: Stream::new(alloc),
        }
    }

    /// Hears what came by `now`, a moment in picoseconds since 1958-01-01, and answers what is to be
    /// offered and printed, and how the user ended, once it has. `waits` says that an earlier block
    /// isn't taken yet and is offered again in this turn: then no heartbeat is due. One who receives
    /// frames and is `asked` to end says STOP once START's return came, and UNBIND once STOP's did.
    /// Where memory is refused the user ends.
    pub fn turn(
        &mut self,
        now: u128,
        waits: bool,
        asked: bool,
        heard: Heard<'_>,
    ) -> Result<Turned, Memory>
        requires { now < MOMENT_END }
        ensures state { OnOk result (self.new
            ≡ turned self.old waits asked now (hearing_of heard.entry)) }
        ensures answer { IfOk result (λ t. answer_of t
            ≡ answered self.old waits asked now (hearing_of heard.entry)) }
        ensures memory { OnErr result (self.new.course.status ≡ Some Status.OutOfMemory) }
    {
        if let Some(status) = self.dialogue.status() {
            return Ok(Turned {
                offer: Vec::new(self.alloc),
                lines: Vec::new(self.alloc),
                status: Some(status),
            });
        }
        let User {
            alloc,
            task,
            dialogue,
            stream,
        } = self;
        match run(*alloc, task, dialogue, stream, now, waits, asked, heard) {
            Ok(()) => {
                let (offer, lines) = dialogue.take(*alloc);
                let status = dialogue.status();
                Ok(Turned {
                    offer,
                    lines,
                    status,
                })
            }
            Err(_) => {
                dialogue.fail();
                Err(Memory)
            }
        }
    }
}

// Runs a turn of a user that isn't over.
fn run(
    alloc: Global,
    task: &Task,
    dialogue: &mut Dialogue,
    stream: &mut Stream,
    now: u128,
    waits: bool,
    asked: bool,
    heard: Heard<'_>,
) -> Result<(), AllocError>
    requires fits { IsTrue (fits_task task.now) }
    requires moment { now < MOMENT_END }
    ensures talk { OnOk result (dialogue.new
        ≡ talk_in task.now waits asked now dialogue.old stream.old (hearing_of heard.entry)) }
    ensures stream { OnOk result (stream.new ≡ stream_in stream.old (hearing_of heard.entry)) }
{
    dialogue.begin(waits, now);
    dialogue.open(alloc, task, now)?;
    dialogue.ask(alloc, task, asked, now)?;
    hear(alloc, task, dialogue, stream, now, heard)?;
    dialogue.beat(now)
}

// Hears what came.
fn hear(
    alloc: Global,
    task: &Task,
    dialogue: &mut Dialogue,
    stream: &mut Stream,
    now: u128,
    heard: Heard<'_>,
) -> Result<(), AllocError>
    requires fits { IsTrue (fits_task task.now) }
    requires moment { now < MOMENT_END }
    ensures talk { OnOk result (dialogue.new
        ≡ heard_in task.now now stream.old (hearing_of heard.entry) dialogue.old) }
    ensures stream { OnOk result (stream.new ≡ stream_in stream.old (hearing_of heard.entry)) }
{
    match heard {
        Heard::Nothing => Ok(()),
        Heard::Octets(octets) => hear_octets(alloc, task, dialogue, stream, now, octets),
        Heard::Closed => dialogue.close(task, stream.place(), stream.rest()),
    }
}

#[tactic(auto, using(crate::proofs::Rests::last_are_rest))]
fn hear_octets(
    alloc: Global,
    task: &Task,
    dialogue: &mut Dialogue,
    stream: &mut Stream,
    now: u128,
    octets: &[u8],
) -> Result<(), AllocError>
    requires fits { IsTrue (fits_task task.now) }
    requires moment { now < MOMENT_END }
    ensures talk { OnOk result (dialogue.new
        ≡ heard_unread task.now now (unread_in stream.old octets.now) dialogue.old) }
    ensures stream { OnOk result (stream.new ≡ kept_of (unread_in stream.old octets.now)) }
{
    stream.append(octets)?;
    let mut messages = stream.messages();
    dialogue.hear_all(alloc, task, &mut messages, now)?;
    let place = messages.place();
    let left = messages.left().len();
    stream.keep(place, left);
    Ok(())
}
