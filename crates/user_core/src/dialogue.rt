// What a user says and prints in a turn.
ghost use Rattle.std.specs.Prelude.{◌≡◌, ◌+◌, ◌<◌, ◌^◌, [], IsTrue, OnOk, is_some, true};
ghost use Rattle.cds_time.specs.declared.cds.TheConstants.{MOMENT_END};
ghost use Rattle.isp1_tml.specs.Given.{content_of};
ghost use Rattle.user_core.specs.Hearing.{heard_unread, all_given};
ghost use Rattle.user_core.specs.declared.status.Status.TheVariants as Status;
ghost use Rattle.user_task.specs.Fitting.{fits_task, fits_said};
ghost use Rattle.user_task.specs.Invocation.{said_of};
ghost use Rattle.user_core.specs.Dialogue.{first_dialogue, begun, opened, heard, told_to};
ghost use Rattle.user_core.specs.Dialogue.{went_on, going_on, reporting, said_to, greeted, spoken, asked_to};
ghost use Rattle.user_core.specs.Dialogue.{bad_at, closed_at, beating, is_due, ended_by, refused_at};

use crate::course::{Course, receives};
use crate::event::Event;
use crate::status::Status;
use cds_time::MOMENT_END;
use isp1_auth::RandomNumbers;
use isp1_tml::{Beat, Message, Messages, head};
use std::alloc::{AllocError, Global};
use std::marker::Model;
use std::mem;
use user_lines::{Told, put_bad, put_told};
use user_task::{Invocation, Task};

// The interval of heartbeats in seconds, and the dead factor, as the context says them.
const INTERVAL: u16 = 30;

const FACTOR: u16 = 5;

// The kind of a transport message that is a heartbeat.
const HEARTBEAT: u8 = 3;

// The context's message (CCSDS 913.1-B).
const CONTEXT: [u8; 20] = *b"\x02\0\0\0\0\0\0\x0cISP1\0\0\0\x01\0\x1e\0\x05";

/// Where a user's task stands, and what the user says and prints in a turn.
#[derive(Drop)]
pub struct Dialogue {
    course: Course,
    numbers: RandomNumbers,
    beat: Beat,
    offer: Vec<u8>,
    lines: Vec<u8>,
}

impl Model for Dialogue {
    ghost use Rattle.user_core.specs.Dialogue.{Talk};

    ghost Value = { Talk };

    ghost view = { λ d. record {
      course = d.course;
      latest = d.numbers;
      beat = d.beat;
      offer = d.offer.items;
      lines = d.lines.items;
    } };
}

impl Dialogue {
    pub(crate) fn new(alloc: Global, draw: u32) -> Dialogue
        ensures { result ≡ first_dialogue draw }
    {
        Dialogue {
            course: Course::new(),
            numbers: RandomNumbers::new(draw, 0),
            beat: Beat::new(INTERVAL, FACTOR, 0),
            offer: Vec::new(alloc),
            lines: Vec::new(alloc),
        }
    }

    // Begins a turn; a block that waits is offered again in it.
    pub(crate) fn begin(&mut self, waits: bool, now: u128)
        ensures { self.new ≡ begun waits now self.old }
    {
        if waits {
            self.beat.sent(now);
        }
        self.offer.clear();
        self.lines.clear();
    }

    // Says BIND, where nothing was said before.
    #[tactic(auto, unfolding(crate::specs::Dialogue::opened))]
    pub(crate) fn open(&mut self, alloc: Global, task: &Task, now: u128) -> Result<(), AllocError>
        requires fits { IsTrue (fits_task task.now) }
        requires moment { now < MOMENT_END }
        ensures { OnOk result (self.new ≡ opened task.now now self.old) }
    {
        if self.course.said == 0 {
            self.go_on(alloc, task, now)
        } else {
            Ok(())
        }
    }

    // Says STOP where the user is asked to end, and its time has come.
    #[tactic(auto, unfolding(crate::specs::Dialogue::asked_to))]
    pub(crate) fn ask(
        &mut self,
        alloc: Global,
        task: &Task,
        asked: bool,
        now: u128,
    ) -> Result<(), AllocError>
        requires fits { IsTrue (fits_task task.now) }
        requires moment { now < MOMENT_END }
        ensures { OnOk result (self.new ≡ asked_to task.now asked now self.old) }
    {
        if !asked || !receives(&task.work) {
            return Ok(());
        }
        self.course = self.course.closes(true);
        self.go_on(alloc, task, now)
    }

    // Hears a message at this place of the stream.
    #[tactic(auto, unfolding(crate::specs::Dialogue::heard))]
    pub(crate) fn hear(
        &mut self,
        alloc: Global,
        task: &Task,
        message: Message<'_>,
        place: u64,
        now: u128,
    ) -> Result<(), AllocError>
        requires fits { IsTrue (fits_task task.now) }
        requires moment { now < MOMENT_END }
        ensures { OnOk result
            (self.new ≡ heard task.now now place self.old (content_of message.entry)) }
    {
        if self.course.is_over() {
            return Ok(());
        }
        match Told::of(task.work.service(), message) {
            Some(told) => {
                self.tell(task, told)?;
                self.go_on(alloc, task, now)
            }
            None => self.end_bad(place),
        }
    }

    // Hears the messages that came whole, and that the octets behind them are refused, where they are.
    pub(crate) fn hear_all(
        &mut self,
        alloc: Global,
        task: &Task,
        messages: &mut Messages<'_>,
        now: u128,
    ) -> Result<(), AllocError>
        requires fits { IsTrue (fits_task task.now) }
        requires moment { now < MOMENT_END }
        ensures talk { OnOk result (self.new ≡ heard_unread task.now now messages.old self.old) }
        ensures given { OnOk result (messages.new ≡ all_given messages.old) }
    {
        let mut place = messages.place();
        while let Ok(Some(message)) = messages.next_message() {
            self.hear(alloc, task, message, place, now)?;
            place = messages.place();
        }
        self.hear_end(messages)
    }

    // Behind the last message of what came: the octets there may be refused.
    fn hear_end(&mut self, messages: &mut Messages<'_>) -> Result<(), AllocError>
        requires { messages.old.messages ≡ [] }
        ensures talk { OnOk result
            (self.new ≡ refused_at (is_some messages.old.fault) messages.old.place self.old) }
        ensures given { OnOk result (messages.new ≡ messages.old) }
    {
        let place = messages.place();
        match messages.next_message() {
            Ok(_) => Ok(()),
            Err(_) => self.refuse(place),
        }
    }

    // Prints what is told, and takes it for the task.
    #[tactic(auto, unfolding(crate::specs::Dialogue::told_to, crate::specs::Event::event_of))]
    fn tell(&mut self, task: &Task, told: Told<'_>) -> Result<(), AllocError>
        ensures { OnOk result (self.new ≡ told_to task.now self.old told.entry) }
    {
        let plain = Event::plain(&told);
        let ends = put_told(told, &mut self.lines)?;
        let event = if ends { Event::EndOfData } else { plain };
        self.course = self.course.after(&task.work, event);
        Ok(())
    }

    fn end_bad(&mut self, place: u64) -> Result<(), AllocError>
        ensures { OnOk result (self.new ≡ bad_at place self.old) }
    {
        put_bad(place, &mut self.lines)?;
        self.course = self.course.ended(Status::BadMessage);
        Ok(())
    }

    // The octets at this place of the stream can't be a message.
    fn refuse(&mut self, place: u64) -> Result<(), AllocError>
        ensures { OnOk result (self.new ≡ refused_at true place self.old) }
    {
        if self.course.is_over() {
            return Ok(());
        }
        self.end_bad(place)
    }

    // The stream came to its end, with these octets left over.
    pub(crate) fn close(&mut self, task: &Task, place: u64, rest: &[u8]) -> Result<(), AllocError>
        ensures { OnOk result (self.new ≡ closed_at task.now place rest.now self.old) }
    {
        if !task.work.is_show() {
            self.course = self.course.ended(Status::PeerEnded);
            return Ok(());
        }
        if rest.is_empty() {
            self.course = self.course.ended(Status::Done);
            return Ok(());
        }
        self.end_bad(place)
    }

    // Says the next invocation, where its time has come, and before it what asks for reports.
    #[tactic(auto, unfolding(crate::specs::Dialogue::went_on))]
    fn go_on(&mut self, alloc: Global, task: &Task, now: u128) -> Result<(), AllocError>
        requires fits { IsTrue (fits_task task.now) }
        requires moment { now < MOMENT_END }
        ensures { OnOk result (self.new ≡ went_on task.now now self.old) }
    {
        if self.course.rests() {
            return Ok(());
        }
        self.report(alloc, task, now)?;
        self.say_next(alloc, task, now)
    }

    // Asks for reports, where that comes next.
    #[tactic(auto, unfolding(crate::specs::Dialogue::reporting))]
    fn report(&mut self, alloc: Global, task: &Task, now: u128) -> Result<(), AllocError>
        requires fits { IsTrue (fits_task task.now) }
        requires moment { now < MOMENT_END }
        ensures { OnOk result (self.new ≡ reporting task.now now self.old) }
    {
        match task.invocation(self.course.said) {
            Some(Invocation::Schedule(cycle)) => {
                self.say(alloc, task, Invocation::Schedule(cycle), now)
            }
            _ => Ok(()),
        }
    }

    // Says what comes next, where its time has come.
    #[tactic(auto, unfolding(crate::specs::Dialogue::going_on))]
    fn say_next(&mut self, alloc: Global, task: &Task, now: u128) -> Result<(), AllocError>
        requires fits { IsTrue (fits_task task.now) }
        requires moment { now < MOMENT_END }
        ensures { OnOk result (self.new ≡ going_on task.now now self.old) }
    {
        let Some(invocation) = task.invocation(self.course.said) else {
            self.course = self.course.finished(&task.work);
            return Ok(());
        };
        if !self.course.may_say(&task.work, &invocation) {
            return Ok(());
        }
        self.say(alloc, task, invocation, now)
    }

    // Says an invocation.
    #[tactic(auto, unfolding(crate::specs::Dialogue::said_to))]
    fn say(
        &mut self,
        alloc: Global,
        task: &Task,
        invocation: Invocation<'_>,
        now: u128,
    ) -> Result<(), AllocError>
        requires fits { IsTrue (fits_said task.now (said_of invocation)) }
        requires moment { now < MOMENT_END }
        requires place { self.old.course.said + 1 < 2 ^ 64 }
        ensures { OnOk result (self.new ≡ said_to task.now now self.old (said_of invocation.entry)) }
    {
        self.greet(&invocation)?;
        self.speak(alloc, task, invocation, now)
    }

    // Before BIND comes the context.
    fn greet(&mut self, invocation: &Invocation<'_>) -> Result<(), AllocError>
        ensures { OnOk result (self.new ≡ greeted (said_of invocation.now) self.old) }
    {
        match invocation {
            Invocation::Bind => self.offer.extend_from_slice(&CONTEXT),
            _ => Ok(()),
        }
    }

    fn speak(
        &mut self,
        alloc: Global,
        task: &Task,
        invocation: Invocation<'_>,
        now: u128,
    ) -> Result<(), AllocError>
        requires fits { IsTrue (fits_said task.now (said_of invocation)) }
        requires moment { now < MOMENT_END }
        requires place { self.old.course.said + 1 < 2 ^ 64 }
        ensures { OnOk result (self.new ≡ spoken task.now now self.old (said_of invocation.entry)) }
    {
        let number = self.numbers.next_number();
        let invoke = self.course.invoke();
        let course = self.course.with(&invocation);
        task.put(alloc, invocation, invoke, number, now, &mut self.offer)?;
        self.course = course;
        self.beat.sent(now);
        Ok(())
    }

    // Says a heartbeat, where one is due.
    #[tactic(auto, unfolding(crate::specs::Dialogue::beating))]
    pub(crate) fn beat(&mut self, now: u128) -> Result<(), AllocError>
        ensures { OnOk result (self.new ≡ beating now self.old) }
    {
        if self.course.said == 0 || self.course.is_over() || !is_due(&self.beat, now) {
            return Ok(());
        }
        self.offer.extend_from_slice(&head(HEARTBEAT, 0))?;
        self.beat.sent(now);
        Ok(())
    }

    // Memory was refused: the user ends.
    pub(crate) fn fail(&mut self)
        ensures { self.new ≡ ended_by Status.OutOfMemory self.old }
    {
        self.course = self.course.ended(Status::OutOfMemory);
    }

    // How the user ended, once it has.
    pub(crate) fn status(&self) -> Option<Status>
        ensures { result ≡ self.now.course.status }
    {
        self.course.status
    }

    // What is to be offered and printed.
    pub(crate) fn take(&mut self, alloc: Global) -> (Vec<u8>, Vec<u8>)
        ensures offer { result.0.items ≡ self.old.offer }
        ensures lines { result.1.items ≡ self.old.lines }
        ensures kept { self.new ≡ record self.old { offer = []; lines = [] } }
    {
        let offer = mem::replace(&mut self.offer, Vec::new(alloc));
        let lines = mem::replace(&mut self.lines, Vec::new(alloc));
        (offer, lines)
    }
}

fn is_due(beat: &Beat, now: u128) -> bool
    ensures { result ≡ is_due beat.now now }
{
    beat.due(now)
}
