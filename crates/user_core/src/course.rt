// How far a user's task has come.
ghost use Rattle.std.specs.Prelude.{◌≡◌, ◌+◌, ◌<◌, ◌^◌};
ghost use Rattle.user_task.specs.Invocation.{said_of};
ghost use Rattle.user_core.specs.Course.{first_course, is_over, rests, has_begun, ends_in, before_cltus};
ghost use Rattle.user_core.specs.Course.{was_last, same_invoke, is_awaited, answered, closes, aborted, ended, after};
ghost use Rattle.user_core.specs.Course.{may_say, finished, awaited_of, said_course, invoke_at, has_no_cltu, receives};

use crate::event::Event;
use crate::status::Status;
use user_lines::Tag;
use user_task::{CltuLine, Invocation, Work};

/// A return that is awaited.
#[derive(Clone, Copy, Debug)]
pub struct Awaited {
    pub tag: Tag,
    /// The number of its invocation, where that has one.
    pub invoke: Option<u16>,
}

/// How far a user's task has come.
#[derive(Clone, Copy, Debug)]
pub struct Course {
    /// How many invocations were said.
    pub said: usize,
    /// The return of the last one, where it didn't come yet.
    pub awaited: Option<Awaited>,
    /// Whether what STOP waits for came.
    pub closing: bool,
    /// How the user ended, once it has.
    pub status: Option<Status>,
}

impl Course {
    pub(crate) fn new() -> Course
        ensures { result ≡ first_course }
    {
        Course {
            said: 0,
            awaited: None,
            closing: false,
            status: None,
        }
    }

    pub(crate) fn is_over(&self) -> bool
        ensures { result ≡ is_over self.now }
    {
        self.status.is_some()
    }

    // Whether nothing can be said now.
    pub(crate) fn rests(&self) -> bool
        ensures { result ≡ rests self.now }
    {
        self.status.is_some() || self.awaited.is_some()
    }

    // The course once this was heard.
    #[tactic(auto, unfolding(crate::specs::Course::after))]
    pub(crate) fn after(self, work: &Work, event: Event) -> Course
        ensures { result ≡ after work.now event self }
    {
        match event {
            Event::Nothing => self,
            Event::Returned {
                tag,
                invoke,
                refused,
            } => self.answered(is_awaited(self.awaited, tag, invoke), refused),
            Event::Halted | Event::EndOfData => self.closes(has_begun(self.said)),
            Event::Emptied { last_ok } => self.closes(was_last(work, self.said, last_ok)),
            Event::Aborted => self.aborted(work.is_show()),
        }
    }

    fn answered(self, fits: bool, refused: bool) -> Course
        ensures { result ≡ answered fits refused self }
    {
        match (fits, refused) {
            (false, _) => self,
            (true, true) => self.ended(Status::Refused),
            (true, false) => Course {
                awaited: None,
                ..self
            },
        }
    }

    pub(crate) fn closes(self, came: bool) -> Course
        ensures { result ≡ closes came self }
    {
        if came {
            Course {
                closing: true,
                ..self
            }
        } else {
            self
        }
    }

    fn aborted(self, reads: bool) -> Course
        ensures { result ≡ aborted reads self }
    {
        if reads {
            self
        } else {
            self.ended(Status::PeerEnded)
        }
    }

    pub(crate) fn ended(self, status: Status) -> Course
        ensures { result ≡ ended status self }
    {
        Course {
            status: Some(status),
            ..self
        }
    }
}

// Whether START was said.
fn has_begun(said: usize) -> bool
    ensures { result ≡ has_begun said }
{
    2 <= said
}

// Whether all CLTUs were said and the last of them has this identification.
fn was_last(work: &Work, said: usize, id: Option<u32>) -> bool
    ensures { result ≡ was_last work.now said id }
{
    let cltus = work.cltus();
    match id {
        Some(id) => cltus.len() <= said.saturating_sub(before_cltus(work)) && ends_in(cltus, id),
        None => false,
    }
}

// How many invocations come before the first CLTU: BIND, START and what asks for reports.
fn before_cltus(work: &Work) -> usize
    ensures { result ≡ before_cltus work.now }
{
    match work.report() {
        Some(_) => 3,
        None => 2,
    }
}

fn ends_in(cltus: &[CltuLine], id: u32) -> bool
    ensures { result ≡ ends_in cltus.now id }
{
    match cltus.last() {
        Some(line) => line.id == id,
        None => false,
    }
}

fn is_awaited(awaited: Option<Awaited>, tag: Tag, invoke: Option<u16>) -> bool
    ensures { result ≡ is_awaited awaited tag invoke }
{
    match awaited {
        Some(awaited) => {
            awaited.tag.number() == tag.number() && same_invoke(awaited.invoke, invoke)
        }
        None => false,
    }
}

fn same_invoke(a: Option<u16>, b: Option<u16>) -> bool
    ensures { result ≡ same_invoke a b }
{
    match (a, b) {
        (None, None) => true,
        (Some(a), Some(b)) => a == b,
        _ => false,
    }
}

impl Course {
    // Whether the time for the next invocation has come, once it is known which.
    pub(crate) fn may_say(&self, work: &Work, invocation: &Invocation<'_>) -> bool
        ensures { result ≡ may_say work.now self.now (said_of invocation.now) }
    {
        match invocation {
            Invocation::Stop => self.closing || has_no_cltu(work),
            _ => true,
        }
    }

    // The course once this was said.
    pub(crate) fn with(self, invocation: &Invocation<'_>) -> Course
        requires { self.said + 1 < 2 ^ 64 }
        ensures { result ≡ said_course (said_of invocation.now) self }
    {
        Course {
            said: self.said + 1,
            awaited: Awaited::of(invocation, self.invoke()),
            ..self
        }
    }

    // The invoke identifier of the next invocation, where that has one.
    pub(crate) fn invoke(&self) -> u16
        ensures { result ≡ invoke_at self.now.said }
    {
        (self.said.saturating_sub(1) % 65_536) as u16
    }

    // The course behind the last invocation.
    pub(crate) fn finished(self, work: &Work) -> Course
        ensures { result ≡ finished work.now self }
    {
        if work.is_show() {
            self
        } else {
            self.ended(Status::Done)
        }
    }
}

// Whether the work is to receive frames, which ends once it is asked to.
pub(crate) fn receives(work: &Work) -> bool
    ensures { result ≡ receives work.now }
{
    matches!(work, Work::Raf { .. } | Work::Rcf { .. })
}

// Whether the work is to send telecommands, and there are none.
fn has_no_cltu(work: &Work) -> bool
    ensures { result ≡ has_no_cltu work.now }
{
    match work {
        Work::Cltu { cltus, .. } => cltus.lines().is_empty(),
        _ => false,
    }
}

impl Awaited {
    // The return of an invocation with this number, where it is awaited.
    fn of(invocation: &Invocation<'_>, invoke: u16) -> Option<Awaited>
        ensures { result ≡ awaited_of (said_of invocation.now) invoke }
    {
        let (tag, invoke) = match invocation {
            Invocation::Bind => (Tag::BindReturn, None),
            Invocation::Start => (Tag::StartReturn, Some(invoke)),
            Invocation::Schedule(_) => return None,
            Invocation::Transfer(_) => (Tag::TransferReturn, Some(invoke)),
            Invocation::Stop => (Tag::StopReturn, Some(invoke)),
            Invocation::Unbind => (Tag::UnbindReturn, None),
        };
        Some(Awaited { tag, invoke })
    }
}
