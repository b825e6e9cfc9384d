// A control centre: a user, the link in memory over which it hears its provider, and what it
// printed.
ghost use Rattle.std.specs.Prelude.{◌<◌, ◌≤◌, length};
ghost use Rattle.cds_time.specs.declared.cds.TheConstants.{MOMENT_END};

use crate::tasks::task_of;
use crate::texts::{put_calls, put_status};
use link_model::{Link, MemoryLink, Poll};
use octet_core::{Memory, Octets};
use std::alloc::Global;
use std::str;
use std::test::Fail;
use user_core::{Heard, Status, Turned, User};

#[derive(Drop)]
pub struct Centre {
    user: User,
    link: MemoryLink,
    lines: Vec<u8>,
    status: Option<Status>,
}

// 20,000 days and so many seconds, in picoseconds.
fn moment_of(seconds: u32) -> u128
    ensures { result < MOMENT_END }
{
    (1_728_000_000 + u128::from(seconds.min(1_000_000_000))) * 1_000_000_000_000
}

// What a poll heard.
fn heard_of(poll: Poll, space: &[u8]) -> Heard<'_> {
    match poll {
        Poll::Arrived(count) => Heard::Octets(space.get(..count).unwrap_or(&[])),
        Poll::Closed => Heard::Closed,
        _ => Heard::Nothing,
    }
}

impl Centre {
    /// One whose task has this name; none where the task doesn't fit.
    pub fn new(alloc: Global, name: &str) -> Result<Option<Centre>, Memory> {
        let task = task_of(alloc, name)?;
        if !task.fits() {
            return Ok(None);
        }
        Ok(Some(Centre {
            user: User::new(alloc, task),
            link: MemoryLink::new(alloc, Vec::new(alloc)),
            lines: Vec::new(alloc),
            status: None,
        }))
    }

    /// These octets come, in one piece.
    pub fn arrive(&mut self, alloc: Global, piece: &[u8]) -> Result<(), Memory> {
        self.link.arrive(Octets::copy_of(alloc, piece)?)
    }

    /// The provider closes.
    pub fn shut(&mut self) {
        self.link.shut();
    }

    // Offers and prints what a turn says.
    fn take(&mut self, turned: Turned) -> Result<(), Memory> {
        if !turned.offer.is_empty() {
            self.link.offer(turned.offer.as_slice());
        }
        self.lines.extend_from_slice(turned.lines.as_slice())?;
        self.status = turned.status;
        Ok(())
    }

    /// Makes a turn with one poll, so many seconds behind 20,000 days. A block may wait in it, and the
    /// user may be asked to end.
    pub fn turn(&mut self, seconds: u32, waits: bool, asked: bool) -> Result<(), Memory> {
        let mut space = [0; 2048];
        let poll = self.link.poll(&mut space);
        let now = moment_of(seconds);
        let turned = self.user.turn(now, waits, asked, heard_of(poll, &space))?;
        self.take(turned)
    }

    /// Tells what was offered and printed since it was last told, and the status.
    pub fn tell(&mut self, alloc: Global) -> Result<String, Fail> {
        let mut text = String::new(alloc);
        put_calls(alloc, self.link.take_told(), &mut text)?;
        text.push_str(str::from_utf8(self.lines.as_slice()).unwrap_or("no text"))?;
        self.lines.clear();
        put_status(self.status, &mut text)?;
        Ok(text)
    }
}
