// The book under calls.
ghost use Rattle.std.specs.Prelude.{◌≡◌, ◌≤◌, IfOk};

use super::call::{Answer, Call, What};
use cds_time::{Cds, Rest};
use cltu_queue::{Cltu, Taken};
use fcltu_numbers::{CltuProductionStatus, UplinkStatus};
use frame_select::{Filter, Glimpse, Selection, Want};
use octet_core::{Memory, Octets};
use record_form::{Entries, Entry};
use sle_numbers::{FrameQuality, RequestedFrameQuality};
use station_book::{Ask, Book, PublishFault};
use station_config::Site;
use std::alloc::{AllocError, Global};

// Instance 0 returns all frames, 1 is the forward service's with three octets of room, and 2
// returns a channel's frames.
const SITE: &[u8] = b"\
peer MOC none sha1 60 000000000000\n\
raf sagr=1.spack=P.rsl-fg=1.raf=onlt1 MOC timely 10 5 60\n\
cltu sagr=1.spack=P.fsl-fg=1.cltu=cltu1 MOC 3 2 60\n\
rcf sagr=1.spack=P.rsl-fg=1.rcf=onlc1 MOC complete 10 5 60 1/1/63\n";

// The book of the site over no entries.
pub fn book_of(alloc: Global, workers: u32) -> Result<Book, Memory>
    requires { workers ≤ 31 }
    ensures { IfOk result (λ book. book.opening.workers ≡ workers) }
{
    let Ok(site) = Site::parse(alloc, SITE) else {
        return Err(Memory);
    };
    Book::new(alloc, &site, Entries::new(alloc), workers)
}

// 20000/MILLIS/0.
fn time(millis: u32) -> Cds {
    Cds {
        days: 20_000,
        millis,
        rest: Rest::Micros(0),
    }
}

/// A frame of these octets, good where its time is even.
pub fn frame_of(alloc: Global, millis: u32, octets: &[u8]) -> Result<Entry, Memory> {
    Ok(Entry::Frame {
        ert: time(millis),
        quality: if millis % 2 == 0 {
            FrameQuality::Good
        } else {
            FrameQuality::Erred
        },
        antenna: Octets::copy_of(alloc, b"A")?,
        lost: 0,
        octets: Octets::copy_of(alloc, octets)?,
    })
}

fn frame(alloc: Global, millis: u32) -> Result<Entry, Memory> {
    frame_of(alloc, millis, &[0, 1])
}

fn frames(alloc: Global, first: u32, second: u32) -> Result<Entries, AllocError> {
    let mut entries = Entries::new(alloc);
    entries.push(frame(alloc, first)?)?;
    entries.push(frame(alloc, second)?)?;
    Ok(entries)
}

fn publish(alloc: Global, book: &mut Book, call: &Call) -> Result<Answer, Memory> {
    let Ok(entries) = frames(alloc, call.first, call.second) else {
        return Err(Memory);
    };
    match book.publish(entries) {
        Ok(()) => Ok(Answer::Fine),
        Err((PublishFault::Foreign, back)) => Ok(Answer::Foreign(back.len())),
        Err((PublishFault::Memory, _)) => Err(Memory),
    }
}

// A CLTU of one octet with no window, whose end is told.
fn cltu(alloc: Global, id: u32) -> Result<Cltu, Memory> {
    Ok(Cltu {
        id,
        earliest: None,
        latest: None,
        radiation_delay: 0,
        wanted: true,
        octets: Octets::copy_of(alloc, &[0x55])?,
    })
}

fn ask_of(alloc: Global, call: &Call) -> Result<Ask, Memory> {
    Ok(match call.what {
        What::Quiet => Ask::Quiet,
        What::Bind => Ask::Bind {
            instance: call.first,
        },
        What::Unbind => Ask::Unbind,
        What::Start => Ask::CltuStart { first: call.first },
        What::Transfer => Ask::CltuTransfer {
            cltu: cltu(alloc, call.first)?,
        },
        What::Stop => Ask::CltuStop,
        _ => Ask::Nothing,
    })
}

fn ask(alloc: Global, book: &mut Book, call: &Call) -> Result<Answer, Memory> {
    let ask = ask_of(alloc, call)?;
    let (reply, _, notice) = book.answer(call.door, u128::from(call.reading), &ask, &Want::Front)?;
    Ok(match notice {
        Some(notice) => Answer::Told(reply, notice.kind),
        None => Answer::Said(reply),
    })
}

// What a look wants: nothing, the front, or the good frames up to its stop.
fn want_of(call: &Call) -> Want {
    match call.what {
        What::Nowhere => Want::Nothing,
        What::Front => Want::Front,
        _ => Want::Items {
            selection: Selection {
                filter: Filter::Quality(RequestedFrameQuality::GoodFramesOnly),
                start: None,
                stop: time(call.reading).moment(),
                first: 0,
                notices: false,
            },
            place: u64::from(call.first),
            since: None,
            room: call.second,
            octets: 100,
        },
    }
}

// A look of no door, or the one in a door's answer.
fn glimpse(book: &mut Book, call: &Call) -> Result<Glimpse, Memory> {
    let want = want_of(call);
    if call.door == 0 {
        return book.look(&want);
    }
    let (_, glimpse, _) = book.answer(call.door, 0, &Ask::Quiet, &want)?;
    Ok(glimpse)
}

fn look(book: &mut Book, call: &Call) -> Result<Answer, Memory> {
    let seen = glimpse(book, call)?;
    Ok(Answer::Seen(
        seen.front,
        seen.items.len(),
        seen.next,
        seen.more,
        seen.closed,
    ))
}

fn take(book: &mut Book, call: &Call) -> Answer {
    match book.take(u128::from(call.reading)) {
        Taken::Idle => Answer::Idle,
        Taken::Waits { .. } => Answer::Waits,
        Taken::Expired { id } => Answer::Expired(id),
        Taken::Radiate { run, id, .. } => Answer::Radiates(run, id),
    }
}

fn uplink(book: &mut Book, call: &Call) {
    let production = match call.first {
        0 => CltuProductionStatus::Operational,
        1 => CltuProductionStatus::Configured,
        _ => CltuProductionStatus::Halted,
    };
    book.uplink(production, UplinkStatus::Nominal, u128::from(call.reading));
}

// A call of no answer.
fn tell(book: &mut Book, call: &Call) {
    let reading = u128::from(call.reading);
    match call.what {
        What::Quit => book.quit(call.door),
        What::Done => book.done(u64::from(call.first), call.second, reading),
        What::Interrupted => book.interrupted(u64::from(call.first), call.second, reading),
        _ => uplink(book, call),
    }
}

fn view(book: &Book) -> Answer {
    let view = book.view();
    Answer::Queue(book.peek(0), view.free, view.production)
}

#[derive(Drop)]
pub struct BookDesk {
    alloc: Global,
    book: Book,
}

impl BookDesk {
    pub fn new(alloc: Global) -> Result<BookDesk, Memory> {
        let book = book_of(alloc, 2)?;
        Ok(BookDesk { alloc, book })
    }

    /// Makes a call.
    pub fn call(&mut self, call: &Call) -> Result<Answer, Memory> {
        match call.what {
            What::Publish => publish(self.alloc, &mut self.book, call),
            What::Nowhere | What::Front | What::Look => look(&mut self.book, call),
            What::Take => Ok(take(&mut self.book, call)),
            What::View => Ok(view(&self.book)),
            What::Count => Ok(Answer::Count(self.book.front())),
            What::Quit | What::Done | What::Interrupted | What::Uplink => {
                tell(&mut self.book, call);
                Ok(Answer::Fine)
            }
            _ => ask(self.alloc, &mut self.book, call),
        }
    }
}
