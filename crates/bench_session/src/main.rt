// Has sessions make rounds over links in memory, so that the rounds can be timed.
//
// The words are `WORK SESSIONS ROUNDS`: so many sessions take a context and then make so many
// rounds each, in turn. In a round of `idle` nothing arrives; of `beats` a heartbeat does, and one
// is due; of `binds` a BIND does, of an instance that another door has. Of `buffers`, for up to 16
// sessions that are bound, each to an instance of its own, a START comes in the first round; each of
// the next hundred hands over a buffer of ten frames, until all that are stored were sent; and in
// the one behind them comes a STOP; and so on. A line tells how many octets the sessions handed
// over. With no words, one session makes three rounds of each work.
#![tactic(auto)]

mod line;

ghost use Rattle.std.specs.Prelude.{◌<◌};
ghost use Rattle.cds_time.specs.declared.cds.TheConstants.{MOMENT_END};
ghost use Rattle.station_config.specs.Validity.{IsSite};

use cds_time::{Cds, Rest};
use frame_select::Want;
use line::Line;
use octet_core::{Memory, Octets};
use record_form::{Entries, Entry};
use session_core::Session;
use sle_numbers::FrameQuality;
use station_book::{Ask, Book};
use station_config::Site;
use std::alloc::{AllocError, Global};
use std::{env, io};

/// Sixteen instances, whose buffers hold ten items.
const SITE: &[u8] = b"\
peer MOC none sha1 60 000000000000\n\
raf sagr=1.spack=P.rsl-fg=1.raf=onlc1 MOC complete 10 5 60\n\
raf sagr=1.spack=P.rsl-fg=1.raf=onlc2 MOC complete 10 5 60\n\
raf sagr=1.spack=P.rsl-fg=1.raf=onlc3 MOC complete 10 5 60\n\
raf sagr=1.spack=P.rsl-fg=1.raf=onlc4 MOC complete 10 5 60\n\
raf sagr=1.spack=P.rsl-fg=1.raf=onlc5 MOC complete 10 5 60\n\
raf sagr=1.spack=P.rsl-fg=1.raf=onlc6 MOC complete 10 5 60\n\
raf sagr=1.spack=P.rsl-fg=1.raf=onlc7 MOC complete 10 5 60\n\
raf sagr=1.spack=P.rsl-fg=1.raf=onlc8 MOC complete 10 5 60\n\
raf sagr=2.spack=P.rsl-fg=1.raf=onlc1 MOC complete 10 5 60\n\
raf sagr=2.spack=P.rsl-fg=1.raf=onlc2 MOC complete 10 5 60\n\
raf sagr=2.spack=P.rsl-fg=1.raf=onlc3 MOC complete 10 5 60\n\
raf sagr=2.spack=P.rsl-fg=1.raf=onlc4 MOC complete 10 5 60\n\
raf sagr=2.spack=P.rsl-fg=1.raf=onlc5 MOC complete 10 5 60\n\
raf sagr=2.spack=P.rsl-fg=1.raf=onlc6 MOC complete 10 5 60\n\
raf sagr=2.spack=P.rsl-fg=1.raf=onlc7 MOC complete 10 5 60\n\
raf sagr=2.spack=P.rsl-fg=1.raf=onlc8 MOC complete 10 5 60\n";

/// The interval 30 seconds, the dead factor 5 (CCSDS 913.1-B).
const CONTEXT: &[u8] = b"\x02\x00\x00\x00\x00\x00\x00\x0cISP1\x00\x00\x00\x01\x00\x1e\x00\x05";

const HEARTBEAT: &[u8] = b"\x03\x00\x00\x00\x00\x00\x00\x00";

/// A BIND of the site's peer to one of its instances (CCSDS 911.1-B, annex A): what stands before
/// the first digit that tells the instances apart, and between that one and the last.
const BIND: &[u8] = b"\
\x01\x00\x00\x00\x00\x00\x00\x5d\xbf\x64\x5a\x80\x00\x1a\x03MOC\x1a\x05PORT1\x02\x01\x00\
\x02\x01\x05\x30\x44\
\x31\x0e\x30\x0c\x06\x07\x2b\x70\x04\x03\x01\x02\x34\x1a\x01";

const BIND_ON: &[u8] = b"\
\x31\x0e\x30\x0c\x06\x07\x2b\x70\x04\x03\x01\x02\x35\x1a\x01P\
\x31\x0e\x30\x0c\x06\x07\x2b\x70\x04\x03\x01\x02\x26\x1a\x011\
\x31\x12\x30\x10\x06\x07\x2b\x70\x04\x03\x01\x02\x16\x1a\x05onlc";

const DIGITS: &[u8] = b"12345678";

/// A START from 20000 days on, of frames of each quality, and a STOP (CCSDS 911.1-B, annex A).
const START: &[u8] = b"\
\x01\x00\x00\x00\x00\x00\x00\x18\xa0\x16\x80\x00\x02\x01\x00\
\xa1\x0a\x80\x08\x4e\x20\x00\x00\x00\x00\x00\x00\x80\x00\x02\x01\x02";

const STOP: &[u8] = b"\x01\x00\x00\x00\x00\x00\x00\x07\xa2\x05\x80\x00\x02\x01\x00";

/// How many frames are stored, and of how many octets.
const FRAMES: u32 = 1_000;

const FRAME: [u8; 1_115] = [0x5a; 1_115];

/// After how many rounds comes a STOP, and after how many a START again.
const STOPS: u32 = 101;

const CYCLE: u32 = 102;

/// 30 seconds, in picoseconds.
const INTERVAL: u128 = 30_000_000_000_000;

/// 20000 days.
const LATEST: u128 = 1_728_000_000_000_000_000_000;

#[derive(Clone, Copy)]
enum Work {
    Idle,
    Beats,
    Binds,
    Buffers,
}

impl Work {
    fn of(word: &str) -> Work {
        match word {
            "beats" => Work::Beats,
            "binds" => Work::Binds,
            "buffers" => Work::Buffers,
            _ => Work::Idle,
        }
    }

    /// What arrives in a round of this number, where a BIND of the first instance has these octets.
    fn piece<'a>(self, number: u32, bind: &'a [u8]) -> &'a [u8] {
        match self {
            Work::Idle => &[],
            Work::Beats => HEARTBEAT,
            Work::Binds => bind,
            Work::Buffers => match number % CYCLE {
                0 => START,
                STOPS => STOP,
                _ => &[],
            },
        }
    }

    /// The time from round to round.
    fn wait(self) -> u128 {
        match self {
            Work::Beats => INTERVAL,
            _ => 0,
        }
    }

    fn is_bound(self) -> bool {
        match self {
            Work::Buffers => true,
            _ => false,
        }
    }
}

/// The reading of the clock in a round of this number.
fn reading(round: u32, wait: u128) -> u128
    ensures { result < MOMENT_END }
{
    u128::from(round).saturating_mul(wait).min(LATEST)
}

/// A session and its link.
#[derive(Drop)]
struct Door<'a> {
    session: Session,
    line: Line<'a>,
}

/// A BIND of the instance at a place.
fn bind_of(alloc: Global, place: u32) -> Result<Vec<u8>, AllocError> {
    let mut bind = Vec::new(alloc);
    bind.extend_from_slice(BIND)?;
    bind.push(digit(place / 8))?;
    bind.extend_from_slice(BIND_ON)?;
    bind.push(digit(place % 8))?;
    Ok(bind)
}

fn digit(place: u32) -> u8 {
    DIGITS.get(place as usize).copied().unwrap_or(b'8')
}

/// The frames that are stored, all at 20000 days and of the same octets, which they share.
fn frames(alloc: Global) -> Result<Entries, Memory> {
    let octets = Octets::copy_of(alloc, &FRAME)?;
    let mut entries = Entries::new(alloc);
    for _ in 0..FRAMES {
        entries.push(Entry::Frame {
            ert: Cds {
                days: 20_000,
                millis: 0,
                rest: Rest::Micros(0),
            },
            quality: FrameQuality::Good,
            antenna: Octets::copy_of(alloc, b"A")?,
            lost: 0,
            octets: octets.clone()?,
        })?;
    }
    Ok(entries)
}

/// A book with the frames, in which door 0 has the first instance unless the sessions are bound.
fn book_of(alloc: Global, site: &Site, work: Work) -> Result<Book, Memory> {
    let mut book = Book::new(alloc, site, Entries::new(alloc), 0)?;
    if book.publish(frames(alloc)?).is_err() {
        return Err(Memory);
    }
    if !work.is_bound() {
        book.answer(0, 0, &Ask::Bind { instance: 0 }, &Want::Nothing)?;
    }
    Ok(book)
}

/// A session whose context is arriving.
fn open<'a>(alloc: Global, door: u32) -> Result<Door<'a>, Memory> {
    Ok(Door {
        session: Session::new(alloc, door, 1, 0)?,
        line: Line::new(CONTEXT),
    })
}

/// One round of each session.
fn round(site: &Site, book: &mut Book, doors: &mut [Door], reading: u128) -> Result<(), Memory>
    requires site { IsSite site.now }
    requires reading { reading < MOMENT_END }
{
    for door in doors {
        door.session.round(site, book, reading, &mut door.line)?;
    }
    Ok(())
}

/// Binds the sessions, each to an instance of its own, where they are to be bound.
fn bind_all<'a>(
    site: &Site,
    book: &mut Book,
    doors: &mut [Door<'a>],
    binds: &'a [Vec<u8>],
) -> Result<(), Memory>
    requires { IsSite site.now }
{
    for (door, bind) in doors.iter_mut().zip(binds) {
        door.line.piece = bind.as_slice();
    }
    round(site, book, doors, 0)
}

/// Makes the rounds, and answers how many octets were handed over.
fn rounds_of(
    alloc: Global,
    site: &Site,
    work: Work,
    sessions: u32,
    rounds: u32,
) -> Result<u64, AllocError>
    requires { IsSite site.now }
{
    let first = bind_of(alloc, 0)?;
    let mut binds = Vec::new(alloc);
    for place in 0..sessions {
        binds.push(bind_of(alloc, place)?)?;
    }
    let mut book = book_of(alloc, site, work)?;
    let mut doors = Vec::new(alloc);
    for place in 0..sessions {
        doors.push(open(alloc, place.saturating_add(1))?)?;
    }
    round(site, &mut book, &mut doors, 0)?;
    if work.is_bound() {
        bind_all(site, &mut book, &mut doors, &binds)?;
    }
    for number in 0..rounds {
        for door in &mut doors {
            door.line.piece = work.piece(number, &first);
        }
        let reading = reading(number.saturating_add(1), work.wait());
        round(site, &mut book, &mut doors, reading)?;
    }
    let mut handed = 0u64;
    for door in &doors {
        handed = handed.saturating_add(door.line.handed);
    }
    Ok(handed)
}

fn run(rt: &HostRuntime, word: &str, sessions: u32, rounds: u32) -> io::Result<()> {
    let Ok(site) = Site::parse(rt.alloc(), SITE) else {
        return Err(AllocError.into());
    };
    let handed = rounds_of(rt.alloc(), &site, Work::of(word), sessions, rounds)?;
    println!(rt; "{word}: {sessions} sessions, {rounds} rounds, {handed} octets")
}

/// The number that the next word is, or 1.
fn number(word: Option<String>) -> u32 {
    word.and_then(|word| word.parse::<u32>().ok()).unwrap_or(1)
}

fn main(rt: HostRuntime) -> io::Result<()> {
    let mut words = env::args(&rt)?.skip(1);
    let Some(word) = words.next() else {
        run(&rt, "idle", 1, 3)?;
        run(&rt, "beats", 1, 3)?;
        run(&rt, "binds", 1, 3)?;
        return run(&rt, "buffers", 1, 3);
    };
    let sessions = number(words.next());
    run(&rt, word.as_str(), sessions, number(words.next()))
}
