// The plain program: all workers' calls of a book on one thread, in an order that explains a run.
ghost use Rattle.station_config.specs.Validity.{IsSite};

use crate::outside::site;
use crate::ran::Ran;
use cltu_queue::Taken;
use link_model::{Call, Heard, MemoryLink};
use octet_core::{Memory, Octets, Offer};
use record_form::Entries;
use session_core::Session;
use station_book::Book;
use station_config::Site;
use std::alloc::{AllocError, Global};
use std::mem;

// How often the plain program is begun anew, and how many calls it makes.
const MOST_TRIES: u32 = 10_000;

const MOST_CALLS: usize = 1_000;

// What came out of a try of a worker's next calls: what was seen in the run, nothing, or something
// that wasn't seen.
#[derive(Clone, Copy, PartialEq, Eq)]
enum Went {
    On,
    Nothing,
    Astray,
}

// A session, and what was seen of the calls of the run's link.
#[derive(Drop)]
struct Follower<'a> {
    door: u32,
    session: Session,
    link: MemoryLink,
    calls: Vec<(bool, &'a [u8])>,
    // How many of the calls were made, and one more once the door was quit.
    place: usize,
}

// A book of one thread, and how far each worker's calls have come: what the source gave and isn't
// published yet, how many batches are, how many CLTUs were taken, and the run and identification of
// the one in the air.
#[derive(Drop)]
struct Plain<'a> {
    ran: &'a Ran,
    book: Book,
    followers: Vec<Follower<'a>>,
    given: Entries,
    batches: Vec<usize>,
    published: usize,
    radiated: usize,
    air: Option<(u64, u32)>,
}

/// The octets that a call heard, or that it handed over whole, and then true.
pub(crate) fn seen(call: &Call) -> Option<(bool, &[u8])> {
    match call {
        Call::Polled {
            heard: Heard::Arrived(octets),
            ..
        } => Some((false, octets.as_slice())),
        Call::Offered {
            octets,
            answer: Offer::Whole,
        } => Some((true, octets.as_slice())),
        _ => None,
    }
}

impl<'a> Follower<'a> {
    // The session at a door, which has made no call yet.
    fn new(alloc: Global, door: u32, told: &'a [Call]) -> Result<Follower<'a>, Memory> {
        let mut calls = Vec::new(alloc);
        for call in told {
            if let Some(octets) = seen(call) {
                calls.push(octets)?;
            }
        }
        let mut follower = Follower {
            door,
            session: Session::new(alloc, door, 1, 0)?,
            link: MemoryLink::new(alloc, Vec::new(alloc)),
            calls,
            place: 0,
        };
        follower.bring(alloc)?;
        Ok(follower)
    }

    // What the next call heard comes to the link.
    fn bring(&mut self, alloc: Global) -> Result<(), Memory> {
        match self.calls.get(self.place) {
            Some((false, octets)) => self.link.arrive(Octets::copy_of(alloc, octets)?),
            _ => Ok(()),
        }
    }

    // What the calls of a round came to.
    fn compare(&mut self, alloc: Global, told: &[Call]) -> Result<Went, Memory> {
        let mut went = Went::Nothing;
        for call in told {
            if let Some(octets) = seen(call) {
                if self.calls.get(self.place) != Some(&octets) {
                    return Ok(Went::Astray);
                }
                went = Went::On;
                self.place = self.place.saturating_add(1);
                self.bring(alloc)?;
            }
        }
        Ok(went)
    }

    // Makes a round of the session, or quits its door behind the last one.
    fn go(&mut self, alloc: Global, site: &Site, book: &mut Book) -> Result<Went, Memory>
        requires { IsSite site.now }
    {
        if self.place > self.calls.len() {
            return Ok(Went::Nothing);
        }
        if self.place == self.calls.len() {
            book.quit(self.door);
            self.place = self.place.saturating_add(1);
            return Ok(Went::On);
        }
        self.session.round(site, book, 0, &mut self.link)?;
        let told = self.link.take_told().ok_or(Memory)?;
        self.compare(alloc, told.as_slice())
    }
}

impl<'a> Plain<'a> {
    // Nothing was called yet of what was seen of this run.
    fn new(site: &Site, ran: &'a Ran) -> Result<Plain<'a>, Memory> {
        let mut followers = Vec::new(ran.alloc);
        let mut door = 0u32;
        for place in 0..ran.doors.len() {
            followers.push(Follower::new(ran.alloc, door, ran.calls(place))?)?;
            door = door.saturating_add(1);
        }
        Ok(Plain {
            ran,
            book: Book::new(ran.alloc, site, Entries::new(ran.alloc), 0)?,
            followers,
            given: ran.given()?,
            batches: ran.batches()?,
            published: 0,
            radiated: 0,
            air: None,
        })
    }

    // Whether all that was seen has come out.
    fn is_over(&self) -> bool {
        self.published == self.batches.len()
            && self.radiated == self.ran.sent().len()
            && self.air.is_none()
            && self
                .followers
                .iter()
                .all(|seat| seat.place > seat.calls.len())
    }

    // Publishes the next batch.
    fn publish(&mut self) -> Result<Went, Memory> {
        let Some(count) = self.batches.get(self.published) else {
            return Ok(Went::Nothing);
        };
        let count = self.given.len().min(*count);
        let rest = self.given.split_off(count)?;
        self.published = self.published.saturating_add(1);
        match self.book.publish(mem::replace(&mut self.given, rest)) {
            Ok(()) => Ok(Went::On),
            Err(_) => Ok(Went::Astray),
        }
    }

    // Takes the next CLTU, or ends the radiation of the last one.
    fn radiate(&mut self) -> Went {
        if let Some((run, id)) = self.air {
            self.book.done(run, id, 0);
            self.air = None;
            return Went::On;
        }
        let Some(sent) = self.ran.sent().get(self.radiated) else {
            return Went::Nothing;
        };
        match self.book.take(0) {
            Taken::Radiate { run, id, octets } if octets.as_slice() == sent.as_slice() => {
                self.radiated = self.radiated.saturating_add(1);
                self.air = Some((run, id));
                Went::On
            }
            Taken::Idle => Went::Nothing,
            _ => Went::Astray,
        }
    }

    // Makes the next calls of a worker: the first user is worker 0, the recorder 1, the other users
    // follow, and behind them the antenna.
    fn go(&mut self, site: &Site, worker: usize) -> Result<Went, Memory>
        requires { IsSite site.now }
    {
        if worker == 1 {
            return self.publish();
        }
        let alloc = self.ran.alloc;
        let place = worker.saturating_sub(usize::from(worker > 1));
        match self.followers.get_mut(place) {
            Some(follower) => follower.go(alloc, site, &mut self.book),
            None => Ok(self.radiate()),
        }
    }

    // Makes the next calls of the first worker that can go on, from this one on, and answers which
    // one that was.
    fn go_from(&mut self, site: &Site, first: usize) -> Result<(usize, Went), Memory>
        requires { IsSite site.now }
    {
        for worker in first..self.followers.len().saturating_add(2) {
            let went = self.go(site, worker)?;
            if went != Went::Nothing {
                return Ok((worker, went));
            }
        }
        Ok((first, Went::Nothing))
    }
}

// Has the workers called in this order, and behind it each time the first one that can go on. Says
// whether that explains all. Else the order ends with the worker that led astray.
fn follow<'a>(plain: &mut Plain<'a>, site: &Site, order: &mut Vec<usize>) -> Result<bool, Memory>
    requires { IsSite site.now }
{
    for call in 0..MOST_CALLS {
        if plain.is_over() {
            return Ok(true);
        }
        let first = order.get(call).copied().unwrap_or(0);
        let (worker, went) = plain.go_from(site, first)?;
        if went != Went::On || order.get(call) != Some(&worker) {
            order.truncate(call);
            if went != Went::Nothing {
                order.push(worker)?;
            }
        }
        if went != Went::On {
            return Ok(false);
        }
    }
    Ok(false)
}

/// Whether one thread that makes the workers' calls of a book one after the other, in some order,
/// gets just what came of a run: each link was handed these blocks, of what was heard there, and
/// the antenna these CLTUs, where the batches that were stored are published in their order.
pub fn is_of_one_thread(ran: &Ran) -> Result<bool, AllocError> {
    let (site, mut order) = (site(ran.alloc)?, Vec::new(ran.alloc));
    for _ in 0..MOST_TRIES {
        let mut plain = Plain::new(&site, ran)?;
        if follow(&mut plain, &site, &mut order)? {
            return Ok(true);
        }
        match order.last_mut() {
            Some(worker) => *worker = worker.saturating_add(1),
            None => return Ok(false),
        }
    }
    Ok(false)
}
