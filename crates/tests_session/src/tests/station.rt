// A station under a script: its book, and the sessions at its doors with their links in memory.
ghost use Rattle.std.specs.Prelude.{◌≡◌, ◌<◌, IfOk};
ghost use Rattle.cds_time.specs.declared.cds.TheConstants.{MOMENT_END};
ghost use Rattle.station_config.specs.Validity.{IsSite};

use super::step::{Step, What, number, octets_of};
use super::telling::{calls_told, dropped_told, spoken_told};
use cds_time::{Cds, Rest};
use cltu_queue::Taken;
use fcltu_numbers::{CltuProductionStatus, UplinkStatus};
use frame_select::Want;
use link_model::MemoryLink;
use octet_core::{Memory, Octets};
use record_form::{Entries, Entry};
use session_core::Session;
use sle_numbers::FrameQuality;
use station_book::{Ask, Book};
use station_config::Site;
use std::alloc::{AllocError, Global};
use std::fmt::Write;

// A session with its link, of whose calls so many were told.
#[derive(Drop)]
struct Door {
    number: u32,
    session: Session,
    link: MemoryLink,
    told: usize,
}

// The clock reads microseconds since 1958-01-01.
#[derive(Drop)]
pub struct Station {
    alloc: Global,
    book: Book,
    doors: Vec<Door>,
    clock: u32,
    // The run and the identification of the CLTU that was taken last.
    air: (u64, u32),
}

// Picoseconds.
fn reading_of(clock: u32) -> u128
    ensures { result < MOMENT_END }
{
    u128::from(clock) * 1_000_000
}

impl Door {
    fn open(alloc: Global, step: &Step<'_>, clock: u32) -> Result<Door, AllocError> {
        let session = Session::new(alloc, step.door, 1, reading_of(clock))?;
        let failing = vec![in alloc; u64::from(number(step.rest))]?;
        Ok(Door {
            number: step.door,
            session,
            link: MemoryLink::new(alloc, failing),
            told: 0,
        })
    }

    // Tells the calls of the link since they were last told.
    fn tell(&mut self, alloc: Global, told: &mut String) -> Result<(), AllocError> {
        let Some(calls) = self.link.told() else {
            return Err(AllocError);
        };
        let since = calls.get(self.told..).unwrap_or(&[]);
        self.told = calls.len();
        calls_told(alloc, since, told)
    }

    fn arrive(&mut self, alloc: Global, words: &str) -> Result<(), Memory> {
        self.link.arrive(octets_of(alloc, words)?)
    }

    fn round(
        &mut self,
        alloc: Global,
        site: &Site,
        book: &mut Book,
        clock: u32,
        told: &mut String,
    ) -> Result<(), AllocError>
        requires { IsSite site.now }
    {
        let spoken = self
            .session
            .round(site, book, reading_of(clock), &mut self.link)?;
        self.tell(alloc, told)?;
        dropped_told(self.session.dropped(), told)?;
        spoken_told(spoken, told)
    }

    fn speak(&mut self, alloc: Global, told: &mut String) -> Result<(), AllocError> {
        let spoken = self.session.speak(&mut self.link);
        self.tell(alloc, told)?;
        spoken_told(spoken, told)
    }

    // Does a step of this door, and tells what it led to.
    fn play(
        &mut self,
        alloc: Global,
        site: &Site,
        book: &mut Book,
        clock: u32,
        step: &Step<'_>,
        told: &mut String,
    ) -> Result<(), AllocError>
        requires { IsSite site.now }
    {
        match step.what {
            What::Piece => Ok(self.arrive(alloc, step.rest)?),
            What::In => {
                self.arrive(alloc, step.rest)?;
                self.round(alloc, site, book, clock, told)
            }
            What::Round => self.round(alloc, site, book, clock, told),
            What::Step => Ok(self.session.step(site, book, reading_of(clock))?),
            What::Speak => self.speak(alloc, told),
            What::Listen => {
                self.session.listen(&mut self.link);
                self.tell(alloc, told)
            }
            _ => {
                self.disturb(step);
                Ok(())
            }
        }
    }

    // What becomes of the link.
    fn disturb(&mut self, step: &Step<'_>) {
        match step.what {
            What::Shut => self.link.shut(),
            What::Break => self.link.break_poll(),
            _ => self.link.stall(u64::from(number(step.rest))),
        }
    }
}

impl Station {
    pub fn new(alloc: Global, site: &Site) -> Result<Station, AllocError> {
        Ok(Station {
            alloc,
            book: Book::new(alloc, site, Entries::new(alloc), 0)?,
            doors: Vec::new(alloc),
            clock: 0,
            air: (0, 0),
        })
    }

    // A session in place of the one at its door, if there is one.
    fn open(&mut self, step: &Step<'_>) -> Result<(), AllocError> {
        let door = Door::open(self.alloc, step, self.clock)?;
        self.doors.retain(|other| other.number != step.door);
        self.doors.push(door)?;
        Ok(())
    }

    // What the book answers a door besides its session. It has no reading, so that no moment rises.
    fn ask(&mut self, step: &Step<'_>, told: &mut String) -> Result<(), AllocError> {
        let instance = number(step.rest);
        let ask = match step.what {
            What::Bind => Ask::Bind { instance },
            What::Start => Ask::CltuStart { first: instance },
            _ => Ask::Nothing,
        };
        let (reply, _, notice) = self.book.answer(step.door, 0, &ask, &Want::Nothing)?;
        match notice {
            Some(notice) => write!(told, "notice {} ", notice.kind),
            None => write!(told, "{reply:?} "),
        }
    }

    // Does a step of a door that has a session.
    fn play_door(
        &mut self,
        site: &Site,
        step: &Step<'_>,
        told: &mut String,
    ) -> Result<(), AllocError>
        requires { IsSite site.now }
    {
        for door in &mut self.doors {
            if door.number == step.door {
                return door.play(self.alloc, site, &mut self.book, self.clock, step, told);
            }
        }
        told.push_str("nobody ")
    }

    // Reads a production status by its number.
    fn uplink(&mut self, step: &Step<'_>) {
        let production = match step.door {
            0 => CltuProductionStatus::Operational,
            _ => CltuProductionStatus::Halted,
        };
        self.book
            .uplink(production, UplinkStatus::UplinkStatusNotAvailable, 0);
    }

    // Takes the next CLTU, and tells what became of it.
    fn take(&mut self, told: &mut String) -> Result<(), AllocError> {
        match self.book.take(reading_of(self.clock)) {
            Taken::Idle => told.push_str("idle "),
            Taken::Waits { .. } => told.push_str("waits "),
            Taken::Expired { id } => write!(told, "expired {id} "),
            Taken::Radiate { run, id, octets } => {
                self.air = (run, id);
                let digits = hex::encode(self.alloc, octets.as_slice())?;
                write!(told, "radiated {id} {digits} ")
            }
        }
    }

    // The radiation of what was taken last ends.
    fn done(&mut self) {
        let (run, id) = self.air;
        self.book.done(run, id, reading_of(self.clock));
    }

    // Publishes a frame of 20,000 days and so many milliseconds, received whole at the antenna A.
    fn publish(&mut self, step: &Step<'_>) -> Result<(), AllocError> {
        let frame = Entry::Frame {
            ert: Cds {
                days: 20_000,
                millis: step.door,
                rest: Rest::Micros(0),
            },
            quality: FrameQuality::Good,
            antenna: Octets::copy_of(self.alloc, b"A")?,
            lost: 0,
            octets: octets_of(self.alloc, step.rest)?,
        };
        let mut entries = Entries::new(self.alloc);
        entries.push(frame)?;
        match self.book.publish(entries) {
            Ok(()) => Ok(()),
            Err(_) => Err(AllocError),
        }
    }

    // Does a step, and tells what it led to.
    pub fn play(
        &mut self,
        site: &Site,
        step: &Step<'_>,
        told: &mut String,
    ) -> Result<(), AllocError>
        requires { IsSite site.now }
    {
        match step.what {
            What::Clock => self.clock = step.door,
            What::Open => self.open(step)?,
            What::Quit => self.book.quit(step.door),
            What::Uplink => self.uplink(step),
            What::Take => self.take(told)?,
            What::Done => self.done(),
            What::Frame => self.publish(step)?,
            What::Moment => write!(told, "{} ", self.book.peek(0) / 1_000_000)?,
            What::Bind | What::Start | What::Told => self.ask(step, told)?,
            _ => self.play_door(site, step, told)?,
        }
        Ok(())
    }
}
