// All that a station meets outside.
ghost use Rattle.std.specs.Prelude.{◌^◌, ◌≤◌, IfOk};
ghost use Rattle.station_config.specs.Validity.{IsSite};

use crate::ran::Ran;
use crate::users::{Cue, User};
use antenna_core::AntennaSim;
use cds_time::{Cds, MemoryClock, Rest};
use disk_model::{MemoryDisk, Orders};
use door_model::MemoryDoor;
use octet_core::{FailingCalls, Memory, Octets};
use paced_doubles::{Hold, Pace, PacedAntenna, PacedDisk, PacedFrames, PacedLink, Stage};
use record_form::Entry;
use recorder::MemoryFrames;
use sle_numbers::FrameQuality;
use station_config::Site;
use station_run::run_station;
use std::alloc::{AllocError, Global};
use std::rt;
use std::sync::Wait;
use std::thread::Threads;

// An instance of RAF with buffers of two frames, and one of FCLTU with room for 1,000 octets.
const SITE: &[u8] = b"peer MOC none sha1 60 000000000000\n\
    raf sagr=1.spack=P.rsl-fg=1.raf=onlc1 MOC complete 2 5 60\n\
    cltu sagr=1.spack=P.fsl-fg=1.cltu=cltu1 MOC 1000 100 60\n";

// A file of no entries.
const NEW_FILE: &[u8] = b"SLEA\x00\x00\x00\x01\x00";

/// So many turns are never spent.
pub const TURNS: u64 = 4_000_000;

/// Which calls fail, from 1: of the second user's link the polls at which messages were due and the
/// offers, and those of the disk, the source and the antenna.
#[derive(Clone, Copy)]
pub struct Fails<'a> {
    pub link: &'a [u64],
    pub disk: &'a [u64],
    pub source: &'a [u64],
    pub antenna: &'a [u64],
}

/// No call fails.
pub const NONE: Fails<'static> = Fails {
    link: &[],
    disk: &[],
    source: &[],
    antenna: &[],
};

/// All that a station meets outside.
#[derive(Drop)]
pub struct Outside {
    pub alloc: Global,
    pub disk: PacedDisk,
    pub frames: PacedFrames,
    pub antenna: PacedAntenna,
    pub doors: Vec<MemoryDoor<PacedLink>>,
    seed: u64,
    stage: Stage,
}

// The site of these runs.
pub(crate) fn site(alloc: Global) -> Result<Site, AllocError>
    ensures { IfOk result IsSite }
{
    Site::parse(alloc, SITE).map_err(|_| AllocError)
}

// So many seconds of day 20,000.
fn at(seconds: u32) -> Cds {
    Cds {
        days: 20_000,
        millis: seconds.saturating_mul(1_000),
        rest: Rest::Micros(0),
    }
}

// The octets of these digits.
fn octets(alloc: Global, digits: &str) -> Result<Octets, AllocError> {
    let octets = hex::decode(alloc, digits).map_err(|_| AllocError)?;
    Ok(Octets::from_vec(alloc, octets)?)
}

impl Outside {
    /// An archive of no entries, a source to which nothing came, an antenna, and no door. The parts
    /// yield and rest by the seed, and not at all at 0.
    pub fn new(alloc: Global, seed: u64, fails: Fails<'_>) -> Result<Outside, Memory> {
        let (pace, stage) = (Pace::new(seed), Stage::at(alloc, Stage::CALM)?);
        let mut disk = MemoryDisk::holding(alloc, NEW_FILE)?;
        disk.steer(Orders {
            failing: FailingCalls::new(Vec::from_slice(alloc, fails.disk)?),
            stop: None,
        });
        Ok(Outside {
            alloc,
            disk: PacedDisk {
                pace,
                hold: Hold::new(stage.share()?, 0),
                disk,
            },
            frames: PacedFrames {
                pace,
                frames: MemoryFrames::new(alloc, Vec::from_slice(alloc, fails.source)?),
            },
            antenna: PacedAntenna {
                pace,
                hold: Hold::new(stage.share()?, 0),
                antenna: AntennaSim::new(alloc, Vec::from_slice(alloc, fails.antenna)?),
            },
            doors: Vec::new(alloc),
            seed,
            stage,
        })
    }

    /// What holds the call of this number, from 1, until a link was handed an answer meanwhile.
    pub fn hold(&self, call: u64) -> Result<Hold, Memory> {
        Ok(Hold::new(self.stage.share()?, call))
    }

    // An entry comes to the source.
    fn come(&mut self, entry: Entry) -> Result<(), Memory> {
        if !entry.is_valid() {
            return Err(Memory);
        }
        self.frames.frames.arrive(entry)
    }

    /// So many frames come to the source, one a second from second 1 of day 20,000 on and all
    /// others in second 8, and behind them a seal of second 9 and the end.
    pub fn feed(&mut self, frames: u32) -> Result<(), Memory> {
        for number in 1..=frames {
            self.come(Entry::Frame {
                ert: at(number.min(8)),
                quality: FrameQuality::Good,
                antenna: Octets::copy_of(self.alloc, b"A")?,
                lost: 0,
                octets: Octets::copy_of(self.alloc, &[0, 0x10, (number % 256) as u8])?,
            })?;
        }
        self.come(Entry::Seal { at: at(9) })?;
        self.frames.frames.end();
        Ok(())
    }

    /// A door with one link, to which this user's messages come, and whose calls of this list fail.
    fn add_user(&mut self, user: &User, failing: Vec<u64>) -> Result<(), AllocError> {
        let pace = Pace::new(self.seed.wrapping_mul(self.doors.len() as u64 + 2));
        let mut link = PacedLink::new(self.alloc, pace, self.stage.share()?, failing);
        for cue in user.cues {
            let (taken, stage, digits) = match cue {
                Cue::After(taken, digits) => (*taken, Stage::CALM, *digits),
                Cue::Held(digits) => (0, Stage::HELD, *digits),
            };
            link.arrive(taken, stage, octets(self.alloc, digits)?)?;
        }
        let mut door = MemoryDoor::new(self.alloc, Vec::new(self.alloc));
        door.arrive(link)?;
        Ok(self.doors.push(door)?)
    }

    /// Frames are fed, and each of two users comes to a door.
    pub fn with(
        alloc: Global,
        seed: u64,
        fails: Fails<'_>,
        frames: u32,
        users: [&User; 2],
    ) -> Result<Outside, AllocError> {
        let [first, second] = users;
        let mut outside = Outside::new(alloc, seed, fails)?;
        outside.feed(frames)?;
        outside.add_user(first, Vec::new(alloc))?;
        outside.add_user(second, Vec::from_slice(alloc, fails.link)?)?;
        Ok(outside)
    }

    /// Runs a station whose workers have so many turns each. There are one or two doors.
    pub fn run<R: Threads + Wait + rt::Clock + Sync>(
        mut self,
        rt: &R,
        turns: u64,
    ) -> Result<Ran, AllocError>
        requires turns { (1 ≤ turns) × (turns ≤ 2 ^ 40) }
    {
        let (site, count) = (site(self.alloc)?, self.doors.len());
        if count == 0 || count > 2 {
            return Err(AllocError);
        }
        let mut clocks = [(); 2].map(|_| MemoryClock::new(Vec::new(self.alloc)));
        let (report, disk) = run_station(
            rt,
            self.alloc,
            &site,
            self.disk,
            &mut self.frames,
            &mut self.antenna,
            &mut MemoryClock::new(Vec::new(self.alloc)),
            self.doors.as_mut_slice(),
            &mut clocks[..count],
            turns,
            4,
            1,
        );
        Ok(Ran {
            alloc: self.alloc,
            report: report.map_err(|_| AllocError)?,
            disk,
            frames: self.frames,
            antenna: self.antenna,
            doors: self.doors,
        })
    }
}
