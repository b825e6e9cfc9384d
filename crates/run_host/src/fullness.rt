// How full the archive is.

use crate::capacity::Capacity;
use octet_core::Octets;
use operator_side::{Stamped, report};
use record_form::Entry;
use recorder::Feed;
use std::alloc::{AllocError, Global};
use std::{fs, str};

// At how many parts in 100 it is reported.
const PERCENTS: [u64; 4] = [80, 90, 95, 100];

// How many entries are given at most between two looks.
const LONGEST_BATCH: u32 = 256;

// The octets that an entry of the archive has at least beside those of its frame.
const HEAD: u64 = 16;

/// Reports how full the archive's file is, each of 80, 90, 95 and 100 parts in 100 once. It counts as
/// full when the last frame that came wouldn't fit once more.
#[derive(Drop)]
pub struct Fullness {
    rt: HostRuntime,
    path: String,
    capacity: Capacity,
    // How many of the parts were reported.
    reported: usize,
    // How many octets the last entry needs at least, and how many entries came since the last look.
    needed: u64,
    given: u32,
    is_due: bool,
}

impl Fullness {
    /// Of the archive at this path, of this capacity. None if it can't be watched.
    pub fn new(rt: &HostRuntime, path: &Octets, capacity: &Capacity) -> Option<Fullness> {
        let path = str::from_utf8(path.as_slice()).ok()?;
        Some(Fullness {
            rt: *rt,
            path: String::from_str(rt.alloc(), path).ok()?,
            capacity: capacity.share().ok()?,
            reported: 0,
            needed: 0,
            given: 0,
            is_due: true,
        })
    }

    /// The source is asked for its next entry: what it gave before is stored if it had a pause.
    pub(crate) fn begin(&mut self) {
        if self.is_due {
            self.is_due = false;
            self.given = 0;
            self.look();
        }
    }

    /// The source gave this.
    pub(crate) fn end(&mut self, feed: &Feed) {
        if let Feed::Entry(entry) = feed {
            self.given = self.given.saturating_add(1);
            self.needed = needed(entry);
            self.is_due = self.given >= LONGEST_BATCH;
        } else {
            self.is_due = self.given > 0;
        }
    }

    // Looks at the file.
    fn look(&mut self) {
        let Some(capacity) = self.capacity.octets() else {
            self.is_due = true;
            return;
        };
        let Ok(data) = fs::metadata(&self.rt, self.path.as_str()) else {
            return;
        };
        let size = data.len();
        let percent = percent(size, capacity, self.needed);
        for part in PERCENTS.iter().skip(self.reported) {
            if percent < *part {
                break;
            }
            self.reported = self.reported.saturating_add(1);
            self.tell(*part, size, capacity);
        }
    }

    // Reports that the archive is so full.
    fn tell(&self, part: u64, size: u64, capacity: u64) {
        let alloc = self.rt.alloc();
        let line = full(alloc, self.path.as_str(), part, size, capacity);
        report(&mut Stamped::new(&self.rt, alloc), line);
    }
}

// How many octets an entry needs at least.
fn needed(entry: &Entry) -> u64 {
    match entry {
        Entry::Frame { octets, .. } => (octets.len() as u64).saturating_add(HEAD),
        _ => HEAD,
    }
}

// How many parts in 100 of a capacity a file has: all if an entry that needs so much doesn't fit.
fn percent(size: u64, capacity: u64, needed: u64) -> u64 {
    if size.saturating_add(needed) > capacity {
        return 100;
    }
    match size.saturating_mul(100).checked_div(capacity) {
        Some(percent) => percent,
        None => 100,
    }
}

// That the archive is so full, and what to do.
fn full(
    alloc: Global,
    path: &str,
    part: u64,
    size: u64,
    capacity: u64,
) -> Result<String, AllocError> {
    let what = if part < 100 {
        "stop the station after this pass and make a new one"
    } else {
        "entries are refused; stop the station and make a new one"
    };
    format!(in alloc; "archive {path}: {part} percent full ({size} of {capacity} octets); {what}\n")
}
