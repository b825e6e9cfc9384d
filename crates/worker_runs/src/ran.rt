// What came of a run.

use crate::plain::seen;
use disk_model::{Call as DiskCall, Event};
use door_model::MemoryDoor;
use frame_archive::open_archive;
use link_model::Call;
use octet_core::Octets;
use paced_doubles::{PacedAntenna, PacedDisk, PacedFrames, PacedLink};
use record_form::Entries;
use recorder::Feed;
use station_run::RunReport;
use std::alloc::{AllocError, Global};
use std::fmt::Write;

/// What came of a run: its report, and all that the station met outside.
#[derive(Drop)]
pub struct Ran {
    pub alloc: Global,
    pub report: RunReport,
    pub disk: PacedDisk,
    pub frames: PacedFrames,
    pub antenna: PacedAntenna,
    pub doors: Vec<MemoryDoor<PacedLink>>,
}

impl Ran {
    /// What the report says, how each link was served, and the CLTUs that the antenna radiated.
    pub fn told(&self) -> Result<String, AllocError> {
        let report = &self.report;
        let mut text = format!(in self.alloc;
            "published {}, {:?}, {:?}",
            report.published, report.recording, report.radiating
        )?;
        for octets in self.sent() {
            write!(text, " {}", hex::encode(self.alloc, octets.as_slice())?)?;
        }
        for door in self.doors.as_slice() {
            for returned in door.back() {
                write!(text, ", link {:?}", returned.served)?;
            }
        }
        for door in report.doors.as_slice() {
            if door.spent || door.failed || door.memory {
                write!(text, ", {door:?}")?;
            }
        }
        Ok(text)
    }

    /// The blocks that the link of this door took whole, in hexadecimal digits, each with a blank
    /// behind it.
    pub fn handed(&self, door: usize) -> Result<String, AllocError> {
        let mut text = String::new(self.alloc);
        for call in self.calls(door) {
            if let Some((true, octets)) = seen(call) {
                write!(text, "{} ", hex::encode(self.alloc, octets)?)?;
            }
        }
        Ok(text)
    }

    /// The calls of the link of this door, if it told all of them.
    pub(crate) fn calls(&self, door: usize) -> &[Call] {
        match self.doors.get(door).map(|door| door.back()) {
            Some([returned, ..]) => returned.link.link().told().unwrap_or(&[]),
            _ => &[],
        }
    }

    /// The CLTUs that the antenna radiated.
    pub(crate) fn sent(&self) -> &[Octets] {
        self.antenna.antenna.sent().unwrap_or(&[])
    }

    /// The entries that the source gave.
    pub fn given(&self) -> Result<Entries, AllocError> {
        let mut entries = Entries::new(self.alloc);
        for answer in self.frames.frames.told().unwrap_or(&[]) {
            if let Feed::Entry(entry) = answer {
                entries.push(entry.clone()?)?;
            }
        }
        Ok(entries)
    }

    /// How many of them each write to the archive's file holds: a frame has 24 octets there, a seal
    /// 10, and a batch 7 more. A gate has one, and no entry.
    pub(crate) fn batches(&self) -> Result<Vec<usize>, AllocError> {
        let mut batches = Vec::new(self.alloc);
        for event in self.disk.disk.log() {
            if let Event::Made(DiskCall::Write { octets, .. }) = event {
                batches.push(octets.len().saturating_add(7) / 24)?;
            }
        }
        Ok(batches)
    }

    /// The entries that the archive's file holds, opened again.
    pub fn stored(self) -> Result<Entries, AllocError> {
        match open_archive(self.alloc, self.disk, 0) {
            Ok((_, entries)) => Ok(entries),
            Err(_) => Err(AllocError),
        }
    }
}
