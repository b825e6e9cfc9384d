// The batches of a file, one after another.
ghost use Rattle.std.specs.Prelude.{◌≡◌, ◌≢◌, ◌+◌, ◌-◌, ◌<◌, ◌≤◌, ◌^◌, ◌++◌, ◌⊎◌, ℕ, List, []};
ghost use Rattle.std.specs.Prelude.{length, take, drop};
ghost use Rattle.std.specs.Prelude.{min, max, IsTrue, IsFalse, IfOk, OnOk, OnErr, IsErrOf, IfSome};
ghost use Rattle.octet_core.specs.Fault.{Rose};
ghost use Rattle.archive_terms.specs.Archive.{Entry};
ghost use Rattle.disk_model.specs.Moments.{Reads};
ghost use Rattle.gate_journal.specs.File.{StandsAt};
ghost use Rattle.gate_journal.specs.JournalState.{OnlyReads};
ghost use Rattle.gate_journal.specs.Batches.{HasPassed, StandsForSome, HoldsBatch};
ghost use Rattle.gate_journal.specs.declared.batch_fault.BatchFault.TheVariants.{Unfit, DiskFault};

use crate::batch::Batch;
use crate::loading::{HEADER, first_difference};
use crate::order::Times;
use crate::passing::{OPEN, pass_gate};
use crate::{BatchFault, laws};
use disk_model::Disk;
use std::alloc::{AllocError, Global};
use std::marker::Model;

// How many octets are held at once, where no batch has more.
const PIECE: usize = 131_072;

/// A reading of a journal's file, batch by batch. The file is held in memory a piece at a time,
/// 131,072 octets or the batch that has more, and each octet of it is read once.
#[derive(Drop)]
pub struct Batches {
    // The last times of the entries that were read.
    times: Times,
    // Octets of the file from this place on, and where among them the next gate stands.
    start: u64,
    room: Vec<u8>,
    at: usize,
    // Where among them the gate of the batch stands that was read last, as long as they have it.
    last: Option<usize>,
}

impl Model for Batches {
    ghost use Rattle.std.specs.Prelude.{◌+◌, ◌^◌, ◌≤◌, ◌<◌, length, IfSome};
    ghost use Rattle.gate_journal.specs.Batches.{BatchesState, batch_in};

    ghost Value = { BatchesState };

    ghost view = { λ batches. record {
      gate = batches.start + batches.at;
      times = batches.times;
      start = batches.start;
      room = batches.room.items;
      batch = batch_in batches.room.items batches.last;
    } };

    ghost invariant = { λ batches. (batches.at ≤ length batches.room.items)
        × (batches.start + length batches.room.items < 2 ^ 64)
        × IfSome batches.last (λ gate. gate + 7 ≤ length batches.room.items) };
}

impl Batches {
    /// A reading of the file of a disk, before its first batch. It costs one read.
    pub fn open<D: Disk>(alloc: Global, disk: &mut D) -> Result<Batches, BatchFault>
        ensures passed { IfOk result (λ batches. HasPassed (D.pending disk.old) [] batches) }
        ensures none { IfOk result (λ batches. batches.batch ≡ []) }
        ensures unfit { IsErrOf result Unfit → ¬ StandsForSome (D.pending disk.old) }
        ensures same { IsErrOf result DiskFault ⊎ (disk.new ≡ disk.old) }
        ensures failed { IsErrOf result DiskFault → D.fails_to_read disk.old disk.new }
        ensures reads { OnlyReads D.pending D.moment D.images_since disk.old disk.new }
        ensures cause { IsErrOf result DiskFault → Rose (D.faults disk.old) (D.faults disk.new) }
    {
        laws::a_refused_file_stands_for_nothing();
        let mut room = Vec::new(alloc);
        read_on(disk, 0, 0, PIECE, &mut room)?;
        if first_difference(&room).is_some() {
            return Err(BatchFault::Unfit);
        }
        Ok(Batches {
            times: Times::NONE,
            start: 0,
            room,
            at: HEADER.len(),
            last: None,
        })
    }

    /// Goes on to the next batch, and answers whether there is one: not so where the next gate
    /// isn't open. `Unfit` says that the file isn't of its form there, and so for no list of
    /// entries: why, a recovery tells. After an error no more is to be read.
    ///
    /// It goes over what stands before a frame's octets, and reads the file where the next batch
    /// isn't yet in memory. It copies no octet but what is left of a piece there, to its front.
    pub fn next<D: Disk>(&mut self, disk: &mut D) -> Result<bool, BatchFault>
        ensures batch { IfOk result (λ more. IsTrue more → (entries : List Entry)
            → HasPassed (D.pending disk.old) entries self.old
            → HasPassed (D.pending disk.new) (entries ++ self.new.batch) self.new) }
        ensures on { IfOk result (λ more. IsTrue more → self.old.gate < self.new.gate) }
        ensures shut { IfOk result (λ more. IsFalse more → (entries : List Entry)
            → HasPassed (D.pending disk.old) entries self.old → IfSome (D.pending disk.old)
            (λ told. StandsAt entries self.old.gate told.content)) }
        ensures none { IfOk result (λ more. IsFalse more → self.new.batch ≡ []) }
        ensures stays { IfOk result (λ more. IsFalse more → self.new.gate ≡ self.old.gate) }
        ensures unfit { IsErrOf result Unfit → (entries : List Entry)
            → HasPassed (D.pending disk.old) entries self.old
            → ¬ StandsForSome (D.pending disk.old) }
        ensures refused { OnErr result (self.new.gate ≡ self.old.gate) }
        ensures bound { self.new.gate < 2 ^ 64 }
        ensures same { IsErrOf result DiskFault ⊎ (disk.new ≡ disk.old) }
        ensures failed { IsErrOf result DiskFault → D.fails_to_read disk.old disk.new }
        ensures reads { OnlyReads D.pending D.moment D.images_since disk.old disk.new }
        ensures cause { IsErrOf result DiskFault → Rose (D.faults disk.old) (D.faults disk.new) }
    {
        archive_terms::laws::archive_grows();
        disk_model::laws::images_at_a_moment::<D>();
        record_form::laws::read_where_spelled();
        record_form::laws::read_back();
        self.fill(disk)?;
        let room = self.room.as_slice();
        record_form::laws::slice(room);
        match pass_gate(self.times, room, self.at) {
            Ok(Some((times, end))) => {
                self.times = times;
                self.last = Some(self.at);
                self.at = end;
                Ok(true)
            }
            Ok(None) => {
                self.last = None;
                Ok(false)
            }
            Err(_) => Err(BatchFault::Unfit),
        }
    }

    /// The entries of the batch that was read last, or none where none was.
    #[tactic(auto, unfolding(crate::specs::Batches::entries_in))]
    pub fn batch(&self) -> Batch<'_>
        ensures { result ≡ self.now.batch }
    {
        match self.last {
            Some(gate) => Batch::behind(&self.room, gate),
            None => Batch::NONE,
        }
    }

    /// Where the next gate stands.
    pub fn gate(&self) -> u64
        ensures { result ≡ self.now.gate }
    {
        self.start + self.at as u64
    }

    // Has the room hold the next gate and its batch, as far as the file goes.
    fn fill<D: Disk>(&mut self, disk: &mut D) -> Result<(), BatchFault>
        ensures gate { self.new.gate ≡ self.old.gate }
        ensures bound { self.new.gate < 2 ^ 64 }
        ensures times { self.new.times ≡ self.old.times }
        ensures room { OnOk result (Reads (D.pending disk.old) self.old.start self.old.room
            → Reads (D.pending disk.old) self.new.start self.new.room) }
        ensures holds { OnOk result (HoldsBatch self.new.room (self.new.gate - self.new.start)
            ⊎ (D.extent disk.old ≤ self.new.start + length self.new.room)) }
        ensures same { IsErrOf result DiskFault ⊎ (disk.new ≡ disk.old) }
        ensures failed { IsErrOf result DiskFault → D.fails_to_read disk.old disk.new }
        ensures reads { OnlyReads D.pending D.moment D.images_since disk.old disk.new }
        ensures unfit { ¬ IsErrOf result Unfit }
        ensures cause { IsErrOf result DiskFault → Rose (D.faults disk.old) (D.faults disk.new) }
    {
        let mut needed = octets_of_batch(&self.room, self.at);
        while self.room.len() - self.at < needed
            && self.start + (self.room.len() as u64) < disk.size()
        {
            let from = self.at;
            self.start = self.gate();
            self.at = 0;
            self.last = None;
            // With the next batch the head of the one behind it, so that it is known how much
            // that one needs.
            let count = PIECE.max(needed + 7);
            read_on(disk, self.start, from, count, &mut self.room)?;
            needed = octets_of_batch(&self.room, self.at);
        }
        Ok(())
    }
}

// How many octets the gate at a place and its batch have, as far as it is known: a gate that isn't
// open has one.
fn octets_of_batch(octets: &[u8], at: usize) -> usize
    requires { at ≤ length octets.now }
    ensures holds { at + result ≤ length octets.now → HoldsBatch octets.now at }
    ensures bound { result < 2 ^ 33 }
{
    if at < octets.len() && octets[at] != OPEN {
        return 1;
    }
    if octets.len() - at < 7 {
        return 7;
    }
    7 + u32::from_be_bytes(octets[at + 1..at + 5].try_into().unwrap()) as usize
}

// Keeps the octets from an index on, which stand at a place of a file, and reads what stands there
// behind them: so many in all, or as many as there are.
fn read_on<D: Disk>(
    disk: &mut D,
    place: u64,
    from: usize,
    count: usize,
    room: &mut Vec<u8>,
) -> Result<(), BatchFault>
    requires within { from ≤ length room.old.items }
    requires fits { length room.old.items - from ≤ min count (D.extent disk.old - place) }
    ensures octets { OnOk result (Reads (D.pending disk.old) place (drop from room.old.items)
        → Reads (D.pending disk.old) place room.new.items) }
    ensures size { OnOk result (length room.new.items ≡ min count (D.extent disk.old - place)) }
    ensures err { OnErr result (room.new.items ≡ []) }
    ensures same { IsErrOf result DiskFault ⊎ (disk.new ≡ disk.old) }
    ensures failed { IsErrOf result DiskFault → D.fails_to_read disk.old disk.new }
    ensures reads { OnlyReads D.pending D.moment D.images_since disk.old disk.new }
    ensures unfit { ¬ IsErrOf result Unfit }
    ensures cause { IsErrOf result DiskFault → Rose (D.faults disk.old) (D.faults disk.new) }
{
    disk_model::laws::images_at_a_moment::<D>();
    let left = disk.size().saturating_sub(place);
    let count = left.min(count as u64) as usize;
    if count == 0 {
        room.clear();
        return Ok(());
    }
    let kept = room.len() - from;
    if keep_from(room, from, count).is_err() {
        room.clear();
        return Err(BatchFault::Memory);
    }
    if disk
        .read_at(place + kept as u64, &mut room[kept..])
        .is_err()
    {
        room.clear();
        return Err(BatchFault::DiskFault);
    }
    Ok(())
}

// Moves the octets from an index on to the front, and makes room for others behind them: so many in
// all.
fn keep_from(room: &mut Vec<u8>, from: usize, count: usize) -> Result<(), AllocError>
    requires within { from ≤ length room.old.items }
    requires fits { length room.old.items - from ≤ count }
    ensures kept { OnOk result (take (length room.old.items - from) room.new.items
        ≡ drop from room.old.items) }
    ensures size { OnOk result (length room.new.items ≡ count) }
{
    room.copy_within(from.., 0);
    room.resize(count, 0)
}
