// An archive on a disk.
ghost use Rattle.std.specs.Prelude.{◌≡◌, ◌+◌, ◌-◌, ◌≤◌, ◌++◌, ◌⊎◌, ◌==◌, ℕ, true, false, [], ◌∷◌};
ghost use Rattle.std.specs.Prelude.{List, length, take, drop, Some, None, IfSome, IsSomeAnd};
ghost use Rattle.std.specs.Prelude.{IsTrue, MatchResult, OnOk, OnErr, IfOk, IfErr, IsOk, IsErrOf};
ghost use Rattle.std.specs.Prelude.{if◌then◌else◌, Ok, Err, MatchOption};
ghost use Rattle.octet_core.specs.Fault.{Rose};
ghost use Rattle.archive_terms.specs.Archive.{is_valid, IsArchive};
ghost use Rattle.archive_terms.specs.Archive as terms;
ghost use Rattle.disk_model.specs.Moments.{IsImageOf, HoldsThroughout};
ghost use Rattle.disk_model.specs.Calls.{AllMade, FailedAtOne};
ghost use Rattle.disk_model.specs.Images.{IsImage};
ghost use Rattle.disk_model.specs.MemoryDisk.{steered, restarted, pending_of, content_of};
ghost use Rattle.record_form.specs.Entry.{entry_of};
ghost use Rattle.gate_journal.specs.File.{StandsFor};
ghost use Rattle.gate_journal.specs.JournalState.{IsOldOrNew, IsAtRest, appending, recovering};
ghost use Rattle.gate_journal.specs.JournalState.{FailsToRecover};
ghost use Rattle.frame_archive.specs.State.{times_of, at_rest, failed_batch, need, free, refusal};
ghost use Rattle.frame_archive.specs.State.{with_waiting, with_stored, with_failed, wanted};
ghost use Rattle.frame_archive.specs.Acknowledges.{Acknowledges, Uses};
ghost use Rattle.frame_archive.specs.Faults.{IsRefusal, IsUnread, RefusesDisk, RefusesReopen};
ghost use Rattle.frame_archive.specs.Faults.{IsOfRecovery, opening_fault};
ghost use Rattle.frame_archive.specs.declared.fault.ArchiveFault.TheVariants as ArchiveFault;
ghost use Rattle.gate_journal.specs.declared.fault.JournalFault.{JournalFault};

use crate::times::times_of;
use crate::{ArchiveFault, OfferFault};
use disk_model::{Disk, MemoryDisk, Orders};
use gate_journal::{Journal, JournalFault, LONGEST_BATCH, Times};
use octet_core::Memory;
use record_form::{Entries, Entry, entry_length};
use std::alloc::Global;
use std::marker::Model;
use std::mem;

/// How many entries an archive holds at most.
const MOST_ENTRIES: u64 = 4_194_304;

/// How many entries wait at most: those of one batch.
const MOST_WAITING: usize = LONGEST_BATCH as usize;

/// How many octets a batch has besides its entries: their length, their number and the next gate.
const BATCH_OCTETS: u64 = 7;

/// Entries that were stored, and how many are acknowledged with them.
#[derive(Debug, Drop)]
pub struct Stored {
    /// How many entries are acknowledged.
    pub count: u64,
    /// Those that waited, in order.
    pub entries: Entries,
}

/// What became of the entries that waited when a file was opened again.
#[derive(Debug, Drop)]
pub struct Landing {
    /// The entries of the store that failed, where the file holds them: they are acknowledged.
    pub landed: Entries,
    /// The others, which the archive has forgotten.
    pub lost: Entries,
}

/// An archive of entries on a disk: those that are acknowledged stand in its file, and others wait
/// to be stored as one batch.
#[derive(Drop)]
pub struct FrameArchive<D: Disk> {
    alloc: Global,
    journal: Journal<D>,
    capacity: u64,
    // How many entries are acknowledged, and how many octets the file then uses.
    count: u64,
    used: u64,
    // The last times of those and of the waiting ones.
    times: Times,
    waiting: Entries,
    // How many octets these want of the file, and how many of them a store was given that failed.
    octets: u64,
    failed: usize,
    is_stale: bool,
}

impl<D: Disk> Model for FrameArchive<D> {
    ghost use Rattle.frame_archive.specs.State.{ArchiveState};
    ghost use Rattle.frame_archive.specs.Acknowledges.{IsSound};

    ghost Value = { ArchiveState D };

    ghost view = { λ a. record {
      disk = a.journal.disk;
      capacity = a.capacity;
      count = a.count;
      used = a.used;
      times = a.times;
      waiting = a.waiting;
      failed = a.failed;
      is_stale = a.is_stale;
    } };

    ghost invariant = { λ a. IsSound D.pending a.journal a.capacity a.count a.used a.failed a.octets
        a.times a.waiting a.is_stale };
}

/// Opens the archive on a disk, whatever calls failed or stopped there before, and gives its
/// entries. Its file may have `capacity` octets; one that is longer is read all the same. A refusal
/// hands the disk back. It costs a sync and one read of the whole file.
pub fn open_archive<D: Disk>(
    alloc: Global,
    disk: D,
    capacity: u64,
) -> Result<(FrameArchive<D>, Entries), (ArchiveFault, D)>
    requires { capacity ≤ 268435456 }
    ensures at_rest { IfOk result (λ opened. opened.0 ≡ at_rest opened.0.disk capacity opened.0.used
        opened.1) }
    ensures archive { IfOk result (λ opened. IsArchive opened.1) }
    ensures stands { IfOk result (λ opened. IfSome (D.pending disk) (λ told. Uses opened.1
        opened.0.used told.content)) }
    ensures acknowledged { IfOk result (λ opened. IfSome (D.pending disk) (λ _. Acknowledges
        D.pending opened.0 opened.1)) }
    ensures any_moment { IfOk result (λ opened. HoldsThroughout D.moment D.images_since disk
        opened.0.disk (IsImageOf (D.pending disk))) }
    ensures any_moment_refused { IfErr result (λ refused. HoldsThroughout D.moment D.images_since
        disk refused.1 (IsImageOf (D.pending disk))) }
    ensures calls { IfOk result (λ opened. AllMade D.makes disk recovering opened.0.disk) }
    ensures refused_calls { IfErr result (λ refused. (refused.0 ≡ ArchiveFault.DiskFault)
        ⊎ AllMade D.makes disk recovering refused.1) }
    ensures failed_calls { IfErr result (λ refused. refused.0 ≡ ArchiveFault.DiskFault
        → FailsToRecover D.makes D.fails D.fails_to_read disk refused.1) }
    ensures refused { IfErr result (λ refused. RefusesDisk refused.0 (D.pending disk)
        (D.faults disk) (D.faults refused.1)) }
    ensures standing { IfErr result (λ refused. (entries : List terms.Entry)
        → IsSomeAnd (D.pending disk)
        (λ told. StandsFor entries told.content) → IsUnread refused.0) }
{
    gate_journal::laws::an_image_at_rest_stands_for_what_is_kept();
    match Journal::recover(alloc, disk) {
        Ok((journal, entries)) => {
            let archive = FrameArchive {
                alloc,
                capacity,
                count: entries.len() as u64,
                used: journal.used(),
                times: times_of(entries.as_slice()),
                waiting: Entries::new(alloc),
                octets: 0,
                failed: 0,
                is_stale: false,
                journal,
            };
            Ok((archive, entries))
        }
        Err((fault, disk)) => Err((as_opening(fault), disk)),
    }
}

impl<D: Disk> FrameArchive<D> {
    /// Puts an entry behind those that wait. A refusal hands it back and changes nothing. It makes
    /// no call of the disk, and copies no octets.
    pub fn offer(&mut self, entry: Entry) -> Result<(), (OfferFault, Entry)>
        requires { IsTrue (is_valid (entry_of entry)) }
        ensures taken { OnOk result (self.new ≡ with_waiting self.old (entry_of entry)) }
        ensures in_order { OnOk result (refusal self.old (entry_of entry) ≡ None) }
        ensures cause { IfErr result (λ refused. IsRefusal (refusal self.old (entry_of entry))
            refused.0) }
        ensures back { IfErr result (λ refused. refused.1 ≡ entry) }
        ensures unchanged { OnErr result (self.new ≡ self.old) }
        ensures batch { failed_batch self.new ≡ failed_batch self.old }
        ensures acknowledged { (entries : List terms.Entry)
            → Acknowledges D.pending self.old entries
            → Acknowledges D.pending self.new entries }
    {
        archive_terms::laws::archive_grows();
        archive_terms::laws::follows_by_last_times();
        let need = match self.need(&entry) {
            Ok(need) => need,
            Err(fault) => return Err((fault, entry)),
        };
        let times = self.times.after(&entry);
        match self.waiting.try_push(entry) {
            Ok(()) => {
                self.times = times;
                self.octets += need;
                Ok(())
            }
            Err(entry) => Err((OfferFault::Memory, entry)),
        }
    }

    // How many octets an entry wants behind those that wait, or why it isn't taken.
    fn need(&self, entry: &Entry) -> Result<u64, OfferFault>
        requires { IsTrue (is_valid (entry_of entry.now)) }
        ensures need { IfOk result (λ octets. octets ≡ need self.now.waiting (entry_of entry.now)) }
        ensures taken { OnOk result (refusal self.now (entry_of entry.now) ≡ None) }
        ensures refused { IfErr result (λ fault. refusal self.now (entry_of entry.now)
            ≡ Some fault) }
    {
        if !self.times.admit(entry) {
            return Err(OfferFault::Backward);
        }
        if !entry.is_storable() {
            return Err(OfferFault::TooLong);
        }
        let waiting = self.waiting.len();
        if waiting >= MOST_WAITING {
            return Err(OfferFault::Waiting);
        }
        let need = if waiting == 0 {
            entry_length(entry) + BATCH_OCTETS
        } else {
            entry_length(entry)
        };
        let free = self.free();
        if free < need {
            return Err(OfferFault::Full { need, free });
        }
        Ok(need)
    }

    // How many octets are free for a further entry.
    fn free(&self) -> u64
        ensures { result ≡ free self.now }
    {
        let waiting = self.waiting.len() as u64;
        if self.count.saturating_add(waiting) >= MOST_ENTRIES {
            return 0;
        }
        self.capacity
            .saturating_sub(self.used)
            .saturating_sub(self.octets)
    }

    /// Stores the entries that wait as one batch, in four calls of the disk, and hands them back as
    /// acknowledged; where none waits it makes none. After a refusal they still wait. After
    /// `DiskFault` the file may hold them or not: each store answers `Stale` until a reopen
    /// succeeds. It copies each octet once, into the batch, and takes its memory before it calls
    /// the disk.
    pub fn store(&mut self) -> Result<Stored, ArchiveFault>
        ensures stored { IfOk result (λ stored. (self.new ≡ with_stored self.old self.new.disk)
            × (stored.count ≡ self.new.count) × (stored.entries ≡ self.old.waiting)) }
        ensures acknowledged { OnOk result ((entries : List terms.Entry)
            → Acknowledges D.pending self.old
            entries → Acknowledges D.pending self.new (entries ++ self.old.waiting)) }
        ensures still { OnErr result ((entries : List terms.Entry) → Acknowledges D.pending self.old
            entries → Acknowledges D.pending self.new entries) }
        ensures any_moment { self.old.is_stale ≡ false → (entries : List terms.Entry) → Acknowledges
            D.pending self.old entries → HoldsThroughout D.moment D.images_since self.old.disk
            self.new.disk (IsOldOrNew entries self.old.waiting) }
        ensures stale { self.old.is_stale ≡ true → (result ≡ Err ArchiveFault.Stale)
            × (self.new ≡ self.old) }
        ensures nothing { self.old.is_stale ≡ false → self.old.waiting ≡ [] → IsOk result
            × (self.new ≡ self.old) }
        ensures failed { IsErrOf result ArchiveFault.DiskFault → self.new ≡ with_failed self.old
            self.new.disk }
        ensures cause { IsErrOf result ArchiveFault.DiskFault → Rose (D.faults self.old.disk)
            (D.faults self.new.disk) }
        ensures memory { IsErrOf result ArchiveFault.Memory → self.new ≡ self.old }
        ensures answers { self.old.is_stale ≡ false → IsOk result
            ⊎ IsErrOf result ArchiveFault.DiskFault ⊎ IsErrOf result ArchiveFault.Memory }
        ensures calls { OnOk result (1 ≤ length self.old.waiting → AllMade D.makes self.old.disk
            (appending (self.old.used - 1) self.old.waiting) self.new.disk) }
        ensures failed_calls { IsErrOf result ArchiveFault.DiskFault → FailedAtOne D.makes D.fails
            self.old.disk (appending (self.old.used - 1) self.old.waiting) self.new.disk }
    {
        disk_model::laws::images_at_a_moment::<D>();
        gate_journal::laws::an_image_at_rest_stands_for_what_is_kept();
        gate_journal::laws::a_file_stands_for_one_list();
        gate_journal::laws::a_batch_may_follow();
        if self.is_stale {
            return Err(ArchiveFault::Stale);
        }
        if self.waiting.len() == 0 {
            let entries = Entries::new(self.alloc);
            return Ok(Stored {
                count: self.count,
                entries,
            });
        }
        match self.journal.append(&self.waiting, self.capacity) {
            Ok(()) => {
                let count = self.count + self.waiting.len() as u64;
                let entries = mem::replace(&mut self.waiting, Entries::new(self.alloc));
                self.count = count;
                self.used = self.journal.used();
                self.octets = 0;
                Ok(Stored { count, entries })
            }
            Err(fault) => match fault {
                JournalFault::DiskFault => {
                    self.failed = self.waiting.len();
                    self.is_stale = true;
                    Err(ArchiveFault::DiskFault)
                }
                JournalFault::Memory => Err(ArchiveFault::Memory),
                // What waits fits, and no append has failed.
                _ => unreachable!(),
            },
        }
    }

    /// Opens the file again, and tells what became of the entries that waited: those of the store
    /// that failed may have landed in it, and the others are lost. Nothing waits then. On a disk
    /// that tells, the file uses no octets but for what landed. After a refusal all is as it was,
    /// but each store answers `Stale` until a reopen succeeds. It costs a sync and one read of the
    /// whole file.
    pub fn reopen(&mut self) -> Result<Landing, ArchiveFault>
        ensures reopened { OnOk result (self.new ≡ record (at_rest self.new.disk self.old.capacity
            self.new.used []) { count = self.new.count; times = self.new.times }) }
        ensures landed { IfOk result (λ landing. landing.landed ≡ take (self.new.count
            - self.old.count) self.old.waiting) }
        ensures lost { IfOk result (λ landing. landing.lost ≡ drop (self.new.count
            - self.old.count) self.old.waiting) }
        ensures whole { OnOk result ((self.new.count ≡ self.old.count) ⊎ (self.new.count
            ≡ self.old.count + self.old.failed)) }
        ensures used { OnOk result (IfSome (D.pending self.old.disk) (λ _. self.new.used
            ≡ self.old.used + wanted (take (self.new.count - self.old.count) self.old.waiting))) }
        ensures acknowledged { IfOk result (λ landing. (entries : List terms.Entry) → Acknowledges
            D.pending self.old entries → Acknowledges D.pending self.new
            (entries ++ landing.landed)) }
        ensures found { OnOk result ((found : List terms.Entry) × (length found ≡ self.new.count)
            × (self.new.times ≡ times_of found) × IfSome (D.pending self.old.disk)
            (λ told. Uses found self.new.used told.content)) }
        ensures refused { IfErr result (λ fault. self.new ≡ record self.old {
          disk = self.new.disk;
          is_stale = true;
        }) }
        ensures still { OnErr result ((entries : List terms.Entry) → Acknowledges D.pending self.old
            entries → Acknowledges D.pending self.new entries) }
        ensures any_moment { HoldsThroughout D.moment D.images_since self.old.disk self.new.disk
            (IsImageOf (D.pending self.old.disk)) }
        ensures calls { OnOk result (AllMade D.makes self.old.disk recovering self.new.disk) }
        ensures refused_calls { OnErr result (IsErrOf result ArchiveFault.DiskFault
            ⊎ AllMade D.makes self.old.disk recovering self.new.disk) }
        ensures failed_calls { IsErrOf result ArchiveFault.DiskFault → FailsToRecover D.makes
            D.fails D.fails_to_read self.old.disk self.new.disk }
        ensures cause { IfErr result (λ fault. RefusesReopen fault self.old.count self.old.failed
            (D.pending self.old.disk) (D.faults self.old.disk) (D.faults self.new.disk)) }
        ensures honest { IfErr result (λ fault. (entries : List terms.Entry)
            → Acknowledges D.pending
            self.old entries → IsUnread fault) }
    {
        disk_model::laws::images_at_a_moment::<D>();
        gate_journal::laws::an_image_at_rest_stands_for_what_is_kept();
        gate_journal::laws::a_file_stands_for_one_list();
        self.is_stale = true;
        let found = match self.journal.recover_again(self.alloc) {
            Ok(found) => found,
            Err(fault) => return Err(as_opening(fault)),
        };
        let landed = landed(self.count, self.failed, found.len() as u64)?;
        let lost = lost(&mut self.waiting, landed)?;
        self.count = found.len() as u64;
        self.used = self.journal.used();
        self.times = times_of(found.as_slice());
        self.octets = 0;
        self.failed = 0;
        self.is_stale = false;
        let landed = mem::replace(&mut self.waiting, Entries::new(self.alloc));
        Ok(Landing { landed, lost })
    }

    /// Opens the file again as `open_archive` does, by what it holds alone, and gives its entries:
    /// nothing waits then. After a refusal all is as it was, but each store answers `Stale` until a
    /// reopen or this succeeds. It costs a sync and one read of the whole file.
    pub fn open_anew(&mut self) -> Result<Entries, ArchiveFault>
        ensures at_rest { IfOk result (λ found. self.new ≡ at_rest self.new.disk self.old.capacity
            self.new.used found) }
        ensures stands { IfOk result (λ found. IfSome (D.pending self.old.disk) (λ told. Uses found
            self.new.used told.content)) }
        ensures acknowledged { IfOk result (λ found. IfSome (D.pending self.old.disk) (λ _.
            Acknowledges D.pending self.new found)) }
        ensures refused { OnErr result (self.new ≡ record self.old {
          disk = self.new.disk;
          is_stale = true;
        }) }
        ensures any_moment { HoldsThroughout D.moment D.images_since self.old.disk self.new.disk
            (IsImageOf (D.pending self.old.disk)) }
        ensures calls { OnOk result (AllMade D.makes self.old.disk recovering self.new.disk) }
        ensures refused_calls { OnErr result (IsErrOf result ArchiveFault.DiskFault
            ⊎ AllMade D.makes self.old.disk recovering self.new.disk) }
        ensures failed_calls { IsErrOf result ArchiveFault.DiskFault → FailsToRecover D.makes
            D.fails D.fails_to_read self.old.disk self.new.disk }
        ensures cause { IfErr result (λ fault. RefusesDisk fault (D.pending self.old.disk)
            (D.faults self.old.disk) (D.faults self.new.disk)) }
        ensures standing { IfErr result (λ fault. (entries : List terms.Entry)
            → IsSomeAnd (D.pending self.old.disk)
            (λ told. StandsFor entries told.content) → IsUnread fault) }
    {
        disk_model::laws::images_at_a_moment::<D>();
        gate_journal::laws::a_file_stands_for_one_list();
        gate_journal::laws::an_image_at_rest_stands_for_what_is_kept();
        self.is_stale = true;
        let found = match self.journal.recover_again(self.alloc) {
            Ok(found) => found,
            Err(fault) => return Err(as_opening(fault)),
        };
        self.count = found.len() as u64;
        self.used = self.journal.used();
        self.times = times_of(found.as_slice());
        self.waiting = Entries::new(self.alloc);
        self.octets = 0;
        self.failed = 0;
        self.is_stale = false;
        Ok(found)
    }

    /// How many entries are acknowledged.
    pub fn count(&self) -> u64
        ensures { result ≡ self.now.count }
    {
        self.count
    }

    /// How many entries wait.
    pub fn waiting(&self) -> usize
        ensures { result ≡ length self.now.waiting }
    {
        self.waiting.len()
    }

    /// How many octets of the file the acknowledged entries use: those up to the gate behind their
    /// batches, and that one.
    pub fn used(&self) -> u64
        ensures { result ≡ self.now.used }
    {
        self.used
    }

    /// The disk, to be looked at.
    pub fn disk(&self) -> &D
        ensures { result.now ≡ self.now.disk }
    {
        self.journal.disk()
    }

    /// Hands the disk back as it is. What waits is dropped.
    pub fn into_disk(self) -> D
        ensures { result ≡ self.disk }
    {
        self.journal.into_disk()
    }
}

impl FrameArchive<MemoryDisk> {
    /// Steers the disk in memory, and changes nothing else. Unless the archive has to be opened
    /// again, its last gate stands behind what the disk keeps.
    pub fn steer(&mut self, orders: Orders)
        ensures steered { self.new ≡ record self.old { disk = steered self.old.disk orders } }
        ensures at_rest { self.old.is_stale ≡ false
            → IsAtRest (Some (pending_of self.old.disk)) (self.old.used - 1) }
        ensures used { self.old.is_stale ≡ false → 1 ≤ self.old.used }
    {
        self.journal.steer(orders);
    }

    /// Starts the disk in memory again where it stopped. Then the archive has to be opened again.
    pub fn restart(&mut self) -> Result<(), Memory>
        ensures stale { self.new ≡ record self.old { disk = self.new.disk; is_stale = true } }
        ensures ok { OnOk result (MatchOption self.old.disk.stopped
            (self.new.disk ≡ self.old.disk)
            (λ pick. self.new.disk ≡ restarted self.old.disk pick)) }
        ensures err { OnErr result (self.new.disk ≡ self.old.disk) }
        ensures image { OnOk result (IsImage (pending_of self.old.disk)
            (content_of self.new.disk)) }
    {
        gate_journal::laws::a_file_stands_for_one_list();
        self.is_stale = true;
        self.journal.restart()
    }
}

// How many of the entries of a store that failed the file holds: all or none.
fn landed(count: u64, batch: usize, entries: u64) -> Result<usize, ArchiveFault>
    ensures none { IfOk result (λ landed. entries ≡ count + landed) }
    ensures whole { IfOk result (λ landed. (landed ≡ 0) ⊎ (landed ≡ batch)) }
    ensures changed { IfErr result (λ fault. fault ≡ ArchiveFault.Changed count entries) }
    ensures neither { OnErr result (¬ (entries ≡ count)) }
    ensures nor { OnErr result (¬ (entries ≡ count + batch)) }
{
    if entries == count {
        return Ok(0);
    }
    if entries.checked_sub(count) == Some(batch as u64) {
        return Ok(batch);
    }
    Err(ArchiveFault::Changed {
        expected: count,
        found: entries,
    })
}

// Takes off the entries behind those that landed.
fn lost(waiting: &mut Entries, count: usize) -> Result<Entries, ArchiveFault>
    requires { count ≤ length waiting.old }
    ensures landed { OnOk result (waiting.new ≡ take count waiting.old) }
    ensures lost { IfOk result (λ lost. lost ≡ drop count waiting.old) }
    ensures still { OnErr result (waiting.new ≡ waiting.old) }
    ensures memory { IfErr result (λ fault. fault ≡ ArchiveFault.Memory) }
{
    match waiting.split_off(count) {
        Ok(lost) => Ok(lost),
        Err(_) => Err(ArchiveFault::Memory),
    }
}

// Why an archive isn't opened, where its journal isn't recovered.
fn as_opening(fault: JournalFault) -> ArchiveFault
    requires { IsOfRecovery fault }
    ensures { result ≡ opening_fault fault }
{
    match fault {
        JournalFault::NotJournal { place } => ArchiveFault::NotJournal { place },
        JournalFault::Damaged { place } => ArchiveFault::Damaged { place },
        JournalFault::DiskFault => ArchiveFault::DiskFault,
        JournalFault::Memory => ArchiveFault::Memory,
        JournalFault::Full { .. } | JournalFault::Stale => unreachable!(),
    }
}
