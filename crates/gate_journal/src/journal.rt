// A journal on a disk.
ghost use Rattle.std.specs.Prelude.{◌≡◌, ◌≢◌, ◌+◌, ◌-◌, ◌*◌, ◌<◌, ◌≤◌, ◌^◌, ◌++◌, ◌⊎◌, ℕ, true};
ghost use Rattle.std.specs.Prelude.{false, List, length, max, [], ◌∷◌, Some, option_map, IfSome};
ghost use Rattle.std.specs.Prelude.{IsSomeAnd, is_some, IsTrue, OnOk, OnErr, IfOk, IfErr, IsOk};
ghost use Rattle.std.specs.Prelude.{IsErrOf, Ok, Err, MatchOption};
ghost use Rattle.std.specs.List.{list_all};
ghost use Rattle.octet_core.specs.Fault.{FailsOnlyByFault, Rose};
ghost use Rattle.archive_terms.specs.Archive.{Entry, IsArchive, is_storable};
ghost use Rattle.disk_model.specs.Images.{IsImage, with_range, all_synced, written_and_synced};
ghost use Rattle.disk_model.specs.Moments.{IsImageOf, HoldsThroughout};
ghost use Rattle.disk_model.specs.Calls.{AllMade, FailedAtOne, RunsCalls};
ghost use Rattle.disk_model.specs.MemoryDisk.{steered, restarted, pending_of, content_of};
ghost use Rattle.disk_model.specs.declared.call.Call.TheVariants.{Write, Sync};
ghost use Rattle.gate_journal.specs.File.{StandsFor, StandsAt, entries_octets};
ghost use Rattle.gate_journal.specs.JournalState.{Keeps, IsAtRest, IsOldOrNew, IsReady, IsBegun};
ghost use Rattle.gate_journal.specs.JournalState.{IsInPlace, OnlyReads};
ghost use Rattle.gate_journal.specs.JournalState.{RefusesDisk, appending, appending_octets};
ghost use Rattle.gate_journal.specs.JournalState.{creating, recovering, FailsToRecover};
ghost use Rattle.gate_journal.specs.JournalState.{IsUnread};
ghost use Rattle.gate_journal.specs.declared.fault.JournalFault.TheVariants as JournalFault;

use crate::loading::{HEADER, load};
use crate::passing::OPEN;
use crate::writing::{entries_length, write_batch};
use crate::{JournalFault, laws};
use disk_model::{Disk, MemoryDisk, Orders, write_synced};
use octet_core::{Failed, Memory, Octets};
use record_form::Entries;
use std::alloc::Global;
use std::marker::Model;

// The header, and a closed gate.
const NEW_FILE: [u8; 9] = *b"SLEA\x00\x00\x00\x01\x00";

/// A journal of entries on a disk: batches, each behind an open gate (A5), and then a gate that
/// isn't open. Anything may follow that one.
#[derive(Drop)]
pub struct Journal<D: Disk> {
    disk: D,
    // Where the gate behind the batches stands.
    gate: u64,
    is_stale: bool,
    // Where a batch's octets are put together.
    batch: Octets,
}

impl<D: Disk> Model for Journal<D> {
    ghost use Rattle.std.specs.Prelude.{◌≡◌, ◌+◌, ◌^◌, ◌<◌, false};
    ghost use Rattle.gate_journal.specs.JournalState.{JournalState, IsAtRest};

    ghost Value = { JournalState D };

    ghost view = { λ journal. record {
      disk = journal.disk;
      gate = journal.gate;
      is_stale = journal.is_stale;
    } };

    ghost invariant = { λ journal. (journal.gate + 1 < 2 ^ 64)
        × (journal.is_stale ≡ false → (journal.gate < D.extent journal.disk)
        × IsAtRest (D.pending journal.disk) journal.gate) };
}

impl<D: Disk> Journal<D> {
    /// A journal of no entries on an empty disk. It costs one write and one sync. A refusal hands
    /// the disk back; after a fault of the disk the file may hold a part of the header.
    pub fn create(alloc: Global, mut disk: D) -> Result<Journal<D>, (JournalFault, D)>
        ensures keeps { IfOk result (λ journal. IfSome (D.pending disk) (λ _. Keeps
            (D.pending journal.disk) [])) }
        ensures gate { IfOk result (λ journal. journal.gate ≡ 8) }
        ensures fresh { IfOk result (λ journal. journal.is_stale ≡ false) }
        ensures kept { IfOk result (λ journal. D.faults journal.disk ≡ D.faults disk) }
        ensures any_moment { IfOk result (λ journal. IfSome (D.pending disk)
            (λ told. told.greatest ≤ 9) → HoldsThroughout D.moment D.images_since disk journal.disk
            IsBegun) }
        ensures any_moment_refused { IfErr result (λ fault. IfSome (D.pending disk)
            (λ told. told.greatest ≤ 9) → HoldsThroughout D.moment D.images_since disk fault.1
            IsBegun) }
        ensures calls { IfOk result (λ journal. AllMade D.makes disk creating journal.disk) }
        ensures failed { IfErr result (λ fault. D.extent disk ≡ 0 → FailedAtOne D.makes D.fails disk
            creating fault.1) }
        ensures occupied { 0 < D.extent disk
            → result ≡ Err (JournalFault.NotJournal 0, disk) }
        ensures cause { IfErr result (λ fault. D.extent disk ≡ 0
            → (fault.0 ≡ JournalFault.DiskFault) × Rose (D.faults disk) (D.faults fault.1)) }
    {
        disk_model::laws::images_at_a_moment::<D>();
        if disk.size() > 0 {
            return Err((JournalFault::NotJournal { place: 0 }, disk));
        }
        if write_synced(&mut disk, 0, &NEW_FILE).is_err() {
            return Err((JournalFault::DiskFault, disk));
        }
        Ok(Journal {
            disk,
            gate: HEADER.len() as u64,
            is_stale: false,
            batch: Octets::new(alloc),
        })
    }

    /// The journal of the file of a disk, and the entries that it stands for, whatever calls failed
    /// or stopped there before: the disk is synced, and then read. A refusal hands the disk back.
    pub fn recover(alloc: Global, mut disk: D) -> Result<(Journal<D>, Entries), (JournalFault, D)>
        ensures stands { IfOk result (λ read. IfSome (D.pending disk)
            (λ pending. StandsAt read.1 read.0.gate pending.content)) }
        ensures keeps { IfOk result (λ read. IfSome (D.pending disk) (λ _. Keeps
            (D.pending read.0.disk) read.1)) }
        ensures archive { IfOk result (λ read. IsArchive read.1) }
        ensures fresh { IfOk result (λ read. read.0.is_stale ≡ false) }
        ensures kept { IfOk result (λ read. D.faults read.0.disk ≡ D.faults disk) }
        ensures any_moment { IfOk result (λ read. HoldsThroughout D.moment D.images_since disk
            read.0.disk (IsImageOf (D.pending disk))) }
        ensures any_moment_refused { IfErr result (λ fault. HoldsThroughout D.moment D.images_since
            disk fault.1 (IsImageOf (D.pending disk))) }
        ensures tells { IfOk result (λ read. is_some (D.pending read.0.disk)
            ≡ is_some (D.pending disk)) }
        ensures calls { IfOk result (λ read. AllMade D.makes disk recovering read.0.disk) }
        ensures refused_calls { IfErr result (λ fault. (fault.0 ≡ JournalFault.DiskFault)
            ⊎ AllMade D.makes disk recovering fault.1) }
        ensures failed_calls { IfErr result (λ fault. fault.0 ≡ JournalFault.DiskFault
            → FailsToRecover D.makes D.fails D.fails_to_read disk fault.1) }
        ensures refused { IfErr result (λ fault.
            RefusesDisk fault.0 (D.pending disk) (D.faults disk)
            (D.faults fault.1)) }
        ensures standing { IfErr result (λ fault. (entries : List Entry)
            → IsSomeAnd (D.pending disk)
            (λ told. StandsFor entries told.content) → IsUnread fault.0) }
    {
        match load_synced(alloc, &mut disk) {
            Ok((entries, gate)) => {
                let journal = Journal {
                    disk,
                    gate,
                    is_stale: false,
                    batch: Octets::new(alloc),
                };
                Ok((journal, entries))
            }
            Err(fault) => Err((fault, disk)),
        }
    }

    /// The same in place, whatever appends failed: the disk is synced, and then read. After a
    /// refusal the journal is stale.
    pub fn recover_again(&mut self, alloc: Global) -> Result<Entries, JournalFault>
        ensures stands { IfOk result (λ entries. IfSome (D.pending self.old.disk)
            (λ told. StandsAt entries self.new.gate told.content)) }
        ensures keeps { IfOk result (λ entries. IfSome (D.pending self.old.disk) (λ _. Keeps
            (D.pending self.new.disk) entries)) }
        ensures archive { IfOk result IsArchive }
        ensures fresh { OnOk result (self.new.is_stale ≡ false) }
        ensures kept { OnOk result (D.faults self.new.disk ≡ D.faults self.old.disk) }
        ensures stale { OnErr result (self.new.is_stale ≡ true) }
        ensures place { OnErr result (self.new.gate ≡ self.old.gate) }
        ensures at_rest { self.old.is_stale ≡ false
            → IsAtRest (D.pending self.old.disk) self.old.gate }
        ensures any_moment { HoldsThroughout D.moment D.images_since self.old.disk self.new.disk
            (IsImageOf (D.pending self.old.disk)) }
        ensures tells { is_some (D.pending self.new.disk) ≡ is_some (D.pending self.old.disk) }
        ensures calls { OnOk result (AllMade D.makes self.old.disk recovering self.new.disk) }
        ensures refused_calls { OnErr result (IsErrOf result JournalFault.DiskFault
            ⊎ AllMade D.makes self.old.disk recovering self.new.disk) }
        ensures failed_calls { IsErrOf result JournalFault.DiskFault → FailsToRecover D.makes
            D.fails D.fails_to_read self.old.disk self.new.disk }
        ensures refused { IfErr result (λ fault. RefusesDisk fault (D.pending self.old.disk)
            (D.faults self.old.disk) (D.faults self.new.disk)) }
        ensures standing { IfErr result (λ fault. (entries : List Entry) → IsSomeAnd
            (D.pending self.old.disk) (λ told. StandsFor entries told.content) → IsUnread fault) }
    {
        self.is_stale = true;
        match load_synced(alloc, &mut self.disk) {
            Ok((entries, gate)) => {
                self.gate = gate;
                self.is_stale = false;
                Ok(entries)
            }
            Err(fault) => Err(fault),
        }
    }

    /// Appends a batch of 1 to 256 entries, in four calls of the disk, where with it and the gate
    /// behind it the file has at most `capacity` octets. After `DiskFault` the file may hold it or
    /// not: then each call answers `Stale` and leaves the disk alone, until it is recovered.
    pub fn append(&mut self, batch: &Entries, capacity: u64) -> Result<(), JournalFault>
        requires some { 1 ≤ length batch.now }
        requires most { length batch.now ≤ 256 }
        requires storable { IsTrue (list_all is_storable batch.now) }
        requires archive { (entries : List Entry) → Keeps (D.pending self.old.disk) entries
            → IsArchive (entries ++ batch.now) }
        requires capacity { capacity ≤ 268435456 }
        ensures appended { OnOk result ((entries : List Entry)
            → Keeps (D.pending self.old.disk) entries
            → Keeps (D.pending self.new.disk) (entries ++ batch.now)) }
        ensures gate { OnOk result (self.new.gate
            ≡ self.old.gate + (length (entries_octets batch.now) + 7)) }
        ensures any_moment { (entries : List Entry) → Keeps (D.pending self.old.disk) entries
            → HoldsThroughout D.moment D.images_since self.old.disk self.new.disk
            (IsOldOrNew entries batch.now) }
        ensures in_place { IsErrOf result JournalFault.DiskFault → (entries : List Entry)
            → Keeps (D.pending self.old.disk) entries → (image : List ℕ)
            → IsImageOf (D.pending self.new.disk) image
            → IsInPlace entries batch.now self.old.gate image }
        ensures tells { is_some (D.pending self.new.disk) ≡ is_some (D.pending self.old.disk) }
        ensures calls { OnOk result (AllMade D.makes self.old.disk
            (appending self.old.gate batch.now) self.new.disk) }
        ensures failed { IsErrOf result JournalFault.DiskFault → FailedAtOne D.makes D.fails
            self.old.disk (appending self.old.gate batch.now) self.new.disk }
        ensures cause { IsErrOf result JournalFault.DiskFault → Rose (D.faults self.old.disk)
            (D.faults self.new.disk) }
        ensures place { OnErr result (self.new.gate ≡ self.old.gate) }
        ensures stale { IsErrOf result JournalFault.DiskFault → self.new.is_stale ≡ true }
        ensures fresh { OnOk result (self.new.is_stale ≡ false) }
        ensures kept { OnOk result (D.faults self.new.disk ≡ D.faults self.old.disk) }
        ensures stays_stale { self.old.is_stale ≡ true → (result ≡ Err JournalFault.Stale) ×
            (self.new ≡ self.old) }
        ensures full { self.old.is_stale ≡ false
            → capacity - (self.old.gate + 1) < length (entries_octets batch.now) + 7
            → (result ≡ Err (JournalFault.Full (length (entries_octets batch.now) + 7)
            (capacity - (self.old.gate + 1)))) × (self.new ≡ self.old) }
        ensures memory { IsErrOf result JournalFault.Memory → self.new ≡ self.old }
        ensures fault { self.old.is_stale ≡ false
            → length (entries_octets batch.now) + 7 ≤ capacity - (self.old.gate + 1)
            → IsOk result ⊎ IsErrOf result JournalFault.DiskFault
            ⊎ IsErrOf result JournalFault.Memory }
    {
        disk_model::laws::images_at_a_moment::<D>();
        record_form::laws::read_back();
        if self.is_stale {
            return Err(JournalFault::Stale);
        }
        let size = entries_length(batch.as_slice());
        let need = size + 7;
        let free = capacity.saturating_sub(self.used());
        if free < need {
            return Err(JournalFault::Full { need, free });
        }
        self.batch.clear();
        write_batch(batch.as_slice(), size, &mut self.batch)?;
        self.is_stale = true;
        put(&mut self.disk, self.gate, self.batch.as_slice())?;
        self.gate += need;
        self.is_stale = false;
        Ok(())
    }

    /// How many octets of the file are used: those up to the gate behind the batches, and that one.
    pub fn used(&self) -> u64
        ensures { result ≡ self.now.gate + 1 }
    {
        self.gate + 1
    }

    /// Whether an append answered `DiskFault`, so that each one answers `Stale`. While none has,
    /// the gate stands behind what the disk keeps.
    pub fn is_stale(&self) -> bool
        ensures stale { result ≡ self.now.is_stale }
        ensures at_rest { self.now.is_stale ≡ false → IsAtRest (D.pending self.now.disk)
            self.now.gate }
    {
        self.is_stale
    }

    /// The disk, to be looked at.
    pub fn disk(&self) -> &D
        ensures { result.now ≡ self.now.disk }
    {
        &self.disk
    }

    /// Hands the disk back as it is.
    pub fn into_disk(self) -> D
        ensures { result ≡ self.disk }
    {
        self.disk
    }
}

impl Journal<MemoryDisk> {
    /// Steers the disk in memory, and changes nothing else. While no append has failed, the gate
    /// stands behind what the disk keeps.
    pub fn steer(&mut self, orders: Orders)
        ensures steered { self.new ≡ record self.old { disk = steered self.old.disk orders } }
        ensures at_rest { self.old.is_stale ≡ false
            → IsAtRest (Some (pending_of self.old.disk)) self.old.gate }
    {
        self.disk.steer(orders);
    }

    /// Starts a disk in memory that stopped again. The journal is stale until it is recovered.
    pub fn restart(&mut self) -> Result<(), Memory>
        ensures at_rest { self.old.is_stale ≡ false
            → IsAtRest (Some (pending_of self.old.disk)) self.old.gate }
        ensures stale { self.new ≡ record self.old { disk = self.new.disk; is_stale = true } }
        ensures ok { OnOk result (MatchOption self.old.disk.stopped
            (self.new.disk ≡ self.old.disk)
            (λ pick. self.new.disk ≡ restarted self.old.disk pick)) }
        ensures err { OnErr result (self.new.disk ≡ self.old.disk) }
        ensures image { OnOk result (IsImage (pending_of self.old.disk)
            (content_of self.new.disk)) }
    {
        self.is_stale = true;
        self.disk.restart()
    }
}

// Puts a batch behind those of a disk at rest, whose gate stands at this place.
fn put<D: Disk>(disk: &mut D, gate: u64, octets: &[u8]) -> Result<(), Failed>
    requires at_rest { IsAtRest (D.pending disk.old) gate }
    requires size { gate < D.extent disk.old }
    requires room { gate + 1 + length octets.now < 2 ^ 64 }
    ensures added { OnOk result ((batch : List Entry)
        → IsReady (D.pending disk.old) batch octets.now → (entries : List Entry)
        → Keeps (D.pending disk.old) entries → Keeps
        (D.pending disk.new) (entries ++ batch)) }
    ensures at_rest { OnOk result ((batch : List Entry)
        → IsReady (D.pending disk.old) batch octets.now
        → IsAtRest (D.pending disk.new) (gate + length octets.now)) }
    ensures size { OnOk result (gate + length octets.now < D.extent disk.new) }
    ensures any_moment { (batch : List Entry) → IsReady (D.pending disk.old) batch octets.now
        → (entries : List Entry) → Keeps (D.pending disk.old) entries
        → HoldsThroughout D.moment D.images_since disk.old disk.new (IsOldOrNew entries batch) }
    ensures in_place { (batch : List Entry) → IsReady (D.pending disk.old) batch octets.now
        → (entries : List Entry) → Keeps (D.pending disk.old) entries → (image : List ℕ)
        → IsImageOf (D.pending disk.new) image → IsInPlace entries batch gate image }
    ensures tells { is_some (D.pending disk.new) ≡ is_some (D.pending disk.old) }
    ensures calls { RunsCalls D.makes D.fails disk.old (appending_octets gate octets.now) disk.new
        result }
    ensures cause { FailsOnlyByFault (D.faults disk.old) (D.faults disk.new) result }
{
    disk_model::laws::images_at_a_moment::<D>();
    record_form::laws::read_back();
    write_synced(disk, gate + 1, octets)?;
    open_gate(disk, gate)
}

// Opens the gate that stands at this place, and syncs it.
fn open_gate<D: Disk>(disk: &mut D, gate: u64) -> Result<(), Failed>
    requires { gate ≤ D.extent disk.old }
    ensures written { OnOk result (D.pending disk.new ≡ option_map
        (written_and_synced gate (165 ∷ [])) (D.pending disk.old)) }
    ensures size { OnOk result (D.extent disk.new ≡ max (D.extent disk.old) (gate + 1)) }
    ensures any_moment { HoldsThroughout D.moment D.images_since disk.old disk.new (IsImageOf
        (option_map (with_range gate 1 []) (D.pending disk.old))) }
    ensures tells { is_some (D.pending disk.new) ≡ is_some (D.pending disk.old) }
    ensures calls { RunsCalls D.makes D.fails disk.old (Write gate (165 ∷ []) ∷ Sync ∷ []) disk.new
        result }
    ensures cause { FailsOnlyByFault (D.faults disk.old) (D.faults disk.new) result }
{
    write_synced(disk, gate, &[OPEN])
}

// Syncs the disk, and reads the entries that its file stands for, and where the gate behind them
// stands.
fn load_synced<D: Disk>(alloc: Global, disk: &mut D) -> Result<(Entries, u64), JournalFault>
    ensures stands { IfOk result (λ read. IfSome (D.pending disk.old)
        (λ told. StandsAt read.0 read.1 told.content)) }
    ensures keeps { IfOk result (λ read. IfSome (D.pending disk.old) (λ _. Keeps
        (D.pending disk.new) read.0)) }
    ensures archive { IfOk result (λ read. IsArchive read.0) }
    ensures at_rest { IfOk result (λ read. IsAtRest (D.pending disk.new) read.1) }
    ensures within { IfOk result (λ read. read.1 < D.extent disk.new) }
    ensures kept { OnOk result (D.faults disk.new ≡ D.faults disk.old) }
    ensures fits { IfOk result (λ read. read.1 + 1 < 2 ^ 64) }
    ensures any_moment { HoldsThroughout D.moment D.images_since disk.old disk.new
        (IsImageOf (D.pending disk.old)) }
    ensures tells { is_some (D.pending disk.new) ≡ is_some (D.pending disk.old) }
    ensures calls { OnOk result (AllMade D.makes disk.old recovering disk.new) }
    ensures refused_calls { OnErr result (IsErrOf result JournalFault.DiskFault
        ⊎ AllMade D.makes disk.old recovering disk.new) }
    ensures failed_calls { IsErrOf result JournalFault.DiskFault → FailsToRecover D.makes D.fails
        D.fails_to_read disk.old disk.new }
    ensures refused { IfErr result (λ fault. RefusesDisk fault (D.pending disk.old)
        (D.faults disk.old) (D.faults disk.new)) }
    ensures standing { IfErr result (λ fault. (entries : List Entry) → IsSomeAnd
        (D.pending disk.old) (λ told. StandsFor entries told.content) → IsUnread fault) }
{
    if disk.sync().is_err() {
        return Err(JournalFault::DiskFault);
    }
    let (entries, gate) = read_all(alloc, disk)?;
    Ok((entries, gate))
}

// Reads the entries that the file stands for, and where the gate behind them stands.
fn read_all<D: Disk>(alloc: Global, disk: &mut D) -> Result<(Entries, u64), JournalFault>
    ensures stands { IfOk result (λ read. IfSome (D.pending disk.old)
        (λ pending. StandsAt read.0 read.1 pending.content)) }
    ensures archive { IfOk result (λ read. IsArchive read.0) }
    ensures within { IfOk result (λ read. read.1 < D.extent disk.old) }
    ensures fits { IfOk result (λ read. read.1 + 1 < 2 ^ 64) }
    ensures same { IsErrOf result JournalFault.DiskFault ⊎ (disk.new ≡ disk.old) }
    ensures failed { IsErrOf result JournalFault.DiskFault → D.fails_to_read disk.old disk.new }
    ensures reads { OnlyReads D.pending D.moment D.images_since disk.old disk.new }
    ensures refused { IfErr result (λ fault. RefusesDisk fault (D.pending disk.old)
        (D.faults disk.old) (D.faults disk.new)) }
    ensures standing { IfErr result (λ fault. (entries : List Entry)
        → IsSomeAnd (D.pending disk.old)
        (λ told. StandsFor entries told.content) → IsUnread fault) }
{
    laws::a_refused_file_stands_for_nothing();
    let file = read_file(alloc, disk)?;
    let octets = file.as_slice();
    record_form::laws::slice(octets);
    load(alloc, octets)
}

// Reads all octets of the file.
fn read_file<D: Disk>(alloc: Global, disk: &mut D) -> Result<Vec<u8>, JournalFault>
    ensures content { IfOk result (λ file. IfSome (D.pending disk.old)
        (λ told. file.items ≡ told.content)) }
    ensures size { IfOk result (λ file. length file.items ≡ D.extent disk.old) }
    ensures same { IsErrOf result JournalFault.DiskFault ⊎ (disk.new ≡ disk.old) }
    ensures failed { IsErrOf result JournalFault.DiskFault → D.fails_to_read disk.old disk.new }
    ensures reads { OnlyReads D.pending D.moment D.images_since disk.old disk.new }
    ensures refused { IfErr result (λ fault. RefusesDisk fault (D.pending disk.old)
        (D.faults disk.old) (D.faults disk.new)) }
    ensures unread { IfErr result IsUnread }
{
    disk_model::laws::images_at_a_moment::<D>();
    let mut file = Vec::new(alloc);
    file.resize(disk.size() as usize, 0)?;
    disk.read_at(0, &mut file)?;
    Ok(file)
}
