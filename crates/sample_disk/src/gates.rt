// Octets behind gates on a disk.
ghost use Rattle.std.specs.Prelude.{◌≡◌, ◌+◌, ◌*◌, ◌<◌, ◌≤◌, ◌^◌, ◌++◌, ◌⊎◌, ℕ, true, false, List};
ghost use Rattle.std.specs.Prelude.{length, drop, max, [], ◌∷◌, Some, option_map, IfSome};
ghost use Rattle.std.specs.Prelude.{MatchOption, OnOk, OnErr, IfOk, IfErr, IsOk, IsErrOf, IsSome};
ghost use Rattle.std.specs.Prelude.{◌↔◌, ◌/◌};
ghost use Rattle.octet_core.specs.Fault.{FailsOnlyByFault, Rose};
ghost use Rattle.disk_model.specs.Images.{with_range, written_and_synced};
ghost use Rattle.disk_model.specs.Moments.{IsImageOf, HoldsThroughout};
ghost use Rattle.disk_model.specs.Calls.{AllMade, FailedAtOne, RunsCalls};
ghost use Rattle.disk_model.specs.MemoryDisk.{steered};
ghost use Rattle.disk_model.specs.declared.call.Call.TheVariants.{Write, Sync};
ghost use Rattle.sample_disk.specs.Gated.{StandsFor, Keeps, IsAtRest, IsOldOrNew, IsCut, IsBehind};
ghost use Rattle.sample_disk.specs.Gated.{IsFirst, OnlyReads, adding};

use crate::GateFault;
use disk_model::{Disk, MemoryDisk, Orders, write_synced};
use octet_core::{Failed, Octets};
use std::alloc::Global;
use std::marker::Model;

const OPEN: u8 = 0xa5;

const CLOSED: u8 = 0;

/// Octets on a disk, each behind an open gate (A5), and then a gate that isn't open. Anything may
/// follow that one.
#[derive(Drop)]
pub struct Gates<D: Disk> {
    disk: D,
    // Where the gate behind the octets stands.
    gate: u64,
    is_stale: bool,
}

impl<D: Disk> Model for Gates<D> {
    ghost use Rattle.std.specs.Prelude.{◌≡◌, ◌<◌, false};
    ghost use Rattle.sample_disk.specs.Gated.{GatesState, IsAtRest};

    ghost Value = { GatesState D };

    ghost view = { λ gates. record {
      disk = gates.disk;
      gate = gates.gate;
      is_stale = gates.is_stale;
    } };

    ghost invariant = { λ gates. gates.is_stale ≡ false → (gates.gate < D.extent gates.disk)
        × IsAtRest (D.pending gates.disk) gates.gate };
}

impl<D: Disk> Gates<D> {
    /// The octets that the file of a disk stands for, whatever calls failed or stopped there
    /// before: it is synced, and then read. A refusal hands the disk back.
    pub fn recover(alloc: Global, mut disk: D) -> Result<(Gates<D>, Octets), (GateFault, D)>
        ensures stands { IfOk result (λ read. IfSome (D.pending disk)
            (λ pending. StandsFor read.1 pending.content)) }
        ensures keeps { IfOk result (λ read. IfSome (D.pending disk) (λ _. Keeps
            (D.pending read.0.disk) read.1)) }
        ensures gate { IfOk result (λ read. (read.0.gate ≡ 2 * length read.1) ×
            (read.0.is_stale ≡ false)) }
        ensures any_moment { IfOk result (λ read. HoldsThroughout D.moment D.images_since disk
            read.0.disk (IsImageOf (D.pending disk))) }
        ensures any_moment_refused { IfErr result (λ fault. HoldsThroughout D.moment D.images_since
            disk fault.1 (IsImageOf (D.pending disk))) }
        ensures calls { IfOk result (λ read. AllMade D.makes disk (Sync ∷ []) read.0.disk) }
        ensures no_gate { IfErr result (λ fault. fault.0 ≡ GateFault.NoGate → IfSome
            (D.pending disk) (λ pending. (octets : List ℕ) → ¬ StandsFor octets pending.content)) }
        ensures cause { IfErr result (λ fault. fault.0 ≡ GateFault.Disk → Rose (D.faults disk)
            (D.faults fault.1)) }
    {
        if disk.sync().is_err() {
            return Err((GateFault::Disk, disk));
        }
        match read_all(alloc, &mut disk) {
            Ok((octets, gate)) => {
                let is_stale = false;
                Ok((
                    Gates {
                        disk,
                        gate,
                        is_stale,
                    },
                    octets,
                ))
            }
            Err(fault) => Err((fault, disk)),
        }
    }

    /// Adds an octet, in four calls of the disk, where with it and the gate behind it the file has
    /// at most `capacity` octets. After `Disk` the file may hold it or not: then each call answers
    /// `Stale` and leaves the disk alone, until it is recovered.
    pub fn add(&mut self, octet: u8, capacity: u64) -> Result<(), GateFault>
        ensures added { OnOk result ((octets : List ℕ) → Keeps (D.pending self.old.disk) octets
            → Keeps (D.pending self.new.disk) (octets ++ octet ∷ [])) }
        ensures gate { OnOk result (self.new.gate ≡ self.old.gate + 2) }
        ensures any_moment { (octets : List ℕ) → Keeps (D.pending self.old.disk) octets
            → HoldsThroughout D.moment D.images_since self.old.disk self.new.disk
            (IsOldOrNew octets octet) }
        ensures calls { OnOk result (AllMade D.makes self.old.disk
            (adding self.old.gate octet) self.new.disk) }
        ensures failed { IsErrOf result GateFault.Disk → FailedAtOne D.makes D.fails self.old.disk
            (adding self.old.gate octet) self.new.disk }
        ensures cause { IsErrOf result GateFault.Disk → Rose (D.faults self.old.disk)
            (D.faults self.new.disk) }
        ensures stale { IsErrOf result GateFault.Disk → self.new.is_stale ≡ true }
        ensures stays_stale { self.old.is_stale ≡ true → (result ≡ Err GateFault.Stale) ×
            (self.new ≡ self.old) }
        ensures full { self.old.is_stale ≡ false → capacity < self.old.gate + 3 →
            (result ≡ Err GateFault.Full) × (self.new ≡ self.old) }
        ensures fault { self.old.is_stale ≡ false → self.old.gate + 3 ≤ capacity
            → IsOk result ⊎ IsErrOf result GateFault.Disk }
    {
        disk_model::laws::images_at_a_moment::<D>();
        if self.is_stale {
            return Err(GateFault::Stale);
        }
        if capacity < 3 || capacity - 3 < self.gate {
            return Err(GateFault::Full);
        }
        self.is_stale = true;
        put(&mut self.disk, self.gate, octet)?;
        self.gate += 2;
        self.is_stale = false;
        Ok(())
    }

    /// The disk, to be looked at.
    pub fn disk(&self) -> &D
        ensures { result.now ≡ self.now.disk }
    {
        &self.disk
    }

    /// Where the gate behind the octets stands.
    pub fn gate(&self) -> u64
        ensures { result ≡ self.now.gate }
    {
        self.gate
    }

    /// Hands the disk back as it is.
    pub fn into_disk(self) -> D
        ensures { result ≡ self.disk }
    {
        self.disk
    }
}

impl Gates<MemoryDisk> {
    /// Steers the disk in memory, and changes nothing else.
    pub fn steer(&mut self, orders: Orders)
        ensures { self.new ≡ record self.old { disk = steered self.old.disk orders } }
    {
        self.disk.steer(orders);
    }
}

// Adds an octet to those that a disk at rest holds, whose gate stands at this place.
fn put<D: Disk>(disk: &mut D, gate: u64, octet: u8) -> Result<(), Failed>
    requires at_rest { IsAtRest (D.pending disk.old) gate }
    requires size { gate < D.extent disk.old }
    requires room { gate + 3 < 2 ^ 64 }
    ensures added { OnOk result ((octets : List ℕ) → Keeps (D.pending disk.old) octets → Keeps
        (D.pending disk.new) (octets ++ octet ∷ [])) }
    ensures at_rest { OnOk result (IsAtRest (D.pending disk.new) (gate + 2)) }
    ensures size { OnOk result (gate + 2 < D.extent disk.new) }
    ensures any_moment { (octets : List ℕ) → Keeps (D.pending disk.old) octets
        → HoldsThroughout D.moment D.images_since disk.old disk.new (IsOldOrNew octets octet) }
    ensures calls { RunsCalls D.makes D.fails disk.old (adding gate octet) disk.new result }
    ensures cause { FailsOnlyByFault (D.faults disk.old) (D.faults disk.new) result }
{
    write_octet(disk, gate, octet)?;
    open_gate(disk, gate)
}

// Writes an octet behind the gate at this place, and a closed gate behind it, and syncs both.
fn write_octet<D: Disk>(disk: &mut D, gate: u64, octet: u8) -> Result<(), Failed>
    requires size { gate < D.extent disk.old }
    requires room { gate + 3 < 2 ^ 64 }
    ensures written { OnOk result (D.pending disk.new ≡ option_map
        (written_and_synced (gate + 1) (octet ∷ 0 ∷ [])) (D.pending disk.old)) }
    ensures size { OnOk result (D.extent disk.new ≡ max (D.extent disk.old) (gate + 3)) }
    ensures any_moment { HoldsThroughout D.moment D.images_since disk.old disk.new (IsImageOf
        (option_map (with_range (gate + 1) 2 []) (D.pending disk.old))) }
    ensures calls { RunsCalls D.makes D.fails disk.old
        (Write (gate + 1) (octet ∷ 0 ∷ []) ∷ Sync ∷ []) disk.new result }
    ensures cause { FailsOnlyByFault (D.faults disk.old) (D.faults disk.new) result }
{
    write_synced(disk, gate + 1, &[octet, CLOSED])
}

// Opens the gate at this place, and syncs it.
fn open_gate<D: Disk>(disk: &mut D, gate: u64) -> Result<(), Failed>
    requires { gate ≤ D.extent disk.old }
    ensures written { OnOk result (D.pending disk.new ≡ option_map
        (written_and_synced gate (165 ∷ [])) (D.pending disk.old)) }
    ensures size { OnOk result (D.extent disk.new ≡ max (D.extent disk.old) (gate + 1)) }
    ensures any_moment { HoldsThroughout D.moment D.images_since disk.old disk.new (IsImageOf
        (option_map (with_range gate 1 []) (D.pending disk.old))) }
    ensures calls { RunsCalls D.makes D.fails disk.old (Write gate (165 ∷ []) ∷ Sync ∷ []) disk.new
        result }
    ensures cause { FailsOnlyByFault (D.faults disk.old) (D.faults disk.new) result }
{
    write_synced(disk, gate, &[OPEN])
}

// Reads the octets that the file stands for, and where the gate behind them stands.
fn read_all<D: Disk>(alloc: Global, disk: &mut D) -> Result<(Octets, u64), GateFault>
    ensures stands { IfOk result (λ read. IfSome (D.pending disk.old)
        (λ pending. StandsFor read.0 pending.content)) }
    ensures gate { IfOk result (λ read. (read.1 ≡ 2 * length read.0) ×
        (read.1 < D.extent disk.old)) }
    ensures same { OnOk result (disk.new ≡ disk.old) }
    ensures reads { OnlyReads D.pending D.moment D.images_since disk.old disk.new }
    ensures no_gate { IsErrOf result GateFault.NoGate → IfSome (D.pending disk.old) (λ pending.
        (octets : List ℕ) → ¬ StandsFor octets pending.content) }
    ensures cause { IsErrOf result GateFault.Disk → Rose (D.faults disk.old) (D.faults disk.new) }
{
    disk_model::laws::images_at_a_moment::<D>();
    let mut octets = Octets::new(alloc);
    for count in 0..disk.size() / 2 + 1 {
        let gate = 2 * count;
        match read_behind(disk, gate)? {
            Some(octet) => {
                if octets.append(&[octet]).is_err() {
                    return Err(GateFault::Memory);
                }
            }
            None => return Ok((octets, gate)),
        }
    }
    Err(GateFault::NoGate)
}

// Reads the octet behind the gate at this place where that one is open, or none where it isn't.
fn read_behind<D: Disk>(disk: &mut D, gate: u64) -> Result<Option<u8>, GateFault>
    ensures found { IfOk result (λ found. IfSome (D.pending disk.old) (λ pending. IsBehind
        (drop gate pending.content) found (drop (gate + 2) pending.content))) }
    ensures place { IfOk result (λ _. gate < D.extent disk.old) }
    ensures same { OnOk result (disk.new ≡ disk.old) }
    ensures reads { OnlyReads D.pending D.moment D.images_since disk.old disk.new }
    ensures no_gate { IsErrOf result GateFault.NoGate → IfSome (D.pending disk.old)
        (λ pending. IsCut (drop gate pending.content)) }
    ensures no_memory { IsErrOf result GateFault.Memory → ⊥ }
    ensures cause { IsErrOf result GateFault.Disk → Rose (D.faults disk.old) (D.faults disk.new) }
{
    let Some(value) = read_octet(disk, gate)? else {
        return Err(GateFault::NoGate);
    };
    if value != OPEN {
        return Ok(None);
    }
    match read_octet(disk, gate + 1)? {
        Some(octet) => Ok(Some(octet)),
        None => Err(GateFault::NoGate),
    }
}

// Reads the octet at a place, or none where the file ends before it.
fn read_octet<D: Disk>(disk: &mut D, place: u64) -> Result<Option<u8>, Failed>
    ensures octet { IfOk result (λ octet. IfSome (D.pending disk.old) (λ pending. IsFirst
        (drop place pending.content) octet (drop (place + 1) pending.content))) }
    ensures place { IfOk result (λ octet. IsSome octet ↔ (place < D.extent disk.old)) }
    ensures size { IfOk result (λ octet. IsSome octet → place + 1 < 2 ^ 64) }
    ensures same { OnOk result (disk.new ≡ disk.old) }
    ensures reads { OnlyReads D.pending D.moment D.images_since disk.old disk.new }
    ensures cause { FailsOnlyByFault (D.faults disk.old) (D.faults disk.new) result }
{
    disk_model::laws::images_at_a_moment::<D>();
    if place >= disk.size() {
        return Ok(None);
    }
    let mut octet = [0];
    disk.read_at(place, &mut octet)?;
    Ok(Some(octet[0]))
}
