// One step of the recorder.
ghost use Rattle.std.specs.Prelude.{◌≡◌, ◌≢◌, ◌⊎◌, ◌+◌, ◌≤◌, [], length, List, None, true, false};
ghost use Rattle.std.specs.Prelude.{IsTrue, IfOk, IfErr, OnOk, OnErr, IsErrOf, IsSome};
ghost use Rattle.std.specs.List.{list_all};
ghost use Rattle.archive_terms.specs.Archive as terms;
ghost use Rattle.octet_core.specs.Fault.{Rose};
ghost use Rattle.record_form.specs.Entry.{entries_of};
ghost use Rattle.frame_archive.specs.State.{wanted};
ghost use Rattle.frame_archive.specs.Acknowledges.{Acknowledges};
ghost use Rattle.frame_archive.specs.Run.{Adds, Keeps};
ghost use Rattle.frame_archive.specs.declared.fault.OfferFault.TheVariants as OfferFault;
ghost use Rattle.recorder.specs.Polling.{IsPolled, BreaksOff, Gave};
ghost use Rattle.recorder.specs.Offers.{IsBatch, offered, after_offers, offered_to, IsCutShort};
ghost use Rattle.recorder.specs.Offers.{how_many, dropped_of, with_dropped, with_refusal};
ghost use Rattle.recorder.specs.Steps.{IsStored, IsMended, TellsOffered};
ghost use Rattle.recorder.specs.Steps.{IsLeft, IsUnmended, IsNoRefusal, WaitsAgain};
ghost use Rattle.recorder.specs.Steps.{HoldsAllOrNone};
ghost use Rattle.recorder.specs.declared.record_fault.RecordFault.TheVariants as RecordFault;

use crate::laws::answers_of_two_runs_join;
use crate::{Feed, FrameSource, RecordFault, Recorded};
use disk_model::Disk;
use frame_archive::{ArchiveFault, FrameArchive, OfferFault};
use gate_journal::LONGEST_BATCH;
use octet_core::Memory;
use record_form::{Entries, Entry};
use std::alloc::Global;

/// Polls the source until 256 entries came or an answer is none, at least once, and stores what
/// came as one batch. A store that fails is followed by a reopen, and what is lost then is offered
/// and stored once more.
///
/// After an error nothing more is acknowledged than before. After `SourceFault` the archive is as
/// it was, and what was polled is dropped. After `Memory` some of what was polled waits, in order,
/// and the rest is dropped and isn't counted. After `DiskFault` and `Refused` what was to be stored
/// waits, and the archive is to be opened again.
pub fn record_step<D: Disk, F: FrameSource>(
    alloc: Global,
    archive: &mut FrameArchive<D>,
    frames: &mut F,
) -> Result<Recorded, RecordFault>
    requires rests { archive.old.waiting ≡ [] }
    requires ready { archive.old.is_stale ≡ false }

    // What was polled, what became of it, and what is acknowledged with it. On a disk that tells,
    // nothing is refused that is offered once more.
    ensures answer { IfOk result (λ recorded. (polled : List terms.Entry)
        × IsPolled recorded.last polled (F.answers frames.old) (F.answers frames.new)
        × (length recorded.entries + recorded.refused + recorded.full ≡ length polled)
        × IsStored D.pending D.makes D.fails recorded.reopened (offered_to archive.old polled)
        archive.new recorded
        × ((entries : List terms.Entry) → Acknowledges D.pending archive.old entries
        → TellsOffered (offered_to archive.old polled) recorded)) }
    ensures acknowledged { IfOk result (λ recorded. Adds D.pending archive.old archive.new
        recorded.entries) }
    ensures rests { OnOk result (archive.new.waiting ≡ []) }
    ensures ready { OnOk result (archive.new.is_stale ≡ false) }
    ensures one_batch { IfOk result (λ recorded. recorded.reopened ≡ None
        → archive.new.used ≡ archive.old.used + wanted recorded.entries) }

    // What the disk holds all the while: what was acknowledged, or that and what was taken of
    // what was polled, whole.
    ensures any_moment { (polled : List terms.Entry)
        × Gave polled (F.answers frames.old) (F.answers frames.new)
        × HoldsAllOrNone D.pending D.moment D.images_since archive.old
        (offered_to archive.old polled).archive.waiting archive.new }

    // Why it failed, and what that leaves.
    ensures still { OnErr result (Keeps D.pending archive.old archive.new) }
    ensures source { IsErrOf result RecordFault.SourceFault → Rose (F.faults frames.old)
        (F.faults frames.new) }
    ensures nothing { IsErrOf result RecordFault.SourceFault → archive.new ≡ archive.old }
    ensures broke_off { IsErrOf result RecordFault.SourceFault → BreaksOff (F.answers frames.old)
        (F.answers frames.new) }
    ensures sound { IsErrOf result RecordFault.SourceFault
        ⊎ (F.faults frames.new ≡ F.faults frames.old) }
    ensures left { IfErr result (λ fault. (polled : List terms.Entry)
        × Gave polled (F.answers frames.old) (F.answers frames.new)
        × IsLeft D.pending D.faults D.makes D.fails D.fails_to_read fault archive.old polled
        archive.new) }
    ensures honest { IfErr result (λ fault. (entries : List terms.Entry)
        → Acknowledges D.pending archive.old entries → IsNoRefusal fault) }
{
    disk_model::laws::images_at_a_moment::<D>();
    let (polled, last) = poll(alloc, frames)?;
    let mut recorded = Recorded {
        entries: Entries::new(alloc),
        refused: 0,
        full: 0,
        refusal: None,
        reopened: None,
        last,
    };
    offer_each(archive, polled.as_slice(), &mut recorded)?;
    match archive.store() {
        Ok(stored) => {
            recorded.entries = stored.entries;
            Ok(recorded)
        }
        Err(ArchiveFault::DiskFault) => mend(archive, recorded),
        Err(ArchiveFault::Memory) => Err(RecordFault::Memory),
        // The archive wasn't to be opened again.
        Err(_) => unreachable!(),
    }
}

// Polls until as many entries came as a batch has at most, or an answer is none, and tells whether
// that was the source's end.
fn poll<F: FrameSource>(alloc: Global, frames: &mut F) -> Result<(Entries, bool), RecordFault>
    ensures polled { IfOk result (λ polled. IsPolled polled.1 polled.0 (F.answers frames.old)
        (F.answers frames.new)) }
    ensures batch { IfOk result (λ polled. IsBatch polled.0) }
    ensures gave { OnErr result ((entries : List terms.Entry) × Gave entries
        (F.answers frames.old) (F.answers frames.new)) }
    ensures failed { IsErrOf result RecordFault.SourceFault → BreaksOff (F.answers frames.old)
        (F.answers frames.new) }
    ensures cause { IsErrOf result RecordFault.SourceFault → Rose (F.faults frames.old)
        (F.faults frames.new) }
    ensures sound { IsErrOf result RecordFault.SourceFault
        ⊎ (F.faults frames.new ≡ F.faults frames.old) }
    ensures faults { IfErr result (λ fault. (fault ≡ RecordFault.SourceFault)
        ⊎ (fault ≡ RecordFault.Memory)) }
{
    answers_of_two_runs_join();
    let mut entries = Entries::new(alloc);
    'polls: while entries.len() < LONGEST_BATCH as usize {
        match frames.next() {
            Feed::Entry(entry) => entries.push(entry)?,
            Feed::NotYet => return Ok((entries, false)),
            Feed::End => return Ok((entries, true)),
            Feed::Failed => return Err(RecordFault::SourceFault),
            Feed::Memory => return Err(RecordFault::Memory),
        }
    }
    Ok((entries, false))
}

// Offers entries, one after the other, and counts what is dropped. The archive shares their octets.
fn offer_each<D: Disk>(
    archive: &mut FrameArchive<D>,
    entries: &[Entry],
    recorded: &mut Recorded,
) -> Result<(), Memory>
    requires rests { archive.old.waiting ≡ [] }
    requires batch { IsBatch (entries_of entries.now) }
    requires few { how_many (dropped_of recorded.old) ≤ 256 }
    ensures offered { OnOk result (offered archive.new (dropped_of recorded.new)
        ≡ after_offers (offered archive.old (dropped_of recorded.old)) (entries_of entries.now)) }
    ensures cut_short { OnErr result (IsCutShort (offered archive.old (dropped_of recorded.old))
        (entries_of entries.now) archive.new) }
    ensures counted { OnOk result (length archive.new.waiting + how_many (dropped_of recorded.new)
        ≡ length entries.now + how_many (dropped_of recorded.old)) }
    ensures told { recorded.new ≡ with_dropped recorded.old (dropped_of recorded.new) }
    ensures rest { archive.new ≡ record archive.old {
      times = archive.new.times;
      waiting = archive.new.waiting;
    } }
    ensures valid { IsTrue (list_all terms.is_valid archive.new.waiting) }
    ensures acknowledged { Keeps D.pending archive.old archive.new }
{
    for entry in entries {
        let shared = entry.clone()?;
        match archive.offer(shared) {
            Ok(()) => continue,
            Err((fault, _)) => drop_one(recorded, fault)?,
        }
    }
    Ok(())
}

// Counts an entry that was dropped for this cause, or answers that memory was refused.
fn drop_one(recorded: &mut Recorded, fault: OfferFault) -> Result<(), Memory>
    requires few { how_many (dropped_of recorded.old) ≤ 512 }
    requires room { fault ≢ OfferFault.Waiting }
    ensures added { OnOk result (recorded.new
        ≡ with_dropped recorded.old (with_refusal (dropped_of recorded.old) fault)) }
    ensures counted { OnOk result (how_many (dropped_of recorded.new)
        ≡ how_many (dropped_of recorded.old) + 1) }
    ensures cause { OnOk result (fault ≢ OfferFault.Memory) }
    ensures memory { OnErr result (fault ≡ OfferFault.Memory) }
    ensures same { OnErr result (recorded.new ≡ recorded.old) }
{
    match fault {
        OfferFault::Backward | OfferFault::TooLong => recorded.refused += 1,
        OfferFault::Full { .. } => recorded.full += 1,
        OfferFault::Memory => return Err(Memory),
        OfferFault::Waiting => unreachable!(),
    }
    recorded.refusal = Some(fault);
    Ok(())
}

// Opens the archive again behind a store that failed, and stores what is lost once more.
fn mend<D: Disk>(
    archive: &mut FrameArchive<D>,
    mut recorded: Recorded,
) -> Result<Recorded, RecordFault>
    requires batch { IsBatch archive.old.waiting }
    requires failed { archive.old.failed ≡ length archive.old.waiting }
    requires stale { archive.old.is_stale ≡ true }
    requires few { how_many (dropped_of recorded) ≤ 256 }
    ensures mended { IfOk result (λ mended. IsMended D.pending D.makes (dropped_of recorded)
        archive.old archive.new mended) }
    ensures reopened { IfOk result (λ mended. IsSome mended.reopened) }
    ensures counted { IfOk result (λ mended. length mended.entries + mended.refused + mended.full
        ≡ length archive.old.waiting + how_many (dropped_of recorded)) }
    ensures last { IfOk result (λ mended. mended.last ≡ recorded.last) }
    ensures acknowledged { IfOk result (λ mended. Adds D.pending archive.old archive.new
        mended.entries) }
    ensures rests { OnOk result (archive.new.waiting ≡ []) }
    ensures ready { OnOk result (archive.new.is_stale ≡ false) }
    ensures still { OnErr result (Keeps D.pending archive.old archive.new) }
    ensures source { ¬ (IsErrOf result RecordFault.SourceFault) }
    ensures left { IfErr result (λ fault. IsUnmended D.pending D.faults D.makes D.fails
        D.fails_to_read fault (dropped_of recorded) archive.old archive.new) }
    ensures any_moment { WaitsAgain D.pending D.makes (dropped_of recorded) archive.old
        → HoldsAllOrNone D.pending D.moment D.images_since archive.old archive.old.waiting
        archive.new }
    ensures honest { IfErr result (λ fault. (entries : List terms.Entry)
        → Acknowledges D.pending archive.old entries → IsNoRefusal fault) }
{
    let landing = match archive.reopen() {
        Ok(landing) => landing,
        Err(ArchiveFault::DiskFault) => return Err(RecordFault::DiskFault),
        Err(ArchiveFault::Memory) => return Err(RecordFault::Memory),
        Err(fault) => return Err(RecordFault::Refused(fault)),
    };
    recorded.reopened = Some(archive.count());
    if landing.lost.len() == 0 {
        recorded.entries = landing.landed;
        return Ok(recorded);
    }
    offer_each(archive, landing.lost.as_slice(), &mut recorded)?;
    match archive.store() {
        Ok(stored) => {
            recorded.entries = stored.entries;
            Ok(recorded)
        }
        Err(ArchiveFault::DiskFault) => Err(RecordFault::DiskFault),
        Err(ArchiveFault::Memory) => Err(RecordFault::Memory),
        // The archive was just opened.
        Err(_) => unreachable!(),
    }
}
