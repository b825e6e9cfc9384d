// Entries from their octets.
ghost use Rattle.std.specs.Prelude.{◌≡◌, ◌≤◌, IfOk, length};
ghost use Rattle.record_form.specs.Entry.{entry_of};
ghost use Rattle.record_form.specs.Lent.{lent_entry};
ghost use Rattle.record_form.specs.Reading.{Reads, Gives, GivesAll, StandsFrom, fields_at};
ghost use Rattle.record_form.specs.Reading.{frame_at, loss_at, production_at, seal_at, entry_at};
ghost use Rattle.record_form.specs.Reading.{entry_from, ert_at, ert_from};

use crate::fields::Fields;
use crate::kind::{FRAME, LOSS_OF_SYNC, PRODUCTION, SEAL};
use crate::{Entry, EntryFault, EntryRef, laws};
use archive_terms::GREATEST_LOST;
use cds_time::Cds;
use std::alloc::Global;

/// Reads the entry at the front of these octets, and answers how many of them it has. It goes over
/// them once, and copies an antenna's and a frame's octets once.
pub fn read_entry(alloc: Global, octets: &[u8]) -> Result<(Entry, usize), EntryFault>
    ensures exact { Gives (λ read. (entry_of read.0, read.1)) result (entry_from 0 octets.now) }
    ensures stands { IfOk result (λ read. StandsFrom 0 octets.now (entry_of read.0) read.1) }
    ensures within { IfOk result (λ read. read.1 ≤ length octets.now) }
{
    read_entry_at(alloc, octets, 0)
}

/// Reads the entry that begins at a place of these octets, and answers the place behind it. Of a
/// fault too the place counts from the first of these octets.
pub fn read_entry_at(
    alloc: Global,
    octets: &[u8],
    place: usize,
) -> Result<(Entry, usize), EntryFault>
    requires { place ≤ length octets.now }
    ensures exact { Gives (λ read. (entry_of read.0, read.1)) result (entry_from place octets.now) }
    ensures stands { IfOk result (λ read. StandsFrom place octets.now (entry_of read.0) read.1) }
    ensures within { IfOk result (λ read. read.1 ≤ length octets.now) }
{
    let (entry, end) = read_entry_ref_at(octets, place)?;
    Ok((entry.to_entry(alloc)?, end))
}

/// The same of an entry whose octets are lent by these. It takes no memory, and doesn't go over a
/// frame's octets.
pub fn read_entry_ref_at(octets: &[u8], place: usize) -> Result<(EntryRef<'_>, usize), EntryFault>
    requires { place ≤ length octets.now }
    ensures exact { GivesAll (λ read. (lent_entry read.0, read.1)) result
        (entry_from place octets.now) }
    ensures stands { IfOk result (λ read. StandsFrom place octets.now (lent_entry read.0) read.1) }
    ensures within { IfOk result (λ read. read.1 ≤ length octets.now) }
{
    laws::slice(octets);
    laws::read_where_spelled();
    entry_from(octets, place)
}

/// The earth receive time of the frame that begins at a place of these octets, whatever its later
/// fields are, or none where no frame begins there, or its time is cut or names no moment.
#[tactic(auto, unfolding(crate::specs::Reading::ert_from))]
pub fn read_ert_at(octets: &[u8], place: usize) -> Option<Cds>
    requires { place ≤ length octets.now }
    ensures { result ≡ ert_from place octets.now }
{
    ert(&mut Fields::new(octets, place)).ok()
}

#[tactic(auto, unfolding(crate::specs::Reading::ert_at))]
fn ert(fields: &mut Fields) -> Result<Cds, EntryFault>
    ensures { Reads (λ time. time) fields.new result (ert_at fields.old) }
{
    match fields.octets(1)?[0] {
        FRAME => fields.time(),
        found => Err(EntryFault::BadKind { found }),
    }
}

#[tactic(auto, unfolding(crate::specs::Reading::entry_from))]
fn entry_from(octets: &[u8], place: usize) -> Result<(EntryRef<'_>, usize), EntryFault>
    requires { place ≤ length octets.now }
    ensures { GivesAll (λ read. (lent_entry read.0, read.1)) result
        (entry_from place octets.now) }
{
    let mut fields = Fields::new(octets, place);
    let entry = entry(&mut fields)?;
    Ok((entry, fields.place()))
}

#[tactic(auto, unfolding(crate::specs::Reading::entry_at))]
fn entry<'a>(fields: &mut Fields<'a>) -> Result<EntryRef<'a>, EntryFault>
    ensures { Reads lent_entry fields.new result (entry_at fields.old) }
{
    let kind = fields.octets(1)?[0];
    entry_of_kind(kind, fields)
}

#[tactic(auto, unfolding(crate::specs::Reading::fields_at))]
fn entry_of_kind<'a>(kind: u8, fields: &mut Fields<'a>) -> Result<EntryRef<'a>, EntryFault>
    ensures { Reads lent_entry fields.new result (fields_at kind fields.old) }
{
    match kind {
        FRAME => frame(fields),
        LOSS_OF_SYNC => loss_of_sync(fields),
        PRODUCTION => production(fields),
        SEAL => seal(fields),
        found => Err(EntryFault::BadKind { found }),
    }
}

#[tactic(auto, unfolding(crate::specs::Reading::frame_at))]
fn frame<'a>(fields: &mut Fields<'a>) -> Result<EntryRef<'a>, EntryFault>
    ensures { Reads lent_entry fields.new result (frame_at fields.old) }
{
    Ok(EntryRef::Frame {
        ert: fields.time()?,
        quality: fields.quality()?,
        antenna: fields.antenna()?,
        lost: fields.number(0, GREATEST_LOST)?,
        octets: fields.content()?,
    })
}

#[tactic(auto, unfolding(crate::specs::Reading::loss_at))]
fn loss_of_sync<'a>(fields: &mut Fields<'a>) -> Result<EntryRef<'a>, EntryFault>
    ensures { Reads lent_entry fields.new result (loss_at fields.old) }
{
    Ok(EntryRef::LossOfSync {
        at: fields.time()?,
        carrier: fields.lock_status()?,
        subcarrier: fields.lock_status()?,
        symbol: fields.lock_status()?,
    })
}

#[tactic(auto, unfolding(crate::specs::Reading::production_at))]
fn production<'a>(fields: &mut Fields<'a>) -> Result<EntryRef<'a>, EntryFault>
    ensures { Reads lent_entry fields.new result (production_at fields.old) }
{
    Ok(EntryRef::Production {
        status: fields.production_status()?,
    })
}

#[tactic(auto, unfolding(crate::specs::Reading::seal_at))]
fn seal<'a>(fields: &mut Fields<'a>) -> Result<EntryRef<'a>, EntryFault>
    ensures { Reads lent_entry fields.new result (seal_at fields.old) }
{
    Ok(EntryRef::Seal { at: fields.time()? })
}
