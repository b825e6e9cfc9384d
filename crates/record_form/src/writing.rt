// The octets of entries.
ghost use Rattle.std.specs.Prelude.{◌≡◌, ◌≤◌, ◌++◌, ◌∷◌, [], IsTrue, OnOk, OnErr, length, take};
ghost use Rattle.std.specs.Int.{w32, to_be_bytes};
ghost use Rattle.archive_terms.specs.Archive.{is_storable};
ghost use Rattle.archive_terms.specs.declared.limits.TheConstants as limits;
ghost use Rattle.record_form.specs.Entry.{entry_of};
ghost use Rattle.record_form.specs.Spelling.{entry_octets, time_octets, antenna_octets};
ghost use Rattle.record_form.specs.Spelling.{content_octets};
ghost use Rattle.record_form.specs.declared.kind.TheConstants.{LONGEST_ANTENNA};
ghost use Rattle.record_form.specs.declared.writing.TheConstants.{LONGEST_ENTRY};

use crate::Entry;
use crate::kind::{FRAME, LOSS_OF_SYNC, MICROS, PICOS, PRODUCTION, SEAL};
use archive_terms::LONGEST_FRAME;
use cds_time::{Cds, Rest};
use octet_core::{Memory, Octets};
use sle_numbers::Numbered;

/// The most octets that an entry has in a file: a frame's, with the longest antenna's identifier
/// and picoseconds in its time.
pub const LONGEST_ENTRY: u64 = LONGEST_FRAME as u64 + 38;

/// How many octets an entry has in a file.
pub fn entry_length(entry: &Entry) -> u64
    requires { IsTrue (is_storable (entry_of entry.now)) }
    ensures exact { result ≡ length (entry_octets (entry_of entry.now)) }
    ensures bound { result ≤ LONGEST_ENTRY }
{
    match entry {
        Entry::Frame {
            ert,
            antenna,
            octets,
            ..
        } => 11 + time_length(ert) + antenna.len() as u64 + octets.len() as u64,
        Entry::LossOfSync { at, .. } => 4 + time_length(at),
        Entry::Production { .. } => 2,
        Entry::Seal { at } => 1 + time_length(at),
    }
}

fn time_length(time: &Cds) -> u64
    ensures exact { result ≡ length (time_octets time.now) }
    ensures greatest { result ≤ 11 }
{
    match time.rest {
        Rest::Micros(_) => 9,
        Rest::Picos(_) => 11,
    }
}

/// Puts an entry's octets behind those that are there. After want of memory a part of them may
/// stand there.
pub fn write_entry(entry: &Entry, into: &mut Octets) -> Result<(), Memory>
    requires { IsTrue (is_storable (entry_of entry.now)) }
    ensures ok { OnOk result (into.new ≡ into.old ++ entry_octets (entry_of entry.now)) }
    ensures err { OnErr result (take (length into.old) into.new ≡ into.old) }
{
    match entry {
        Entry::Frame {
            ert,
            quality,
            antenna,
            lost,
            octets,
        } => {
            into.append(&[FRAME])?;
            write_time(ert, into)?;
            into.append(&[quality.number()])?;
            write_antenna(antenna, into)?;
            into.append(&lost.to_be_bytes())?;
            write_content(octets, into)?;
        }
        Entry::LossOfSync {
            at,
            carrier,
            subcarrier,
            symbol,
        } => {
            into.append(&[LOSS_OF_SYNC])?;
            write_time(at, into)?;
            into.append(&[carrier.number(), subcarrier.number(), symbol.number()])?;
        }
        Entry::Production { status } => into.append(&[PRODUCTION, status.number()])?,
        Entry::Seal { at } => {
            into.append(&[SEAL])?;
            write_time(at, into)?;
        }
    }
    Ok(())
}

fn write_time(time: &Cds, into: &mut Octets) -> Result<(), Memory>
    ensures ok { OnOk result (into.new ≡ into.old ++ time_octets time.now) }
    ensures err { OnErr result (take (length into.old) into.new ≡ into.old) }
{
    let form = match time.rest {
        Rest::Micros(_) => MICROS,
        Rest::Picos(_) => PICOS,
    };
    into.append(&[form])?;
    let mut octets = [0; 10];
    let size = time.put(&mut octets);
    into.append(&octets[..size])?;
    Ok(())
}

fn write_antenna(antenna: &Octets, into: &mut Octets) -> Result<(), Memory>
    requires { length antenna.now ≤ LONGEST_ANTENNA }
    ensures ok { OnOk result (into.new ≡ into.old ++ antenna_octets antenna.now) }
    ensures err { OnErr result (take (length into.old) into.new ≡ into.old) }
{
    into.append(&[antenna.len() as u8])?;
    into.append(antenna.as_slice())?;
    Ok(())
}

fn write_content(octets: &Octets, into: &mut Octets) -> Result<(), Memory>
    requires { length octets.now ≤ limits.LONGEST_FRAME }
    ensures ok { OnOk result (into.new ≡ into.old ++ content_octets octets.now) }
    ensures err { OnErr result (take (length into.old) into.new ≡ into.old) }
{
    into.append(&(octets.len() as u32).to_be_bytes())?;
    into.append(octets.as_slice())?;
    Ok(())
}
