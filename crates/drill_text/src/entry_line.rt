// Entries as lines of a script.
ghost use Rattle.std.specs.Prelude.{◌≡◌, ◌++◌, IsTrue, Some, OnOk, OnErr};
ghost use Rattle.archive_terms.specs.Archive.{is_storable};
ghost use Rattle.record_form.specs.Entry.{entry_of};
ghost use Rattle.drill_text.specs.Reading.{canonical, entry_text, reading, HasOctets};
ghost use Rattle.drill_text.specs.declared.script_line.ScriptLine.TheVariants.{Offer};

use crate::rows::{Frame, Loss, Mark, Production};
use crate::script_form::ScriptForm;
use octet_core::{Memory, Octets};
use record_form::{Entry, laws};
use std::alloc::{AllocError, Global};
use words::{OneOf, write_line};

/// Appends the line of a script that offers an entry, and its end, the octet 0A. Its HEX is in
/// lower case, and a time keeps its form.
pub fn write_entry_line(alloc: Global, entry: &Entry, into: &mut Octets) -> Result<(), Memory>
    requires { IsTrue (is_storable (entry_of entry.now)) }
    ensures ok { OnOk result (into.new ≡ into.old ++ entry_text entry.now) }
    ensures err { OnErr result (into.new ≡ into.old) }
    ensures back { reading (canonical (Offer entry.now)) ≡ Some (Offer entry.now) }
{
    has_octets(entry);
    is_read_back(entry);
    let mut text = Vec::new(alloc);
    append_entry(entry, &mut text)?;
    text.push(b'\n')?;
    into.append(text.as_slice())
}

// Appends the canonical line, without its end.
#[tactic(auto, using(crate::proofs::Entries::storable_fits))]
fn append_entry(entry: &Entry, into: &mut Vec<u8>) -> Result<(), AllocError>
    requires storable { IsTrue (is_storable (entry_of entry.now)) }
    requires octets { HasOctets entry.now }
    ensures { OnOk result (into.new.items ≡ into.old.items ++ canonical (Offer entry.now)) }
{
    match entry {
        Entry::Frame {
            ert,
            quality,
            antenna,
            lost,
            octets,
        } => {
            let words = (ert, (quality, (antenna, (lost, octets))));
            write_line::<OneOf<ScriptForm>, Frame>(&ScriptForm::Frame, words, into)
        }
        Entry::LossOfSync {
            at,
            carrier,
            subcarrier,
            symbol,
        } => {
            let words = (at, (carrier, (subcarrier, symbol)));
            write_line::<OneOf<ScriptForm>, Loss>(&ScriptForm::Loss, words, into)
        }
        Entry::Production { status } => {
            write_line::<OneOf<ScriptForm>, Production>(&ScriptForm::Production, status, into)
        }
        Entry::Seal { at } => { write_line::<OneOf<ScriptForm>, Mark>(&ScriptForm::Mark, at, into) }
    }
}

// An entry's octets are octets.
fn has_octets(entry: &Entry)
    ensures { HasOctets entry.now }
{
    if let Entry::Frame {
        antenna,
        octets,
        ..
    } = entry
    {
        laws::slice(antenna.as_slice());
        laws::slice(octets.as_slice());
    }
}

// The line of an entry says that entry.
#[tactic(auto, using(crate::proofs::Entries::storable_back))]
fn is_read_back(entry: &Entry)
    requires storable { IsTrue (is_storable (entry_of entry.now)) }
    requires octets { HasOctets entry.now }
    ensures { reading (canonical (Offer entry.now)) ≡ Some (Offer entry.now) }
{}
