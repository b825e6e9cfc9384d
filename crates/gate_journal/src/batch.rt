// The entries of a batch.
ghost use Rattle.std.specs.Prelude.{◌≡◌, ◌+◌, ◌≤◌, [], ◌∷◌, drop, length, MatchOption};
ghost use Rattle.record_form.specs.Lent.{lent_entry};
ghost use Rattle.gate_journal.specs.Reading.{count_at};
ghost use Rattle.gate_journal.specs.Batches.{entries_in};

use record_form::{EntryRef, read_entry_ref_at};
use std::marker::Model;

/// The entries of a batch that were not taken yet, in order, each lent by the octets of the file.
#[derive(Drop)]
pub struct Batch<'a> {
    octets: &'a [u8],
    count: u16,
}

impl<'a> Model for Batch<'a> {
    ghost use Rattle.std.specs.Prelude.{List};
    ghost use Rattle.archive_terms.specs.Archive.{Entry};
    ghost use Rattle.gate_journal.specs.Batches.{entries_in};

    ghost Value = { List Entry };

    ghost view = { λ batch. entries_in batch.count batch.octets.now };
}

impl<'a> Batch<'a> {
    /// No entries.
    pub(crate) const NONE: Batch<'static> = Batch {
        octets: &[],
        count: 0,
    };

    // The batch behind the open gate at a place of a file.
    pub(crate) fn behind(file: &'a [u8], gate: usize) -> Batch<'a>
        requires { gate + 7 ≤ length file.now }
        ensures { result ≡ entries_in (count_at file.now (gate + 1)) (drop (gate + 7) file.now) }
    {
        Batch {
            octets: &file[gate + 7..],
            count: u16::from_be_bytes(file[gate + 5..gate + 7].try_into().unwrap()),
        }
    }

    /// Takes the first entry, or none where there is none. It goes over what stands before a
    /// frame's octets, and copies nothing.
    #[tactic(auto, unfolding(crate::specs::Batches::entries_in))]
    pub fn next(&mut self) -> Option<EntryRef<'a>>
        ensures { MatchOption result ((self.old ≡ []) × (self.new ≡ []))
            (λ entry. self.old ≡ lent_entry entry ∷ self.new) }
    {
        if self.count == 0 {
            return None;
        }
        match read_entry_ref_at(self.octets, 0) {
            Ok((entry, end)) => {
                self.octets = &self.octets[end..];
                self.count -= 1;
                Some(entry)
            }
            Err(_) => {
                self.count = 0;
                None
            }
        }
    }
}
