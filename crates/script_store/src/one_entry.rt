// A source of one entry.
ghost use Rattle.std.specs.Prelude.{◌≡◌, false, IsTrue};
ghost use Rattle.archive_terms.specs.Archive.{is_valid};
ghost use Rattle.record_form.specs.Entry.{entry_of};
ghost use Rattle.script_store.specs.OneEntry.{answers_of};

use octet_core::Faults;
use record_form::Entry;
use recorder::{Feed, FrameSource};
use std::marker::{Brand, Model, PhantomData};

/// The entry of a source. Each call picks it.
pub trait Given: Send + Drop {
    ghost use Rattle.archive_terms.specs.Archive as terms;

    ghost entry: { terms.Entry };
}

impl Given for Brand {
    ghost use Rattle.archive_terms.specs.Archive.{production};

    ghost entry = { production 0 };
}

/// Gives one entry, then tells that none comes any more, and fails where it is asked on.
#[derive(Drop)]
pub struct OneEntry<K: Given> {
    entry: Option<Entry>,
    is_ended: bool,
    faults: Faults,
    of: PhantomData<K>,
}

impl<K: Given> Model for OneEntry<K> {
    ghost use Rattle.std.specs.Prelude.{is_none};
    ghost use Rattle.script_store.specs.OneEntry.{SourceState, IsToGive};

    ghost Value = { SourceState };

    ghost view = { λ source. record {
      is_given = is_none source.entry;
      is_ended = source.is_ended;
      faults = source.faults;
    } };

    ghost invariant = { λ source. IsToGive K.entry source.entry source.is_ended };
}

impl<K: Given> OneEntry<K> {
    /// None is given yet.
    pub fn new(entry: Entry) -> OneEntry<K>
        requires valid { IsTrue (is_valid (entry_of entry)) }
        requires given { entry_of entry ≡ K.entry }
        ensures { result ≡ record { is_given = false; is_ended = false; faults = 0 } }
    {
        OneEntry {
            entry: Some(entry),
            is_ended: false,
            faults: Faults::new(),
            of: PhantomData,
        }
    }
}

impl<K: Given> FrameSource for OneEntry<K> {
    ghost answers = { λ source. answers_of K.entry source };

    ghost faults = { λ source. source.faults };

    fn next(&mut self) -> Feed {
        match self.entry.take() {
            Some(entry) => Feed::Entry(entry),
            None if !self.is_ended => {
                self.is_ended = true;
                Feed::End
            }
            None => {
                let _ = self.faults.fail::<()>();
                Feed::Failed
            }
        }
    }
}
