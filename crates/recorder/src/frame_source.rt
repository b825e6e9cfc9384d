// Where the entries of an archive come from, and what it answers.
ghost use Rattle.std.specs.Prelude.{[], ◌∷◌, ℕ, List, Option};
ghost use Rattle.octet_core.specs.Told.{Tells, CountsWhere};
ghost use Rattle.recorder.specs.Feeds.{Answer, answer_of, IsValidFeed, is_failed};

use record_form::Entry;

/// An answer of a source of entries. A clone of an entry shares its octets.
#[derive(Clone, Debug, Drop)]
pub enum Feed {
    /// The next entry, which is valid. A frame may be longer than an archive takes.
    Entry(Entry),
    /// None has come yet.
    NotYet,
    /// None comes any more.
    End,
    /// The source failed, and the count of its faults rose.
    Failed,
    /// Memory was wanted and refused.
    Memory,
}

/// Where received frames and the other entries of an archive come from. A source can move to a
/// worker's thread.
pub trait FrameSource: Send + Drop {
    /// The answers so far, the oldest first, or none where the source doesn't tell.
    ghost answers: { Self → Option (List Answer) };

    /// How often the source has failed. The count never falls, and stands still at the last `u64`.
    ghost faults: { Self → ℕ };

    /// The next entry, if one has come. It waits for none.
    fn next(&mut self) -> Feed
        ensures told { Tells (answers self.old) (answers self.new) (answer_of result ∷ []) }
        ensures valid { IsValidFeed result }
        ensures faults { CountsWhere (is_failed result) (faults self.old) (faults self.new) };
}
