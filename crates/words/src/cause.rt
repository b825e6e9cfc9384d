// Why a line is outside the grammar.

use thiserror::Error;

/// Why a line is outside the grammar: the first of these, in this order.
#[derive(Clone, Copy, Debug, PartialEq, Eq, Error)]
pub enum Cause {
    /// No line begins with its first word.
    #[error("unknown first word")]
    FirstWord,
    /// It has too few words or too many.
    #[error("wrong number of words")]
    Count,
    /// A word is malformed or out of its range.
    #[error("a word malformed or out of range")]
    Word,
}
