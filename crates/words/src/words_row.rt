// Rows of words.
ghost use Rattle.std.specs.Prelude.{◌≡◌, ◌++◌, OnOk, OnErr, nat_le, ◌&&◌};
ghost use Rattle.words.specs.Front.{AppendsFront};
ghost use Rattle.words.specs.Row.{Row};
ghost use Rattle.words.specs.Parts.{behind};
ghost use Rattle.words.specs.Reading.{Gives, parts_behind};

use crate::unread::Unread;
use std::alloc::{AllocError, Global};

/// A row of words, each behind a separator.
pub trait Words {
    type Value: Drop;

    ghost Seen: { Type 0 };

    ghost kinds: { Row Seen };

    ghost seen: { Self.Value → Seen };

    /// The value of the words behind a separator, if there was one.
    fn read(alloc: Global, separator: u8, words: Option<&[u8]>) -> Result<Self::Value, Unread>
        ensures exact { Gives seen result (kinds.read (parts_behind separator words.entry)) };

    /// Whether a row may have so many words.
    fn takes(count: usize) -> bool
        ensures { result ≡ (nat_le kinds.least count && nat_le count kinds.most) };
}

/// A row whose values are written from where they lie.
pub trait WriteWords<'a> {
    type Lent: Drop;

    ghost Seen: { Type 0 };

    ghost kinds: { Row Seen };

    ghost lent: { Self.Lent → Seen };

    /// Appends the canonical spelling, each word behind its separator. Where memory is refused, a
    /// front of it may stand there.
    fn put(separator: u8, value: Self::Lent, into: &mut Vec<u8>) -> Result<(), AllocError>
        requires { kinds.Fits (lent value) }
        ensures ok { OnOk result (into.new.items
            ≡ into.old.items ++ behind separator (kinds.write (lent value))) }
        ensures err { OnErr result (AppendsFront into.old.items into.new.items
            (behind separator (kinds.write (lent value)))) };
}
