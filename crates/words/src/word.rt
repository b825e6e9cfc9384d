// Kinds of words.
ghost use Rattle.std.specs.Prelude.{◌≡◌, ◌++◌, OnOk, OnErr};
ghost use Rattle.words.specs.Front.{AppendsFront};
ghost use Rattle.words.specs.Kind.{Kind};
ghost use Rattle.words.specs.Reading.{Gives};

use crate::unread::Unread;
use std::alloc::{AllocError, Global};

/// A kind of word.
pub trait Word {
    type Value: Drop;

    ghost Seen: { Type 0 };

    ghost kind: { Kind Seen };

    ghost seen: { Self.Value → Seen };

    /// The value of a word.
    fn read(alloc: Global, word: &[u8]) -> Result<Self::Value, Unread>
        ensures exact { Gives seen result (kind.read word.now) };

    /// Appends the canonical spelling. Where memory is refused, a front of it may stand there.
    fn write(value: &Self::Value, into: &mut Vec<u8>) -> Result<(), AllocError>
        requires { kind.Fits (seen value.now) }
        ensures ok { OnOk result (into.new.items ≡ into.old.items ++ kind.write (seen value.now)) }
        ensures err { OnErr result (AppendsFront into.old.items into.new.items
            (kind.write (seen value.now))) };
}
