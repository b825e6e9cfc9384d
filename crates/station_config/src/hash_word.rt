// The words of hash functions.

use std::alloc::{AllocError, Global};
use words::{Unread, Word};

const SHA1: &[u8] = b"sha1";

const SHA256: &[u8] = b"sha256";

/// The hash function of credentials: `sha1`, or `sha256`, which is true.
pub(crate) struct HashWord;

impl Word for HashWord {
    ghost use Rattle.std.specs.Prelude.{Bool};
    ghost use Rattle.station_config.specs.Kinds.{hash};

    type Value = bool;

    ghost Seen = { Bool };

    ghost kind = { hash };

    ghost seen = { λ value. value };

    fn read(_: Global, word: &[u8]) -> Result<bool, Unread> {
        if word == SHA1 {
            Ok(false)
        } else if word == SHA256 {
            Ok(true)
        } else {
            Err(Unread::Bad)
        }
    }

    fn write(value: &bool, into: &mut Vec<u8>) -> Result<(), AllocError> {
        into.extend_from_slice(if *value { SHA256 } else { SHA1 })
    }
}
