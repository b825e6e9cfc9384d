// The words of passwords.
ghost use Rattle.std.specs.Prelude.{◌≡◌};

use isp1_auth::Hash;
use std::alloc::{AllocError, Global};
use user_task::Signing;
use words::{Hex, Last, Then, Unread, Word, Words, WriteWords};

const NONE: &[u8] = b"none";

const SHA1: &[u8] = b"sha1";

const SHA256: &[u8] = b"sha256";

// The hash function of credentials.
struct HashWord;

impl Word for HashWord {
    ghost use Rattle.isp1_auth.specs.declared.hash.Hash.{Hash};
    ghost use Rattle.user_words.specs.Kinds.{hash};

    type Value = Hash;

    ghost Seen = { Hash };

    ghost kind = { hash };

    ghost seen = { λ value. value };

    fn read(_: Global, word: &[u8]) -> Result<Hash, Unread> {
        if word == SHA1 {
            Ok(Hash::Sha1)
        } else if word == SHA256 {
            Ok(Hash::Sha256)
        } else {
            Err(Unread::Bad)
        }
    }

    fn write(value: &Hash, into: &mut Vec<u8>) -> Result<(), AllocError> {
        into.extend_from_slice(match value {
            Hash::Sha1 => SHA1,
            Hash::Sha256 => SHA256,
        })
    }
}

type Signed = Then<HashWord, Last<Hex<6, 16>>>;

/// Whether credentials are used: `none`, or a hash function and a password of 6 to 16 octets, as
/// `sha1:HEX` or `sha256:HEX`.
pub(crate) struct PassWord;

impl Word for PassWord {
    ghost use Rattle.user_task.specs.declared.task.Signing.{Signing};
    ghost use Rattle.user_words.specs.Kinds.{pass};

    type Value = Signing;

    ghost Seen = { Signing };

    ghost kind = { pass };

    ghost seen = { λ value. value };

    fn read(alloc: Global, word: &[u8]) -> Result<Signing, Unread> {
        if word == NONE {
            return Ok(Signing::Unused);
        }
        let (hash, octets) = Signed::read(alloc, b':', Some(word))?;
        Ok(Signing::Used { hash, octets })
    }

    fn write(value: &Signing, into: &mut Vec<u8>) -> Result<(), AllocError> {
        match value {
            Signing::Unused => into.extend_from_slice(NONE),
            Signing::Used { hash, octets } => {
                HashWord::write(hash, into)?;
                Last::<Hex<6, 16>>::put(b':', octets, into)
            }
        }
    }
}
