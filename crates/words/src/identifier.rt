// Words that are service instance identifiers.
ghost use Rattle.std.specs.Prelude.{◌≡◌, false, IsErrOf};
ghost use Rattle.std.specs.List.{list_all};
ghost use Rattle.sle_common.specs.Identifier.{is_value, is_value_octet};
ghost use Rattle.words.specs.Identifiers.{value};
ghost use Rattle.words.specs.Reading.{Gives};

use crate::last::Last;
use crate::listed::{Listed, OneOf};
use crate::many::{Many, put_each};
use crate::then::Then;
use crate::unread::Unread;
use crate::word::Word;
use crate::words_row::{Words, WriteWords};
use octet_core::Octets;
use sle_common::{Attribute, InstanceId, InstancePart, LONGEST_VALUE};
use std::alloc::{AllocError, Global};

impl Listed for Attribute {
    ghost use Rattle.sle_common.specs.Attribute.{name_of, attributes};
    ghost use Rattle.words.specs.Identifiers.{attributes_are_listed};

    ghost spelt = { name_of };

    ghost all = { attributes };

    ghost each = { attributes_are_listed };

    fn from_word(word: &[u8]) -> Option<Attribute> {
        if word == SAGR {
            Some(Attribute::Sagr)
        } else if word == SPACK {
            Some(Attribute::Spack)
        } else if word == RSL_FG {
            Some(Attribute::RslFg)
        } else if word == FSL_FG {
            Some(Attribute::FslFg)
        } else if word == RAF {
            Some(Attribute::Raf)
        } else if word == RCF {
            Some(Attribute::Rcf)
        } else if word == ROCF {
            Some(Attribute::Rocf)
        } else if word == CLTU {
            Some(Attribute::Cltu)
        } else {
            None
        }
    }

    fn word(self) -> &'static [u8] {
        self.name().as_bytes()
    }
}

const SAGR: &[u8] = b"sagr";

const SPACK: &[u8] = b"spack";

const RSL_FG: &[u8] = b"rsl-fg";

const FSL_FG: &[u8] = b"fsl-fg";

const RAF: &[u8] = b"raf";

const RCF: &[u8] = b"rcf";

const ROCF: &[u8] = b"rocf";

const CLTU: &[u8] = b"cltu";

const MOST_PARTS: u32 = sle_common::MOST_PARTS as u32;

/// The value of an attribute: 1 to 256 characters from 21 to 7E but `.` and `=`.
pub struct ValueWord;

impl Word for ValueWord {
    ghost use Rattle.std.specs.Prelude.{List, ℕ};
    ghost use Rattle.words.specs.Identifiers.{value};

    type Value = Octets;

    ghost Seen = { List ℕ };

    ghost kind = { value };

    ghost seen = { λ octets. octets };

    /// The octets of a word. One that is no value is refused as such, and not for want of memory:
    /// nothing is copied for it.
    fn read(alloc: Global, word: &[u8]) -> Result<Octets, Unread>
        ensures exact { Gives (λ octets. octets) result (value.read word.now) }
        ensures bad { is_value word.now ≡ false → IsErrOf result Unread.Bad }
    {
        if is_value(word) {
            Ok(Octets::copy_of(alloc, word)?)
        } else {
            Err(Unread::Bad)
        }
    }

    fn write(value: &Octets, into: &mut Vec<u8>) -> Result<(), AllocError> {
        into.extend_from_slice(value.as_slice())
    }
}

fn is_value(word: &[u8]) -> bool
    ensures { result ≡ is_value word.now }
{
    !word.is_empty() && word.len() <= LONGEST_VALUE && all_of_value(word)
}

fn all_of_value(word: &[u8]) -> bool
    ensures { result ≡ list_all is_value_octet word.now }
{
    word.iter().all(|octet| *octet >= 0x21
        && *octet <= 0x7e
        && !(*octet == b'.')
        && !(*octet == b'='))
}

type Pair = Then<OneOf<Attribute>, Last<ValueWord>>;

/// An attribute of an identifier and its value, as `attribute=value`.
pub struct PartWord;

impl Word for PartWord {
    ghost use Rattle.sle_common.specs.declared.instance_id.InstancePart.{InstancePart};
    ghost use Rattle.words.specs.Identifiers.{part};

    type Value = InstancePart;

    ghost Seen = { InstancePart };

    ghost kind = { part };

    ghost seen = { λ value. value };

    fn read(alloc: Global, word: &[u8]) -> Result<InstancePart, Unread> {
        let (attribute, value) = Pair::read(alloc, b'=', Some(word))?;
        Ok(InstancePart { attribute, value })
    }

    fn write(value: &InstancePart, into: &mut Vec<u8>) -> Result<(), AllocError> {
        OneOf::<Attribute>::write(&value.attribute, into)?;
        Last::<ValueWord>::put(b'=', &value.value, into)
    }
}

/// A service instance identifier: 1 to 8 attributes with their values, joined by dots.
pub struct Identifier;

impl Word for Identifier {
    ghost use Rattle.std.specs.Prelude.{List};
    ghost use Rattle.sle_common.specs.declared.instance_id.InstancePart.{InstancePart};
    ghost use Rattle.words.specs.Identifiers.{identifier};

    type Value = InstanceId;

    ghost Seen = { List InstancePart };

    ghost kind = { identifier };

    ghost seen = { λ id. id };

    fn read(alloc: Global, word: &[u8]) -> Result<InstanceId, Unread> {
        let parts = Many::<PartWord, 1, MOST_PARTS>::read(alloc, b'.', Some(word))?;
        Ok(InstanceId::from_parts(parts))
    }

    fn write(value: &InstanceId, into: &mut Vec<u8>) -> Result<(), AllocError> {
        let Some((first, others)) = value.parts().split_first() else {
            return Ok(());
        };
        PartWord::write(first, into)?;
        put_each::<PartWord>(b'.', others, into)
    }
}
