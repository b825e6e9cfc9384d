// Service instance identifiers.
ghost use Rattle.std.specs.Prelude.{◌≡◌, IsTrue, Some};
ghost use Rattle.std.specs.Fmt.{DisplaysOnOk};
ghost use Rattle.sle_common.specs.Identifier.{is_value};
ghost use Rattle.sle_common.specs.IdentifierText.{part_text};

use crate::attribute::Attribute;
use crate::part_ref::PartRef;
use octet_core::Octets;
use std::marker::Model;
use std::{fmt, str};

/// How many attributes with their values an identifier has at most.
pub const MOST_PARTS: usize = 8;

/// How many characters a value has at most.
pub const LONGEST_VALUE: usize = 256;

/// An attribute with its value, which has 1 to 256 characters from 21 to 7E but `.` and `=`.
#[derive(Debug, Drop)]
pub struct InstancePart {
    pub attribute: Attribute,
    pub value: Octets,
}

impl InstancePart {
    ghost use Rattle.sle_common.specs.InstanceRef.{part_of};

    /// The same, with the value lent.
    pub fn lend(&self) -> PartRef<'_>
        ensures { part_of result ≡ self.now }
    {
        PartRef {
            attribute: self.attribute,
            value: self.value.as_slice(),
        }
    }
}

/// A service instance identifier: 1 to 8 attributes with their values, in order.
#[derive(Debug, Drop)]
pub struct InstanceId {
    parts: Vec<InstancePart>,
}

impl Model for InstanceId {
    ghost use Rattle.std.specs.Prelude.{List};
    ghost use Rattle.sle_common.specs.declared.instance_id.InstancePart.{InstancePart};
    ghost use Rattle.sle_common.specs.Identifier.{IsIdentifier};

    ghost Value = { List InstancePart };

    ghost view = { λ id. id.parts.items };

    ghost invariant = { λ id. IsIdentifier id.parts.items };
}

impl InstanceId {
    ghost use Rattle.sle_common.specs.Identifier.{IsIdentifier};

    /// The identifier of these attributes and values.
    pub fn from_parts(parts: Vec<InstancePart>) -> InstanceId
        requires { IsIdentifier parts.items }
        ensures { result ≡ parts.items }
    {
        InstanceId { parts }
    }

    /// The attributes and values, in order.
    pub fn parts(&self) -> &[InstancePart]
        ensures exact { result.now ≡ self.now }
        ensures valid { IsIdentifier self.now }
    {
        self.parts.as_slice()
    }
}

impl fmt::Display for InstanceId {
    ghost use Rattle.std.specs.Prelude.{Some};
    ghost use Rattle.sle_common.specs.IdentifierText.{text_of};

    ghost output = { λ id. Some (text_of id) };

    /// The text: `attribute=value`, joined by dots.
    fn fmt<W: fmt::Write>(&self, f: &mut fmt::Formatter<W>) -> fmt::Result {
        let Some((first, others)) = self.parts.as_slice().split_first() else {
            return Ok(());
        };
        write_part(first, f)?;
        let mut rest = others;
        while let Some((part, more)) = rest.split_first() {
            f.write_str(".")?;
            write_part(part, f)?;
            rest = more;
        }
        Ok(())
    }
}

// Writes `attribute=value`.
#[tactic(auto, using(crate::proofs::Values::value_is_utf8))]
fn write_part<W: fmt::Write>(part: &InstancePart, f: &mut fmt::Formatter<W>) -> fmt::Result
    requires { IsTrue (is_value part.now.value) }
    ensures { DisplaysOnOk W.write_str_gives f.old result (Some (part_text part.now)) f.new }
{
    f.write_str(part.attribute.name())?;
    f.write_str("=")?;
    let Ok(value) = str::from_utf8(part.value.as_slice()) else {
        unreachable!();
    };
    f.write_str(value)
}
