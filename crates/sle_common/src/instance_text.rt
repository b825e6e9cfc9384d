// Identifiers from their texts: `attribute=value`, joined by dots.
ghost use Rattle.std.specs.Prelude.{◌≡◌, ◌++◌, ◌+◌, ◌-◌, ◌<◌, ◌≤◌, length, take, IfOk, IfErr};
ghost use Rattle.std.specs.Prelude.{nat_eq, IsTrue};
ghost use Rattle.std.specs.List.{common_prefix_len, prefix_len, take_while};
ghost use Rattle.sle_common.specs.Attribute.{label_of};
ghost use Rattle.sle_common.specs.Identifier.{is_value_octet, is_value, IsIdentifier};
ghost use Rattle.sle_common.specs.IdentifierText.{text_of, Refuses};
ghost use Rattle.sle_common.specs.TextParts.{ReadsPart, RefusesPart};

use crate::attribute::Attribute;
use crate::id_fault::IdFault;
use crate::instance_id::{InstanceId, InstancePart, LONGEST_VALUE, MOST_PARTS};
use octet_core::Octets;
use std::alloc::Global;

impl InstanceId {
    /// The identifier that has this text. Costs one pass over it, and memory for each value.
    pub fn parse_text(alloc: Global, text: &str) -> Result<InstanceId, IdFault>
        ensures ok { IfOk result (λ id. IsIdentifier id × (text.now ≡ text_of id)) }
        ensures bad { IfErr result (Refuses text.now) }
    {
        let text = text.as_bytes();
        let mut parts = Vec::with_capacity(alloc, MOST_PARTS)?;
        let mut rest = text;
        loop {
            let (attribute, value, behind) = match first_part(rest) {
                Ok(found) => found,
                Err(at) => {
                    let place = text.len() - (rest.len() - at);
                    return Err(IdFault::BadText { place });
                }
            };
            let value = Octets::copy_of(alloc, value)?;
            parts.push(InstancePart { attribute, value })?;
            let Some((octet, more)) = behind.split_first() else {
                return Ok(InstanceId::from_parts(parts));
            };
            if *octet != b'.' || parts.len() == MOST_PARTS {
                let place = text.len() - behind.len();
                return Err(IdFault::BadText { place });
            }
            rest = more;
        }
    }
}

// The attribute and the value at the front and what is behind them, or how many octets at the front
// some identifier's text goes on with.
fn first_part(text: &[u8]) -> Result<(Attribute, &[u8], &[u8]), usize>
    ensures ok { IfOk result (λ found. ReadsPart text.now found.0 found.1.now found.2.now) }
    ensures bad { IfErr result (RefusesPart text.now) }
{
    let (attribute, behind) = first_label(text)?;
    let size = value_length(behind);
    if size == 0 {
        return Err(text.len() - behind.len());
    }
    let (value, behind) = behind.split_at(size);
    Ok((attribute, value, behind))
}

// The attribute whose label stands at the front and what is behind it, or how many octets at most
// of some label do.
fn first_label(text: &[u8]) -> Result<(Attribute, &[u8]), usize>
    ensures ok { IfOk result (λ found. text.now ≡ label_of found.0 ++ found.1.now) }
    ensures bad { IfErr result (RefusesPart text.now) }
{
    let mut longest = 0;
    for attribute in Attribute::ALL {
        let label = attribute.label();
        let shared = shared_length(label, text);
        if shared == label.len() {
            return Ok((attribute, &text[shared..]));
        }
        longest = longest.max(shared);
    }
    Err(longest)
}

// How many octets both begin with.
fn shared_length(label: &[u8], text: &[u8]) -> usize
    ensures { result ≡ common_prefix_len nat_eq label.now text.now }
{
    let mut shared = 0;
    while shared < label.len() && shared < text.len() && label[shared] == text[shared] {
        shared += 1;
    }
    shared
}

// How many characters of a value stand at the front, of at most 256.
fn value_length(text: &[u8]) -> usize
    ensures exact { result ≡ prefix_len is_value_octet (take 256 text.now) }
    ensures within { result ≤ length text.now }
{
    text.iter()
        .take(LONGEST_VALUE)
        .take_while(|octet| is_value_octet(**octet))
        .count()
}

// A character of a value: 21 to 7E, but `.` and `=`.
pub(crate) fn is_value_octet(octet: u8) -> bool
    ensures { result ≡ is_value_octet octet }
{
    matches!(octet, 0x21..=0x7e) && octet != b'.' && octet != b'='
}
