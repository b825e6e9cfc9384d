ghost use Rattle.std.specs.Prelude.{◌≡◌, ◌+◌, ◌≤◌, ◌<◌, ◌^◌, length};
ghost use Rattle.ber_core.specs.Reading.{Gives};
ghost use Rattle.ber_core.specs.Tree.{constructed, tree_and, no_trees};
ghost use Rattle.ber_core.specs.Spelling.{canonical, canonical_all};
ghost use Rattle.ber_core.specs.Written.{HasRoom, Appends};
ghost use Rattle.ber_shape.specs.Steps.{within_at};

use crate::element::Element;
use ber_core::{BerFault, Reader, Writer, element_length};

/// What stands in an element, one behind the other up to its end: its shape, and the three
/// functions that meet it.
pub trait Members<'a> {
    ghost use Rattle.std.specs.Prelude.{◌≡◌, true, nat_le};
    ghost use Rattle.ber_shape.specs.Members.{Members};

    /// The values in code.
    type Value: Drop;

    /// What contracts see of a value.
    ghost Seen: { Type 0 };

    ghost shape: { Members Seen };

    ghost is_shallow: { nat_le shape.levels 15 ≡ true };

    ghost seen: { Self.Value → Seen };

    /// Reads what stands next, or names its first fault.
    fn read(reader: &mut Reader<'a>) -> Result<Self::Value, BerFault>
        ensures exact { Gives (λ value. (seen value, reader.new)) result (shape.read reader.old) }
        ensures octets { reader.new.octets ≡ reader.old.octets };

    /// The number of octets that `write` appends.
    fn size(value: &Self::Value) -> usize
        requires fits { shape.Fits (seen value.now) }
        requires small { shape.most < 2 ^ 64 }
        ensures exact { result ≡ length (canonical_all (shape.trees (seen value.now))) }
        ensures within { result ≤ shape.most };

    /// Appends the canonical spelling.
    fn write(value: &Self::Value, writer: &mut Writer)
        requires fits { shape.Fits (seen value.now) }
        requires small { shape.most < 2 ^ 64 }
        requires room { HasRoom writer.old (canonical_all (shape.trees (seen value.now))) }
        ensures { Appends writer.old writer.new (canonical_all (shape.trees (seen value.now))) };
}

/// Reads a constructed element and what stands in it.
#[inline(always)]
pub fn read_within<'a, M: Members<'a>>(
    identifier: &[u8],
    reader: &mut Reader<'a>,
) -> Result<M::Value, BerFault>
    ensures exact { Gives (λ value. (M.seen value, reader.new)) result
        (within_at identifier.now M.shape.read reader.old) }
    ensures octets { reader.new.octets ≡ reader.old.octets }
{
    reader.element(identifier)?;
    let value = M::read(reader)?;
    reader.leave()?;
    Ok(value)
}

/// The number of octets that `write_within` appends.
#[tactic(auto, using(ber_core::specs::Parts::lengths))]
pub fn size_within<'a, M: Members<'a>>(identifier: &[u8], value: &M::Value) -> usize
    requires fits { M.shape.Fits (M.seen value.now) }
    requires small { length identifier.now + 9 + M.shape.most < 2 ^ 64 }
    ensures exact { result ≡ length (canonical
        (constructed identifier.now (M.shape.trees (M.seen value.now)))) }
    ensures within { result ≤ length identifier.now + 9 + M.shape.most }
{
    element_length(identifier, M::size(value))
}

/// Appends a constructed element and what stands in it.
#[tactic(auto, using(ber_core::specs::Parts::lengths))]
pub fn write_within<'a, M: Members<'a>>(identifier: &[u8], value: &M::Value, writer: &mut Writer)
    requires fits { M.shape.Fits (M.seen value.now) }
    requires small { length identifier.now + 9 + M.shape.most < 2 ^ 64 }
    requires room { HasRoom writer.old
        (canonical (constructed identifier.now (M.shape.trees (M.seen value.now)))) }
    ensures { Appends writer.old writer.new
        (canonical (constructed identifier.now (M.shape.trees (M.seen value.now)))) }
{
    writer.head(identifier, M::size(value));
    M::write(value, writer);
}

/// Reads a constructed element with one element in it.
pub fn read_around<'a, E: Element<'a>>(
    identifier: &[u8],
    reader: &mut Reader<'a>,
) -> Result<E::Value, BerFault>
    ensures exact { Gives (λ value. (E.seen value, reader.new)) result
        (within_at identifier.now E.shape.read reader.old) }
    ensures octets { reader.new.octets ≡ reader.old.octets }
{
    reader.element(identifier)?;
    let value = E::read(reader)?;
    reader.leave()?;
    Ok(value)
}

/// The number of octets that `write_around` appends.
#[tactic(auto, using(ber_core::specs::Parts::lengths))]
pub fn size_around<'a, E: Element<'a>>(identifier: &[u8], value: &E::Value) -> usize
    requires fits { E.shape.Fits (E.seen value.now) }
    requires small { length identifier.now + 9 + E.shape.most < 2 ^ 64 }
    ensures exact { result ≡ length (canonical
        (constructed identifier.now (tree_and (E.shape.tree (E.seen value.now)) no_trees))) }
    ensures within { result ≤ length identifier.now + 9 + E.shape.most }
{
    element_length(identifier, E::size(value))
}

/// Appends a constructed element with one element in it.
#[tactic(auto, using(ber_core::specs::Parts::lengths))]
pub fn write_around<'a, E: Element<'a>>(identifier: &[u8], value: &E::Value, writer: &mut Writer)
    requires fits { E.shape.Fits (E.seen value.now) }
    requires small { length identifier.now + 9 + E.shape.most < 2 ^ 64 }
    requires room { HasRoom writer.old
        (canonical (constructed identifier.now
        (tree_and (E.shape.tree (E.seen value.now)) no_trees))) }
    ensures { Appends writer.old writer.new
        (canonical (constructed identifier.now
        (tree_and (E.shape.tree (E.seen value.now)) no_trees))) }
{
    writer.head(identifier, E::size(value));
    E::write(value, writer);
}
