// Lists that are lent: a list is checked whole once, and then read item by item from the same
// octets.

ghost use Rattle.std.specs.Prelude.{◌≡◌, ◌<◌, ◌≤◌, ◌^◌, length, IsOk};
ghost use Rattle.ber_core.specs.Reading.{Gives};
ghost use Rattle.ber_core.specs.Spelling.{canonical_all};
ghost use Rattle.ber_core.specs.Written.{HasRoom, Appends};
ghost use Rattle.ber_shape.specs.List.{list_of, many_at, each_tree, times};
ghost use Rattle.ber_shape.specs.Exact.{whole};
ghost use Rattle.ber_shape.specs.Lent.{Lends, LendsSome, passed, SplitsFirst, lent, values};

use crate::element::Element;
use ber_core::{BerFault, Reader, Writer, laws};

/// The octets of at most so many elements that stand next, up to the end of the element around
/// them, or the first fault.
pub fn lend_list<'a, E: Element<'a>>(
    most: usize,
    reader: &mut Reader<'a>,
) -> Result<&'a [u8], BerFault>
    ensures exact { Lends (list_of E.shape most) reader.old reader.new
        (lent (λ octets. octets.now) result) }
    ensures octets { reader.new.octets ≡ reader.old.octets }
{
    reader.octets();
    let start = reader.place();
    pass_over::<E>(most, reader)?;
    Ok(reader.since(start))
}

/// The octets of one element and at most so many more that stand next, up to the end of the element
/// around them, or the first fault. They are read as a list of at most one more.
pub fn lend_some<'a, E: Element<'a>>(
    more: usize,
    reader: &mut Reader<'a>,
) -> Result<&'a [u8], BerFault>
    ensures exact { LendsSome E.shape more reader.old reader.new
        (lent (λ octets. octets.now) result) }
    ensures octets { reader.new.octets ≡ reader.old.octets }
{
    reader.octets();
    let start = reader.place();
    E::read(reader)?;
    pass_over::<E>(more, reader)?;
    Ok(reader.since(start))
}

// Goes over at most so many elements.
fn pass_over<'a, E: Element<'a>>(most: usize, reader: &mut Reader<'a>) -> Result<(), BerFault>
    ensures exact { Gives (λ _. reader.new) result (passed (many_at E.shape.read most reader.old)) }
    ensures octets { reader.new.octets ≡ reader.old.octets }
{
    for _ in 0..most {
        if reader.at_end() {
            return Ok(());
        }
        E::read(reader)?;
    }
    Ok(())
}

/// The first element of a list that was lent, and the octets of the others; none where it is empty.
pub fn split_first<'a, E: Element<'a>>(
    most: usize,
    octets: &'a [u8],
) -> Option<(E::Value, &'a [u8])>
    requires { IsOk (whole (list_of E.shape most).read octets.now) }
    ensures { SplitsFirst (list_of E.shape most) (λ found. (E.seen found.0, found.1.now)) octets.now
        result }
{
    laws::slice(octets);
    let mut reader = Reader::new(octets);
    if reader.at_end() {
        return None;
    }
    let Ok(item) = E::read(&mut reader) else {
        return None;
    };
    Some((item, &octets[reader.place()..]))
}

/// The number of octets that `write_list` appends.
pub fn list_size<'a, E: Element<'a>>(most: usize, octets: &'a [u8]) -> usize
    requires some { IsOk (whole (list_of E.shape most).read octets.now) }
    requires each { E.shape.most < 2 ^ 64 }
    requires small { times most E.shape.most < 2 ^ 64 }
    ensures exact { result ≡ length (canonical_all
        (each_tree E.shape.tree (values (list_of E.shape most) octets.now))) }
    ensures within { result ≤ times most E.shape.most }
{
    laws::slice(octets);
    let mut size = 0;
    let mut rest = octets;
    while let Some((item, others)) = split_first::<E>(most, rest) {
        size += E::size(&item);
        rest = others;
    }
    size
}

/// Appends the elements of a list that was lent, in their canonical spelling.
pub fn write_list<'a, E: Element<'a>>(most: usize, octets: &'a [u8], writer: &mut Writer)
    requires some { IsOk (whole (list_of E.shape most).read octets.now) }
    requires each { E.shape.most < 2 ^ 64 }
    requires room { HasRoom writer.old
        (canonical_all (each_tree E.shape.tree (values (list_of E.shape most) octets.now))) }
    ensures { Appends writer.old writer.new
        (canonical_all (each_tree E.shape.tree (values (list_of E.shape most) octets.now))) }
{
    laws::slice(octets);
    let mut rest = octets;
    while let Some((item, others)) = split_first::<E>(most, rest) {
        E::write(&item, writer);
        rest = others;
    }
}
