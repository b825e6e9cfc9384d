ghost use Rattle.std.specs.Prelude.{◌≡◌, ℕ, ℤ, ◌+◌, ◌-◌, ◌^◌, ◌<◌, ◌≤◌, ◌≤ℤ◌, ◌==◌, ◌↔◌, IsTrue};
ghost use Rattle.std.specs.Prelude.{IsOk, IsSome, IfOk, IfSome, take, drop, option_map, List};
ghost use Rattle.std.specs.Prelude.{length, Ok, Err};
ghost use Rattle.ber_core.specs.Length.{IsSlice};
ghost use Rattle.ber_core.specs.Tree.{begins_number, through_last, first_identifier};
ghost use Rattle.ber_core.specs.View.{View, view_before, end_of, left};
ghost use Rattle.ber_core.specs.Reading.{Reads, Gives, missing, content_from, content_behind};
ghost use Rattle.ber_core.specs.Reading.{content_at, next_content, is_next, primitive_at};
ghost use Rattle.ber_core.specs.Reading.{integer_of, string_of, visible_of, object_id_of, null_of};
ghost use Rattle.ber_core.specs.Reading.{enter, leave};

use crate::content::number_of;
use crate::fault::BerFault;
use crate::{content, laws};
use std::marker::Model;

const DEEPEST: usize = 16;

/// Reads elements from octets, which it lends, and takes no memory. A fault leaves it where it
/// stood.
#[derive(Drop)]
pub struct Reader<'a> {
    octets: &'a [u8],
    place: usize,
    // The ends of the entered elements, from this index on, the innermost first.
    ends: [usize; 16],
    free: usize,
}

impl<'a> Model for Reader<'a> {
    ghost use Rattle.ber_core.specs.View.{View, view_code, IsInside};
    ghost use Rattle.std.specs.Prelude.{◌≤◌, drop, length};

    ghost Value = { View };

    ghost coded = { view_code };

    ghost view = { λ r. record {
      octets = r.octets.now;
      place = r.place;
      ends = drop r.free r.ends;
    } };

    ghost invariant = { λ r. (r.free ≤ 16) × IsInside r.place (drop r.free r.ends)
        (length r.octets.now) };
}

impl<'a> Reader<'a> {
    /// A reader before the first octet.
    pub fn new(octets: &'a [u8]) -> Reader<'a>
        ensures { result ≡ view_before octets.now }
    {
        Reader {
            octets,
            place: 0,
            ends: [0; 16],
            free: DEEPEST,
        }
    }

    /// The place of the next octet, counted from the first one given to `new`.
    #[tactic(auto, using(crate::specs::Facts::Ends::staying))]
    pub fn place(&self) -> usize
        ensures exact { result ≡ self.now.place }
        ensures reached { result ≤ end_of self.now }
        ensures within { end_of self.now ≤ length self.now.octets }
        ensures shallow { length self.now.ends ≤ 16 }
    {
        self.place
    }

    /// All the octets, those that were passed among them.
    pub fn octets(&self) -> &'a [u8]
        ensures exact { result.now ≡ self.now.octets }
        ensures slice { IsSlice self.now.octets }
    {
        laws::slice(self.octets);
        self.octets
    }

    /// The octets from a place that was passed up to the next one.
    pub fn since(&self, start: usize) -> &'a [u8]
        requires { start ≤ self.now.place }
        ensures { result.now ≡ take (self.now.place - start) (drop start self.now.octets) }
    {
        let end = self.place();
        &self.octets[start..end]
    }

    // The end of the innermost entered element, or where none is entered, of the octets.
    #[inline(always)]
    #[tactic(auto, using(crate::specs::Facts::Ends::end_at_within))]
    fn end(&self) -> usize
        ensures exact { result ≡ end_of self.now }
        ensures reached { self.now.place ≤ result }
        ensures within { result ≤ length self.now.octets }
    {
        if self.free < DEEPEST {
            self.ends[self.free]
        } else {
            self.octets.len()
        }
    }

    // The octets from the place to that end.
    #[inline(always)]
    fn left(&self) -> &'a [u8]
        ensures { result.now ≡ left self.now }
    {
        &self.octets[self.place..self.end()]
    }

    // What it means that an octet is missing at this place.
    fn missing(&self, at: usize) -> BerFault
        ensures { result ≡ missing self.now at }
    {
        if self.free == DEEPEST {
            BerFault::Cut { place: self.place }
        } else {
            BerFault::BadLength { place: at }
        }
    }

    fn content_from(
        &self,
        at: usize,
        start: usize,
        size: usize,
        rest: &'a [u8],
    ) -> Result<(usize, &'a [u8]), BerFault>
        ensures exact { Gives (λ found. (found.0, found.1.now)) result
            (content_from self.now at start size rest.now) }
        ensures place { IfOk result (λ found. found.0 ≡ start) }
        ensures within { IfOk result (λ found. length found.1.now ≤ length rest.now) }
    {
        if rest.len() < size {
            return Err(self.missing(at));
        }
        Ok((start, &rest[..size]))
    }

    fn content_behind(
        &self,
        at: usize,
        count: usize,
        rest: &'a [u8],
    ) -> Result<(usize, &'a [u8]), BerFault>
        requires count { count ≤ 8 }
        requires place { at + 1 + length rest.now < 2 ^ 64 }
        ensures exact { Gives (λ found. (found.0, found.1.now)) result
            (content_behind self.now at count rest.now) }
        ensures place { IfOk result (λ found. at < found.0) }
        ensures within { IfOk result (λ found.
            found.0 + length found.1.now ≤ at + 1 + length rest.now) }
    {
        if rest.len() < count {
            return Err(self.missing(at));
        }
        let (digits, rest) = rest.split_at(count);
        self.content_from(at, at + 1 + count, number_of(digits) as usize, rest)
    }

    fn content_at(&self, at: usize, rest: &'a [u8]) -> Result<(usize, &'a [u8]), BerFault>
        requires { at + length rest.now < 2 ^ 64 }
        ensures exact { Gives (λ found. (found.0, found.1.now)) result
            (content_at self.now at rest.now) }
        ensures place { IfOk result (λ found. at < found.0) }
        ensures within { IfOk result (λ found.
            found.0 + length found.1.now ≤ at + length rest.now) }
        ensures room { IsOk result → length self.now.ends < 16 }
    {
        let Some((first, rest)) = rest.split_first() else {
            return Err(self.missing(at));
        };
        if self.free == 0 {
            return Err(BerFault::BadLength { place: at });
        }
        match *first {
            0..=127 => self.content_from(at, at + 1, *first as usize, rest),
            129..=136 => self.content_behind(at, (*first - 128) as usize, rest),
            _ => Err(BerFault::BadLength { place: at }),
        }
    }

    // The content of the next element, and where it begins.
    #[inline(always)]
    fn next_content(&self, identifier: &[u8]) -> Result<(usize, &'a [u8]), BerFault>
        ensures exact { Gives (λ found. (found.0, found.1.now)) result
            (next_content self.now identifier.now) }
        ensures place { IfOk result (λ found. self.now.place ≤ found.0) }
        ensures within { IfOk result (λ found. found.0 + length found.1.now ≤ end_of self.now) }
        ensures fits { IfOk result (λ found. found.0 + length found.1.now < 2 ^ 64) }
        ensures room { IsOk result → length self.now.ends < 16 }
    {
        match self.short_content(identifier) {
            Some(found) => Ok(found),
            None => self.any_content(identifier),
        }
    }

    // The content of an element with an identifier of one octet and a length of one octet, where
    // one stands next: most elements are so.
    #[inline(always)]
    #[tactic(auto, unfolding(crate::specs::Reading::next_content))]
    fn short_content(&self, identifier: &[u8]) -> Option<(usize, &'a [u8])>
        ensures exact { IfSome result (λ found. next_content self.now identifier.now
            ≡ Ok (found.0, found.1.now)) }
        ensures place { IfSome result (λ found. self.now.place ≤ found.0) }
        ensures within { IfSome result (λ found. found.0 + length found.1.now ≤ end_of self.now) }
        ensures fits { IfSome result (λ found. found.0 + length found.1.now < 2 ^ 64) }
        ensures room { IsSome result → length self.now.ends < 16 }
    {
        let [octet] = identifier else {
            return None;
        };
        let [first, size, rest @ ..] = self.left() else {
            return None;
        };
        let size = *size as usize;
        if first != octet || self.free == 0 || size >= 128 || rest.len() < size {
            return None;
        }
        Some((self.place + 2, &rest[..size]))
    }

    // The content of the next element, where it often has more than 127 octets.
    #[inline(always)]
    fn next_long_content(&self, identifier: &[u8]) -> Result<(usize, &'a [u8]), BerFault>
        ensures exact { Gives (λ found. (found.0, found.1.now)) result
            (next_content self.now identifier.now) }
        ensures place { IfOk result (λ found. self.now.place ≤ found.0) }
        ensures within { IfOk result (λ found. found.0 + length found.1.now ≤ end_of self.now) }
        ensures fits { IfOk result (λ found. found.0 + length found.1.now < 2 ^ 64) }
        ensures room { IsOk result → length self.now.ends < 16 }
    {
        match self.long_content(identifier) {
            Some(found) => Ok(found),
            None => self.next_content(identifier),
        }
    }

    // The content of an element with an identifier of one octet and a length of two octets in the
    // long form, where one stands next: frames are so, and what stands around them.
    #[inline(always)]
    #[tactic(auto, unfolding(crate::specs::Reading::next_content))]
    fn long_content(&self, identifier: &[u8]) -> Option<(usize, &'a [u8])>
        ensures exact { IfSome result (λ found. next_content self.now identifier.now
            ≡ Ok (found.0, found.1.now)) }
        ensures place { IfSome result (λ found. self.now.place ≤ found.0) }
        ensures within { IfSome result (λ found. found.0 + length found.1.now ≤ end_of self.now) }
        ensures fits { IfSome result (λ found. found.0 + length found.1.now < 2 ^ 64) }
        ensures room { IsSome result → length self.now.ends < 16 }
    {
        let [octet] = identifier else {
            return None;
        };
        let [first, 130, rest @ ..] = self.left() else {
            return None;
        };
        if first != octet || self.free == 0 || rest.len() < 2 {
            return None;
        }
        let (digits, rest) = rest.split_at(2);
        let size = number_of(digits) as usize;
        if rest.len() < size {
            return None;
        }
        Some((self.place + 4, &rest[..size]))
    }

    // The same of any element.
    #[inline(never)]
    #[tactic(auto, unfolding(crate::specs::Reading::next_content))]
    fn any_content(&self, identifier: &[u8]) -> Result<(usize, &'a [u8]), BerFault>
        ensures exact { Gives (λ found. (found.0, found.1.now)) result
            (next_content self.now identifier.now) }
        ensures place { IfOk result (λ found. self.now.place ≤ found.0) }
        ensures within { IfOk result (λ found. found.0 + length found.1.now ≤ end_of self.now) }
        ensures fits { IfOk result (λ found. found.0 + length found.1.now < 2 ^ 64) }
        ensures room { IsOk result → length self.now.ends < 16 }
    {
        let left = self.left();
        if left.starts_with(identifier) {
            let size = identifier.len();
            return self.content_at(self.place + size, &left[size..]);
        }
        if identifier.starts_with(left) {
            return Err(self.missing(self.end()));
        }
        Err(BerFault::WrongTag {
            place: self.place,
            found: left[0],
        })
    }

    /// The identifier octets of the next element (X.690 8.1.2), or none where no whole ones stand
    /// before the end of the innermost entered element, or where none is entered, of the octets.
    #[tactic(auto, unfolding(crate::specs::Tree::first_identifier))]
    pub fn identifier(&self) -> Option<&'a [u8]>
        ensures { option_map (λ octets. octets.now) result ≡ first_identifier (left self.now) }
    {
        let left = self.left();
        let (first, rest) = left.split_first()?;
        if first % 32 != 31 {
            return Some(&left[..1]);
        }
        if !begins_number(rest) {
            return None;
        }
        let count = number_length(rest)?;
        Some(&left[..1 + count])
    }

    /// Whether the next element has this identifier, which is a whole one.
    #[inline(always)]
    pub fn next_is(&self, identifier: &[u8]) -> bool
        ensures { result ≡ is_next identifier.now self.now }
    {
        self.left().starts_with(identifier)
    }

    /// Whether the innermost entered element, or where none is entered, the octets, have no further
    /// octet.
    #[inline(always)]
    pub fn at_end(&self) -> bool
        ensures { IsTrue result ↔ (self.now.place ≡ end_of self.now) }
    {
        self.place == self.end()
    }

    /// Enters an element that is a list of elements.
    #[inline(always)]
    pub fn element(&mut self, identifier: &[u8]) -> Result<(), BerFault>
        ensures exact { Reads (λ _. tt) self.old self.new result (enter self.old identifier.now) }
        ensures octets { self.new.octets ≡ self.old.octets }
    {
        let (start, content) = self.next_long_content(identifier)?;
        self.free -= 1;
        self.ends[self.free] = start + content.len();
        self.place = start;
        Ok(())
    }

    /// Leaves the innermost entered element, or where none is entered, tests that the octets end
    /// here.
    #[inline(always)]
    #[tactic(auto, using(crate::specs::Facts::Ends::leaving))]
    pub fn leave(&mut self) -> Result<(), BerFault>
        ensures exact { Reads (λ _. tt) self.old self.new result (leave self.old) }
        ensures octets { self.new.octets ≡ self.old.octets }
    {
        if self.place != self.end() {
            return Err(BerFault::BadLength { place: self.place });
        }
        if self.free < DEEPEST {
            self.free += 1;
        }
        Ok(())
    }

    /// Reads an INTEGER in this range (X.690 8.3).
    #[inline(always)]
    pub fn integer(
        &mut self,
        identifier: &[u8],
        least: i128,
        greatest: i128,
    ) -> Result<i128, BerFault>
        ensures exact { Reads (λ value. value) self.old self.new result
            (primitive_at (integer_of least greatest) self.old identifier.now) }
        ensures octets { self.new.octets ≡ self.old.octets }
        ensures range { IfOk result (λ value. (least ≤ℤ value) × (value ≤ℤ greatest)) }
    {
        let (start, content) = self.next_content(identifier)?;
        let value = content::integer_of(content, start, least, greatest)?;
        self.place = start + content.len();
        Ok(value)
    }

    /// Reads an OCTET STRING of so many octets (X.690 8.7).
    #[inline(always)]
    pub fn octet_string(
        &mut self,
        identifier: &[u8],
        least: usize,
        greatest: usize,
    ) -> Result<&'a [u8], BerFault>
        ensures exact { Reads (λ octets. octets.now) self.old self.new result
            (primitive_at (string_of least greatest) self.old identifier.now) }
        ensures octets { self.new.octets ≡ self.old.octets }
    {
        let (start, content) = self.next_long_content(identifier)?;
        let octets = content::string_of(content, start, least, greatest)?;
        self.place = start + content.len();
        Ok(octets)
    }

    /// Reads a VisibleString of so many characters (X.690 8.23).
    pub fn visible(
        &mut self,
        identifier: &[u8],
        least: usize,
        greatest: usize,
    ) -> Result<&'a [u8], BerFault>
        ensures exact { Reads (λ octets. octets.now) self.old self.new result
            (primitive_at (visible_of least greatest) self.old identifier.now) }
        ensures octets { self.new.octets ≡ self.old.octets }
    {
        let (start, content) = self.next_content(identifier)?;
        let octets = content::visible_of(content, start, least, greatest)?;
        self.place = start + content.len();
        Ok(octets)
    }

    /// Reads an OBJECT IDENTIFIER, and answers its content octets (X.690 8.19).
    pub fn object_id(&mut self, identifier: &[u8]) -> Result<&'a [u8], BerFault>
        ensures exact { Reads (λ octets. octets.now) self.old self.new result
            (primitive_at object_id_of self.old identifier.now) }
        ensures octets { self.new.octets ≡ self.old.octets }
    {
        let (start, content) = self.next_content(identifier)?;
        let octets = content::object_id_of(content, start)?;
        self.place = start + content.len();
        Ok(octets)
    }

    /// Reads a NULL (X.690 8.8).
    #[inline(always)]
    pub fn null(&mut self, identifier: &[u8]) -> Result<(), BerFault>
        ensures exact { Reads (λ _. tt) self.old self.new result
            (primitive_at null_of self.old identifier.now) }
        ensures octets { self.new.octets ≡ self.old.octets }
    {
        let (start, content) = self.next_content(identifier)?;
        content::null_of(content, start)?;
        self.place = start + content.len();
        Ok(())
    }
}

// The number of octets up to the first one whose bit 8 is clear.
fn number_length(octets: &[u8]) -> Option<usize>
    ensures octets { option_map (λ count. take count octets.now) result ≡ through_last octets.now }
    ensures within { IfSome result (λ count. (0 < count) × (count ≤ length octets.now)) }
{
    for (place, octet) in octets.iter().enumerate() {
        if *octet < 128 {
            return Some(place + 1);
        }
    }
    None
}

// Whether a tag number from 31 on begins so.
fn begins_number(octets: &[u8]) -> bool
    ensures { result ≡ begins_number octets.now }
{
    match octets {
        [octet, ..] => 31 <= *octet && *octet != 128,
        [] => false,
    }
}
