ghost use Rattle.std.specs.Prelude.{◌≡◌, ℕ, ◌+◌, ◌≤◌, ℤ, List, [], ◌∷◌, ◌++◌, length, IfOk};
ghost use Rattle.ber_core.specs.Length.{shortest_length};
ghost use Rattle.ber_core.specs.Integer.{integer_octets, Has64Bits};
ghost use Rattle.ber_core.specs.Tree.{primitive};
ghost use Rattle.ber_core.specs.Spelling.{canonical};
ghost use Rattle.ber_core.specs.Written.{HasRoom, Appends};

use crate::memory::Memory;
use crate::size::{
    has_one_octet, has_two_octets, one_octet, shortest_complement, significant, two_octet_length,
};
use std::alloc::Global;
use std::marker::Model;

/// Appends elements to a buffer of a fixed size. Contracts see it as the octets appended and the
/// room that is left.
#[derive(Drop)]
pub struct Writer {
    buffer: Vec<u8>,
    limit: usize,
}

impl Model for Writer {
    ghost use Rattle.std.specs.Prelude.{◌-◌, ◌≤◌, ◌^◌, ◌<◌, vec_len, vec_capacity};
    ghost use Rattle.ber_core.specs.Written.{Written};

    ghost Value = { Written };

    ghost view = { λ w. record { octets = w.buffer.items; room = w.limit - vec_len w.buffer } };

    ghost invariant = { λ w. (vec_len w.buffer ≤ w.limit) × (w.limit ≤ vec_capacity w.buffer) };
}

impl Writer {
    /// A writer for so many octets, which are reserved here.
    pub fn new(alloc: Global, room: usize) -> Result<Writer, Memory>
        ensures { IfOk result (λ writer. writer ≡ record { octets = []; room = room }) }
    {
        Ok(Writer {
            buffer: Vec::with_capacity(alloc, room)?,
            limit: room,
        })
    }

    /// How many octets still fit.
    pub fn room(&self) -> usize
        ensures { result ≡ self.now.room }
    {
        self.limit - self.buffer.len()
    }

    /// What was appended.
    pub fn octets(&self) -> &[u8]
        ensures { result.now ≡ self.now.octets }
    {
        self.buffer.as_slice()
    }

    /// Forgets what was appended, and keeps the memory.
    pub fn clear(&mut self)
        ensures octets { self.new.octets ≡ [] }
        ensures room { self.new.room ≡ self.old.room + length self.old.octets }
    {
        self.buffer.clear();
    }

    /// Appends octets as they are.
    pub fn raw(&mut self, octets: &[u8])
        requires { HasRoom self.old octets.now }
        ensures { Appends self.old self.new octets.now }
    {
        self.buffer.extend_from_slice(octets).unwrap();
    }

    /// Appends the identifier and the shortest length of an element with so many content octets,
    /// which the caller appends next.
    #[tactic(auto, unfolding(crate::specs::Length::shortest_length))]
    pub fn head(&mut self, identifier: &[u8], content: usize)
        requires { HasRoom self.old (identifier.now ++ shortest_length content) }
        ensures { Appends self.old self.new (identifier.now ++ shortest_length content) }
    {
        let [octet] = identifier else {
            return self.any_head(identifier, content);
        };
        if content < 128 {
            self.raw(&[*octet, content as u8]);
        } else if has_two_octets(content) {
            let [form, high, low] = two_octet_length(content);
            self.raw(&[*octet, form, high, low]);
        } else {
            self.any_head(identifier, content);
        }
    }

    // The same of any element; `head` has a path of its own for those that are most.
    #[inline(never)]
    #[tactic(auto, unfolding(crate::specs::Length::shortest_length))]
    fn any_head(&mut self, identifier: &[u8], content: usize)
        requires { HasRoom self.old (identifier.now ++ shortest_length content) }
        ensures { Appends self.old self.new (identifier.now ++ shortest_length content) }
    {
        self.raw(identifier);
        if content < 128 {
            self.raw(&[content as u8]);
        } else {
            let octets = content.to_be_bytes();
            let length = significant(&octets);
            self.raw(&[128 + length.len() as u8]);
            self.raw(length);
        }
    }

    /// Appends an INTEGER (X.690 8.3).
    pub fn integer(&mut self, identifier: &[u8], value: i128)
        requires value { Has64Bits value }
        requires fits { HasRoom self.old
            (canonical (primitive identifier.now (integer_octets value))) }
        ensures { Appends self.old self.new
            (canonical (primitive identifier.now (integer_octets value))) }
    {
        if has_one_octet(value) {
            self.octet_string(identifier, &one_octet(value));
        } else {
            self.any_integer(identifier, value);
        }
    }

    // The same of any number; `integer` has a path of its own for those that are most.
    #[inline(never)]
    #[tactic(auto, unfolding(crate::specs::Integer::integer_octets))]
    fn any_integer(&mut self, identifier: &[u8], value: i128)
        requires value { Has64Bits value }
        requires fits { HasRoom self.old
            (canonical (primitive identifier.now (integer_octets value))) }
        ensures { Appends self.old self.new
            (canonical (primitive identifier.now (integer_octets value))) }
    {
        self.octet_string(identifier, shortest_complement(&value.to_be_bytes()));
    }

    /// Appends a primitive element with these content octets: an OCTET STRING (X.690 8.7), a
    /// VisibleString (8.23) or an OBJECT IDENTIFIER (8.19).
    #[tactic(auto, unfolding(crate::specs::Spelling::canonical, crate::specs::Spelling::element))]
    pub fn octet_string(&mut self, identifier: &[u8], octets: &[u8])
        requires { HasRoom self.old (canonical (primitive identifier.now octets.now)) }
        ensures { Appends self.old self.new (canonical (primitive identifier.now octets.now)) }
    {
        self.head(identifier, octets.len());
        self.raw(octets);
    }

    /// Appends a NULL (X.690 8.8).
    #[tactic(auto, unfolding(crate::specs::Spelling::canonical, crate::specs::Spelling::element))]
    pub fn null(&mut self, identifier: &[u8])
        requires { HasRoom self.old (canonical (primitive identifier.now [])) }
        ensures { Appends self.old self.new (canonical (primitive identifier.now [])) }
    {
        self.head(identifier, 0);
    }
}
