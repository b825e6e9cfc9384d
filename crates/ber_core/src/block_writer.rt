ghost use Rattle.std.specs.Prelude.{◌≡◌, ℕ, ◌≤◌, ℤ, List, [], ◌∷◌, ◌++◌, length};
ghost use Rattle.ber_core.specs.Length.{shortest_length};
ghost use Rattle.ber_core.specs.Integer.{integer_octets, Has64Bits};
ghost use Rattle.ber_core.specs.Tree.{primitive};
ghost use Rattle.ber_core.specs.Spelling.{canonical};
ghost use Rattle.ber_core.specs.Written.{HasRoom, Appends};

use crate::size::{complement_of, integer_content, significant};
use std::marker::Model;

/// Appends elements to a block of a fixed size that it holds itself, with no memory. Contracts see
/// it as a `Writer`.
#[derive(Drop)]
pub struct BlockWriter<const SIZE: usize> {
    block: [u8; SIZE],
    end: usize,
}

impl<const SIZE: usize> Model for BlockWriter<SIZE> {
    ghost use Rattle.std.specs.Prelude.{◌-◌, ◌≤◌, take, length};
    ghost use Rattle.ber_core.specs.Written.{Written};

    ghost Value = { Written };

    ghost view = { λ w. record { octets = take w.end w.block; room = length w.block - w.end } };

    ghost invariant = { λ w. w.end ≤ length w.block };
}

impl<const SIZE: usize> BlockWriter<SIZE> {
    /// A writer for so many octets.
    pub fn new() -> BlockWriter<SIZE>
        ensures { result ≡ record { octets = []; room = SIZE } }
    {
        BlockWriter {
            block: [0; SIZE],
            end: 0,
        }
    }

    /// How many octets still fit.
    pub fn room(&self) -> usize
        ensures { result ≡ self.now.room }
    {
        SIZE - self.end
    }

    /// What was appended.
    pub fn octets(&self) -> &[u8]
        ensures { result.now ≡ self.now.octets }
    {
        &self.block[..self.end]
    }

    /// Appends octets as they are.
    pub fn raw(&mut self, octets: &[u8])
        requires { HasRoom self.old octets.now }
        ensures { Appends self.old self.new octets.now }
    {
        let end = self.end + octets.len();
        let block = &mut self.block[..];
        block[self.end..end].copy_from_slice(octets);
        self.end = end;
    }

    /// Appends the identifier and the shortest length of an element with so many content octets,
    /// which the caller appends next.
    #[tactic(auto, unfolding(crate::specs::Length::shortest_length))]
    pub fn head(&mut self, identifier: &[u8], content: usize)
        requires { HasRoom self.old (identifier.now ++ shortest_length content) }
        ensures { Appends self.old self.new (identifier.now ++ shortest_length content) }
    {
        self.raw(identifier);
        if content < 128 {
            self.raw(&[content as u8]);
        } else {
            let octets = content.to_be_bytes();
            let length = significant(&octets);
            self.raw(&[128 + length.len() as u8]);
            self.raw(length);
        }
    }

    /// Appends an INTEGER (X.690 8.3).
    pub fn integer(&mut self, identifier: &[u8], value: i128)
        requires value { Has64Bits value }
        requires fits { HasRoom self.old
            (canonical (primitive identifier.now (integer_octets value))) }
        ensures { Appends self.old self.new
            (canonical (primitive identifier.now (integer_octets value))) }
    {
        let octets = complement_of(value);
        self.octet_string(identifier, integer_content(&octets, value));
    }

    /// Appends a primitive element with these content octets: an OCTET STRING (X.690 8.7), a
    /// VisibleString (8.23) or an OBJECT IDENTIFIER (8.19).
    #[tactic(auto, unfolding(crate::specs::Spelling::canonical, crate::specs::Spelling::element))]
    pub fn octet_string(&mut self, identifier: &[u8], octets: &[u8])
        requires { HasRoom self.old (canonical (primitive identifier.now octets.now)) }
        ensures { Appends self.old self.new (canonical (primitive identifier.now octets.now)) }
    {
        self.head(identifier, octets.len());
        self.raw(octets);
    }

    /// Appends a NULL (X.690 8.8).
    #[tactic(auto, unfolding(crate::specs::Spelling::canonical, crate::specs::Spelling::element))]
    pub fn null(&mut self, identifier: &[u8])
        requires { HasRoom self.old (canonical (primitive identifier.now [])) }
        ensures { Appends self.old self.new (canonical (primitive identifier.now [])) }
    {
        self.head(identifier, 0);
    }
}
