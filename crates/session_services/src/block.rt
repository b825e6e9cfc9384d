// The block that is to be offered.
ghost use Rattle.std.specs.Prelude.{◌≡◌, ◌==◌, ◌≤◌, ◌+◌, ◌++◌, true, [], length, IfOk};
ghost use Rattle.ber_shape.specs.Members.{structured};
ghost use Rattle.isp1_tml.specs.Message.{heartbeat, spelling};
ghost use Rattle.session_services.specs.Returns.{return_message, is_short};
ghost use Rattle.session_services.specs.Room.{HasOne};
ghost use Rattle.session_services.specs.Whole.{AreWhole};
ghost use Rattle.isp1_tml.specs.Message.{Content};

use ber_core::Writer;
use ber_shape::Pdu;
use isp1_tml::{head, laws};
use octet_core::Memory;
use std::alloc::{AllocError, Global};
use std::marker::Model;

/// How many octets a block may have.
pub const BLOCK_ROOM: usize = 4_096;

/// Whole messages that are offered as one piece, or no octets.
#[derive(Drop)]
pub struct Block {
    writer: Writer,
}

impl Model for Block {
    ghost use Rattle.std.specs.Prelude.{List, ℕ, ◌≡◌, ◌+◌, length};
    ghost use Rattle.session_services.specs.Whole.{AreSmall};

    ghost Value = { List ℕ };

    ghost view = { λ block. block.writer.octets };

    ghost invariant = { λ block. (block.writer.room + length block.writer.octets ≡ 4096)
        × AreSmall block.writer.octets };
}

impl Block {
    /// No octets, and room for a round's messages.
    pub fn new(alloc: Global) -> Result<Block, Memory>
        ensures { IfOk result (λ block. block ≡ []) }
    {
        let writer = Writer::new(alloc, BLOCK_ROOM).map_err(AllocError::from)?;
        Ok(Block { writer })
    }

    /// Whether there are no octets.
    pub fn is_empty(&self) -> bool
        ensures { result ≡ (length self.now == 0) }
    {
        self.writer.octets().is_empty()
    }

    /// The octets.
    #[tactic(auto, using(crate::specs::Whole::whole_small))]
    pub fn octets(&self) -> &[u8]
        ensures octets { result.now ≡ self.now }
        ensures whole { AreWhole self.now }
    {
        self.writer.octets()
    }

    /// Where it is one message alone, that has at most 1,032 octets, as each of its messages has.
    pub fn holds_small_messages(&self)
        ensures { (message : Content) → self.now ≡ spelling message → HasOne self.now }
    {
        laws::one_reading();
        laws::spelled_is_read();
        let _octets = self.writer.octets();
    }

    /// Removes all octets.
    pub fn clear(&mut self)
        ensures { self.new ≡ [] }
    {
        self.writer.clear();
    }

    /// A heartbeat alone.
    pub fn put_heartbeat(&mut self)
        ensures { self.new ≡ spelling heartbeat }
    {
        self.writer.clear();
        self.writer.raw(&head(3, 0));
    }

    /// A message behind those that are there.
    #[tactic(auto, using(crate::proofs::Fits::few_octets))]
    pub fn add<'a, P: Pdu<'a>>(&mut self, answer: &P)
        requires fits { P.Members.shape.Fits (P.Members.seen answer.now) }
        requires short { is_short (structured P.tag P.Members.shape P.is_tag) ≡ true }
        requires room { length self.old ≤ 3064 }
        ensures added { self.new ≡ self.old
            ++ return_message (structured P.tag P.Members.shape P.is_tag)
            (P.Members.seen answer.now) }
        ensures few { length self.new ≤ length self.old + 1032 }
    {
        self.writer.raw(&head(1, answer.length() as u32));
        answer.encode(&mut self.writer);
    }

    /// A return alone.
    pub fn put<'a, P: Pdu<'a>>(&mut self, answer: &P)
        requires fits { P.Members.shape.Fits (P.Members.seen answer.now) }
        requires short { is_short (structured P.tag P.Members.shape P.is_tag) ≡ true }
        ensures { self.new ≡ return_message (structured P.tag P.Members.shape P.is_tag)
            (P.Members.seen answer.now) }
    {
        self.writer.clear();
        self.add(answer);
    }
}
