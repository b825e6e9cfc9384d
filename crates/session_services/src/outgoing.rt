// The message of a service that is to be offered behind the block.
ghost use Rattle.std.specs.Prelude.{◌≡◌, ◌==◌, [], length, IfOk};
ghost use Rattle.session_services.specs.Whole.{AreWhole};

use ber_core::Writer;
use buffer_message::BufferMessage;
use octet_core::Memory;
use std::alloc::{AllocError, Global};
use std::marker::Model;

/// How many octets it may have: those of the longest transfer buffer.
pub const OUTGOING_ROOM: usize = 1_048_584;

/// A whole message, or no octets.
#[derive(Drop)]
pub struct Outgoing {
    writer: Writer,
}

impl Model for Outgoing {
    ghost use Rattle.std.specs.Prelude.{List, ℕ, ◌≡◌, ◌+◌, length};
    ghost use Rattle.session_services.specs.Whole.{AreWhole};

    ghost Value = { List ℕ };

    ghost view = { λ outgoing. outgoing.writer.octets };

    ghost invariant = { λ outgoing.
        (outgoing.writer.room + length outgoing.writer.octets ≡ 1048584)
        × AreWhole outgoing.writer.octets };
}

impl Outgoing {
    /// No octets, and room for one message.
    pub fn new(alloc: Global) -> Result<Outgoing, Memory>
        ensures { IfOk result (λ outgoing. outgoing ≡ []) }
    {
        let writer = Writer::new(alloc, OUTGOING_ROOM).map_err(AllocError::from)?;
        Ok(Outgoing { writer })
    }

    /// Whether there are no octets.
    pub fn is_empty(&self) -> bool
        ensures { result ≡ (length self.now == 0) }
    {
        self.writer.octets().is_empty()
    }

    /// The octets.
    pub fn octets(&self) -> &[u8]
        ensures octets { result.now ≡ self.now }
        ensures whole { AreWhole self.now }
    {
        self.writer.octets()
    }

    // A message alone.
    pub(crate) fn put(&mut self, message: &BufferMessage<'_>)
        requires { AreWhole message.now }
        ensures { self.new ≡ message.now }
    {
        let _short = message.length();
        self.writer.clear();
        message.put(&mut self.writer);
    }

    /// Removes all octets.
    pub fn clear(&mut self)
        ensures { self.new ≡ [] }
    {
        self.writer.clear();
    }
}
