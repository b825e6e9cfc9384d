// Octets that came whole, and their messages.
ghost use Rattle.std.specs.Prelude.{◌≡◌, []};
ghost use Rattle.isp1_tml.specs.Given.{given};
ghost use Rattle.isp1_tml.specs.Unread.{unread_of, first_of, behind_first};

use crate::message::{Message, front_of, message_of};
use crate::tml_fault::{TmlFault, further};
use std::marker::Model;

/// The messages of octets, lent one after the other. A fault comes behind the messages before it,
/// and octets that are less than a message are left over.
#[derive(Drop)]
pub struct Messages<'a> {
    octets: &'a [u8],
    place: u64,
}

impl<'a> Model for Messages<'a> {
    ghost use Rattle.isp1_tml.specs.Unread.{Unread, unread_of};

    ghost Value = { Unread };

    ghost view = { λ m. unread_of m.place m.octets.now };
}

impl<'a> Messages<'a> {
    /// The messages of octets with `place` octets before them.
    pub fn new(octets: &'a [u8], place: u64) -> Messages<'a>
        ensures { result ≡ unread_of place octets.now }
    {
        Messages { octets, place }
    }

    /// How many octets stand before the next message.
    pub fn place(&self) -> u64
        ensures { result ≡ self.now.place }
    {
        self.place
    }

    /// The octets that weren't given. Behind the last message they are the rest.
    pub fn left(&self) -> &'a [u8]
        ensures { self.now.messages ≡ [] → result.now ≡ self.now.rest }
    {
        self.octets
    }

    /// The next message, which is then given; behind the last one the fault, if there is one.
    pub fn next_message(&mut self) -> Result<Option<Message<'a>>, TmlFault>
        ensures given { given result ≡ first_of self.old }
        ensures after { self.new ≡ behind_first self.old }
    {
        let Some(size) = front_of(self.octets, self.place)? else {
            return Ok(None);
        };
        let (message, left) = self.octets.split_at(size);
        self.octets = left;
        self.place = further(self.place, size);
        Ok(Some(message_of(message)))
    }
}
