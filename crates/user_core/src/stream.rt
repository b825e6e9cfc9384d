// The octets of a stream that make no message yet.
ghost use Rattle.std.specs.Prelude.{◌≡◌, ◌-◌, ◌≤◌, ◌++◌, [], length, drop, OnOk};
ghost use Rattle.isp1_tml.specs.Unread.{unread_of};
ghost use Rattle.user_core.specs.Hearing.{no_stream};

use isp1_tml::Messages;
use std::alloc::{AllocError, Global};
use std::marker::Model;

/// The octets of a stream that make no message yet, and how many came before them.
#[derive(Drop)]
pub struct Stream {
    rest: Vec<u8>,
    place: u64,
}

impl Model for Stream {
    ghost use Rattle.user_core.specs.Hearing.{Kept};

    ghost Value = { Kept };

    ghost view = { λ s. record { rest = s.rest.items; place = s.place } };
}

impl Stream {
    pub(crate) fn new(alloc: Global) -> Stream
        ensures { result ≡ no_stream }
    {
        Stream {
            rest: Vec::new(alloc),
            place: 0,
        }
    }

    pub(crate) fn place(&self) -> u64
        ensures { result ≡ self.now.place }
    {
        self.place
    }

    pub(crate) fn rest(&self) -> &[u8]
        ensures { result.now ≡ self.now.rest }
    {
        self.rest.as_slice()
    }

    pub(crate) fn append(&mut self, octets: &[u8]) -> Result<(), AllocError>
        ensures { OnOk result (self.new ≡ record self.old { rest = self.old.rest ++ octets.now }) }
    {
        self.rest.extend_from_slice(octets)
    }

    // The messages that came whole.
    pub(crate) fn messages(&self) -> Messages<'_>
        ensures { result ≡ unread_of self.now.place self.now.rest }
    {
        Messages::new(self.rest.as_slice(), self.place)
    }

    // Keeps the last `count` octets, which are at this place of the stream.
    pub(crate) fn keep(&mut self, place: u64, count: usize)
        ensures { self.new
            ≡ record { rest = drop (length self.old.rest - count) self.old.rest; place = place } }
    {
        let given = self.rest.len().saturating_sub(count);
        self.rest.copy_within(given.., 0);
        let left = self.rest.len() - given;
        self.rest.truncate(left);
        self.place = place;
    }
}
