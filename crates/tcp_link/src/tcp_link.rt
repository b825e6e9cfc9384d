// A link over a TCP stream.
ghost use Rattle.std.specs.Prelude.{◌≡◌, ◌≤◌, ◌==◌, ◌∷◌, [], None, Ok, true, false, IfOk};
ghost use Rattle.std.specs.Prelude.{OnOk, length};
ghost use Rattle.std.specs.Io.{ReadsAtMost, WritesAtMost};
ghost use Rattle.octet_core.specs.declared.offer.Offer.TheVariants.{Whole, Stalled};
ghost use Rattle.link_model.specs.declared.call.Call.TheVariants.{Offered};
ghost use Rattle.link_model.specs.Calls.{Tells};
ghost use Rattle.link_model.specs.Counts.{CountsWhere, offer_failed, offer_stalled};
ghost use Rattle.tcp_link.specs.LinkState.{unsent_now, IsStillLeft};

use bell::Waiter;
use link_model::{Link, Poll};
use octet_core::{Faults, Offer};
use std::alloc::{AllocError, Global};
use std::io;
use std::io::{ErrorKind, Read, Write};
use std::marker::Model;
use std::net::{Shutdown, TcpStream};
use std::os::fd::{AsRawFd, RawFd};
use std::time::Duration;

/// The octets of the longest block that a link takes: a message of the transport with its head.
pub const LONGEST_BLOCK: usize = 1_048_584;

// How often an offer waits at most for the octets of the block before, and for how many milliseconds.
const OFFER_WAITS: u32 = 2;

const OFFER_MILLIS: u64 = 5;

// How often `finish` waits at most, and for how many milliseconds: three seconds.
const LAST_WAITS: u32 = 300;

const LAST_MILLIS: u64 = 10;

/// What a link has besides its stream: what it waits with, and room for the longest block. One link
/// after the other may have it.
#[derive(Drop)]
pub struct LinkGear {
    waiter: Waiter,
    kept: Vec<u8>,
}

impl LinkGear {
    /// Gear with this waiter.
    pub fn new(alloc: Global, waiter: Waiter) -> Result<LinkGear, AllocError> {
        Ok(LinkGear {
            waiter,
            kept: Vec::with_capacity(alloc, LONGEST_BLOCK)?,
        })
    }

    /// Has its waits end at this socket too, until the socket is closed.
    pub fn watch(&self, socket: RawFd) -> io::Result<()> {
        self.waiter.watch(socket)
    }

    /// Waits for a socket or a ring, and at most so long.
    pub fn wait(&mut self, limit: Duration) -> io::Result<()> {
        self.waiter.wait(limit)
    }
}

/// A link over a TCP stream. It tells none of its calls.
///
/// Of the block that it took last it keeps what the system didn't take yet. Each call sends of that
/// what the system takes now, and an offer stalls until all of it is sent.
///
/// A poll waits at most as long as the link was told to: for octets, for a ring of its waiter, and for
/// room if octets are left to be sent. It waits only if the poll before it heard nothing and no block
/// was taken since. An offer waits until the octets of the block before are sent, for ten
/// milliseconds at most. So neither an idle nor a stalled connection spins, and nothing waits while
/// there is more to be done. A few rings may end a wait early; vain ones soon do no more, since the
/// waiter then asks for none.
#[derive(Drop)]
pub struct TcpLink {
    // (before the waiter, so that the stream is closed first and its waiter watches it no longer)
    stream: TcpStream,
    waiter: Waiter,
    wait: Duration,
    // The octets that the system didn't take at once, and how many of them it has taken since.
    kept: Vec<u8>,
    sent: usize,
    // Whether the last poll heard octets, or a block was taken since.
    is_busy: bool,
    faults: Faults,
    stalls: u64,
}

impl Model for TcpLink {
    ghost use Rattle.std.specs.Prelude.{◌≤◌, ◌-◌, length};
    ghost use Rattle.tcp_link.specs.LinkState.{LinkState};

    ghost Value = { LinkState };

    ghost view = { λ link. record {
      unsent = length link.kept.items - link.sent;
      faults = link.faults;
      stalls = link.stalls;
    } };

    ghost invariant = { λ link. link.sent ≤ length link.kept.items };
}

impl TcpLink {
    /// A link over this stream, whose polls wait with this waiter, and at most so long. It fails if
    /// the system refuses the stream's settings or the memory.
    pub fn new(
        alloc: Global,
        stream: TcpStream,
        waiter: Waiter,
        wait: Duration,
    ) -> io::Result<TcpLink>
        ensures { IfOk result (λ link. link ≡ record { unsent = 0; faults = 0; stalls = 0 }) }
    {
        stream.set_nodelay(true)?;
        stream.set_nonblocking(true)?;
        waiter.watch(stream.as_raw_fd())?;
        Ok(TcpLink {
            stream,
            waiter,
            wait,
            kept: Vec::with_capacity(alloc, LONGEST_BLOCK)?,
            sent: 0,
            is_busy: false,
            faults: Faults::new(),
            stalls: 0,
        })
    }

    /// A link over this stream, whose calls don't wait, with this gear; its polls wait at most so
    /// long. If the system refuses the stream's settings, a block takes longer to arrive.
    pub fn over(stream: TcpStream, gear: LinkGear, wait: Duration) -> TcpLink
        ensures { result ≡ record { unsent = 0; faults = 0; stalls = 0 } }
    {
        let LinkGear { waiter, mut kept } = gear;
        kept.clear();
        let _ = stream.set_nodelay(true);
        let _ = waiter.watch(stream.as_raw_fd());
        TcpLink {
            stream,
            waiter,
            wait,
            kept,
            sent: 0,
            is_busy: false,
            faults: Faults::new(),
            stalls: 0,
        }
    }

    /// Closes the stream, and returns the gear.
    pub fn into_gear(self) -> LinkGear {
        let TcpLink { waiter, kept, .. } = self;
        LinkGear { waiter, kept }
    }

    // Sends of the kept octets what the system takes now, and answers whether all of them are sent.
    fn send_rest(&mut self) -> io::Result<bool>
        ensures all { IfOk result (λ all. all ≡ (self.new.unsent == 0)) }
        ensures less { self.new.unsent ≤ self.old.unsent }
        ensures rest { self.new ≡ unsent_now self.old self.new.unsent }
    {
        let rest = &self.kept[self.sent..];
        if rest.is_empty() {
            return Ok(true);
        }
        self.sent += write_some(&mut self.stream, rest)?;
        Ok(self.sent == self.kept.len())
    }

    // Hands a block to the system, and keeps what it doesn't take at once.
    fn send_block(&mut self, octets: &[u8]) -> io::Result<()>
        requires { self.old.unsent ≡ 0 }
        ensures within { OnOk result (self.new.unsent ≤ length octets.now) }
        ensures rest { self.new ≡ unsent_now self.old self.new.unsent }
    {
        if octets.len() > LONGEST_BLOCK {
            return Err(ErrorKind::InvalidInput.into());
        }
        self.kept.clear();
        self.sent = 0;
        let count = write_some(&mut self.stream, octets)?;
        self.kept.extend_from_slice(&octets[count..])?;
        Ok(())
    }

    // Sends the kept octets within so many waits of so many milliseconds, and answers whether all of
    // them are sent.
    fn send_all(&mut self, waits: u32, millis: u64) -> io::Result<bool>
        ensures all { IfOk result (λ all. all ≡ (self.new.unsent == 0)) }
        ensures less { self.new.unsent ≤ self.old.unsent }
        ensures rest { self.new ≡ unsent_now self.old self.new.unsent }
    {
        for _ in 0..waits {
            if self.send_rest()? {
                return Ok(true);
            }
            self.waiter.wait_for_ring(Duration::from_millis(millis))?;
        }
        self.send_rest()
    }

    // Offers a block, and answers whether it was taken.
    fn try_offer(&mut self, octets: &[u8]) -> io::Result<bool>
        ensures taken { result ≡ Ok true → self.new.unsent ≤ length octets.now }
        ensures left { result ≡ Ok false → IsStillLeft self.old.unsent self.new.unsent }
        ensures rest { self.new ≡ unsent_now self.old self.new.unsent }
    {
        if !self.send_all(OFFER_WAITS, OFFER_MILLIS)? {
            return Ok(false);
        }
        self.send_block(octets)?;
        self.is_busy = true;
        self.waiter.found_something();
        Ok(true)
    }

    // Sends what is left of the last block, and reads what arrived.
    fn send_and_read(&mut self, into: &mut [u8]) -> io::Result<usize>
        ensures bound { ReadsAtMost result into.new }
        ensures less { self.new.unsent ≤ self.old.unsent }
        ensures rest { self.new ≡ unsent_now self.old self.new.unsent }
    {
        self.send_rest()?;
        self.stream.read(into)
    }

    // Does the same, and if nothing has arrived and it may wait, once more after a wait.
    fn try_poll(&mut self, into: &mut [u8]) -> io::Result<usize>
        ensures bound { ReadsAtMost result into.new }
        ensures less { self.new.unsent ≤ self.old.unsent }
        ensures rest { self.new ≡ unsent_now self.old self.new.unsent }
    {
        match self.send_and_read(into) {
            Err(error) if is_early(&error) && !self.is_busy => {}
            answer => return answer,
        }
        self.waiter.wait_for_ring(self.wait)?;
        self.send_and_read(into)
    }

    /// Sends what is left of the last block, within three seconds, and shuts the own side of the
    /// stream. What can't be sent is given up.
    pub fn finish(&mut self)
        ensures less { self.new.unsent ≤ self.old.unsent }
        ensures rest { self.new ≡ unsent_now self.old self.new.unsent }
    {
        let _ = self.send_all(LAST_WAITS, LAST_MILLIS);
        let _ = self.stream.shutdown(Shutdown::Write);
    }

    /// How often a call has failed.
    pub fn faults(&self) -> u64
        ensures { result ≡ self.now.faults }
    {
        self.faults.count()
    }

    /// How often an offer has stalled.
    pub fn stalls(&self) -> u64
        ensures { result ≡ self.now.stalls }
    {
        self.stalls
    }
}

// Writes what the system takes now, and answers how many octets it took.
fn write_some(stream: &mut TcpStream, octets: &[u8]) -> io::Result<usize>
    ensures { WritesAtMost result octets.now }
{
    match stream.write(octets) {
        Err(error) if is_early(&error) => Ok(0),
        answer => answer,
    }
}

// Whether a call came to nothing yet.
fn is_early(error: &io::Error) -> bool {
    matches!(error.kind(), ErrorKind::WouldBlock | ErrorKind::Interrupted)
}

impl Link for TcpLink {
    ghost use Rattle.std.specs.Prelude.{None};

    ghost calls = { λ link. None };

    ghost faults = { λ link. link.faults };

    ghost stalls = { λ link. link.stalls };

    /// Reads once. A poll without space hears nothing.
    fn poll(&mut self, into: &mut [u8]) -> Poll {
        if into.is_empty() {
            return Poll::Nothing;
        }
        match self.try_poll(into) {
            Ok(0) => Poll::Closed,
            Ok(count) => {
                self.is_busy = true;
                self.waiter.found_something();
                Poll::Arrived(count)
            }
            Err(error) if is_early(&error) => {
                self.is_busy = false;
                Poll::Nothing
            }
            Err(_) => {
                let _ = self.faults.fail::<()>();
                Poll::Failed
            }
        }
    }

    /// Takes the block where the one before is sent. A block of more than `LONGEST_BLOCK` octets is
    /// a fault.
    fn offer(&mut self, octets: &[u8]) -> Offer
        ensures told { Tells None None (Offered octets.now result ∷ []) }
        ensures faults { CountsWhere (offer_failed result) self.old.faults self.new.faults }
        ensures stalls { CountsWhere (offer_stalled result) self.old.stalls self.new.stalls }

        // What isn't sent: octets of the block that was taken, or of the one before.
        ensures taken { result ≡ Whole → self.new.unsent ≤ length octets.now }
        ensures left { result ≡ Stalled → IsStillLeft self.old.unsent self.new.unsent }
    {
        match self.try_offer(octets) {
            Ok(true) => Offer::Whole,
            Ok(false) => {
                self.stalls = self.stalls.saturating_add(1);
                Offer::Stalled
            }
            Err(_) => {
                let _ = self.faults.fail::<()>();
                Offer::Failed
            }
        }
    }
}
