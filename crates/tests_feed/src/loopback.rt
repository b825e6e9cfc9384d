// A source on a port of the system's, and what it answers.
use operator_side::{Listening, Place, Uptime};
use record_form::Entry;
use recorder::{Feed, FrameSource};
use std::alloc::AllocError;
use std::io;
use std::io::Write;
use std::net::{SocketAddr, TcpStream};
use std::test::Fail;
use tcp_feed::TcpFeed;

// How often a source is called at most until what was sent has come.
const PATIENCE: u32 = 1_000_000;

// What listens on a port of the system's, and its address.
fn listen(rt: &HostRuntime) -> Result<(Listening, SocketAddr), Fail> {
    let listening = Listening::open(rt, Place::Port("127.0.0.1:0".parse()?))?;
    match listening.place() {
        Place::Port(address) => {
            let address = *address;
            Ok((listening, address))
        }
        Place::Path(_) => Err("no port".into()),
    }
}

/// A source on a port of the system's, which reports to octets, and its address.
pub fn open(rt: &HostRuntime) -> Result<(TcpFeed<Vec<u8>>, SocketAddr), Fail> {
    let (listening, address) = listen(rt)?;
    let alloc = rt.alloc();
    let feed = TcpFeed::new(alloc, listening, Uptime::new(rt), Vec::new(alloc))?;
    Ok((feed, address))
}

fn word(feed: &Feed) -> &'static str {
    match feed {
        Feed::Entry(Entry::Frame { .. }) => "frame ",
        Feed::Entry(Entry::LossOfSync { .. }) => "loss ",
        Feed::Entry(Entry::Production { .. }) => "production ",
        Feed::Entry(Entry::Seal { .. }) => "mark ",
        Feed::NotYet => "",
        Feed::End => "end ",
        Feed::Failed => "failed ",
        Feed::Memory => "memory ",
    }
}

// Appends a word for each answer, until it is the end or a fault, or for so many calls.
fn hear<F: FrameSource>(feed: &mut F, calls: u32, words: &mut String) -> Result<(), AllocError> {
    for _ in 0..calls {
        if words.ends_with("end ") || words.ends_with("failed ") {
            break;
        }
        words.push_str(word(&feed.next()))?;
    }
    Ok(())
}

/// Sends two pieces to a source, calls it behind each, and closes: what it answers until the end
/// or a fault, and at one call more.
pub fn answers(
    rt: &HostRuntime,
    feed: &mut TcpFeed<Vec<u8>>,
    address: SocketAddr,
    pieces: (&[u8], &[u8]),
) -> io::Result<String> {
    let mut words = String::new(rt.alloc());
    let mut peer = TcpStream::connect(rt, address)?;
    peer.write_all(pieces.0)?;
    hear(feed, 10, &mut words)?;
    peer.write_all(pieces.1)?;
    drop(peer);
    hear(feed, PATIENCE, &mut words)?;
    words.push_str(word(&feed.next()))?;
    Ok(words)
}

/// The connection of a peer that says this.
pub fn user(rt: &HostRuntime, address: SocketAddr, said: &[u8]) -> io::Result<TcpStream> {
    let mut peer = TcpStream::connect(rt, address)?;
    peer.write_all(said)?;
    Ok(peer)
}

/// Whether nothing has come yet.
pub fn is_early<F: FrameSource>(feed: &mut F) -> bool {
    matches!(feed.next(), Feed::NotYet)
}

/// Whether an entry has come.
pub fn is_entry<F: FrameSource>(feed: &mut F) -> bool {
    matches!(feed.next(), Feed::Entry(_))
}
