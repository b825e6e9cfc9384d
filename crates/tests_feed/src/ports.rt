// A source's connections, one after the other.
use crate::loopback::{is_early, is_entry, open, user};
use operator_side::Stop;
use recorder::{Feed, FrameSource};
use std::io;
use std::io::{ErrorKind, Read, Write};
use std::net::{SocketAddr, TcpStream};
use std::test::Fail;
use std::thread::sleep;
use std::time::Duration;
use tcp_feed::TcpFeed;

// Whether a peer's connection is closed: what it said was never read.
fn is_closed(mut peer: TcpStream) -> bool {
    let _ = peer.set_read_timeout(Some(Duration::from_secs(1)));
    match peer.read(&mut [0; 1]) {
        Ok(count) => count == 0,
        Err(error) => error.kind() == ErrorKind::ConnectionReset,
    }
}

// Whether a report ends so.
fn is_told(feed: &TcpFeed<Vec<u8>>, end: &[u8]) -> bool {
    feed.reports().ends_with(end)
}

#[test]
fn a_second_connection_that_speaks_is_closed(rt: HostRuntime) -> Result<(), Fail> {
    let (mut feed, address) = open(&rt)?;
    let mut first = user(&rt, address, b"")?;
    assert!(rt; is_early(&mut feed));
    let second = user(&rt, address, b"mark 1/2/3\n")?;
    assert!(rt; is_early(&mut feed));
    assert!(rt; is_told(&feed, b" closed: another source is heard\n"));
    assert!(rt; is_closed(second));
    first.write_all(b"mark 1/2/3\n")?;
    assert!(rt; is_entry(&mut feed));
    Ok(())
}

// A source of which nothing came for ten seconds, but a line and a part of one; its connection, and one
// that has said nothing for as long.
fn silent(
    rt: &HostRuntime,
    feed: &mut TcpFeed<Vec<u8>>,
    address: SocketAddr,
) -> io::Result<(TcpStream, TcpStream)> {
    let first = user(rt, address, b"mark 1/2/3\nmark")?;
    let _ = is_entry(feed);
    let second = user(rt, address, b"")?;
    let _ = is_early(feed);
    sleep(rt, Duration::from_secs(10));
    Ok((first, second))
}

// A source of which nothing came for ten seconds gives way to one that speaks; one that says nothing
// for as long is closed.
#[test]
fn a_silent_source_gives_way(rt: HostRuntime) -> Result<(), Fail> {
    let (mut feed, address) = open(&rt)?;
    let older = silent(&rt, &mut feed, address)?;
    assert!(rt; is_early(&mut feed));
    assert!(rt; is_told(&feed, b" closed: nothing heard for 10 s\n"));
    let newer = user(&rt, address, b"mark 1/2/4\n")?;
    assert!(rt; is_entry(&mut feed));
    drop((older, newer));
    Ok(())
}

// A source that ends at a stop.
fn stopping(rt: &HostRuntime, stop: &Stop) -> Result<(TcpFeed<Vec<u8>>, SocketAddr), Fail> {
    let (mut feed, address) = open(rt)?;
    feed.end_at(stop.share()?);
    Ok((feed, address))
}

// Whether a source gives one entry of what a connection says that then closes, and goes on.
fn gives_one(
    rt: &HostRuntime,
    feed: &mut TcpFeed<Vec<u8>>,
    address: SocketAddr,
    said: &[u8],
) -> io::Result<bool> {
    drop(user(rt, address, said)?);
    Ok(is_entry(feed) && is_early(feed))
}

// A bad line ends its connection alone, where a stop ends the source: what came before it is given,
// and the next connection is heard.
#[test]
fn a_bad_line_ends_its_connection(rt: HostRuntime) -> Result<(), Fail> {
    let stop = Stop::new(rt.alloc())?;
    let (mut feed, address) = stopping(&rt, &stop)?;
    for _ in 0..2 {
        let said = b"mark 1/2/3\nnonsense\nmark 1/2/4\n";
        assert!(rt; gives_one(&rt, &mut feed, address, said)?);
        assert!(rt; is_told(&feed, b" ended at line 2: it says no entry\n"));
    }
    assert!(rt; feed.faults() == 0);
    Ok(())
}

// A stream's end isn't the source's, which goes on with the next connection until the stop, behind
// the lines that were read.
#[test]
fn a_source_ends_at_a_stop(rt: HostRuntime) -> Result<(), Fail> {
    let stop = Stop::new(rt.alloc())?;
    let (mut feed, address) = stopping(&rt, &stop)?;
    for line in [b"mark 1/2/3\n", b"mark 1/2/4\n"] {
        assert!(rt; gives_one(&rt, &mut feed, address, line)?);
    }
    stop.ask();
    assert!(rt; matches!(feed.next(), Feed::End));
    Ok(())
}
