// The door over TCP.
use crate::loopback::{door_at, limits, next, port, read_all, user};
use door_model::{Door, Served};
use link_model::{Link, Poll};
use octet_core::Offer;
use operator_side::{Once, Stop};
use std::alloc::{AllocError, Global};
use std::io;
use std::io::{ErrorKind, Read};
use std::net::{SocketAddr, TcpStream};
use std::test::Fail;
use std::time::Duration;
use tcp_door::{DoorLink, DoorPort, TcpDoor};

// Whether a door gives a user's connection that says this, and what it reports then.
fn is_served(rt: &HostRuntime, door: &mut TcpDoor<Vec<u8>>, said: &[u8]) -> Result<bool, Fail> {
    let mut peer = user(rt, door.address(), said)?;
    let is_heard = serve(door, said)?;
    let is_told = is_told(rt.alloc(), door, &peer)?;
    Ok(is_heard && is_told && read_all(rt.alloc(), &mut peer)?.is_empty())
}

// Serves a connection until it said so, and answers whether it did.
fn serve(door: &mut TcpDoor<Vec<u8>>, said: &[u8]) -> Result<bool, Fail> {
    let mut link = next(door)?;
    let mut into = *b"...";
    let heard = link.poll(&mut into);
    door.give_back(link, Served::PeerClosed);
    Ok(heard == Poll::Arrived(3) && into.as_slice() == said)
}

// Whether a door reports that this user came and closed.
fn is_told(alloc: Global, door: &TcpDoor<Vec<u8>>, peer: &TcpStream) -> Result<bool, Fail> {
    let told = lines(alloc, door.address(), peer.local_addr()?)?;
    Ok(door.reports().ends_with(told.as_bytes()))
}

// What a door reports of a user that closes.
fn lines(alloc: Global, door: SocketAddr, user: SocketAddr) -> Result<String, AllocError> {
    format!(in alloc;
        "door {door}: {user} connected\ndoor {door}: {user} ended: the user closed the connection\n"
    )
}

#[test]
fn a_door_gives_a_link_a_connection(rt: HostRuntime) -> Result<(), Fail> {
    let mut door = door_at(&rt, &port(&rt, 30, 3600)?)?;
    for said in [b"one", b"two"] {
        assert!(rt; is_served(&rt, &mut door, said)?);
    }
    assert_eq!(rt; door.faults(), 0);
    Ok(())
}

// What the polls of a link hear, and whether an offer is taken, once its station is to stop.
fn polls_at_a_stop(link: &mut DoorLink, stop: &Stop) -> ([Poll; 3], Offer) {
    let heard = link.poll(&mut [0; 1]);
    let nothing = link.poll(&mut [0; 1]);
    stop.ask();
    let closed = link.poll(&mut [0; 1]);
    ([heard, nothing, closed], link.offer(b"the last"))
}

// A door that ends at a stop.
fn stopping(rt: &HostRuntime, stop: &Stop) -> Result<TcpDoor<Vec<u8>>, Fail> {
    let mut door = door_at(rt, &port(rt, 30, 3600)?)?;
    door.end_at(stop.share()?);
    Ok(door)
}

// Whether a link ends once its station is to stop, and takes the last block.
fn ends_at(stop: &Stop, door: &mut TcpDoor<Vec<u8>>) -> Result<bool, Fail> {
    let mut link = next(door)?;
    let (polls, offer) = polls_at_a_stop(&mut link, stop);
    door.give_back(link, Served::PeerClosed);
    Ok(polls == [Poll::Arrived(1), Poll::Nothing, Poll::Closed] && offer == Offer::Whole)
}

#[test]
fn a_door_ends_at_a_stop(rt: HostRuntime) -> Result<(), Fail> {
    let stop = Stop::new(rt.alloc())?;
    let mut door = stopping(&rt, &stop)?;
    let peer = user(&rt, door.address(), b"a")?;
    assert!(rt; ends_at(&stop, &mut door)?);
    assert!(rt; door.next_link()?.is_none());
    drop(peer);
    Ok(())
}

#[test]
fn a_port_that_is_taken_is_an_error(rt: HostRuntime) -> Result<(), Fail> {
    let first = port(&rt, 30, 3600)?;
    assert!(rt; is_taken(&rt, first.address()));
    Ok(())
}

fn is_taken(rt: &HostRuntime, address: SocketAddr) -> bool {
    let (time, limits) = limits(rt, 30, 3600);
    match DoorPort::open(rt, rt.alloc(), address, time, limits) {
        Ok(_) => false,
        Err(error) => error.kind() == ErrorKind::AddrInUse,
    }
}

// A connection that says nothing holds no door: the one that speaks first is given, and one that is
// closed before its first octet is no link.
#[test]
fn the_connection_that_speaks_first_is_given(rt: HostRuntime) -> Result<(), Fail> {
    let mut door = door_at(&rt, &port(&rt, 30, 3600)?)?;
    let silent = user(&rt, door.address(), b"")?;
    drop(user(&rt, door.address(), b"")?);
    assert!(rt; is_served(&rt, &mut door, b"abc")?);
    assert_eq!(rt; lines_in(door.reports()), 2);
    drop(silent);
    Ok(())
}

fn lines_in(octets: &[u8]) -> u32 {
    let mut count = 0u32;
    for octet in octets {
        count = count.saturating_add(u32::from(*octet == b'\n'));
    }
    count
}

// Whether a door closes a connection that says this and then nothing for a second.
fn is_closed(rt: &HostRuntime, door: &mut TcpDoor<Vec<u8>>, said: &[u8]) -> Result<bool, Fail> {
    let peer = user(rt, door.address(), said)?;
    let mut link = next(door)?;
    let heard = (link.poll(&mut [0; 64]), polls_until_closed(&mut link));
    door.give_back(link, Served::PeerClosed);
    drop(peer);
    let is_told = door.reports().ends_with(b" ended: nothing heard for 1 s\n");
    Ok(is_told && heard == (Poll::Arrived(said.len()), Poll::Closed))
}

fn polls_until_closed<L: Link>(link: &mut L) -> Poll {
    for _ in 0..1_000 {
        match link.poll(&mut [0; 64]) {
            Poll::Nothing => {}
            answer => return answer,
        }
    }
    Poll::Nothing
}

// A context with interval 0.
const CONTEXT: &[u8] = b"\x02\0\0\0\0\0\0\x0cISP1\0\0\0\x01\0\0\0\x05";

// One second is the limit here, of a part of a context and behind a whole one with interval 0.
#[test]
fn a_silent_user_is_closed(rt: HostRuntime) -> Result<(), Fail> {
    let mut door = door_at(&rt, &port(&rt, 1, 1)?)?;
    assert!(rt; is_closed(&rt, &mut door, &CONTEXT[..5])?);
    assert!(rt; is_closed(&rt, &mut door, CONTEXT)?);
    Ok(())
}

// Whether a peer's connection is closed within five seconds.
fn is_gone(mut peer: TcpStream) -> io::Result<bool> {
    peer.set_read_timeout(Some(Duration::from_secs(5)))?;
    Ok(peer.read(&mut [0; 1])? == 0)
}

// One second is the limit here. The door looks once the first user is served.
#[test]
fn a_connection_that_says_nothing_is_closed(rt: HostRuntime) -> Result<(), Fail> {
    let mut door = door_at(&rt, &port(&rt, 1, 1)?)?;
    let silent = user(&rt, door.address(), b"")?;
    assert!(rt; is_closed(&rt, &mut door, b"x")?);
    assert!(rt; is_served(&rt, &mut door, b"abc")?);
    assert!(rt; is_gone(silent)?);
    Ok(())
}

// The only link of a door, and its user.
fn give_one(rt: &HostRuntime, door: &mut TcpDoor<Vec<u8>>) -> Result<(DoorLink, TcpStream), Fail> {
    door.give_at_most(1);
    let peer = user(rt, door.address(), b"x")?;
    Ok((next(door)?, peer))
}

// Whether a door reports that it gave its last link.
fn is_spent(door: &TcpDoor<Vec<u8>>) -> bool {
    door.reports()
        .ends_with(b" gave the last of its connections, and takes no more\n")
}

// Two doors of a port.
fn two_doors(rt: &HostRuntime) -> Result<(TcpDoor<Vec<u8>>, TcpDoor<Vec<u8>>), Fail> {
    let port = port(rt, 30, 3600)?;
    Ok((door_at(rt, &port)?, door_at(rt, &port)?))
}

// Doors of a port serve several users at once, and the port is closed behind the last of them.
#[test]
fn doors_share_a_port(rt: HostRuntime) -> Result<(), Fail> {
    let (mut one, mut two) = two_doors(&rt)?;
    let first = give_one(&rt, &mut one)?;
    let second = give_one(&rt, &mut two)?;
    assert!(rt; is_spent(&one) && is_spent(&two));
    assert!(rt; TcpStream::connect(&rt, one.address()).is_err());
    drop((first, second));
    Ok(())
}

// Whether a door at this port reports that the station began, at its first call.
fn tells_begin(rt: &HostRuntime, port: &DoorPort, begin: Once) -> Result<bool, Fail> {
    let stop = Stop::new(rt.alloc())?;
    stop.ask();
    let mut door = door_at(rt, port)?;
    door.end_at(stop);
    door.tell_begin(begin);
    let _ = door.next_link()?;
    Ok(door.reports().as_slice() == b"station: began\n".as_slice())
}

// The first call of the first door tells that the station began.
#[test]
fn the_beginning_is_told_once(rt: HostRuntime) -> Result<(), Fail> {
    let begin = Once::new(rt.alloc())?;
    let port = port(&rt, 30, 3600)?;
    assert!(rt; tells_begin(&rt, &port, begin.share()?)?);
    assert!(rt; !tells_begin(&rt, &port, begin)?);
    Ok(())
}
