// The link over TCP, with a peer at the other end of the stream.
use crate::loopback::{connect, read_all};
use link_model::{Link, Poll};
use octet_core::Offer;
use std::alloc::{AllocError, Global};
use std::io;
use std::io::Write;
use std::net::{Shutdown, TcpStream};
use std::rt::Clock;
use std::test::Fail;
use std::thread::{Threads, join};
use std::time::{Duration, Instant};
use tcp_link::{LONGEST_BLOCK, TcpLink};

// Through the bound alone, as a session polls.
fn poll_two<L: Link>(link: &mut L) -> (Poll, [u8; 2]) {
    let mut into = *b"..";
    let answer = link.poll(&mut into);
    (answer, into)
}

// Through the bound alone, as a session offers.
fn offer<L: Link>(link: &mut L, octets: &[u8]) -> Offer {
    link.offer(octets)
}

#[test]
fn octets_arrive_as_they_come_until_the_peer_shuts(rt: HostRuntime) -> Result<(), Fail> {
    let (mut link, mut peer) = connect(&rt, rt.alloc(), 10)?;
    assert_eq!(rt; poll_two(&mut link).0, Poll::Nothing);
    for octet in *b"octets" {
        peer.write_all(&[octet])?;
        assert_eq!(rt; poll_two(&mut link), (Poll::Arrived(1), [octet, b'.']));
        assert_eq!(rt; poll_two(&mut link).0, Poll::Nothing);
    }
    peer.write_all(b"xyz")?;
    peer.shutdown(Shutdown::Write)?;
    for heard in [
        (Poll::Arrived(2), *b"xy"),
        (Poll::Arrived(1), *b"z."),
        (Poll::Closed, *b".."),
    ] {
        assert_eq!(rt; poll_two(&mut link), heard);
    }
    assert_eq!(rt; offer(&mut link, b"the last"), Offer::Whole);
    link.finish();
    assert_eq!(rt;
        read_all(rt.alloc(), &mut peer)?.as_slice(),
        b"the last".as_slice()
    );
    assert_eq!(rt; (link.faults(), link.stalls()), (0, 0));
    Ok(())
}

// A longest block, of octets that no shift leaves as they are.
fn longest_block(alloc: Global) -> Result<Vec<u8>, AllocError> {
    let mut block = Vec::with_capacity(alloc, LONGEST_BLOCK)?;
    for place in 0..LONGEST_BLOCK {
        block.push((place % 251) as u8)?;
    }
    Ok(block)
}

// Offers blocks until ten offers in turn stall, and answers how many were taken.
fn fill(link: &mut TcpLink, block: &[u8]) -> usize {
    let mut taken = 0usize;
    let mut stalled = 0u32;
    for _ in 0..1000 {
        match offer(link, block) {
            Offer::Whole => {
                taken = taken.saturating_add(1);
                stalled = 0;
            }
            _ => stalled = stalled.saturating_add(1),
        }
        if stalled == 10 {
            break;
        }
    }
    taken
}

// Offers for a second, and answers how many offers stalled.
fn offer_for_a_second<R: Clock>(rt: &R, link: &mut TcpLink, block: &[u8]) -> io::Result<u64> {
    let start = Instant::now(rt)?;
    let mut stalled = 0u64;
    for _ in 0..10_000 {
        if start.elapsed(rt)? >= Duration::from_secs(1) {
            break;
        }
        if offer(link, block) == Offer::Stalled {
            stalled = stalled.saturating_add(1);
        }
    }
    Ok(stalled)
}

// Takes the rest from a link that finishes, by a peer that reads until then.
fn finish_and_read<R: Threads + Sync>(
    rt: &R,
    alloc: Global,
    link: &mut TcpLink,
    peer: &mut TcpStream,
) -> io::Result<Vec<u8>> {
    join(rt, move || link.finish(), move || read_all(alloc, peer)).1
}

// The peer reads nothing for a second. The link's offers stall, which takes ten milliseconds each,
// and it still hears the peer. Once the peer reads again, what was taken arrives, whole and once.
#[test]
fn a_link_that_stalls_for_a_second_goes_on(rt: HostRuntime) -> Result<(), Fail> {
    let (mut link, mut peer) = connect(&rt, rt.alloc(), 10)?;
    let block = longest_block(rt.alloc())?;
    let taken = fill(&mut link, &block);
    let before = link.stalls();
    let stalled = offer_for_a_second(&rt, &mut link, &block)?;
    assert!(rt; stalled > 10 && stalled <= 101, "{stalled} stalls");
    peer.write_all(b"ab")?;
    assert_eq!(rt; poll_two(&mut link), (Poll::Arrived(2), *b"ab"));
    let heard = finish_and_read(&rt, rt.alloc(), &mut link, &mut peer)?;
    assert_eq!(rt; heard.len().div_ceil(LONGEST_BLOCK), taken);
    for piece in heard.chunks(LONGEST_BLOCK) {
        assert!(rt; piece == block.as_slice());
    }
    assert_eq!(rt;
        (link.faults(), link.stalls().checked_sub(before)),
        (0, Some(stalled))
    );
    Ok(())
}

#[test]
fn a_peer_that_never_reads_is_given_up(rt: HostRuntime) -> Result<(), Fail> {
    let (mut link, peer) = connect(&rt, rt.alloc(), 1)?;
    fill(&mut link, &longest_block(rt.alloc())?);
    let start = Instant::now(&rt)?;
    link.finish();
    let elapsed = start.elapsed(&rt)?;
    assert!(rt; elapsed >= Duration::from_millis(300) && elapsed < Duration::from_secs(30));
    drop(peer);
    Ok(())
}

#[test]
fn a_reset_is_a_fault_of_each_call(rt: HostRuntime) -> Result<(), Fail> {
    let (mut link, peer) = connect(&rt, rt.alloc(), 10)?;
    assert_eq!(rt; offer(&mut link, b"unread"), Offer::Whole);
    drop(peer);
    assert_eq!(rt; poll_two(&mut link).0, Poll::Failed);
    assert_eq!(rt; offer(&mut link, b"unsent"), Offer::Failed);
    assert_eq!(rt; (link.faults(), link.stalls()), (2, 0));
    Ok(())
}
