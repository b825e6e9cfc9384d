// Many links at once, each on a thread of its own.
use crate::loopback::connect;
use link_model::{Link, Poll};
use octet_core::Offer;
use std::io;
use std::io::{Read, Write};
use std::net::TcpStream;
use std::test::Fail;
use std::thread::for_each_mut;
use tcp_link::TcpLink;

// A link and its peer, how many octets they send to and fro, and how many came back.
#[derive(Drop)]
struct Line {
    link: TcpLink,
    peer: TcpStream,
    trips: u32,
    made: u32,
}

impl Line {
    // One octet from the peer to the link, and back.
    fn trip(&mut self) -> io::Result<()> {
        let mut octet = [7];
        self.peer.write_all(&octet)?;
        let heard = self.link.poll(&mut octet);
        if heard == Poll::Arrived(1) && self.link.offer(&octet) == Offer::Whole {
            self.peer.read_exact(&mut octet)?;
            self.made = self.made.saturating_add(1);
        }
        Ok(())
    }

    // The trips, and then ten polls of nothing.
    fn go(&mut self) {
        for _ in 0..self.trips {
            let _ = self.trip();
        }
        for _ in 0..10 {
            if self.link.poll(&mut [0]) != Poll::Nothing {
                self.made = 0;
            }
        }
    }
}

#[test]
fn sixteen_idle_links_wait_beside_a_busy_one(rt: HostRuntime) -> Result<(), Fail> {
    let mut lines = Vec::new(rt.alloc());
    for trips in [1000, 0, 0, 0, 0, 0, 0, 0, 0, 0, 0, 0, 0, 0, 0, 0, 0] {
        let (link, peer) = connect(&rt, rt.alloc(), 10)?;
        lines.push(Line {
            link,
            peer,
            trips,
            made: 0,
        })?;
    }
    for_each_mut(&rt, &mut lines, 17, &|_, line: &mut Line| line.go());
    for line in &lines {
        assert_eq!(rt; line.made, line.trips);
        assert_eq!(rt; (line.link.faults(), line.link.stalls()), (0, 0));
    }
    Ok(())
}
