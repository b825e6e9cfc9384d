// The door in memory, asked for links and given them back as by a worker.
use door_model::{Answer, Door, MemoryDoor, Served};
use link_model::{Call, Heard, Link, MemoryLink, Poll};
use std::test::Fail;

// Serves links until none comes or the door fails.
fn serve_all<D: Door>(door: &mut D) {
    for _ in 0..10 {
        let Ok(Some(mut link)) = door.next_link() else {
            break;
        };
        let end = match link.poll(&mut [0; 4]) {
            Poll::Closed => Served::PeerClosed,
            _ => Served::LinkFault,
        };
        door.give_back(link, end);
    }
}

#[test]
fn a_door_gives_what_came_and_tells_each_link_and_its_end(rt: HostRuntime) -> Result<(), Fail> {
    let mut door = MemoryDoor::new(rt.alloc(), vec![in rt.alloc(); 4]?);
    let (mut shut, mut broken) = (
        MemoryLink::new(rt.alloc(), Vec::new(rt.alloc())),
        MemoryLink::new(rt.alloc(), Vec::new(rt.alloc())),
    );
    shut.shut();
    broken.break_poll();
    door.arrive(shut)?;
    door.arrive(broken)?;
    for answer in [Answer::NoMore, Answer::Failed] {
        serve_all(&mut door);
        assert_eq!(rt; door.last(), Some(answer));
    }
    assert_eq!(rt; door.faults(), 1);
    let [first, second] = door.back() else {
        return Err("not two links".into());
    };
    assert_eq!(rt;
        (first.served, second.served),
        (Served::PeerClosed, Served::LinkFault)
    );
    for (back, closed) in [(first, true), (second, false)] {
        let Some([Call::Polled { space: 4, heard }]) = back.link.told() else {
            return Err("not one poll".into());
        };
        assert_eq!(rt; matches!(heard, Heard::Closed), closed);
    }
    Ok(())
}
