// Runs of a station.
use crate::doubles::{clock_of, run_over};
use crate::staged::{POLLED, Role, Staged};
use door_model::MemoryDoor;
use link_model::MemoryLink;
use octet_core::Octets;
use std::alloc::{AllocError, Global};
use std::sync::atomic::AtomicU64;
use std::test::Fail;

// A context with an interval of 30 seconds and a dead factor of 5 (CCSDS 913.1-B).
const CONTEXT: &str = "020000000000000c4953503100000001001e0005";

// A BIND of version 5 to the site's instance, and a START of all of its frames (CCSDS 911.1-B).
const BIND: &str = "010000000000005dbf645a80001a034d4f431a05504f5254310201000201053044\
    310e300c06072b7004030102341a0131310e300c06072b7004030102351a0150\
    310e300c06072b7004030102261a01313112301006072b7004030102161a056f6e6c6331";

const START: &str = "010000000000000ea00c800002010080008000020102";

// A link to which these messages come, one a poll.
fn link_of(alloc: Global, messages: &[&str]) -> Result<MemoryLink, AllocError> {
    let mut link = MemoryLink::new(alloc, Vec::new(alloc));
    for digits in messages {
        let Ok(octets) = hex::decode(alloc, *digits) else {
            return Err(AllocError);
        };
        link.arrive(Octets::from_vec(alloc, octets)?)?;
    }
    Ok(link)
}

// A door that gives one link, to which these messages come.
fn door_of<'a>(
    alloc: Global,
    stage: &'a AtomicU64,
    role: Role,
    messages: &[&str],
) -> Result<MemoryDoor<Staged<'a>>, AllocError> {
    let link = link_of(alloc, messages)?;
    let mut door = MemoryDoor::new(alloc, Vec::new(alloc));
    door.arrive(Staged { stage, role, link })?;
    Ok(door)
}

// Between the user's START and its close nothing comes in two polls.
#[test]
fn one_user_starts_and_closes(rt: HostRuntime) -> Result<(), Fail> {
    let stage = AtomicU64::new(POLLED);
    let messages = [CONTEXT, BIND, START, "", ""];
    let mut doors = [door_of(rt.alloc(), &stage, Role::Second, &messages)?];
    let mut clocks = [clock_of(rt.alloc())];
    let (exit, output) = run_over(&rt, rt.alloc(), &mut doors, &mut clocks)?;
    assert_eq!(rt; exit, 0);
    assert_eq!(rt;
        output.written(),
        b"stored 1\nradiated 0\ndoor 1 links 1\n".as_slice()
    );
    Ok(())
}

// The link of each door waits until the other one's was served so far: doors that are served one
// after the other, in whichever order, spend their turns.
#[test]
fn two_doors_are_served_at_once(rt: HostRuntime) -> Result<(), Fail> {
    let stage = AtomicU64::new(0);
    let mut doors = [
        door_of(rt.alloc(), &stage, Role::First, &[])?,
        door_of(rt.alloc(), &stage, Role::Second, &[CONTEXT, BIND])?,
    ];
    let mut clocks = [clock_of(rt.alloc()), clock_of(rt.alloc())];
    let (exit, output) = run_over(&rt, rt.alloc(), &mut doors, &mut clocks)?;
    assert_eq!(rt; exit, 0);
    assert_eq!(rt;
        output.written(),
        b"stored 1\nradiated 0\ndoor 1 links 1\ndoor 2 links 1\n".as_slice()
    );
    Ok(())
}
