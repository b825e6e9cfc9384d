// A journal of octets behind gates, at faults, stops and files.
use disk_model::{Disk, FileDisk, MemoryDisk, Orders, Pick, Stop};
use octet_core::{FailingCalls, Octets};
use sample_disk::{GateFault, Gates};
use std::alloc::{AllocError, Global};
use std::fs;
use std::process::Abort;
use std::test::Fail;

const CAPACITY: u64 = 100;

// One octet, and behind the gate that isn't open what looks like two more.
const STALE_TAIL: &[u8] = b"\xa5\x01\x5a\xa5\x02\xa5\x03";

// The same with an octet 7 behind the first one.
const ADDED: &[u8] = b"\xa5\x01\xa5\x07\x00\xa5\x03";

fn recover<D: Disk>(alloc: Global, disk: D) -> Result<(Gates<D>, Octets), GateFault> {
    match Gates::recover(alloc, disk) {
        Ok(recovered) => Ok(recovered),
        Err((fault, _)) => Err(fault),
    }
}

// Recovers the octets of a disk, and adds one more.
fn add_to<D: Disk>(alloc: Global, disk: D, octet: u8) -> Result<(D, Octets), GateFault> {
    let (mut gates, octets) = recover(alloc, disk)?;
    gates.add(octet, CAPACITY)?;
    Ok((gates.into_disk(), octets))
}

// The gates of a file.
fn gates_of(alloc: Global, file: &[u8]) -> Result<Gates<MemoryDisk>, GateFault> {
    match MemoryDisk::holding(alloc, file) {
        Ok(disk) => {
            let (gates, _) = recover(alloc, disk)?;
            Ok(gates)
        }
        Err(_) => Err(GateFault::Memory),
    }
}

// Adds an octet within a capacity: the answer, where the gate stands then, how many calls were
// made, the recovery's among them, and whether the disk holds this then.
fn answer(
    alloc: Global,
    capacity: u64,
    content: &[u8],
) -> Result<(Result<(), GateFault>, u64, usize, bool), GateFault> {
    let mut gates = gates_of(alloc, STALE_TAIL)?;
    let answer = gates.add(7, capacity);
    let holds = gates.disk().content() == content;
    Ok((answer, gates.gate(), gates.disk().log().len(), holds))
}

#[test]
fn an_octet_costs_four_calls_and_a_recovery_one(rt: HostRuntime) {
    for (capacity, content, expected) in [
        (CAPACITY, ADDED, (Ok(()), 4, 5, true)),
        (5, ADDED, (Ok(()), 4, 5, true)),
        (4, STALE_TAIL, (Err(GateFault::Full), 2, 1, true)),
    ] {
        assert_eq!(rt; answer(rt.alloc(), capacity, content), Ok(expected));
    }
}

// A call that fails, if it isn't 0, or a stop; and whether the octet is in the file then. Of a
// call that fails nothing is left: the fourth one fails when the gate is open already. Where
// the disk stops at the gate or behind it, its pick keeps the gate or not.
const FAULTS: [(u64, Option<Stop>, bool); 16] = [
    (1, None, false),
    (2, None, false),
    (3, None, false),
    (4, None, true),
    (
        0,
        Some(Stop {
            calls: 1,
            pick: Pick::Old,
        }),
        false,
    ),
    (
        0,
        Some(Stop {
            calls: 1,
            pick: Pick::New,
        }),
        false,
    ),
    (
        0,
        Some(Stop {
            calls: 1,
            pick: Pick::Torn,
        }),
        false,
    ),
    (
        0,
        Some(Stop {
            calls: 2,
            pick: Pick::Old,
        }),
        false,
    ),
    (
        0,
        Some(Stop {
            calls: 2,
            pick: Pick::New,
        }),
        false,
    ),
    (
        0,
        Some(Stop {
            calls: 2,
            pick: Pick::Torn,
        }),
        false,
    ),
    (
        0,
        Some(Stop {
            calls: 3,
            pick: Pick::Old,
        }),
        false,
    ),
    (
        0,
        Some(Stop {
            calls: 3,
            pick: Pick::New,
        }),
        true,
    ),
    (
        0,
        Some(Stop {
            calls: 3,
            pick: Pick::Torn,
        }),
        false,
    ),
    (
        0,
        Some(Stop {
            calls: 4,
            pick: Pick::Old,
        }),
        false,
    ),
    (
        0,
        Some(Stop {
            calls: 4,
            pick: Pick::New,
        }),
        true,
    ),
    (
        0,
        Some(Stop {
            calls: 4,
            pick: Pick::Torn,
        }),
        false,
    ),
];

fn orders(alloc: Global, call: u64, stop: Option<Stop>) -> Result<Orders, AllocError> {
    Ok(Orders {
        failing: FailingCalls::new(vec![in alloc; call]?),
        stop,
    })
}

// A disk at which an octet wasn't added, since it was steered so, and started again.
fn faulty(alloc: Global, orders: Orders) -> Result<MemoryDisk, GateFault> {
    let mut gates = gates_of(alloc, STALE_TAIL)?;
    gates.steer(orders);
    let fault = gates.add(7, CAPACITY);
    let again = gates.add(7, CAPACITY);
    let mut disk = gates.into_disk();
    let is_so = fault == Err(GateFault::Disk) && again == Err(GateFault::Stale);
    if is_so && disk.restart().is_ok() {
        Ok(disk)
    } else {
        Err(GateFault::Memory)
    }
}

// What such a disk holds: the octets that are recovered, and those behind one more.
fn holds(alloc: Global, disk: MemoryDisk, before: &[u8], after: &[u8]) -> Result<bool, GateFault> {
    let (disk, recovered) = add_to(alloc, disk, 8)?;
    let (_, more) = recover(alloc, disk)?;
    Ok(recovered.as_slice() == before && more.as_slice() == after)
}

fn goes_on(
    alloc: Global,
    call: u64,
    stop: Option<Stop>,
    is_added: bool,
) -> Result<bool, GateFault> {
    match orders(alloc, call, stop) {
        Ok(orders) => {
            let disk = faulty(alloc, orders)?;
            if is_added {
                holds(alloc, disk, b"\x01\x07", b"\x01\x07\x08")
            } else {
                holds(alloc, disk, b"\x01", b"\x01\x08")
            }
        }
        Err(_) => Err(GateFault::Memory),
    }
}

#[test]
fn after_each_fault_octets_are_recovered_and_added(rt: HostRuntime) {
    for (call, stop, is_added) in FAULTS {
        assert_eq!(rt; goes_on(rt.alloc(), call, stop, is_added), Ok(true));
    }
}

fn refusal(alloc: Global, file: &[u8]) -> Option<GateFault> {
    gates_of(alloc, file).err()
}

// Files without a closed gate.
const CUT: [&[u8]; 4] = [b"", b"\xa5", b"\xa5\x01", b"\xa5\x01\xa5"];

#[test]
fn a_file_without_a_closed_gate_is_refused(rt: HostRuntime) {
    for file in CUT {
        assert_eq!(rt; refusal(rt.alloc(), file), Some(GateFault::NoGate));
    }
}

const PATH: &str = "octets_behind_gates";

// A new file, to which an octet is added behind none.
fn is_made(rt: &HostRuntime) -> Result<bool, Fail> {
    let mut disk = FileDisk::create(rt, PATH)?;
    disk.write_at(0, &[0])?;
    let (_, none) = add_to(rt.alloc(), disk, 7)?;
    Ok(none.is_empty())
}

// The file again, with that octet.
fn is_there(rt: &HostRuntime) -> Result<bool, Fail> {
    let disk = FileDisk::open(rt, PATH)?;
    fs::remove_file(rt, PATH)?;
    let (_, one) = recover(rt.alloc(), disk)?;
    Ok(one.as_slice() == b"\x07".as_slice())
}

#[test]
fn octets_in_a_file_are_recovered_when_it_is_opened_again(rt: HostRuntime) -> Result<(), Fail> {
    assert!(rt; is_made(&rt)?);
    assert!(rt; is_there(&rt)?);
    Ok(())
}
