// What fails or runs out of turns ends its worker or its session alone, and what was acknowledged
// is published.
use antenna_turns::{Radiated, TurnsSpent};
use door_model::MemoryDoor;
use recorder_turns::RecordingFault;
use std::alloc::{AllocError, Global};
use std::process::Abort;
use std::rt;
use std::sync::Wait;
use std::test::Fail;
use std::thread::Threads;
use worker_runs::users::{INTERRUPTED, PATIENT, RAF, User};
use worker_runs::{Fails, NONE, Outside, TURNS};

// Checks a run of two users for each of these faults: what is told, that the first one was handed
// all that it waits for, and that the file holds as many entries as are published.
fn check<R: Threads + Wait + rt::Clock + Sync + Abort>(
    rt: &R,
    alloc: Global,
    fails: &[Fails<'_>],
    frames: u32,
    users: [&User; 2],
    told: &str,
) -> Result<(), Fail> {
    let [first, _] = users;
    for failing in fails {
        let ran = Outside::with(alloc, 0, *failing, frames, users)?.run(rt, TURNS)?;
        assert_eq!(rt; ran.told()?.as_str(), told);
        assert_eq!(rt; ran.handed(0)?.as_str(), first.handed);
        let published = ran.report.published;
        assert_eq!(rt; ran.stored()?.len() as u64, published);
    }
    Ok(())
}

// The first poll fails, the offers of the returns of BIND and START, or that of the first buffer;
// and the offer that would have told that the first CLTU was radiated.
#[test]
fn a_link_that_fails_ends_its_session_alone(rt: HostRuntime) -> Result<(), Fail> {
    let told = "published 6, Ok(Tally { stored: 6, refused: 0, full: 0 }), \
        Ok(Radiated { sent: 2, failed: 0 }) aa0007 aa0008, link Unbound, link LinkFault";
    let fails = [&[1u64], &[2], &[4], &[5]].map(|link| Fails { link, ..NONE });
    check(&rt, rt.alloc(), &fails, 5, [&PATIENT, &RAF], told)?;
    let told = "published 6, Ok(Tally { stored: 6, refused: 0, full: 0 }), \
        Ok(Radiated { sent: 1, failed: 0 }) aa0007, link Unbound, link LinkFault";
    let fails = Fails { link: &[7], ..NONE };
    check(&rt, rt.alloc(), &[fails], 5, [&RAF, &PATIENT], told)
}

// Each call of the store. The first call of all is the sync when the archive is opened.
#[test]
fn a_disk_that_fails_once_is_mended(rt: HostRuntime) -> Result<(), Fail> {
    let told = "published 6, Ok(Tally { stored: 6, refused: 0, full: 0 }), \
        Ok(Radiated { sent: 2, failed: 0 }) aa0007 aa0008, link Unbound, link Unbound";
    let fails = [&[2u64], &[3], &[4], &[5]].map(|disk| Fails { disk, ..NONE });
    check(&rt, rt.alloc(), &fails, 5, [&RAF, &PATIENT], told)
}

// The first store has 256 entries. In the second one a call fails, and then the reopen's sync.
#[test]
fn a_disk_that_fails_twice_ends_the_recorder(rt: HostRuntime) -> Result<(), Fail> {
    let told = "published 256, Err(DiskFault), \
        Ok(Radiated { sent: 2, failed: 0 }) aa0007 aa0008, link Unbound, link Unbound";
    let fails = [&[6u64, 7], &[7, 8], &[8, 9]].map(|disk| Fails { disk, ..NONE });
    check(&rt, rt.alloc(), &fails, 300, [&PATIENT, &RAF], told)
}

// The source fails in the second step, of which nothing is stored.
#[test]
fn a_source_that_fails_ends_the_recorder(rt: HostRuntime) -> Result<(), Fail> {
    let told = "published 256, Err(SourceFault), \
        Ok(Radiated { sent: 2, failed: 0 }) aa0007 aa0008, link Unbound, link Unbound";
    let fails = [&[257u64], &[260]].map(|source| Fails { source, ..NONE });
    check(&rt, rt.alloc(), &fails, 300, [&PATIENT, &RAF], told)
}

#[test]
fn a_user_is_told_that_the_antenna_failed(rt: HostRuntime) -> Result<(), Fail> {
    let told = "published 6, Ok(Tally { stored: 6, refused: 0, full: 0 }), \
        Ok(Radiated { sent: 0, failed: 1 }), link Unbound, link Unbound";
    let fails = [&[1u64]].map(|antenna| Fails { antenna, ..NONE });
    check(&rt, rt.alloc(), &fails, 5, [&INTERRUPTED, &RAF], told)
}

// A station's doors: one that fails at these calls, and gives no link.
fn meet(alloc: Global, seed: u64, failing: &[u64]) -> Result<Outside, AllocError> {
    let mut outside = Outside::new(alloc, seed, NONE)?;
    outside.feed(300)?;
    let failing = Vec::from_slice(alloc, failing)?;
    outside.doors.push(MemoryDoor::new(alloc, failing))?;
    Ok(outside)
}

#[test]
fn a_door_that_fails_ends_its_worker_alone(rt: HostRuntime) -> Result<(), Fail> {
    let told = meet(rt.alloc(), 0, &[1])?.run(&rt, TURNS)?.told()?;
    assert_eq!(rt;
        told.as_str(),
        "published 301, Ok(Tally { stored: 301, refused: 0, full: 0 }), \
        Ok(Radiated { sent: 0, failed: 0 }), \
        DoorReport { links: 0, spent: false, failed: true, memory: false }"
    );
    Ok(())
}

// A user who says nothing behind its START has the session make round after round.
#[test]
fn a_session_spends_its_turns(rt: HostRuntime) -> Result<(), Fail> {
    let fails = Fails { link: &[1], ..NONE };
    let outside = Outside::with(rt.alloc(), 0, fails, 0, [&RAF, &RAF])?;
    let told = outside.run(&rt, 1_000)?.told()?;
    assert_eq!(rt;
        told.as_str(),
        "published 1, Ok(Tally { stored: 1, refused: 0, full: 0 }), \
        Ok(Radiated { sent: 0, failed: 0 }), link TurnsSpent, link LinkFault, \
        DoorReport { links: 1, spent: true, failed: false, memory: false }"
    );
    Ok(())
}

// A source that rests has the recorder make more steps than it has turns. All that it stored is
// published.
#[test]
fn a_recorder_spends_its_turns(rt: HostRuntime) -> Result<(), Fail> {
    let ran = meet(rt.alloc(), 1, &[])?.run(&rt, 20)?;
    assert_eq!(rt; ran.report.recording, Err(RecordingFault::TurnsSpent));
    let published = ran.report.published;
    assert!(rt; published > 0 && ran.stored()?.len() as u64 == published);
    Ok(())
}

// The recorder's first store is held for so long that the antenna's worker, which finds nothing to
// radiate, isn't the last.
#[test]
fn an_antennas_worker_spends_its_turns(rt: HostRuntime) -> Result<(), Fail> {
    let mut outside = meet(rt.alloc(), 0, &[])?;
    outside.disk.hold = outside.hold(3)?;
    let ran = outside.run(&rt, 10)?;
    let radiated = Radiated { sent: 0, failed: 0 };
    assert_eq!(rt; ran.report.radiating, Err(TurnsSpent { radiated }));
    assert_eq!(rt; ran.report.published, 301);
    Ok(())
}
