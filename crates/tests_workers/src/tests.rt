// Two sessions, the recorder and the antenna, each on a thread.
use std::alloc::Global;
use std::process::Abort;
use std::rt;
use std::sync::Wait;
use std::test::Fail;
use std::thread::Threads;
use worker_runs::users::{HASTY, LATE, PATIENT, RAF, REFUSED, User};
use worker_runs::{NONE, Outside, Ran, TURNS, is_of_one_thread};

// Five frames and a seal are published, two CLTUs are radiated in order, once each, and both users
// leave.
const TOLD: &str = "published 6, Ok(Tally { stored: 6, refused: 0, full: 0 }), \
    Ok(Radiated { sent: 2, failed: 0 }) aa0007 aa0008, link Unbound, link Unbound";

// One thread that makes the same calls gets what came of the run, and the file holds what the
// source gave.
fn check<R: Abort>(rt: &R, ran: Ran) -> Result<(), Fail> {
    assert!(rt; is_of_one_thread(&ran)?);
    assert_eq!(rt; ran.told()?.as_str(), TOLD);
    let given = ran.given()?;
    assert_eq!(rt; ran.stored()?.as_slice(), given.as_slice());
    Ok(())
}

// Checks runs of 250 seeds.
fn check_runs<R: Threads + Wait + rt::Clock + Sync + Abort>(
    rt: &R,
    alloc: Global,
    seed: u64,
    users: [&User; 2],
) -> Result<(), Fail> {
    let [first, second] = users;
    for more in 0..250 {
        let outside = Outside::with(alloc, seed.saturating_add(more), NONE, 5, users)?;
        let ran = outside.run(rt, TURNS)?;
        assert_eq!(rt; ran.handed(0)?.as_str(), first.handed);
        assert_eq!(rt; ran.handed(1)?.as_str(), second.handed);
        check(rt, ran)?;
    }
    Ok(())
}

#[test]
fn sessions_get_what_one_thread_gives_them(rt: HostRuntime) -> Result<(), Fail> {
    check_runs(&rt, rt.alloc(), 1, [&RAF, &PATIENT])
}

#[test]
fn they_do_by_other_seeds(rt: HostRuntime) -> Result<(), Fail> {
    check_runs(&rt, rt.alloc(), 1_001, [&RAF, &PATIENT])
}

#[test]
fn they_do_at_each_others_doors(rt: HostRuntime) -> Result<(), Fail> {
    check_runs(&rt, rt.alloc(), 2_001, [&PATIENT, &RAF])
}

#[test]
fn they_do_at_each_others_doors_by_other_seeds(rt: HostRuntime) -> Result<(), Fail> {
    check_runs(&rt, rt.alloc(), 3_001, [&PATIENT, &RAF])
}

// The second send is held until a session was handed its STOP's return. A send within a turn keeps
// the session out.
#[test]
fn a_send_that_is_held_stops_no_session(rt: HostRuntime) -> Result<(), Fail> {
    for seed in 1..=20 {
        let mut outside = Outside::with(rt.alloc(), seed, NONE, 5, [&RAF, &HASTY])?;
        outside.antenna.hold = outside.hold(2)?;
        let ran = outside.run(&rt, TURNS)?;
        assert!(rt; !ran.antenna.hold.is_missed(), "seed {seed}");
        check(&rt, ran)?;
    }
    Ok(())
}

// The second sync of the first store, behind the one when the archive is opened, is held until a
// session was handed its BIND's return. A store within a turn keeps the session out.
#[test]
fn a_sync_that_is_held_stops_no_session(rt: HostRuntime) -> Result<(), Fail> {
    for seed in 1..=20 {
        let mut outside = Outside::with(rt.alloc(), seed, NONE, 5, [&LATE, &PATIENT])?;
        outside.disk.hold = outside.hold(3)?;
        let ran = outside.run(&rt, TURNS)?;
        assert!(rt; !ran.disk.hold.is_missed(), "seed {seed}");
        check(&rt, ran)?;
    }
    Ok(())
}

// Whichever comes first has the instance. The other one is refused, unless the first has left.
#[test]
fn one_of_two_users_has_the_instance(rt: HostRuntime) -> Result<(), Fail> {
    for seed in 1..=20 {
        let outside = Outside::with(rt.alloc(), seed, NONE, 5, [&RAF, &RAF])?;
        let ran = outside.run(&rt, TURNS)?;
        let (first, second) = (ran.handed(0)?, ran.handed(1)?);
        let blocks = [first.as_str(), second.as_str()];
        let [[one, other], refused] = [RAF.handed, REFUSED].map(|told| blocks.map(|all| all
            == told));
        assert!(rt; (one || other) && refused == [!one, !other], "seed {seed}");
        assert!(rt; is_of_one_thread(&ran)?, "seed {seed}");
    }
    Ok(())
}
