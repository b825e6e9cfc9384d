// Two workers, from the book's opening to its closing.
ghost use Rattle.std.specs.Prelude.{◌≡◌, ◌+◌, ◌^◌, ◌<◌, ◌≤◌, [], ◌∷◌, length, vec_len};
ghost use Rattle.std.specs.Prelude.{vec_capacity, IfOk, OnOk, Some};
ghost use Rattle.std.specs.Thread.{IsSync};
ghost use Rattle.cds_time.specs.declared.cds.TheConstants.{MOMENT_END};
ghost use Rattle.turn_lock.specs.Own.{MakeUp};
ghost use Rattle.turn_lock.specs.declared.pass.Standing.TheVariants.{Ready};
ghost use Rattle.station_book.specs.State.{opened};
ghost use Rattle.station_book.specs.History.{StandsAs};
ghost use Rattle.sample_book.specs.Worked.{HasWorked};
ghost use Rattle.sample_book.specs.Both.{IsSeated, DidJobs, DidBoth};

use crate::job::{Job, Outcome};
use crate::turn::do_job;
use octet_core::Memory;
use station_book::{Book, Event, Station};
use std::alloc::Global;
use std::mem;
use std::sync::Wait;
use std::thread::{Threads, join_mut};
use turn_lock::{LockFault, Pass, Turns};

/// What a worker has to do, for which door and at which reading.
#[derive(Drop)]
pub struct Plan {
    pub door: u32,
    pub reading: u128,
    pub jobs: Vec<Job>,
}

// A worker with its pass, and what came of its jobs.
#[derive(Drop)]
pub(crate) struct Worker {
    pub(crate) plan: Plan,
    pub(crate) pass: Pass<Event>,
    pub(crate) outcomes: Vec<Outcome>,
}

/// The book and the pass of the closed lock, and what came of the jobs of both.
#[derive(Drop)]
pub struct Shared {
    pub book: Book,
    pub pass: Pass<Event>,
    pub first: Vec<Outcome>,
    pub second: Vec<Outcome>,
}

// Does jobs, one a turn, until memory is wanted.
fn do_jobs<R: Wait>(
    rt: &R,
    station: &Station,
    pass: &mut Pass<Event>,
    door: u32,
    reading: u128,
    jobs: Vec<Job>,
    outcomes: &mut Vec<Outcome>,
) -> Result<(), Memory>
    requires lock { (pass.old.lock ≡ Some station.now) × (pass.old.standing ≡ Ready) }
    requires turns { vec_len jobs ≤ pass.old.left }
    requires moment { reading < MOMENT_END }
    requires room { (outcomes.old.items ≡ []) × (vec_len jobs ≤ vec_capacity outcomes.old) }
    ensures front { HasWorked station.now door reading jobs.items outcomes.new.items pass.old
        pass.new }
    ensures all { OnOk result (length outcomes.new.items ≡ length jobs.items) }
{
    for job in jobs {
        let outcome = do_job(rt, station, pass, door, reading, job)?;
        outcomes.push_reserved(outcome);
    }
    Ok(())
}

// Does a worker's jobs.
fn serve<R: Wait>(rt: &R, alloc: Global, station: &Station, worker: &mut Worker)
    requires { IsSeated station.now worker.old }
    ensures { DidJobs station.now worker.old worker.new }
{
    let jobs = mem::replace(&mut worker.plan.jobs, Vec::new(alloc));
    let (door, reading) = (worker.plan.door, worker.plan.reading);
    let _ = do_jobs(
        rt,
        station,
        &mut worker.pass,
        door,
        reading,
        jobs,
        &mut worker.outcomes,
    );
}

// Does the jobs of both, each on a thread of its own.
fn serve_both<R: Threads + Wait + Sync>(
    rt: &R,
    alloc: Global,
    station: &Station,
    first: &mut Worker,
    second: &mut Worker,
)
    requires first { IsSeated station.now first.old }
    requires second { IsSeated station.now second.old }
    ensures first { DidJobs station.now first.old first.new }
    ensures second { DidJobs station.now second.old second.new }
{
    join_mut(
        rt,
        &mut ||
            requires { IsSync R.row × IsSeated station.now first.now }
            ensures { DidJobs station.entry.now first.entry.now first.exit.now }
        { serve(rt, alloc, station, first) },
        &mut ||
            requires { IsSync R.row × IsSeated station.now second.now }
            ensures { DidJobs station.entry.now second.entry.now second.exit.now }
        { serve(rt, alloc, station, second) },
    );
}

// A worker with turns of the pass for its jobs.
fn seat(
    alloc: Global,
    station: &Station,
    pass: &mut Pass<Event>,
    plan: Plan,
) -> Result<Worker, LockFault>
    requires lock { (pass.old.lock ≡ Some station.now) × (pass.old.standing ≡ Ready) }
    requires turns { vec_len plan.jobs ≤ pass.old.left }
    requires moment { plan.reading < MOMENT_END }
    ensures pass { pass.new ≡ record pass.old { left = pass.new.left } }
    ensures turns { IfOk result (λ worker. worker.pass.left + worker.pass.entered + pass.new.left
        ≡ pass.old.left) }
    ensures left { IfOk result (λ worker. pass.new.left + vec_len plan.jobs ≡ pass.old.left) }
    ensures seated { IfOk result (λ worker. IsSeated station.now worker × (worker.plan ≡ plan)) }
{
    let outcomes = Vec::with_capacity(alloc, plan.jobs.len())?;
    let pass = station.split(pass, plan.jobs.len() as u64)?;
    Ok(Worker {
        plan,
        pass,
        outcomes,
    })
}

/// Does two plans over a new book, each on a thread of its own, and closes the lock. The pass tells
/// the history, and which events each worker has as its own, the first one's first.
pub fn run_two<R: Threads + Wait + Sync>(
    rt: &R,
    alloc: Global,
    book: Book,
    first: Plan,
    second: Plan,
) -> Result<Shared, LockFault>
    requires new { book ≡ opened book.opening }
    requires turns { vec_len first.jobs + vec_len second.jobs < 2 ^ 62 }
    requires moments { (first.reading < MOMENT_END) × (second.reading < MOMENT_END) }
    ensures book { IfOk result (λ r. (r.book.opening ≡ book.opening)
        × StandsAs r.book r.pass.seen) }
    ensures workers { IfOk result (λ r.
        DidBoth first second r.first.items r.second.items r.pass.joined) }
    ensures make_up { IfOk result (λ r. (r.pass.own ≡ [])
        × MakeUp r.pass.seen ([] ∷ r.pass.joined)) }
{
    let turns = first.jobs.len() as u64 + second.jobs.len() as u64 + 1;
    let (station, mut pass): (Station, Pass<Event>) = Turns::new(alloc, book, turns)?;
    let mut one = seat(alloc, &station, &mut pass, first)?;
    let mut two = seat(alloc, &station, &mut pass, second)?;
    serve_both(rt, alloc, &station, &mut one, &mut two);
    station.join(&mut pass, one.pass);
    station.join(&mut pass, two.pass);
    let Ok((book, pass)) = station.close(pass) else {
        unreachable!()
    };
    Ok(Shared {
        book,
        pass,
        first: one.outcomes,
        second: two.outcomes,
    })
}
