// The sockets and the clocks of a run.
ghost use Rattle.std.specs.Prelude.{◌≡◌, IfOk, length, vec_len};

use crate::place::{RunPlace, loopback};
use crate::ringing::{AtReading, StationTime};
use crate::serving::StatusSide;
use crate::status::{Watched, status_of};
use crate::watching::{SocketFault, Waits, listening_of, port_of, stop_of, waits_of};
use bell::{Bells, Resting, Waiter};
use cds_time::SystemClock;
use counted_calls::{CountedFrames, CountedTime};
use octet_core::Memory;
use operator_side::{Listening, Once, Place, Stamped, SteadyTime, Stop, Uptime, report};
use run_plan::RunPlan;
use station_board::{Board, DoorPen, TurnPen};
use std::alloc::Global;
use std::fs::Files;
use std::io::Eprint;
use std::net::{IpAddr, Net, SocketAddr, TcpListener, TcpStream};
use std::random::RandomSource;
use std::rt;
use std::time::Duration;
use tcp_door::{DoorPort, Limits, TcpDoor};
use tcp_feed::TcpFeed;

// How many milliseconds a poll of a link waits at most.
const WAIT_MILLIS: u64 = 100;

/// A clock of the machine.
pub type MachineClock<'a, R> = SystemClock<CountedTime<StationTime<'a, R>>>;

/// A source of entries of the machine.
pub type MachineFeed<'a, R> = CountedFrames<TcpFeed<Stamped<'a, R>>>;

/// A door of the machine.
pub type MachineDoor<'a, R> = TcpDoor<Stamped<'a, R>>;

// What each door of a run is made with.
#[derive(Drop)]
struct Doors<'a, R> {
    rt: &'a R,
    alloc: Global,
    time: Uptime,
    limits: Limits,
    links: u64,
    begin: Once,
    bells: Bells,
    board: Option<Board>,
}

impl<'a, R> Doors<'a, R>
where
    R: Net<Stream = TcpStream, Listener = TcpListener> + rt::Clock + Eprint + Sync,
{
    // The door of this number, from 0, at this port, which waits with this waiter and ends at the stop.
    fn door(
        &self,
        number: usize,
        port: DoorPort,
        waiter: Waiter,
        stop: Option<&Stop>,
    ) -> Result<MachineDoor<'a, R>, Memory> {
        let wait = Duration::from_millis(WAIT_MILLIS);
        let reports = Stamped::new(self.rt, self.alloc);
        let mut door = TcpDoor::new(self.alloc, port, waiter, wait, reports)?;
        if let Some(stop) = stop {
            door.end_at(stop.share()?);
        }
        door.ring(self.bells.share()?);
        door.give_at_most(self.links);
        door.tell_begin(self.begin.share()?);
        if let Some(board) = &self.board {
            door.tell_board(DoorPen::new(board.share()?, number));
        }
        Ok(door)
    }

    // A door at this address for each port of a plan. Equal ports are one, which its doors share.
    fn make(
        &self,
        address: IpAddr,
        ports: &[u16],
        stop: Option<&Stop>,
        mut waiters: Vec<Waiter>,
    ) -> Result<Vec<MachineDoor<'a, R>>, SocketFault>
        ensures { IfOk result (λ doors. vec_len doors ≡ length ports.now) }
    {
        let mut doors = Vec::with_capacity(self.alloc, ports.len())?;
        let mut opened = Vec::new(self.alloc);
        for port in ports {
            let place = SocketAddr::new(address, *port);
            let limits = (self.time, self.limits);
            let port = port_of(self.rt, self.alloc, place, limits, &mut opened)?;
            let Some(waiter) = waiters.pop() else {
                return Err(SocketFault::Memory);
            };
            doors.push(self.door(doors.len(), port, waiter, stop)?)?;
        }
        Ok(doors)
    }
}

// So many clocks of doors.
fn clocks_of<'a, R: rt::Clock + Eprint + Sync>(
    rt: &'a R,
    alloc: Global,
    steady: Option<SteadyTime>,
    board: Option<&Board>,
    count: usize,
) -> Result<Vec<MachineClock<'a, R>>, Memory>
    ensures { IfOk result (λ clocks. vec_len clocks ≡ count) }
{
    let mut clocks = Vec::with_capacity(alloc, count)?;
    for place in 0..count {
        let pen = match board {
            Some(board) => Some(TurnPen::door(board.share()?, place)),
            None => None,
        };
        clocks.push(clock_of(StationTime::new(rt, steady, None), pen))?;
    }
    Ok(clocks)
}

// A clock of this time, whose readings this pen counts.
fn clock_of<'a, R: rt::Clock + Eprint + Sync>(
    time: StationTime<'a, R>,
    pen: Option<TurnPen>,
) -> MachineClock<'a, R> {
    SystemClock::new(CountedTime { machine: time, pen })
}

// A source of entries that listens so, which waits with this waiter, rings these bells and ends at the
// stop.
fn frames_of<'a, R: rt::Clock + Eprint + Sync>(
    rt: &'a R,
    alloc: Global,
    (listening, time): (Listening, Uptime),
    stop: Option<&Stop>,
    board: Option<&Board>,
    waiter: Waiter,
    bells: &Bells,
) -> Result<MachineFeed<'a, R>, Memory> {
    let mut frames = TcpFeed::new(alloc, listening, time, Stamped::new(rt, alloc))?;
    if let Some(stop) = stop {
        frames.end_at(stop.share()?);
    }
    frames.wait_with(waiter, bells.share()?);
    if let Some(board) = board {
        frames.tell_board(board.share()?);
    }
    let board = shared(board)?;
    Ok(CountedFrames { frames, board })
}

// The same board once more.
fn shared(board: Option<&Board>) -> Result<Option<Board>, Memory> {
    match board {
        Some(board) => Ok(Some(board.share()?)),
        None => Ok(None),
    }
}

// The clock of the antenna's worker, which rings these bells and looks for the stop.
fn antenna_clock_of<'a, R: rt::Clock + Eprint + Sync>(
    rt: &'a R,
    alloc: Global,
    steady: Option<SteadyTime>,
    stop: Option<Stop>,
    board: Option<&Board>,
    bells: &Bells,
) -> Result<MachineClock<'a, R>, Memory> {
    let at_reading = AtReading::new(alloc, bells.share()?, stop);
    let pen = match board {
        Some(board) => Some(TurnPen::antenna(board.share()?)),
        None => None,
    };
    Ok(clock_of(StationTime::new(rt, steady, Some(at_reading)), pen))
}

/// Where the random numbers of sessions begin, and 0 where the machine has none.
pub fn draw_of<R: RandomSource>(rt: &R) -> u32 {
    let mut octets = [0; 4];
    match rt.fill_bytes(&mut octets) {
        Ok(()) => u32::from_be_bytes(octets) & 0x7fff_ffff,
        Err(_) => 0,
    }
}

/// What a run has beside its files.
#[derive(Drop)]
pub struct RunSockets<'a, R: rt::Clock + Eprint + Sync> {
    /// A door for each port of the plan.
    pub doors: Vec<MachineDoor<'a, R>>,
    /// A clock for each door.
    pub clocks: Vec<MachineClock<'a, R>>,
    /// The source of entries.
    pub frames: MachineFeed<'a, R>,
    /// The clock of the antenna's worker, whose readings ring the doors and look for a stop.
    pub antenna_clock: MachineClock<'a, R>,
    /// What the workers sleep with.
    pub resting: Resting<'a, R>,
    /// What is rung when a worker did something that others wait for.
    pub bells: Bells,
    /// What the run is watched by, if a page is served.
    pub status: Option<StatusSide>,
}

/// A clock of the machine whose readings do nothing besides.
pub fn machine_clock<R: rt::Clock + Eprint + Sync>(rt: &R) -> MachineClock<'_, R> {
    clock_of(StationTime::new(rt, None, None), None)
}

/// Opens the sockets of a plan at a place: a door for each port, the source of entries, and where a
/// stop is asked for; and the status page. What can't be had is told on standard error; a run goes on
/// without the page. The station's time begins.
pub fn open_sockets<
    'a,
    R: Net<Stream = TcpStream, Listener = TcpListener>
        + Files
        + rt::Clock
        + Eprint
        + RandomSource
        + Sync,
>(
    rt: &'a R,
    alloc: Global,
    time: Uptime,
    plan: &RunPlan,
    place: RunPlace,
) -> Result<RunSockets<'a, R>, SocketFault>
    ensures doors { IfOk result (λ sockets. vec_len sockets.doors ≡ length plan.now.ports) }
    ensures clocks { IfOk result (λ sockets. vec_len sockets.clocks ≡ length plan.now.ports) }
{
    let RunPlace {
        address,
        feed,
        stop,
        status,
        limits,
    } = place;
    let ports = plan.ports.as_slice();
    let steady = SteadyTime::begin(rt).ok();
    let stop = stop_of(rt, alloc, stop)?;
    let source = feed_of(feed, plan.feed);
    let source_name = format!(in alloc; "{source}")?;
    let listening = listening_of(rt, alloc, source)?;
    let places = places_of(alloc, address, ports)?;
    let watched = Watched {
        doors: places.as_slice(),
        links: u64::from(plan.links),
        source: source_name.as_str(),
        steady,
        stop: stop.as_ref(),
    };
    let status = status_of(rt, alloc, status, &watched);
    let board = status.as_ref().map(|side| &side.board);
    let Waits {
        doors: waiters,
        source,
        antenna,
        bells,
    } = waits_of(rt, alloc, ports.len())?;
    let making = Doors {
        rt,
        alloc,
        time,
        limits,
        links: u64::from(plan.links),
        begin: Once::new(alloc)?,
        bells: bells.share()?,
        board: shared(board)?,
    };
    let doors = making.make(address, ports, stop.as_ref(), waiters)?;
    let clocks = clocks_of(rt, alloc, steady, board, ports.len())?;
    let feeding = (listening, time);
    let frames = frames_of(rt, alloc, feeding, stop.as_ref(), board, source, &bells)?;
    let antenna_clock = antenna_clock_of(rt, alloc, steady, stop, board, &bells)?;
    let resting = Resting::new(rt, antenna, bells.share()?);
    Ok(RunSockets {
        doors,
        clocks,
        frames,
        antenna_clock,
        resting,
        bells,
        status,
    })
}

// Where the doors of these ports are.
fn places_of(alloc: Global, address: IpAddr, ports: &[u16]) -> Result<Vec<SocketAddr>, Memory> {
    let mut places = Vec::with_capacity(alloc, ports.len())?;
    for port in ports {
        places.push(SocketAddr::new(address, *port))?;
    }
    Ok(places)
}

// Where the source connects: at a Unix socket, or else at a port of the loopback.
fn feed_of(path: Option<String>, port: u16) -> Place {
    match path {
        Some(path) => Place::Path(path),
        None => loopback(port),
    }
}

/// Tells on standard error which exit code a run ended with.
pub fn tell_end<R: Eprint + rt::Clock>(rt: &R, alloc: Global, exit: u8) {
    let line = format!(in alloc; "station: ended with exit code {exit}\n");
    report(&mut Stamped::new(rt, alloc), line);
}
