// What a run's launcher says besides its words.

use crate::status::StatusPlace;
use operator_side::Place;
use std::env;
use std::env::VarError;
use std::net::{IpAddr, Ipv4Addr, SocketAddr};
use std::time::Duration;
use tcp_door::Limits;

// The address that the doors listen on, the Unix socket of the source, and where a stop is asked for.
const ADDRESS: &str = "STATION_ADDRESS";

const FEED: &str = "STATION_FEED";

const STOP: &str = "STATION_STOP";

// Where the status page is served, which program it says that it is, and after how many minutes a
// missing entry is trouble.
const STATUS: &str = "STATION_STATUS";

const VERSION: &str = "STATION_VERSION";

const LONGEST_VERSION: usize = 200;

const EXPECT: &str = "STATION_EXPECT";

const SECONDS_A_MINUTE: u64 = 60;

// How many seconds a user may say nothing, at first and where it asks for no heartbeat.
const SILENCE: &str = "STATION_SILENCE";

const SILENCE_SECONDS: u64 = 30;

const IDLE: &str = "STATION_IDLE";

const IDLE_SECONDS: u64 = 3_600;

/// Where a station listens besides the ports of its plan, and how long its users may be silent.
#[derive(Debug, Drop)]
pub struct RunPlace {
    /// The address that its doors listen on.
    pub address: IpAddr,
    /// The path of the Unix socket at which the source of entries connects, if at one.
    pub feed: Option<String>,
    /// Where a stop is asked for, if anywhere.
    pub stop: Option<Place>,
    /// The status page, if one is to be served.
    pub status: Option<StatusPlace>,
    /// How long its users may be silent.
    pub limits: Limits,
}

/// Why the environment says nothing of use.
#[derive(Clone, Copy, Debug, PartialEq, Eq)]
pub enum PlaceFault {
    /// One of its variables is out of form.
    Form,
    /// It is out of memory.
    Memory,
}

impl RunPlace {
    /// What the environment says: `STATION_ADDRESS` an address, or else each one of the machine;
    /// `STATION_FEED` a path that begins with `/`, or else none; `STATION_STOP` such a path or a port
    /// from 1, or else none, and `STATION_STATUS` such a place of the status page; `STATION_EXPECT` a
    /// number of minutes, or else 0, and `STATION_VERSION` a text, or else an empty one;
    /// `STATION_SILENCE` and `STATION_IDLE` numbers of seconds, or else 30 and
    /// 3600.
    pub fn read(env: &HostRuntime) -> Result<RunPlace, PlaceFault> {
        Ok(RunPlace {
            address: address(env)?,
            feed: feed(env)?,
            stop: place(env, STOP)?,
            status: status(env)?,
            limits: Limits {
                silence: seconds(env, SILENCE, SILENCE_SECONDS)?,
                idle: seconds(env, IDLE, IDLE_SECONDS)?,
            },
        })
    }
}

// What a variable says, if it is there.
fn said(env: &HostRuntime, name: &str) -> Result<Option<String>, PlaceFault> {
    match env::var(env, name) {
        Ok(text) => Ok(Some(text)),
        Err(VarError::NotPresent) => Ok(None),
        Err(VarError::OutOfMemory) => Err(PlaceFault::Memory),
        Err(VarError::NotUnicode) => Err(PlaceFault::Form),
    }
}

// The address of the doors.
fn address(env: &HostRuntime) -> Result<IpAddr, PlaceFault> {
    match said(env, ADDRESS)? {
        Some(text) => match text.parse::<IpAddr>() {
            Ok(address) => Ok(address),
            Err(_) => Err(PlaceFault::Form),
        },
        None => Ok(IpAddr::V4(Ipv4Addr::UNSPECIFIED)),
    }
}

// The path of the source's socket, if one is said.
fn feed(env: &HostRuntime) -> Result<Option<String>, PlaceFault> {
    match said(env, FEED)? {
        Some(path) if path.starts_with('/') => Ok(Some(path)),
        Some(_) => Err(PlaceFault::Form),
        None => Ok(None),
    }
}

// The status page, if one is said.
fn status(env: &HostRuntime) -> Result<Option<StatusPlace>, PlaceFault> {
    let place = place(env, STATUS)?;
    let version = version(env)?;
    let expected = minutes(env, EXPECT)?;
    Ok(match place {
        Some(place) => Some(StatusPlace {
            place,
            version,
            expected,
        }),
        None => None,
    })
}

// Which program it is, as far as that is said.
fn version(env: &HostRuntime) -> Result<String, PlaceFault> {
    match said(env, VERSION)? {
        Some(text) if text.len() <= LONGEST_VERSION => Ok(text),
        Some(_) => Err(PlaceFault::Form),
        None => Ok(String::new(env.alloc())),
    }
}

// A place of this machine, if one is said.
fn place(env: &HostRuntime, name: &str) -> Result<Option<Place>, PlaceFault> {
    match said(env, name)? {
        Some(path) if path.starts_with('/') => Ok(Some(Place::Path(path))),
        Some(text) => match text.parse::<u16>() {
            Ok(port) if port > 0 => Ok(Some(loopback(port))),
            _ => Err(PlaceFault::Form),
        },
        None => Ok(None),
    }
}

/// A port of the loopback.
pub(crate) fn loopback(port: u16) -> Place {
    Place::Port(SocketAddr::from((Ipv4Addr::LOCALHOST, port)))
}

// A number of minutes, or zero where none is said.
fn minutes(env: &HostRuntime, name: &str) -> Result<Duration, PlaceFault> {
    let minutes = seconds(env, name, 0)?.as_secs();
    Ok(Duration::from_secs(minutes.saturating_mul(SECONDS_A_MINUTE)))
}

// A number of seconds, or this one where none is said.
fn seconds(env: &HostRuntime, name: &str, unsaid: u64) -> Result<Duration, PlaceFault> {
    match said(env, name)? {
        Some(text) => match text.parse::<u32>() {
            Ok(seconds) => Ok(Duration::from_secs(u64::from(seconds))),
            Err(_) => Err(PlaceFault::Form),
        },
        None => Ok(Duration::from_secs(unsaid)),
    }
}
