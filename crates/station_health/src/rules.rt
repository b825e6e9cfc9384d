// When something is wrong with a part of a station.
ghost use Rattle.std.specs.Prelude.{◌≡◌};
ghost use Rattle.std.specs.List.{list_any};
ghost use Rattle.station_health.specs.Health.{is_past, recorder_late, antenna_late, is_serving};
ghost use Rattle.station_health.specs.Health.{door_late, worker_late, is_full, is_almost_full};
ghost use Rattle.station_health.specs.Health.{is_open, no_door, clock_off, no_entry};

use station_snapshot::{AntennaNow, ArchiveNow, DoorNow, DoorState, RecorderNow, Snapshot};

/// A worker that has made no turn for more milliseconds is late.
pub const TURN_MILLIS: u64 = 30_000;

/// A clock that differs by more milliseconds is off.
pub const CLOCK_MILLIS: u64 = 1_000;

// True if more milliseconds than a limit lie between a moment and a later one.
fn is_past(limit: u64, since: u64, at: u64) -> bool
    ensures { result ≡ is_past limit since at }
{
    at.saturating_sub(since) > limit
}

fn recorder_late(recorder: &RecorderNow, at: u64) -> bool
    ensures { result ≡ recorder_late recorder.now at }
{
    !recorder.is_ended && is_past(TURN_MILLIS, recorder.turned, at)
}

fn antenna_late(antenna: &AntennaNow, at: u64) -> bool
    ensures { result ≡ antenna_late antenna.now at }
{
    if antenna.sending == 0 {
        is_past(TURN_MILLIS, antenna.turned, at)
    } else {
        is_past(antenna.limit, antenna.sending, at)
    }
}

/// True if the door of this state serves a user.
pub fn is_serving(state: DoorState) -> bool
    ensures { result ≡ is_serving state }
{
    matches!(state, DoorState::Serving)
}

fn door_late(at: u64, door: &DoorNow) -> bool
    ensures { result ≡ door_late at door.now }
{
    is_serving(door.state) && is_past(TURN_MILLIS, door.turned, at)
}

// True if the worker of one of the doors is late.
fn any_late(at: u64, doors: &[DoorNow]) -> bool
    ensures { result ≡ list_any (λ door. door_late at door) doors.now }
{
    doors.iter().any(|door| door_late(at, door))
}

// True if a worker is late.
pub(crate) fn worker_late(snapshot: &Snapshot) -> bool
    ensures { result ≡ worker_late snapshot.now }
{
    let at = snapshot.at;
    recorder_late(&snapshot.recorder, at)
        || antenna_late(&snapshot.antenna, at)
        || any_late(at, &snapshot.doors)
}

// True if the last entry wouldn't fit once more.
pub(crate) fn is_full(archive: &ArchiveNow) -> bool
    ensures { result ≡ is_full archive.now }
{
    archive.capacity > 0 && archive.capacity.saturating_sub(archive.octets) < archive.needed
}

// True if less than a tenth of an archive is free, and it isn't full.
pub(crate) fn is_almost_full(archive: &ArchiveNow) -> bool
    ensures { result ≡ is_almost_full archive.now }
{
    !is_full(archive) && archive.capacity.saturating_sub(archive.octets) < archive.capacity / 10
}

fn is_open(state: DoorState) -> bool
    ensures { result ≡ is_open state }
{
    matches!(state, DoorState::Waiting | DoorState::Serving)
}

// True if one of the doors serves a user or may.
fn any_open(doors: &[DoorNow]) -> bool
    ensures { result ≡ list_any (λ door. is_open door.state) doors.now }
{
    doors.iter().any(|door| is_open(door.state))
}

// True if no door serves a user or may.
pub(crate) fn no_door(snapshot: &Snapshot) -> bool
    ensures { result ≡ no_door snapshot.now }
{
    !any_open(&snapshot.doors)
}

// True if the machine's clock differs from the station's time.
pub(crate) fn clock_off(snapshot: &Snapshot) -> bool
    ensures { result ≡ clock_off snapshot.now }
{
    is_past(CLOCK_MILLIS, snapshot.at, snapshot.wall)
        || is_past(CLOCK_MILLIS, snapshot.wall, snapshot.at)
}

// True if no entry came for longer than expected.
pub(crate) fn no_entry(snapshot: &Snapshot) -> bool
    ensures { result ≡ no_entry snapshot.now }
{
    let expected = snapshot.expected;
    expected > 0
        && is_past(expected, snapshot.source.entered, snapshot.at)
        && is_past(expected, snapshot.began, snapshot.at)
}
