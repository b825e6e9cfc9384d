// The numbers of a door.
ghost use Rattle.std.specs.Prelude.{◌≡◌};
ghost use Rattle.status_page.specs.Numbers.{door_numbers};
ghost use Rattle.status_page.specs.Numbers.{door_word, door_help, door_total, door_number_of};

use crate::flag::flag;
use station_health::is_serving;
use station_snapshot::DoorNow;

/// A number of a door.
#[derive(Clone, Copy, Debug, PartialEq, Eq)]
pub enum DoorNumber {
    Serving,
    Links,
    MostLinks,
    Since,
    OctetsIn,
    OctetsOut,
    Heard,
    Stalls,
    Faults,
    Turn,
}

// All of them, in the order in which they are written.
const DOOR_NUMBERS: [DoorNumber; 10] = [
    DoorNumber::Serving,
    DoorNumber::Links,
    DoorNumber::MostLinks,
    DoorNumber::Since,
    DoorNumber::OctetsIn,
    DoorNumber::OctetsOut,
    DoorNumber::Heard,
    DoorNumber::Stalls,
    DoorNumber::Faults,
    DoorNumber::Turn,
];

impl DoorNumber {
    /// All of them, in the order in which they are written.
    #[tactic(auto, unfolding(crate::specs::Numbers::door_numbers))]
    pub fn all() -> &'static [DoorNumber]
        ensures { result.now ≡ door_numbers }
    {
        &DOOR_NUMBERS
    }

    /// Its name, in JSON and after `station_door_` as a metric.
    pub fn word(self) -> &'static str
        ensures { result.now ≡ door_word self }
    {
        match self {
            DoorNumber::Serving => "serving",
            DoorNumber::Links => "links_total",
            DoorNumber::MostLinks => "links_limit",
            DoorNumber::Since => "since_time_seconds",
            DoorNumber::OctetsIn => "octets_in_total",
            DoorNumber::OctetsOut => "octets_out_total",
            DoorNumber::Heard => "heard_time_seconds",
            DoorNumber::Stalls => "stalls_total",
            DoorNumber::Faults => "faults_total",
            DoorNumber::Turn => "turn_time_seconds",
        }
    }

    /// What it is, in words.
    pub fn help(self) -> &'static str
        ensures { result.now ≡ door_help self }
    {
        match self {
            DoorNumber::Serving => "1 while the door serves a user.",
            DoorNumber::Links => "Connections that the door gave.",
            DoorNumber::MostLinks => "Connections that the door may give.",
            DoorNumber::Since =>
                "When the door gave its last connection, in seconds since 1970; 0 if it gave none.",
            DoorNumber::OctetsIn => "Octets that came from users.",
            DoorNumber::OctetsOut => "Octets that were taken for users.",
            DoorNumber::Heard => "When octets came last, in seconds since 1970; 0 if none have.",
            DoorNumber::Stalls => "Offers that stalled.",
            DoorNumber::Faults => "Calls of the door and of its connections that failed.",
            DoorNumber::Turn =>
                "When the door's worker began its last turn, in seconds since 1970.",
        }
    }

    /// True if it only grows.
    pub fn is_total(self) -> bool
        ensures { result ≡ door_total self }
    {
        match self {
            DoorNumber::Links
            | DoorNumber::OctetsIn
            | DoorNumber::OctetsOut
            | DoorNumber::Stalls
            | DoorNumber::Faults => true,
            DoorNumber::Serving
            | DoorNumber::MostLinks
            | DoorNumber::Since
            | DoorNumber::Heard
            | DoorNumber::Turn => false,
        }
    }

    /// What it is in a door's part of a snapshot.
    pub fn of(self, door: &DoorNow) -> u64
        ensures { result ≡ door_number_of self door.now }
    {
        match self {
            DoorNumber::Serving => flag(is_serving(door.state)),
            DoorNumber::Links => door.links,
            DoorNumber::MostLinks => door.most_links,
            DoorNumber::Since => door.since / 1_000,
            DoorNumber::OctetsIn => door.octets_in,
            DoorNumber::OctetsOut => door.octets_out,
            DoorNumber::Heard => door.heard / 1_000,
            DoorNumber::Stalls => door.stalls,
            DoorNumber::Faults => door.faults,
            DoorNumber::Turn => door.turned / 1_000,
        }
    }
}
