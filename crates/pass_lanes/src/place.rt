// Which lanes a pass has, beside those of its channels.

/// A lane that isn't a channel's.
#[derive(Clone, Copy, Debug)]
pub enum Place {
    /// The numbers of the lines.
    Numbers,
    /// The days and times.
    Times,
    Carrier,
    Subcarrier,
    Symbol,
    /// The production status of the return services.
    Production,
    Seals,
    /// A connection, 1 to 16, or the desk, 0.
    Connection(u32),
    /// The CLTUs, from the queue to radiation.
    Cltus,
    /// What the antenna does.
    Antenna,
    /// The production status of the forward service.
    CltuProduction,
    Uplink,
    /// Power failures and faults of the disk.
    Failures,
}

// How many of the lanes stand above those of the channels.
pub(crate) const ABOVE: usize = 2;

/// The names of all these lanes, in the order in which they stand.
pub(crate) const NAMES: [&str; 29] = [
    "line",
    "time",
    "carrier",
    "subcarrier",
    "symbol",
    "production",
    "seals",
    "desk",
    "connection 1",
    "connection 2",
    "connection 3",
    "connection 4",
    "connection 5",
    "connection 6",
    "connection 7",
    "connection 8",
    "connection 9",
    "connection 10",
    "connection 11",
    "connection 12",
    "connection 13",
    "connection 14",
    "connection 15",
    "connection 16",
    "CLTUs and windows",
    "antenna",
    "CLTU production",
    "uplink",
    "failures",
];

impl Place {
    // Where its lane stands among them.
    pub(crate) fn index(self) -> usize {
        match self {
            Place::Numbers => 0,
            Place::Times => 1,
            Place::Carrier => 2,
            Place::Subcarrier => 3,
            Place::Symbol => 4,
            Place::Production => 5,
            Place::Seals => 6,
            Place::Connection(c) => 7 + c.min(16) as usize,
            Place::Cltus => 24,
            Place::Antenna => 25,
            Place::CltuProduction => 26,
            Place::Uplink => 27,
            Place::Failures => 28,
        }
    }
}
