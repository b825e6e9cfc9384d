// The antenna that radiates CLTUs: what sends them to a spacecraft.
//
// An `Antenna` is handed the octets of one CLTU after the other, and radiates each or fails. It has
// a count of faults: `send` answers `Failed` exactly where it makes that count go up by one. An
// antenna that tells has one list of what it sent, in order. It may stop telling, and then never
// tells again. `AntennaSim` is an antenna in memory, which fails at the calls of a list.
//
// What a call costs grows with the octets that it sends, and with the calls that are listed to
// fail.
#![tactic(auto)]

mod antenna;

pub use antenna::{Antenna, AntennaSim};
