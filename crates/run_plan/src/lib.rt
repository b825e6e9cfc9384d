// What `run` is to do, by the words of its command line.
//
// The words behind `run` are how many turns each worker has, how many links each door serves, the
// path of the archive's file, the port of the source of entries, the path of the file that takes
// CLTUs, and the port of each door, 1 to 16 of them (`specs/RunPlan.antt`).
//
// A reading goes over each word once, over those of ports twice, and takes memory for the paths and
// the ports, where the words ask for something.
#![tactic(auto)]

mod number;
mod plan;
mod ports;

pub use plan::RunPlan;
pub use ports::Ports;
