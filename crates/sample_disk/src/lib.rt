// A journal in small: octets behind gates on a disk, recovered and added one by one.
//
// It shows that the clauses of `Disk` are enough for a journal. An octet is written behind a closed
// gate and synced, and then the gate is opened and synced. At every moment of these four calls each
// image stands for the old octets, or for these and the new one, whatever lies behind the gate. A
// disk at which a call failed is recovered: it is synced and read, and stands for the one or the
// other.
//
// An octet costs four calls of the disk, and a recovery one sync and two reads for each octet.
#![tactic(auto)]

mod fault;
mod gates;
pub mod laws;

pub use fault::GateFault;
pub use gates::Gates;
