// A journal of entries on a disk: what a crash leaves is the entries from before an append, or
// these and the whole batch.
//
// A file has a header, batches of 1 to 256 entries, each behind an open gate (A5), and then a gate
// that isn't open; what follows that one is free. A batch is written behind the closed gate with
// the next closed gate, and synced, and then the gate is opened and synced. At every moment of
// these four calls each image stands for the old entries, or for these and the batch, whole,
// whatever lies behind the gate. A disk at which a call failed is recovered: it is synced and read,
// and stands for the one or the other. `laws` says that a file stands for one list at most.
//
// An append costs four calls of the disk, and copies each octet of the batch once. A recovery costs
// one sync and one read of the whole file; it goes over what stands before each frame's octets
// twice, and copies a frame's octets once, into the entry that keeps them. Meanwhile the file is
// held in memory. `Batches` reads a file batch by batch, each octet once, and lends its entries. It
// takes memory for 131,072 octets, or for one batch where that has more, and copies no octet but
// what is left of a piece there, to its front.
#![tactic(auto)]

mod batch;
mod batch_fault;
mod batches;
mod fault;
mod journal;
pub mod laws;
mod loading;
mod order;
mod passing;
mod writing;

pub use batch::Batch;
pub use batch_fault::BatchFault;
pub use batches::Batches;
pub use fault::JournalFault;
pub use journal::Journal;
pub use order::{Times, follows};
pub use passing::LONGEST_BATCH;

// The octet of a gate behind which nothing of the journal stands. Any other than an open one is
// closed.
const CLOSED: u8 = 0;
