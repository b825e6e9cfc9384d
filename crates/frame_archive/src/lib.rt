// The archive of received frames on a disk: what is acknowledged is kept.
//
// `open_archive` opens the file of a disk and gives its entries. `FrameArchive::offer` puts an
// entry behind those that wait, or says why not; `store` writes all that waits as one batch and
// acknowledges it. At every moment each image of the disk stands for the acknowledged entries, or
// for these and the batch, whole; after a store that answered Ok, for the latter alone. Where the
// disk fails, what waits still waits, and no store is made until `reopen` has read the file again:
// it tells which of the waiting entries landed and which are lost. `open_anew` opens it again in
// place by what it holds alone. `laws` says what a recovery finds after any list of calls.
//
// In memory stand the number of acknowledged entries, the octets that they use, the last times and
// what waits, and no list of what is stored. An offer costs the same whatever the archive holds. A
// store costs four calls of the disk and copies each octet of the batch once. An opening and a
// reopen cost a sync, one read of the whole file and one step for each entry. Entries are moved
// from an offer into the answer of a store or a reopen, without a copy of their octets.
#![tactic(auto)]

mod archive;
mod fault;
pub mod laws;
mod times;

pub use archive::{FrameArchive, Landing, Stored, open_archive};
pub use fault::{ArchiveFault, OfferFault};
