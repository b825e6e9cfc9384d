// The counts of a status report of the forward service, by the events of its run.
//
// `cltu_queue` counts as it goes on. Here stands what its counts are over a whole history of the
// book: the CLTUs of the run that were accepted, processed, and radiated to their end; and the free
// octets are the room less those that wait (`specs/Counts.antt`). The view of each answer has these
// numbers.
//
// The law runs nothing.
#![tactic(auto)]

pub mod laws;
