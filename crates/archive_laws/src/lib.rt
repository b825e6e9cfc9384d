// Which calls of an archive leave it open to stores: the law of any run of them.
//
// `frame_archive` says of each call what it ensures. Here stands what follows over a file's opening
// and any calls since: an archive takes stores exactly where, since the last good recovery, no store
// answered DiskFault and no recovery was refused (`specs/Calls.antt`). A store then is Ok, or wants
// memory, unless the disk's count of faults rises in it (`specs/Stores.antt`).
//
// The law runs nothing.
#![tactic(auto)]

pub mod laws;
