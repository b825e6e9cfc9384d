// What a run of a station never comes to: the law of its workers together.
//
// `station_run` says what each worker of a run did and how the history is made up of their events,
// and `session_laws` that a session loses nothing from where its door is free. Here stands what
// joins them: no session of a run is answered Lost, since each door has one worker; and over a disk
// that tells, no publishing is answered Foreign, since one worker publishes, and what it publishes
// is what its archive acknowledges (`specs/Lossless.antt`).
//
// The law runs nothing.
#![tactic(auto)]

pub mod laws;
