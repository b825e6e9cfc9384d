// A run of a station as a list of a world's events, and the headline of it.
//
// `station_run` says what each worker of a run did, and how the closed history is made up of their
// turns. Here each act off the lock has its place by a turn (`specs/Turns.antt`): what the recorder
// stored stands right before its publishing, and a send right behind its take. So the history is a
// list of events of `station_world`, which may all come, and the headline holds behind each front
// of it (`specs/Runs.antt`).
//
// The law runs nothing.
#![tactic(auto)]

pub mod laws;
