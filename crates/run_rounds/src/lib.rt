// What the sessions of a station's run make of STARTs, as events of a world in their places.
//
// `run_events` says of a run which events of a world it is, with a session's rounds as calls of the
// book alone. Here each answer event of a session has behind it what the round makes of the door's
// STARTs: it takes one, makes a round of it, or ends it (`session_events` `specs/Rounds.antt`); and
// a quit ends the one that goes on (`specs/Sessions.antt`). All may come, the headline holds behind
// each front of them, and the STARTs at a door are those that its sessions' rounds leave
// (`specs/Rounds.antt`).
//
// The law runs nothing.
#![tactic(auto)]

pub mod laws;
