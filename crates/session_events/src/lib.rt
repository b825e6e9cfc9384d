// What the rounds of a session make of the START of its door, as events of a station's world.
//
// A round in which RAF or RCF is started takes a START of what its message asks for
// (`specs/Asked.antt`). Each one behind it in which the service stays started makes a round of that
// START, at the front that its look saw and with what became of its buffer, and the one that leaves
// the service stopped ends it (`specs/Rounds.antt`). `laws` says that these may come in a world that
// has published just what the round saw.
//
// The laws run nothing.
#![tactic(auto)]

pub mod laws;
