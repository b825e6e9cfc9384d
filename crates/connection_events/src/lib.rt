// Each START that a user makes on a connection of a script is one of the STARTs of the script's
// world, of which the headline speaks.
//
// `script_world` says which STARTs of users a world has, by the rounds of connections, and
// `session_events` that each START of a session is one of those that its rounds make. Here both come
// together, over any lines (`specs/InWorld.antt`): what the link was handed of such a START begins
// what a START of the world has done.
//
// The law runs nothing.
#![tactic(auto)]

pub mod laws;
