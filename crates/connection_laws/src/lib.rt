// What connections of scripts and the laws of sessions come to together.
//
// `station_law` says that each connection is a session over the script's one book, and
// `session_laws` that a session from where its door is free loses nothing. Here stands what joins
// them: in a script's book each door at which nobody is connected is free, so no connection ends
// with `aborted 127` (`specs/Lossless.antt`). And what a session's rounds see is a front of what is
// stored behind any later lines, so what its STARTs were handed is what their deliveries hand over
// of that (`specs/Delivered.antt`).
//
// The laws run nothing.
#![tactic(auto)]

pub mod laws;
