// Every script as a list of events of a station's world, and the headline of it.
//
// `specs/Events.antt` says which events a line is, `specs/Script.antt` which those of a script are.
// `laws::a_script_is_events` says that they may come, that the state behind any lines of a script
// is that of the world behind their events, and what each START of the desk has handed over what
// that world's STARTs did; and that at each moment the world has the headline against each later
// one, be it behind further lines or whatever else may come. The STARTs of users, on connections,
// are STARTs of that world too, by `session_events`. So a new form of line owes one case of
// `events_of`, and that it leads where the line does.
//
// The laws run nothing.
#![tactic(auto)]

pub mod laws;
