// The lines of a script as events of a station's world: what each form of line is, and where it
// leads.
//
// Between two lines a world shows a plain view (`specs/Shows.antt`): what is published, the book,
// the clock, and what each START has handed over. A form of line is a list of events
// (`specs/Forms.antt`), of which `laws::lines_are_events` says that they may come, and which view
// the world shows behind them. A new form owes one more such fact.
//
// The laws run nothing.
#![tactic(auto)]

pub mod laws;
