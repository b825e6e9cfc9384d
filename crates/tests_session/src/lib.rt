// Tests of sessions: scripts of rounds over a link in memory and a station's book, with all that a
// session offers, asks and ends with. They stand above the sessions, and are proved once.
#![tactic(auto)]

#[cfg(test)]
mod tests;
