// Tests of the station's book: scripts of calls with the answers that they must have, and random
// calls against a plain program of the same rules. They stand above the book, and are proved once.
#![tactic(auto)]

#[cfg(test)]
mod tests;
