// Tests of a run over doors in memory: one user from its context to its close, and two doors whose
// links wait for each other. They stand above `run_command`, and are proved once.
#![tactic(auto)]

#[cfg(test)]
mod doubles;
#[cfg(test)]
mod runs;
#[cfg(test)]
mod staged;
