// Tests of what a station shows: what a board shows of what was counted, and the octets of its health,
// numbers and metrics.
#![tactic(auto)]

#[cfg(test)]
mod tests;
