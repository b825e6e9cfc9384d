// Tests of the recorder, the antenna and the source of entries in memory.
#![tactic(auto)]

#[cfg(test)]
mod tests;
