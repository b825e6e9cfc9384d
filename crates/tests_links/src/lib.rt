// Tests of the connections of scripts: scripts of their lines, and what they say in the transcript.
// They stand above the connections, and are proved once.
#![tactic(auto)]

#[cfg(test)]
mod tests;
