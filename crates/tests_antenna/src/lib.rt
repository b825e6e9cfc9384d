// Tests of the antenna that writes to a file, in a folder of their own.
#![tactic(auto)]

#[cfg(test)]
mod tests;
