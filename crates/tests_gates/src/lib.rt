// Tests of octets behind gates on a disk. They stand above what they try, and are proved once.
#![tactic(auto)]

#[cfg(test)]
mod tests;
