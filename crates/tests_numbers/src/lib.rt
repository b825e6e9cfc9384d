// Tests of the tables of the standards: each with its numbers and words. They stand above the
// tables, and are proved once.
#![tactic(auto)]

#[cfg(test)]
mod rows;
#[cfg(test)]
mod tests;
