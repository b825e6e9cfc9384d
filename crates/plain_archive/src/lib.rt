// Small plain programs whose contracts are the definitions of deliveries and of looks at the
// archive: what a round does by its link, and how many entries a look gives.
#![tactic(auto)]

pub mod look;
pub mod round;
#[cfg(test)]
mod tests;
