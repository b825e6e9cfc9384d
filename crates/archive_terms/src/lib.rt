// What the archive is, what a START picks of it, and what a delivery hands over.
#![tactic(auto)]

pub mod laws;
mod limits;

pub use limits::{FULL_BUFFER, GREATEST_LOST, LONGEST_FRAME};
