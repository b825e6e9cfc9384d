// A small nested PDU, this product's own, which shows how a PDU stands on shapes: credentials, the
// invocation's number, a time and a list that is lent.
#![tactic(auto)]

mod items;
mod sample;

pub use items::{ItemSequence, Items};
pub use sample::Sample;

#[cfg(test)]
mod tests;
