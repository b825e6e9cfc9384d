// Tests of the archive's index and of deliveries: rows of rounds with what they hand over. They stand
// above `archive_index` and `return_core`, and are proved once.
#![tactic(auto)]

#[cfg(test)]
mod deliveries;
#[cfg(test)]
mod fields;
#[cfg(test)]
mod ground;
#[cfg(test)]
mod index;
