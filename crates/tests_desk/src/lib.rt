// Tests of the desk: a START over the entries of a book. They stand above `station_desk`, and are
// proved once.
#![tactic(auto)]

#[cfg(test)]
mod starts;
