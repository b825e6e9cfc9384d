// Tests of the source of entries over TCP, over the loopback: rows of lines, each at every cut.
#![tactic(auto)]

#[cfg(test)]
mod loopback;
#[cfg(test)]
mod places;
#[cfg(test)]
mod ports;
#[cfg(test)]
mod rows;
