// Tests of octets, sources and sinks: what is kept, what a call answers that fails, and readers and
// writers that are interrupted. They stand above `octet_core`, and are proved once.
#![tactic(auto)]

#[cfg(test)]
mod octets;
#[cfg(test)]
mod sinks;
#[cfg(test)]
mod sources;
