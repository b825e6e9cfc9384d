// Tests of CDS times and clocks: moments, octets and Unix times worked out by other means, and
// clocks over what a list or a machine gives. They stand above `cds_time`, and are proved once.
#![tactic(auto)]

#[cfg(test)]
mod clocks;
#[cfg(test)]
mod times;
