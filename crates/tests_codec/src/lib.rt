// Tests of what reads and writes BER, and of the types and PDUs that stand on shapes: rows of
// octets, and what each is decoded as, or why it is refused. They stand above the PDUs, and are
// proved once.
#![tactic(auto)]

#[cfg(test)]
mod kind;
#[cfg(test)]
mod rows;
#[cfg(test)]
mod tests;
