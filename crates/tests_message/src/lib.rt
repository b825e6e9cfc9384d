// Tests of the messages of transfer buffers: rows of octets, signed and unsigned, and of items of
// largest fields.
#![tactic(auto)]

#[cfg(test)]
mod items;
#[cfg(test)]
mod largest;
#[cfg(test)]
mod limits;
#[cfg(test)]
mod rows;
#[cfg(test)]
mod signed;
#[cfg(test)]
mod told;
