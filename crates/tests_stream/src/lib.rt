// Tests of the messages of a connection: rows of octets in pieces with what they are made into,
// each cut of a stream against a plain reader, and octets that came whole. They stand above
// `isp1_tml`, and are proved once.
#![tactic(auto)]

#[cfg(test)]
mod beats;
#[cfg(test)]
mod cuts;
#[cfg(test)]
mod feeds;
#[cfg(test)]
mod lent;
#[cfg(test)]
mod script;
