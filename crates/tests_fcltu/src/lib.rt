// Tests of the forward service: scripts of a session's rounds over a queue, with the octets of all
// that each round answers and tells. They stand above `fcltu_service`, and are proved once.
#![tactic(auto)]

#[cfg(test)]
mod rounds;
#[cfg(test)]
mod rows;
#[cfg(test)]
mod script;
