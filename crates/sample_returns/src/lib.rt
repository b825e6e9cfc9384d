// A return service's rounds on a station's book, in small: a delivery steps on the looks that it
// wants, and its link answers what is offered.
//
// That each round is one of the delivery by counts, and that what is published between two rounds
// changes nothing of it, are laws of `return_core`, which are cited by their calls.
#![tactic(auto)]

mod rounds;

pub use rounds::{make_round, stand_on};
