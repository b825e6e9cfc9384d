// The credentials of SLE's PDUs (CCSDS 913.1-B): a time and a number, protected by a digest that
// takes the sender's name and password.
//
// `make` writes them, `check` says the first fault of what came, or none. Neither takes memory:
// what is hashed goes to the hash function in pieces. `RandomNumbers` are the numbers of a
// session's credentials. The module `laws` has what is proved of all credentials.
#![tactic(auto)]

mod auth_fault;
mod checking;
mod digest;
mod hash;
pub mod laws;
mod random_numbers;
mod secret;
mod signature;
mod signing;

pub use auth_fault::AuthFault;
pub use checking::{PICOS_A_SECOND, check};
pub use hash::Hash;
pub use random_numbers::{GREATEST_NUMBER, RandomNumbers};
pub use secret::Secret;
pub use signing::make;
