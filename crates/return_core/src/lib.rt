// How the picked entries of a START go out in transfer buffers (CCSDS 911.1-B,
// RAF-TRANSFER-BUFFER).
//
// `Delivery` is the delivery of a return service instance, which RAF and RCF have alike: it says
// what it wants of the next look at the archive, holds the items that the look gave, says when they
// are due, and takes the link's answer. Contracts see it as the places of `archive_terms`
// (`Placed`), and say for every list of rounds what was handed over, in the counts of picked
// entries in which deliveries are defined.
//
// Only `Delivery::new` takes memory. Items are moved, never copied. A step costs the items that the
// look gave, an answer those that are held, and each other call constant time.
#![tactic(auto)]

mod delivery;
mod held_items;
pub mod laws;
mod parts;

pub use delivery::Delivery;
pub use octet_core::Offer;
pub use parts::are_of_archive;
pub use transfer_buffer::Memory;
