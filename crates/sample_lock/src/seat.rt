// What a clerk needs beside its desk.

use crate::booking::Booking;
use turn_lock::Pass;

/// A clerk's pass, and whether it stopped because its turns were spent. Else its desk was closed.
#[derive(Drop)]
pub struct Seat {
    pub pass: Pass<Booking>,
    pub spent: bool,
}
