/// The numbers of a status report of a return service, as a provider counts them (this product's
/// own).
#[derive(Clone, Copy, Debug, PartialEq, Eq)]
pub struct ReturnNumbers {
    /// Frames of quality 0 that were delivered.
    pub error_free: u32,
    /// Frames that were delivered.
    pub delivered: u32,
    /// The lock of the frame synchroniser: 0 in lock, 1 out of lock, 3 not known.
    pub frame_sync: u8,
    /// The lock of the symbol synchroniser: 0 to 3.
    pub symbol: u8,
    /// The lock of the subcarrier demodulator: 0 to 3.
    pub subcarrier: u8,
    /// The lock of the carrier demodulator: 0 to 3.
    pub carrier: u8,
    /// Running 0, interrupted 1, halted 2.
    pub production: u8,
}
