// The numbers with which the octets of an entry and of a time begin.

/// The first octet of a frame.
pub const FRAME: u8 = 1;

/// The first octet of a loss of synchronisation.
pub const LOSS_OF_SYNC: u8 = 2;

/// The first octet of a change of the production status.
pub const PRODUCTION: u8 = 3;

/// The first octet of a seal.
pub const SEAL: u8 = 4;

/// The first octet of a time with microseconds, which 8 octets follow.
pub const MICROS: u8 = 0;

/// The first octet of a time with picoseconds, which 10 octets follow.
pub const PICOS: u8 = 1;

/// The most octets of an antenna's identifier.
pub const LONGEST_ANTENNA: u8 = 16;
