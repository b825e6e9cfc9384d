// The limits of an archive and of a transfer buffer. They are this product's own.

/// The most frames that a frame's `lost` counts, and the most that a continuity tells.
pub const GREATEST_LOST: u32 = 16_777_215;

/// The most octets of a frame in an archive.
pub const LONGEST_FRAME: usize = 65_536;

/// The octets of frames with which a transfer buffer is full.
pub const FULL_BUFFER: usize = 524_288;
