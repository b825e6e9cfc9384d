// The limits of a message. They are this product's own.

/// The most items of a transfer buffer.
pub const MOST_ITEMS: usize = 1_000;

// More octets than an item has besides its frame's.
pub(crate) const BESIDE_FRAME: usize = 400;
