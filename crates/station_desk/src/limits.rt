// The limits of the desk. They are this product's own.

/// The most items of a transfer buffer.
pub const BUFFER_ITEMS: u32 = 2;
