// The INTEGERs of at most 64 bits, signed or unsigned: those without a range of their own.

pub(crate) const LEAST: i128 = i64::MIN as i128;

pub(crate) const GREATEST: i128 = u64::MAX as i128;
