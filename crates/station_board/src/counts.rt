// Counts and moments that one thread writes and others read.

use std::sync::atomic::{AtomicU64, Ordering};

/// Adds to a count, up to the last `u64`. It has one writer.
pub(crate) fn add(count: &AtomicU64, more: u64) {
    let before = count.load(Ordering::SeqCst);
    count.store(before.saturating_add(more), Ordering::SeqCst);
}

pub(crate) fn get(count: &AtomicU64) -> u64 {
    count.load(Ordering::SeqCst)
}

pub(crate) fn set(count: &AtomicU64, value: u64) {
    count.store(value, Ordering::SeqCst);
}
