//! Values that count their ends, or tell them.
use std::sync::atomic::{AtomicU64, Ordering};

/// A value that counts its end.
pub struct Counted<'a> {
    /// How many ended.
    pub ends: &'a AtomicU64,
}

impl Drop for Counted<'_> {
    fn drop(self) {
        let Counted { ends } = self;
        ends.fetch_add(1, Ordering::SeqCst);
    }
}

/// How many ended.
pub fn ended(ends: &AtomicU64) -> u64 {
    ends.load(Ordering::SeqCst)
}

/// A value that tells its end by a digit, behind those of all that ended before.
pub struct Digit<'a> {
    /// The digit.
    pub digit: u64,
    /// What was told.
    pub told: &'a AtomicU64,
}

impl Drop for Digit<'_> {
    fn drop(self) {
        let Digit { digit, told } = self;
        let before = told.load(Ordering::SeqCst).wrapping_mul(10);
        told.store(before.wrapping_add(digit), Ordering::SeqCst);
    }
}
