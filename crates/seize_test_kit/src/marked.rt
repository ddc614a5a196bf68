//! Numbers that mark their ends, so that a test sees of each how often it ended.

use std::alloc::{AllocError, Global};
use std::sync::atomic::{AtomicU64, Ordering};

/// A number that counts its end among the marks.
pub struct Marked<'a> {
    /// The number.
    pub value: u64,
    /// How often each number ended.
    pub marks: &'a [AtomicU64],
}

impl Drop for Marked<'_> {
    fn drop(self) {
        let Marked { value, marks } = self;
        if let Some(mark) = marks.get(value as usize) {
            mark.fetch_add(1, Ordering::SeqCst);
        }
    }
}

/// So many marks, none of which was set.
pub fn marks(alloc: Global, many: u64) -> Result<Vec<AtomicU64>, AllocError> {
    let mut marks = Vec::new(alloc);
    for _ in 0..many {
        marks.push(AtomicU64::new(0))?;
    }
    Ok(marks)
}

/// How often this number ended. Of one without a mark it says 0.
pub fn ends_of(marks: &[AtomicU64], value: u64) -> u64 {
    match marks.get(value as usize) {
        Some(mark) => mark.load(Ordering::SeqCst),
        None => 0,
    }
}

/// How many numbers ended, and how many of them more than once.
pub fn ended(marks: &[AtomicU64]) -> (u64, u64) {
    let (mut some, mut more): (u64, u64) = (0, 0);
    for mark in marks.iter() {
        let ends = mark.load(Ordering::SeqCst);
        some = some.wrapping_add(u64::from(ends != 0));
        more = more.wrapping_add(u64::from(ends > 1));
    }
    (some, more)
}
