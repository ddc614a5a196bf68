//! A value that counts its ends.
use seize_content::Steady;
use std::sync::atomic::{AtomicU64, Ordering};

/// A value with a name of its own, which counts its end.
pub(crate) struct Ending<'a> {
    pub(crate) ends: &'a AtomicU64,
    pub(crate) name: u64,
}

impl Drop for Ending<'_> {
    fn drop(self) {
        let Ending { ends, name: _ } = self;
        ends.fetch_add(1, Ordering::SeqCst);
    }
}

impl Steady for Ending<'_> {
    ghost label = { λ ending. ending.name };

    ghost sound = { λ _. Unit };
}
