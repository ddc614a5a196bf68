//! Values that count their ends, and values that are copied.
use seize_content::Steady;
use std::sync::atomic::{AtomicU64, Ordering};

/// A value with a name of its own, which counts its end.
pub(crate) struct Counted<'a> {
    pub(crate) ends: &'a AtomicU64,
    pub(crate) name: u64,
}

impl Drop for Counted<'_> {
    fn drop(self) {
        let Counted { ends, name: _ } = self;
        ends.fetch_add(1, Ordering::SeqCst);
    }
}

impl Steady for Counted<'_> {
    ghost label = { λ counted. counted.name };

    ghost sound = { λ _. Unit };
}

/// What the owner of a block has in its header.
#[derive(Clone, Copy)]
pub(crate) struct Fields {
    pub(crate) next: u64,
    pub(crate) slot: u32,
}
