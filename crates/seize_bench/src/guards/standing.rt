//! Owned guards that stand while a work is timed: each keeps a slot of its own active.

use seize::{Collector, OwnedGuard, Refusal};
use std::alloc::{AllocError, Global};
use std::sync::Wait;

/// A guard that stands: a vector holds only what has a `Drop`.
pub(crate) struct Standing<'c>(OwnedGuard<'c, u64>);

impl Drop for Standing<'_> {
    fn drop(self) {
        let Standing(guard) = self;
        guard.forget();
    }
}

impl Standing<'_> {
    /// The guard leaves.
    pub(crate) fn leave(self, rt: &impl Wait) {
        let Standing(guard) = self;
        let mut pass = guard.collector().pass();
        guard.leave(rt, &mut pass);
    }
}

// One of them.
fn stand<'c>(rt: &impl Wait, collector: &'c Collector<u64>) -> Result<Standing<'c>, Refusal> {
    let mut pass = collector.pass();
    Ok(Standing(collector.enter_owned(rt, &mut pass)?))
}

/// So many of them.
pub(crate) fn stand_all<'c>(
    rt: &impl Wait,
    alloc: Global,
    collector: &'c Collector<u64>,
    many: u64,
) -> Result<Vec<Standing<'c>>, Refusal> {
    let mut all = Vec::new(alloc);
    for _ in 0..many {
        all.push(stand(rt, collector)?).map_err(AllocError::from)?;
    }
    Ok(all)
}
