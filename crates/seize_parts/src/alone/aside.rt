//! What stands aside while all is reclaimed: who is told, and where what reclaimers put waits.

use seize_calls::further::Further;

/// Where what reclaimers put waits, and who is told of values that go. The watch comes last: so what it has seen is known when this is
/// taken apart.
#[derive(Drop)]
pub(crate) struct Aside<'w, W> {
    /// The queue.
    pub(crate) queue: Further,
    /// The watch.
    pub(crate) watch: &'w mut W,
}
