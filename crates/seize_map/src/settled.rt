//! What a change of a map comes to.
ghost use Rattle.seize_map.specs.Buckets.{Settles};

use crate::bucket::{Entry, Unchanged};
use seize_atomic::NotAltered;
use std::sync::Arc;

/// Why the map was not changed.
#[derive(Clone, Copy, PartialEq, Eq, Debug, Drop)]
pub enum NotChanged {
    /// The allocator refused memory, or an entry's count would overflow.
    NoMemory,
    /// All tries were lost, each to another exchange of the same bucket; or there was to be no try.
    Contended,
}

// What a call answers for what an alteration came to: an entry that stays, as one that was there.
pub(crate) fn settled<K: Drop, V: Drop>(
    altered: Result<Option<Arc<Entry<K, V>>>, NotAltered<Unchanged<K, V>>>,
) -> Result<Option<Arc<Entry<K, V>>>, NotChanged>
    ensures { Settles altered result }
{
    match altered {
        Ok(was) => Ok(was),
        Err(NotAltered::Refused(Unchanged::Stays(was))) => Ok(was),
        Err(NotAltered::Refused(Unchanged::NoMemory)) => Err(NotChanged::NoMemory),
        Err(NotAltered::NoMemory) => Err(NotChanged::NoMemory),
        Err(NotAltered::Contended) => Err(NotChanged::Contended),
    }
}
