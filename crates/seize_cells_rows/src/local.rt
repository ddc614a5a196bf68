//! Counters under a lock of one thread.
ghost use Rattle.std.specs.Prelude.{◌≡◌, ◌≤◌, ◌<◌, ◌+◌, ◌^◌, IfOk};

use crate::counters::{Counter, Counting, Notes};
use seize_cells::{LocalLock, LockWork};
use std::sync::Wait;

/// A new counter under a lock of one thread.
pub fn new_local(number: u64, limit: u64) -> LocalLock<Counter>
    ensures { result ≡ number }
{
    LocalLock::new(Counter {
        number,
        limit,
        count: 0,
    })
}

/// Counts 1 where it fits, and says whether it did.
pub fn count_one(rt: &impl Wait, lock: &LocalLock<Counter>) -> bool {
    let mut notes = Notes {
        owner: "one",
        works: 0,
        counted: 0,
    };
    lock.with(rt, Counting, &mut notes);
    notes.counted == 1
}

/// Tries to count by the same lock, and then counts itself. It notes whether the attempt was refused.
#[derive(Drop)]
pub struct Within<'a> {
    lock: &'a LocalLock<Counter>,
}

impl<'a> LockWork<Counter, bool, ()> for Within<'a> {
    ghost may = { λ _ _ _. Unit };

    ghost gives = { λ _ before after _ _ _. after.limit ≡ before.limit };

    fn work(self, counter: &mut Counter, refused: &mut bool) {
        let mut notes = Notes {
            owner: "within",
            works: 0,
            counted: 0,
        };
        *refused = self.lock.try_with(Counting, &mut notes).is_err();
        if counter.count < counter.limit {
            counter.count += 1;
        }
    }
}

/// Counts, and tries to count by the same lock meanwhile. It says whether that was refused.
pub fn refused_within(lock: &LocalLock<Counter>) -> bool {
    let mut refused = false;
    match lock.try_with(Within { lock }, &mut refused) {
        Ok(()) => refused,
        Err(_) => false,
    }
}
