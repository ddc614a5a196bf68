//! Counters under a lock. Whoever counts lends its notes to each work, and knows them afterwards.
ghost use Rattle.std.specs.Prelude.{◌≡◌, ◌≤◌, ◌<◌, ◌+◌, ◌^◌};

use seize_cells::{Lock, LockWork};
use seize_content::Steady;
use std::sync::Wait;

/// A counter with a number, which is its label. It is sound while it counts no further than its limit.
#[derive(Drop)]
pub struct Counter {
    /// The number that stands on it.
    pub number: u64,
    /// How far it counts.
    pub limit: u64,
    /// How far it has counted.
    pub count: u64,
}

impl Steady for Counter {
    ghost label = { λ counter. counter.number };

    ghost sound = { λ counter. counter.count ≤ counter.limit };
}

/// What a thread notes of its works.
#[derive(Drop)]
pub struct Notes<'a> {
    /// Whose they are.
    pub owner: &'a str,
    /// How many works there were.
    pub works: u64,
    /// How many of them counted.
    pub counted: u64,
}

/// Counts 1 where it fits, and notes that.
#[derive(Drop)]
pub struct Counting;

impl<'a> LockWork<Counter, Notes<'a>, ()> for Counting {
    ghost may = { λ _ _ notes. (notes.counted ≤ notes.works) × (notes.works + 1 < 2 ^ 64) };

    ghost gives = { λ _ before after notes notes' _. (after.limit ≡ before.limit)
        × (after.count + notes.counted ≡ before.count + notes'.counted)
        × (notes'.works ≡ notes.works + 1) × (notes'.counted ≤ notes'.works) };

    fn work(self, counter: &mut Counter, notes: &mut Notes<'a>) {
        notes.works += 1;
        if counter.count < counter.limit {
            counter.count += 1;
            notes.counted += 1;
        }
    }
}

/// A new counter under a lock.
pub fn new_counter(number: u64, limit: u64) -> Lock<Counter>
    ensures { result ≡ number }
{
    Lock::new(Counter {
        number,
        limit,
        count: 0,
    })
}

/// Counts so many times, each time under the lock.
pub fn count<'a>(rt: &impl Wait, lock: &Lock<Counter>, notes: &mut Notes<'a>, times: u64)
    requires { (notes.old.counted ≤ notes.old.works) × (notes.old.works + times < 2 ^ 64) }
    ensures { (notes.new.counted ≤ notes.new.works) × (notes.new.works ≡ notes.old.works + times) }
{
    let mut left = times;
    while left > 0 {
        lock.with(rt, Counting, notes);
        left -= 1;
    }
}

/// Counts so many times on behalf of `owner`, and gives how often it counted.
pub fn counted(rt: &impl Wait, lock: &Lock<Counter>, owner: &str, times: u64) -> u64
    requires { times + 1 < 2 ^ 64 }
    ensures { result ≤ times }
{
    let mut notes = Notes {
        owner,
        works: 0,
        counted: 0,
    };
    count(rt, lock, &mut notes, times);
    notes.counted
}

/// Counts with a lock that it owns, and passes the lock on.
pub fn count_and_pass_on(rt: &impl Wait, lock: Lock<Counter>, times: u64) -> Lock<Counter>
    requires { times + 1 < 2 ^ 64 }
    ensures { result ≡ lock }
{
    counted(rt, &lock, "owner", times);
    lock
}
