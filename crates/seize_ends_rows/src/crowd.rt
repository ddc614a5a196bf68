//! Owned guards that come and go beside many that stand: what they leave as they end goes from one to the next.

use crate::ending::Counting;
use crate::left::collector;
use seize::{Guard, OwnedGuard, Refusal};
use seize_test_kit::values::{Counted, ended};
use std::alloc::{AllocError, Global};
use std::cmp::max;
use std::sync::Wait;
use std::sync::atomic::AtomicU64;
use std::test::*;
use std::thread;
use std::thread::Threads;

// How many guards stand.
const STANDING: usize = 64;

// How many threads make guards beside them, and how many each of them makes.
const THREADS: usize = 4;

const TIMES: u64 = 500;

// A guard that stands: a vector holds only what has a `Drop`.
struct Held<'c, 'a>(OwnedGuard<'c, Counted<'a>>);

impl Drop for Held<'_, '_> {
    fn drop(self) {
        let Held(guard) = self;
        guard.forget();
    }
}

impl Held<'_, '_> {
    // The guard leaves.
    fn leave(self, rt: &impl Wait) {
        let Held(guard) = self;
        let mut pass = guard.collector().pass();
        guard.leave(rt, &mut pass);
    }
}

// A guard, if memory was there.
fn enter_one<'c, 'a>(rt: &impl Wait, collector: &'c Counting<'a>) -> Result<Held<'c, 'a>, Refusal> {
    let mut pass = collector.pass();
    Ok(Held(collector.enter_owned(rt, &mut pass)?))
}

// So many.
fn enter_all<'c, 'a>(
    rt: &impl Wait,
    alloc: Global,
    collector: &'c Counting<'a>,
) -> Result<Vec<Held<'c, 'a>>, Refusal> {
    let mut all = Vec::new(alloc);
    for _ in 0..STANDING {
        all.push(enter_one(rt, collector)?)
            .map_err(AllocError::from)?;
    }
    Ok(all)
}

// An owned guard retires a value, and leaves. It says its number.
fn retire_one<'a>(
    rt: &impl Wait,
    collector: &Counting<'a>,
    ends: &'a AtomicU64,
) -> Result<usize, Refusal> {
    let mut pass = collector.pass();
    let block = collector.owned(Counted { ends });
    let guard = collector.enter_owned(rt, &mut pass)?;
    if let Ok(block) = block {
        guard.defer_retire(rt, &mut pass, collector.unlinked(block));
    }
    let number = guard.thread_id();
    guard.leave(rt, &mut pass);
    Ok(number)
}

// So many do, one after another. It says the greatest number.
fn come_and_go<'a>(
    rt: &impl Wait,
    collector: &Counting<'a>,
    ends: &'a AtomicU64,
) -> Result<usize, Refusal> {
    let mut greatest = 0;
    for _ in 0..TIMES {
        greatest = max(greatest, retire_one(rt, collector, ends)?);
    }
    Ok(greatest)
}

// Threads do so. It says the greatest number, where none was refused.
fn come_and_go_all<'a, R: Threads + Wait + Sync>(
    rt: &R,
    alloc: Global,
    collector: &Counting<'a>,
    ends: &'a AtomicU64,
) -> Result<usize, Refusal> {
    let mut greatest = 0;
    for one in thread::map_indices(rt, alloc, THREADS, &|_| come_and_go(rt, collector, ends))? {
        greatest = max(greatest, one?);
    }
    Ok(greatest)
}

// Beside 64 guards that stand four threads make 500 each, of which each retires a value. They have the numbers after those, and no value
// ends meanwhile. When all guards have left, each has ended.
#[test]
fn guards_come_and_go_beside_many_that_stand(rt: HostRuntime) -> Result<(), Fail> {
    let ends = AtomicU64::new(0);
    let collector = collector(rt.alloc(), 32)?;
    let standing = enter_all(&rt, rt.alloc(), &collector)?;
    let greatest = come_and_go_all(&rt, rt.alloc(), &collector, &ends)?;
    assert!(rt; STANDING <= greatest && greatest < STANDING + THREADS);
    assert_eq!(rt; ended(&ends), 0);
    for held in standing {
        held.leave(&rt);
    }
    assert_eq!(rt; ended(&ends), THREADS as u64 * TIMES);
    drop(collector);
    assert_eq!(rt; ended(&ends), THREADS as u64 * TIMES);
    Ok(())
}
