//! What slots leave in their batches as they end: whoever takes a number next has it, and the last slot in use reclaims it. So nothing is
//! left where no slot is in use, and nobody has to reclaim all.

use crate::ending::{Counting, retire};
use seize::{Collector, Guard, IdSource, Refusal};
use seize_test_kit::values::ended;
use std::alloc::{AllocError, Global};
use std::process::Abort;
use std::sync::Wait;
use std::sync::atomic::AtomicU64;
use std::test::*;
use std::thread;
use std::thread::Threads;

// How many threads come and go, and how often each does.
const THREADS: usize = 8;

const TIMES: u64 = 1_000;

// A collector with no link, and batches of this many values.
pub(crate) fn collector<'a>(alloc: Global, size: usize) -> Result<Counting<'a>, Refusal> {
    let made: Counting<'a> = Collector::new(alloc, &mut IdSource::new(), 1, 0)?;
    Ok(made.batch_size(size))
}

// A registration retires so many values, and ends. It says how many values had ended before that, and after.
fn retire_and_end<'a>(
    rt: &impl Wait,
    collector: &Counting<'a>,
    many: u64,
    ends: &'a AtomicU64,
) -> Result<[u64; 2], Refusal> {
    let mut pass = collector.pass();
    let registration = collector.register(rt, &mut pass)?;
    retire(rt, collector, &registration, many, ends, &mut pass);
    let before = ended(ends);
    registration.end(rt, &mut pass);
    Ok([before, ended(ends)])
}

// A thread does so, which ends then.
fn retire_elsewhere<'a, R: Threads + Wait + Sync>(
    rt: &R,
    collector: &Counting<'a>,
    many: u64,
    ends: &'a AtomicU64,
) -> Result<[u64; 2], Refusal> {
    let (saw, ()) = thread::join(rt, move || retire_and_end(rt, collector, many, ends), || {});
    saw
}

// Two threads do so, one after the other, beside a registration that retires four values then, and ends.
fn end_at_last<'a, R: Threads + Wait + Sync>(
    rt: &R,
    collector: &Counting<'a>,
    ends: &'a AtomicU64,
) -> Result<[[u64; 2]; 3], Refusal> {
    let mut pass = collector.pass();
    let registration = collector.register(rt, &mut pass)?;
    let one = retire_elsewhere(rt, collector, 2, ends);
    let other = retire_elsewhere(rt, collector, 3, ends);
    retire(rt, collector, &registration, 4, ends, &mut pass);
    let before = ended(ends);
    registration.end(rt, &mut pass);
    Ok([one?, other?, [before, ended(ends)]])
}

// No batch is full. What two slots leave as they end beside a third one ends as that does, with what it retired.
#[test]
fn the_last_end_reclaims_what_others_left(rt: HostRuntime) -> Result<(), Fail> {
    let ends = AtomicU64::new(0);
    let collector = collector(rt.alloc(), 32)?;
    assert_eq!(rt;
        end_at_last(&rt, &collector, &ends)?,
        [[0, 0], [0, 0], [0, 9]]
    );
    assert_eq!(rt;
        end_at_last(&rt, &collector, &ends)?,
        [[9, 9], [9, 9], [9, 18]]
    );
    drop(collector);
    assert_eq!(rt; ended(&ends), 18);
    Ok(())
}

// Two registrations retire two values each, and end one after the other.
fn leave_four<'a>(
    rt: &impl Wait,
    collector: &Counting<'a>,
    ends: &'a AtomicU64,
) -> Result<(), Refusal> {
    let mut pass = collector.pass();
    let one = collector.register(rt, &mut pass)?;
    retire(rt, collector, &one, 2, ends, &mut pass);
    let other = collector.register(rt, &mut pass);
    one.end(rt, &mut pass);
    let other = other?;
    let mut its = collector.pass();
    retire(rt, collector, &other, 2, ends, &mut its);
    other.end(rt, &mut its);
    Ok(())
}

// How a number is taken.
#[derive(Clone, Copy)]
enum Way {
    Registers,
    EntersOwned,
}

// Takes a number. It says which, and how many values had ended then.
fn take<'a>(
    rt: &impl Wait,
    collector: &Counting<'a>,
    way: Way,
    ends: &'a AtomicU64,
) -> Result<(usize, u64), Refusal> {
    let mut pass = collector.pass();
    match way {
        Way::Registers => {
            let registration = collector.register(rt, &mut pass)?;
            let took = (registration.thread_id(), ended(ends));
            registration.end(rt, &mut pass);
            Ok(took)
        }
        Way::EntersOwned => {
            let guard = collector.enter_owned(rt, &mut pass)?;
            let took = (guard.thread_id(), ended(ends));
            guard.leave(rt, &mut pass);
            Ok(took)
        }
    }
}

// A thread leaves four values beside slot 0, and then another one takes a number. It says how many had ended before that, and what came.
fn take_beside<'a, R: Threads + Wait + Sync>(
    rt: &R,
    collector: &Counting<'a>,
    way: Way,
    ends: &'a AtomicU64,
) -> Result<(u64, (usize, u64)), Refusal> {
    let mut pass = collector.pass();
    let registration = collector.register(rt, &mut pass)?;
    let (left, ()) = thread::join(rt, move || leave_four(rt, collector, ends), || {});
    let before = ended(ends);
    let (took, ()) = thread::join(rt, move || take(rt, collector, way, ends), || {});
    registration.end(rt, &mut pass);
    left?;
    Ok((before, took?))
}

// At size 4 what was left fills a batch, which ends in the call that takes a number, also where the guard that this makes stands. At size 5
// it doesn't, and ends with the last slot.
#[test]
fn who_takes_a_number_reclaims_what_fills_a_batch(rt: HostRuntime) -> Result<(), Fail> {
    for way in [Way::Registers, Way::EntersOwned] {
        for (size, many) in [(4, 4), (5, 0)] {
            let ends = AtomicU64::new(0);
            let collector = collector(rt.alloc(), size)?;
            assert_eq!(rt; take_beside(&rt, &collector, way, &ends)?, (0, (1, many)));
            assert_eq!(rt; ended(&ends), 4);
        }
    }
    Ok(())
}

// The same beside a guard of slot 0. It says how many values had ended when the number was taken, and when the guard had left.
fn take_beside_a_guard<'a, R: Threads + Wait + Sync + Abort>(
    rt: &R,
    collector: &Counting<'a>,
    way: Way,
    ends: &'a AtomicU64,
) -> Result<(u64, u64), Refusal> {
    let mut pass = collector.pass();
    let registration = collector.register(rt, &mut pass).expect(rt, "memory");
    let guard = registration.enter(&mut pass).expect(rt, "a guard");
    let (left, ()) = thread::join(rt, move || leave_four(rt, collector, ends), || {});
    let (took, ()) = thread::join(rt, move || take(rt, collector, way, ends), || {});
    guard.leave(rt, &mut pass);
    let after = ended(ends);
    registration.end(rt, &mut pass);
    left?;
    Ok((took?.1, after))
}

// What is attempted as a number is taken waits for each slot that is active then.
#[test]
fn what_fills_a_batch_waits_for_active_slots(rt: HostRuntime) -> Result<(), Fail> {
    for way in [Way::Registers, Way::EntersOwned] {
        let ends = AtomicU64::new(0);
        let collector = collector(rt.alloc(), 4)?;
        assert_eq!(rt; take_beside_a_guard(&rt, &collector, way, &ends)?, (0, 4));
        assert_eq!(rt; ended(&ends), 4);
    }
    Ok(())
}

// A registration retires a value and ends, so often, one after another.
fn come_and_go<'a>(rt: &impl Wait, collector: &Counting<'a>, ends: &'a AtomicU64) -> bool {
    let mut well = true;
    for _ in 0..TIMES {
        well = well && retire_and_end(rt, collector, 1, ends).is_ok();
    }
    well
}

// Threads do so. It says whether all went well.
fn come_and_go_all<'a, R: Threads + Wait + Sync>(
    rt: &R,
    alloc: Global,
    collector: &Counting<'a>,
    ends: &'a AtomicU64,
) -> Result<bool, AllocError> {
    let all = thread::map_indices(rt, alloc, THREADS, &|_| come_and_go(rt, collector, ends))?;
    Ok(all.iter().all(|well| *well))
}

// Eight threads register, retire and end 1,000 times each. When all are over each value has ended, whatever the size, and nobody reclaimed
// all.
#[test]
fn what_threads_retire_ends_with_the_last_of_them(rt: HostRuntime) -> Result<(), Fail> {
    for size in [1, 2, 7, 32, 10_000] {
        let ends = AtomicU64::new(0);
        let collector = collector(rt.alloc(), size)?;
        assert!(rt; come_and_go_all(&rt, rt.alloc(), &collector, &ends)?);
        assert_eq!(rt; ended(&ends), THREADS as u64 * TIMES);
        drop(collector);
        assert_eq!(rt; ended(&ends), THREADS as u64 * TIMES);
    }
    Ok(())
}
