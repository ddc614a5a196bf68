//! Locks, on one thread and on two. What is printed is the same whatever thread goes first.
ghost use Rattle.std.specs.Prelude.{◌≡◌, ◌≤◌};

use crate::counters::{Counter, count_and_pass_on, counted, new_counter};
use crate::local::{count_one, new_local, refused_within};
use crate::values::Ending;
use crate::waiting::{Flags, ask, hold};
use seize_cells::{LocalLock, Lock};
use seize_content::Steady;
use std::mem::size_of;
use std::sync::Wait;
use std::sync::atomic::{AtomicU64, Ordering};
use std::test::*;
use std::thread;
use std::thread::Threads;

const TIMES: u64 = 10_000;

// Two threads count under one lock. It gives how often each counted, and the counter.
fn counted_by_two<R: Threads + Wait + Sync>(
    rt: &R,
    number: u64,
    limit: u64,
) -> ((u64, u64), Counter)
    ensures { (result.1.number ≡ number) × (result.1.count ≤ result.1.limit) }
{
    let lock = new_counter(number, limit);
    let shared = &lock;
    let counts = thread::join(
        rt,
        move || -> u64 { counted(rt, shared, "one", TIMES) },
        move || -> u64 { counted(rt, shared, "other", TIMES) },
    );
    (counts, lock.into_value())
}

#[test]
fn two_threads_count_under_one_lock(rt: HostRuntime) {
    let (counts, counter) = counted_by_two(&rt, 4, 100_000);
    assert_eq!(rt; counts, (10_000, 10_000));
    assert_eq!(rt; (counter.number, counter.count), (4, 20_000));
}

// Not all of it fits. Who counted how often depends on the threads, and the sum does not.
#[test]
fn two_threads_count_no_further_than_the_limit(rt: HostRuntime) {
    let ((one, other), counter) = counted_by_two(&rt, 5, 15_000);
    assert_eq!(rt; (counter.number, counter.count), (5, 15_000));
    assert_eq!(rt; one.wrapping_add(other), 15_000);
}

// One thread holds the lock until the other one has asked for it. That one finds what the first one left, and fills the counter.
fn waited_for<R: Threads + Wait + Sync>(rt: &R) -> ((u64, u64), Counter) {
    let lock = new_counter(6, 9);
    counted(rt, &lock, "first", 2);
    let flags = Flags::new();
    let (shared, both) = (&lock, &flags);
    let found = thread::join(
        rt,
        move || -> u64 { hold(rt, shared, both) },
        move || -> u64 { ask(rt, shared, both) },
    );
    (found, lock.into_value())
}

#[test]
fn a_thread_that_waits_is_woken(rt: HostRuntime) {
    let (found, counter) = waited_for(&rt);
    assert_eq!(rt; found, (2, 2));
    assert_eq!(rt; (counter.number, counter.count), (6, 9));
}

// A lock goes to another thread and comes back.
fn sent_and_back<R: Threads + Wait + Sync>(rt: &R, number: u64) -> Counter
    ensures { result.number ≡ number }
{
    let lock = new_counter(number, TIMES);
    let (lock, _) = thread::join(
        rt,
        move || -> Lock<Counter>
            ensures { result ≡ lock }
        { count_and_pass_on(rt, lock, 3) },
        || (),
    );
    count_and_pass_on(rt, lock, 2).into_value()
}

#[test]
fn a_lock_goes_to_a_thread_and_comes_back(rt: HostRuntime) {
    let counter = sent_and_back(&rt, 7);
    assert_eq!(rt; (counter.number, counter.count), (7, 5));
}

#[test]
fn no_work_is_begun_within_a_work_of_one_thread(rt: HostRuntime) {
    let lock = new_local(8, 3);
    assert_eq!(rt; count_one(&rt, &lock), true);
    assert_eq!(rt; refused_within(&lock), true);
    assert_eq!(rt;
        (count_one(&rt, &lock), count_one(&rt, &lock)),
        (true, false)
    );
    let counter = lock.into_value();
    assert_eq!(rt; (counter.number, counter.limit, counter.count), (8, 3, 3));
}

// A lock of one thread goes to another one, which counts there, and comes back.
fn local_sent_and_back<R: Threads + Wait + Sync>(rt: &R, number: u64) -> Counter
    ensures { result.number ≡ number }
{
    let lock = new_local(number, 2);
    count_one(rt, &lock);
    let (lock, _) = thread::join(
        rt,
        move || -> LocalLock<Counter>
            ensures { result ≡ lock }
        {
            count_one(rt, &lock);
            count_one(rt, &lock);
            lock
        },
        || (),
    );
    lock.into_value()
}

#[test]
fn a_local_lock_goes_to_a_thread_and_comes_back(rt: HostRuntime) {
    let counter = local_sent_and_back(&rt, 9);
    assert_eq!(rt; (counter.number, counter.count), (9, 2));
}

#[test]
fn each_value_ends_once(rt: HostRuntime) {
    let ends = AtomicU64::new(0);
    let local = LocalLock::new(Ending {
        ends: &ends,
        name: 5,
    });
    drop(local);
    assert_eq!(rt; ends.load(Ordering::SeqCst), 1);
    let lock = Lock::new(Ending {
        ends: &ends,
        name: 6,
    });
    drop(lock);
    assert_eq!(rt; ends.load(Ordering::SeqCst), 2);
}

// What goes to other threads.
fn is_sent<T: Send>(value: T) -> T {
    value
}

fn is_shared<T: Sync>(value: &T) -> &T {
    value
}

fn lock_sends<M: Steady + Send>(lock: Lock<M>) -> Lock<M> {
    is_shared(&lock);
    is_sent(lock)
}

fn local_sends<M: Steady + Send>(lock: LocalLock<M>) -> LocalLock<M> {
    is_sent(lock)
}

// A lock of one thread has a byte beside its value, and a lock three words. The value's size is rounded up to whole words.
#[test]
fn a_lock_has_little_beside_its_value(rt: HostRuntime) {
    assert_eq!(rt; size_of::<LocalLock<Counter>>(), size_of::<Counter>() + 8);
    assert_eq!(rt; size_of::<Lock<Counter>>(), size_of::<Counter>() + 24);
}
