//! Worked rows: calls of one or two slots in an order that is written down, which values end at which of them, and in which order.
ghost use Rattle.std.specs.Prelude.{◌≡◌, ◌<◌};
ghost use Rattle.seize.specs.Collectors.{IsPassOf, its_links, its_words};
ghost use Rattle.seize.specs.Guards.{guard_collector};
ghost use Rattle.seize.specs.Registrations.{registered_in};

use crate::guards::{Counting, collector, retire};
use crate::meeting;
use seize::{Collector, Guard, IdSource, LocalGuard, OwnedGuard, Pass, Registration};
use seize_test_kit::telling::{Telling, defer, defer_alone, telling};
use seize_test_kit::values::{Counted, Digit, ended};
use std::process::Abort;
use std::sync::Wait;
use std::sync::atomic::{AtomicU64, Ordering};
use std::test::*;
use std::thread;
use std::thread::Threads;

// A guard of the slot retires five values, and leaves.
fn retire_under<'a>(
    rt: &impl Wait,
    registration: &Registration<'_, Counted<'a>>,
    ends: &'a AtomicU64,
    pass: &mut Pass,
)
    requires of { IsPassOf (registered_in registration.now) pass.old × (0 < its_links (registered_in registration.now)) }
    ensures { IsPassOf (registered_in registration.now) pass.new }
{
    if let Ok(guard) = registration.enter(pass) {
        retire(rt, &guard, 6, ends, pass);
        guard.leave(rt, pass);
    }
}

// A slot enters, retires five values and leaves. It says its number.
fn retire_five<'a>(rt: &impl Wait, collector: &Counting<'a>, ends: &'a AtomicU64) -> Option<usize>
    requires { 0 < its_links (its_words collector.now) }
{
    let mut pass = collector.pass();
    let registration = collector.register(rt, &mut pass).ok()?;
    retire_under(rt, &registration, ends, &mut pass);
    let number = registration.thread_id();
    registration.end(rt, &mut pass);
    Some(number)
}

// A slot of another thread does so, which ends then.
pub(crate) fn retire_elsewhere<'a, R: Threads + Wait + Sync>(
    rt: &R,
    collector: &Counting<'a>,
    ends: &'a AtomicU64,
) -> Option<usize>
    requires { 0 < its_links (its_words collector.now) }
{
    let (number, ()) = thread::join(
        rt,
        move || -> Option<usize>
            requires { 0 < its_links (its_words collector.now) }
        { retire_five(rt, collector, ends) },
        || {},
    );
    number
}

// Three guards of slot 0 leave one after another. What another thread's slot retired meanwhile ends with the last of them.
fn leave_thrice<'a, R: Threads + Wait + Sync + Abort>(
    rt: &R,
    collector: &Counting<'a>,
    ends: &'a AtomicU64,
)
    requires { 0 < its_links (its_words collector.now) }
{
    let mut pass = collector.pass();
    let registration = collector.register(rt, &mut pass).expect(rt, "memory");
    let first = registration.enter(&mut pass).expect(rt, "a guard");
    let second = registration.enter(&mut pass).expect(rt, "a guard");
    let third = registration.enter(&mut pass).expect(rt, "a guard");
    assert_eq!(rt; retire_elsewhere(rt, collector, ends), Some(1));
    assert_eq!(rt; ended(ends), 0);
    first.leave(rt, &mut pass);
    assert_eq!(rt; ended(ends), 0);
    second.leave(rt, &mut pass);
    assert_eq!(rt; ended(ends), 0);
    third.leave(rt, &mut pass);
    assert_eq!(rt; ended(ends), 5);
    assert!(rt; registration.end(rt, &mut pass));
}

#[test]
fn what_another_thread_retired_ends_with_the_third_leave(rt: HostRuntime) -> Result<(), Fail> {
    let ends = AtomicU64::new(0);
    let collector = collector(rt.alloc(), 5)?;
    leave_thrice(&rt, &collector, &ends);
    drop(collector);
    assert_eq!(rt; ended(&ends), 6);
    Ok(())
}

// The guard refreshes and leaves. It says how many values had ended between.
fn refresh_and_leave<'a>(
    rt: &impl Wait,
    guard: LocalGuard<'_, '_, Counted<'a>>,
    ends: &'a AtomicU64,
    pass: &mut Pass,
) -> u64
    requires { IsPassOf (guard_collector guard) pass.old }
    ensures { IsPassOf (guard_collector guard.entry) pass.new }
{
    let mut guard = guard;
    guard.refresh(rt, pass);
    let between = ended(ends);
    guard.leave(rt, pass);
    between
}

// The same as before, but each guard refreshes before it leaves: beside others it ends nothing by that.
fn refresh_thrice<'a, R: Threads + Wait + Sync + Abort>(
    rt: &R,
    collector: &Counting<'a>,
    ends: &'a AtomicU64,
)
    requires { 0 < its_links (its_words collector.now) }
{
    let mut pass = collector.pass();
    let registration = collector.register(rt, &mut pass).expect(rt, "memory");
    let first = registration.enter(&mut pass).expect(rt, "a guard");
    let second = registration.enter(&mut pass).expect(rt, "a guard");
    let third = registration.enter(&mut pass).expect(rt, "a guard");
    assert_eq!(rt; retire_elsewhere(rt, collector, ends), Some(1));
    assert_eq!(rt; refresh_and_leave(rt, first, ends, &mut pass), 0);
    assert_eq!(rt; refresh_and_leave(rt, second, ends, &mut pass), 0);
    assert_eq!(rt; ended(ends), 0);
    assert_eq!(rt; refresh_and_leave(rt, third, ends, &mut pass), 5);
    assert!(rt; registration.end(rt, &mut pass));
}

#[test]
fn what_another_thread_retired_ends_with_the_lone_refresh(rt: HostRuntime) -> Result<(), Fail> {
    let ends = AtomicU64::new(0);
    let collector = collector(rt.alloc(), 5)?;
    refresh_thrice(&rt, &collector, &ends);
    drop(collector);
    assert_eq!(rt; ended(&ends), 6);
    Ok(())
}

// A guard on its way to another thread: a closure holds only what has a `Drop`.
struct Handed<'c, 'a>(OwnedGuard<'c, Digit<'a>>);

impl Drop for Handed<'_, '_> {
    fn drop(self) {
        let Handed(guard) = self;
        guard.forget();
    }
}

impl Handed<'_, '_> {
    // The guard leaves.
    fn leave(self, rt: &impl Wait) {
        let Handed(guard) = self;
        let mut pass = guard.collector().pass();
        guard.leave(rt, &mut pass);
    }
}

// Slot 0 retires 1 and 2 while no other slot is active, and 3 while slot 1 is, whose guard leaves first, on another thread.
fn fill_a_batch<'a, R: Threads + Wait + Sync + Abort>(
    rt: &R,
    collector: &Telling<'a>,
    told: &'a AtomicU64,
) {
    let mut pass = collector.pass();
    let writer = collector.register(rt, &mut pass).expect(rt, "memory");
    defer_alone(rt, &writer, 1, told, &mut pass);
    defer_alone(rt, &writer, 2, told, &mut pass);
    let reader = collector.enter_owned(rt, &mut pass).expect(rt, "memory");
    let guard = writer.enter(&mut pass).expect(rt, "a guard");
    defer(rt, &guard, 3, told, &mut pass);
    let reader = Handed(reader);
    thread::join(rt, move || reader.leave(rt), || {});
    assert_eq!(rt; told.load(Ordering::SeqCst), 0);
    guard.leave(rt, &mut pass);
    assert_eq!(rt; told.load(Ordering::SeqCst), 123);
    assert!(rt; writer.end(rt, &mut pass));
}

// A batch of three values, which three guards of one slot retired, ends as the last slot leaves that was active when it was full: the
// oldest value first.
#[test]
fn a_batch_ends_with_the_oldest_value_first(rt: HostRuntime) -> Result<(), Fail> {
    let told = AtomicU64::new(0);
    let collector = telling(rt.alloc(), 3)?;
    fill_a_batch(&rt, &collector, &told);
    Ok(())
}

// Swaps 2 into the link, and tries to exchange what was found before for 3. It says what that found, whose block came back, and what the
// link holds then. What came out is retired.
fn lose<'a>(
    rt: &impl Wait,
    guard: &LocalGuard<'_, '_, Digit<'a>>,
    told: &'a AtomicU64,
    pass: &mut Pass,
) -> Option<[Option<u64>; 3]>
    requires of { IsPassOf (guard_collector guard.now) pass.old × (0 < its_links (guard_collector guard.now)) }
    ensures { IsPassOf (guard_collector guard.now) pass.new }
{
    let two = guard.owned(Digit { digit: 2, told }).ok()?;
    let three = guard.owned(Digit { digit: 3, told }).ok()?;
    let core = guard.core();
    let held = core.protect(0, pass)?;
    let old = core.swap(0, Some(two), pass)?;
    let (found, back) = match core.compare_exchange(0, Some(&held), Some(three), pass) {
        Ok(Some(more)) => {
            guard.defer_retire(rt, pass, more);
            (None, None)
        }
        Ok(None) => (None, None),
        Err(failed) => (
            failed.found.as_ref().map(|shared| shared.digit),
            failed.new.as_ref().map(|block| block.digit),
        ),
    };
    let now = core.protect(0, pass).map(|shared| shared.digit);
    guard.defer_retire(rt, pass, old);
    Some([found, back, now])
}

// The guard puts 1 into the link and does so.
fn lose_once<'a>(rt: &(impl Wait + Abort), collector: &Telling<'a>, told: &'a AtomicU64)
    requires { 0 < its_links (its_words collector.now) }
{
    let mut pass = collector.pass();
    let registration = collector.register(rt, &mut pass).expect(rt, "memory");
    let guard = registration.enter(&mut pass).expect(rt, "a guard");
    let one = guard.owned(Digit { digit: 1, told }).ok();
    if let Some(old) = guard.swap(0, one, &mut pass) {
        guard.defer_retire(rt, &mut pass, old);
    }
    let lost = lose(rt, &guard, told, &mut pass);
    assert_eq!(rt; lost, Some([Some(2), Some(3), Some(2)]));
    assert_eq!(rt; told.load(Ordering::SeqCst), 3);
    guard.leave(rt, &mut pass);
    assert_eq!(rt; told.load(Ordering::SeqCst), 31);
    assert!(rt; registration.end(rt, &mut pass));
}

// A guard's exchange is lost to its own swap. The block that came back ends at once, and what was swapped out ends as the guard leaves.
// The value in the link ends with the collector.
#[test]
fn an_exchange_is_lost_to_a_swap(rt: HostRuntime) -> Result<(), Fail> {
    let told = AtomicU64::new(0);
    let collector = telling(rt.alloc(), 1)?;
    lose_once(&rt, &collector, &told);
    drop(collector);
    assert_eq!(rt; told.load(Ordering::SeqCst), 312);
    Ok(())
}

// Another pass meets this one. It says what the guard reads by the other one then.
fn read_by_another(guard: &LocalGuard<'_, '_, u64>, pass: &mut Pass) -> Option<u64>
    requires of { IsPassOf (guard_collector guard.now) pass.old × (0 < its_links (guard_collector guard.now)) }
    ensures { IsPassOf (guard_collector guard.now) pass.new }
{
    let mut other = guard.collector().pass();
    pass.meet(&mut other);
    guard.protect(0, &mut other).map(|shared| *shared)
}

// Puts 1 and then 2 into the link by one pass, and reads it by that, and by another one that meets it.
fn read_by_two(rt: &(impl Wait + Abort), collector: &Collector<u64>)
    requires { its_links (its_words collector.now) ≡ 2 }
{
    let mut pass = collector.pass();
    let registration = collector.register(rt, &mut pass).expect(rt, "memory");
    let guard = registration.enter(&mut pass).expect(rt, "a guard");
    assert_eq!(rt; meeting::put(rt, &guard, 0, 1, &mut pass), Ok(None));
    assert_eq!(rt; meeting::put(rt, &guard, 0, 2, &mut pass), Ok(Some(1)));
    let found = guard.protect(0, &mut pass).map(|shared| *shared);
    assert_eq!(rt; found, Some(2));
    assert_eq!(rt; read_by_another(&guard, &mut pass), Some(2));
    guard.leave(rt, &mut pass);
    assert!(rt; registration.end(rt, &mut pass));
}

// Calls of one guard by two passes that meet.
#[test]
fn a_pass_that_meets_another_finds_the_last_value(rt: HostRuntime) -> Result<(), Fail> {
    let collector = meeting::collector(rt.alloc())?;
    read_by_two(&rt, &collector);
    Ok(())
}

// What the count is when a value ended before its turn, or after it.
const OUT_OF_TURN: u64 = u64::MAX;

// How many values there are.
const MANY: u64 = 30;

// A value whose turn to end comes when the count is its number: then it counts down.
struct InTurn<'a> {
    number: u64,
    count: &'a AtomicU64,
}

impl Drop for InTurn<'_> {
    fn drop(self) {
        let InTurn { number, count } = self;
        let next = if count.load(Ordering::SeqCst) == number {
            number.wrapping_sub(1)
        } else {
            OUT_OF_TURN
        };
        count.store(next, Ordering::SeqCst);
    }
}

// Retires the values with the numbers from 1 on, and flushes after each.
fn flush_each<'a>(
    rt: &impl Wait,
    guard: &LocalGuard<'_, '_, InTurn<'a>>,
    count: &'a AtomicU64,
    pass: &mut Pass,
)
    requires { IsPassOf (guard_collector guard.now) pass.old }
    ensures { IsPassOf (guard_collector guard.now) pass.new }
{
    for before in 0..MANY {
        let number = before.wrapping_add(1);
        if let Ok(owned) = guard.owned(InTurn { number, count }) {
            guard.defer_retire(rt, pass, guard.collector().unlinked(owned));
        }
        guard.flush(rt, pass);
    }
}

// So does a guard that leaves then.
fn flush_often<'a>(
    rt: &(impl Wait + Abort),
    collector: &Collector<InTurn<'a>>,
    count: &'a AtomicU64,
) {
    let mut pass = collector.pass();
    let registration = collector.register(rt, &mut pass).expect(rt, "memory");
    let guard = registration.enter(&mut pass).expect(rt, "a guard");
    flush_each(rt, &guard, count, &mut pass);
    assert_eq!(rt; count.load(Ordering::SeqCst), MANY);
    guard.leave(rt, &mut pass);
    assert_eq!(rt; count.load(Ordering::SeqCst), 0);
    assert!(rt; registration.end(rt, &mut pass));
}

// Each of many values is a batch of its own. None ends before the leave, and then each does, in its turn: the last one first.
#[test]
fn the_last_batch_ends_first(rt: HostRuntime) -> Result<(), Fail> {
    let count = AtomicU64::new(MANY);
    let made: Collector<InTurn<'_>> = Collector::new(rt.alloc(), &mut IdSource::new(), 1, 0)?;
    let collector = made.batch_size(5);
    flush_often(&rt, &collector, &count);
    Ok(())
}
