//! Guards of several slots, on one thread: whose leaving or refreshing ends what was retired, and how exchanges end.
ghost use Rattle.std.specs.Prelude.{◌≡◌, ◌<◌, IfOk, IfSome};
ghost use Rattle.seize.specs.Collectors.{IsBlockOf, IsPassOf, its_links, its_words};
ghost use Rattle.seize.specs.Guards.{guard_collector};

use seize::{Collector, Guard, IdSource, LocalGuard, Owned, Pass, Refusal};
use seize_test_kit::values::{Counted, ended};
use std::alloc::Global;
use std::process::Abort;
use std::sync::Wait;
use std::sync::atomic::AtomicU64;
use std::test::*;

pub(crate) type Counting<'a> = Collector<Counted<'a>>;

// A collector with one link, and batches of this many values.
pub(crate) fn collector<'a>(alloc: Global, size: usize) -> Result<Counting<'a>, Refusal>
    ensures { IfOk result (λ made. 0 < its_links (its_words made)) }
{
    let made: Counting<'a> = Collector::new(alloc, &mut IdSource::new(), 1, 1)?;
    Ok(made.batch_size(size))
}

// A block with a value that counts its end. Where the block is refused the value ends at once.
fn block<'a>(collector: &Counting<'a>, ends: &'a AtomicU64) -> Option<Owned<Counted<'a>>>
    ensures { IfSome result (λ owned. IsBlockOf (its_words collector.now) owned) }
{
    collector.owned(Counted { ends }).ok()
}

// Puts so many values into link 0, one after the other, and retires what was there: all but the last one, and what the link held before.
pub(crate) fn retire<'a>(
    rt: &impl Wait,
    guard: &LocalGuard<'_, '_, Counted<'a>>,
    count: u64,
    ends: &'a AtomicU64,
    pass: &mut Pass,
)
    requires of { IsPassOf (guard_collector guard.now) pass.old × (0 < its_links (guard_collector guard.now)) }
    ensures { IsPassOf (guard_collector guard.now) pass.new }
{
    for _ in 0..count {
        let new = block(guard.collector(), ends);
        if let Some(old) = guard.swap(0, new, pass) {
            guard.defer_retire(rt, pass, old);
        }
    }
}

// Three guards of one slot: what another slot retires waits until the last of them leaves.
fn leave_one_by_one<'a>(rt: &(impl Wait + Abort), collector: &Counting<'a>, ends: &'a AtomicU64)
    requires { 0 < its_links (its_words collector.now) }
{
    let mut pass = collector.pass();
    let reader = collector.register(rt, &mut pass).expect(rt, "memory");
    let writer = collector.register(rt, &mut pass).expect(rt, "memory");
    assert_eq!(rt; (reader.thread_id(), writer.thread_id()), (0, 1));
    let first = reader.enter(&mut pass).expect(rt, "a guard");
    let second = reader.enter(&mut pass).expect(rt, "a guard");
    let third = reader.enter(&mut pass).expect(rt, "a guard");
    let guard = writer.enter(&mut pass).expect(rt, "a guard");
    retire(rt, &guard, 6, ends, &mut pass);
    guard.leave(rt, &mut pass);
    assert_eq!(rt; ended(ends), 0);
    first.leave(rt, &mut pass);
    second.leave(rt, &mut pass);
    assert_eq!(rt; ended(ends), 0);
    third.leave(rt, &mut pass);
    assert_eq!(rt; ended(ends), 5);
    assert!(rt; reader.end(rt, &mut pass));
    assert!(rt; writer.end(rt, &mut pass));
}

#[test]
fn the_last_of_three_guards_ends_what_waits(rt: HostRuntime) -> Result<(), Fail> {
    let ends = AtomicU64::new(0);
    let collector = collector(rt.alloc(), 5)?;
    leave_one_by_one(&rt, &collector, &ends);
    drop(collector);
    assert_eq!(rt; ended(&ends), 6);
    Ok(())
}

// The same, but the guard that stays last refreshes: only then the values end, and what it refreshes beside others ends nothing.
fn refresh_at_last<'a>(rt: &(impl Wait + Abort), collector: &Counting<'a>, ends: &'a AtomicU64)
    requires { 0 < its_links (its_words collector.now) }
{
    let mut pass = collector.pass();
    let reader = collector.register(rt, &mut pass).expect(rt, "memory");
    let writer = collector.register(rt, &mut pass).expect(rt, "memory");
    let mut first = reader.enter(&mut pass).expect(rt, "a guard");
    let second = reader.enter(&mut pass).expect(rt, "a guard");
    let guard = writer.enter(&mut pass).expect(rt, "a guard");
    retire(rt, &guard, 6, ends, &mut pass);
    guard.leave(rt, &mut pass);
    first.refresh(rt, &mut pass);
    second.leave(rt, &mut pass);
    assert_eq!(rt; ended(ends), 0);
    first.refresh(rt, &mut pass);
    assert_eq!(rt; ended(ends), 5);
    first.leave(rt, &mut pass);
    assert!(rt; reader.end(rt, &mut pass));
    assert!(rt; writer.end(rt, &mut pass));
}

#[test]
fn a_lone_guard_ends_what_waits_by_a_refresh(rt: HostRuntime) -> Result<(), Fail> {
    let ends = AtomicU64::new(0);
    let collector = collector(rt.alloc(), 5)?;
    refresh_at_last(&rt, &collector, &ends);
    Ok(())
}

// A flush attempts a batch that is not full: with one active slot one value is enough, and it ends when the slot leaves.
fn flush_one<'a>(rt: &(impl Wait + Abort), collector: &Counting<'a>, ends: &'a AtomicU64)
    requires { 0 < its_links (its_words collector.now) }
{
    let mut pass = collector.pass();
    let writer = collector.register(rt, &mut pass).expect(rt, "memory");
    let guard = writer.enter(&mut pass).expect(rt, "a guard");
    retire(rt, &guard, 2, ends, &mut pass);
    guard.flush(rt, &mut pass);
    assert_eq!(rt; ended(ends), 0);
    guard.leave(rt, &mut pass);
    assert_eq!(rt; ended(ends), 1);
    assert!(rt; writer.end(rt, &mut pass));
}

#[test]
fn a_flush_attempts_a_short_batch(rt: HostRuntime) -> Result<(), Fail> {
    let ends = AtomicU64::new(0);
    let collector = collector(rt.alloc(), 5)?;
    flush_one(&rt, &collector, &ends);
    Ok(())
}

// Registers so many times, one after the other: each time the number is 0, and goes back.
fn register_often(rt: &(impl Wait + Abort), collector: &Collector<u64>, times: u64, pass: &mut Pass)
    requires { IsPassOf (its_words collector.now) pass.old }
    ensures { IsPassOf (its_words collector.now) pass.new }
{
    for _ in 0..times {
        let registration = collector.register(rt, pass).expect(rt, "memory");
        assert_eq!(rt; registration.thread_id(), 0);
        assert!(rt; registration.end(rt, pass));
    }
}

// A number is used again, and a slot whose guard was forgotten keeps its own.
#[test]
fn numbers_are_used_again(rt: HostRuntime) -> Result<(), Fail> {
    let collector: Collector<u64> = Collector::new(rt.alloc(), &mut IdSource::new(), 1, 0)?;
    let mut pass = collector.pass();
    register_often(&rt, &collector, 1000, &mut pass);
    let first = collector.register(&rt, &mut pass).expect(&rt, "memory");
    let guard = first.enter(&mut pass).expect(&rt, "a guard");
    guard.forget(&mut pass);
    assert!(rt; !first.end(&rt, &mut pass));
    let second = collector.register(&rt, &mut pass).expect(&rt, "memory");
    assert_eq!(rt; second.thread_id(), 1);
    second.forget();
    let third = collector.register(&rt, &mut pass).expect(&rt, "memory");
    assert_eq!(rt; third.thread_id(), 2);
    assert!(rt; third.end(&rt, &mut pass));
    Ok(())
}

// What a lost exchange found, and whether its block came back with its value; then whether the exchange with what was found is won.
fn exchange_twice(
    guard: &LocalGuard<'_, '_, u64>,
    rt: &impl Wait,
    pass: &mut Pass,
) -> Option<(u64, u64, bool)>
    requires of { IsPassOf (guard_collector guard.now) pass.old × (0 < its_links (guard_collector guard.now)) }
    ensures { IsPassOf (guard_collector guard.now) pass.new }
{
    let core = guard.core();
    let new = core.collector().owned(3).ok()?;
    match core.compare_exchange(0, None, Some(new), pass) {
        Ok(Some(old)) => {
            guard.defer_retire(rt, pass, old);
            None
        }
        Ok(None) => None,
        Err(failed) => {
            let found = failed.found?;
            let new = failed.new?;
            let (held, back) = (*found, *new);
            match core.compare_exchange(0, Some(&found), Some(new), pass) {
                Ok(Some(old)) => {
                    guard.defer_retire(rt, pass, old);
                    Some((held, back, true))
                }
                Ok(None) => None,
                Err(_) => Some((held, back, false)),
            }
        }
    }
}

// An exchange that compares with an empty link is lost where the link holds a value: it tells the value, and gives the block back. The
// exchange that compares with what was found is won then.
#[test]
fn an_exchange_is_lost_and_then_won(rt: HostRuntime) -> Result<(), Fail> {
    let collector: Collector<u64> = Collector::new(rt.alloc(), &mut IdSource::new(), 1, 1)?;
    let mut pass = collector.pass();
    let registration = collector.register(&rt, &mut pass).expect(&rt, "memory");
    let guard = registration.enter(&mut pass).expect(&rt, "a guard");
    let first = collector.owned(2).expect(&rt, "memory");
    if let Some(old) = guard.swap(0, Some(first), &mut pass) {
        guard.defer_retire(&rt, &mut pass, old);
        panic!(rt; "a link that is not empty");
    }
    let exchanged = exchange_twice(&guard, &rt, &mut pass);
    assert_eq!(rt; exchanged, Some((2, 3, true)));
    let found = guard.protect(0, &mut pass).map(|shared| *shared);
    assert_eq!(rt; found, Some(3));
    guard.leave(&rt, &mut pass);
    assert!(rt; registration.end(&rt, &mut pass));
    Ok(())
}

// Puts a block into the link, and retires what came out.
fn fill(guard: &LocalGuard<'_, '_, u64>, rt: &impl Wait, link: usize, pass: &mut Pass)
    requires of { IsPassOf (guard_collector guard.now) pass.old × (link < its_links (guard_collector guard.now)) }
    ensures { IsPassOf (guard_collector guard.now) pass.new }
{
    let block = guard.owned(7).ok();
    if let Some(old) = guard.swap(link, block, pass) {
        guard.defer_retire(rt, pass, old);
    }
}

// Whether two reads of link 0 find the same block, and whether a read of link 1 finds that one too.
fn same_block(guard: &LocalGuard<'_, '_, u64>, pass: &mut Pass) -> Option<(bool, bool)>
    requires of { IsPassOf (guard_collector guard.now) pass.old × (1 < its_links (guard_collector guard.now)) }
    ensures { IsPassOf (guard_collector guard.now) pass.new }
{
    let first = guard.protect(0, pass)?;
    let again = guard.protect(0, pass)?;
    let other = guard.protect(1, pass)?;
    Some((first.same(&again), first.same(&other)))
}

// Blocks of equal values in two links are not the same.
#[test]
fn two_reads_of_a_link_find_the_same_block(rt: HostRuntime) -> Result<(), Fail> {
    let collector: Collector<u64> = Collector::new(rt.alloc(), &mut IdSource::new(), 1, 2)?;
    let mut pass = collector.pass();
    let registration = collector.register(&rt, &mut pass).expect(&rt, "memory");
    let guard = registration.enter(&mut pass).expect(&rt, "a guard");
    fill(&guard, &rt, 0, &mut pass);
    fill(&guard, &rt, 1, &mut pass);
    assert_eq!(rt; same_block(&guard, &mut pass), Some((true, false)));
    guard.leave(&rt, &mut pass);
    assert!(rt; registration.end(&rt, &mut pass));
    Ok(())
}
