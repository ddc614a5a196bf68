//! What ends with its collector: each value that links or batches hold, once.
ghost use Rattle.std.specs.Prelude.{◌≡◌, ◌<◌, IfOk, IfSome};
ghost use Rattle.seize.specs.Collectors.{IsBlockOf, IsPassOf, its_links, its_words};
ghost use Rattle.seize.specs.Registrations.{registered_in};

use seize::{Collector, Guard, IdSource, Owned, Pass, Refusal, Registration};
use seize_test_kit::values::{Counted, ended};
use std::alloc::Global;
use std::sync::Wait;
use std::sync::atomic::AtomicU64;
use std::test::*;
use std::thread;
use std::thread::Threads;

// How often each thread puts a value into each link, twice.
pub(crate) const TIMES: u64 = 500;

pub(crate) type Counting<'a> = Collector<Counted<'a>>;

// A collector with three links and batches of 32 values.
pub(crate) fn collector<'a>(alloc: Global) -> Result<Counting<'a>, Refusal>
    ensures { IfOk result (λ made. its_links (its_words made) ≡ 3) }
{
    Collector::new(alloc, &mut IdSource::new(), 1, 3)
}

// A block with a value that counts its end. Where the block is refused the value ends at once.
fn block<'a>(collector: &Counting<'a>, ends: &'a AtomicU64) -> Option<Owned<Counted<'a>>>
    ensures { IfSome result (λ owned. IsBlockOf (its_words collector.now) owned) }
{
    match collector.owned(Counted { ends }) {
        Ok(owned) => Some(owned),
        Err((_, counted)) => {
            drop(counted);
            None
        }
    }
}

// Puts a value into the link, and retires what the link held, with a guard that leaves then.
fn put<'a>(
    rt: &impl Wait,
    registration: &Registration<'_, Counted<'a>>,
    link: usize,
    ends: &'a AtomicU64,
    pass: &mut Pass,
) -> Result<(), Refusal>
    requires pass { IsPassOf (registered_in registration.now) pass.old }
    requires link { link < its_links (registered_in registration.now) }
    ensures { IsPassOf (registered_in registration.now) pass.new }
{
    let guard = registration.enter(pass)?;
    let new = block(guard.collector(), ends);
    if let Some(old) = guard.swap(link, new, pass) {
        guard.defer_retire(rt, pass, old);
    }
    guard.leave(rt, pass);
    Ok(())
}

// Retires so many values that were in no link.
pub(crate) fn retire<'c, 'a>(
    rt: &impl Wait,
    collector: &'c Counting<'a>,
    registration: &Registration<'c, Counted<'a>>,
    count: u64,
    ends: &'a AtomicU64,
    pass: &mut Pass,
)
    requires its { registered_in registration.now ≡ its_words collector.now }
    requires pass { IsPassOf (its_words collector.now) pass.old }
    ensures { IsPassOf (its_words collector.now) pass.new }
{
    for _ in 0..count {
        if let Some(owned) = block(collector, ends) {
            registration.retire(rt, pass, collector.unlinked(owned));
        }
    }
}

// A slot puts a value into each link, twice. Where no other one is in use, the first three end as its number goes back.
pub(crate) fn put_in_all<'a>(
    rt: &impl Wait,
    collector: &Counting<'a>,
    ends: &'a AtomicU64,
) -> Result<(), Refusal>
    requires { its_links (its_words collector.now) ≡ 3 }
{
    let mut pass = collector.pass();
    let registration = collector.register(rt, &mut pass)?;
    let mut answer = Ok(());
    for link in [0, 1, 2, 0, 1, 2] {
        if let Err(refusal) = put(rt, &registration, link, ends, &mut pass) {
            answer = Err(refusal);
        }
    }
    registration.end(rt, &mut pass);
    answer
}

#[test]
fn linked_values_end_with_their_collector(rt: HostRuntime) -> Result<(), Fail> {
    let ends = AtomicU64::new(0);
    let collector = collector(rt.alloc())?;
    put_in_all(&rt, &collector, &ends)?;
    assert_eq!(rt; ended(&ends), 3);
    drop(collector);
    assert_eq!(rt; ended(&ends), 6);
    Ok(())
}

// Two slots at once retire two and three values. The first one ends beside the second, which is forgotten then. So two are left, and three
// wait in a batch.
pub(crate) fn retire_by_two<'a>(
    rt: &impl Wait,
    collector: &Counting<'a>,
    ends: &'a AtomicU64,
) -> Result<(), Refusal> {
    let mut pass = collector.pass();
    let one = collector.register(rt, &mut pass)?;
    retire(rt, collector, &one, 2, ends, &mut pass);
    let other = collector.register(rt, &mut pass);
    one.end(rt, &mut pass);
    let other = other?;
    retire(rt, collector, &other, 3, ends, &mut collector.pass());
    other.forget();
    Ok(())
}

// What a slot left ends with its collector, and so does what is in a batch.
#[test]
fn batches_of_two_slots_end_with_their_collector(rt: HostRuntime) -> Result<(), Fail> {
    let ends = AtomicU64::new(0);
    let collector = collector(rt.alloc())?;
    retire_by_two(&rt, &collector, &ends)?;
    assert_eq!(rt; ended(&ends), 0);
    drop(collector);
    assert_eq!(rt; ended(&ends), 5);
    Ok(())
}

// The first of the batch's 35 values end when the slot leaves, which has a guard meanwhile, and the others with the collector.
#[test]
fn what_ended_before_ends_no_more(rt: HostRuntime) -> Result<(), Fail> {
    let ends = AtomicU64::new(0);
    let collector = collector(rt.alloc())?;
    retire_while_active(&rt, &collector, 35, &ends)?;
    assert_eq!(rt; ended(&ends), 32);
    drop(collector);
    assert_eq!(rt; ended(&ends), 35);
    Ok(())
}

// A slot retires so many values while it has a guard, and is forgotten when it has left.
fn retire_while_active<'a>(
    rt: &impl Wait,
    collector: &Counting<'a>,
    count: u64,
    ends: &'a AtomicU64,
) -> Result<(), Refusal> {
    let mut pass = collector.pass();
    let registration = collector.register(rt, &mut pass)?;
    let guard = registration.enter(&mut pass);
    retire(rt, collector, &registration, count, ends, &mut pass);
    let answer = match guard {
        Ok(guard) => {
            guard.leave(rt, &mut pass);
            Ok(())
        }
        Err(refusal) => Err(refusal),
    };
    registration.forget();
    answer
}

// Two threads put values into the same links, and retire others.
pub(crate) fn put_by_two<'a, R: Threads + Wait + Sync>(
    rt: &R,
    collector: &Counting<'a>,
    ends: &'a AtomicU64,
) -> Result<(), Refusal>
    requires { its_links (its_words collector.now) ≡ 3 }
{
    let (one, other) = thread::join(
        rt,
        move || -> Result<(), Refusal>
            requires { its_links (its_words collector.now) ≡ 3 }
        { put_many(rt, collector, ends) },
        move || -> Result<(), Refusal>
            requires { its_links (its_words collector.now) ≡ 3 }
        { put_many(rt, collector, ends) },
    );
    one?;
    other
}

// The same, many times over, each time with another registration.
fn put_many<'a>(
    rt: &impl Wait,
    collector: &Counting<'a>,
    ends: &'a AtomicU64,
) -> Result<(), Refusal>
    requires { its_links (its_words collector.now) ≡ 3 }
{
    for _ in 0..TIMES {
        put_in_all(rt, collector, ends)?;
    }
    Ok(())
}

// When no slot is in use, each value has ended that was retired. Those in the links end with the collector.
#[test]
fn values_of_two_threads_end_once(rt: HostRuntime) -> Result<(), Fail> {
    let ends = AtomicU64::new(0);
    let collector = collector(rt.alloc())?;
    put_by_two(&rt, &collector, &ends)?;
    assert_eq!(rt; ended(&ends), 12 * TIMES - 3);
    drop(collector);
    assert_eq!(rt; ended(&ends), 12 * TIMES);
    Ok(())
}
