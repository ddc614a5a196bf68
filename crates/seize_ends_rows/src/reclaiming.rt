//! What an exclusive call reclaims: all that was retired, and it says so. The links keep what they hold, and
//! the collector is shared again.

ghost use Rattle.std.specs.Prelude.{◌≡◌, ◌<◌, IfOk};
ghost use Rattle.seize.specs.Collectors.{IsPassOf, its_links, its_words};
ghost use Rattle.seize.specs.Registrations.{registered_in};

use crate::ending::{Counting, TIMES, collector, put_by_two, put_in_all, retire, retire_by_two};
use seize::{Collector, Guard, IdSource, Pass, Refusal, Registration};
use seize_test_kit::marked::{Marked, ended as ended_marks, marks};
use seize_test_kit::values::ended;
use std::alloc::Global;
use std::sync::Wait;
use std::sync::atomic::AtomicU64;
use std::test::*;
use std::thread::Threads;
use std::{mem, thread};

// A slot puts six values into three links beside another one, which is forgotten then. So the three that came out are left.
fn forget_beside<'a>(
    rt: &impl Wait,
    collector: &Counting<'a>,
    ends: &'a AtomicU64,
) -> Result<(), Refusal>
    requires { its_links (its_words collector.now) ≡ 3 }
{
    let mut pass = collector.pass();
    let registration = collector.register(rt, &mut pass)?;
    let put = put_in_all(rt, collector, ends);
    registration.forget();
    put
}

#[test]
fn what_was_retired_ends_and_links_stay(rt: HostRuntime) -> Result<(), Fail> {
    let ends = AtomicU64::new(0);
    let mut collector = collector(rt.alloc())?;
    forget_beside(&rt, &collector, &ends)?;
    assert_eq!(rt; ended(&ends), 0);
    assert!(rt; collector.reclaim_all(&mut ()));
    assert_eq!(rt; ended(&ends), 3);
    // with nothing left it ends nothing
    assert!(rt; collector.reclaim_all(&mut ()));
    assert_eq!(rt; ended(&ends), 3);
    drop(collector);
    assert_eq!(rt; ended(&ends), 6);
    Ok(())
}

#[test]
fn batches_of_two_slots_end_at_once(rt: HostRuntime) -> Result<(), Fail> {
    let ends = AtomicU64::new(0);
    let mut collector = collector(rt.alloc())?;
    for times in 1..4u64 {
        retire_by_two(&rt, &collector, &ends)?;
        assert_eq!(rt; ended(&ends), 5 * (times - 1));
        assert!(rt; collector.reclaim_all(&mut ()));
        assert_eq!(rt; ended(&ends), 5 * times);
    }
    Ok(())
}

#[test]
fn what_two_threads_retired_ends(rt: HostRuntime) -> Result<(), Fail> {
    let ends = AtomicU64::new(0);
    let mut collector = collector(rt.alloc())?;
    put_by_two(&rt, &collector, &ends)?;
    assert_eq!(rt; ended(&ends), 12 * TIMES - 3);
    assert!(rt; collector.reclaim_all(&mut ()));
    assert_eq!(rt; ended(&ends), 12 * TIMES - 3);
    drop(collector);
    assert_eq!(rt; ended(&ends), 12 * TIMES);
    Ok(())
}

// A collector with one link.
fn numbers<'a>(alloc: Global) -> Result<Collector<Marked<'a>>, Refusal>
    ensures { IfOk result (λ made. 0 < its_links (its_words made)) }
{
    Collector::new(alloc, &mut IdSource::new(), 1, 1)
}

// Puts this number into the link, and retires what was there.
fn put<'a>(
    rt: &impl Wait,
    registration: &Registration<'_, Marked<'a>>,
    number: Marked<'a>,
    pass: &mut Pass,
) -> Result<(), Refusal>
    requires of { IsPassOf (registered_in registration.now) pass.old × (0 < its_links (registered_in registration.now)) }
    ensures { IsPassOf (registered_in registration.now) pass.new }
{
    let block = match registration.owned(number) {
        Ok(block) => block,
        Err((refusal, _)) => return Err(refusal),
    };
    let guard = registration.enter(pass)?;
    if let Some(old) = guard.swap(0, Some(block), pass) {
        guard.defer_retire(rt, pass, old);
    }
    guard.leave(rt, pass);
    Ok(())
}

// Puts so many numbers into the link, one after the other, and says which one it holds then.
fn put_many<'a>(
    rt: &impl Wait,
    collector: &Collector<Marked<'a>>,
    many: u64,
    marks: &'a [AtomicU64],
) -> Result<Option<u64>, Refusal>
    requires { 0 < its_links (its_words collector.now) }
{
    let mut pass = collector.pass();
    let registration = collector.register(rt, &mut pass)?;
    let mut answer = Ok(());
    for value in 0..many {
        if let Err(refusal) = put(rt, &registration, Marked { value, marks }, &mut pass) {
            answer = Err(refusal);
        }
    }
    let found = read(rt, &registration, &mut pass);
    registration.end(rt, &mut pass);
    answer?;
    found
}

// The number in the link.
fn read<'a>(
    rt: &impl Wait,
    registration: &Registration<'_, Marked<'a>>,
    pass: &mut Pass,
) -> Result<Option<u64>, Refusal>
    requires of { IsPassOf (registered_in registration.now) pass.old × (0 < its_links (registered_in registration.now)) }
    ensures { IsPassOf (registered_in registration.now) pass.new }
{
    let guard = registration.enter(pass)?;
    let found = guard.protect(0, pass).map(|shared| shared.value);
    guard.leave(rt, pass);
    Ok(found)
}

// Puts ten numbers into the link of a new collector and has all reclaimed. It says which number the link held before and after, whether
// all was reclaimed, and how many numbers had ended then, and how many more than once.
fn reclaim<'a>(
    rt: &impl Wait,
    alloc: Global,
    marks: &'a [AtomicU64],
) -> Result<(Option<u64>, bool, (u64, u64), Option<u64>), Refusal> {
    let mut collector = numbers(alloc)?;
    let before = put_many(rt, &collector, 10, marks)?;
    let all = collector.reclaim_all(&mut ());
    let ends = ended_marks(marks);
    let after = put_many(rt, &collector, 0, marks)?;
    Ok((before, all, ends, after))
}

#[test]
fn a_link_keeps_its_number_and_each_other_ends_once(rt: HostRuntime) -> Result<(), Fail> {
    let marks = marks(rt.alloc(), 10)?;
    let made = reclaim(&rt, rt.alloc(), marks.as_slice())?;
    assert_eq!(rt; made, (Some(9), true, (9, 0), Some(9)));
    assert_eq!(rt; ended_marks(marks.as_slice()), (10, 0));
    Ok(())
}

// A slot retires two values, and is forgotten. So is the pass of these calls.
fn forget_pass<'a>(
    rt: &impl Wait,
    collector: &Counting<'a>,
    ends: &'a AtomicU64,
) -> Result<(), Refusal> {
    let mut pass = collector.pass();
    let registration = collector.register(rt, &mut pass)?;
    retire(rt, collector, &registration, 2, ends, &mut pass);
    registration.forget();
    mem::forget(pass);
    Ok(())
}

// A thread does so, which ends then.
fn forget_elsewhere<'a, R: Threads + Wait + Sync>(
    rt: &R,
    collector: &Counting<'a>,
    ends: &'a AtomicU64,
) -> Result<(), Refusal> {
    let (done, ()) = thread::join(rt, move || forget_pass(rt, collector, ends), || {});
    done
}

// A forgotten pass keeps nobody from having the collector alone.
#[test]
fn forgotten_passes_keep_nobody_out(rt: HostRuntime) -> Result<(), Fail> {
    let ends = AtomicU64::new(0);
    let mut collector = collector(rt.alloc())?;
    forget_pass(&rt, &collector, &ends)?;
    forget_elsewhere(&rt, &collector, &ends)?;
    assert_eq!(rt; ended(&ends), 0);
    assert!(rt; collector.reclaim_all(&mut ()));
    assert_eq!(rt; ended(&ends), 4);
    Ok(())
}
