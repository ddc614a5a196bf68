//! Values that own others: these end with them.
ghost use Rattle.std.specs.Prelude.{◌≡◌, ◌<◌, IfOk};
ghost use Rattle.seize.specs.Collectors.{IsBlockOf, IsPassOf, its_links, its_words};
ghost use Rattle.seize.specs.Guards.{guard_collector};

use seize::{Collector, Guard, IdSource, LocalGuard, Owned, Pass, Refusal};
use seize_test_kit::values::{Counted, ended};
use std::alloc::{AllocError, Global};
use std::process::Abort;
use std::sync::Wait;
use std::sync::atomic::AtomicU64;
use std::test::*;

// A value that owns others.
#[derive(Drop)]
struct Bundle<'a> {
    one: Box<Counted<'a>>,
    many: Vec<Counted<'a>>,
}

impl<'a> Bundle<'a> {
    // With one value in a box, and three in a vector.
    fn of_four(alloc: Global, ends: &'a AtomicU64) -> Result<Bundle<'a>, AllocError> {
        let one = Box::new(alloc, Counted { ends })?;
        let mut many = Vec::new(alloc);
        for _ in 0..3u64 {
            many.push(Counted { ends })?;
        }
        Ok(Bundle { one, many })
    }
}

// A collector with one link, and batches of one value.
fn collector<'a>(alloc: Global) -> Result<Collector<Bundle<'a>>, Refusal>
    ensures { IfOk result (λ made. 0 < its_links (its_words made)) }
{
    let made: Collector<Bundle<'a>> = Collector::new(alloc, &mut IdSource::new(), 1, 1)?;
    Ok(made.batch_size(1))
}

// Swaps this value into the link, and retires what came out. It says how many values the link's one owned before.
fn put<'a>(
    rt: &impl Wait,
    guard: &LocalGuard<'_, '_, Bundle<'a>>,
    bundle: Bundle<'a>,
    pass: &mut Pass,
) -> Option<usize>
    requires of { IsPassOf (guard_collector guard.now) pass.old × (0 < its_links (guard_collector guard.now)) }
    ensures { IsPassOf (guard_collector guard.now) pass.new }
{
    let block = guard.collector().owned(bundle).ok()?;
    let old = guard.swap(0, Some(block), pass)?;
    let owned = old.many.len();
    guard.defer_retire(rt, pass, old);
    Some(owned)
}

// Puts two values into the link, of which the first ends when the guard leaves.
fn put_two<'a>(
    rt: &(impl Wait + Abort),
    collector: &Collector<Bundle<'a>>,
    one: Bundle<'a>,
    other: Bundle<'a>,
    ends: &AtomicU64,
)
    requires { 0 < its_links (its_words collector.now) }
{
    let mut pass = collector.pass();
    let registration = collector.register(rt, &mut pass).expect(rt, "memory");
    let guard = registration.enter(&mut pass).expect(rt, "a guard");
    assert_eq!(rt; put(rt, &guard, one, &mut pass), None);
    assert_eq!(rt; put(rt, &guard, other, &mut pass), Some(3));
    assert_eq!(rt; ended(ends), 0);
    guard.leave(rt, &mut pass);
    assert_eq!(rt; ended(ends), 4);
    assert!(rt; registration.end(rt, &mut pass));
}

// One bundle is reclaimed, one stays in the link, and one ends in a block in hand.
fn own_three<'a>(
    rt: &(impl Wait + Abort),
    alloc: Global,
    collector: &Collector<Bundle<'a>>,
    ends: &'a AtomicU64,
) -> Result<(), AllocError>
    requires { 0 < its_links (its_words collector.now) }
{
    let one = Bundle::of_four(alloc, ends)?;
    let other = Bundle::of_four(alloc, ends)?;
    put_two(rt, collector, one, other, ends);
    let third = Bundle::of_four(alloc, ends)?;
    drop(collector.owned(third));
    assert_eq!(rt; ended(ends), 8);
    Ok(())
}

// What a value owns ends with it, and once: that of a value that is reclaimed, of one that its collector ends, and of one in a block in
// hand, which is dropped.
#[test]
fn what_values_own_ends_with_them(rt: HostRuntime) -> Result<(), Fail> {
    let ends = AtomicU64::new(0);
    let collector = collector(rt.alloc())?;
    own_three(&rt, rt.alloc(), &collector, &ends)?;
    drop(collector);
    assert_eq!(rt; ended(&ends), 12);
    Ok(())
}
