//! Guards of one registration, one within another, which retire values by themselves.
ghost use Rattle.std.specs.Prelude.{◌≡◌, ◌<◌, IfOk};
ghost use Rattle.seize.specs.Collectors.{IsPassOf, its_links, its_words};
ghost use Rattle.seize.specs.Guards.{guard_collector};

use seize::{Collector, Guard, IdSource, LocalGuard, Pass, Refusal};
use seize_test_kit::values::{Counted, ended};
use std::alloc::Global;
use std::process::Abort;
use std::sync::Wait;
use std::sync::atomic::AtomicU64;
use std::test::*;

// A collector with one link, and batches of one value.
fn collector<'a>(alloc: Global) -> Result<Collector<Counted<'a>>, Refusal>
    ensures { IfOk result (λ made. 0 < its_links (its_words made)) }
{
    let made: Collector<Counted<'a>> = Collector::new(alloc, &mut IdSource::new(), 1, 1)?;
    Ok(made.batch_size(1))
}

// Swaps a value into the link, in a place of the slot's own where one is free, and retires what came out.
fn put<'a>(
    rt: &impl Wait,
    guard: &LocalGuard<'_, '_, Counted<'a>>,
    ends: &'a AtomicU64,
    pass: &mut Pass,
)
    requires of { IsPassOf (guard_collector guard.now) pass.old × (0 < its_links (guard_collector guard.now)) }
    ensures { IsPassOf (guard_collector guard.now) pass.new }
{
    if let Ok(block) = guard.owned(Counted { ends }) {
        if let Some(old) = guard.swap(0, Some(block), pass) {
            guard.defer_retire(rt, pass, old);
        }
    }
}

// Three guards, one within another: each of the inner ones leaves before the one around it. All but the first value are retired, by each
// of the guards.
fn enter_thrice<'a>(
    rt: &(impl Wait + Abort),
    collector: &Collector<Counted<'a>>,
    ends: &'a AtomicU64,
)
    requires { 0 < its_links (its_words collector.now) }
{
    let mut pass = collector.pass();
    let registration = collector.register(rt, &mut pass).expect(rt, "memory");
    let outer = registration.enter(&mut pass).expect(rt, "a guard");
    put(rt, &outer, ends, &mut pass);
    put(rt, &outer, ends, &mut pass);
    let middle = registration.enter(&mut pass).expect(rt, "a guard");
    put(rt, &middle, ends, &mut pass);
    let inner = registration.enter(&mut pass).expect(rt, "a guard");
    put(rt, &inner, ends, &mut pass);
    inner.leave(rt, &mut pass);
    assert_eq!(rt; ended(ends), 0);
    put(rt, &middle, ends, &mut pass);
    middle.leave(rt, &mut pass);
    assert_eq!(rt; ended(ends), 0);
    outer.leave(rt, &mut pass);
    assert_eq!(rt; ended(ends), 4);
    assert!(rt; registration.end(rt, &mut pass));
}

// What the guards of one registration retired ends when the outermost leaves; the value in the link with the collector.
#[test]
fn the_outermost_guard_ends_what_waits(rt: HostRuntime) -> Result<(), Fail> {
    let ends = AtomicU64::new(0);
    let collector = collector(rt.alloc())?;
    enter_thrice(&rt, &collector, &ends);
    assert_eq!(rt; ended(&ends), 4);
    drop(collector);
    assert_eq!(rt; ended(&ends), 5);
    Ok(())
}
