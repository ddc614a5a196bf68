//! Code over guards of any kind, run with a guard of each: both do the same.
ghost use Rattle.std.specs.Prelude.{◌≡◌, ◌<◌, Option, IfOk, IfSome};
ghost use Rattle.seize.specs.Blocks.{HoldsOnly};
ghost use Rattle.seize.specs.Collectors.{IsPassOf, its_links, its_store, its_words};
ghost use Rattle.seize.specs.Guards.{core_collector};
ghost use Rattle.seize.specs.Links.{IsUnlinkedOf};
ghost use Rattle.seize_test_kit.specs.declared.marked.Marked.{Marked};

use seize::{Collector, Guard, GuardCore, Home, IdSource, Pass, Reclaim, Refusal, Unlinked};
use seize_test_kit::marked::{Marked, ended, ends_of};
use std::alloc::Global;
use std::process::Abort;
use std::sync::Wait;
use std::sync::atomic::AtomicU64;
use std::test::*;

// What came of the calls on a guard.
#[derive(Clone, Copy, PartialEq, Eq, Debug)]
struct Came {
    // what it read after its swap
    read: Option<u64>,
    // what its exchange took out
    out: Option<u64>,
    // how often that had ended after the flush, and after the refresh
    flushed: u64,
    refreshed: u64,
    // what it read at last
    last: Option<u64>,
}

// A collector with one link.
fn collector<'a>(alloc: Global) -> Result<Collector<Marked<'a>>, Refusal>
    ensures { IfOk result (λ made. 0 < its_links (its_words made)) }
{
    Collector::new(alloc, &mut IdSource::new(), 1, 1)
}

// Swaps this value into the link, and retires what came out.
fn put<'a, G: Guard<Marked<'a>>, W: Wait>(guard: &G, value: Marked<'a>, rt: &W, pass: &mut Pass)
    requires of { IsPassOf (G.its_collector guard.now) pass.old × (0 < its_links (G.its_collector guard.now)) }
    requires fits { (x : Marked) → HoldsOnly G.Reclaimer.owners (its_store (G.its_collector guard.now)) x }
    requires rule { (x y : Option Marked) → G.Reclaimer.keeps 0 x y }
    ensures { IsPassOf (G.its_collector guard.now) pass.new }
{
    if let Ok(block) = guard.owned(value) {
        if let Some(old) = guard.core().swap(0, Some(block), pass) {
            guard.defer_retire(rt, pass, old);
        }
    }
}

// The number that the link holds.
fn read<'a, R: Reclaim<Marked<'a>>, C: Home<Marked<'a>>>(
    core: &GuardCore<'_, Marked<'a>, R, C>,
    pass: &mut Pass,
) -> Option<u64>
    requires of { IsPassOf (core_collector core.now) pass.old × (0 < its_links (core_collector core.now)) }
    ensures { IsPassOf (core_collector core.now) pass.new }
{
    core.protect(0, pass).map(|shared| shared.value)
}

// An exchange that compares with an empty link is lost. The next compares with what was found, and is won: it gives what came out.
fn exchange<'a, 'c, R: Reclaim<Marked<'a>>, C: Home<Marked<'a>>>(
    core: &GuardCore<'c, Marked<'a>, R, C>,
    value: Marked<'a>,
    pass: &mut Pass,
) -> Option<Unlinked<'c, Marked<'a>>>
    requires of { IsPassOf (core_collector core.now) pass.old × (0 < its_links (core_collector core.now)) }
    requires fits { (x : Marked) → HoldsOnly R.owners (its_store (core_collector core.now)) x }
    requires rule { (x y : Option Marked) → R.keeps 0 x y }
    ensures pass { IsPassOf (core_collector core.now) pass.new }
    ensures of { IfSome result (IsUnlinkedOf (core_collector core.now)) }
{
    let new = core.owned(value).ok()?;
    match core.compare_exchange(0, None, Some(new), pass) {
        Ok(old) => old,
        Err(failed) => {
            let new = failed.new?;
            match core.compare_exchange_weak(0, failed.found.as_ref(), Some(new), pass) {
                Ok(old) => old,
                Err(_) => None,
            }
        }
    }
}

// The same, and retires what came out: it gives the number of that.
fn exchange_and_retire<'a, G: Guard<Marked<'a>>, W: Wait>(
    guard: &G,
    value: Marked<'a>,
    rt: &W,
    pass: &mut Pass,
) -> Option<u64>
    requires of { IsPassOf (G.its_collector guard.now) pass.old × (0 < its_links (G.its_collector guard.now)) }
    requires fits { (x : Marked) → HoldsOnly G.Reclaimer.owners (its_store (G.its_collector guard.now)) x }
    requires rule { (x y : Option Marked) → G.Reclaimer.keeps 0 x y }
    ensures { IsPassOf (G.its_collector guard.now) pass.new }
{
    let old = exchange(guard.core(), value, pass)?;
    let out = old.value;
    guard.defer_retire(rt, pass, old);
    Some(out)
}

// Puts the number 0 into the link, exchanges it for 1, flushes and refreshes.
fn make_calls<'a, G: Guard<Marked<'a>>, W: Wait>(
    guard: &mut G,
    marks: &'a [AtomicU64],
    rt: &W,
    pass: &mut Pass,
) -> Came
    requires of { IsPassOf (G.its_collector guard.old) pass.old × (0 < its_links (G.its_collector guard.old)) }
    requires fits { (x : Marked) → HoldsOnly G.Reclaimer.owners (its_store (G.its_collector guard.old)) x }
    requires rule { (x y : Option Marked) → G.Reclaimer.keeps 0 x y }
    ensures pass { IsPassOf (G.its_collector guard.new) pass.new }
    ensures same { G.its_collector guard.new ≡ G.its_collector guard.old }
{
    put(guard, Marked { value: 0, marks }, rt, pass);
    let read_first = read(guard.core(), pass);
    let out = exchange_and_retire(guard, Marked { value: 1, marks }, rt, pass);
    guard.flush(rt, pass);
    let flushed = ends_of(marks, 0);
    guard.refresh(rt, pass);
    let refreshed = ends_of(marks, 0);
    let last = read(guard.core(), pass);
    Came {
        read: read_first,
        out,
        flushed,
        refreshed,
        last,
    }
}

// The calls on a local guard.
fn by_local<'a>(
    rt: &(impl Wait + Abort),
    collector: &Collector<Marked<'a>>,
    marks: &'a [AtomicU64],
) -> Came
    requires { 0 < its_links (its_words collector.now) }
{
    let mut pass = collector.pass();
    let registration = collector.register(rt, &mut pass).expect(rt, "memory");
    let mut guard = registration.enter(&mut pass).expect(rt, "a guard");
    let came = make_calls(&mut guard, marks, rt, &mut pass);
    guard.leave(rt, &mut pass);
    assert!(rt; registration.end(rt, &mut pass));
    came
}

// The calls on an owned guard.
fn by_owned<'a>(
    rt: &(impl Wait + Abort),
    collector: &Collector<Marked<'a>>,
    marks: &'a [AtomicU64],
) -> Came
    requires { 0 < its_links (its_words collector.now) }
{
    let mut pass = collector.pass();
    let mut guard = collector.enter_owned(rt, &mut pass).expect(rt, "memory");
    let came = make_calls(&mut guard, marks, rt, &mut pass);
    guard.leave(rt, &mut pass);
    came
}

// What the exchange took out does not end in the flush, and ends in the refresh, also where the batch has one value alone.
#[test]
fn guards_of_both_kinds_do_the_same(rt: HostRuntime) -> Result<(), Fail> {
    let came = Came {
        read: Some(0),
        out: Some(0),
        flushed: 0,
        refreshed: 1,
        last: Some(1),
    };
    let local = [AtomicU64::new(0), AtomicU64::new(0)];
    let one = collector(rt.alloc())?;
    assert_eq!(rt; by_local(&rt, &one, &local), came);
    drop(one);
    assert_eq!(rt; ended(&local), (2, 0));
    let owned = [AtomicU64::new(0), AtomicU64::new(0)];
    let other = collector(rt.alloc())?;
    assert_eq!(rt; by_owned(&rt, &other, &owned), came);
    drop(other);
    assert_eq!(rt; ended(&owned), (2, 0));
    Ok(())
}
