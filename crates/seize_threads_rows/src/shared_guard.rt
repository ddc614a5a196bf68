//! Threads that share one owned guard, and add to one number by exchanges with it.
ghost use Rattle.std.specs.Prelude.{◌≡◌, ◌<◌, IfSome};
ghost use Rattle.seize.specs.Collectors.{IsBlockOf, IsPassOf, its_links};
ghost use Rattle.seize.specs.Guards.{owned_collector};

use crate::sums::{Sum, Tried, collector, put};
use seize::{Guard, Owned, OwnedGuard, Pass, Refusal};
use seize_test_kit::marked::{Marked, ended, marks};
use std::sync::Wait;
use std::sync::atomic::AtomicU64;
use std::test::*;
use std::thread;
use std::thread::Threads;

// How often each thread adds 1.
const TURNS: u64 = 2_000;

// How often a thread tries in one turn at most.
const TRIES: u64 = 10_000_000;

// One try: where the link holds what was read, the block goes there with the next number. Where it is lost the block comes back.
fn exchange<'a>(
    rt: &impl Wait,
    guard: &OwnedGuard<'_, Sum<'a>>,
    block: Owned<Sum<'a>>,
    pass: &mut Pass,
) -> (Tried, Option<Owned<Sum<'a>>>)
    requires of { IsPassOf (owned_collector guard.now) pass.old × (0 < its_links (owned_collector guard.now)) }
    requires block { IsBlockOf (owned_collector guard.now) block }
    ensures pass { IsPassOf (owned_collector guard.now) pass.new }
    ensures back { IfSome result.1 (λ owned. IsBlockOf (owned_collector guard.now) owned) }
{
    let mut block = block;
    let core = guard.core();
    let Some(found) = core.protect(0, pass) else {
        return (Tried::odd(), None);
    };
    let number = found.number;
    block.number = number.wrapping_add(1);
    match core.compare_exchange(0, Some(&found), Some(block), pass) {
        Ok(Some(old)) => {
            let same = old.number == number;
            guard.defer_retire(rt, pass, old);
            (Tried::won(same), None)
        }
        Ok(None) => (Tried::odd(), None),
        Err(failed) => {
            let later = match &failed.found {
                Some(held) => held.number > number,
                None => false,
            };
            (Tried::lost(later), failed.new)
        }
    }
}

// Tries until it has won, with one block.
fn add<'a>(
    rt: &impl Wait,
    guard: &OwnedGuard<'_, Sum<'a>>,
    mark: Marked<'a>,
    pass: &mut Pass,
) -> Result<Tried, Refusal>
    requires of { IsPassOf (owned_collector guard.now) pass.old × (0 < its_links (owned_collector guard.now)) }
    ensures { IsPassOf (owned_collector guard.now) pass.new }
{
    let mut left = match guard.owned(Sum { number: 0, mark }) {
        Ok(block) => Some(block),
        Err((refusal, _)) => return Err(refusal),
    };
    let mut all = Tried::none();
    for _ in 0..TRIES {
        let Some(block) = left else {
            break;
        };
        let (tried, back) = exchange(rt, guard, block, pass);
        all = all.and(tried);
        left = back;
    }
    Ok(all)
}

// So many turns, with a pass of the thread's own.
fn work<'a>(
    rt: &impl Wait,
    guard: &OwnedGuard<'_, Sum<'a>>,
    first: u64,
    marks: &'a [AtomicU64],
) -> Result<Tried, Refusal>
    requires { 0 < its_links (owned_collector guard.now) }
{
    let mut pass = guard.collector().pass();
    let mut all = Tried::none();
    for n in 0..TURNS {
        let value = first.wrapping_add(n);
        all = all.and(add(rt, guard, Marked { value, marks }, &mut pass)?);
    }
    Ok(all)
}

// Two threads do so.
fn two<'a, R: Threads + Wait + Sync>(
    rt: &R,
    guard: &OwnedGuard<'_, Sum<'a>>,
    first: u64,
    marks: &'a [AtomicU64],
) -> Result<Tried, Refusal>
    requires { 0 < its_links (owned_collector guard.now) }
{
    let second = first.wrapping_add(TURNS);
    let (one, other) = thread::join(
        rt,
        move || -> Result<Tried, Refusal>
            requires { 0 < its_links (owned_collector guard.now) }
        { work(rt, guard, first, marks) },
        move || -> Result<Tried, Refusal>
            requires { 0 < its_links (owned_collector guard.now) }
        { work(rt, guard, second, marks) },
    );
    Ok(one?.and(other?))
}

// Four do.
fn four<'a, R: Threads + Wait + Sync>(
    rt: &R,
    guard: &OwnedGuard<'_, Sum<'a>>,
    marks: &'a [AtomicU64],
) -> Result<Tried, Refusal>
    requires { 0 < its_links (owned_collector guard.now) }
{
    let (one, other) = thread::join(
        rt,
        move || -> Result<Tried, Refusal>
            requires { 0 < its_links (owned_collector guard.now) }
        { two(rt, guard, 1, marks) },
        move || -> Result<Tried, Refusal>
            requires { 0 < its_links (owned_collector guard.now) }
        { two(rt, guard, 1 + 2 * TURNS, marks) },
    );
    Ok(one?.and(other?))
}

// Four threads add 1 to one number, 2,000 times each, with one owned guard. No addition is lost, and nothing ends. When the guard is
// refreshed, all ends but the block in the link, which the guard reads then; that ends with the collector. Each ends once.
#[test]
fn four_threads_add_by_one_guard(rt: HostRuntime) -> Result<(), Fail> {
    let marks = marks(rt.alloc(), 1 + 4 * TURNS)?;
    let collector = collector(rt.alloc())?;
    put(&rt, &collector, marks.as_slice())?;
    let mut pass = collector.pass();
    let mut guard = collector.enter_owned(&rt, &mut pass).expect(&rt, "memory");
    let tried = four(&rt, &guard, marks.as_slice());
    let early = ended(marks.as_slice());
    guard.refresh(&rt, &mut pass);
    let refreshed = ended(marks.as_slice());
    let number = guard.protect(0, &mut pass).map(|shared| shared.number);
    guard.leave(&rt, &mut pass);
    let tried = tried?;
    assert_eq!(rt; (tried.won, tried.odd), (4 * TURNS, 0));
    assert!(rt; tried.lost <= 3 * tried.won);
    assert_eq!(rt; (early, refreshed), ((0, 0), (4 * TURNS, 0)));
    assert_eq!(rt; number, Some(4 * TURNS));
    drop(pass);
    drop(collector);
    assert_eq!(rt; ended(marks.as_slice()), (1 + 4 * TURNS, 0));
    Ok(())
}

// Four threads do so by a guard that is forgotten then. When all is reclaimed, its slot leaves: all ends but the block in the link, and
// each once.
#[test]
fn a_guard_that_threads_shared_is_forgotten(rt: HostRuntime) -> Result<(), Fail> {
    let marks = marks(rt.alloc(), 1 + 4 * TURNS)?;
    let mut collector = collector(rt.alloc())?;
    put(&rt, &collector, marks.as_slice())?;
    let guard = collector
        .enter_owned(&rt, &mut collector.pass())
        .expect(&rt, "memory");
    let tried = four(&rt, &guard, marks.as_slice());
    guard.forget();
    assert_eq!(rt; tried?.won, 4 * TURNS);
    assert_eq!(rt; ended(marks.as_slice()), (0, 0));
    assert!(rt; collector.reclaim_all(&mut ()));
    assert_eq!(rt; ended(marks.as_slice()), (4 * TURNS, 0));
    drop(collector);
    assert_eq!(rt; ended(marks.as_slice()), (1 + 4 * TURNS, 0));
    Ok(())
}
