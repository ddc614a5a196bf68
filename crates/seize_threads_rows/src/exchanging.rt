//! Threads that add to one number at once: each exchanges the block that it read for one with the next number, until it wins.
ghost use Rattle.std.specs.Prelude.{◌≡◌, ◌<◌, IfOk, IfSome};
ghost use Rattle.seize.specs.Collectors.{IsBlockOf, IsPassOf, its_links, its_words};
ghost use Rattle.seize.specs.Guards.{guard_collector};
ghost use Rattle.seize.specs.Registrations.{registered_in};

use crate::sums::{Sum, Tried, collector, put, read};
use seize::{Collector, Guard, LocalGuard, Owned, Pass, Refusal, Registration};
use seize_test_kit::marked::{Marked, ended, marks};
use std::sync::Wait;
use std::sync::atomic::AtomicU64;
use std::test::*;
use std::thread;
use std::thread::Threads;

// How often each thread adds 1.
const TURNS: u64 = 2_000;

// How often a thread tries in one turn at most.
const TRIES: u64 = 10_000_000;

// One try: where the link holds what was read, the block goes there with the next number. Where it is lost the block comes back.
fn exchange<'a>(
    rt: &impl Wait,
    guard: &LocalGuard<'_, '_, Sum<'a>>,
    block: Owned<Sum<'a>>,
    pass: &mut Pass,
) -> (Tried, Option<Owned<Sum<'a>>>)
    requires of { IsPassOf (guard_collector guard.now) pass.old × (0 < its_links (guard_collector guard.now)) }
    requires block { IsBlockOf (guard_collector guard.now) block }
    ensures pass { IsPassOf (guard_collector guard.now) pass.new }
    ensures back { IfSome result.1 (λ owned. IsBlockOf (guard_collector guard.now) owned) }
{
    let mut block = block;
    let core = guard.core();
    let Some(found) = core.protect(0, pass) else {
        return (Tried::odd(), None);
    };
    let (number, mark) = (found.number, block.mark.value);
    let next = number.wrapping_add(1);
    block.number = next;
    match core.compare_exchange(0, Some(&found), Some(block), pass) {
        Ok(Some(old)) => {
            let same = old.number == number;
            guard.defer_retire(rt, pass, old);
            (Tried::won(same), None)
        }
        Ok(None) => (Tried::odd(), None),
        Err(failed) => {
            let later = match &failed.found {
                Some(held) => held.number > number,
                None => false,
            };
            let back = match &failed.new {
                Some(block) => block.number == next && block.mark.value == mark,
                None => false,
            };
            (Tried::lost(later && back), failed.new)
        }
    }
}

// Tries until it has won, with one block.
fn add<'a>(
    rt: &impl Wait,
    guard: &LocalGuard<'_, '_, Sum<'a>>,
    mark: Marked<'a>,
    pass: &mut Pass,
) -> Result<Tried, Refusal>
    requires of { IsPassOf (guard_collector guard.now) pass.old × (0 < its_links (guard_collector guard.now)) }
    ensures { IsPassOf (guard_collector guard.now) pass.new }
{
    let mut left = match guard.owned(Sum { number: 0, mark }) {
        Ok(block) => Some(block),
        Err((refusal, _)) => return Err(refusal),
    };
    let mut all = Tried::none();
    for _ in 0..TRIES {
        let Some(block) = left else {
            break;
        };
        let (tried, back) = exchange(rt, guard, block, pass);
        all = all.and(tried);
        left = back;
    }
    Ok(all)
}

// So many turns, each with a guard of its own.
fn add_often<'a>(
    rt: &impl Wait,
    registration: &Registration<'_, Sum<'a>>,
    first: u64,
    marks: &'a [AtomicU64],
    pass: &mut Pass,
) -> Result<Tried, Refusal>
    requires of { IsPassOf (registered_in registration.now) pass.old × (0 < its_links (registered_in registration.now)) }
    ensures { IsPassOf (registered_in registration.now) pass.new }
{
    let mut all = Tried::none();
    for n in 0..TURNS {
        let value = first.wrapping_add(n);
        let guard = registration.enter(pass)?;
        let added = add(rt, &guard, Marked { value, marks }, pass);
        guard.leave(rt, pass);
        all = all.and(added?);
    }
    Ok(all)
}

// Registers for that.
fn work<'a>(
    rt: &impl Wait,
    collector: &Collector<Sum<'a>>,
    first: u64,
    marks: &'a [AtomicU64],
) -> Result<Tried, Refusal>
    requires { 0 < its_links (its_words collector.now) }
{
    let mut pass = collector.pass();
    let registration = collector.register(rt, &mut pass)?;
    let added = add_often(rt, &registration, first, marks, &mut pass);
    registration.end(rt, &mut pass);
    added
}

// Two threads do so.
fn two<'a, R: Threads + Wait + Sync>(
    rt: &R,
    collector: &Collector<Sum<'a>>,
    first: u64,
    marks: &'a [AtomicU64],
) -> Result<Tried, Refusal>
    requires { 0 < its_links (its_words collector.now) }
{
    let second = first.wrapping_add(TURNS);
    let (one, other) = thread::join(
        rt,
        move || -> Result<Tried, Refusal>
            requires { 0 < its_links (its_words collector.now) }
        { work(rt, collector, first, marks) },
        move || -> Result<Tried, Refusal>
            requires { 0 < its_links (its_words collector.now) }
        { work(rt, collector, second, marks) },
    );
    Ok(one?.and(other?))
}

// Four do.
fn four<'a, R: Threads + Wait + Sync>(
    rt: &R,
    collector: &Collector<Sum<'a>>,
    marks: &'a [AtomicU64],
) -> Result<Tried, Refusal>
    requires { 0 < its_links (its_words collector.now) }
{
    let (one, other) = thread::join(
        rt,
        move || -> Result<Tried, Refusal>
            requires { 0 < its_links (its_words collector.now) }
        { two(rt, collector, 1, marks) },
        move || -> Result<Tried, Refusal>
            requires { 0 < its_links (its_words collector.now) }
        { two(rt, collector, 1 + 2 * TURNS, marks) },
    );
    Ok(one?.and(other?))
}

// Four threads add 1 to one number, 2,000 times each. No addition is lost. Each lost try found a later number, and its block came back; it
// was lost to one won by another thread, so for each won there are three lost at most. Each block ends once.
#[test]
fn four_threads_add_by_exchanges(rt: HostRuntime) -> Result<(), Fail> {
    let marks = marks(rt.alloc(), 1 + 4 * TURNS)?;
    let collector = collector(rt.alloc())?;
    put(&rt, &collector, marks.as_slice())?;
    let tried = four(&rt, &collector, marks.as_slice())?;
    assert_eq!(rt; (tried.won, tried.odd), (4 * TURNS, 0));
    assert!(rt; tried.lost <= 3 * tried.won);
    assert_eq!(rt; read(&rt, &collector)?, Some(4 * TURNS));
    assert_eq!(rt; ended(marks.as_slice()), (4 * TURNS, 0));
    drop(collector);
    assert_eq!(rt; ended(marks.as_slice()), (1 + 4 * TURNS, 0));
    Ok(())
}
