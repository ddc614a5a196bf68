//! Threads that make an owned guard of their own for every turn.
ghost use Rattle.std.specs.Prelude.{◌≡◌, ◌<◌, IfOk};
ghost use Rattle.seize.specs.Collectors.{IsPassOf, its_links, its_words};
ghost use Rattle.seize.specs.Guards.{owned_collector};

use seize::{Collector, Guard, IdSource, OwnedGuard, Pass, Refusal};
use seize_test_kit::marked::{Marked, ended, ends_of, marks};
use std::alloc::Global;
use std::cmp::max;
use std::sync::Wait;
use std::sync::atomic::AtomicU64;
use std::test::*;
use std::thread;
use std::thread::Threads;

// How many turns each thread makes.
const TURNS: u64 = 2_000;

// What the turns of a thread came to.
#[derive(Clone, Copy, PartialEq, Eq, Debug)]
struct Seen {
    // how often values that it found had ended while its guard stood
    early: u64,
    // how many it retired
    retired: u64,
    // the greatest number of its slots
    slot: usize,
}

impl Seen {
    // Both together.
    fn and(self, other: Seen) -> Seen {
        Seen {
            early: self.early.wrapping_add(other.early),
            retired: self.retired.wrapping_add(other.retired),
            slot: max(self.slot, other.slot),
        }
    }
}

// A collector with one link.
pub(crate) fn collector<'a>(alloc: Global) -> Result<Collector<Marked<'a>>, Refusal>
    ensures { IfOk result (λ made. 0 < its_links (its_words made)) }
{
    Collector::new(alloc, &mut IdSource::new(), 1, 1)
}

// Swaps this value into the link, and retires what came out. It says how many it retired.
pub(crate) fn replace<'a>(
    rt: &impl Wait,
    guard: &OwnedGuard<'_, Marked<'a>>,
    value: Marked<'a>,
    pass: &mut Pass,
) -> Result<u64, Refusal>
    requires of { IsPassOf (owned_collector guard.now) pass.old × (0 < its_links (owned_collector guard.now)) }
    ensures { IsPassOf (owned_collector guard.now) pass.new }
{
    let block = match guard.owned(value) {
        Ok(block) => block,
        Err((refusal, _)) => return Err(refusal),
    };
    match guard.swap(0, Some(block), pass) {
        Some(old) => {
            guard.defer_retire(rt, pass, old);
            Ok(1)
        }
        None => Ok(0),
    }
}

// One turn: makes a guard, reads the link, swaps this value in, retires what came out, and leaves. What it found has not ended then.
fn turn<'a>(
    rt: &impl Wait,
    collector: &Collector<Marked<'a>>,
    value: Marked<'a>,
    pass: &mut Pass,
) -> Result<Seen, Refusal>
    requires of { IsPassOf (its_words collector.now) pass.old × (0 < its_links (its_words collector.now)) }
    ensures { IsPassOf (its_words collector.now) pass.new }
{
    let marks = value.marks;
    let guard = collector.enter_owned(rt, pass)?;
    let shared = guard.protect(0, pass);
    let replaced = replace(rt, &guard, value, pass);
    let early = match &shared {
        Some(shared) => ends_of(marks, shared.value),
        None => 0,
    };
    let slot = guard.thread_id();
    guard.leave(rt, pass);
    Ok(Seen {
        early,
        retired: replaced?,
        slot,
    })
}

// So many turns, with the numbers from this one on.
fn work<'a>(
    rt: &impl Wait,
    collector: &Collector<Marked<'a>>,
    first: u64,
    marks: &'a [AtomicU64],
) -> Result<Seen, Refusal>
    requires { 0 < its_links (its_words collector.now) }
{
    let mut pass = collector.pass();
    let mut all = Seen {
        early: 0,
        retired: 0,
        slot: 0,
    };
    for n in 0..TURNS {
        let value = first.wrapping_add(n);
        all = all.and(turn(rt, collector, Marked { value, marks }, &mut pass)?);
    }
    Ok(all)
}

// Two threads do so.
fn two<'a, R: Threads + Wait + Sync>(
    rt: &R,
    collector: &Collector<Marked<'a>>,
    first: u64,
    marks: &'a [AtomicU64],
) -> Result<Seen, Refusal>
    requires { 0 < its_links (its_words collector.now) }
{
    let second = first.wrapping_add(TURNS);
    let (one, other) = thread::join(
        rt,
        move || -> Result<Seen, Refusal>
            requires { 0 < its_links (its_words collector.now) }
        { work(rt, collector, first, marks) },
        move || -> Result<Seen, Refusal>
            requires { 0 < its_links (its_words collector.now) }
        { work(rt, collector, second, marks) },
    );
    Ok(one?.and(other?))
}

// Four do.
fn four<'a, R: Threads + Wait + Sync>(
    rt: &R,
    collector: &Collector<Marked<'a>>,
    marks: &'a [AtomicU64],
) -> Result<Seen, Refusal>
    requires { 0 < its_links (its_words collector.now) }
{
    let (one, other) = thread::join(
        rt,
        move || -> Result<Seen, Refusal>
            requires { 0 < its_links (its_words collector.now) }
        { two(rt, collector, 0, marks) },
        move || -> Result<Seen, Refusal>
            requires { 0 < its_links (its_words collector.now) }
        { two(rt, collector, 2 * TURNS, marks) },
    );
    Ok(one?.and(other?))
}

// Four threads make 2,000 owned guards each, and swap and retire a value with each. No value ends while a guard stands that has found it,
// and each has ended once when all guards have left, but for the linked one. The numbers go from one guard to the next: there are four at
// most.
#[test]
fn four_threads_make_guards_of_their_own(rt: HostRuntime) -> Result<(), Fail> {
    let marks = marks(rt.alloc(), 4 * TURNS)?;
    let collector = collector(rt.alloc())?;
    let seen = four(&rt, &collector, marks.as_slice())?;
    assert_eq!(rt; (seen.early, seen.retired), (0, 4 * TURNS - 1));
    assert!(rt; seen.slot < 4);
    assert_eq!(rt; ended(marks.as_slice()), (4 * TURNS - 1, 0));
    drop(collector);
    assert_eq!(rt; ended(marks.as_slice()), (4 * TURNS, 0));
    Ok(())
}
