//! Readers on four threads, while a fifth one swaps a thousand values through the link that they read.
ghost use Rattle.std.specs.Prelude.{◌<◌};
ghost use Rattle.seize.specs.Collectors.{IsPassOf, its_links, its_words};

use crate::own_guards::{collector, replace};
use seize::{Collector, Pass, Refusal};
use seize_test_kit::marked::{Marked, ended, ends_of, marks};
use std::sync::Wait;
use std::sync::atomic::AtomicU64;
use std::test::*;
use std::thread;
use std::thread::Threads;

// How many turns each thread makes.
const TURNS: u64 = 1_000;

// One turn of a reader: it makes a guard, reads the link, and leaves. It says how often what it found had ended while the guard stood.
fn look<'a>(
    rt: &impl Wait,
    collector: &Collector<Marked<'a>>,
    marks: &'a [AtomicU64],
    pass: &mut Pass,
) -> Result<u64, Refusal>
    requires of { IsPassOf (its_words collector.now) pass.old × (0 < its_links (its_words collector.now)) }
    ensures { IsPassOf (its_words collector.now) pass.new }
{
    let guard = collector.enter_owned(rt, pass)?;
    let early = match &guard.protect(0, pass) {
        Some(shared) => ends_of(marks, shared.value),
        None => 0,
    };
    guard.leave(rt, pass);
    Ok(early)
}

// All turns of a reader.
fn look_often<'a>(
    rt: &impl Wait,
    collector: &Collector<Marked<'a>>,
    marks: &'a [AtomicU64],
) -> Result<u64, Refusal>
    requires { 0 < its_links (its_words collector.now) }
{
    let mut pass = collector.pass();
    let mut early: u64 = 0;
    for _ in 0..TURNS {
        early = early.wrapping_add(look(rt, collector, marks, &mut pass)?);
    }
    Ok(early)
}

// Two threads read so.
fn two<'a, R: Threads + Wait + Sync>(
    rt: &R,
    collector: &Collector<Marked<'a>>,
    marks: &'a [AtomicU64],
) -> Result<u64, Refusal>
    requires { 0 < its_links (its_words collector.now) }
{
    let (one, other) = thread::join(
        rt,
        move || -> Result<u64, Refusal>
            requires { 0 < its_links (its_words collector.now) }
        { look_often(rt, collector, marks) },
        move || -> Result<u64, Refusal>
            requires { 0 < its_links (its_words collector.now) }
        { look_often(rt, collector, marks) },
    );
    Ok(one?.wrapping_add(other?))
}

// Four do.
fn four<'a, R: Threads + Wait + Sync>(
    rt: &R,
    collector: &Collector<Marked<'a>>,
    marks: &'a [AtomicU64],
) -> Result<u64, Refusal>
    requires { 0 < its_links (its_words collector.now) }
{
    let (one, other) = thread::join(
        rt,
        move || -> Result<u64, Refusal>
            requires { 0 < its_links (its_words collector.now) }
        { two(rt, collector, marks) },
        move || -> Result<u64, Refusal>
            requires { 0 < its_links (its_words collector.now) }
        { two(rt, collector, marks) },
    );
    Ok(one?.wrapping_add(other?))
}

// One turn of the other thread: it makes a guard, swaps this value in, retires what came out, and leaves.
fn put<'a>(
    rt: &impl Wait,
    collector: &Collector<Marked<'a>>,
    value: Marked<'a>,
    pass: &mut Pass,
) -> Result<u64, Refusal>
    requires of { IsPassOf (its_words collector.now) pass.old × (0 < its_links (its_words collector.now)) }
    ensures { IsPassOf (its_words collector.now) pass.new }
{
    let guard = collector.enter_owned(rt, pass)?;
    let retired = replace(rt, &guard, value, pass);
    guard.leave(rt, pass);
    retired
}

// All its turns, with the numbers from 0 on. It says how many values it retired.
fn put_often<'a>(
    rt: &impl Wait,
    collector: &Collector<Marked<'a>>,
    marks: &'a [AtomicU64],
) -> Result<u64, Refusal>
    requires { 0 < its_links (its_words collector.now) }
{
    let mut pass = collector.pass();
    let mut retired: u64 = 0;
    for value in 0..TURNS {
        retired = retired.wrapping_add(put(rt, collector, Marked { value, marks }, &mut pass)?);
    }
    Ok(retired)
}

// Four threads read while a fifth one swaps. It says how often a value had ended early, and how many were retired.
fn five<'a, R: Threads + Wait + Sync>(
    rt: &R,
    collector: &Collector<Marked<'a>>,
    marks: &'a [AtomicU64],
) -> Result<(u64, u64), Refusal>
    requires { 0 < its_links (its_words collector.now) }
{
    let (early, retired) = thread::join(
        rt,
        move || -> Result<u64, Refusal>
            requires { 0 < its_links (its_words collector.now) }
        { four(rt, collector, marks) },
        move || -> Result<u64, Refusal>
            requires { 0 < its_links (its_words collector.now) }
        { put_often(rt, collector, marks) },
    );
    Ok((early?, retired?))
}

// Four threads read the link a thousand times, each time with an owned guard of their own, while a fifth one swaps a thousand values
// through it. No value ends while a guard stands that has found it. When all guards have left each has ended once, but for the last one,
// which is linked and ends with the collector. So nothing is left to reclaim.
#[test]
fn four_threads_read_while_a_fifth_swaps(rt: HostRuntime) -> Result<(), Fail> {
    let marks = marks(rt.alloc(), TURNS)?;
    let mut collector = collector(rt.alloc())?;
    let seen = five(&rt, &collector, marks.as_slice())?;
    assert_eq!(rt; seen, (0, TURNS - 1));
    assert_eq!(rt; ended(marks.as_slice()), (TURNS - 1, 0));
    assert!(rt; collector.reclaim_all(&mut ()));
    assert_eq!(rt; ended(marks.as_slice()), (TURNS - 1, 0));
    assert_eq!(rt; ends_of(marks.as_slice(), TURNS - 1), 0);
    drop(collector);
    assert_eq!(rt; ended(marks.as_slice()), (TURNS, 0));
    Ok(())
}
