//! Threads that share a collector: what each finds has not ended while its guard stands, and each value ends once.
ghost use Rattle.std.specs.Prelude.{◌≡◌, ◌<◌, IfOk};
ghost use Rattle.seize.specs.Collectors.{its_links, its_words};

use crate::turns::{Seen, work};
use seize::{Collector, IdSource, Refusal};
use seize_test_kit::marked::{Marked, ended, marks};
use std::alloc::Global;
use std::sync::Wait;
use std::sync::atomic::AtomicU64;
use std::test::*;
use std::thread;
use std::thread::Threads;

// How many turns each thread makes.
const TURNS: u64 = 20_000;

// A collector with one link.
fn collector<'a>(alloc: Global) -> Result<Collector<Marked<'a>>, Refusal>
    ensures { IfOk result (λ made. 0 < its_links (its_words made)) }
{
    Collector::new(alloc, &mut IdSource::new(), 1, 1)
}

// Two threads make turns, with the numbers from this one on.
fn two<'a, R: Threads + Wait + Sync>(
    rt: &R,
    collector: &Collector<Marked<'a>>,
    first: u64,
    marks: &'a [AtomicU64],
) -> (Result<Seen, Refusal>, Result<Seen, Refusal>)
    requires { 0 < its_links (its_words collector.now) }
{
    let second = first.wrapping_add(TURNS);
    thread::join(
        rt,
        move || -> Result<Seen, Refusal>
            requires { 0 < its_links (its_words collector.now) }
        { work(collector, first, TURNS, marks, rt) },
        move || -> Result<Seen, Refusal>
            requires { 0 < its_links (its_words collector.now) }
        { work(collector, second, TURNS, marks, rt) },
    )
}

// Four threads do.
fn four<'a, R: Threads + Wait + Sync>(
    rt: &R,
    collector: &Collector<Marked<'a>>,
    marks: &'a [AtomicU64],
) -> Result<(Seen, Seen), Refusal>
    requires { 0 < its_links (its_words collector.now) }
{
    let ((a, b), (c, d)) = thread::join(
        rt,
        move || -> (Result<Seen, Refusal>, Result<Seen, Refusal>)
            requires { 0 < its_links (its_words collector.now) }
        { two(rt, collector, 0, marks) },
        move || -> (Result<Seen, Refusal>, Result<Seen, Refusal>)
            requires { 0 < its_links (its_words collector.now) }
        { two(rt, collector, 2 * TURNS, marks) },
    );
    Ok((a?.and(b?), c?.and(d?)))
}

// Four threads swap values through one link and retire them. No value ended while a guard stood that had found it. When all
// registrations have ended each has ended once, but for the linked one, which ends with the collector.
#[test]
fn four_threads_end_each_value_once(rt: HostRuntime) -> Result<(), Fail> {
    let marks = marks(rt.alloc(), 4 * TURNS)?;
    let collector = collector(rt.alloc())?;
    let (one, other) = four(&rt, &collector, marks.as_slice())?;
    let all = one.and(other);
    assert_eq!(rt; all.early, 0);
    assert_eq!(rt; all.retired, 4 * TURNS - 1);
    assert_eq!(rt; ended(marks.as_slice()), (4 * TURNS - 1, 0));
    drop(collector);
    assert_eq!(rt; ended(marks.as_slice()), (4 * TURNS, 0));
    Ok(())
}
