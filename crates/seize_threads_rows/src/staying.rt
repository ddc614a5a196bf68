//! A reader that stays under its guard while other threads retire very many values.
ghost use Rattle.std.specs.Prelude.{◌≡◌, ◌<◌, IfOk};
ghost use Rattle.seize.specs.Collectors.{IsPassOf, its_links, its_words};
ghost use Rattle.seize.specs.Guards.{guard_collector};
ghost use Rattle.seize.specs.Registrations.{registered_in};

use crate::turns::{Seen, replace, work};
use seize::{Collector, IdSource, LocalGuard, Pass, Refusal, Registration};
use seize_test_kit::marked::{Marked, ended, ends_of, marks};
use std::alloc::Global;
use std::sync::Wait;
use std::sync::atomic::AtomicU64;
use std::test::*;
use std::thread;
use std::thread::Threads;

// How many values each of two threads puts into the link.
const TURNS: u64 = 50_000;

// A collector with one link.
fn collector<'a>(alloc: Global) -> Result<Collector<Marked<'a>>, Refusal>
    ensures { IfOk result (λ made. 0 < its_links (its_words made)) }
{
    Collector::new(alloc, &mut IdSource::new(), 1, 1)
}

// Two threads put all the numbers but 0 into the link, and retire what comes out.
fn others<'a, R: Threads + Wait + Sync>(
    rt: &R,
    collector: &Collector<Marked<'a>>,
    marks: &'a [AtomicU64],
) -> Result<Seen, Refusal>
    requires { 0 < its_links (its_words collector.now) }
{
    let (one, other) = thread::join(
        rt,
        move || -> Result<Seen, Refusal>
            requires { 0 < its_links (its_words collector.now) }
        { work(collector, 1, TURNS, marks, rt) },
        move || -> Result<Seen, Refusal>
            requires { 0 < its_links (its_words collector.now) }
        { work(collector, 1 + TURNS, TURNS, marks, rt) },
    );
    Ok(one?.and(other?))
}

// What a reader saw.
#[derive(Clone, Copy, PartialEq, Eq, Debug)]
struct Saw {
    // the number that it had found, as it read that at last
    value: Option<u64>,
    // how often this value had ended then
    ends: u64,
    // what the other threads saw meanwhile
    others: Seen,
}

// Puts number 0 into the link and finds it, lets the others work, and reads it once more.
fn read_long<'a, R: Threads + Wait + Sync>(
    rt: &R,
    guard: &LocalGuard<'_, '_, Marked<'a>>,
    marks: &'a [AtomicU64],
    pass: &mut Pass,
) -> Result<Saw, Refusal>
    requires of { IsPassOf (guard_collector guard.now) pass.old × (0 < its_links (guard_collector guard.now)) }
    ensures { IsPassOf (guard_collector guard.now) pass.new }
{
    replace(guard, 0, Marked { value: 0, marks }, rt, pass)?;
    let found = guard.protect(0, pass);
    let others = others(rt, guard.collector(), marks)?;
    Ok(Saw {
        value: found.map(|shared| shared.value),
        ends: ends_of(marks, 0),
        others,
    })
}

// The reader registers and enters, and leaves at last.
fn stay<'a, R: Threads + Wait + Sync>(
    rt: &R,
    registration: &Registration<'_, Marked<'a>>,
    marks: &'a [AtomicU64],
    pass: &mut Pass,
) -> Result<Saw, Refusal>
    requires of { IsPassOf (registered_in registration.now) pass.old × (0 < its_links (registered_in registration.now)) }
    ensures { IsPassOf (registered_in registration.now) pass.new }
{
    let guard = registration.enter(pass)?;
    let saw = read_long(rt, &guard, marks, pass);
    guard.leave(rt, pass);
    saw
}

// Registers for that.
fn read<'a, R: Threads + Wait + Sync>(
    rt: &R,
    collector: &Collector<Marked<'a>>,
    marks: &'a [AtomicU64],
) -> Result<Saw, Refusal>
    requires { 0 < its_links (its_words collector.now) }
{
    let mut pass = collector.pass();
    let registration = collector.register(rt, &mut pass)?;
    let saw = stay(rt, &registration, marks, &mut pass);
    registration.end(rt, &mut pass);
    saw
}

// A reader finds a value, and stays while two threads retire 100,000. It reads the value still, which has not ended. When the last
// registration has ended, each value has ended once, but for the linked one, which ends with the collector.
#[test]
fn a_value_lasts_while_its_reader_stays(rt: HostRuntime) -> Result<(), Fail> {
    let marks = marks(rt.alloc(), 1 + 2 * TURNS)?;
    let collector = collector(rt.alloc())?;
    let saw = read(&rt, &collector, marks.as_slice())?;
    assert_eq!(rt; (saw.value, saw.ends), (Some(0), 0));
    assert_eq!(rt; (saw.others.early, saw.others.retired), (0, 2 * TURNS));
    assert_eq!(rt; ended(marks.as_slice()), (2 * TURNS, 0));
    assert_eq!(rt; ends_of(marks.as_slice(), 0), 1);
    drop(collector);
    assert_eq!(rt; ended(marks.as_slice()), (1 + 2 * TURNS, 0));
    Ok(())
}
