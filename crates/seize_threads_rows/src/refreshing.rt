//! Readers that hold one guard each and refresh it, while another thread swaps values through several links and retires them.
ghost use Rattle.std.specs.Prelude.{◌≡◌, ◌<◌, IfOk};
ghost use Rattle.seize.specs.Collectors.{IsPassOf, its_links, its_words};
ghost use Rattle.seize.specs.Guards.{guard_collector};
ghost use Rattle.seize.specs.Registrations.{registered_in};

use crate::signs::{set, wait_for};
use crate::turns::replace;
use seize::{Collector, Guard, IdSource, LocalGuard, Pass, Refusal, Registration, Shared};
use seize_test_kit::marked::{Marked, ended, ends_of, marks};
use std::alloc::Global;
use std::sync::Wait;
use std::sync::atomic::{AtomicU64, Ordering};
use std::test::*;
use std::thread;
use std::thread::Threads;

// How many links there are.
const LINKS: u64 = 3;

// How many values the writer puts into them. All but the last three are retired, four in each batch.
const TURNS: u64 = 10_003;

// How often a reader reads at most.
const ROUNDS: u64 = 10_000_000;

// How many readers there are.
const READERS: u64 = 3;

// What the threads say to each other.
#[derive(Drop)]
struct Signs {
    // how many readers have a guard
    come: AtomicU64,
    // whether the writer has retired all
    over: AtomicU64,
    // how many readers have refreshed since
    refreshed: AtomicU64,
}

// What a reader saw.
#[derive(Clone, Copy, PartialEq, Eq, Debug)]
struct Saw {
    // how many values had ended before the refresh after they were read, or read as another number then
    early: u64,
    // how many values had ended when all readers had refreshed after the writer's last turn, and how many more than once
    ended: (u64, u64),
}

// A collector with three links, and batches of four values.
fn collector<'a>(alloc: Global) -> Result<Collector<Marked<'a>>, Refusal>
    ensures { IfOk result (λ made. its_links (its_words made) ≡ 3) }
{
    let made: Collector<Marked<'a>> = Collector::new(alloc, &mut IdSource::new(), 1, 3)?;
    Ok(made.batch_size(4))
}

// The number that was found.
fn number(found: &Option<Shared<'_, Marked<'_>>>) -> Option<u64> {
    match found {
        Some(shared) => Some(shared.value),
        None => None,
    }
}

// How often this number ended, where there is one.
fn ends(marks: &[AtomicU64], number: Option<u64>) -> u64 {
    match number {
        Some(value) => ends_of(marks, value),
        None => 0,
    }
}

// Reads all links, lets other threads go first, and reads each value again. It says how often those had ended, and one more where one reads
// as another number.
fn read_all<'a>(
    guard: &LocalGuard<'_, '_, Marked<'a>>,
    marks: &'a [AtomicU64],
    pass: &mut Pass,
) -> u64
    requires of { IsPassOf (guard_collector guard.now) pass.old × (its_links (guard_collector guard.now) ≡ 3) }
    ensures { IsPassOf (guard_collector guard.now) pass.new }
{
    let one = guard.protect(0, pass);
    let two = guard.protect(1, pass);
    let three = guard.protect(2, pass);
    let first = (number(&one), number(&two), number(&three));
    thread::yield_now();
    let last = (number(&one), number(&two), number(&three));
    ends(marks, first.0)
        .wrapping_add(ends(marks, first.1))
        .wrapping_add(ends(marks, first.2))
        .wrapping_add(u64::from(first != last))
}

// Reads all links and refreshes, again and again until the writer is over, and once after that. It says how much was early.
fn read_until_over<'a>(
    rt: &impl Wait,
    guard: &mut LocalGuard<'_, '_, Marked<'a>>,
    signs: &Signs,
    marks: &'a [AtomicU64],
    pass: &mut Pass,
) -> u64
    requires of { IsPassOf (guard_collector guard.old) pass.old × (its_links (guard_collector guard.old) ≡ 3) }
    ensures { IsPassOf (guard_collector guard.new) pass.new × (guard_collector guard.new ≡ guard_collector guard.old) }
{
    let mut early: u64 = 0;
    for _ in 0..ROUNDS {
        let over = signs.over.load(Ordering::SeqCst);
        early = early.wrapping_add(read_all(guard, marks, pass));
        guard.refresh(rt, pass);
        if over != 0 {
            break;
        }
    }
    early
}

// A reader enters, says so, and reads until the writer is over. When all have refreshed then, it looks how much has ended, and leaves.
fn stay<'a>(
    rt: &impl Wait,
    registration: &Registration<'_, Marked<'a>>,
    signs: &Signs,
    marks: &'a [AtomicU64],
    pass: &mut Pass,
) -> Result<Saw, Refusal>
    requires of { IsPassOf (registered_in registration.now) pass.old × (its_links (registered_in registration.now) ≡ 3) }
    ensures { IsPassOf (registered_in registration.now) pass.new }
{
    let mut guard = registration.enter(pass)?;
    set(&signs.come);
    let early = read_until_over(rt, &mut guard, signs, marks, pass);
    set(&signs.refreshed);
    wait_for(&signs.refreshed, READERS);
    let ended = ended(marks);
    guard.leave(rt, pass);
    Ok(Saw { early, ended })
}

// Registers for that.
fn read<'a>(
    rt: &impl Wait,
    collector: &Collector<Marked<'a>>,
    signs: &Signs,
    marks: &'a [AtomicU64],
) -> Result<Saw, Refusal>
    requires { its_links (its_words collector.now) ≡ 3 }
{
    let mut pass = collector.pass();
    let registration = collector.register(rt, &mut pass)?;
    let saw = stay(rt, &registration, signs, marks, &mut pass);
    registration.end(rt, &mut pass);
    saw
}

// The writer's turns: each swaps a value into the next link, with a guard of its own. It says how many it retired.
fn replace_all<'a>(
    rt: &impl Wait,
    registration: &Registration<'_, Marked<'a>>,
    marks: &'a [AtomicU64],
    pass: &mut Pass,
) -> Result<u64, Refusal>
    requires of { IsPassOf (registered_in registration.now) pass.old × (its_links (registered_in registration.now) ≡ 3) }
    ensures { IsPassOf (registered_in registration.now) pass.new }
{
    let mut retired: u64 = 0;
    for value in 0..TURNS {
        let guard = registration.enter(pass)?;
        let link = (value % LINKS) as usize;
        let replaced = replace(&guard, link, Marked { value, marks }, rt, pass);
        guard.leave(rt, pass);
        retired = retired.wrapping_add(replaced?);
    }
    Ok(retired)
}

// The writer registers, waits for the readers, makes its turns, and says that it is over.
fn write<'a>(
    rt: &impl Wait,
    collector: &Collector<Marked<'a>>,
    signs: &Signs,
    marks: &'a [AtomicU64],
) -> Result<u64, Refusal>
    requires { its_links (its_words collector.now) ≡ 3 }
{
    let mut pass = collector.pass();
    let registration = collector.register(rt, &mut pass)?;
    wait_for(&signs.come, READERS);
    let retired = replace_all(rt, &registration, marks, &mut pass);
    set(&signs.over);
    registration.end(rt, &mut pass);
    retired
}

// Two readers.
fn two<'a, R: Threads + Wait + Sync>(
    rt: &R,
    collector: &Collector<Marked<'a>>,
    signs: &Signs,
    marks: &'a [AtomicU64],
) -> (Result<Saw, Refusal>, Result<Saw, Refusal>)
    requires { its_links (its_words collector.now) ≡ 3 }
{
    thread::join(
        rt,
        move || -> Result<Saw, Refusal>
            requires { its_links (its_words collector.now) ≡ 3 }
        { read(rt, collector, signs, marks) },
        move || -> Result<Saw, Refusal>
            requires { its_links (its_words collector.now) ≡ 3 }
        { read(rt, collector, signs, marks) },
    )
}

// A reader and the writer.
fn reader_and_writer<'a, R: Threads + Wait + Sync>(
    rt: &R,
    collector: &Collector<Marked<'a>>,
    signs: &Signs,
    marks: &'a [AtomicU64],
) -> (Result<Saw, Refusal>, Result<u64, Refusal>)
    requires { its_links (its_words collector.now) ≡ 3 }
{
    thread::join(
        rt,
        move || -> Result<Saw, Refusal>
            requires { its_links (its_words collector.now) ≡ 3 }
        { read(rt, collector, signs, marks) },
        move || -> Result<u64, Refusal>
            requires { its_links (its_words collector.now) ≡ 3 }
        { write(rt, collector, signs, marks) },
    )
}

// All four. It says what the readers saw, and how many values the writer retired.
fn four<'a, R: Threads + Wait + Sync>(
    rt: &R,
    collector: &Collector<Marked<'a>>,
    signs: &Signs,
    marks: &'a [AtomicU64],
) -> Result<(Saw, Saw, Saw, u64), Refusal>
    requires { its_links (its_words collector.now) ≡ 3 }
{
    let ((a, b), (c, retired)) = thread::join(
        rt,
        move || -> (Result<Saw, Refusal>, Result<Saw, Refusal>)
            requires { its_links (its_words collector.now) ≡ 3 }
        { two(rt, collector, signs, marks) },
        move || -> (Result<Saw, Refusal>, Result<u64, Refusal>)
            requires { its_links (its_words collector.now) ≡ 3 }
        { reader_and_writer(rt, collector, signs, marks) },
    );
    Ok((a?, b?, c?, retired?))
}

// Three readers refresh and never leave, while a fourth thread retires 10,000 values. None that a reader read ended before its refresh.
// When all have refreshed after the last retirement, each has ended, under the guards that stand; those in the links end with the
// collector.
#[test]
fn readers_that_refresh_let_values_end(rt: HostRuntime) -> Result<(), Fail> {
    let marks = marks(rt.alloc(), TURNS)?;
    let collector = collector(rt.alloc())?;
    let signs = Signs {
        come: AtomicU64::new(0),
        over: AtomicU64::new(0),
        refreshed: AtomicU64::new(0),
    };
    let saw = Saw {
        early: 0,
        ended: (TURNS - LINKS, 0),
    };
    let worked = four(&rt, &collector, &signs, marks.as_slice())?;
    assert_eq!(rt; worked, (saw, saw, saw, TURNS - LINKS));
    drop(collector);
    assert_eq!(rt; ended(marks.as_slice()), (TURNS, 0));
    Ok(())
}
