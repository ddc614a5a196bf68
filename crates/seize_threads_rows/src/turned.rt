//! Two threads that take turns: what one of them has found does not end while its guard stands, though the other has retired it.
ghost use Rattle.std.specs.Prelude.{◌≡◌, ◌<◌, IfOk};
ghost use Rattle.seize.specs.Collectors.{IsPassOf, its_links, its_words};
ghost use Rattle.seize.specs.Guards.{guard_collector};
ghost use Rattle.seize.specs.Registrations.{registered_in};

use crate::signs::{set, wait_for};
use crate::turns::turn;
use seize::{Collector, IdSource, LocalGuard, Pass, Refusal, Registration};
use seize_test_kit::marked::{Marked, ended, ends_of, marks};
use std::alloc::Global;
use std::sync::Wait;
use std::sync::atomic::AtomicU64;
use std::test::*;
use std::thread;
use std::thread::Threads;

// How many values the writer retires: two full batches.
const RETIRED: u64 = 8;

// How often the sign was given when a value is in the link, when the reader has found it, when the writer has retired it and others, and
// when the reader has left.
const PUT: u64 = 1;

const FOUND: u64 = 2;

const OVER: u64 = 3;

const LEFT: u64 = 4;

// What the reader saw.
#[derive(Clone, Copy, PartialEq, Eq, Debug)]
struct Saw {
    // what it found, and read again when all was retired
    first: Option<u64>,
    last: Option<u64>,
    // how often number 0 had ended then
    ends: u64,
    // how many values had ended when its guard had left
    left: (u64, u64),
}

// What the writer saw.
#[derive(Clone, Copy, PartialEq, Eq, Debug)]
struct Wrote {
    // how many values it retired
    retired: u64,
    // how many values had ended when it had retired all, and when the reader's guard had left
    over: (u64, u64),
    left: (u64, u64),
}

// A collector with one link, and batches of four values.
fn collector<'a>(alloc: Global) -> Result<Collector<Marked<'a>>, Refusal>
    ensures { IfOk result (λ made. 0 < its_links (its_words made)) }
{
    let made: Collector<Marked<'a>> = Collector::new(alloc, &mut IdSource::new(), 1, 1)?;
    Ok(made.batch_size(4))
}

// Finds what the link holds, lets the writer retire that, and reads it once more. It has not left yet.
fn find<'a>(
    guard: &LocalGuard<'_, '_, Marked<'a>>,
    sign: &AtomicU64,
    marks: &'a [AtomicU64],
    pass: &mut Pass,
) -> Saw
    requires of { IsPassOf (guard_collector guard.now) pass.old × (0 < its_links (guard_collector guard.now)) }
    ensures { IsPassOf (guard_collector guard.now) pass.new }
{
    let found = guard.protect(0, pass);
    let first = found.as_ref().map(|shared| shared.value);
    set(sign);
    wait_for(sign, OVER);
    Saw {
        first,
        last: found.map(|shared| shared.value),
        ends: ends_of(marks, 0),
        left: ended(marks),
    }
}

// The reader waits for a value, enters, finds it, and leaves when the writer has retired it.
fn stay<'a>(
    rt: &impl Wait,
    registration: &Registration<'_, Marked<'a>>,
    sign: &AtomicU64,
    marks: &'a [AtomicU64],
    pass: &mut Pass,
) -> Result<Saw, Refusal>
    requires of { IsPassOf (registered_in registration.now) pass.old × (0 < its_links (registered_in registration.now)) }
    ensures { IsPassOf (registered_in registration.now) pass.new }
{
    wait_for(sign, PUT);
    let guard = registration.enter(pass)?;
    let mut saw = find(&guard, sign, marks, pass);
    guard.leave(rt, pass);
    saw.left = ended(marks);
    set(sign);
    Ok(saw)
}

// Registers for that.
fn read<'a>(
    rt: &impl Wait,
    collector: &Collector<Marked<'a>>,
    sign: &AtomicU64,
    marks: &'a [AtomicU64],
) -> Result<Saw, Refusal>
    requires { 0 < its_links (its_words collector.now) }
{
    let mut pass = collector.pass();
    let registration = collector.register(rt, &mut pass)?;
    let saw = stay(rt, &registration, sign, marks, &mut pass);
    registration.end(rt, &mut pass);
    saw
}

// The writer puts number 0 into the link, waits until the reader has found it, and swaps others in, each with a guard of its own. What
// comes out it retires.
fn replace<'a>(
    rt: &impl Wait,
    registration: &Registration<'_, Marked<'a>>,
    sign: &AtomicU64,
    marks: &'a [AtomicU64],
    pass: &mut Pass,
) -> Result<u64, Refusal>
    requires of { IsPassOf (registered_in registration.now) pass.old × (0 < its_links (registered_in registration.now)) }
    ensures { IsPassOf (registered_in registration.now) pass.new }
{
    let mut retired = turn(registration, 0, Marked { value: 0, marks }, rt, pass)?.retired;
    set(sign);
    wait_for(sign, FOUND);
    for n in 0..RETIRED {
        let value = n.wrapping_add(1);
        let seen = turn(registration, 0, Marked { value, marks }, rt, pass)?;
        retired = retired.wrapping_add(seen.retired);
    }
    Ok(retired)
}

// Registers for that. When all is retired it looks what has ended, and once more when the reader has left.
fn write<'a>(
    rt: &impl Wait,
    collector: &Collector<Marked<'a>>,
    sign: &AtomicU64,
    marks: &'a [AtomicU64],
) -> Result<Wrote, Refusal>
    requires { 0 < its_links (its_words collector.now) }
{
    let mut pass = collector.pass();
    let registration = collector.register(rt, &mut pass)?;
    let retired = replace(rt, &registration, sign, marks, &mut pass);
    registration.end(rt, &mut pass);
    let over = ended(marks);
    set(sign);
    wait_for(sign, LEFT);
    Ok(Wrote {
        retired: retired?,
        over,
        left: ended(marks),
    })
}

// A thread reads, and another one writes.
fn two<'a, R: Threads + Wait + Sync>(
    rt: &R,
    collector: &Collector<Marked<'a>>,
    sign: &AtomicU64,
    marks: &'a [AtomicU64],
) -> Result<(Saw, Wrote), Refusal>
    requires { 0 < its_links (its_words collector.now) }
{
    let (saw, wrote) = thread::join(
        rt,
        move || -> Result<Saw, Refusal>
            requires { 0 < its_links (its_words collector.now) }
        { read(rt, collector, sign, marks) },
        move || -> Result<Wrote, Refusal>
            requires { 0 < its_links (its_words collector.now) }
        { write(rt, collector, sign, marks) },
    );
    Ok((saw?, wrote?))
}

// A thread finds a value. Another one retires that with a full batch, and a second batch, and its registration ends. None of the values
// ends while the first thread's guard stands, which reads the value still; all do as it leaves.
#[test]
fn a_value_that_another_thread_retires_lasts(rt: HostRuntime) -> Result<(), Fail> {
    let marks = marks(rt.alloc(), 1 + RETIRED)?;
    let collector = collector(rt.alloc())?;
    let sign = AtomicU64::new(0);
    let saw = Saw {
        first: Some(0),
        last: Some(0),
        ends: 0,
        left: (RETIRED, 0),
    };
    let wrote = Wrote {
        retired: RETIRED,
        over: (0, 0),
        left: (RETIRED, 0),
    };
    assert_eq!(rt;
        two(&rt, &collector, &sign, marks.as_slice())?,
        (saw, wrote)
    );
    drop(collector);
    assert_eq!(rt; ended(marks.as_slice()), (1 + RETIRED, 0));
    Ok(())
}
