//! Reclaimers that run as a number is taken, or goes back: the lock of the numbers is free then, so another thread registers and ends
//! meanwhile.
ghost use Rattle.std.proofs.Common.{lit<};
ghost use Rattle.seize.specs.Collectors.{IsPassOf};
ghost use Rattle.seize.specs.Registrations.{registered_in};

use crate::signs::{set, wait_for};
use seize::{Collector, Further, IdSource, Pass, Puts, Reclaim, Refusal, Registration};
use seize_test_kit::values::ended;
use std::alloc::Global;
use std::process::Abort;
use std::sync::Wait;
use std::sync::atomic::AtomicU64;
use std::test::*;
use std::thread;
use std::thread::Threads;

// By which threads wait for each other.
#[derive(Drop)]
struct Signs {
    // how many values came to the reclaimer
    within: AtomicU64,
    // that the other thread's registration has ended
    over: AtomicU64,
    // of how many values the reclaimer has seen that
    seen: AtomicU64,
}

impl Signs {
    // None was given.
    fn none() -> Signs {
        Signs {
            within: AtomicU64::new(0),
            over: AtomicU64::new(0),
            seen: AtomicU64::new(0),
        }
    }
}

// Doesn't return before the other thread's registration has ended.
#[derive(Clone, Copy)]
struct Waiting<'a> {
    signs: &'a Signs,
}

impl Puts<u64> for Waiting<'_> {
    ghost lighter = { λ _ _. lit< tt };
}

impl Reclaim<u64> for Waiting<'_> {
    fn reclaim(self, _kind: u64, _value: u64, _further: &mut Further<'_, u64, Self>) {
        set(&self.signs.within);
        if wait_for(&self.signs.over, 1) {
            set(&self.signs.seen);
        }
    }
}

type Numbers<'a> = Collector<u64, Waiting<'a>>;

// A collector with batches of two values.
fn collector<'a>(alloc: Global, signs: &'a Signs) -> Result<Numbers<'a>, Refusal> {
    let made: Numbers<'a> = Collector::with_reclaimer(
        alloc,
        &mut IdSource::new(),
        1,
        0,
        Waiting { signs },
    )?;
    Ok(made.batch_size(2))
}

// The slot retires a value.
fn retire<'a>(rt: &impl Wait, registration: &Registration<'_, u64, Waiting<'a>>, pass: &mut Pass)
    requires { IsPassOf (registered_in registration.now) pass.old }
    ensures { IsPassOf (registered_in registration.now) pass.new }
{
    let collector = registration.collector();
    if let Ok(block) = collector.owned(7) {
        registration.retire(rt, pass, collector.unlinked(block));
    }
}

// Two slots are in use, retire a value each, and end one after the other, beside others. So two values are left.
fn leave_two<'a>(rt: &(impl Wait + Abort), collector: &Numbers<'a>) {
    let mut pass = collector.pass();
    let one = collector.register(rt, &mut pass).expect(rt, "memory");
    let other = collector.register(rt, &mut pass).expect(rt, "memory");
    retire(rt, &one, &mut pass);
    assert!(rt; one.end(rt, &mut pass));
    let mut its = collector.pass();
    retire(rt, &other, &mut its);
    assert!(rt; other.end(rt, &mut its));
}

// Takes a number, by which two values are reclaimed. It says which.
fn take<'a>(rt: &impl Wait, collector: &Numbers<'a>) -> Result<usize, Refusal> {
    let mut pass = collector.pass();
    let registration = collector.register(rt, &mut pass)?;
    let number = registration.thread_id();
    registration.end(rt, &mut pass);
    Ok(number)
}

// Takes a number while the reclaimer runs, and gives it back. It says which.
fn take_meanwhile<'a>(
    rt: &impl Wait,
    collector: &Numbers<'a>,
    signs: &Signs,
) -> Result<usize, Refusal> {
    wait_for(&signs.within, 1);
    let took = take(rt, collector);
    set(&signs.over);
    took
}

// Beside a slot, after two others left a value each, a thread takes a number, and another one does while the reclaimer runs by that. It
// says which they took.
fn take_two<'a, R: Threads + Wait + Sync + Abort>(
    rt: &R,
    collector: &Numbers<'a>,
    signs: &Signs,
) -> (Result<usize, Refusal>, Result<usize, Refusal>) {
    let mut pass = collector.pass();
    let registration = collector.register(rt, &mut pass).expect(rt, "memory");
    leave_two(rt, collector);
    assert_eq!(rt; ended(&signs.within), 0);
    let took = thread::join(
        rt,
        move || take(rt, collector),
        move || take_meanwhile(rt, collector, signs),
    );
    assert!(rt; registration.end(rt, &mut pass));
    took
}

// The reclaimer of what was left runs within `register`, and another thread registers and ends meanwhile.
#[test]
fn a_thread_registers_while_another_one_does(rt: HostRuntime) -> Result<(), Fail> {
    let signs = Signs::none();
    let collector = collector(rt.alloc(), &signs)?;
    let (one, other) = take_two(&rt, &collector, &signs);
    assert_eq!(rt; (one?, other?), (1, 2));
    assert_eq!(rt; (ended(&signs.within), ended(&signs.seen)), (2, 2));
    Ok(())
}

// A registration retires a value, and ends.
fn end_one<'a>(rt: &impl Wait, collector: &Numbers<'a>) -> Result<bool, Refusal> {
    let mut pass = collector.pass();
    let registration = collector.register(rt, &mut pass)?;
    retire(rt, &registration, &mut pass);
    Ok(registration.end(rt, &mut pass))
}

// A thread does so, and another one takes a number while the reclaimer runs by that.
fn end_and_take<'a, R: Threads + Wait + Sync>(
    rt: &R,
    collector: &Numbers<'a>,
    signs: &Signs,
) -> (Result<bool, Refusal>, Result<usize, Refusal>) {
    thread::join(
        rt,
        move || end_one(rt, collector),
        move || take_meanwhile(rt, collector, signs),
    )
}

// The reclaimer runs within the last `end`, and another thread registers and ends meanwhile.
#[test]
fn a_thread_registers_while_the_last_slot_ends(rt: HostRuntime) -> Result<(), Fail> {
    let signs = Signs::none();
    let collector = collector(rt.alloc(), &signs)?;
    let (ended_so, took) = end_and_take(&rt, &collector, &signs);
    assert_eq!(rt; (ended_so?, took?), (true, 1));
    assert_eq!(rt; (ended(&signs.within), ended(&signs.seen)), (1, 1));
    Ok(())
}
