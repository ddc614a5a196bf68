//! What was forgotten comes back once the collector is had alone: its slots leave, what waited for them ends, and their numbers go back.
//! So it is with the collector's drop. What is gone in another way stays.
ghost use Rattle.std.specs.Prelude.{◌≡◌};
ghost use base.Stored.{coded_unit};
ghost use Rattle.seize.specs.Collectors.{IsPassOf, its_words};
ghost use Rattle.seize.specs.Registrations.{registered_in};

use seize::{Collector, Guard, IdSource, Pass, Refusal, Registration, Watch};
use seize_test_kit::values::Digit;
use std::alloc::Global;
use std::ops::Range;
use std::sync::Wait;
use std::sync::atomic::{AtomicU64, Ordering};
use std::test::*;
use std::thread;
use std::thread::Threads;

pub(crate) type Telling<'a> = Collector<Digit<'a>>;

/// Keeps the digits of the values that it was told of, in order.
#[derive(Drop)]
pub(crate) struct Digits {
    /// The digits, as one number.
    pub(crate) all: u64,
}

impl<'a> Watch<Digit<'a>> for Digits {
    ghost Seen = { Unit {0} };

    ghost coded = { coded_unit };

    ghost seen = { λ _. tt };

    ghost told = { λ _ _. tt };

    fn gone(&mut self, value: &Digit<'a>) {
        self.all = self.all.wrapping_mul(10).wrapping_add(value.digit);
    }
}

// A collector with no link, and batches of this many values.
pub(crate) fn telling<'a>(alloc: Global, size: usize) -> Result<Telling<'a>, Refusal> {
    let made: Telling<'a> = Collector::new(alloc, &mut IdSource::new(), 1, 0)?;
    Ok(made.batch_size(size))
}

// Retires a value for each digit.
pub(crate) fn retire<'c, 'a>(
    rt: &impl Wait,
    collector: &'c Telling<'a>,
    registration: &Registration<'c, Digit<'a>>,
    digits: Range<u64>,
    told: &'a AtomicU64,
    pass: &mut Pass,
)
    requires its { registered_in registration.now ≡ its_words collector.now }
    requires pass { IsPassOf (its_words collector.now) pass.old }
    ensures { IsPassOf (its_words collector.now) pass.new }
{
    for digit in digits {
        if let Ok(owned) = collector.owned(Digit { digit, told }) {
            registration.retire(rt, pass, collector.unlinked(owned));
        }
    }
}

// Registers, and ends. It gives the number, and whether it went back.
pub(crate) fn register<T: Drop>(
    rt: &impl Wait,
    collector: &Collector<T>,
) -> Result<(usize, bool), Refusal> {
    let mut pass = collector.pass();
    let registration = collector.register(rt, &mut pass)?;
    Ok((registration.thread_id(), registration.end(rt, &mut pass)))
}

// A guard is forgotten.
pub(crate) fn forget_guard<T: Drop>(
    registration: &Registration<'_, T>,
    pass: &mut Pass,
) -> Result<(), Refusal>
    requires { IsPassOf (registered_in registration.now) pass.old }
    ensures { IsPassOf (registered_in registration.now) pass.new }
{
    let guard = registration.enter(pass)?;
    guard.forget(pass);
    Ok(())
}

// An owned guard is forgotten. Then a registration retires three values and ends.
pub(crate) fn forget_owned<'a>(
    rt: &impl Wait,
    collector: &Telling<'a>,
    told: &'a AtomicU64,
) -> Result<bool, Refusal> {
    let mut pass = collector.pass();
    collector.enter_owned(rt, &mut pass)?.forget();
    let registration = collector.register(rt, &mut pass)?;
    retire(rt, collector, &registration, 1..4, told, &mut pass);
    Ok(registration.end(rt, &mut pass))
}

// A thread does so, which ends then.
fn forget_owned_elsewhere<'a, R: Threads + Wait + Sync>(
    rt: &R,
    collector: &Telling<'a>,
    told: &'a AtomicU64,
) -> Result<bool, Refusal> {
    let (done, ()) = thread::join(rt, move || forget_owned(rt, collector, told), || {});
    done
}

#[test]
fn what_waits_for_a_forgotten_owned_guard_ends(rt: HostRuntime) -> Result<(), Fail> {
    let told = AtomicU64::new(0);
    let mut collector = telling(rt.alloc(), 1)?;
    for (before, ends) in [(0, 321), (321, 321321)] {
        assert!(rt; forget_owned_elsewhere(&rt, &collector, &told)?);
        assert_eq!(rt; register(&rt, &collector)?, (1, true));
        assert_eq!(rt; told.load(Ordering::SeqCst), before);
        let mut heard = Digits { all: 0 };
        assert!(rt; collector.reclaim_all(&mut heard));
        assert_eq!(rt; (heard.all, told.load(Ordering::SeqCst)), (321, ends));
        assert_eq!(rt; register(&rt, &collector)?, (0, true));
    }
    Ok(())
}

// A registration retires 5, and is forgotten. It gives its number.
fn forget_one<'a>(
    rt: &impl Wait,
    collector: &Telling<'a>,
    told: &'a AtomicU64,
) -> Result<usize, Refusal> {
    let mut pass = collector.pass();
    let registration = collector.register(rt, &mut pass)?;
    retire(rt, collector, &registration, 5..6, told, &mut pass);
    let number = registration.thread_id();
    registration.forget();
    Ok(number)
}

// The batch is too short to be attempted. Its value ends when all is reclaimed, and only then the number goes back.
#[test]
fn what_a_forgotten_registration_retired_ends(rt: HostRuntime) -> Result<(), Fail> {
    let told = AtomicU64::new(0);
    let mut collector = telling(rt.alloc(), 4)?;
    assert_eq!(rt; forget_one(&rt, &collector, &told)?, 0);
    assert_eq!(rt; register(&rt, &collector)?, (1, true));
    assert_eq!(rt; told.load(Ordering::SeqCst), 0);
    assert!(rt; collector.reclaim_all(&mut ()));
    assert_eq!(rt; told.load(Ordering::SeqCst), 5);
    assert_eq!(rt; register(&rt, &collector)?, (0, true));
    drop(collector);
    assert_eq!(rt; told.load(Ordering::SeqCst), 5);
    Ok(())
}

// One registration retires a value under a guard, and another one retires three. All are forgotten.
fn forget_both<'a>(
    rt: &impl Wait,
    collector: &Telling<'a>,
    told: &'a AtomicU64,
) -> Result<(), Refusal> {
    let mut pass = collector.pass();
    let first = collector.register(rt, &mut pass)?;
    let second = collector.register(rt, &mut pass);
    let entered = forget_guard(&first, &mut pass);
    retire(rt, collector, &first, 4..5, told, &mut pass);
    first.forget();
    let second = second?;
    retire(rt, collector, &second, 1..4, told, &mut pass);
    second.forget();
    entered
}

#[test]
fn what_forgotten_registrations_retired_ends(rt: HostRuntime) -> Result<(), Fail> {
    let told = AtomicU64::new(0);
    let mut collector = telling(rt.alloc(), 2)?;
    forget_both(&rt, &collector, &told)?;
    assert_eq!(rt; register(&rt, &collector)?, (2, true));
    assert_eq!(rt; told.load(Ordering::SeqCst), 0);
    let mut heard = Digits { all: 0 };
    assert!(rt; collector.reclaim_all(&mut heard));
    assert_eq!(rt; (heard.all, told.load(Ordering::SeqCst)), (1243, 1243));
    assert_eq!(rt; register(&rt, &collector)?, (0, true));
    Ok(())
}

// A guard beside forgotten ones makes all its calls.
fn call_beside<'c, 'a>(
    rt: &impl Wait,
    registration: &Registration<'c, Digit<'a>>,
    told: &'a AtomicU64,
    pass: &mut Pass,
) -> Result<(), Refusal>
    requires { IsPassOf (registered_in registration.now) pass.old }
    ensures { IsPassOf (registered_in registration.now) pass.new }
{
    let mut guard = registration.enter(pass)?;
    drop(guard.owned(Digit { digit: 7, told }));
    guard.flush(rt, pass);
    guard.refresh(rt, pass);
    guard.leave(rt, pass);
    Ok(())
}

// Slots 0 and 1 are active by forgotten guards: slot 0 by three, with a guard beside them. Of what is retired then, the first value waits
// for slot 0 alone, and the two others for both.
fn forget_in_turn<'a>(
    rt: &impl Wait,
    collector: &Telling<'a>,
    told: &'a AtomicU64,
) -> Result<[usize; 2], Refusal> {
    let mut pass = collector.pass();
    let first = collector.register(rt, &mut pass)?;
    for _ in 0..3u64 {
        drop(forget_guard(&first, &mut pass));
        drop(call_beside(rt, &first, told, &mut pass));
    }
    retire(rt, collector, &first, 1..2, told, &mut pass);
    let numbers = [first.thread_id(), 0];
    first.forget();
    let second = collector.register(rt, &mut pass)?;
    drop(forget_guard(&second, &mut pass));
    retire(rt, collector, &second, 2..4, told, &mut pass);
    let numbers = [numbers[0], second.thread_id()];
    second.forget();
    Ok(numbers)
}

#[test]
fn forgotten_slots_leave_in_order(rt: HostRuntime) -> Result<(), Fail> {
    let told = AtomicU64::new(0);
    let mut collector = telling(rt.alloc(), 1)?;
    assert_eq!(rt; forget_in_turn(&rt, &collector, &told)?, [0, 1]);
    assert_eq!(rt; told.load(Ordering::SeqCst), 777);
    assert!(rt; collector.reclaim_all(&mut ()));
    assert_eq!(rt; told.load(Ordering::SeqCst), 777123);
    Ok(())
}
