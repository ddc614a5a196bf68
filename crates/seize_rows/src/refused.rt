//! Calls that are made again where memory was refused: the second time each serves as if there had been no first one. The gate refuses
//! one request after another, by `tools/lacking`, and `tools/memory` all from a first sign on to a second one.
ghost use Rattle.std.specs.Prelude.{◌≡◌};
ghost use Rattle.seize.specs.Collectors.{IsPassOf, its_words};
ghost use Rattle.seize.specs.Guards.{owned_collector};
ghost use Rattle.seize.specs.Registrations.{registered_in};

use seize::{Alone, Collector, IdSource, Owned, OwnedGuard, Pass, Refusal, Registration};
use seize_test_kit::sign::give_sign;
use seize_test_kit::telling::{Telling, telling};
use seize_test_kit::values::Digit;
use std::alloc::Global;
use std::process::Abort;
use std::sync::Wait;
use std::sync::atomic::{AtomicU64, Ordering};
use std::test::*;

// A collector with one link.
fn collector(
    rt: &impl Abort,
    alloc: Global,
    ids: &mut IdSource,
) -> Result<Collector<u64>, Refusal> {
    match Collector::new(alloc, ids, 1, 1) {
        Ok(collector) => Ok(collector),
        Err(refusal) => {
            assert_eq!(rt; refusal, Refusal::NoMemory);
            Collector::new(alloc, ids, 1, 1)
        }
    }
}

// A registration.
fn register<'c>(
    rt: &(impl Wait + Abort),
    collector: &'c Collector<u64>,
    pass: &mut Pass,
) -> Registration<'c, u64>
    requires { IsPassOf (its_words collector.now) pass.old }
    ensures { IsPassOf (its_words collector.now) pass.new × (registered_in result ≡ its_words collector.now) }
{
    match collector.register(rt, pass) {
        Ok(registration) => registration,
        Err(refusal) => {
            assert_eq!(rt; refusal, Refusal::NoMemory);
            collector.register(rt, pass).expect(rt, "memory")
        }
    }
}

// A guard with a slot of its own.
fn enter_owned<'c>(
    rt: &(impl Wait + Abort),
    collector: &'c Collector<u64>,
    pass: &mut Pass,
) -> OwnedGuard<'c, u64>
    requires { IsPassOf (its_words collector.now) pass.old }
    ensures { IsPassOf (its_words collector.now) pass.new × (owned_collector result ≡ its_words collector.now) }
{
    match collector.enter_owned(rt, pass) {
        Ok(guard) => guard,
        Err(refusal) => {
            assert_eq!(rt; refusal, Refusal::NoMemory);
            collector.enter_owned(rt, pass).expect(rt, "memory")
        }
    }
}

// A block of this value, which comes back from a refusal.
fn owned(rt: &impl Abort, collector: &Collector<u64>, value: u64) -> Owned<u64> {
    match collector.owned(value) {
        Ok(block) => block,
        Err((refusal, value)) => {
            assert_eq!(rt; refusal, Refusal::NoMemory);
            collector.owned(value).expect(rt, "memory")
        }
    }
}

// The numbers and the id are those of calls that nothing refused.
#[test]
fn refused_calls_serve_when_made_again(rt: HostRuntime) -> Result<(), Fail> {
    let collector = collector(&rt, rt.alloc(), &mut IdSource::new())?;
    assert_eq!(rt; collector.id(), 0);
    let mut pass = collector.pass();
    let first = register(&rt, &collector, &mut pass);
    assert_eq!(rt; first.thread_id(), 0);
    let guard = enter_owned(&rt, &collector, &mut pass);
    assert_eq!(rt; guard.thread_id(), 1);
    assert_eq!(rt; *owned(&rt, &collector, 7), 7);
    guard.leave(&rt, &mut pass);
    assert!(rt; first.end(&rt, &mut pass));
    Ok(())
}

// A registration has number 1, retires a value of this digit, and ends. Slot 0 is active, so the value waits for it.
fn retire<'a>(rt: &(impl Wait + Abort), collector: &Telling<'a>, digit: u64, told: &'a AtomicU64) {
    let mut pass = collector.pass();
    let registration = collector.register(rt, &mut pass).expect(rt, "memory");
    assert_eq!(rt; registration.thread_id(), 1);
    let owned = collector
        .owned(Digit { digit, told })
        .ok()
        .expect(rt, "memory");
    registration.retire(rt, &mut pass, collector.unlinked(owned));
    assert!(rt; registration.end(rt, &mut pass));
    assert_eq!(rt; told.load(Ordering::SeqCst), 0);
}

// The registration enters, and its guard is forgotten.
fn forget_guard(rt: &impl Abort, registration: &Registration<'_, Digit<'_>>, pass: &mut Pass)
    requires { IsPassOf (registered_in registration.now) pass.old }
    ensures { IsPassOf (registered_in registration.now) pass.new }
{
    let guard = registration.enter(pass).expect(rt, "a guard");
    guard.forget(pass);
}

// Slot 0 is forgotten with two guards. Then 3 is retired.
fn forget_two<'a>(rt: &(impl Wait + Abort), collector: &Telling<'a>, told: &'a AtomicU64) {
    let mut pass = collector.pass();
    let registration = collector.register(rt, &mut pass).expect(rt, "memory");
    forget_guard(rt, &registration, &mut pass);
    forget_guard(rt, &registration, &mut pass);
    registration.forget();
    retire(rt, collector, 3, told);
}

// Whether each request for memory is refused, and not just one.
fn is_refused(alloc: Global) -> bool {
    let first: Result<Vec<u8>, _> = Vec::with_capacity(alloc, 1);
    let second: Result<Vec<u8>, _> = Vec::with_capacity(alloc, 1);
    first.is_err() && second.is_err()
}

// Gives the sign, and takes the collector over. Where memory is refused, the collector comes back. After a second sign 7 is retired
// too, and the collector is taken over. It gives the digits that wait, as they end.
fn take_over<'a>(
    rt: &(impl Wait + Abort),
    alloc: Global,
    collector: Telling<'a>,
    told: &'a AtomicU64,
) -> Result<(Alone<Digit<'a>>, u64), Fail> {
    give_sign(alloc)?;
    let refused = is_refused(alloc);
    let collector = match collector.alone() {
        Ok(alone) => {
            assert!(rt; !refused);
            return Ok((alone, 3));
        }
        Err(collector) => collector,
    };
    give_sign(alloc)?;
    retire(rt, &collector, 7, told);
    match collector.alone() {
        Ok(alone) => Ok((alone, 73)),
        Err(_) => Err(Fail::new("the collector came back again")),
    }
}

// Slot 0 leaves twice, and these end with the second leave. Then its number is free.
fn leave_twice(
    rt: &impl Abort,
    alone: &mut Alone<Digit<'_>>,
    digits: u64,
    told: &AtomicU64,
) -> Result<(), Refusal> {
    alone.leave(0, &mut ())?;
    assert_eq!(rt; told.load(Ordering::SeqCst), 0);
    assert!(rt; !alone.end(0, &mut ())?);
    alone.leave(0, &mut ())?;
    assert_eq!(rt; told.load(Ordering::SeqCst), digits);
    assert!(rt; alone.end(0, &mut ())?);
    assert_eq!(rt; alone.register(&mut ())?, 0);
    Ok(())
}

// Where there is no room for the place of a slot that was forgotten, the collector comes back and serves. When it is taken over then, the
// slot has its guards.
#[test]
fn a_collector_without_room_for_places_comes_back(rt: HostRuntime) -> Result<(), Fail> {
    let told = AtomicU64::new(0);
    let collector = telling(rt.alloc(), 1)?;
    forget_two(&rt, &collector, &told);
    let (mut alone, digits) = take_over(&rt, rt.alloc(), collector, &told)?;
    leave_twice(&rt, &mut alone, digits, &told)?;
    Ok(())
}
