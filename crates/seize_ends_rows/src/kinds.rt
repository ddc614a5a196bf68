//! A reclaimer of the caller's own: each value goes to it once, with the kind that its retirement said, by whatever call ends the value.
ghost use Rattle.std.proofs.Common.{lit<};
ghost use Rattle.std.specs.Prelude.{◌≡◌, IfOk};
ghost use Rattle.seize.specs.Collectors.{IsPassOf, its_links, its_words};
ghost use Rattle.seize.specs.Guards.{owned_collector};
ghost use Rattle.seize.specs.Registrations.{registered_in};

use seize::{
    Collector, Further, Guard, IdSource, OwnedGuard, Pass, Puts, Reclaim, Refusal, Registration,
};
use seize_test_kit::values::ended;
use std::alloc::Global;
use std::process::Abort;
use std::sync::Wait;
use std::sync::atomic::{AtomicU64, Ordering};
use std::test::*;

const SECOND: u64 = 0x1_0000_0001;

// The sums of the values of kind 0, of `SECOND`, of `u64::MAX`, and of others.
#[derive(Drop)]
struct Totals {
    first: AtomicU64,
    second: AtomicU64,
    third: AtomicU64,
    others: AtomicU64,
}

// Adds each value to the sum of its kind.
#[derive(Clone, Copy)]
struct Sums<'a> {
    sums: &'a Totals,
}

impl Puts<u64> for Sums<'_> {
    ghost lighter = { λ _ _. lit< tt };
}

impl Reclaim<u64> for Sums<'_> {
    fn reclaim(self, kind: u64, value: u64, _further: &mut Further<'_, u64, Self>) {
        let sum = match kind {
            0 => &self.sums.first,
            SECOND => &self.sums.second,
            u64::MAX => &self.sums.third,
            _ => &self.sums.others,
        };
        sum.fetch_add(value, Ordering::SeqCst);
    }
}

type Summing<'a> = Collector<u64, Sums<'a>>;

// A collector with one link, whose batches have this many values.
fn collector<'a>(alloc: Global, size: usize, sums: &'a Totals) -> Result<Summing<'a>, Refusal>
    ensures { IfOk result (λ made. its_links (its_words made) ≡ 1) }
{
    let collector = Collector::with_reclaimer(alloc, &mut IdSource::new(), 1, 1, Sums { sums })?;
    Ok(collector.batch_size(size))
}

fn sums_of(sums: &Totals) -> (u64, u64, u64) {
    (ended(&sums.first), ended(&sums.second), ended(&sums.third))
}

fn no_sums() -> Totals {
    Totals {
        first: AtomicU64::new(0),
        second: AtomicU64::new(0),
        third: AtomicU64::new(0),
        others: AtomicU64::new(0),
    }
}

fn retire<'a>(
    rt: &impl Wait,
    registration: &Registration<'_, u64, Sums<'a>>,
    value: u64,
    kind: u64,
    pass: &mut Pass,
) -> Result<(), Refusal>
    requires { IsPassOf (registered_in registration.now) pass.old }
    ensures { IsPassOf (registered_in registration.now) pass.new }
{
    let collector = registration.collector();
    let owned = collector.owned(value).map_err(|(refusal, _)| refusal)?;
    registration.retire_as(rt, pass, collector.unlinked(owned), kind);
    Ok(())
}

// One slot retires 1 as of the first kind, 2 and 8 as of the second, and 4 as of the third. It ends, or is forgotten.
fn retire_four<'a>(rt: &impl Wait, collector: &Summing<'a>, ends: bool) -> Result<(), Refusal> {
    let mut pass = collector.pass();
    let registration = collector.register(rt, &mut pass)?;
    let one = retire(rt, &registration, 1, 0, &mut pass);
    let two = retire(rt, &registration, 2, SECOND, &mut pass);
    let four = retire(rt, &registration, 4, u64::MAX, &mut pass);
    let eight = retire(rt, &registration, 8, SECOND, &mut pass);
    if ends {
        registration.end(rt, &mut pass);
    } else {
        registration.forget();
    }
    one.and(two).and(four).and(eight)
}

#[test]
fn a_full_batch_goes_to_the_reclaimer(rt: HostRuntime) -> Result<(), Fail> {
    let all = no_sums();
    let collector = collector(rt.alloc(), 4, &all)?;
    retire_four(&rt, &collector, false)?;
    assert_eq!(rt; sums_of(&all), (1, 10, 4));
    drop(collector);
    assert_eq!(rt; sums_of(&all), (1, 10, 4));
    Ok(())
}

#[test]
fn what_waits_goes_to_the_reclaimer_once(rt: HostRuntime) -> Result<(), Fail> {
    let all = no_sums();
    let mut collector = collector(rt.alloc(), 32, &all)?;
    retire_four(&rt, &collector, false)?;
    assert_eq!(rt; sums_of(&all), (0, 0, 0));
    assert!(rt; collector.reclaim_all(&mut ()));
    assert_eq!(rt; sums_of(&all), (1, 10, 4));
    retire_four(&rt, &collector, false)?;
    drop(collector);
    assert_eq!(rt; sums_of(&all), (2, 20, 8));
    Ok(())
}

// The last slot in use ends, and so does all that it retired.
#[test]
fn the_last_end_calls_the_reclaimer(rt: HostRuntime) -> Result<(), Fail> {
    let all = no_sums();
    let collector = collector(rt.alloc(), 32, &all)?;
    retire_four(&rt, &collector, true)?;
    assert_eq!(rt; sums_of(&all), (1, 10, 4));
    drop(collector);
    assert_eq!(rt; sums_of(&all), (1, 10, 4));
    Ok(())
}

// Puts a value into the link, and retires what was there as of the third kind.
fn put<'a>(rt: &impl Wait, guard: &OwnedGuard<'_, u64, Sums<'a>>, value: u64, pass: &mut Pass)
    requires of { IsPassOf (owned_collector guard.now) pass.old × (its_links (owned_collector guard.now) ≡ 1) }
    ensures { IsPassOf (owned_collector guard.now) pass.new }
{
    if let Ok(owned) = guard.owned(value) {
        if let Some(old) = guard.swap(0, Some(owned), pass) {
            guard.defer_retire_as(rt, pass, old, u64::MAX);
        }
    }
}

// A guard puts two values into the link, one after the other, and hands the first one as it leaves.
fn exchange<'a>(rt: &impl Wait, collector: &Summing<'a>) -> Result<(), Refusal>
    requires { its_links (its_words collector.now) ≡ 1 }
{
    let mut pass = collector.pass();
    let guard = collector.enter_owned(rt, &mut pass)?;
    put(rt, &guard, 16, &mut pass);
    put(rt, &guard, 32, &mut pass);
    guard.flush(rt, &mut pass);
    guard.leave(rt, &mut pass);
    Ok(())
}

#[test]
fn leaves_and_drops_call_the_reclaimer(rt: HostRuntime) -> Result<(), Fail> {
    let all = no_sums();
    let collector = collector(rt.alloc(), 32, &all)?;
    exchange(&rt, &collector)?;
    assert_eq!(rt; sums_of(&all), (0, 0, 16));
    drop(collector);
    assert_eq!(rt; sums_of(&all), (32, 0, 16));
    Ok(())
}

// A slot's guard puts six values of 1 into the link, of which it retires five, and leaves.
fn retire_five<'a>(rt: &impl Wait, collector: &Summing<'a>) -> Result<(), Refusal>
    requires { its_links (its_words collector.now) ≡ 1 }
{
    let mut pass = collector.pass();
    let guard = collector.enter_owned(rt, &mut pass)?;
    for _ in 0..6u64 {
        put(rt, &guard, 1, &mut pass);
    }
    guard.leave(rt, &mut pass);
    Ok(())
}

// Three guards of another slot leave one after another.
fn leave_thrice<'a>(rt: &(impl Wait + Abort), collector: &Summing<'a>, sums: &Totals)
    requires { its_links (its_words collector.now) ≡ 1 }
{
    let mut pass = collector.pass();
    let registration = collector.register(rt, &mut pass).expect(rt, "memory");
    let first = registration.enter(&mut pass).expect(rt, "a guard");
    let second = registration.enter(&mut pass).expect(rt, "a guard");
    let third = registration.enter(&mut pass).expect(rt, "a guard");
    assert_eq!(rt; retire_five(rt, collector), Ok(()));
    first.leave(rt, &mut pass);
    second.leave(rt, &mut pass);
    assert_eq!(rt; sums_of(sums), (0, 0, 0));
    third.leave(rt, &mut pass);
    assert_eq!(rt; sums_of(sums), (0, 0, 5));
    assert!(rt; registration.end(rt, &mut pass));
}

// The sum of values of 1 says how often the reclaimer was called. The value in the link goes to it with the collector.
#[test]
fn the_third_leave_calls_the_reclaimer_for_each(rt: HostRuntime) -> Result<(), Fail> {
    let all = no_sums();
    let collector = collector(rt.alloc(), 5, &all)?;
    leave_thrice(&rt, &collector, &all);
    drop(collector);
    assert_eq!(rt; sums_of(&all), (1, 0, 5));
    Ok(())
}
