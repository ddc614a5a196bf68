//! What was forgotten, taken over by one caller: its slots are in use, with their guards, and what waits for them goes when they leave. A
//! holder that is lost keeps the caller out.
ghost use Rattle.seize.specs.Collectors.{IsPassOf};

use crate::forgotten::{Digits, Telling, forget_guard, forget_owned, register, retire, telling};
use seize::{Alone, Refusal, Registration};
use seize_test_kit::values::Digit;
use std::alloc::Global;
use std::process::Abort;
use std::sync::Wait;
use std::sync::atomic::{AtomicU64, Ordering};
use std::test::*;
use std::thread::Threads;
use std::{mem, thread};

// A registration enters three times. All of that is forgotten.
fn forget_three(rt: &impl Wait, collector: &Telling<'_>) -> bool {
    let mut pass = collector.pass();
    let Ok(registration) = collector.register(rt, &mut pass) else {
        return false;
    };
    let first = forget_guard(&registration, &mut pass).is_ok();
    let second = forget_guard(&registration, &mut pass).is_ok();
    let third = forget_guard(&registration, &mut pass).is_ok();
    registration.forget();
    first && second && third
}

// A registration retires 1, 2 and 3, and ends.
fn retire_three<'a>(rt: &impl Wait, collector: &Telling<'a>, told: &'a AtomicU64) -> bool {
    let mut pass = collector.pass();
    let Ok(registration) = collector.register(rt, &mut pass) else {
        return false;
    };
    retire(rt, collector, &registration, 1..4, told, &mut pass);
    registration.end(rt, &mut pass)
}

// One thread does the first, and then another one the second. It says whether both went well.
fn forget_elsewhere<'a, R: Threads + Wait + Sync>(
    rt: &R,
    collector: &Telling<'a>,
    told: &'a AtomicU64,
) -> bool {
    let (forgot, ()) = thread::join(rt, move || forget_three(rt, collector), || {});
    let (retired, ()) = thread::join(rt, move || retire_three(rt, collector, told), || {});
    forgot && retired
}

// Slot 0 leaves with its three guards, and what waited for it goes with the last one. Then its number goes back.
fn leave_thrice(
    rt: &impl Abort,
    alone: &mut Alone<Digit<'_>>,
    told: &AtomicU64,
) -> Result<(), Refusal> {
    for _ in 0..2u8 {
        alone.leave(0, &mut ())?;
        assert!(rt; !alone.end(0, &mut ())?);
    }
    assert_eq!(rt; told.load(Ordering::SeqCst), 0);
    alone.leave(0, &mut ())?;
    assert_eq!(rt; told.load(Ordering::SeqCst), 321);
    assert!(rt; alone.end(0, &mut ())?);
    assert_eq!(rt; alone.register(&mut ())?, 0);
    Ok(())
}

#[test]
fn a_slot_whose_guards_were_forgotten_leaves_with_the_last_one(
    rt: HostRuntime,
) -> Result<(), Fail> {
    let told = AtomicU64::new(0);
    let collector = telling(rt.alloc(), 1)?;
    assert!(rt; forget_elsewhere(&rt, &collector, &told));
    match collector.alone() {
        Ok(mut alone) => leave_thrice(&rt, &mut alone, &told)?,
        Err(_) => return Err(Fail::new("a holder is lost")),
    }
    Ok(())
}

// So it does when the collector was shared again meanwhile.
#[test]
fn a_slot_has_as_many_guards_when_it_was_shared_again(rt: HostRuntime) -> Result<(), Fail> {
    let told = AtomicU64::new(0);
    let collector = telling(rt.alloc(), 1)?;
    assert!(rt; forget_elsewhere(&rt, &collector, &told));
    let Ok(alone) = collector.alone() else {
        return Err(Fail::new("a holder is lost"));
    };
    match alone.share().alone() {
        Ok(mut alone) => leave_thrice(&rt, &mut alone, &told)?,
        Err(_) => return Err(Fail::new("a holder is lost")),
    }
    Ok(())
}

// A collector in one caller's hands that took over slot 0, with three guards, for which 1, 2 and 3 wait.
fn taken_over<'a, R: Threads + Wait + Sync>(
    rt: &R,
    alloc: Global,
    told: &'a AtomicU64,
) -> Result<Alone<Digit<'a>>, Fail> {
    let collector = telling(alloc, 1)?;
    if !forget_elsewhere(rt, &collector, told) {
        return Err(Fail::new("nothing was forgotten"));
    }
    match collector.alone() {
        Ok(alone) => Ok(alone),
        Err(_) => Err(Fail::new("a holder is lost")),
    }
}

#[test]
fn what_was_taken_over_goes_as_all_is_reclaimed(rt: HostRuntime) -> Result<(), Fail> {
    let told = AtomicU64::new(0);
    let mut alone = taken_over(&rt, rt.alloc(), &told)?;
    assert_eq!(rt; told.load(Ordering::SeqCst), 0);
    alone.reclaim_all(&mut ());
    assert_eq!(rt; told.load(Ordering::SeqCst), 321);
    assert_eq!(rt; alone.register(&mut ())?, 0);
    Ok(())
}

#[test]
fn what_was_taken_over_goes_at_the_drop(rt: HostRuntime) -> Result<(), Fail> {
    let told = AtomicU64::new(0);
    let alone = taken_over(&rt, rt.alloc(), &told)?;
    assert_eq!(rt; told.load(Ordering::SeqCst), 0);
    drop(alone);
    assert_eq!(rt; told.load(Ordering::SeqCst), 321);
    Ok(())
}

// A registration retires 4, and ends.
fn retire_one<'a>(rt: &impl Wait, collector: &Telling<'a>, told: &'a AtomicU64) -> bool {
    let mut pass = collector.pass();
    let Ok(registration) = collector.register(rt, &mut pass) else {
        return false;
    };
    retire(rt, collector, &registration, 4..5, told, &mut pass);
    registration.end(rt, &mut pass)
}

// A thread does so.
fn retire_elsewhere<'a, R: Threads + Wait + Sync>(
    rt: &R,
    collector: &Telling<'a>,
    told: &'a AtomicU64,
) -> bool {
    let (done, ()) = thread::join(rt, move || retire_one(rt, collector, told), || {});
    done
}

// A collector that one caller had between two calls, and left with slot 0, which has two guards still. Then a thread retires 4 beside it.
fn left<'a, R: Threads + Wait + Sync>(
    rt: &R,
    alloc: Global,
    told: &'a AtomicU64,
) -> Result<Telling<'a>, Fail> {
    let mut alone = taken_over(rt, alloc, told)?;
    alone.leave(0, &mut ())?;
    let collector = alone.share();
    if !retire_elsewhere(rt, &collector, told) {
        return Err(Fail::new("nothing was retired"));
    }
    Ok(collector)
}

// All of it waits for slot 0, what was retired last goes first, and the watch is told of it.
#[test]
fn what_one_caller_left_goes_as_all_is_reclaimed(rt: HostRuntime) -> Result<(), Fail> {
    let told = AtomicU64::new(0);
    let mut collector = left(&rt, rt.alloc(), &told)?;
    assert_eq!(rt; told.load(Ordering::SeqCst), 0);
    let mut heard = Digits { all: 0 };
    assert!(rt; collector.reclaim_all(&mut heard));
    assert_eq!(rt; (heard.all, told.load(Ordering::SeqCst)), (4321, 4321));
    assert_eq!(rt; register(&rt, &collector)?, (0, true));
    Ok(())
}

// So it does where one caller takes that over again.
#[test]
fn what_one_caller_left_goes_as_another_reclaims_all(rt: HostRuntime) -> Result<(), Fail> {
    let told = AtomicU64::new(0);
    let Ok(mut alone) = left(&rt, rt.alloc(), &told)?.alone() else {
        return Err(Fail::new("a holder is lost"));
    };
    assert_eq!(rt; told.load(Ordering::SeqCst), 0);
    let mut heard = Digits { all: 0 };
    alone.reclaim_all(&mut heard);
    assert_eq!(rt; (heard.all, told.load(Ordering::SeqCst)), (4321, 4321));
    assert_eq!(rt; alone.register(&mut ())?, 0);
    Ok(())
}

// The slot of a forgotten owned guard is an owned one. It leaves, what waited for it goes, and its number is free.
fn leave_owned(
    rt: &impl Abort,
    alone: &mut Alone<Digit<'_>>,
    told: &AtomicU64,
) -> Result<(), Refusal> {
    assert!(rt; matches!(alone.enter(0), Err(Refusal::WrongKind)));
    assert_eq!(rt; alone.register(&mut ())?, 1);
    assert_eq!(rt; told.load(Ordering::SeqCst), 0);
    alone.leave(0, &mut ())?;
    assert_eq!(rt; told.load(Ordering::SeqCst), 321);
    assert!(rt; matches!(alone.enter(0), Err(Refusal::NotInUse)));
    assert_eq!(rt; alone.enter_owned(&mut ())?, 0);
    Ok(())
}

#[test]
fn what_waits_for_a_forgotten_owned_guard_goes_as_its_slot_leaves(
    rt: HostRuntime,
) -> Result<(), Fail> {
    let told = AtomicU64::new(0);
    let collector = telling(rt.alloc(), 1)?;
    assert!(rt; forget_owned(&rt, &collector, &told)?);
    match collector.alone() {
        Ok(mut alone) => leave_owned(&rt, &mut alone, &told)?,
        Err(_) => return Err(Fail::new("a holder is lost")),
    }
    Ok(())
}

// A registration is forgotten.
fn forget_one(rt: &impl Wait, collector: &Telling<'_>) -> Result<(), Refusal> {
    let mut pass = collector.pass();
    collector.register(rt, &mut pass)?.forget();
    Ok(())
}

// Slot 1 takes what was left and leaves it again, and slot 0 is the last one that ends.
fn end_both(
    rt: &impl Abort,
    alone: &mut Alone<Digit<'_>>,
    told: &AtomicU64,
) -> Result<(), Refusal> {
    assert_eq!(rt; alone.register(&mut ())?, 1);
    assert!(rt; alone.end(1, &mut ())?);
    assert_eq!(rt; told.load(Ordering::SeqCst), 0);
    assert!(rt; alone.end(0, &mut ())?);
    assert_eq!(rt; told.load(Ordering::SeqCst), 123);
    Ok(())
}

// What a thread's slot left beside a forgotten one is there when one caller takes the collector over.
#[test]
fn what_threads_left_is_there_for_one_caller(rt: HostRuntime) -> Result<(), Fail> {
    let told = AtomicU64::new(0);
    let collector = telling(rt.alloc(), 4)?;
    forget_one(&rt, &collector)?;
    assert!(rt; retire_three(&rt, &collector, &told));
    match collector.alone() {
        Ok(mut alone) => end_both(&rt, &mut alone, &told)?,
        Err(_) => return Err(Fail::new("a holder is lost")),
    }
    Ok(())
}

// A registration that can be lost.
struct Lost<'c, 'a>(Registration<'c, Digit<'a>>);

impl Drop for Lost<'_, '_> {
    fn drop(self) {
        let Lost(registration) = self;
        registration.forget();
    }
}

// One is lost.
fn lose_one(rt: &impl Wait, collector: &Telling<'_>) -> Result<(), Refusal> {
    let mut pass = collector.pass();
    mem::forget(Lost(collector.register(rt, &mut pass)?));
    Ok(())
}

// What was forgotten beside it stays so: slot 0 leaves when all is reclaimed.
#[test]
fn a_lost_registration_keeps_one_caller_out(rt: HostRuntime) -> Result<(), Fail> {
    let told = AtomicU64::new(0);
    let collector = telling(rt.alloc(), 1)?;
    assert!(rt; forget_elsewhere(&rt, &collector, &told));
    lose_one(&rt, &collector)?;
    let Err(mut collector) = collector.alone() else {
        return Err(Fail::new("a lost registration was taken over"));
    };
    assert_eq!(rt; told.load(Ordering::SeqCst), 0);
    assert!(rt; !collector.reclaim_all(&mut ()));
    assert_eq!(rt; told.load(Ordering::SeqCst), 321);
    assert_eq!(rt; register(&rt, &collector)?, (0, true));
    Ok(())
}
