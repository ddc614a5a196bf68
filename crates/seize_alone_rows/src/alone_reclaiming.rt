//! A collector in one caller's hands that reclaims all: in which order values go, what stays, and that it serves afterwards, also shared.
ghost use Rattle.std.specs.Prelude.{◌≡◌};
ghost use Rattle.seize.specs.Alones.{IsSame};

use crate::alone_further::{MANY, count_up, retire_a_chain};
use crate::nests::{
    AloneNests, Ends, Heard, alone_nests, leaf, number_in, retire, retire_new, round,
};
use seize::{Alone, Refusal};
use seize_test_kit::telling::{Telling, defer_alone, telling};
use seize_test_kit::values::Digit;
use std::alloc::Global;
use std::process::Abort;
use std::sync::Wait;
use std::sync::atomic::{AtomicU64, Ordering};
use std::test::*;

// An owned guard is forgotten with slot 0. The next number is given and taken back twice, and 7 waits for the guard.
fn forget_one(
    rt: &impl Abort,
    alloc: Global,
    alone: &mut AloneNests<'_>,
    heard: &mut Heard,
) -> Result<(), Refusal> {
    assert_eq!(rt; alone.enter_owned(heard)?, 0);
    for _ in 0..2u8 {
        assert_eq!(rt; alone.register(heard)?, 1);
        assert!(rt; alone.end(1, heard)?);
    }
    retire_new(rt, alloc, alone, 0, 7, heard)
}

// A number that a forgotten guard keeps stays in use until all is reclaimed. Then it is the least one again.
#[test]
fn a_forgotten_guard_keeps_its_number_until_all_is_reclaimed(rt: HostRuntime) -> Result<(), Fail> {
    let ends = Ends::with_room(rt.alloc(), 1)?;
    let mut heard = Heard::with_room(rt.alloc(), 1)?;
    let mut alone = alone_nests(rt.alloc(), 1, 0, &ends)?;
    forget_one(&rt, rt.alloc(), &mut alone, &mut heard)?;
    assert_eq!(rt; heard.numbers.len(), 0);
    alone.reclaim_all(&mut heard);
    assert_eq!(rt; heard.numbers.as_slice(), [7].as_slice());
    assert!(rt; ends.are(&[7]));
    assert_eq!(rt; alone.register(&mut heard)?, 0);
    drop(alone);
    assert!(rt; ends.are(&[7]));
    Ok(())
}

// Slot 0 has a guard, and swaps 9 into the link. It retires 4, in which is 5. Slot 1 retires 1, in which is 6 with 7 inside, and then 2
// and 3.
fn fill_two_batches(
    rt: &impl Abort,
    alloc: Global,
    alone: &mut AloneNests<'_>,
    heard: &mut Heard,
) -> Result<(), Refusal>
    requires { alone.old.links ≡ 1 }
    ensures { IsSame alone.old alone.new }
{
    assert_eq!(rt; (alone.register(heard)?, alone.register(heard)?), (0, 1));
    alone.enter(0)?;
    let ninth = leaf(alloc, alone, 9)?;
    match alone.swap(0, 0, Some(ninth)) {
        Ok(None) => {}
        Ok(Some(_old)) => rt.abort(),
        Err((refusal, _)) => return Err(refusal),
    }
    let fifth = leaf(alloc, alone, 5)?;
    let fourth = round(alloc, alone, 4, fifth)?;
    retire(rt, alone, 0, fourth, heard);
    let seventh = leaf(alloc, alone, 7)?;
    let sixth = round(alloc, alone, 6, seventh)?;
    let first = round(alloc, alone, 1, sixth)?;
    retire(rt, alone, 1, first, heard);
    retire_new(rt, alloc, alone, 1, 2, heard)?;
    retire_new(rt, alloc, alone, 1, 3, heard)
}

// What the link holds, for a guard of the least number.
fn found(alone: &mut AloneNests<'_>, heard: &mut Heard) -> Result<Option<u64>, Refusal>
    requires { alone.old.links ≡ 1 }
    ensures { IsSame alone.old alone.new }
{
    let s = alone.enter_owned(heard)?;
    let found = number_in(alone, s, 0)?;
    alone.leave(s, heard)?;
    Ok(found)
}

// At size 2 the batch with 1 and 2 waits for slot 0, 4 is in the batch of slot 0, and 3 in that of slot 1. They go in this order, and then
// what they held, the first first. The link keeps its value.
#[test]
fn all_goes_in_order_and_links_stay(rt: HostRuntime) -> Result<(), Fail> {
    let ends = Ends::with_room(rt.alloc(), 8)?;
    let mut heard = Heard::with_room(rt.alloc(), 8)?;
    let mut alone = alone_nests(rt.alloc(), 2, 1, &ends)?;
    fill_two_batches(&rt, rt.alloc(), &mut alone, &mut heard)?;
    assert_eq!(rt; heard.numbers.len(), 0);
    alone.reclaim_all(&mut heard);
    let wanted = [1, 2, 4, 3, 6, 5, 7];
    assert_eq!(rt; heard.numbers.as_slice(), wanted.as_slice());
    assert!(rt; ends.are(&wanted));
    assert_eq!(rt; found(&mut alone, &mut heard)?, Some(9));
    alone.reclaim_all(&mut heard);
    assert!(rt; ends.are(&wanted));
    drop(alone);
    assert!(rt; ends.are(&[1, 2, 4, 3, 6, 5, 7, 9]));
    Ok(())
}

// The drop gives them to the reclaimer in the same order, and then what the link holds.
#[test]
fn all_goes_in_order_at_the_drop(rt: HostRuntime) -> Result<(), Fail> {
    let ends = Ends::with_room(rt.alloc(), 8)?;
    let mut heard = Heard::with_room(rt.alloc(), 0)?;
    let mut alone = alone_nests(rt.alloc(), 2, 1, &ends)?;
    fill_two_batches(&rt, rt.alloc(), &mut alone, &mut heard)?;
    assert_eq!(rt; ends.many(), 0);
    drop(alone);
    assert!(rt; ends.are(&[1, 2, 4, 3, 6, 5, 7, 9]));
    Ok(())
}

// A chain that waits in a batch is gone with all, in its order. No memory is asked for.
#[test]
fn a_long_chain_goes_as_all_is_reclaimed(rt: HostRuntime) -> Result<(), Fail> {
    let ends = Ends::with_room(rt.alloc(), 0)?;
    let mut heard = Heard::with_room(rt.alloc(), MANY as usize)?;
    let mut alone = alone_nests(rt.alloc(), 2, 0, &ends)?;
    retire_a_chain(&rt, rt.alloc(), &mut alone, &mut heard)?;
    assert_eq!(rt; ends.many(), 0);
    alone.reclaim_all(&mut heard);
    assert_eq!(rt; (ends.many(), heard.numbers.len() as u64), (MANY, MANY));
    assert!(rt; count_up(heard.numbers.as_slice()));
    Ok(())
}

// A slot with a guard retires a value of this digit, and stays so.
fn retire_digit<'a>(
    rt: &impl Abort,
    alone: &mut Alone<Digit<'a>>,
    digit: u64,
    told: &'a AtomicU64,
) -> Result<(), Refusal> {
    let s = alone.enter_owned(&mut ())?;
    let owned = alone
        .owned(Digit { digit, told })
        .map_err(|(refusal, _)| refusal)?;
    let taken = alone.taken(owned);
    match alone.retire(s, taken, 0, &mut ()) {
        Ok(()) => Ok(()),
        Err((_, _taken)) => rt.abort(),
    }
}

// A guard of a thread's registration retires a value of this digit. The registration is forgotten then.
fn retire_shared<'a>(
    rt: &(impl Wait + Abort),
    collector: &Telling<'a>,
    digit: u64,
    told: &'a AtomicU64,
) {
    let mut pass = collector.pass();
    let registration = collector.register(rt, &mut pass).expect(rt, "memory");
    assert_eq!(rt; registration.thread_id(), 0);
    defer_alone(rt, &registration, digit, told, &mut pass);
    registration.forget();
}

// All is reclaimed, and then again with another value.
fn reclaim_twice<'a>(
    rt: &impl Abort,
    alone: &mut Alone<Digit<'a>>,
    told: &'a AtomicU64,
) -> Result<(), Refusal> {
    for digit in 1..3 {
        retire_digit(rt, alone, digit, told)?;
        alone.reclaim_all(&mut ());
    }
    assert_eq!(rt; told.load(Ordering::SeqCst), 12);
    Ok(())
}

// When all was reclaimed, the collector serves as before, in one caller's hands, shared with threads, and in one caller's hands again.
#[test]
fn a_collector_serves_when_all_was_reclaimed(rt: HostRuntime) -> Result<(), Fail> {
    let told = AtomicU64::new(0);
    let Ok(mut alone) = telling(rt.alloc(), 9)?.alone() else {
        return Err(Fail::new("the collector came back"));
    };
    reclaim_twice(&rt, &mut alone, &told)?;
    let mut collector = alone.share();
    retire_shared(&rt, &collector, 3, &told);
    assert_eq!(rt; told.load(Ordering::SeqCst), 12);
    assert!(rt; collector.reclaim_all(&mut ()));
    assert_eq!(rt; told.load(Ordering::SeqCst), 123);
    let Ok(mut alone) = collector.alone() else {
        return Err(Fail::new("the collector came back"));
    };
    retire_digit(&rt, &mut alone, 4, &told)?;
    alone.reclaim_all(&mut ());
    assert_eq!(rt; told.load(Ordering::SeqCst), 1234);
    Ok(())
}
