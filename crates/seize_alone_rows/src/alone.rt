//! A collector in one caller's hands, and shared again: which values are gone at which call, in which order, and what ends at the drop.
ghost use Rattle.std.specs.Prelude.{◌<◌, ◌≡◌};
ghost use Rattle.seize.specs.Takens.{IsTakenOf};
ghost use base.Stored.{coded_unit};

use seize::{Alone, Call, Refusal, Reply, Taken, Watch};
use seize_test_kit::telling::telling;
use seize_test_kit::values::Digit;
use std::alloc::{AllocError, Global};
use std::collections::VecDeque;
use std::process::Abort;
use std::sync::atomic::{AtomicU64, Ordering};
use std::test::*;

type Telling<'a> = Alone<Digit<'a>>;

// Is told the digits of values that are gone.
#[derive(Drop)]
struct Heard {
    digits: u64,
}

impl<'a> Watch<Digit<'a>> for Heard {
    ghost Seen = { Unit {0} };

    ghost coded = { coded_unit };

    ghost seen = { λ _. tt };

    ghost told = { λ _ _. tt };

    fn gone(&mut self, value: &Digit<'a>) {
        self.digits = self.digits.wrapping_mul(10).wrapping_add(value.digit);
    }
}

// Retires what is in no link, by a slot in use.
fn retire<T: Drop>(
    rt: &impl Abort,
    alone: &mut Alone<T>,
    slot: usize,
    taken: Taken<T>,
    watch: &mut impl Watch<T>,
)
    requires { IsTakenOf T.row.coded.code alone.old.book taken }
    ensures { alone.new.book ≡ alone.old.book }
{
    match alone.retire(slot, taken, 0, watch) {
        Ok(()) => {}
        Err((_, _taken)) => rt.abort(),
    }
}

// Retires a value of this digit that was in no link.
fn defer<'a>(
    rt: &impl Abort,
    alone: &mut Telling<'a>,
    slot: usize,
    digit: u64,
    told: &'a AtomicU64,
    heard: &mut Heard,
) -> Result<(), Refusal> {
    let owned = alone
        .owned(Digit { digit, told })
        .map_err(|(refusal, _)| refusal)?;
    let taken = alone.taken(owned);
    retire(rt, alone, slot, taken, heard);
    Ok(())
}

// Slot 0 retires 1, 2 and 3 while slot 1 is active, and leaves after it. Then it retires 4 without a guard, enters and refreshes.
fn fill_a_batch<'a>(
    rt: &impl Abort,
    alone: &mut Telling<'a>,
    told: &'a AtomicU64,
) -> Result<(), Refusal> {
    let mut heard = Heard { digits: 0 };
    assert_eq!(rt; alone.register(&mut heard)?, 0);
    alone.enter(0)?;
    assert_eq!(rt; alone.enter_owned(&mut heard)?, 1);
    for digit in 1..4 {
        defer(rt, alone, 0, digit, told, &mut heard)?;
    }
    alone.leave(1, &mut heard)?;
    assert_eq!(rt; heard.digits, 0);
    alone.leave(0, &mut heard)?;
    assert_eq!(rt; heard.digits, 123);
    defer(rt, alone, 0, 4, told, &mut heard)?;
    alone.enter(0)?;
    alone.flush(0, &mut heard)?;
    assert_eq!(rt; heard.digits, 123);
    alone.refresh(0, &mut heard)?;
    assert_eq!(rt; heard.digits, 1234);
    assert!(rt; !alone.end(0, &mut heard)?);
    alone.leave(0, &mut heard)?;
    assert!(rt; alone.end(0, &mut heard)?);
    assert_eq!(rt; told.load(Ordering::SeqCst), 1234);
    Ok(())
}

#[test]
fn one_caller_is_told_of_each_value_that_is_gone(rt: HostRuntime) -> Result<(), Fail> {
    let told = AtomicU64::new(0);
    match telling(rt.alloc(), 3)?.alone() {
        Ok(mut alone) => fill_a_batch(&rt, &mut alone, &told)?,
        Err(_) => return Err(Fail::new("the collector came back")),
    }
    Ok(())
}

// Slot 0 leaves 1 in the link and 2 in its batch, with a guard.
fn leave_two<'a>(
    rt: &impl Abort,
    alone: &mut Telling<'a>,
    told: &'a AtomicU64,
) -> Result<(), Refusal>
    requires { 0 < alone.old.links }
{
    let mut heard = Heard { digits: 0 };
    let slot = alone.register(&mut heard)?;
    alone.enter(slot)?;
    let one = alone
        .owned(Digit { digit: 1, told })
        .map_err(|(refusal, _)| refusal)?;
    assert!(rt; alone.protect(slot, 0)?.is_none());
    match alone.swap(slot, 0, Some(one)) {
        Ok(None) => {}
        Ok(Some(_taken)) => rt.abort(),
        Err((refusal, _)) => return Err(refusal),
    }
    assert_eq!(rt; alone.protect(slot, 0)?.map(|found| found.digit), Some(1));
    defer(rt, alone, slot, 2, told, &mut heard)?;
    assert_eq!(rt; heard.digits, 0);
    Ok(())
}

#[test]
fn what_one_caller_left_ends_as_the_shared_collector_drops(rt: HostRuntime) -> Result<(), Fail> {
    let told = AtomicU64::new(0);
    match telling(rt.alloc(), 3)?.alone() {
        Ok(mut alone) => {
            leave_two(&rt, &mut alone, &told)?;
            let collector = alone.share();
            assert_eq!(&rt; told.load(Ordering::SeqCst), 0);
            drop(collector);
        }
        Err(_) => return Err(Fail::new("the collector came back")),
    }
    assert_eq!(&rt; told.load(Ordering::SeqCst), 21);
    Ok(())
}

// So it is without sharing.
#[test]
fn what_one_caller_left_ends_as_it_drops(rt: HostRuntime) -> Result<(), Fail> {
    let told = AtomicU64::new(0);
    match telling(rt.alloc(), 3)?.alone() {
        Ok(mut alone) => {
            leave_two(&rt, &mut alone, &told)?;
            assert_eq!(&rt; told.load(Ordering::SeqCst), 0);
            drop(alone);
        }
        Err(_) => return Err(Fail::new("the collector came back")),
    }
    assert_eq!(&rt; told.load(Ordering::SeqCst), 21);
    Ok(())
}

// A value goes into the link, is found there, comes out and is gone, by one list of calls. The last one needs a number in use.
fn run_a_list<'a>(
    rt: &impl Abort,
    alone: &mut Telling<'a>,
    told: &'a AtomicU64,
    alloc: Global,
) -> Result<(), Refusal>
    requires { 0 < alone.old.links }
{
    let mut heard = Heard { digits: 0 };
    let one = alone
        .owned(Digit { digit: 1, told })
        .map_err(|(refusal, _)| refusal)?;
    let mut calls = VecDeque::new(alloc);
    let mut replies = Vec::new(alloc);
    calls.push_back(Call::EnterOwned).map_err(AllocError::from)?;
    calls
        .push_back(Call::Swap(0, 0, Some(one), 0))
        .map_err(AllocError::from)?;
    calls
        .push_back(Call::Protect(0, 0))
        .map_err(AllocError::from)?;
    calls
        .push_back(Call::Swap(0, 0, None, 0))
        .map_err(AllocError::from)?;
    calls
        .push_back(Call::Protect(0, 0))
        .map_err(AllocError::from)?;
    calls.push_back(Call::Flush(0)).map_err(AllocError::from)?;
    calls.push_back(Call::Leave(0)).map_err(AllocError::from)?;
    calls.push_back(Call::Enter(0)).map_err(AllocError::from)?;
    alone.run(&mut calls, &mut replies, &mut heard)?;
    assert_eq!(rt; heard.digits, 1);
    assert_eq!(rt; replies.len(), 8);
    assert!(rt; matches!(replies.get(0), Some(Reply::Slot(0))));
    assert!(rt; matches!(replies.get(2), Some(Reply::Found(true))));
    assert!(rt; matches!(replies.get(4), Some(Reply::Found(false))));
    assert!(rt;
        matches!(
            replies.get(7),
            Some(Reply::Refused(Refusal::NotInUse, None))
        )
    );
    Ok(())
}

#[test]
fn one_caller_runs_a_list_of_calls(rt: HostRuntime) -> Result<(), Fail> {
    let told = AtomicU64::new(0);
    match telling(rt.alloc(), 3)?.alone() {
        Ok(mut alone) => run_a_list(&rt, &mut alone, &told, rt.alloc())?,
        Err(_) => return Err(Fail::new("the collector came back")),
    }
    assert_eq!(&rt; told.load(Ordering::SeqCst), 1);
    Ok(())
}
