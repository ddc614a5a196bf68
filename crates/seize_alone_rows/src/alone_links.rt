//! Links and batches of a collector in one caller's hands: what a link holds, what a flush does, and what ends at the drop.
ghost use Rattle.std.specs.Prelude.{◌≡◌, ◌<◌};
ghost use Rattle.seize.specs.Alones.{IsSame};

use crate::nests::{AloneNests, Ends, Heard, alone_nests, leaf, number_in, retire_new};
use crate::oracle::Value;
use seize::Refusal;
use std::alloc::Global;
use std::process::Abort;
use std::test::*;

// The number that slot 0 finds in the link.
fn found(alone: &AloneNests<'_>, link: usize) -> Result<Option<u64>, Refusal>
    requires { link < alone.now.links }
{
    number_in(alone, 0, link)
}

// Slot 0 swaps a new value into the link, and retires what came out. It says whether there was any.
fn exchange(
    rt: &impl Abort,
    alloc: Global,
    alone: &mut AloneNests<'_>,
    link: usize,
    number: u64,
    heard: &mut Heard,
) -> Result<bool, Refusal>
    requires { link < alone.old.links }
    ensures { IsSame alone.old alone.new }
{
    let block = leaf(alloc, alone, number)?;
    let old = match alone.swap(0, link, Some(block)) {
        Ok(Some(old)) => old,
        Ok(None) => return Ok(false),
        Err((refusal, _)) => return Err(refusal),
    };
    match alone.retire(0, old, 0, heard) {
        Ok(()) => Ok(true),
        Err((_, _old)) => rt.abort(),
    }
}

// What two links hold is read at once, and so is what one holds. Whether two are of one block is told.
fn read_at_once(rt: &impl Abort, alone: &AloneNests<'_>) -> Result<(), Refusal>
    requires { alone.now.links ≡ 2 }
{
    let (first, again) = (alone.protect(0, 0)?, alone.protect(0, 0)?);
    let (Some(first), Some(again), Some(second)) = (first, again, alone.protect(0, 1)?) else {
        rt.abort()
    };
    assert_eq!(rt; (first.number, again.number, second.number), (8, 8, 9));
    assert!(rt; first.same(&again) && !first.same(&second));
    assert_eq!(rt; number_in(alone, 1, 0), Err(Refusal::NotInUse));
    Ok(())
}

// Slot 0 puts 7 and 9 into two links, and then 8 in the place of 7.
fn swap_three(
    rt: &impl Abort,
    alloc: Global,
    alone: &mut AloneNests<'_>,
    heard: &mut Heard,
) -> Result<(), Refusal>
    requires { alone.old.links ≡ 2 }
{
    assert_eq!(rt; alone.register(heard)?, 0);
    assert_eq!(rt; found(alone, 0), Err(Refusal::NotActive));
    alone.enter(0)?;
    assert_eq!(rt; found(alone, 0)?, None);
    assert!(rt; !exchange(rt, alloc, alone, 0, 7, heard)?);
    assert!(rt; !exchange(rt, alloc, alone, 1, 9, heard)?);
    assert_eq!(rt; found(alone, 0)?, Some(7));
    assert!(rt; exchange(rt, alloc, alone, 0, 8, heard)?);
    assert_eq!(rt; (found(alone, 0)?, found(alone, 1)?), (Some(8), Some(9)));
    read_at_once(rt, alone)?;
    assert_eq!(rt; heard.numbers.len(), 0);
    alone.refresh(0, heard)
}

// A link holds its value until that is swapped out. What was swapped out is gone once its slot refreshes. What is linked at the end goes
// to the reclaimer as the collector drops, which tells no watch.
#[test]
fn what_was_swapped_out_is_gone_with_a_refresh(rt: HostRuntime) -> Result<(), Fail> {
    let ends = Ends::with_room(rt.alloc(), 3)?;
    let mut heard = Heard::with_room(rt.alloc(), 3)?;
    let mut alone = alone_nests(rt.alloc(), 1, 2, &ends)?;
    swap_three(&rt, rt.alloc(), &mut alone, &mut heard)?;
    assert_eq!(rt; heard.numbers.as_slice(), [7].as_slice());
    assert!(rt; ends.are(&[7]));
    drop(alone);
    let all = [7, 8, 9].map(|number| Value { number, kind: 0 });
    assert!(rt; ends.have(&all));
    Ok(())
}

// A slot with a guard retires a value beside another slot, flushes or does not, and leaves. It says how many are gone before the leave,
// after it, and as the other slot ends.
fn leave_flushed(
    rt: &impl Abort,
    alloc: Global,
    alone: &mut AloneNests<'_>,
    flushes: bool,
    heard: &mut Heard,
) -> Result<[usize; 3], Refusal> {
    let other = alone.register(heard)?;
    let s = alone.enter_owned(heard)?;
    retire_new(rt, alloc, alone, s, 7, heard)?;
    if flushes {
        alone.flush(s, heard)?;
    }
    let before = heard.numbers.len();
    alone.leave(s, heard)?;
    let between = heard.numbers.len();
    alone.end(other, heard)?;
    Ok([before, between, heard.numbers.len()])
}

// A flush retires a batch that is not yet full, which is gone when its slot leaves. Without one the slot hands it on as it ends, and it is
// gone as the last slot does.
#[test]
fn a_flushed_batch_is_gone_with_the_leave(rt: HostRuntime) -> Result<(), Fail> {
    for (flushes, between) in [(true, 1), (false, 0)] {
        let ends = Ends::with_room(rt.alloc(), 1)?;
        let mut heard = Heard::with_room(rt.alloc(), 1)?;
        let mut alone = alone_nests(rt.alloc(), 9, 0, &ends)?;
        let gone = leave_flushed(&rt, rt.alloc(), &mut alone, flushes, &mut heard)?;
        assert_eq!(rt; gone, [0, between, 1]);
        drop(alone);
        assert!(rt; ends.are(&[7]));
    }
    Ok(())
}

// A registered slot enters, retires a value and leaves, and so with the next one.
fn leave_twice(
    rt: &impl Abort,
    alloc: Global,
    alone: &mut AloneNests<'_>,
    heard: &mut Heard,
) -> Result<(), Refusal> {
    let s = alone.register(heard)?;
    for number in 1..3 {
        alone.enter(s)?;
        retire_new(rt, alloc, alone, s, number, heard)?;
        assert_eq!(rt; heard.numbers.len(), 0);
        alone.leave(s, heard)?;
    }
    Ok(())
}

// At size 2 the first one waits for the second.
#[test]
fn a_batch_of_two_guards_is_gone_with_the_second_leave(rt: HostRuntime) -> Result<(), Fail> {
    let ends = Ends::with_room(rt.alloc(), 2)?;
    let mut heard = Heard::with_room(rt.alloc(), 2)?;
    let mut alone = alone_nests(rt.alloc(), 2, 0, &ends)?;
    leave_twice(&rt, rt.alloc(), &mut alone, &mut heard)?;
    assert_eq!(rt; heard.numbers.as_slice(), [1, 2].as_slice());
    assert!(rt; ends.are(&[1, 2]));
    Ok(())
}

// A slot without a guard retires four values.
fn retire_four(
    rt: &impl Abort,
    alloc: Global,
    alone: &mut AloneNests<'_>,
    heard: &mut Heard,
) -> Result<(), Refusal> {
    let s = alone.register(heard)?;
    for number in 0..4 {
        retire_new(rt, alloc, alone, s, number, heard)?;
    }
    Ok(())
}

// The drop gives what is in a batch to the reclaimer, each value once.
#[test]
fn a_batch_of_four_ends_at_the_drop(rt: HostRuntime) -> Result<(), Fail> {
    let ends = Ends::with_room(rt.alloc(), 4)?;
    let mut heard = Heard::with_room(rt.alloc(), 4)?;
    let mut alone = alone_nests(rt.alloc(), 9, 0, &ends)?;
    retire_four(&rt, rt.alloc(), &mut alone, &mut heard)?;
    assert!(rt; ends.are(&[]));
    drop(alone);
    assert!(rt; ends.are(&[0, 1, 2, 3]));
    assert_eq!(rt; heard.numbers.len(), 0);
    Ok(())
}

// A block outlives its collector, in one caller's hands. It goes to no reclaimer.
#[test]
fn a_block_outlives_its_collector(rt: HostRuntime) -> Result<(), Fail> {
    let ends = Ends::with_room(rt.alloc(), 1)?;
    let mut alone = alone_nests(rt.alloc(), 1, 0, &ends)?;
    let block = leaf(rt.alloc(), &mut alone, 3)?;
    drop(alone);
    assert_eq!(rt; block.number, 3);
    drop(block);
    assert!(rt; ends.are(&[]));
    Ok(())
}
