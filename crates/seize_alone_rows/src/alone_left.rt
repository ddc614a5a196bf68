//! What slots of a collector in one caller's hands leave as they end: which values are gone at which call, and in which order.

use crate::nests::{AloneNests, Ends, Heard, alone_nests, leaf, retire, retire_new, round};
use seize::Refusal;
use std::alloc::Global;
use std::process::Abort;
use std::test::*;

// Slots 0 and 1 retire 1 and 2, and end beside slot 2.
fn leave_two(
    rt: &impl Abort,
    alloc: Global,
    alone: &mut AloneNests<'_>,
    heard: &mut Heard,
) -> Result<(), Refusal> {
    for s in 0..3usize {
        assert_eq!(rt; alone.register(heard)?, s);
    }
    for s in 0..2usize {
        retire_new(rt, alloc, alone, s, s as u64 + 1, heard)?;
        assert!(rt; alone.end(s, heard)?);
    }
    Ok(())
}

// At size 2 what was left fills a batch, and is gone as a number is taken: the watch is told of it there. At size 3 it is in the batch of
// the slot that took it, before what that retires.
#[test]
fn what_fills_a_batch_is_gone_as_a_number_is_taken(rt: HostRuntime) -> Result<(), Fail> {
    for owned in [false, true] {
        for (size, many) in [(2, 2), (3, 0)] {
            let ends = Ends::with_room(rt.alloc(), 3)?;
            let mut heard = Heard::with_room(rt.alloc(), 3)?;
            let mut alone = alone_nests(rt.alloc(), size, 0, &ends)?;
            leave_two(&rt, rt.alloc(), &mut alone, &mut heard)?;
            assert_eq!(rt; heard.numbers.len(), 0);
            let s = if owned {
                alone.enter_owned(&mut heard)?
            } else {
                alone.register(&mut heard)?
            };
            assert_eq!(rt; (s, heard.numbers.len()), (0, many));
            retire_new(&rt, rt.alloc(), &mut alone, s, 3, &mut heard)?;
            alone.reclaim_all(&mut heard);
            assert_eq!(rt; heard.numbers.as_slice(), [1, 2, 3].as_slice());
            assert!(rt; ends.are(&[1, 2, 3]));
        }
    }
    Ok(())
}

// Slot 2 retires 3, in which is 4 with 5 inside, and 6, and ends as the last one.
fn end_the_last(
    rt: &impl Abort,
    alloc: Global,
    alone: &mut AloneNests<'_>,
    heard: &mut Heard,
) -> Result<(), Refusal> {
    let fifth = leaf(alloc, alone, 5)?;
    let fourth = round(alloc, alone, 4, fifth)?;
    let third = round(alloc, alone, 3, fourth)?;
    retire(rt, alone, 2, third, heard);
    retire_new(rt, alloc, alone, 2, 6, heard)?;
    assert_eq!(rt; heard.numbers.len(), 0);
    assert!(rt; alone.end(2, heard)?);
    Ok(())
}

// The last slot in use attempts what others left, the first first, and then its batch; what these put is a batch of its own each time.
// Nothing is left then.
#[test]
fn the_last_slot_leaves_nothing(rt: HostRuntime) -> Result<(), Fail> {
    let wanted = [1, 2, 3, 6, 4, 5];
    let ends = Ends::with_room(rt.alloc(), 6)?;
    let mut heard = Heard::with_room(rt.alloc(), 6)?;
    let mut alone = alone_nests(rt.alloc(), 9, 0, &ends)?;
    leave_two(&rt, rt.alloc(), &mut alone, &mut heard)?;
    end_the_last(&rt, rt.alloc(), &mut alone, &mut heard)?;
    assert_eq!(rt; heard.numbers.as_slice(), wanted.as_slice());
    assert!(rt; ends.are(&wanted));
    alone.reclaim_all(&mut heard);
    drop(alone);
    assert!(rt; ends.are(&wanted));
    Ok(())
}

// What was left stays so while the collector is shared and taken over again. It goes after all batches where all is reclaimed.
#[test]
fn what_was_left_goes_after_all_batches(rt: HostRuntime) -> Result<(), Fail> {
    let ends = Ends::with_room(rt.alloc(), 3)?;
    let mut heard = Heard::with_room(rt.alloc(), 3)?;
    let mut alone = alone_nests(rt.alloc(), 9, 0, &ends)?;
    leave_two(&rt, rt.alloc(), &mut alone, &mut heard)?;
    retire_new(&rt, rt.alloc(), &mut alone, 2, 3, &mut heard)?;
    let Ok(mut alone) = alone.share().alone() else {
        return Err(Fail::new("the collector came back"));
    };
    assert_eq!(rt; heard.numbers.len(), 0);
    alone.reclaim_all(&mut heard);
    assert_eq!(rt; heard.numbers.as_slice(), [3, 1, 2].as_slice());
    assert!(rt; ends.are(&[3, 1, 2]));
    Ok(())
}

// So it is at the drop.
#[test]
fn what_was_left_goes_after_all_batches_at_the_drop(rt: HostRuntime) -> Result<(), Fail> {
    let ends = Ends::with_room(rt.alloc(), 3)?;
    let mut heard = Heard::with_room(rt.alloc(), 3)?;
    let mut alone = alone_nests(rt.alloc(), 9, 0, &ends)?;
    leave_two(&rt, rt.alloc(), &mut alone, &mut heard)?;
    retire_new(&rt, rt.alloc(), &mut alone, 2, 3, &mut heard)?;
    drop(alone);
    assert!(rt; ends.are(&[3, 1, 2]));
    Ok(())
}
