//! Calls of a collector in one caller's hands that ask for no memory. The script `tools/memory` runs this test with each request after the
//! sign refused.
ghost use Rattle.std.specs.Prelude.{◌≡◌, All};
ghost use Rattle.seize.specs.Alones.{IsSame};
ghost use Rattle.seize.specs.Blocks.{Belongs};
ghost use Rattle.seize_uses.specs.Nests.{nest_owners};

use crate::alone_further::leaves;
use crate::nests::{AloneNests, Block, Ends, Heard, alone_nests, leaf, number_in, retire};
use seize::Refusal;
use seize_test_kit::sign::give_sign;
use std::alloc::Global;
use std::process::Abort;
use std::test::*;

// How many values are retired one after another.
const MANY: u64 = 30;

// The slot, which has a guard, swaps this into the link, and retires what came out.
fn put(
    rt: &impl Abort,
    alone: &mut AloneNests<'_>,
    s: usize,
    block: Block,
    heard: &mut Heard,
) -> Result<(), Refusal>
    requires link { alone.old.links ≡ 1 }
    requires block { Belongs nest_owners alone.old.book.store block }
    ensures { IsSame alone.old alone.new }
{
    let old = match alone.swap(s, 0, Some(block)) {
        Ok(Some(old)) => old,
        Ok(None) => return Ok(()),
        Err((refusal, _)) => return Err(refusal),
    };
    match alone.retire(s, old, 0, heard) {
        Ok(()) => Ok(()),
        Err((_, _old)) => rt.abort(),
    }
}

// The slot retires these.
fn retire_all(
    rt: &impl Abort,
    alone: &mut AloneNests<'_>,
    s: usize,
    blocks: Vec<Block>,
    heard: &mut Heard,
)
    requires { All (Belongs nest_owners alone.old.book.store) blocks.items }
    ensures { IsSame alone.old alone.new }
{
    for block in blocks {
        retire(rt, alone, s, block, heard);
    }
}

// Makes the blocks and a slot, and gives the sign. Then the slot enters, puts a value into the link, retires the others, flushes,
// refreshes, swaps and leaves. It ends, by which one more is gone, is registered again and enters; and all is reclaimed. How many values
// were gone after the retirements, the flush, the refresh, the end and at last.
fn make_calls(
    rt: &impl Abort,
    alloc: Global,
    alone: &mut AloneNests<'_>,
    heard: &mut Heard,
) -> Result<[usize; 5], Refusal>
    requires { alone.old.links ≡ 1 }
{
    let blocks = leaves(alloc, alone, 0, MANY)?;
    let first = leaf(alloc, alone, MANY)?;
    let second = leaf(alloc, alone, MANY + 1)?;
    let s = alone.register(heard)?;
    give_sign(alloc)?;
    alone.enter(s)?;
    put(rt, alone, s, first, heard)?;
    retire_all(rt, alone, s, blocks, heard);
    let retired = heard.numbers.len();
    alone.flush(s, heard)?;
    let flushed = heard.numbers.len();
    alone.refresh(s, heard)?;
    let refreshed = heard.numbers.len();
    put(rt, alone, s, second, heard)?;
    assert_eq!(rt; number_in(alone, s, 0)?, Some(MANY + 1));
    alone.leave(s, heard)?;
    assert!(rt; alone.end(s, heard)?);
    let left = heard.numbers.len();
    assert_eq!(rt; alone.register(heard)?, s);
    alone.enter(s)?;
    alone.reclaim_all(heard);
    Ok([retired, flushed, refreshed, left, heard.numbers.len()])
}

// None of these calls is refused where each request for memory after the sign is, and values go as they do with it.
#[test]
fn calls_of_one_caller_ask_for_no_memory(rt: HostRuntime) -> Result<(), Fail> {
    let ends = Ends::with_room(rt.alloc(), MANY + 2)?;
    let mut heard = Heard::with_room(rt.alloc(), MANY as usize + 2)?;
    let mut alone = alone_nests(rt.alloc(), 32, 1, &ends)?;
    let gone = make_calls(&rt, rt.alloc(), &mut alone, &mut heard)?;
    assert_eq!(rt; gone, [0, 0, 30, 31, 31]);
    assert_eq!(rt; ends.many(), MANY + 1);
    drop(alone);
    assert_eq!(rt; ends.many(), MANY + 2);
    Ok(())
}

// Makes four blocks and three slots, and gives the sign. Two of the slots retire a value each, and end; a number is taken, by which both
// are gone. Its slot retires the third value and ends. An owned one takes that and leaves it. At last the third slot retires one, and ends.
// How many values were gone when two slots had ended, when the number was taken, before the last end, and after it.
fn hand_on(
    rt: &impl Abort,
    alloc: Global,
    alone: &mut AloneNests<'_>,
    heard: &mut Heard,
) -> Result<[usize; 4], Refusal> {
    let first = leaf(alloc, alone, 1)?;
    let second = leaf(alloc, alone, 2)?;
    let third = leaf(alloc, alone, 3)?;
    let fourth = leaf(alloc, alone, 4)?;
    let (one, two) = (alone.register(heard)?, alone.register(heard)?);
    let last = alone.register(heard)?;
    give_sign(alloc)?;
    retire(rt, alone, one, first, heard);
    assert!(rt; alone.end(one, heard)?);
    retire(rt, alone, two, second, heard);
    assert!(rt; alone.end(two, heard)?);
    let left = heard.numbers.len();
    let again = alone.register(heard)?;
    let taken = heard.numbers.len();
    retire(rt, alone, again, third, heard);
    assert!(rt; alone.end(again, heard)?);
    let owned = alone.enter_owned(heard)?;
    alone.leave(owned, heard)?;
    retire(rt, alone, last, fourth, heard);
    let before = heard.numbers.len();
    assert!(rt; alone.end(last, heard)?);
    Ok([left, taken, before, heard.numbers.len()])
}

// So it is where slots hand on what they have in their batches.
#[test]
fn slots_of_one_caller_hand_on_without_memory(rt: HostRuntime) -> Result<(), Fail> {
    let ends = Ends::with_room(rt.alloc(), 4)?;
    let mut heard = Heard::with_room(rt.alloc(), 4)?;
    let mut alone = alone_nests(rt.alloc(), 2, 0, &ends)?;
    let gone = hand_on(&rt, rt.alloc(), &mut alone, &mut heard)?;
    assert_eq!(rt; gone, [0, 2, 2, 4]);
    assert!(rt; ends.are(&[1, 2, 3, 4]));
    Ok(())
}
