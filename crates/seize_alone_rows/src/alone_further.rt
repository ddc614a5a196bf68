//! Further values on a collector in one caller's hands: how far one call goes, in which order values go, and that each goes once. Where a
//! chain or a wide value was made, a sign is given (`sign` of `seize_test_kit`): no call after it asks for memory.
ghost use Rattle.std.specs.Prelude.{◌≡◌, All, IfOk};
ghost use Rattle.seize.specs.Alones.{IsSame};
ghost use Rattle.seize.specs.Blocks.{Belongs, owned_store};
ghost use Rattle.seize_uses.specs.Nests.{nest_owners};

use crate::nests::{
    AloneNests, Block, Ends, Heard, alone_nests, around, leaf, retire, retire_new, round,
};
use seize::{Alone, Collector, IdSource, Owned, Refusal};
use seize_test_kit::sign::give_sign;
use seize_test_kit::values::{Counted, ended};
use std::alloc::{AllocError, Global};
use std::process::Abort;
use std::sync::atomic::AtomicU64;
use std::test::*;

/// How long the chain and how wide the value.
pub(crate) const MANY: u64 = 10_000;

// A block with these two inside.
fn around_two(
    alloc: Global,
    alone: &mut AloneNests<'_>,
    number: u64,
    first: Block,
    second: Block,
) -> Result<Block, Refusal>
    requires first { Belongs nest_owners alone.old.book.store first }
    requires second { Belongs nest_owners alone.old.book.store second }
    ensures made { IfOk result (Belongs nest_owners alone.old.book.store) }
    ensures same { alone.new ≡ alone.old }
{
    let mut inside = Vec::new(alloc);
    inside.push(first).map_err(AllocError::from)?;
    inside.push(second).map_err(AllocError::from)?;
    around(alone, number, inside)
}

// 1 holds 2 and 3, and 2 holds 4. 1 and then 5 are retired.
fn retire_a_tree(
    rt: &impl Abort,
    alloc: Global,
    alone: &mut AloneNests<'_>,
    heard: &mut Heard,
) -> Result<(), Refusal> {
    let s = alone.register(heard)?;
    let fourth = leaf(alloc, alone, 4)?;
    let second = round(alloc, alone, 2, fourth)?;
    let third = leaf(alloc, alone, 3)?;
    let first = around_two(alloc, alone, 1, second, third)?;
    retire(rt, alone, s, first, heard);
    retire_new(rt, alloc, alone, s, 5, heard)
}

// At size 2 four values are gone in the call that retires 5. 4 alone stays in the batch, and ends with the collector.
#[test]
fn each_reclaimer_is_called_once(rt: HostRuntime) -> Result<(), Fail> {
    let ends = Ends::with_room(rt.alloc(), 5)?;
    let mut heard = Heard::with_room(rt.alloc(), 5)?;
    let mut alone = alone_nests(rt.alloc(), 2, 0, &ends)?;
    retire_a_tree(&rt, rt.alloc(), &mut alone, &mut heard)?;
    assert_eq!(rt; heard.numbers.as_slice(), [1, 5, 2, 3].as_slice());
    assert!(rt; ends.are(&[1, 5, 2, 3]));
    drop(alone);
    assert!(rt; ends.are(&[1, 5, 2, 3, 4]));
    Ok(())
}

/// Whether the numbers are 1, 2, 3 and so on.
pub(crate) fn count_up(numbers: &[u64]) -> bool {
    numbers.iter().zip(1..).all(|(number, n)| *number == n)
}

// 1 holds 2, which holds 3, and so on.
fn chain(alloc: Global, alone: &mut AloneNests<'_>) -> Result<Block, Refusal>
    ensures made { IfOk result (Belongs nest_owners alone.old.book.store) }
    ensures same { alone.new ≡ alone.old }
{
    let mut block = leaf(alloc, alone, MANY)?;
    for number in (1..MANY).rev() {
        block = round(alloc, alone, number, block)?;
    }
    Ok(block)
}

/// Makes such a chain, and gives the sign. A slot without a guard retires the chain.
pub(crate) fn retire_a_chain(
    rt: &impl Abort,
    alloc: Global,
    alone: &mut AloneNests<'_>,
    heard: &mut Heard,
) -> Result<(), Refusal> {
    let s = alone.register(heard)?;
    let first = chain(alloc, alone)?;
    give_sign(alloc)?;
    retire(rt, alone, s, first, heard);
    Ok(())
}

// Where nobody is active, all are gone in the call that retires the first, which asks for no memory.
#[test]
fn a_long_chain_goes_in_one_call(rt: HostRuntime) -> Result<(), Fail> {
    let ends = Ends::with_room(rt.alloc(), 0)?;
    let mut heard = Heard::with_room(rt.alloc(), MANY as usize)?;
    let mut alone = alone_nests(rt.alloc(), 1, 0, &ends)?;
    retire_a_chain(&rt, rt.alloc(), &mut alone, &mut heard)?;
    assert_eq!(rt; (ends.many(), heard.numbers.len() as u64), (MANY, MANY));
    assert!(rt; count_up(heard.numbers.as_slice()));
    Ok(())
}

/// So many blocks, of the numbers from this one on.
pub(crate) fn leaves(
    alloc: Global,
    alone: &mut AloneNests<'_>,
    from: u64,
    many: u64,
) -> Result<Vec<Block>, Refusal>
    ensures made { IfOk result (λ blocks. All (Belongs nest_owners alone.old.book.store) blocks.items) }
    ensures same { alone.new ≡ alone.old }
{
    let mut inside = Vec::new(alloc);
    for n in 0..many {
        let block = leaf(alloc, alone, from.wrapping_add(n))?;
        inside.push(block).map_err(AllocError::from)?;
    }
    Ok(inside)
}

// Makes 1, which holds the values from 4 on, and 2 and 3, and gives the sign. A slot without a guard retires them in order. It says how
// many were gone before the last of these calls.
fn retire_a_wide_value(
    rt: &impl Abort,
    alloc: Global,
    alone: &mut AloneNests<'_>,
    heard: &mut Heard,
) -> Result<usize, Refusal> {
    let s = alone.register(heard)?;
    let inside = leaves(alloc, alone, 4, MANY)?;
    let first = around(alone, 1, inside)?;
    let second = leaf(alloc, alone, 2)?;
    let third = leaf(alloc, alone, 3)?;
    give_sign(alloc)?;
    retire(rt, alone, s, first, heard);
    retire(rt, alone, s, second, heard);
    let before = heard.numbers.len();
    retire(rt, alone, s, third, heard);
    Ok(before)
}

// At size 3 all but the last are gone in the call that retires 3, and that one as all is reclaimed. None asks for memory.
#[test]
fn a_wide_value_goes_in_one_call(rt: HostRuntime) -> Result<(), Fail> {
    let ends = Ends::with_room(rt.alloc(), 0)?;
    let mut heard = Heard::with_room(rt.alloc(), MANY as usize + 3)?;
    let mut alone = alone_nests(rt.alloc(), 3, 0, &ends)?;
    let before = retire_a_wide_value(&rt, rt.alloc(), &mut alone, &mut heard)?;
    assert_eq!(rt; (before, heard.numbers.len() as u64), (0, MANY + 2));
    alone.reclaim_all(&mut heard);
    assert_eq!(rt;
        (ends.many(), heard.numbers.len() as u64),
        (MANY + 3, MANY + 3)
    );
    assert!(rt; count_up(heard.numbers.as_slice()));
    Ok(())
}

// A value that holds blocks of its own type, which its reclaimer doesn't put.
#[derive(Drop)]
struct Tree<'a> {
    // It counts its end.
    _counted: Counted<'a>,
    _below: Option<Owned<Tree<'a>>>,
}

// A block of a tree.
fn make_tree<'a>(
    alone: &mut Alone<Tree<'a>>,
    ends: &'a AtomicU64,
    below: Option<Owned<Tree<'a>>>,
) -> Result<Owned<Tree<'a>>, Refusal>
    ensures made { IfOk result (λ block. owned_store block ≡ alone.old.book.store) }
    ensures same { alone.new ≡ alone.old }
{
    let tree = Tree {
        _counted: Counted { ends },
        _below: below,
    };
    match alone.owned(tree) {
        Ok(block) => Ok(block),
        Err((refusal, _)) => Err(refusal),
    }
}

// A slot with a guard retires a tree three deep, and leaves.
fn retire_three<'a>(
    rt: &impl Abort,
    alone: &mut Alone<Tree<'a>>,
    ends: &'a AtomicU64,
) -> Result<(), Refusal> {
    let s = alone.enter_owned(&mut ())?;
    let third = make_tree(alone, ends, None)?;
    let second = make_tree(alone, ends, Some(third))?;
    let first = make_tree(alone, ends, Some(second))?;
    let taken = alone.taken(first);
    match alone.retire(s, taken, 0, &mut ()) {
        Ok(()) => {}
        Err((_, _taken)) => rt.abort(),
    }
    assert_eq!(rt; ended(ends), 0);
    alone.leave(s, &mut ())
}

// What a value holds ends with it, where its reclaimer doesn't put it.
#[test]
fn blocks_inside_blocks_end_with_them(rt: HostRuntime) -> Result<(), Fail> {
    let ends = AtomicU64::new(0);
    let made: Collector<Tree<'_>> = Collector::new(rt.alloc(), &mut IdSource::new(), 1, 0)?;
    match made.batch_size(1).alone() {
        Ok(mut alone) => retire_three(&rt, &mut alone, &ends)?,
        Err(_) => return Err(Fail::new("the collector came back")),
    }
    assert_eq!(rt; ended(&ends), 3);
    Ok(())
}
