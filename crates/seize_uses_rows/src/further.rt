//! Blocks inside blocks: how far one call goes, in which order values end, and that each ends once.
ghost use Rattle.std.specs.Prelude.{◌≡◌, IfOk};
ghost use Rattle.seize.specs.Collectors.{BelongsTo, its_links, its_words};
ghost use Rattle.seize_uses.specs.Nests.{nest_owners};
ghost use base.Stored.{coded_unit};

use seize::{Collector, Guard, IdSource, Owned, Refusal, Watch};
use seize_test_kit::sign::give_sign;
use seize_uses::nest::{Nest, PutInside, around};
use std::alloc::{AllocError, Global};
use std::sync::Wait;
use std::sync::atomic::{AtomicU64, Ordering};
use std::test::Fail;

// How long the chain and how wide the value.
const MANY: u64 = 10_000;

type Nests<'a> = Collector<Nest, PutInside<'a>>;

type Block = Owned<Nest>;

// A collector with one link, and batches of so many values.
fn collector<'a>(alloc: Global, size: usize, by: PutInside<'a>) -> Result<Nests<'a>, Refusal>
    ensures { IfOk result (λ made. its_links (its_words made) ≡ 1) }
{
    Ok(Collector::with_reclaimer(alloc, &mut IdSource::new(), 1, 1, by)?.batch_size(size))
}

// A block with nothing inside.
fn leaf(alloc: Global, collector: &Nests<'_>, number: u64) -> Result<Block, Refusal>
    ensures { IfOk result (BelongsTo nest_owners (its_words collector.now)) }
{
    around(collector, number, Vec::new(alloc))
}

// A block with one block inside.
fn round(alloc: Global, collector: &Nests<'_>, number: u64, block: Block) -> Result<Block, Refusal>
    requires { BelongsTo nest_owners (its_words collector.now) block }
    ensures { IfOk result (BelongsTo nest_owners (its_words collector.now)) }
{
    let mut inside = Vec::new(alloc);
    inside.push(block).map_err(AllocError::from)?;
    around(collector, number, inside)
}

// 1 holds 2, which holds 3, and so on.
fn chain(alloc: Global, collector: &Nests<'_>) -> Result<Block, Refusal>
    ensures { IfOk result (BelongsTo nest_owners (its_words collector.now)) }
{
    let mut block = leaf(alloc, collector, MANY)?;
    for number in (1..MANY).rev() {
        block = round(alloc, collector, number, block)?;
    }
    Ok(block)
}

// So many places for the order in which values end.
fn places(alloc: Global, count: u64) -> Result<Vec<AtomicU64>, AllocError> {
    let mut places = Vec::new(alloc);
    for _ in 0..count {
        places.push(AtomicU64::new(0))?;
    }
    Ok(places)
}

// A registration retires the block, and ends.
fn retire<W: Wait>(rt: &W, collector: &Nests<'_>, block: Block) -> Result<(), Refusal>
    requires { BelongsTo nest_owners (its_words collector.now) block }
{
    let mut pass = collector.pass();
    let registration = collector.register(rt, &mut pass)?;
    let block = collector.unlinked(block);
    registration.retire(rt, &mut pass, block);
    registration.end(rt, &mut pass);
    Ok(())
}

// A registration retires the block, and is forgotten.
fn retire_and_forget<W: Wait>(rt: &W, collector: &Nests<'_>, block: Block) -> Result<(), Refusal>
    requires { BelongsTo nest_owners (its_words collector.now) block }
{
    let mut pass = collector.pass();
    let registration = collector.register(rt, &mut pass)?;
    let block = collector.unlinked(block);
    registration.retire(rt, &mut pass, block);
    registration.forget();
    Ok(())
}

// One registration after another retires a block, and ends, beside a third one, which ends then. It says how many values had ended before
// that.
fn retire_beside<W: Wait>(
    rt: &W,
    collector: &Nests<'_>,
    first: Block,
    second: Block,
    by: PutInside<'_>,
) -> Result<u64, Refusal>
    requires first { BelongsTo nest_owners (its_words collector.now) first }
    requires second { BelongsTo nest_owners (its_words collector.now) second }
{
    let mut pass = collector.pass();
    let registration = collector.register(rt, &mut pass)?;
    let one = retire(rt, collector, first);
    let other = retire(rt, collector, second);
    let before = ended(by);
    registration.end(rt, &mut pass);
    one.and(other)?;
    Ok(before)
}

fn ended(by: PutInside<'_>) -> u64 {
    by.ended.load(Ordering::SeqCst)
}

// As how manieth the value of each number ended.
fn order(by: PutInside<'_>, number: u64) -> u64 {
    match by.order.get(number as usize) {
        Some(place) => place.load(Ordering::SeqCst),
        None => 0,
    }
}

// 1 holds 2 and 3, and 2 holds 4. A slot retires 1, and leaves it; the next one takes it and retires 5, at size 2: 4 alone is left then,
// and ends with the last slot.
#[test]
fn each_value_ends_once_and_in_order(rt: HostRuntime) -> Result<(), Fail> {
    let count = AtomicU64::new(0);
    let places = places(rt.alloc(), 6)?;
    let by = PutInside {
        ended: &count,
        order: places.as_slice(),
    };
    let collector = collector(rt.alloc(), 2, by)?;
    let fourth = leaf(rt.alloc(), &collector, 4)?;
    let second = round(rt.alloc(), &collector, 2, fourth)?;
    let third = leaf(rt.alloc(), &collector, 3)?;
    let mut inside = Vec::new(rt.alloc());
    inside.push(second)?;
    inside.push(third)?;
    let first = around(&collector, 1, inside)?;
    let fifth = leaf(rt.alloc(), &collector, 5)?;
    assert_eq!(rt; retire_beside(&rt, &collector, first, fifth, by)?, 4);
    assert_eq!(rt;
        (order(by, 1), order(by, 5), order(by, 2), order(by, 3)),
        (1, 2, 3, 4)
    );
    assert_eq!(rt; (ended(by), order(by, 4)), (5, 5));
    drop(collector);
    assert_eq!(rt; ended(by), 5);
    Ok(())
}

// A registration gives the sign, retires the block, and ends.
fn retire_after_sign<W: Wait>(
    rt: &W,
    alloc: Global,
    collector: &Nests<'_>,
    block: Block,
) -> Result<(), Refusal>
    requires { BelongsTo nest_owners (its_words collector.now) block }
{
    let mut pass = collector.pass();
    let registration = collector.register(rt, &mut pass)?;
    let block = collector.unlinked(block);
    let given = give_sign(alloc);
    registration.retire(rt, &mut pass, block);
    registration.end(rt, &mut pass);
    given
}

// Where nobody is active, all are gone in the call that retires the first, in their order. It asks for no memory.
#[test]
fn a_long_chain_ends_in_one_call(rt: HostRuntime) -> Result<(), Fail> {
    let count = AtomicU64::new(0);
    let places = places(rt.alloc(), MANY + 1)?;
    let by = PutInside {
        ended: &count,
        order: places.as_slice(),
    };
    let collector = collector(rt.alloc(), 1, by)?;
    let first = chain(rt.alloc(), &collector)?;
    retire_after_sign(&rt, rt.alloc(), &collector, first)?;
    assert_eq!(rt; ended(by), MANY);
    for number in 1..MANY + 1 {
        assert_eq!(rt; order(by, number), number);
    }
    Ok(())
}

// At size 32 the first waits in the batch, and all end as everything is reclaimed.
#[test]
fn a_long_chain_ends_as_all_is_reclaimed(rt: HostRuntime) -> Result<(), Fail> {
    let count = AtomicU64::new(0);
    let by = PutInside {
        ended: &count,
        order: &[],
    };
    let mut collector = collector(rt.alloc(), 32, by)?;
    let first = chain(rt.alloc(), &collector)?;
    retire_and_forget(&rt, &collector, first)?;
    assert_eq!(rt; ended(by), 0);
    assert!(rt; collector.reclaim_all(&mut ()));
    assert_eq!(rt; ended(by), MANY);
    Ok(())
}

// No batch is full, so each of them is an attempt of its own, as the last slot ends.
#[test]
fn a_long_chain_ends_with_the_last_slot(rt: HostRuntime) -> Result<(), Fail> {
    let count = AtomicU64::new(0);
    let by = PutInside {
        ended: &count,
        order: &[],
    };
    let collector = collector(rt.alloc(), 32, by)?;
    let first = chain(rt.alloc(), &collector)?;
    retire(&rt, &collector, first)?;
    assert_eq!(rt; ended(by), MANY);
    Ok(())
}

// Keeps the numbers of the values that it was told of, as the digits of one, in order.
#[derive(Drop)]
struct Digits {
    all: u64,
}

impl Watch<Nest> for Digits {
    ghost Seen = { Unit {0} };

    ghost coded = { coded_unit };

    ghost seen = { λ _. tt };

    ghost told = { λ _ _. tt };

    fn gone(&mut self, value: &Nest) {
        self.all = self.all.wrapping_mul(10).wrapping_add(value.number);
    }
}

// Slot 0's batch holds 1, which holds 2, which holds 3. Slot 1 retired 4 before, and left it as it ended.
fn retire_by_two(rt: &impl Wait, alloc: Global, collector: &Nests<'_>) -> Result<(), Refusal> {
    let fourth = leaf(alloc, collector, 4)?;
    let third = leaf(alloc, collector, 3)?;
    let second = round(alloc, collector, 2, third)?;
    let first = round(alloc, collector, 1, second)?;
    let mut pass = collector.pass();
    let registration = collector.register(rt, &mut pass)?;
    let retired = retire(rt, collector, fourth);
    registration.retire(rt, &mut pass, collector.unlinked(first));
    registration.forget();
    retired
}

// As how manieth 1, 4, 2 and 3 ended.
fn in_turn(by: PutInside<'_>) -> (u64, u64, u64, u64) {
    (order(by, 1), order(by, 4), order(by, 2), order(by, 3))
}

// What waits in batches goes first, slot by slot, then what slots left, and then what was put, in turn: so the watch is told.
#[test]
fn what_is_put_goes_after_all_batches(rt: HostRuntime) -> Result<(), Fail> {
    let count = AtomicU64::new(0);
    let places = places(rt.alloc(), 5)?;
    let by = PutInside {
        ended: &count,
        order: places.as_slice(),
    };
    let mut collector = collector(rt.alloc(), 32, by)?;
    retire_by_two(&rt, rt.alloc(), &collector)?;
    assert_eq!(rt; ended(by), 0);
    let mut digits = Digits { all: 0 };
    assert!(rt; collector.reclaim_all(&mut digits));
    assert_eq!(rt; (digits.all, in_turn(by)), (1423, (1, 2, 3, 4)));
    Ok(())
}

// So it is at the drop.
#[test]
fn what_is_put_goes_after_all_batches_at_the_drop(rt: HostRuntime) -> Result<(), Fail> {
    let count = AtomicU64::new(0);
    let places = places(rt.alloc(), 5)?;
    let by = PutInside {
        ended: &count,
        order: places.as_slice(),
    };
    let collector = collector(rt.alloc(), 32, by)?;
    retire_by_two(&rt, rt.alloc(), &collector)?;
    drop(collector);
    assert_eq!(rt; (ended(by), in_turn(by)), (4, (1, 2, 3, 4)));
    Ok(())
}

// A chain in a link ends with its collector.
#[test]
fn a_linked_chain_ends_with_its_collector(rt: HostRuntime) -> Result<(), Fail> {
    let count = AtomicU64::new(0);
    let by = PutInside {
        ended: &count,
        order: &[],
    };
    let collector = collector(rt.alloc(), 32, by)?;
    link_a_chain(&rt, rt.alloc(), &collector)?;
    assert_eq!(rt; ended(by), 0);
    drop(collector);
    assert_eq!(rt; ended(by), MANY);
    Ok(())
}

fn link_a_chain<W: Wait>(rt: &W, alloc: Global, collector: &Nests<'_>) -> Result<(), Refusal>
    requires { its_links (its_words collector.now) ≡ 1 }
{
    let first = chain(alloc, collector)?;
    let mut pass = collector.pass();
    let guard = collector.enter_owned(rt, &mut pass)?;
    if let Some(old) = guard.swap(0, Some(first), &mut pass) {
        guard.defer_retire(rt, &mut pass, old);
    }
    guard.leave(rt, &mut pass);
    Ok(())
}

// 1 holds 10,000. At size 1 all are gone in the call that retires it, in their order.
#[test]
fn a_wide_value_ends_in_one_call(rt: HostRuntime) -> Result<(), Fail> {
    let count = AtomicU64::new(0);
    let places = places(rt.alloc(), MANY + 2)?;
    let by = PutInside {
        ended: &count,
        order: places.as_slice(),
    };
    let collector = collector(rt.alloc(), 1, by)?;
    let first = wide(rt.alloc(), &collector)?;
    retire(&rt, &collector, first)?;
    assert_eq!(rt; ended(by), MANY + 1);
    for number in 1..MANY + 2 {
        assert_eq!(rt; order(by, number), number);
    }
    Ok(())
}

// 1 holds 2 and the values after it.
fn wide(alloc: Global, collector: &Nests<'_>) -> Result<Block, Refusal>
    ensures { IfOk result (BelongsTo nest_owners (its_words collector.now)) }
{
    let mut inside = Vec::new(alloc);
    for number in 2..MANY + 2 {
        inside
            .push(leaf(alloc, collector, number)?)
            .map_err(AllocError::from)?;
    }
    around(collector, 1, inside)
}
