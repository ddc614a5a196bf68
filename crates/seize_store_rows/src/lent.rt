//! Blocks that are lent: what threads see of one, on which thread it comes back, and what becomes of one that is lost.
ghost use Rattle.std.specs.Prelude.{◌≡◌, IfOk};
ghost use Rattle.seize_content.specs.Loans.{IsLent};
ghost use Rattle.seize_store.specs.RowTokens.{content_in, entry_of, family_in};
ghost use Rattle.seize_store.specs.Named.{IsRowOf, bare_known, bare_number, owned_number, owned_value, store_name, store_of};

use crate::loans::{lent_without_its_part, seen};
use crate::values::{Counted, Numbered, Pairs, Tallies, Tally};
use seize_content::Pool;
use seize_store::{Bare, Family, Owned, RowToken, Store};
use seize_table::Refusal;
use std::sync::atomic::{AtomicU64, Ordering};
use std::test::*;
use std::thread;
use std::thread::Threads;

type Tallied = Store<Tally, Numbered, u64>;

type Block = Owned<Tally, Numbered, u64>;

fn block(store: &Tallied, value: u64) -> Result<Block, Refusal>
    requires { family_in (store_name store.now) ≡ 0 }
    ensures { IfOk result (λ owned. (owned_value owned ≡ value) × (store_of owned ≡ store_name store.now)) }
{
    match store.add(value, &Tallies) {
        Ok(owned) => Ok(owned),
        Err((refusal, _)) => Err(refusal),
    }
}

const TIMES: u64 = 100_000;

// The sum of what is seen of that block so many times, modulo 2^64.
fn see_many(store: &Tallied, number: usize, known: &RowToken, pool: &Pool) -> u64
    requires row { (known.now.store ≡ store_name store.now) × IsRowOf known.now number }
    requires loan { pool.now.name ≡ content_in known.now.chunks (entry_of number) }
{
    let mut sum = 0u64;
    for _ in 0..TIMES {
        sum = sum.wrapping_add(*seen(store, number, known, pool));
    }
    sum
}

// The sums that two threads see of a block that is lent. The first one lends it, and has it back.
fn seen_by_two<R: Threads + Sync>(rt: &R, store: &Tallied, owned: Block) -> ((u64, u64), Block)
    requires { store_of owned ≡ store_name store.now }
    ensures { (owned_value result.1 ≡ owned_value owned) × (owned_number result.1 ≡ owned_number owned) }
{
    let (part, bare) = owned.split();
    let number = bare.number();
    let known = bare.known().again();
    let (ticket, pool) = store.lend(bare);
    let (token, lent) = (&known, &pool);
    let sums = thread::join(
        rt,
        move || -> u64
            requires row { (token.now.store ≡ store_name store.now) × IsRowOf token.now number }
            requires loan { lent.now.name ≡ content_in token.now.chunks (entry_of number) }
        { see_many(store, number, token, lent) },
        move || -> u64
            requires row { (token.now.store ≡ store_name store.now) × IsRowOf token.now number }
            requires loan { lent.now.name ≡ content_in token.now.chunks (entry_of number) }
        { see_many(store, number, token, lent) },
    );
    let bare = store.back(number, &known, ticket, pool);
    (sums, bare.with(part))
}

#[test]
fn two_threads_see_a_block_that_is_lent(rt: HostRuntime) -> Result<(), Fail> {
    let store = Store::new(rt.alloc(), &Family::new(0));
    let first = block(&store, 5)?;
    let (sums, second) = seen_by_two(&rt, &store, block(&store, 3)?);
    assert_eq!(rt; sums, (300_000, 300_000));
    assert_eq!(rt; (second.number(), *second, *first), (64, 3, 5));
    Ok(())
}

// A block that is lent on one thread and had back on another.
fn had_back_elsewhere<R: Threads + Sync>(rt: &R, store: &Tallied, owned: Block) -> Block
    requires { store_of owned ≡ store_name store.now }
    ensures { owned_number result ≡ owned_number owned }
{
    let (part, bare) = owned.split();
    let number = bare.number();
    let known = bare.known().again();
    let token = &known;
    let (ticket, pool) = store.lend(bare);
    let (bare, _) = thread::join(
        rt,
        move || -> Bare<Tally, Numbered, u64>
            requires row { (token.now.store ≡ store_name store.now) × IsRowOf token.now number }
            requires loan { IsLent ticket pool × (ticket.name ≡ content_in token.now.chunks (entry_of number)) }
            ensures { (bare_number result ≡ number) × (bare_known result ≡ token.entry.now) }
        { store.back(number, token, ticket, pool) },
        || (),
    );
    bare.with(part)
}

#[test]
fn a_block_comes_back_on_any_thread(rt: HostRuntime) -> Result<(), Fail> {
    let store = Store::new(rt.alloc(), &Family::new(0));
    let _first = block(&store, 5)?;
    let second = had_back_elsewhere(&rt, &store, block(&store, 6)?);
    assert_eq!(rt; (second.number(), second.into_inner()), (64, 6));
    Ok(())
}

// A block that came back is changed in hand, and lent again; and its chunk serves for the next block.
fn lent_twice(store: &Tallied, owned: Block, value: u64) -> Block
    requires { store_of owned ≡ store_name store.now }
    ensures { (owned_value result ≡ value) × (owned_number result ≡ owned_number owned) }
{
    let mut owned = lent_without_its_part(store, owned);
    *owned = value;
    lent_without_its_part(store, owned)
}

#[test]
fn a_chunk_is_lent_time_and_again(rt: HostRuntime) -> Result<(), Fail> {
    let store = Store::new(rt.alloc(), &Family::new(0));
    for value in 0..100u64 {
        let owned = lent_twice(&store, block(&store, value)?, value + 1);
        assert_eq!(rt; (owned.number(), owned.into_inner()), (0, value + 1));
    }
    Ok(())
}

fn count(counter: &AtomicU64) -> u64 {
    counter.load(Ordering::SeqCst)
}

// What is lent when its store ends is lost, with the memory of its row. All else ends once.
#[test]
fn a_block_is_lost_with_its_store(rt: HostRuntime) -> Result<(), Fail> {
    let (made, headers, parts) = (AtomicU64::new(0), AtomicU64::new(0), AtomicU64::new(0));
    let ends = AtomicU64::new(0);
    let maker = Pairs {
        made: &made,
        headers: &headers,
        parts: &parts,
    };
    let store = Store::new(rt.alloc(), &Family::new(0));
    let value = Counted {
        ends: &ends,
        name: 7,
    };
    let owned = match store.add(value, &maker) {
        Ok(owned) => owned,
        Err((refusal, _)) => return Err(refusal.into()),
    };
    let (part, bare) = owned.split();
    let (ticket, pool) = store.lend(bare);
    assert_eq!(rt; (count(&made), count(&headers), count(&parts)), (32, 0, 0));
    drop(store);
    drop((ticket, pool));
    assert_eq!(rt; (count(&ends), count(&headers), count(&parts)), (0, 32, 31));
    drop(part);
    assert_eq!(rt; (count(&ends), count(&parts)), (0, 32));
    Ok(())
}
