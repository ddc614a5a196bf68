//! Blocks from several threads.
ghost use Rattle.std.specs.Prelude.{◌≡◌};
ghost use Rattle.seize_store.specs.RowTokens.{family_in};
ghost use Rattle.seize_store.specs.Named.{store_name};

use crate::values::{Counted, Numbered, Tallies, Tally, Zero, nth};
use seize_store::{Family, Owned, Store};
use seize_table::Refusal;
use std::alloc::Global;
use std::sync::atomic::{AtomicU64, Ordering};
use std::sync::{Mutex, Wait};
use std::test::*;
use std::thread::Threads;
use std::{mem, thread};

const EACH: u64 = 50_000;

// Where threads hand blocks over. What comes out is counted, and its names are summed.
#[derive(Drop)]
struct Hands<'a> {
    last: Mutex<Option<Owned<u64, (), Counted<'a>>>>,
    count: AtomicU64,
    names: AtomicU64,
}

// Leaves this block, or none, and ends the one that was left before.
fn hand_over<'a, R: Wait>(rt: &R, hands: &Hands<'a>, next: Option<Owned<u64, (), Counted<'a>>>) {
    let before = mem::replace(&mut *hands.last.lock(rt), next);
    if let Some(owned) = before {
        hands.count.fetch_add(1, Ordering::SeqCst);
        hands.names.fetch_add(owned.name, Ordering::SeqCst);
    }
}

// A block of the value. Where its memory is refused, the call is made again with the value that came back.
fn made<'a>(
    store: &Store<u64, (), Counted<'a>>,
    value: Counted<'a>,
) -> Option<Owned<u64, (), Counted<'a>>>
    requires { family_in (store_name store.now) ≡ 0 }
{
    match store.add(value, &Zero) {
        Ok(owned) => Some(owned),
        Err((_, value)) => store.add(value, &Zero).ok(),
    }
}

// Makes and ends so many blocks. Every tenth is handed over, to whoever hands over next. How many were not what was put in.
fn churn<'a, R: Wait>(
    rt: &R,
    store: &Store<u64, (), Counted<'a>>,
    ends: &'a AtomicU64,
    hands: &Hands<'a>,
    from: u64,
) -> u64
    requires { family_in (store_name store.now) ≡ 0 }
{
    let mut wrong = 0u64;
    for name in from..from.saturating_add(EACH) {
        let Some(owned) = made(store, Counted { ends, name }) else {
            return wrong.saturating_add(1);
        };
        if owned.name != name {
            wrong = wrong.saturating_add(1);
        }
        if name % 10 == 0 {
            hand_over(rt, hands, Some(owned));
        }
    }
    wrong
}

// Two threads, with names from here on and from a million later on.
fn two<'a, R: Threads + Wait + Sync>(
    rt: &R,
    store: &Store<u64, (), Counted<'a>>,
    ends: &'a AtomicU64,
    hands: &Hands<'a>,
    from: u64,
) -> u64
    requires { family_in (store_name store.now) ≡ 0 }
{
    let next = from.saturating_add(1_000_000);
    let (one, other) = thread::join(
        rt,
        || -> u64
            requires { family_in (store_name store.now) ≡ 0 }
        { churn(rt, store, ends, hands, from) },
        || -> u64
            requires { family_in (store_name store.now) ≡ 0 }
        { churn(rt, store, ends, hands, next) },
    );
    one.saturating_add(other)
}

fn four<'a, R: Threads + Wait + Sync>(
    rt: &R,
    store: &Store<u64, (), Counted<'a>>,
    ends: &'a AtomicU64,
    hands: &Hands<'a>,
) -> u64
    requires { family_in (store_name store.now) ≡ 0 }
{
    let (one, other) = thread::join(
        rt,
        || -> u64
            requires { family_in (store_name store.now) ≡ 0 }
        { two(rt, store, ends, hands, 0) },
        || -> u64
            requires { family_in (store_name store.now) ≡ 0 }
        { two(rt, store, ends, hands, 2_000_000) },
    );
    one.saturating_add(other)
}

#[test]
fn four_threads_hold_no_chunk_twice(rt: HostRuntime) {
    let ends = AtomicU64::new(0);
    let store = Store::new(rt.alloc(), &Family::new(0));
    let hands = Hands {
        last: Mutex::new(None),
        count: AtomicU64::new(0),
        names: AtomicU64::new(0),
    };
    assert_eq!(rt; four(&rt, &store, &ends, &hands), 0);
    drop(store);
    hand_over(&rt, &hands, None);
    assert_eq!(rt; ends.load(Ordering::SeqCst), 4 * EACH);
    // 5,000 of each thread: 0, 10, .. 49,990 from its first name on.
    assert_eq!(rt; hands.count.load(Ordering::SeqCst), 20_000);
    assert_eq!(rt; hands.names.load(Ordering::SeqCst), 30_499_900_000);
}

const STORES: u64 = 500;

// So many blocks of a store.
fn hundred<'a>(
    alloc: Global,
    store: &Store<u64, (), Counted<'a>>,
    ends: &'a AtomicU64,
) -> Option<Vec<Owned<u64, (), Counted<'a>>>>
    requires { family_in (store_name store.now) ≡ 0 }
{
    let mut all = Vec::with_capacity(alloc, 100).ok()?;
    for name in 0..100 {
        all.push(made(store, Counted { ends, name })?).ok()?;
    }
    Some(all)
}

// Stores that end on one thread while another ends their blocks.
fn ended_beside<'a, R: Threads + Sync>(
    rt: &R,
    alloc: Global,
    ends: &'a AtomicU64,
) -> Result<(), Refusal> {
    for _ in 0..STORES {
        let store = Store::new(alloc, &Family::new(0));
        let all = hundred(alloc, &store, ends).ok_or(Refusal::NoMemory)?;
        thread::join(rt, move || drop(store), move || drop(all));
    }
    Ok(())
}

#[test]
fn stores_end_beside_their_blocks(rt: HostRuntime) -> Result<(), Fail> {
    let ends = AtomicU64::new(0);
    ended_beside(&rt, rt.alloc(), &ends)?;
    assert_eq!(rt; ends.load(Ordering::SeqCst), 100 * STORES);
    Ok(())
}

const ROUND: usize = 1000;

// So many blocks, which all stand, and the last row in which one lies.
fn taken(alloc: Global, store: &Store<u64, (), u64>) -> (Option<Vec<Owned<u64, (), u64>>>, usize)
    requires { family_in (store_name store.now) ≡ 0 }
{
    let mut last = 0;
    let Ok(mut all) = Vec::with_capacity(alloc, ROUND) else {
        return (None, 0);
    };
    for value in 0..ROUND {
        let Ok(owned) = store.add(value as u64, &Zero) else {
            return (None, 0);
        };
        last = last.max(owned.number() % 64);
        if all.push(owned).is_err() {
            return (None, 0);
        }
    }
    (Some(all), last)
}

// 1,000 rounds, in each of which one thread takes a thousand blocks and another gives those of the round before. The last row in
// which a block lies, in the first tenth and in all.
fn rounds<R: Threads + Sync>(rt: &R, alloc: Global, store: &Store<u64, (), u64>) -> (usize, usize)
    requires { family_in (store_name store.now) ≡ 0 }
{
    let mut given = None;
    let (mut early, mut late) = (0, 0);
    for round in 0..1000u64 {
        let (made, _) = thread::join(
            rt,
            || -> (Option<Vec<Owned<u64, (), u64>>>, usize)
                requires { family_in (store_name store.now) ≡ 0 }
            { taken(alloc, store) },
            move || drop(given),
        );
        let (all, last) = made;
        given = all;
        late = last.max(late);
        if round < 100 {
            early = late;
        }
    }
    (early, late)
}

#[test]
fn a_store_stops_growing(rt: HostRuntime) {
    let store = Store::new(rt.alloc(), &Family::new(0));
    let (early, late) = rounds(&rt, rt.alloc(), &store);
    // A thousand blocks stand at once, and five rows have 992 chunks. At most 2,000 stand, and one thread alone claims, so a chunk that is
    // in stays in until that thread comes to it: six rows, which have 2,016 chunks, are enough.
    assert!(rt; early == 5 && late == 5, "{early} and {late}");
}

// How many of the first 200 numbers lead to no header with that number. Each header that is found counts it.
fn wrongly_labelled(store: &Store<Tally, Numbered, u64>) -> u64 {
    let mut wrong = 0u64;
    for rank in 0..200 {
        let number = nth(rank);
        let right = store.find(number).is_some_and(|found| {
            let header = found.0.header();
            header.sum.fetch_add(1, Ordering::SeqCst);
            header.number == number
        });
        if !right {
            wrong = wrong.saturating_add(1);
        }
    }
    wrong
}

fn tallied(
    alloc: Global,
    store: &Store<Tally, Numbered, u64>,
) -> Option<Vec<Owned<Tally, Numbered, u64>>>
    requires { family_in (store_name store.now) ≡ 0 }
{
    let mut all = Vec::with_capacity(alloc, 200).ok()?;
    for value in 0..200 {
        all.push(store.add(value, &Tallies).ok()?).ok()?;
    }
    Some(all)
}

#[test]
fn two_threads_find_each_number_at_its_label(rt: HostRuntime) -> Result<(), Fail> {
    let store = Store::new(rt.alloc(), &Family::new(0));
    let all = tallied(rt.alloc(), &store).ok_or(Refusal::NoMemory)?;
    let wrong = thread::join(
        &rt,
        || wrongly_labelled(&store),
        || wrongly_labelled(&store),
    );
    assert_eq!(rt; wrong, (0, 0));
    for owned in all.iter() {
        let counted = store
            .find(owned.number())
            .map(|found| found.0.header().sum.load(Ordering::SeqCst));
        assert_eq!(rt; counted, Some(2));
    }
    Ok(())
}
