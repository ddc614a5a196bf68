//! Blocks and their numbers on one thread, and what becomes of their memory.
ghost use Rattle.std.specs.Prelude.{◌≡◌};
ghost use Rattle.seize_store.specs.RowTokens.{family_in};
ghost use Rattle.seize_store.specs.Named.{AreOfStore, owned_value, store_name, title_of};

use crate::node::Node;
use crate::values::{Counted, Numbered, Pairs, Tallies, Tally, Zero, nth};
use seize_store::{
    Bare, Family, Hollow, Labelled, Owned, Place, RowToken, Spots, Store, TypedRowToken,
};
use seize_table::Refusal;
use std::alloc::Global;
use std::mem::size_of;
use std::sync::atomic::{AtomicU64, Ordering};
use std::test::*;

// The refusal alone. The value that came back ends.
fn told<O, T: Drop>(answer: Result<O, (Refusal, T)>) -> Result<O, Refusal> {
    match answer {
        Ok(owned) => Ok(owned),
        Err((refusal, value)) => {
            drop(value);
            Err(refusal)
        }
    }
}

fn added<T: Drop>(store: &Store<u64, (), T>, value: T) -> Result<Owned<u64, (), T>, Refusal>
    requires { family_in (store_name store.now) ≡ 0 }
{
    told(store.add(value, &Zero))
}

#[test]
fn numbers_follow_each_other_and_are_used_again(rt: HostRuntime) -> Result<(), Fail> {
    let store: Store<u64, (), u64> = Store::new(rt.alloc(), &Family::new(0));
    let first = added(&store, 10)?;
    let second = added(&store, 11)?;
    assert_eq!(rt; (first.number(), *first), (0, 10));
    assert_eq!(rt; (second.number(), *second), (64, 11));
    assert_eq!(rt; second.into_inner(), 11);
    let again = added(&store, 12)?;
    assert_eq!(rt; (again.number(), *again), (64, 12));
    Ok(())
}

#[test]
fn two_stores_told_apart_stay_as_they_were(rt: HostRuntime) -> Result<(), Fail> {
    let mut one: Store<u64, (), u64> = Store::new(rt.alloc(), &Family::new(0));
    let mut other: Store<u64, (), u8> = Store::new(rt.alloc(), &Family::new(0));
    let first = added(&one, 10)?;
    let second = added(&other, 11)?;
    one.apart(&mut other);
    assert_eq!(rt; (first.number(), *first), (0, 10));
    assert_eq!(rt; (second.number(), *second), (0, 11));
    assert!(rt; one.seen(0).is_some());
    assert!(rt; other.seen(0).is_some());
    Ok(())
}

// As many blocks as asked for, all of which stand at once.
fn many(
    alloc: Global,
    store: &Store<u64, (), u64>,
    count: usize,
) -> Result<Vec<Owned<u64, (), u64>>, Refusal>
    requires { family_in (store_name store.now) ≡ 0 }
{
    let mut all = Vec::with_capacity(alloc, count)?;
    for number in 0..count {
        if all.push(added(store, number as u64)?).is_err() {
            return Err(Refusal::NoMemory);
        }
    }
    Ok(all)
}

#[test]
fn blocks_that_stand_have_the_first_numbers_row_by_row(rt: HostRuntime) -> Result<(), Fail> {
    let store = Store::new(rt.alloc(), &Family::new(0));
    let all = many(rt.alloc(), &store, 300)?;
    for (rank, owned) in all.iter().enumerate() {
        assert_eq!(rt; (owned.number(), **owned), (nth(rank), rank as u64));
    }
    Ok(())
}

#[test]
fn rows_are_made_one_at_a_time(rt: HostRuntime) -> Result<(), Fail> {
    let store = Store::new(rt.alloc(), &Family::new(0));
    let first = many(rt.alloc(), &store, 32)?;
    assert!(rt; store.seen(1984).is_some() && store.seen(1).is_none());
    let next = added(&store, 32)?;
    assert!(rt; store.seen(1).is_some() && store.seen(4033).is_some());
    assert!(rt;
        store.seen(2).is_none() && store.seen(2048).is_none() && store.seen(4097).is_none()
    );
    assert_eq!(rt; (first.len(), next.number()), (32, 1));
    Ok(())
}

// What the header of the row's last chunk has, by the token that the row's first number gave.
fn last_of_the_first_row(store: &Store<Tally, Numbered, u64>) -> Option<u64> {
    let mut seen = store.seen(0)?;
    Some(
        store
            .at(1984, &mut seen)
            .header()
            .sum
            .load(Ordering::SeqCst),
    )
}

#[test]
fn a_number_leads_to_its_own_chunk(rt: HostRuntime) -> Result<(), Fail> {
    let store: Store<Tally, Numbered, u64> = Store::new(rt.alloc(), &Family::new(0));
    assert!(rt; store.seen(0).is_none());
    let mut all = Vec::with_capacity(rt.alloc(), 200)?;
    for value in 0..200 {
        all.push(told(store.add(value, &Tallies))?)?;
    }
    for owned in all.iter() {
        let mut seen = store.seen(owned.number()).expect(&rt, "a row that is made");
        let place = store.at(owned.number(), &mut seen);
        place.header().sum.fetch_add(**owned, Ordering::SeqCst);
    }
    for owned in all.iter() {
        let found = store.seen(owned.number()).map(|mut seen| {
            store
                .at(owned.number(), &mut seen)
                .header()
                .sum
                .load(Ordering::SeqCst)
        });
        assert_eq!(rt; found, Some(**owned));
    }
    assert_eq!(rt; last_of_the_first_row(&store), Some(31));
    assert!(rt; store.seen(usize::MAX).is_none());
    Ok(())
}

fn list<'a>(
    store: &Store<u64, (), Node<'a>>,
    ends: &'a AtomicU64,
    len: u64,
) -> Result<Option<Owned<u64, (), Node<'a>>>, Refusal>
    requires { family_in (store_name store.now) ≡ 0 }
{
    let mut next = None;
    for name in 0..len {
        let counted = Counted { ends, name };
        next = Some(added(store, Node { counted, next })?);
    }
    Ok(next)
}

#[test]
fn a_list_of_100_000_is_taken_apart_from_its_front(rt: HostRuntime) -> Result<(), Fail> {
    let ends = AtomicU64::new(0);
    let store = Store::new(rt.alloc(), &Family::new(0));
    let mut rest = list(&store, &ends, 100_000)?;
    let mut names = 0u64;
    for _ in 0..100_000u64 {
        let first = rest.expect(&rt, "a list of this length");
        let Node { counted, next } = first.into_inner();
        names = names.saturating_add(counted.name);
        rest = next;
    }
    assert!(rt; rest.is_none());
    assert_eq!(rt; names, 4_999_950_000);
    Ok(())
}

#[test]
fn a_list_dropped_whole_ends_all_its_nodes(rt: HostRuntime) -> Result<(), Fail> {
    let ends = AtomicU64::new(0);
    let store = Store::new(rt.alloc(), &Family::new(0));
    let list = list(&store, &ends, 100)?;
    assert_eq!(rt; ends.load(Ordering::SeqCst), 0);
    drop(list);
    assert_eq!(rt; ends.load(Ordering::SeqCst), 100);
    Ok(())
}

#[test]
fn a_list_outlives_its_store(rt: HostRuntime) -> Result<(), Fail> {
    let ends = AtomicU64::new(0);
    let store = Store::new(rt.alloc(), &Family::new(0));
    let list = list(&store, &ends, 100)?;
    drop(store);
    assert_eq!(rt; ends.load(Ordering::SeqCst), 0);
    assert!(rt; list.is_some_and(|first| first.counted.name == 99));
    assert_eq!(rt; ends.load(Ordering::SeqCst), 100);
    Ok(())
}

fn count(counter: &AtomicU64) -> u64 {
    counter.load(Ordering::SeqCst)
}

#[test]
fn each_header_ends_once_and_with_its_store(rt: HostRuntime) -> Result<(), Fail> {
    let (made, headers, parts) = (AtomicU64::new(0), AtomicU64::new(0), AtomicU64::new(0));
    let maker = Pairs {
        made: &made,
        headers: &headers,
        parts: &parts,
    };
    let store = Store::new(rt.alloc(), &Family::new(0));
    let owned = told(store.add(7u64, &maker))?;
    assert_eq!(rt; (count(&made), count(&headers), count(&parts)), (32, 0, 0));
    // A block that is out keeps the memory of its chunk and the owner's part, and not the header.
    drop(store);
    assert_eq!(rt;
        (count(&made), count(&headers), count(&parts)),
        (32, 32, 31)
    );
    assert_eq!(rt; owned.into_inner(), 7);
    assert_eq!(rt;
        (count(&made), count(&headers), count(&parts)),
        (32, 32, 32)
    );
    Ok(())
}

#[test]
fn each_value_ends_once(rt: HostRuntime) -> Result<(), Fail> {
    let ends = AtomicU64::new(0);
    let store = Store::new(rt.alloc(), &Family::new(0));
    let kept = added(
        &store,
        Counted {
            ends: &ends,
            name: 1,
        },
    )?;
    drop(added(
        &store,
        Counted {
            ends: &ends,
            name: 2,
        },
    )?);
    assert_eq!(rt; ends.load(Ordering::SeqCst), 1);
    let value = added(
        &store,
        Counted {
            ends: &ends,
            name: 3,
        },
    )?
    .into_inner();
    assert_eq!(rt; ends.load(Ordering::SeqCst), 1);
    drop(value);
    drop(store);
    assert_eq!(rt; ends.load(Ordering::SeqCst), 2);
    assert_eq!(rt; kept.name, 1);
    drop(kept);
    assert_eq!(rt; ends.load(Ordering::SeqCst), 3);
    Ok(())
}

// So many blocks that stand at once, and then all of them emptied into the list. The sum of their values.
fn kept(
    store: &Store<u64, (), u64>,
    spots: &mut Spots<u64, (), u64>,
    count: u64,
) -> Result<u64, Refusal>
    requires family { family_in (store_name store.now) ≡ 0 }
    requires spots { AreOfStore spots.old (store_name store.now) }
    ensures { AreOfStore spots.new (store_name store.now) }
{
    if count == 0 {
        return Ok(0);
    }
    match store.add(count, &Zero) {
        Ok(owned) => {
            let sum = kept(store, spots, count - 1)?;
            Ok(owned.empty_into(spots).saturating_add(sum))
        }
        Err((refusal, _)) => Err(refusal),
    }
}

// A block made of a spot of the list and emptied into it again.
fn through(
    store: &Store<u64, (), u64>,
    spots: &mut Spots<u64, (), u64>,
    value: u64,
) -> Result<u64, Refusal>
    requires family { family_in (store_name store.now) ≡ 0 }
    requires spots { AreOfStore spots.old (store_name store.now) }
    ensures { AreOfStore spots.new (store_name store.now) }
{
    match store.add_from(spots, value, &Zero) {
        Ok(owned) => Ok(owned.empty_into(spots)),
        Err((refusal, _)) => Err(refusal),
    }
}

#[test]
fn spots_are_filled_and_kept(rt: HostRuntime) -> Result<(), Fail> {
    let store = Store::new(rt.alloc(), &Family::new(0));
    let mut spots = Spots::new(rt.alloc())?;
    assert_eq!(rt; through(&store, &mut spots, 7)?, 7);
    assert_eq!(rt; through(&store, &mut spots, 8)?, 8);
    assert_eq!(rt; kept(&store, &mut spots, 127)?, 8128);
    assert_eq!(rt; kept(&store, &mut spots, 1)?, 1);
    assert_eq!(rt; through(&store, &mut spots, 9)?, 9);
    Ok(())
}

#[test]
fn a_full_list_gives_64_chunks_back(rt: HostRuntime) -> Result<(), Fail> {
    let store = Store::new(rt.alloc(), &Family::new(0));
    let mut spots = Spots::new(rt.alloc())?;
    // With the 129 for the list, all 224 chunks of three rows are out, so each that is in afterwards was given back.
    let standing = many(rt.alloc(), &store, 95)?;
    assert_eq!(rt; kept(&store, &mut spots, 129)?, 8385);
    assert_eq!(rt; standing.len(), 95);
    let again = many(rt.alloc(), &store, 64)?;
    assert!(rt; again.iter().all(|owned| owned.number() % 64 < 3));
    // All are out once more, so the next block has a number of the fourth row.
    assert_eq!(rt; added(&store, 0)?.number(), 3);
    Ok(())
}

#[test]
fn the_chunks_of_a_list_that_ends_are_in_again(rt: HostRuntime) -> Result<(), Fail> {
    let store = Store::new(rt.alloc(), &Family::new(0));
    let mut spots = Spots::new(rt.alloc())?;
    assert_eq!(rt; kept(&store, &mut spots, 96)?, 4656);
    drop(spots);
    // No two that stand have one number, so these are the numbers of the first two rows again.
    let again = many(rt.alloc(), &store, 96)?;
    assert!(rt; again.iter().all(|owned| owned.number() % 64 < 2));
    Ok(())
}

#[test]
fn a_list_of_spots_outlives_its_store(rt: HostRuntime) -> Result<(), Fail> {
    let store = Store::new(rt.alloc(), &Family::new(0));
    let mut spots = Spots::new(rt.alloc())?;
    assert_eq!(rt; kept(&store, &mut spots, 40)?, 820);
    drop(store);
    drop(spots);
    Ok(())
}

// Puts another value into the block's chunk.
fn set<T: Drop>(owned: &mut Owned<u64, (), T>, value: T)
    ensures value { owned_value owned.new ≡ value }
    ensures title { title_of owned.new ≡ title_of owned.old }
{
    **owned = value;
}

#[test]
fn a_value_is_changed_in_its_chunk(rt: HostRuntime) -> Result<(), Fail> {
    let ends = AtomicU64::new(0);
    let store = Store::new(rt.alloc(), &Family::new(0));
    let first = added(&store, 1u64)?;
    let mut second = added(&store, 2)?;
    *second = 7;
    let twice = second.saturating_mul(2);
    set(&mut second, twice);
    assert_eq!(rt; (first.number(), *first), (0, 1));
    assert_eq!(rt; (second.number(), second.into_inner()), (64, 14));
    let store = Store::new(rt.alloc(), &Family::new(0));
    let mut counted = added(
        &store,
        Counted {
            ends: &ends,
            name: 1,
        },
    )?;
    counted.name = 7;
    assert_eq!(rt; ends.load(Ordering::SeqCst), 0);
    set(
        &mut counted,
        Counted {
            ends: &ends,
            name: 8,
        },
    );
    assert_eq!(rt; (counted.number(), counted.name), (0, 8));
    assert_eq!(rt; ends.load(Ordering::SeqCst), 1);
    drop(counted);
    assert_eq!(rt; ends.load(Ordering::SeqCst), 2);
    Ok(())
}

// A block made and ended. Where that is refused, whether the value came back as it was, and the call made again succeeds.
fn comes_back<'a>(store: &Store<u64, (), Counted<'a>>, ends: &'a AtomicU64, name: u64) -> bool
    requires { family_in (store_name store.now) ≡ 0 }
{
    match store.add(Counted { ends, name }, &Zero) {
        Ok(_) => true,
        Err((refusal, value)) => {
            let same = refusal == Refusal::NoMemory && value.name == name;
            let none = ends.load(Ordering::SeqCst) == name;
            same && none && store.add(value, &Zero).is_ok()
        }
    }
}

fn wrong_rounds<'a>(store: &Store<u64, (), Counted<'a>>, ends: &'a AtomicU64) -> u64
    requires { family_in (store_name store.now) ≡ 0 }
{
    let mut wrong = 0u64;
    for name in 0..100u64 {
        if !comes_back(store, ends, name) || ends.load(Ordering::SeqCst) != name.saturating_add(1) {
            wrong = wrong.saturating_add(1);
        }
    }
    wrong
}

#[test]
fn a_refused_growth_hands_the_value_back(rt: HostRuntime) {
    let ends = AtomicU64::new(0);
    let store = Store::new(rt.alloc(), &Family::new(0));
    assert_eq!(rt; wrong_rounds(&store, &ends), 0);
}

#[test]
fn tokens_have_no_bytes(rt: HostRuntime) {
    assert_eq!(rt; size_of::<RowToken>(), 0);
    assert_eq!(rt; size_of::<TypedRowToken<u64, (), u64>>(), 0);
    assert_eq!(rt; size_of::<Owned<u64, (), [u64; 9]>>(), 16);
    assert_eq!(rt; size_of::<Place<u64, (), u64>>(), 16);
    assert_eq!(rt; size_of::<Hollow<u64, (), [u64; 9]>>(), 16);
}

fn is_sent<T: Send>(value: T) -> T
    ensures { result ≡ value }
{
    value
}

fn is_shared<T: Sync>(value: &T) -> &T
    ensures { result.now ≡ value.now }
{
    value
}

// A store is `Send` as its headers and owners' parts are, and `Sync` where its headers are and these parts are `Send`. Either asks that its
// values be both, since it lends them. A block is as its value and its part are.
fn store_sends<H: Labelled + Drop + Send, P: Labelled + Drop + Send, T: Send + Sync>(
    store: Store<H, P, T>,
) -> Store<H, P, T>
    ensures { store_name result ≡ store_name store }
{
    is_sent(store)
}

fn store_shares<H: Labelled + Drop + Send + Sync, P: Labelled + Drop + Send, T: Send + Sync>(
    store: &Store<H, P, T>,
) -> &Store<H, P, T>
    ensures { store_name result.now ≡ store_name store.now }
{
    is_shared(store)
}

fn block_sends<H, P: Labelled + Drop + Send, T: Drop + Send>(
    owned: Owned<H, P, T>,
) -> Owned<H, P, T> {
    is_sent(owned)
}

fn block_shares<H, P: Labelled + Drop + Sync, T: Drop + Sync>(
    owned: &Owned<H, P, T>,
) -> &Owned<H, P, T> {
    is_shared(owned)
}

fn bare_sends<H, P: Labelled + Drop + Send, T: Drop + Send>(bare: Bare<H, P, T>) -> Bare<H, P, T> {
    is_sent(bare)
}

fn hollow_sends<H, P: Labelled + Drop + Send, T>(hollow: Hollow<H, P, T>) -> Hollow<H, P, T> {
    is_sent(hollow)
}

fn spots_send<H, P: Labelled + Drop + Send, T>(spots: Spots<H, P, T>) -> Spots<H, P, T> {
    is_sent(spots)
}

// The token of a row passes to threads whatever the types are; one that leads to chunks, and a chunk found, as their headers do.
fn known_sends(known: RowToken) -> RowToken {
    is_sent(known)
}

fn known_shares(known: &RowToken) -> &RowToken {
    is_shared(known)
}

fn seen_sends<H: Labelled + Drop + Send + Sync, P: Labelled + Drop + Send, T>(
    seen: TypedRowToken<H, P, T>,
) -> TypedRowToken<H, P, T> {
    is_sent(seen)
}

fn place_sends<'a, H: Sync, P: Labelled + Send, T>(
    place: Place<'a, H, P, T>,
) -> Place<'a, H, P, T> {
    is_sent(place)
}

fn place_shares<'b, 'a, H: Sync, P: Labelled + Send, T>(
    place: &'b Place<'a, H, P, T>,
) -> &'b Place<'a, H, P, T> {
    is_shared(place)
}

#[test]
fn stores_and_blocks_pass_to_threads(rt: HostRuntime) -> Result<(), Fail> {
    let store = store_sends(Store::new(rt.alloc(), &Family::new(0)));
    let owned = block_sends(added(store_shares(&store), 7u64)?);
    let _spots: Spots<u64, (), u64> = spots_send(Spots::new(rt.alloc())?);
    assert_eq!(rt; **block_shares(&owned), 7);
    let found = store
        .find(0)
        .map(|found| (place_sends(found.0), seen_sends(found.1)));
    assert_eq!(rt;
        found.map(|found| *place_shares(&found.0).header()),
        Some(0)
    );
    let known = known_sends(owned.into_parts().1);
    drop(known_shares(&known));
    Ok(())
}
