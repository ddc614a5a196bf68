//! Owners' parts: each is made once, goes with whoever has its chunk, and ends once.
ghost use Rattle.std.specs.Prelude.{◌≡◌};
ghost use Rattle.seize_store.specs.RowTokens.{family_in};
ghost use Rattle.seize_store.specs.Named.{AreOfStore, owned_label, owned_value, store_name, title_of};
ghost use Rattle.seize_table.specs.Pairs.{pair};

use crate::values::{Counted, Numbered, Pairs, Tally, nth};
use seize_store::{Family, Labelled, Maker, Owned, Spots, Store};
use seize_table::Refusal;
use std::alloc::Global;
use std::sync::atomic::{AtomicU64, Ordering};
use std::test::*;
use std::thread;
use std::thread::Threads;

// The refusal alone. The value that came back ends.
fn told<O, T: Drop>(answer: Result<O, (Refusal, T)>) -> Result<O, Refusal> {
    match answer {
        Ok(owned) => Ok(owned),
        Err((refusal, value)) => {
            drop(value);
            Err(refusal)
        }
    }
}

// The part taken out and put back: the block is the same.
fn put_back<H, P: Labelled + Drop, T: Drop>(owned: Owned<H, P, T>) -> Owned<H, P, T>
    ensures { (owned_value result ≡ owned_value owned) × (title_of result ≡ title_of owned) }
{
    let (part, bare) = owned.split();
    bare.with(part)
}

// The number that the block's header is labelled with, as its part says it, and the block as it was.
fn number_in_part<H>(owned: Owned<H, Numbered, u64>) -> (usize, Owned<H, Numbered, u64>)
    ensures number { pair 0 result.0 ≡ owned_label owned }
    ensures same { (owned_value result.1 ≡ owned_value owned) × (title_of result.1 ≡ title_of owned) }
{
    let (part, bare) = owned.split();
    (part.number, bare.with(part))
}

/// Makes headers and parts that know their chunk's number.
#[derive(Drop)]
struct Numbers;

impl Maker<Numbered, Numbered> for Numbers {
    ghost family = { λ _. 0 };

    #[tactic(auto, using(seize_table::proofs::Pairs::left_pair))]
    fn make(&self, number: usize) -> (Numbered, Numbered) {
        (Numbered { number }, Numbered { number })
    }
}

#[test]
fn a_part_goes_with_its_block(rt: HostRuntime) -> Result<(), Fail> {
    let store = Store::new(rt.alloc(), &Family::new(0));
    let mut all = Vec::with_capacity(rt.alloc(), 100)?;
    for value in 0..100u64 {
        let (number, owned) = number_in_part(put_back(told(store.add(value, &Numbers))?));
        assert_eq!(rt; number, owned.number());
        all.push(owned)?;
    }
    for (rank, owned) in all.iter().enumerate() {
        assert_eq!(rt; (owned.number(), **owned), (nth(rank), rank as u64));
    }
    Ok(())
}

#[test]
fn a_bare_block_has_its_number(rt: HostRuntime) -> Result<(), Fail> {
    let store = Store::new(rt.alloc(), &Family::new(0));
    let first = told(store.add(7u64, &Numbers))?;
    let second = told(store.add(8u64, &Numbers))?;
    let (part, bare) = second.split();
    assert_eq!(rt; (part.number, bare.number()), (64, 64));
    let second = bare.with(part);
    assert_eq!(rt; (first.number(), second.number()), (0, 64));
    assert_eq!(rt; (first.into_inner(), second.into_inner()), (7, 8));
    Ok(())
}

fn count(counter: &AtomicU64) -> u64 {
    counter.load(Ordering::SeqCst)
}

type Paired<'a> = Store<Counted<'a>, Counted<'a>, u64>;

#[test]
fn each_part_ends_once(rt: HostRuntime) -> Result<(), Fail> {
    let (made, headers, parts) = (AtomicU64::new(0), AtomicU64::new(0), AtomicU64::new(0));
    let maker = Pairs {
        made: &made,
        headers: &headers,
        parts: &parts,
    };
    let store: Paired<'_> = Store::new(rt.alloc(), &Family::new(0));
    let first = told(store.add(1, &maker))?;
    drop(told(store.add(2, &maker))?);
    assert_eq!(rt; told(store.add(3, &maker))?.into_inner(), 3);
    let (part, bare) = first.split();
    assert_eq!(rt; (part.name, bare.number()), (0, 0));
    let first = bare.with(part);
    assert_eq!(rt; (count(&made), count(&headers), count(&parts)), (32, 0, 0));
    // The closer ends the parts that are in, the last owner the one that is out.
    drop(store);
    assert_eq!(rt;
        (count(&made), count(&headers), count(&parts)),
        (32, 32, 31)
    );
    let first = put_back(first);
    assert_eq!(rt; (*first, count(&parts)), (1, 31));
    drop(first);
    assert_eq!(rt;
        (count(&made), count(&headers), count(&parts)),
        (32, 32, 32)
    );
    Ok(())
}

fn forty<'a>(
    alloc: Global,
    store: &Paired<'a>,
    maker: &Pairs<'a>,
) -> Option<Vec<Owned<Counted<'a>, Counted<'a>, u64>>>
    requires { family_in (store_name store.now) ≡ 0 }
{
    let mut all = Vec::with_capacity(alloc, 40).ok()?;
    for value in 0..40 {
        all.push(store.add(value, maker).ok()?).ok()?;
    }
    Some(all)
}

#[test]
fn parts_of_blocks_that_end_first_end_with_their_store(rt: HostRuntime) -> Result<(), Fail> {
    let (made, headers, parts) = (AtomicU64::new(0), AtomicU64::new(0), AtomicU64::new(0));
    let maker = Pairs {
        made: &made,
        headers: &headers,
        parts: &parts,
    };
    let store = Store::new(rt.alloc(), &Family::new(0));
    let all = forty(rt.alloc(), &store, &maker).ok_or(Refusal::NoMemory)?;
    assert_eq!(rt; (count(&made), count(&parts)), (96, 0));
    drop(all);
    assert_eq!(rt; (count(&headers), count(&parts)), (0, 0));
    drop(store);
    assert_eq!(rt; (count(&headers), count(&parts)), (96, 96));
    Ok(())
}

// What a block without its part keeps for good is the memory of its row alone.
#[test]
fn a_chunk_without_its_part_stays_out(rt: HostRuntime) -> Result<(), Fail> {
    let (made, headers, parts) = (AtomicU64::new(0), AtomicU64::new(0), AtomicU64::new(0));
    let ends = AtomicU64::new(0);
    let maker = Pairs {
        made: &made,
        headers: &headers,
        parts: &parts,
    };
    let store = Store::new(rt.alloc(), &Family::new(0));
    let value = Counted {
        ends: &ends,
        name: 7,
    };
    let (part, bare) = told(store.add(value, &maker))?.split();
    drop(bare);
    assert_eq!(rt; (count(&ends), count(&parts)), (1, 0));
    let value = Counted {
        ends: &ends,
        name: 8,
    };
    let next = told(store.add(value, &maker))?;
    assert_eq!(rt; next.number(), 64);
    drop(store);
    assert_eq!(rt; (part.name, count(&headers), count(&parts)), (0, 32, 30));
    drop(next);
    drop(part);
    assert_eq!(rt; (count(&ends), count(&parts)), (2, 32));
    Ok(())
}

/// A part that counts how often its chunk was used, and tells it when it ends.
struct Uses<'a> {
    number: usize,
    count: u64,
    sum: &'a AtomicU64,
    ends: &'a AtomicU64,
}

impl Labelled for Uses<'_> {
    ghost label = { λ uses. pair 0 uses.number };
}

impl Drop for Uses<'_> {
    fn drop(self) {
        let Uses {
            number: _,
            count,
            sum,
            ends,
        } = self;
        sum.fetch_add(count, Ordering::SeqCst);
        ends.fetch_add(1, Ordering::SeqCst);
    }
}

/// Makes such parts, and counts them.
#[derive(Drop)]
struct Users<'a> {
    made: &'a AtomicU64,
    sum: &'a AtomicU64,
    ends: &'a AtomicU64,
}

impl<'a> Maker<Tally, Uses<'a>> for Users<'a> {
    ghost family = { λ _. 0 };

    #[tactic(auto, using(seize_table::proofs::Pairs::left_pair))]
    fn make(&self, number: usize) -> (Tally, Uses<'a>) {
        self.made.fetch_add(1, Ordering::SeqCst);
        let sum = AtomicU64::new(0);
        let uses = Uses {
            number,
            count: 0,
            sum: self.sum,
            ends: self.ends,
        };
        (Tally { number, sum }, uses)
    }
}

// What such parts, and those who make them, count in.
#[derive(Drop)]
struct Counters {
    made: AtomicU64,
    sum: AtomicU64,
    ends: AtomicU64,
}

impl Counters {
    fn new() -> Counters {
        Counters {
            made: AtomicU64::new(0),
            sum: AtomicU64::new(0),
            ends: AtomicU64::new(0),
        }
    }

    fn maker(&self) -> Users<'_> {
        Users {
            made: &self.made,
            sum: &self.sum,
            ends: &self.ends,
        }
    }
}

type Used<'a> = Store<Tally, Uses<'a>, u64>;

type Use<'a> = Owned<Tally, Uses<'a>, u64>;

// Counts a use of the block's chunk in its part, without an atomic step.
fn used<'a>(owned: Use<'a>) -> Use<'a>
    ensures { (owned_value result ≡ owned_value owned.entry) × (title_of result ≡ title_of owned.entry) }
{
    let (mut part, bare) = owned.split();
    part.count = part.count.saturating_add(1);
    bare.with(part)
}

const EACH: u64 = 20_000;

// So many blocks made, used and ended. How many were wrong.
fn round<'a>(store: &Used<'a>, maker: &Users<'a>) -> Result<u64, Refusal>
    requires { family_in (store_name store.now) ≡ 0 }
{
    let mut wrong = 0u64;
    for value in 0..EACH {
        let owned = told(store.add(value, maker))?;
        if used(owned).into_inner() != value {
            wrong = wrong.saturating_add(1);
        }
    }
    Ok(wrong)
}

// The same with a list of spots, which keep their parts.
fn round_by_list<'a>(
    store: &Used<'a>,
    spots: &mut Spots<Tally, Uses<'a>, u64>,
    maker: &Users<'a>,
) -> Result<u64, Refusal>
    requires family { family_in (store_name store.now) ≡ 0 }
    requires spots { AreOfStore spots.old (store_name store.now) }
    ensures { AreOfStore spots.new (store_name store.now) }
{
    let mut wrong = 0u64;
    for value in 0..EACH {
        match store.add_from(spots, value, maker) {
            Ok(owned) => {
                if used(owned).empty_into(spots) != value {
                    wrong = wrong.saturating_add(1);
                }
            }
            Err((refusal, _)) => return Err(refusal),
        }
    }
    Ok(wrong)
}

fn two<'a, R: Threads + Sync>(rt: &R, store: &Used<'a>, maker: &Users<'a>) -> Result<u64, Refusal>
    requires { family_in (store_name store.now) ≡ 0 }
{
    let (one, other) = thread::join(
        rt,
        || -> Result<u64, Refusal>
            requires { family_in (store_name store.now) ≡ 0 }
        { round(store, maker) },
        || -> Result<u64, Refusal>
            requires { family_in (store_name store.now) ≡ 0 }
        { round(store, maker) },
    );
    Ok(one?.saturating_add(other?))
}

#[test]
fn two_threads_lose_no_use_of_a_part(rt: HostRuntime) -> Result<(), Fail> {
    let users = Counters::new();
    let maker = users.maker();
    let store = Store::new(rt.alloc(), &Family::new(0));
    assert_eq!(rt; two(&rt, &store, &maker)?, 0);
    drop(store);
    assert_eq!(rt;
        (count(&users.sum), count(&users.ends)),
        (2 * EACH, count(&users.made))
    );
    Ok(())
}

// What the counters of parts made and ended, and of their uses, say once a list outlived its store, and once it has ended too.
fn counted_by_list(alloc: Global, users: &Counters) -> Result<(u64, u64, u64), Refusal> {
    let maker = users.maker();
    let store = Store::new(alloc, &Family::new(0));
    let mut spots = Spots::new(alloc)?;
    let wrong = round_by_list(&store, &mut spots, &maker)?;
    drop(store);
    let ends = count(&users.ends);
    drop(spots);
    Ok((wrong, ends, count(&users.ends)))
}

#[test]
fn spots_keep_their_parts(rt: HostRuntime) -> Result<(), Fail> {
    let users = Counters::new();
    assert_eq!(rt; counted_by_list(rt.alloc(), &users)?, (0, 31, 32));
    assert_eq!(rt; (count(&users.made), count(&users.sum)), (32, EACH));
    Ok(())
}

// Stores that end on one thread while another ends their blocks.
fn ended_beside<'a, R: Threads + Sync>(
    rt: &R,
    store: Used<'a>,
    maker: &Users<'a>,
) -> Result<(), Refusal>
    requires { family_in (store_name store) ≡ 0 }
{
    let one = used(told(store.add(1, maker))?);
    let other = used(told(store.add(2, maker))?);
    let end = move || {
        drop(one);
        drop(other);
    };
    thread::join(rt, move || drop(store), end);
    Ok(())
}

#[test]
fn parts_end_once_whoever_comes_second(rt: HostRuntime) -> Result<(), Fail> {
    let users = Counters::new();
    let maker = users.maker();
    for _ in 0..500u64 {
        ended_beside(&rt, Store::new(rt.alloc(), &Family::new(0)), &maker)?;
    }
    let told = (count(&users.made), count(&users.sum), count(&users.ends));
    assert_eq!(rt; told, (16_000, 1000, 16_000));
    Ok(())
}
