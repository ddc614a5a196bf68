//! Chunks whose value was taken out before their part is back: the value ends once, where its taker ends it, and the chunk serves again.
ghost use Rattle.std.specs.Prelude.{◌≡◌, IfOk};
ghost use Rattle.seize_store.specs.RowTokens.{family_in};
ghost use Rattle.seize_store.specs.Named.{AreOfStore, hollow_label, is_empty_list, store_name, store_of};
ghost use Rattle.seize_table.specs.Pairs.{pair};

use crate::taken::{hollowed, taken_into};
use crate::values::{Counted, Pairs};
use seize_store::{Family, Owned, Spots, Store};
use seize_table::Refusal;
use std::alloc::Global;
use std::sync::atomic::{AtomicU64, Ordering};
use std::test::*;
use std::thread;
use std::thread::Threads;

type Of<'a> = Store<Counted<'a>, Counted<'a>, Counted<'a>>;

type Block<'a> = Owned<Counted<'a>, Counted<'a>, Counted<'a>>;

/// What counts the ends of headers, parts and values.
#[derive(Drop)]
struct Ends {
    made: AtomicU64,
    headers: AtomicU64,
    parts: AtomicU64,
    values: AtomicU64,
}

impl Ends {
    fn new() -> Ends {
        Ends {
            made: AtomicU64::new(0),
            headers: AtomicU64::new(0),
            parts: AtomicU64::new(0),
            values: AtomicU64::new(0),
        }
    }

    fn maker(&self) -> Pairs<'_> {
        Pairs {
            made: &self.made,
            headers: &self.headers,
            parts: &self.parts,
        }
    }

    // How many headers, parts and values have ended.
    fn told(&self) -> (u64, u64, u64) {
        (
            self.headers.load(Ordering::SeqCst),
            self.parts.load(Ordering::SeqCst),
            self.values.load(Ordering::SeqCst),
        )
    }
}

fn added<'a>(
    store: &Of<'a>,
    maker: &Pairs<'a>,
    ends: &'a Ends,
    name: u64,
) -> Result<Block<'a>, Refusal>
    requires { family_in (store_name store.now) ≡ 0 }
    ensures { IfOk result (λ owned. store_of owned ≡ store_name store.now) }
{
    let value = Counted {
        ends: &ends.values,
        name,
    };
    match store.add(value, maker) {
        Ok(owned) => Ok(owned),
        Err((refusal, _)) => Err(refusal),
    }
}

// A value is taken out, another block is made meanwhile, and a third one once the chunk is in again. The numbers of the three, and what
// has ended when the first value has, and when its chunk is in again.
fn taken_and_used_again(
    alloc: Global,
    ends: &Ends,
) -> Result<((usize, usize, usize), (u64, u64, u64), (u64, u64, u64)), Refusal> {
    let maker = ends.maker();
    let store = Store::new(alloc, &Family::new(0));
    let mut spots = Spots::new(alloc)?;
    let (part, bare) = added(&store, &maker, ends, 7)?.split();
    let number = bare.number();
    let (value, hollow) = bare.take();
    let other = added(&store, &maker, ends, 8)?;
    drop(value);
    let taken = ends.told();
    hollow.put_into(part, &mut spots);
    drop(spots);
    let back = ends.told();
    let again = added(&store, &maker, ends, 9)?;
    Ok(((number, other.number(), again.number()), taken, back))
}

#[test]
fn a_value_ends_with_who_took_it_out(rt: HostRuntime) -> Result<(), Fail> {
    let ends = Ends::new();
    let (numbers, taken, back) = taken_and_used_again(rt.alloc(), &ends)?;
    // While the value is out, its number is nobody else's.
    assert_eq!(rt; numbers, (0, 64, 0));
    assert_eq!(rt; (taken, back), ((0, 0, 1), (0, 0, 1)));
    assert_eq!(rt; ends.told(), (32, 32, 3));
    Ok(())
}

// A store ends while a value is out. What has ended then, and once the chunk is in again, with which the memory of its row goes back and
// its part ends.
fn outlived(alloc: Global, ends: &Ends) -> Result<((u64, u64, u64), (u64, u64, u64)), Refusal> {
    let maker = ends.maker();
    let store = Store::new(alloc, &Family::new(0));
    let mut spots = Spots::new(alloc)?;
    let (part, bare) = added(&store, &maker, ends, 7)?.split();
    let (value, hollow) = hollowed(bare);
    drop(store);
    let out = ends.told();
    hollow.put_into(part, &mut spots);
    drop(spots);
    let back = ends.told();
    drop(value);
    Ok((out, back))
}

#[test]
fn a_chunk_outlives_its_store_without_its_value(rt: HostRuntime) -> Result<(), Fail> {
    let ends = Ends::new();
    assert_eq!(rt; outlived(rt.alloc(), &ends)?, ((32, 31, 0), (32, 32, 0)));
    assert_eq!(rt; ends.told(), (32, 32, 1));
    Ok(())
}

// A value taken out into the list, and the number of the block that is made of its spot.
fn used_again<'a>(
    store: &Of<'a>,
    spots: &mut Spots<Counted<'a>, Counted<'a>, Counted<'a>>,
    maker: &Pairs<'a>,
    ends: &'a Ends,
) -> Result<usize, Refusal>
    requires family { family_in (store_name store.now) ≡ 0 }
    requires spots { AreOfStore spots.old (store_name store.now) }
    ensures { AreOfStore spots.new (store_name store.now) }
{
    let value = taken_into(added(store, maker, ends, 7)?, spots);
    match store.add_from(spots, value, maker) {
        Ok(owned) => Ok(owned.number()),
        Err((refusal, _)) => Err(refusal),
    }
}

// The same, and what has ended once store and list have.
fn by_list(alloc: Global, ends: &Ends) -> Result<(usize, (u64, u64, u64)), Refusal> {
    let maker = ends.maker();
    let store = Store::new(alloc, &Family::new(0));
    let mut spots = Spots::new(alloc)?;
    let used = used_again(&store, &mut spots, &maker, ends)?;
    drop(store);
    drop(spots);
    Ok((used, ends.told()))
}

#[test]
fn a_chunk_stays_claimed_in_a_list(rt: HostRuntime) -> Result<(), Fail> {
    let ends = Ends::new();
    assert_eq!(rt; by_list(rt.alloc(), &ends)?, (0, (32, 32, 1)));
    Ok(())
}

// What is dropped without its part keeps for good the memory of its row alone.
#[test]
fn a_hollow_that_is_dropped_stays_out(rt: HostRuntime) -> Result<(), Fail> {
    let ends = Ends::new();
    let maker = ends.maker();
    let store = Store::new(rt.alloc(), &Family::new(0));
    let (part, bare) = added(&store, &maker, &ends, 7)?.split();
    let (value, hollow) = bare.take();
    drop(hollow);
    assert_eq!(rt; (value.name, ends.told()), (7, (0, 0, 0)));
    drop(value);
    let next = added(&store, &maker, &ends, 8)?;
    assert_eq!(rt; (next.number(), ends.told()), (64, (0, 0, 1)));
    drop(store);
    assert_eq!(rt; ends.told(), (32, 30, 1));
    drop(next);
    drop(part);
    assert_eq!(rt; ends.told(), (32, 32, 2));
    Ok(())
}

// A chunk that goes back on one thread, with a list of its own, while its value ends on another.
fn ended_beside<'a, R: Threads + Sync>(
    rt: &R,
    owned: Block<'a>,
    spots: Spots<Counted<'a>, Counted<'a>, Counted<'a>>,
)
    requires { is_empty_list spots }
{
    let (part, bare) = owned.split();
    let (value, hollow) = bare.take();
    thread::join(
        rt,
        move || -> ()
            requires part { pair 0 part.name ≡ hollow_label hollow }
            requires spots { is_empty_list spots }
        {
            let mut spots = spots;
            hollow.put_into(part, &mut spots);
        },
        move || drop(value),
    );
}

#[test]
fn a_chunk_goes_back_on_any_thread(rt: HostRuntime) -> Result<(), Fail> {
    let ends = Ends::new();
    let maker = ends.maker();
    let store = Store::new(rt.alloc(), &Family::new(0));
    for name in 0..500u64 {
        let owned = added(&store, &maker, &ends, name)?;
        assert_eq!(rt; owned.number(), 0);
        ended_beside(&rt, owned, Spots::new(rt.alloc())?);
    }
    assert_eq!(rt; ends.told(), (0, 0, 500));
    drop(store);
    assert_eq!(rt; ends.told(), (32, 32, 500));
    Ok(())
}
