//! What a caller can pass on of the contracts of look-ups. The clauses here follow from those contracts alone.
ghost use Rattle.std.specs.Prelude.{◌≡◌};
ghost use Rattle.seize_store.specs.RowTokens.{family_in};
ghost use Rattle.seize_store.specs.Named.{row_is, store_by, store_name};

use crate::values::{Numbered, Tallies, Tally};
use seize_store::{Family, Owned, Store, TypedRowToken};
use seize_table::Refusal;
use std::sync::atomic::Ordering;
use std::test::*;

// What two look-ups of one number by a token of its row say of the chunk's number: the same, since both headers have one label.
fn numbers_found(
    store: &Store<Tally, Numbered, u64>,
    number: usize,
    seen: &mut TypedRowToken<Tally, Numbered, u64>,
) -> (usize, usize)
    requires { (store_by seen.old ≡ store_name store.now) × row_is seen.old number }
    ensures token { seen.new ≡ seen.old }
    ensures numbers { result.0 ≡ result.1 }
{
    let one = store.at(number, seen);
    let other = store.at(number, seen);
    (one.header().number, other.header().number)
}

// What look-ups of a block showed: what its chunk's header has once the block's value was added to it by a token, and by none, and the
// numbers that two of them read there.
#[derive(Drop)]
struct Looked {
    owned: Owned<Tally, Numbered, u64>,
    sum: Option<u64>,
    numbers: Option<(usize, usize)>,
}

fn header_after_look_ups(
    store: &Store<Tally, Numbered, u64>,
    owned: &Owned<Tally, Numbered, u64>,
) -> Option<u64> {
    let (found, mut seen) = store.find(owned.number())?;
    let place = store.at(owned.number(), &mut seen);
    for header in [found.header(), place.header()] {
        header.sum.fetch_add(**owned, Ordering::SeqCst);
    }
    Some(place.header().sum.load(Ordering::SeqCst))
}

fn numbers_by_token(store: &Store<Tally, Numbered, u64>, number: usize) -> Option<(usize, usize)> {
    let mut seen = store.seen(number)?;
    Some(numbers_found(store, number, &mut seen))
}

// A block of the value, looked up.
fn added_and_looked_up(store: &Store<Tally, Numbered, u64>, value: u64) -> Result<Looked, Refusal>
    requires { family_in (store_name store.now) ≡ 0 }
{
    match store.add(value, &Tallies) {
        Ok(owned) => {
            let sum = header_after_look_ups(store, &owned);
            let numbers = numbers_by_token(store, owned.number());
            Ok(Looked {
                owned,
                sum,
                numbers,
            })
        }
        Err((refusal, _)) => Err(refusal),
    }
}

#[test]
fn each_look_up_leads_to_the_chunk_of_the_block(rt: HostRuntime) -> Result<(), Fail> {
    let store = Store::new(rt.alloc(), &Family::new(0));
    let mut all = Vec::with_capacity(rt.alloc(), 100)?;
    for value in 1..101u64 {
        let Looked {
            owned,
            sum,
            numbers,
        } = added_and_looked_up(&store, value)?;
        assert_eq!(rt; sum, Some(2 * value));
        assert_eq!(rt; numbers, Some((owned.number(), owned.number())));
        all.push(owned)?;
    }
    Ok(())
}
