//! Blocks in places of a slot's own: they take no memory, also where the store has no free place left. It is run by `tools/memory` too.
ghost use Rattle.std.specs.Prelude.{◌≡◌, ◌<◌, IfOk};
ghost use Rattle.seize.specs.Collectors.{IsPassOf, its_links, its_words};
ghost use Rattle.seize.specs.Guards.{guard_collector};
ghost use Rattle.seize.specs.Registrations.{registered_in};

use crate::memory::{block, put};
use seize::{Collector, Guard, IdSource, LocalGuard, Pass, Refusal, Registration};
use seize_test_kit::sign::give_sign;
use seize_test_kit::values::{Counted, ended};
use std::alloc::Global;
use std::sync::Wait;
use std::sync::atomic::AtomicU64;
use std::test::*;

// How many values a batch has. When they have ended, so many places are the slot's own.
const BATCH: u64 = 32;

// How many blocks another slot makes at most. With no more memory it is refused one before.
const MOST: u64 = 4_096;

// How many values ended: those of the slot of which the test is, and those by which another one uses up the store.
#[derive(Clone, Copy)]
struct Ends<'a> {
    own: &'a AtomicU64,
    spent: &'a AtomicU64,
}

// A collector with one link, and batches of 32 values.
fn collector<'a>(alloc: Global) -> Result<Collector<Counted<'a>>, Refusal>
    ensures { IfOk result (λ made. 0 < its_links (its_words made)) }
{
    Collector::new(alloc, &mut IdSource::new(), 1, 1)
}

// Puts so many values into the link, one after the other, in blocks of the registration's.
fn put_many<'a>(
    rt: &impl Wait,
    registration: &Registration<'_, Counted<'a>>,
    count: u64,
    ends: &'a AtomicU64,
    pass: &mut Pass,
) -> Result<(), Refusal>
    requires of { IsPassOf (registered_in registration.now) pass.old × (0 < its_links (registered_in registration.now)) }
    ensures { IsPassOf (registered_in registration.now) pass.new }
{
    for _ in 0..count {
        let block = block(registration, ends)?;
        put(rt, registration, 0, block, pass)?;
    }
    Ok(())
}

// Puts so many values into the link, in blocks of the guard's.
fn put_under<'a>(
    rt: &impl Wait,
    guard: &LocalGuard<'_, '_, Counted<'a>>,
    count: u64,
    ends: &'a AtomicU64,
    pass: &mut Pass,
) -> Result<(), Refusal>
    requires of { IsPassOf (guard_collector guard.now) pass.old × (0 < its_links (guard_collector guard.now)) }
    ensures { IsPassOf (guard_collector guard.now) pass.new }
{
    for _ in 0..count {
        let block = guard
            .owned(Counted { ends })
            .map_err(|(refusal, _)| refusal)?;
        if let Some(old) = guard.swap(0, Some(block), pass) {
            guard.defer_retire(rt, pass, old);
        }
    }
    Ok(())
}

// The same with a guard of the registration's, that leaves then.
fn put_by_guard<'a>(
    rt: &impl Wait,
    registration: &Registration<'_, Counted<'a>>,
    count: u64,
    ends: &'a AtomicU64,
    pass: &mut Pass,
) -> Result<(), Refusal>
    requires of { IsPassOf (registered_in registration.now) pass.old × (0 < its_links (registered_in registration.now)) }
    ensures { IsPassOf (registered_in registration.now) pass.new }
{
    let guard = registration.enter(pass)?;
    let put = put_under(rt, &guard, count, ends, pass);
    guard.leave(rt, pass);
    put
}

// Makes blocks of the collector's, until it is refused one or has made many, and retires them under the guard. While that stands none of
// them ends. It says how many values it took for that, with the one that was refused a place.
fn use_up<'c, 'a>(
    rt: &impl Wait,
    guard: &LocalGuard<'_, 'c, Counted<'a>>,
    spent: &'a AtomicU64,
    pass: &mut Pass,
) -> u64
    requires { IsPassOf (guard_collector guard.now) pass.old }
    ensures { IsPassOf (guard_collector guard.now) pass.new }
{
    let collector = guard.collector();
    let mut taken: u64 = 0;
    for _ in 0..MOST {
        taken = taken.wrapping_add(1);
        let Ok(block) = collector.owned(Counted { ends: spent }) else {
            break;
        };
        guard.defer_retire(rt, pass, collector.unlinked(block));
    }
    taken
}

// Under a guard of another slot, which uses up the store, puts as many values into the link as there are places of the slot's own, half of
// them in blocks of the registration's, and half in those of its guard. It says how many values the other slot took, how many of its own
// had ended before they were put in, and how many had then.
fn put_beside<'a>(
    rt: &impl Wait,
    own: &Registration<'_, Counted<'a>>,
    other: &LocalGuard<'_, '_, Counted<'a>>,
    ends: Ends<'a>,
    pass: &mut Pass,
) -> Result<(u64, u64, u64), Refusal>
    requires own { IsPassOf (registered_in own.now) pass.old × (0 < its_links (registered_in own.now)) }
    requires other { guard_collector other.now ≡ registered_in own.now }
    ensures { IsPassOf (registered_in own.now) pass.new }
{
    let taken = use_up(rt, other, ends.spent, pass);
    let before = ended(ends.own);
    put_many(rt, own, BATCH / 2, ends.own, pass)?;
    put_by_guard(rt, own, BATCH / 2, ends.own, pass)?;
    Ok((taken, before, ended(ends.own)))
}

// The registration puts in so many values that one batch ends, and the sign is given. Then another one enters, uses up the store, and
// leaves when the first one has put in as many values as it has places.
fn fill<'a>(
    rt: &impl Wait,
    alloc: Global,
    own: &Registration<'_, Counted<'a>>,
    other: &Registration<'_, Counted<'a>>,
    ends: Ends<'a>,
    pass: &mut Pass,
) -> Result<(u64, u64, u64), Refusal>
    requires own { IsPassOf (registered_in own.now) pass.old × (0 < its_links (registered_in own.now)) }
    requires other { registered_in other.now ≡ registered_in own.now }
    ensures { IsPassOf (registered_in own.now) pass.new }
{
    put_many(rt, own, 1 + BATCH, ends.own, pass)?;
    give_sign(alloc)?;
    let guard = other.enter(pass)?;
    let put = put_beside(rt, own, &guard, ends, pass);
    guard.leave(rt, pass);
    put
}

// Two registrations do so.
fn run<'a>(
    rt: &impl Wait,
    alloc: Global,
    collector: &Collector<Counted<'a>>,
    own: &'a AtomicU64,
    spent: &'a AtomicU64,
) -> Result<(u64, u64, u64), Refusal>
    requires { 0 < its_links (its_words collector.now) }
{
    let mut pass = collector.pass();
    let first = collector.register(rt, &mut pass)?;
    let other = match collector.register(rt, &mut pass) {
        Ok(other) => other,
        Err(refusal) => {
            first.end(rt, &mut pass);
            return Err(refusal);
        }
    };
    let put = fill(rt, alloc, &first, &other, Ends { own, spent }, &mut pass);
    first.end(rt, &mut pass);
    other.end(rt, &mut pass);
    put
}

// The values of a batch end, so their places are the slot's own. Another slot takes what the store has free, also the last place where no
// more memory is to be had. The slot makes as many blocks as it has places still, by its registration and by its guard, and none ends
// meanwhile. All end with the collector.
#[test]
fn places_of_a_slot_serve_its_next_blocks(rt: HostRuntime) -> Result<(), Fail> {
    let (own, spent) = (AtomicU64::new(0), AtomicU64::new(0));
    let collector = collector(rt.alloc())?;
    let (taken, before, after) = run(&rt, rt.alloc(), &collector, &own, &spent)?;
    assert_eq!(rt; (before, after), (BATCH, BATCH));
    drop(collector);
    assert_eq!(rt; (ended(&own), ended(&spent)), (1 + 2 * BATCH, taken));
    Ok(())
}
