//! Threads that put in keys, of which neighbours have half in common: no insertion is lost.
ghost use Rattle.std.specs.Prelude.{◌<◌, IfOk};
ghost use Rattle.seize.specs.Collectors.{IsPassOf, its_links, its_words};
ghost use Rattle.seize.specs.Guards.{guard_collector, owned_collector};
ghost use Rattle.seize.specs.Registrations.{registered_in};
ghost use Rattle.seize_map.specs.Maps.{IsForMap};

use seize::{Collector, IdSource, LocalGuard, OwnedGuard, Pass, Refusal, Registration};
use seize_map::{Bucket, HashMap};
use std::alloc::Global;
use std::hash::{BuildHasherDefault, DefaultHasher};
use std::sync::Wait;
use std::test::Fail;
use std::thread;
use std::thread::Threads;

type Map<'c> = HashMap<'c, u64, u64, BuildHasherDefault<DefaultHasher>>;

// How many keys a thread puts in.
const MANY: u64 = 200;

// More than the exchanges of the three others.
const TRIES: u32 = 2_000;

// A collector with eight links.
fn collector(alloc: Global) -> Result<Collector<Bucket<u64, u64>>, Refusal>
    ensures { IfOk result (λ made. 0 < its_links (its_words made)) }
{
    Collector::new(alloc, &mut IdSource::new(), 4, 8)
}

// Puts in the keys from `first` on, each with itself as its value. It says how many went in where there was none.
fn put<W: Wait>(
    rt: &W,
    map: &Map<'_>,
    guard: &LocalGuard<'_, '_, Bucket<u64, u64>>,
    first: u64,
    pass: &mut Pass,
) -> u64
    requires of { IsForMap map.now (guard_collector guard.now) pass.old }
    ensures pass { IsPassOf (guard_collector guard.now) pass.new }
{
    let mut new = 0u64;
    for n in 0..MANY {
        let key = first.wrapping_add(n);
        if let Ok(None) = map.insert(rt, guard, key, key, TRIES, pass) {
            new = new.saturating_add(1);
        }
    }
    new
}

fn put_under<W: Wait>(
    rt: &W,
    registration: &Registration<'_, Bucket<u64, u64>>,
    map: &Map<'_>,
    first: u64,
    pass: &mut Pass,
) -> Result<u64, Refusal>
    requires of { IsForMap map.now (registered_in registration.now) pass.old }
    ensures pass { IsPassOf (registered_in registration.now) pass.new }
{
    let guard = registration.enter(pass)?;
    let new = put(rt, map, &guard, first, pass);
    guard.leave(rt, pass);
    Ok(new)
}

// One thread's insertions, by a registration of its own.
fn work<W: Wait>(rt: &W, map: &Map<'_>, first: u64) -> Result<u64, Refusal> {
    let collector = map.collector();
    let mut pass = collector.pass();
    let registration = collector.register(rt, &mut pass)?;
    let new = put_under(rt, &registration, map, first, &mut pass);
    registration.end(rt, &mut pass);
    new
}

// Two threads, of which the second begins where the first one's keys are half over.
fn two<R: Threads + Wait + Sync>(rt: &R, map: &Map<'_>, first: u64) -> Result<u64, Refusal> {
    let second = first.wrapping_add(MANY / 2);
    let (one, other) = thread::join(
        rt,
        move || work(rt, map, first),
        move || work(rt, map, second),
    );
    Ok(one?.saturating_add(other?))
}

fn four<R: Threads + Wait + Sync>(rt: &R, map: &Map<'_>) -> Result<u64, Refusal> {
    let (one, other) = thread::join(rt, move || two(rt, map, 0), move || two(rt, map, MANY));
    Ok(one?.saturating_add(other?))
}

// How many of the first keys have themselves as their values.
fn right(map: &Map<'_>, guard: &OwnedGuard<'_, Bucket<u64, u64>>, keys: u64, pass: &mut Pass) -> u64
    requires of { IsForMap map.now (owned_collector guard.now) pass.old }
    ensures pass { IsPassOf (owned_collector guard.now) pass.new }
{
    let mut right = 0u64;
    for key in 0..keys {
        if map.get(guard, &key, pass).copied() == Some(key) {
            right = right.saturating_add(1);
        }
    }
    right
}

// Four threads put in 200 keys each, of which neighbours have 100 in common, into eight buckets. 500 keys are new once each.
#[test]
fn no_insertion_is_lost(rt: HostRuntime) -> Result<(), Fail> {
    let collector = collector(rt.alloc())?;
    let map = HashMap::new(&collector, rt.alloc(), BuildHasherDefault::new());
    let new = four(&rt, &map);
    let mut pass = collector.pass();
    let guard = collector.enter_owned(&rt, &mut pass)?;
    let right = right(&map, &guard, 600, &mut pass);
    guard.leave(&rt, &mut pass);
    assert_eq!(rt; new?, 500);
    assert_eq!(rt; right, 500);
    Ok(())
}
