//! Changes that are made again where memory was refused: the second time each serves as if there had been no first one. The gate refuses
//! one request after another, by `tools/lacking`.
ghost use Rattle.std.specs.Prelude.{◌≡◌, ◌<◌, IfOk};
ghost use Rattle.seize.specs.Collectors.{IsPassOf, its_links, its_words};
ghost use Rattle.seize.specs.Guards.{owned_collector};
ghost use Rattle.seize_map.specs.Maps.{IsForMap};

use seize::{Collector, IdSource, OwnedGuard, Pass, Refusal};
use seize_map::{Bucket, Entry, HashMap};
use std::alloc::Global;
use std::hash::{BuildHasherDefault, DefaultHasher};
use std::process::Abort;
use std::sync::{Arc, Wait};
use std::test::Fail;

type Map<'c> = HashMap<'c, u64, u64, BuildHasherDefault<DefaultHasher>>;

type Guard<'c> = OwnedGuard<'c, Bucket<u64, u64>>;

// A collector with one link.
fn one_link(alloc: Global) -> Result<Collector<Bucket<u64, u64>>, Refusal>
    ensures { IfOk result (λ made. 0 < its_links (its_words made)) }
{
    Collector::new(alloc, &mut IdSource::new(), 1, 1)
}

fn collector(alloc: Global) -> Result<Collector<Bucket<u64, u64>>, Refusal>
    ensures { IfOk result (λ made. 0 < its_links (its_words made)) }
{
    match one_link(alloc) {
        Ok(collector) => Ok(collector),
        Err(_) => one_link(alloc),
    }
}

// A guard with a slot of its own.
fn enter_owned<'c>(
    rt: &(impl Wait + Abort),
    collector: &'c Collector<Bucket<u64, u64>>,
    pass: &mut Pass,
) -> Guard<'c>
    requires { IsPassOf (its_words collector.now) pass.old }
    ensures { IsPassOf (its_words collector.now) pass.new × (owned_collector result ≡ its_words collector.now) }
{
    match collector.enter_owned(rt, pass) {
        Ok(guard) => guard,
        Err(_) => collector.enter_owned(rt, pass).expect(rt, "memory"),
    }
}

// The value of what came out.
fn value(entry: Option<Arc<Entry<u64, u64>>>) -> Option<u64> {
    entry.map(|entry| entry.value)
}

fn insert(
    rt: &(impl Wait + Abort),
    map: &Map<'_>,
    guard: &Guard<'_>,
    number: u64,
    pass: &mut Pass,
) -> Option<u64>
    requires of { IsForMap map.now (owned_collector guard.now) pass.old }
    ensures pass { IsPassOf (owned_collector guard.now) pass.new }
{
    match map.insert(rt, guard, 1, number, 1, pass) {
        Ok(was) => value(was),
        Err(_) => value(
            map.insert(rt, guard, 1, number, 1, pass)
                .ok()
                .expect(rt, "memory"),
        ),
    }
}

fn remove(
    rt: &(impl Wait + Abort),
    map: &Map<'_>,
    guard: &Guard<'_>,
    pass: &mut Pass,
) -> Option<u64>
    requires of { IsForMap map.now (owned_collector guard.now) pass.old }
    ensures pass { IsPassOf (owned_collector guard.now) pass.new }
{
    match map.remove(rt, guard, &1, 1, pass) {
        Ok(was) => value(was),
        Err(_) => value(map.remove(rt, guard, &1, 1, pass).ok().expect(rt, "memory")),
    }
}

// What two insertions, a look-up, and two removals find.
fn change(
    rt: &(impl Wait + Abort),
    map: &Map<'_>,
    guard: &Guard<'_>,
    pass: &mut Pass,
) -> [Option<u64>; 5]
    requires of { IsForMap map.now (owned_collector guard.now) pass.old }
    ensures pass { IsPassOf (owned_collector guard.now) pass.new }
{
    let first = insert(rt, map, guard, 10, pass);
    let second = insert(rt, map, guard, 11, pass);
    let there = map.get(guard, &1, pass).copied();
    let taken = remove(rt, map, guard, pass);
    let gone = remove(rt, map, guard, pass);
    [first, second, there, taken, gone]
}

#[test]
fn refused_changes_serve_when_made_again(rt: HostRuntime) -> Result<(), Fail> {
    let collector = collector(rt.alloc())?;
    let map = HashMap::new(&collector, rt.alloc(), BuildHasherDefault::new());
    let mut pass = collector.pass();
    let guard = enter_owned(&rt, &collector, &mut pass);
    let told = change(&rt, &map, &guard, &mut pass);
    guard.leave(&rt, &mut pass);
    assert_eq!(rt; told, [None, Some(10), Some(11), Some(11), None]);
    Ok(())
}
