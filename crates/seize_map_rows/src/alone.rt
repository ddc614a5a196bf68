//! A map in one thread's hands.
ghost use Rattle.std.specs.Prelude.{◌<◌, IfOk};
ghost use Rattle.seize.specs.Collectors.{IsPassOf, its_links, its_words};
ghost use Rattle.seize.specs.Guards.{owned_collector};
ghost use Rattle.seize_map.specs.Maps.{IsForMap};

use seize::{Collector, IdSource, OwnedGuard, Pass, Refusal};
use seize_map::{Bucket, Entry, HashMap, NotChanged};
use std::alloc::Global;
use std::hash::{BuildHasherDefault, DefaultHasher};
use std::sync::{Arc, Wait};
use std::test::Fail;

type Hasher = BuildHasherDefault<DefaultHasher>;

type Map<'c> = HashMap<'c, u64, u64, Hasher>;

type Guard<'c> = OwnedGuard<'c, Bucket<u64, u64>>;

// The value of what came out.
fn value(entry: Option<Arc<Entry<u64, u64>>>) -> Option<u64> {
    entry.map(|entry| entry.value)
}

// What three insertions, two of one key, and three removals give, and what is found between them.
type Told = (
    [Option<u64>; 3],
    [Option<u64>; 3],
    [Option<u64>; 3],
    [Option<u64>; 3],
);

fn found(map: &Map<'_>, guard: &Guard<'_>, pass: &mut Pass) -> [Option<u64>; 3]
    requires of { IsForMap map.now (owned_collector guard.now) pass.old }
    ensures pass { IsPassOf (owned_collector guard.now) pass.new }
{
    let one = map.get(guard, &1, pass).copied();
    let two = map.get(guard, &2, pass).copied();
    let three = map.get(guard, &3, pass).copied();
    [one, two, three]
}

fn tell<W: Wait>(
    rt: &W,
    map: &Map<'_>,
    guard: &Guard<'_>,
    pass: &mut Pass,
) -> Result<Told, NotChanged>
    requires of { IsForMap map.now (owned_collector guard.now) pass.old }
    ensures pass { IsPassOf (owned_collector guard.now) pass.new }
{
    let first = value(map.insert(rt, guard, 1, 10, 1, pass)?);
    let second = value(map.insert(rt, guard, 2, 20, 1, pass)?);
    let third = value(map.insert(rt, guard, 1, 11, 1, pass)?);
    let full = found(map, guard, pass);
    let one = value(map.remove(rt, guard, &1, 1, pass)?);
    let again = value(map.remove(rt, guard, &1, 1, pass)?);
    let three = value(map.remove(rt, guard, &3, 1, pass)?);
    let left = found(map, guard, pass);
    Ok(([first, second, third], full, [one, again, three], left))
}

// A collector with a link, and so many more.
fn collector(alloc: Global, more: usize) -> Result<Collector<Bucket<u64, u64>>, Refusal>
    ensures { IfOk result (λ made. 0 < its_links (its_words made)) }
{
    Collector::new(alloc, &mut IdSource::new(), 1, more.saturating_add(1))
}

// What `tell` gives on a new map with a bucket, and so many more.
fn told<W: Wait>(rt: &W, alloc: Global, more: usize) -> Result<Result<Told, NotChanged>, Refusal> {
    let collector = collector(alloc, more)?;
    let map = HashMap::new(&collector, alloc, BuildHasherDefault::new());
    let mut pass = collector.pass();
    let guard = collector.enter_owned(rt, &mut pass)?;
    let told = tell(rt, &map, &guard, &mut pass);
    guard.leave(rt, &mut pass);
    Ok(told)
}

// What the calls of `tell` are to give.
const EXPECTED: Told = (
    [None, None, Some(10)],
    [Some(11), Some(20), None],
    [Some(11), None, None],
    [None, Some(20), None],
);

// All keys lie in one bucket, or each in one of many.
#[test]
fn an_insertion_gives_what_it_replaced(rt: HostRuntime) -> Result<(), Fail> {
    assert!(rt; told(&rt, rt.alloc(), 0)? == Ok(EXPECTED));
    assert!(rt; told(&rt, rt.alloc(), 63)? == Ok(EXPECTED));
    Ok(())
}

// With no try left nothing goes in.
fn not_tried<W: Wait>(
    rt: &W,
    map: &Map<'_>,
    guard: &Guard<'_>,
    pass: &mut Pass,
) -> (bool, bool, [Option<u64>; 3])
    requires of { IsForMap map.now (owned_collector guard.now) pass.old }
    ensures pass { IsPassOf (owned_collector guard.now) pass.new }
{
    let put = matches!(
        map.insert(rt, guard, 1, 10, 0, pass),
        Err(NotChanged::Contended)
    );
    let taken = matches!(
        map.remove(rt, guard, &1, 0, pass),
        Err(NotChanged::Contended)
    );
    (put, taken, found(map, guard, pass))
}

#[test]
fn no_try_changes_nothing(rt: HostRuntime) -> Result<(), Fail> {
    let collector = collector(rt.alloc(), 0)?;
    let map = HashMap::new(&collector, rt.alloc(), BuildHasherDefault::new());
    let mut pass = collector.pass();
    let guard = collector.enter_owned(&rt, &mut pass)?;
    let told = not_tried(&rt, &map, &guard, &mut pass);
    guard.leave(&rt, &mut pass);
    assert!(rt; told == (true, true, [None, None, None]));
    Ok(())
}

// What two insertions where there may be nothing give, and which of two keys are there then.
type New = ([Option<u64>; 2], [bool; 2], [Option<u64>; 3]);

fn tell_new<W: Wait>(
    rt: &W,
    map: &Map<'_>,
    guard: &Guard<'_>,
    pass: &mut Pass,
) -> Result<New, NotChanged>
    requires of { IsForMap map.now (owned_collector guard.now) pass.old }
    ensures pass { IsPassOf (owned_collector guard.now) pass.new }
{
    let first = value(map.insert_new(rt, guard, 1, 10, 1, pass)?);
    let second = value(map.insert_new(rt, guard, 1, 11, 1, pass)?);
    let one = map.contains_key(guard, &1, pass);
    let two = map.contains_key(guard, &2, pass);
    Ok(([first, second], [one, two], found(map, guard, pass)))
}

#[test]
fn an_insertion_of_a_new_key_leaves_what_is_there(rt: HostRuntime) -> Result<(), Fail> {
    let collector = collector(rt.alloc(), 7)?;
    let map = HashMap::new(&collector, rt.alloc(), BuildHasherDefault::new());
    let mut pass = collector.pass();
    let guard = collector.enter_owned(&rt, &mut pass)?;
    let told = tell_new(&rt, &map, &guard, &mut pass);
    guard.leave(&rt, &mut pass);
    assert!(rt; told == Ok(([None, Some(10)], [true, false], [Some(10), None, None])));
    Ok(())
}

// How many entries a walk over the buckets yields, and the sum of their values.
fn walk(map: &Map<'_>, guard: &Guard<'_>, pass: &mut Pass) -> (u64, u64)
    requires of { IsForMap map.now (owned_collector guard.now) pass.old }
    ensures pass { IsPassOf (owned_collector guard.now) pass.new }
{
    let mut many = 0u64;
    let mut sum = 0u64;
    for i in 0..map.buckets() {
        for entry in map.entries(guard, i, pass) {
            many = many.wrapping_add(1);
            sum = sum.wrapping_add(entry.value);
        }
    }
    (many, sum)
}

fn put_some<W: Wait>(
    rt: &W,
    map: &Map<'_>,
    guard: &Guard<'_>,
    pass: &mut Pass,
) -> Result<(u64, u64), NotChanged>
    requires of { IsForMap map.now (owned_collector guard.now) pass.old }
    ensures pass { IsPassOf (owned_collector guard.now) pass.new }
{
    for key in 0..20 {
        map.insert(rt, guard, key, key, 1, pass)?;
    }
    map.remove(rt, guard, &7, 1, pass)?;
    Ok(walk(map, guard, pass))
}

#[test]
fn a_walk_yields_each_entry(rt: HostRuntime) -> Result<(), Fail> {
    let collector = collector(rt.alloc(), 4)?;
    let map = HashMap::new(&collector, rt.alloc(), BuildHasherDefault::new());
    let mut pass = collector.pass();
    let guard = collector.enter_owned(&rt, &mut pass)?;
    let told = put_some(&rt, &map, &guard, &mut pass);
    guard.leave(&rt, &mut pass);
    assert!(rt; told == Ok((19, 183)));
    Ok(())
}
