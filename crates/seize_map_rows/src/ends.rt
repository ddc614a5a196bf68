//! Each value that went into a map ends once.
ghost use Rattle.std.specs.Prelude.{◌<◌, IfOk};
ghost use Rattle.seize.specs.Collectors.{IsPassOf, its_links, its_words};
ghost use Rattle.seize.specs.Guards.{owned_collector};
ghost use Rattle.seize_map.specs.Maps.{IsForMap};

use seize::{Collector, IdSource, OwnedGuard, Pass, Refusal};
use seize_map::{Bucket, HashMap, NotChanged};
use seize_test_kit::values::{Counted, ended};
use std::alloc::Global;
use std::hash::{BuildHasherDefault, DefaultHasher};
use std::sync::Wait;
use std::sync::atomic::AtomicU64;
use std::test::Fail;

type Map<'c, 'a> = HashMap<'c, u64, Counted<'a>, BuildHasherDefault<DefaultHasher>>;

// A collector with four links.
fn collector<'a>(alloc: Global) -> Result<Collector<Bucket<u64, Counted<'a>>>, Refusal>
    ensures { IfOk result (λ made. 0 < its_links (its_words made)) }
{
    Collector::new(alloc, &mut IdSource::new(), 1, 4)
}

// Puts in three values, one in the place of another, and takes one out. It says how many ended while the guard was there.
fn change<'a, W: Wait>(
    rt: &W,
    map: &Map<'_, 'a>,
    guard: &OwnedGuard<'_, Bucket<u64, Counted<'a>>>,
    ends: &'a AtomicU64,
    pass: &mut Pass,
) -> Result<u64, NotChanged>
    requires of { IsForMap map.now (owned_collector guard.now) pass.old }
    ensures pass { IsPassOf (owned_collector guard.now) pass.new }
{
    map.insert(rt, guard, 1, Counted { ends }, 1, pass)?;
    map.insert(rt, guard, 1, Counted { ends }, 1, pass)?;
    map.insert(rt, guard, 2, Counted { ends }, 1, pass)?;
    map.remove(rt, guard, &2, 1, pass)?;
    Ok(ended(ends))
}

fn change_and_leave<'a, W: Wait>(
    rt: &W,
    map: &Map<'_, 'a>,
    ends: &'a AtomicU64,
) -> Result<Result<u64, NotChanged>, Refusal> {
    let mut pass = map.collector().pass();
    let guard = map.collector().enter_owned(rt, &mut pass)?;
    let changed = change(rt, map, &guard, ends, &mut pass);
    guard.leave(rt, &mut pass);
    Ok(changed)
}

// While the guard is there no value ends. The slot is the last in use, so all that was taken out ends as the guard leaves, and what the
// map holds with the collector.
#[test]
fn each_value_ends_once(rt: HostRuntime) -> Result<(), Fail> {
    let ends = AtomicU64::new(0);
    let collector = collector(rt.alloc())?;
    let map = HashMap::new(&collector, rt.alloc(), BuildHasherDefault::new());
    let under = change_and_leave(&rt, &map, &ends)?;
    assert!(rt; under == Ok(0));
    assert_eq!(rt; ended(&ends), 2);
    drop(collector);
    assert_eq!(rt; ended(&ends), 3);
    Ok(())
}
