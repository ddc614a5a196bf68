//! Each value that was published ends once.
ghost use Rattle.std.specs.Prelude.{◌<◌, IfOk};
ghost use Rattle.seize.specs.Collectors.{IsPassOf, its_links, its_words};
ghost use Rattle.seize.specs.Guards.{owned_collector};
ghost use Rattle.seize_versions.specs.Versions.{IsForVersions};

use seize::{Collector, IdSource, OwnedGuard, Pass, Refusal};
use seize_test_kit::values::{Counted, ended};
use seize_versions::{ByNumber, NotPublished, Version, Versions};
use std::alloc::Global;
use std::sync::Wait;
use std::sync::atomic::AtomicU64;
use std::test::Fail;

type Counting<'a> = Collector<Version<Counted<'a>>, ByNumber>;

// A collector with one link.
fn collector<'a>(alloc: Global) -> Result<Counting<'a>, Refusal>
    ensures { IfOk result (λ made. 0 < its_links (its_words made)) }
{
    Collector::with_reclaimer(alloc, &mut IdSource::new(), 1, 1, ByNumber)
}

// Publishes three versions, and says how many values ended while the guard was there.
fn publish<'a, W: Wait>(
    rt: &W,
    versions: &Versions<'_, Counted<'a>>,
    guard: &OwnedGuard<'_, Version<Counted<'a>>, ByNumber>,
    ends: &'a AtomicU64,
    pass: &mut Pass,
) -> Result<u64, NotPublished>
    requires of { IsForVersions versions.now (owned_collector guard.now) pass.old }
    ensures pass { IsPassOf (owned_collector guard.now) pass.new }
{
    versions.publish(rt, guard, move |_| Ok(Counted { ends }), 1, pass)?;
    versions.publish(rt, guard, move |_| Ok(Counted { ends }), 1, pass)?;
    versions.publish(rt, guard, move |_| Ok(Counted { ends }), 1, pass)?;
    Ok(ended(ends))
}

fn publish_and_leave<'a, W: Wait>(
    rt: &W,
    versions: &Versions<'_, Counted<'a>>,
    ends: &'a AtomicU64,
) -> Result<Result<u64, NotPublished>, Refusal> {
    let mut pass = versions.collector().pass();
    let guard = versions.collector().enter_owned(rt, &mut pass)?;
    let published = publish(rt, versions, &guard, ends, &mut pass);
    guard.leave(rt, &mut pass);
    Ok(published)
}

// While the guard is there no value ends. The slot is the last in use, so what came out ends as the guard leaves, and what the cell holds
// with the collector.
#[test]
fn each_value_ends_once(rt: HostRuntime) -> Result<(), Fail> {
    let ends = AtomicU64::new(0);
    let collector = collector(rt.alloc())?;
    let versions = Versions::new(&collector);
    let under = publish_and_leave(&rt, &versions, &ends)?;
    assert!(rt; under == Ok(0));
    assert_eq!(rt; ended(&ends), 2);
    drop(collector);
    assert_eq!(rt; ended(&ends), 3);
    Ok(())
}
