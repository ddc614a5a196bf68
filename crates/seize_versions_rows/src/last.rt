//! The last number. A version with the number before it goes into an empty cell by an exchange beside `Versions`, as the rule allows.
ghost use Rattle.std.specs.Prelude.{◌≡◌, ◌<◌, IfOk};
ghost use Rattle.seize.specs.Collectors.{IsPassOf, its_links, its_words};
ghost use Rattle.seize.specs.Guards.{owned_collector};
ghost use Rattle.seize_atomic.specs.Cells.{IsForCell, cells_home};

use seize::{Collector, IdSource, OwnedGuard, Pass, Refusal};
use seize_atomic::Cells;
use seize_versions::{ByNumber, NotPublished, Reader, Version, Versions};
use std::alloc::Global;
use std::convert::Infallible;
use std::sync::Wait;
use std::test::Fail;

// A collector with one link.
fn collector(alloc: Global) -> Result<Collector<Version<u64>, ByNumber>, Refusal>
    ensures { IfOk result (λ made. 0 < its_links (its_words made)) }
{
    Collector::with_reclaimer(alloc, &mut IdSource::new(), 1, 1, ByNumber)
}

// Puts a version with this number into the empty cell 0, and says whether it did.
fn begin_at<W: Wait>(
    rt: &W,
    cells: &Cells<'_, Version<u64>, ByNumber>,
    guard: &OwnedGuard<'_, Version<u64>, ByNumber>,
    number: u64,
    pass: &mut Pass,
) -> Result<bool, Refusal>
    requires of { IsForCell cells.now (owned_collector guard.now) 0 pass.old }
    requires some { 0 < number }
    ensures pass { IsPassOf (owned_collector guard.now) pass.new }
{
    let block = guard
        .owned(Version { number, value: 0 })
        .map_err(|(refusal, _)| refusal)?;
    Ok(cells.replace(rt, guard, 0, None, Some(block), pass).is_ok())
}

// The same, by a guard of its own.
fn begin<W: Wait>(
    rt: &W,
    collector: &Collector<Version<u64>, ByNumber>,
    number: u64,
) -> Result<bool, Refusal>
    requires there { 0 < its_links (its_words collector.now) }
    requires some { 0 < number }
{
    let mut pass = collector.pass();
    let guard = collector.enter_owned(rt, &mut pass)?;
    let cells = Cells::new(collector);
    let begun = begin_at(rt, &cells, &guard, number, &mut pass);
    guard.leave(rt, &mut pass);
    begun
}

fn same(value: Option<&u64>) -> Result<u64, Infallible> {
    Ok(*value.unwrap_or(&0))
}

// Two publications, and the number in the cell then.
fn publish_twice<W: Wait>(
    rt: &W,
    reader: &mut Reader<'_, '_, u64>,
) -> ([Result<u64, NotPublished>; 2], u64) {
    let first = reader.publish(rt, same, 1);
    let second = reader.publish(rt, same, 1);
    reader.read();
    ([first, second], reader.newest())
}

#[test]
fn nothing_comes_after_the_last_number(rt: HostRuntime) -> Result<(), Fail> {
    let collector = collector(rt.alloc())?;
    let begun = begin(&rt, &collector, u64::MAX - 1)?;
    let versions = Versions::new(&collector);
    let mut reader = versions.reader(&rt)?;
    let (published, newest) = publish_twice(&rt, &mut reader);
    reader.leave(&rt);
    assert!(rt; begun);
    assert!(rt; published == [Ok(u64::MAX), Err(NotPublished::LastNumber)]);
    assert_eq!(rt; newest, u64::MAX);
    Ok(())
}
