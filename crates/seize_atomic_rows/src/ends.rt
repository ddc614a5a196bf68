//! What comes out of a cell is retired, as of the kind that the cells have, and ends once.
ghost use Rattle.std.specs.Prelude.{◌≡◌, ◌<◌};
ghost use Rattle.seize.specs.Collectors.{IsPassOf, its_links, its_words};
ghost use Rattle.seize.specs.Guards.{owned_collector};
ghost use Rattle.seize_atomic.specs.Cells.{cells_home};

use seize::{Collector, IdSource, OwnedGuard, Pass, Refusal};
use seize_atomic::Cells;
use seize_uses::reclaimers::{Counting, Counts, REMOVED, collector};
use std::sync::Wait;
use std::sync::atomic::AtomicU64;
use std::test::Fail;

fn plus_one(value: Option<&u64>) -> Option<u64> {
    value.map(|n| n.wrapping_add(1))
}

// Puts a number, puts another, updates that, and empties the cell as of another kind. It says of each whether something was there, or it
// was made.
fn change<'a, W: Wait>(
    rt: &W,
    cells: &Cells<'_, u64, Counting<'a>>,
    guard: &OwnedGuard<'_, u64, Counting<'a>>,
    pass: &mut Pass,
) -> Result<(bool, bool, bool, bool), Refusal>
    requires of { IsPassOf (owned_collector guard.now) pass.old × (0 < its_links (owned_collector guard.now)) }
    requires cells { owned_collector guard.now ≡ its_words (cells_home cells.now) }
    ensures pass { IsPassOf (owned_collector guard.now) pass.new }
{
    let one = guard.owned(1).map_err(|(refusal, _)| refusal)?;
    let two = guard.owned(2).map_err(|(refusal, _)| refusal)?;
    let first = cells.put(rt, guard, 0, Some(one), pass);
    let second = cells.put(rt, guard, 0, Some(two), pass);
    let updated = cells.update(rt, guard, 0, plus_one, 1, pass).is_ok();
    let emptied = cells.of_kind(REMOVED).put(rt, guard, 0, None, pass);
    Ok((first, second, updated, emptied))
}

// Does so by an owned guard, which leaves then.
fn change_and_leave<W: Wait>(
    rt: &W,
    collector: &Collector<u64, Counting<'_>>,
) -> Result<(bool, bool, bool, bool), Refusal>
    requires { its_links (its_words collector.now) ≡ 1 }
{
    let mut pass = collector.pass();
    let guard = collector.enter_owned(rt, &mut pass)?;
    let done = change(rt, &Cells::new(collector), &guard, &mut pass);
    guard.leave(rt, &mut pass);
    done
}

// In batches of one value, each value ends as its guard leaves. So 1 and 2 end as replaced, and 3 as removed.
#[test]
fn what_comes_out_ends_once(rt: HostRuntime) -> Result<(), Fail> {
    let counts = Counts {
        replaced: AtomicU64::new(0),
        removed: AtomicU64::new(0),
    };
    let collector = collector(rt.alloc(), &mut IdSource::new(), 1, &counts)?.batch_size(1);
    let done = change_and_leave(&rt, &collector)?;
    assert_eq!(rt; done, (false, true, true, true));
    assert_eq!(rt; counts.read(), (2, 1));
    drop(collector);
    assert_eq!(rt; counts.read(), (2, 1));
    Ok(())
}
