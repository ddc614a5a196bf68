//! Threads that update one cell: no update is lost.
ghost use Rattle.std.specs.Prelude.{◌≡◌, ◌<◌, IfOk};
ghost use Rattle.seize.specs.Collectors.{IsPassOf, its_links, its_words};
ghost use Rattle.seize.specs.Guards.{guard_collector, owned_collector};
ghost use Rattle.seize.specs.Registrations.{registered_home, registered_in};
ghost use Rattle.seize_atomic.specs.Cells.{cells_home};

use seize::{Collector, IdSource, LocalGuard, OwnedGuard, Pass, Refusal, Registration};
use seize_atomic::Cells;
use std::alloc::Global;
use std::sync::Wait;
use std::test::Fail;
use std::thread;
use std::thread::Threads;

// How many updates a thread makes.
const MANY: u64 = 100;

// One more than the exchanges of the three others.
const TRIES: u32 = 301;

fn collector(alloc: Global) -> Result<Collector<u64>, Refusal>
    ensures { IfOk result (λ made. its_links (its_words made) ≡ 1) }
{
    Collector::new(alloc, &mut IdSource::new(), 1, 1)
}

fn plus_one(value: Option<&u64>) -> Option<u64> {
    value.map(|n| n.wrapping_add(1))
}

// How many of the updates were made.
fn count<W: Wait>(
    rt: &W,
    cells: &Cells<'_, u64>,
    guard: &LocalGuard<'_, '_, u64>,
    pass: &mut Pass,
) -> u64
    requires of { IsPassOf (guard_collector guard.now) pass.old × (0 < its_links (guard_collector guard.now)) }
    requires cells { guard_collector guard.now ≡ its_words (cells_home cells.now) }
    ensures pass { IsPassOf (guard_collector guard.now) pass.new }
{
    let mut made = 0u64;
    for _ in 0..MANY {
        if cells.update(rt, guard, 0, plus_one, TRIES, pass).is_ok() {
            made = made.saturating_add(1);
        }
    }
    made
}

fn count_under<W: Wait>(
    rt: &W,
    registration: &Registration<'_, u64>,
    cells: &Cells<'_, u64>,
    pass: &mut Pass,
) -> Result<u64, Refusal>
    requires of { IsPassOf (registered_in registration.now) pass.old × (0 < its_links (registered_in registration.now)) }
    requires cells { registered_in registration.now ≡ its_words (cells_home cells.now) }
    ensures pass { IsPassOf (registered_in registration.now) pass.new }
{
    let guard = registration.enter(pass)?;
    let made = count(rt, cells, &guard, pass);
    guard.leave(rt, pass);
    Ok(made)
}

// One thread's updates, by a registration of its own; none where there is no cell.
fn work<W: Wait>(rt: &W, collector: &Collector<u64>) -> Result<u64, Refusal> {
    let cells = Cells::new(collector);
    if cells.len() == 0 {
        return Ok(0);
    }
    let mut pass = collector.pass();
    let registration = collector.register(rt, &mut pass)?;
    let made = count_under(rt, &registration, &cells, &mut pass);
    registration.end(rt, &mut pass);
    made
}

fn two<R: Threads + Wait + Sync>(rt: &R, collector: &Collector<u64>) -> Result<u64, Refusal> {
    let (one, other) = thread::join(rt, move || work(rt, collector), move || work(rt, collector));
    Ok(one?.saturating_add(other?))
}

fn four<R: Threads + Wait + Sync>(rt: &R, collector: &Collector<u64>) -> Result<u64, Refusal> {
    let (one, other) = thread::join(rt, move || two(rt, collector), move || two(rt, collector));
    Ok(one?.saturating_add(other?))
}

// Puts 0 into the cell.
fn begin<W: Wait>(
    rt: &W,
    collector: &Collector<u64>,
    guard: &OwnedGuard<'_, u64>,
    pass: &mut Pass,
) -> Result<(), Refusal>
    requires of { IsPassOf (owned_collector guard.now) pass.old × (0 < its_links (owned_collector guard.now)) }
    requires collector { owned_collector guard.now ≡ its_words collector.now }
    ensures pass { IsPassOf (owned_collector guard.now) pass.new }
{
    let zero = guard.owned(0).map_err(|(refusal, _)| refusal)?;
    Cells::new(collector).put(rt, guard, 0, Some(zero), pass);
    Ok(())
}

fn last(collector: &Collector<u64>, guard: &OwnedGuard<'_, u64>, pass: &mut Pass) -> Option<u64>
    requires of { IsPassOf (owned_collector guard.now) pass.old × (0 < its_links (owned_collector guard.now)) }
    requires collector { owned_collector guard.now ≡ its_words collector.now }
    ensures pass { IsPassOf (owned_collector guard.now) pass.new }
{
    Cells::new(collector)
        .read(guard, 0, pass)
        .map(|shared| *shared)
}

// Four threads add 1 to the number in the cell, a hundred times each. Each update is made, since the others win 300 exchanges in all.
#[test]
fn no_update_is_lost(rt: HostRuntime) -> Result<(), Fail> {
    let collector = collector(rt.alloc())?;
    let mut pass = collector.pass();
    let guard = collector.enter_owned(&rt, &mut pass)?;
    let begun = begin(&rt, &collector, &guard, &mut pass);
    let made = four(&rt, &collector);
    let number = last(&collector, &guard, &mut pass);
    guard.leave(&rt, &mut pass);
    begun?;
    assert_eq!(rt; made?, 400);
    assert_eq!(rt; number, Some(400));
    Ok(())
}
