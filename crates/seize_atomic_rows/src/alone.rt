//! Cells in one thread's hands: what each call finds, answers and gives back, and when values end.
ghost use Rattle.std.specs.Prelude.{◌≡◌, ◌<◌, IfOk};
ghost use Rattle.seize.specs.Collectors.{IsBlockOf, IsPassOf, its_links, its_words};
ghost use Rattle.seize.specs.Guards.{owned_collector};
ghost use Rattle.seize_atomic.specs.Cells.{cells_home};

use seize::{Collector, Failed, IdSource, Owned, OwnedGuard, Pass, Refusal};
use seize_atomic::{Cells, NotAltered};
use std::alloc::Global;
use std::sync::Wait;
use std::test::Fail;

// A collector with one link.
fn collector(alloc: Global) -> Result<Collector<u64>, Refusal>
    ensures { IfOk result (λ made. its_links (its_words made) ≡ 1) }
{
    Collector::new(alloc, &mut IdSource::new(), 1, 1)
}

fn plus_five(value: Option<&u64>) -> Option<u64> {
    value.map(|n| n.wrapping_add(5))
}

fn none(_value: Option<&u64>) -> Option<u64> {
    None
}

// What cell 0 holds.
fn held(cells: &Cells<'_, u64>, guard: &OwnedGuard<'_, u64>, pass: &mut Pass) -> Option<u64>
    requires of { IsPassOf (owned_collector guard.now) pass.old × (0 < its_links (owned_collector guard.now)) }
    requires cells { owned_collector guard.now ≡ its_words (cells_home cells.now) }
    ensures pass { IsPassOf (owned_collector guard.now) pass.new }
{
    cells.read(guard, 0, pass).map(|shared| *shared)
}

// Puts a number into cell 0, and says whether it held any.
fn put<W: Wait>(
    rt: &W,
    cells: &Cells<'_, u64>,
    guard: &OwnedGuard<'_, u64>,
    number: u64,
    pass: &mut Pass,
) -> Result<bool, Refusal>
    requires of { IsPassOf (owned_collector guard.now) pass.old × (0 < its_links (owned_collector guard.now)) }
    requires cells { owned_collector guard.now ≡ its_words (cells_home cells.now) }
    ensures pass { IsPassOf (owned_collector guard.now) pass.new }
{
    let block = guard.owned(number).map_err(|(refusal, _)| refusal)?;
    Ok(cells.put(rt, guard, 0, Some(block), pass))
}

// What a replacement of what is found in cell 0 gives: whether it was won; and what was found and the number that came back, if it wasn't.
type Replaced = (bool, Option<u64>, Option<u64>);

// Reads cell 0, and replaces what was found by one block after the other.
fn replace_twice<W: Wait>(
    rt: &W,
    cells: &Cells<'_, u64>,
    guard: &OwnedGuard<'_, u64>,
    blocks: (Owned<u64>, Owned<u64>),
    pass: &mut Pass,
) -> (Replaced, Replaced)
    requires of { IsPassOf (owned_collector guard.now) pass.old × (0 < its_links (owned_collector guard.now)) }
    requires cells { owned_collector guard.now ≡ its_words (cells_home cells.now) }
    requires blocks { IsBlockOf (owned_collector guard.now) blocks.0 × IsBlockOf (owned_collector guard.now) blocks.1 }
    ensures pass { IsPassOf (owned_collector guard.now) pass.new }
{
    let (one, other) = blocks;
    let found = cells.read(guard, 0, pass);
    let first = told(cells.replace(rt, guard, 0, found.as_ref(), Some(one), pass));
    let second = told(cells.replace(rt, guard, 0, found.as_ref(), Some(other), pass));
    (first, second)
}

fn told(replaced: Result<(), Failed<'_, u64>>) -> Replaced {
    match replaced {
        Ok(()) => (true, None, None),
        Err(failed) => (
            false,
            failed.found.map(|shared| *shared),
            failed.new.map(|owned| *owned),
        ),
    }
}

// What a test of replacements sees: the answer of the first `put`, of both replacements, and what the cell holds in the end.
type Seen = (bool, (Replaced, Replaced), Option<u64>);

fn replacing<W: Wait>(
    rt: &W,
    cells: &Cells<'_, u64>,
    guard: &OwnedGuard<'_, u64>,
    pass: &mut Pass,
) -> Result<Seen, Refusal>
    requires of { IsPassOf (owned_collector guard.now) pass.old × (0 < its_links (owned_collector guard.now)) }
    requires cells { owned_collector guard.now ≡ its_words (cells_home cells.now) }
    ensures pass { IsPassOf (owned_collector guard.now) pass.new }
{
    let was = put(rt, cells, guard, 1, pass)?;
    let one = guard.owned(2).map_err(|(refusal, _)| refusal)?;
    let other = guard.owned(3).map_err(|(refusal, _)| refusal)?;
    let answers = replace_twice(rt, cells, guard, (one, other), pass);
    Ok((was, answers, held(cells, guard, pass)))
}

// One link. 1 is put there, and read. It is replaced by 2, and then by 3: this finds 2, and 3 comes back.
#[test]
fn a_second_replacement_fails(rt: HostRuntime) -> Result<(), Fail> {
    let collector = collector(rt.alloc())?;
    let mut pass = collector.pass();
    let guard = collector.enter_owned(&rt, &mut pass)?;
    let seen = replacing(&rt, &Cells::new(&collector), &guard, &mut pass);
    guard.leave(&rt, &mut pass);
    let (was, (first, second), last) = seen?;
    assert!(rt; !was);
    assert_eq!(rt; first, (true, None, None));
    assert_eq!(rt; second, (false, Some(2), Some(3)));
    assert_eq!(rt; last, Some(2));
    Ok(())
}

// What updates answer one after the other, and what the cell holds after each.
type Updates = [(Result<(), NotAltered>, Option<u64>); 4];

fn updating<W: Wait>(
    rt: &W,
    cells: &Cells<'_, u64>,
    guard: &OwnedGuard<'_, u64>,
    pass: &mut Pass,
) -> Result<Updates, Refusal>
    requires of { IsPassOf (owned_collector guard.now) pass.old × (0 < its_links (owned_collector guard.now)) }
    requires cells { owned_collector guard.now ≡ its_words (cells_home cells.now) }
    ensures pass { IsPassOf (owned_collector guard.now) pass.new }
{
    let empty = cells.update(rt, guard, 0, none, 1, pass);
    let nothing = held(cells, guard, pass);
    put(rt, cells, guard, 2, pass)?;
    let without = cells.update(rt, guard, 0, plus_five, 0, pass);
    let two = held(cells, guard, pass);
    let more = cells.update(rt, guard, 0, plus_five, 1, pass);
    let seven = held(cells, guard, pass);
    let out = cells.update(rt, guard, 0, none, 3, pass);
    let last = held(cells, guard, pass);
    Ok([(empty, nothing), (without, two), (more, seven), (out, last)])
}

// An empty cell that stays so; 2, of which no try makes anything; 7, by one try; and a cell that is emptied.
#[test]
fn updates_answer_what_they_did(rt: HostRuntime) -> Result<(), Fail> {
    let collector = collector(rt.alloc())?;
    let mut pass = collector.pass();
    let guard = collector.enter_owned(&rt, &mut pass)?;
    let seen = updating(&rt, &Cells::new(&collector), &guard, &mut pass);
    guard.leave(&rt, &mut pass);
    let [empty, without, more, out] = seen?;
    assert_eq!(rt; empty, (Ok(()), None));
    assert_eq!(rt; without, (Err(NotAltered::Contended), Some(2)));
    assert_eq!(rt; more, (Ok(()), Some(7)));
    assert_eq!(rt; out, (Ok(()), None));
    Ok(())
}

// An even number comes out, and is the answer; it refuses with an odd one, and where there is none.
fn take_even(value: Option<&u64>) -> Result<(Option<u64>, u64), Option<u64>> {
    match value {
        Some(number) => match number % 2 {
            0 => Ok((None, *number)),
            _ => Err(Some(*number)),
        },
        None => Err(None),
    }
}

// What alterations answer one after the other, and what the cell holds after each.
type Alterations = [(Result<u64, NotAltered<Option<u64>>>, Option<u64>); 3];

fn altering<W: Wait>(
    rt: &W,
    cells: &Cells<'_, u64>,
    guard: &OwnedGuard<'_, u64>,
    pass: &mut Pass,
) -> Result<Alterations, Refusal>
    requires of { IsPassOf (owned_collector guard.now) pass.old × (0 < its_links (owned_collector guard.now)) }
    requires cells { owned_collector guard.now ≡ its_words (cells_home cells.now) }
    ensures pass { IsPassOf (owned_collector guard.now) pass.new }
{
    put(rt, cells, guard, 3, pass)?;
    let odd = cells.alter(rt, guard, 0, take_even, 1, pass);
    let three = held(cells, guard, pass);
    put(rt, cells, guard, 4, pass)?;
    let even = cells.alter(rt, guard, 0, take_even, 1, pass);
    let nothing = held(cells, guard, pass);
    let none = cells.alter(rt, guard, 0, take_even, 1, pass);
    let last = held(cells, guard, pass);
    Ok([(odd, three), (even, nothing), (none, last)])
}

// 3 stays, since the function refuses it; 4 comes out, and is the answer; and an empty cell is refused.
#[test]
fn alterations_answer_and_refuse(rt: HostRuntime) -> Result<(), Fail> {
    let collector = collector(rt.alloc())?;
    let mut pass = collector.pass();
    let guard = collector.enter_owned(&rt, &mut pass)?;
    let seen = altering(&rt, &Cells::new(&collector), &guard, &mut pass);
    guard.leave(&rt, &mut pass);
    let [odd, even, none] = seen?;
    assert_eq!(rt; odd, (Err(NotAltered::Refused(Some(3))), Some(3)));
    assert_eq!(rt; even, (Ok(4), None));
    assert_eq!(rt; none, (Err(NotAltered::Refused(None)), None));
    Ok(())
}
