//! Links with a rule: versions that grow, and a mark that stays. And a number that one guard found and another takes out.
ghost use Rattle.std.specs.Prelude.{◌≡◌, ◌<◌};
ghost use Rattle.seize.specs.Collectors.{IsPassOf, its_links};
ghost use Rattle.seize.specs.Guards.{guard_collector, owned_collector};
ghost use Rattle.seize.specs.Registrations.{registered_in};

use seize::{Collector, Guard, IdSource, LocalGuard, OwnedGuard, Pass, Refusal, Registration};
use seize_uses::moved::{Place, Staying, find, mark, put};
use seize_uses::replacing::take_found;
use seize_uses::versions::{Growing, Version, advance, newest, read_twice};
use std::sync::Wait;
use std::test::Fail;

// A version's number, or 0 where there is none.
fn number(version: Option<Version>) -> u64 {
    match version {
        Some(version) => version.number,
        None => 0,
    }
}

// Two guards of one registration: the first has found version 3 before the second enters.
fn grown(
    registration: &Registration<'_, Version, Growing>,
    rt: &impl Wait,
    pass: &mut Pass,
) -> Result<([bool; 4], [u64; 4]), Refusal>
    requires { IsPassOf (registered_in registration.now) pass.old × (0 < its_links (registered_in registration.now)) }
    ensures { IsPassOf (registered_in registration.now) pass.new }
{
    let first = registration.enter(pass)?;
    let begin = number(newest(&first, 0, pass));
    let three = advance(&first, 0, Version { number: 3 }, rt, pass);
    let found = number(newest(&first, 0, pass));
    let second = match registration.enter(pass) {
        Ok(second) => second,
        Err(refusal) => {
            first.leave(rt, pass);
            return Err(refusal);
        }
    };
    let five = advance(&second, 0, Version { number: 5 }, rt, pass);
    let four = advance(&first, 0, Version { number: 4 }, rt, pass);
    let again = advance(&first, 0, Version { number: 5 }, rt, pass);
    let (one, other) = read_twice(&first, &second, 0, pass);
    first.leave(rt, pass);
    second.leave(rt, pass);
    Ok((
        [three?, five?, four?, again?],
        [begin, found, number(one), number(other)],
    ))
}

#[test]
fn a_version_grows(rt: HostRuntime) -> Result<(), Fail> {
    let mut ids = IdSource::new();
    let collector: Collector<Version, Growing> = Collector::with_reclaimer(
        rt.alloc(),
        &mut ids,
        1,
        1,
        Growing,
    )?;
    let mut pass = collector.pass();
    let registration = collector.register(&rt, &mut pass)?;
    let grown = grown(&registration, &rt, &mut pass);
    registration.end(&rt, &mut pass);
    assert_eq!(rt; grown?, ([true, true, false, true], [0, 3, 5, 5]));
    Ok(())
}

// Puts 7 into link 0, and moves it to link 1; there it becomes 8. What is found in turn, and which numbers were put.
fn moved(
    guard: &LocalGuard<'_, '_, Place, Staying>,
    rt: &impl Wait,
    pass: &mut Pass,
) -> Result<([bool; 4], [Option<u64>; 4]), Refusal>
    requires { IsPassOf (guard_collector guard.now) pass.old × (1 < its_links (guard_collector guard.now)) }
    ensures { IsPassOf (guard_collector guard.now) pass.new }
{
    let none = find(guard, 0, 1, pass);
    let seven = put(guard, 0, 7, rt, pass)?;
    let here = find(guard, 0, 1, pass);
    let copied = put(guard, 1, 7, rt, pass)?;
    mark(guard, 0, rt, pass)?;
    let there = find(guard, 0, 1, pass);
    let nine = put(guard, 0, 9, rt, pass)?;
    let eight = put(guard, 1, 8, rt, pass)?;
    let last = find(guard, 0, 1, pass);
    Ok(([seven, copied, nine, eight], [none, here, there, last]))
}

fn moved_under_a_guard(
    registration: &Registration<'_, Place, Staying>,
    rt: &impl Wait,
    pass: &mut Pass,
) -> Result<([bool; 4], [Option<u64>; 4]), Refusal>
    requires { IsPassOf (registered_in registration.now) pass.old × (1 < its_links (registered_in registration.now)) }
    ensures { IsPassOf (registered_in registration.now) pass.new }
{
    let guard = registration.enter(pass)?;
    let found = moved(&guard, rt, pass);
    guard.leave(rt, pass);
    found
}

#[test]
fn a_number_moves_to_another_link(rt: HostRuntime) -> Result<(), Fail> {
    let mut ids = IdSource::new();
    let collector: Collector<Place, Staying> = Collector::with_reclaimer(
        rt.alloc(),
        &mut ids,
        1,
        2,
        Staying,
    )?;
    let mut pass = collector.pass();
    let registration = collector.register(&rt, &mut pass)?;
    let found = moved_under_a_guard(&registration, &rt, &mut pass);
    registration.end(&rt, &mut pass);
    assert_eq!(rt;
        found?,
        ([true, true, false, true], [None, Some(7), Some(7), Some(8)])
    );
    Ok(())
}

// Takes out what the finder finds, if it can, and retires it.
fn taken(
    finder: &OwnedGuard<'_, u64>,
    taker: &OwnedGuard<'_, u64>,
    rt: &impl Wait,
    seen: &mut Pass,
    pass: &mut Pass,
) -> Option<u64>
    requires finder { IsPassOf (owned_collector finder.now) seen.old × (0 < its_links (owned_collector finder.now)) }
    requires taker { IsPassOf (owned_collector taker.now) pass.old × (owned_collector taker.now ≡ owned_collector finder.now) }
    ensures { IsPassOf (owned_collector finder.now) seen.new × IsPassOf (owned_collector taker.now) pass.new }
{
    let (number, out) = take_found(finder, taker, seen, pass)?;
    taker.defer_retire(rt, pass, out);
    Some(number)
}

// One guard finds 7, by a pass of its own, and the other takes it out. Then the link is empty.
fn found_and_taken(
    finder: &OwnedGuard<'_, u64>,
    taker: &OwnedGuard<'_, u64>,
    rt: &impl Wait,
    seen: &mut Pass,
    pass: &mut Pass,
) -> Result<[Option<u64>; 2], Refusal>
    requires finder { IsPassOf (owned_collector finder.now) seen.old × (0 < its_links (owned_collector finder.now)) }
    requires taker { IsPassOf (owned_collector taker.now) pass.old × (owned_collector taker.now ≡ owned_collector finder.now) }
    ensures { IsPassOf (owned_collector finder.now) seen.new × IsPassOf (owned_collector taker.now) pass.new }
{
    let block = taker.owned(7).map_err(|(refusal, _)| refusal)?;
    if let Some(old) = taker.swap(0, Some(block), pass) {
        taker.defer_retire(rt, pass, old);
    }
    let one = taken(finder, taker, rt, seen, pass);
    let other = taken(finder, taker, rt, seen, pass);
    Ok([one, other])
}

#[test]
fn one_guard_finds_and_another_takes(rt: HostRuntime) -> Result<(), Fail> {
    let mut ids = IdSource::new();
    let collector: Collector<u64> = Collector::new(rt.alloc(), &mut ids, 1, 1)?;
    let mut seen = collector.pass();
    let mut pass = collector.pass();
    let finder = collector.enter_owned(&rt, &mut seen)?;
    let taker = match collector.enter_owned(&rt, &mut pass) {
        Ok(taker) => taker,
        Err(refusal) => {
            finder.leave(&rt, &mut seen);
            return Err(refusal.into());
        }
    };
    let found = found_and_taken(&finder, &taker, &rt, &mut seen, &mut pass);
    finder.leave(&rt, &mut seen);
    taker.leave(&rt, &mut pass);
    assert_eq!(rt; found?, [Some(7), None]);
    Ok(())
}
