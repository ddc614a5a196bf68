//! Threads that all read one block, and exchange it at once: one of them wins.
ghost use Rattle.std.specs.Prelude.{◌≡◌, ◌<◌};
ghost use Rattle.seize.specs.Collectors.{IsPassOf, its_links, its_words};
ghost use Rattle.seize.specs.Guards.{guard_collector};
ghost use Rattle.seize.specs.Registrations.{registered_in};

use crate::signs::{set, wait_for};
use crate::sums::{Sum, Tried, collector, put, read};
use seize::{Collector, Guard, LocalGuard, Pass, Refusal, Registration};
use seize_test_kit::marked::{Marked, ended, marks};
use std::sync::Wait;
use std::sync::atomic::AtomicU64;
use std::test::*;
use std::thread;
use std::thread::Threads;

// How many rounds there are.
const ROUNDS: u64 = 300;

// How many threads there are.
const MANY: u64 = 4;

// Reads the link, waits until all have read, and exchanges what it read for its block with the next number. The number that it reads is
// that of the round, and where its exchange is lost the link holds the next one.
fn exchange<'a>(
    rt: &impl Wait,
    guard: &LocalGuard<'_, '_, Sum<'a>>,
    round: u64,
    mark: Marked<'a>,
    come: &AtomicU64,
    pass: &mut Pass,
) -> Tried
    requires of { IsPassOf (guard_collector guard.now) pass.old × (0 < its_links (guard_collector guard.now)) }
    ensures { IsPassOf (guard_collector guard.now) pass.new }
{
    let next = round.wrapping_add(1);
    let found = guard.protect(0, pass);
    let number = found.as_ref().map(|shared| shared.number);
    set(come);
    let met = wait_for(come, MANY.wrapping_mul(next.wrapping_add(round)));
    let block = guard.owned(Sum { number: next, mark }).ok();
    if block.is_none() || !met || number != Some(round) {
        return Tried::odd();
    }
    match guard.compare_exchange(0, found.as_ref(), block, pass) {
        Ok(Some(old)) => {
            let same = old.number == round;
            guard.defer_retire(rt, pass, old);
            Tried::won(same)
        }
        Ok(None) => Tried::odd(),
        Err(failed) => {
            let held = failed.found.as_ref().map(|shared| shared.number);
            Tried::lost(held == Some(next))
        }
    }
}

// One round, with a guard of its own: the next begins when all have exchanged.
fn play<'a>(
    rt: &impl Wait,
    registration: &Registration<'_, Sum<'a>>,
    round: u64,
    mark: Marked<'a>,
    come: &AtomicU64,
    pass: &mut Pass,
) -> Result<Tried, Refusal>
    requires of { IsPassOf (registered_in registration.now) pass.old × (0 < its_links (registered_in registration.now)) }
    ensures { IsPassOf (registered_in registration.now) pass.new }
{
    let guard = registration.enter(pass)?;
    let tried = exchange(rt, &guard, round, mark, come, pass);
    set(come);
    wait_for(
        come,
        MANY.wrapping_mul(round.wrapping_add(1)).wrapping_mul(2),
    );
    guard.leave(rt, pass);
    Ok(tried)
}

// All rounds. They end with the first that goes otherwise than it should.
fn play_all<'a>(
    rt: &impl Wait,
    registration: &Registration<'_, Sum<'a>>,
    first: u64,
    come: &AtomicU64,
    marks: &'a [AtomicU64],
    pass: &mut Pass,
) -> Result<Tried, Refusal>
    requires of { IsPassOf (registered_in registration.now) pass.old × (0 < its_links (registered_in registration.now)) }
    ensures { IsPassOf (registered_in registration.now) pass.new }
{
    let mut all = Tried::none();
    for round in 0..ROUNDS {
        let value = first.wrapping_add(round);
        let tried = play(rt, registration, round, Marked { value, marks }, come, pass)?;
        all = all.and(tried);
        if all.odd > 0 {
            break;
        }
    }
    Ok(all)
}

// Registers for that.
fn work<'a>(
    rt: &impl Wait,
    collector: &Collector<Sum<'a>>,
    first: u64,
    come: &AtomicU64,
    marks: &'a [AtomicU64],
) -> Result<Tried, Refusal>
    requires { 0 < its_links (its_words collector.now) }
{
    let mut pass = collector.pass();
    let registration = collector.register(rt, &mut pass)?;
    let tried = play_all(rt, &registration, first, come, marks, &mut pass);
    registration.end(rt, &mut pass);
    tried
}

// Two threads do so.
fn two<'a, R: Threads + Wait + Sync>(
    rt: &R,
    collector: &Collector<Sum<'a>>,
    first: u64,
    come: &AtomicU64,
    marks: &'a [AtomicU64],
) -> Result<Tried, Refusal>
    requires { 0 < its_links (its_words collector.now) }
{
    let second = first.wrapping_add(ROUNDS);
    let (one, other) = thread::join(
        rt,
        move || -> Result<Tried, Refusal>
            requires { 0 < its_links (its_words collector.now) }
        { work(rt, collector, first, come, marks) },
        move || -> Result<Tried, Refusal>
            requires { 0 < its_links (its_words collector.now) }
        { work(rt, collector, second, come, marks) },
    );
    Ok(one?.and(other?))
}

// Four do.
fn four<'a, R: Threads + Wait + Sync>(
    rt: &R,
    collector: &Collector<Sum<'a>>,
    come: &AtomicU64,
    marks: &'a [AtomicU64],
) -> Result<Tried, Refusal>
    requires { 0 < its_links (its_words collector.now) }
{
    let (one, other) = thread::join(
        rt,
        move || -> Result<Tried, Refusal>
            requires { 0 < its_links (its_words collector.now) }
        { two(rt, collector, 1, come, marks) },
        move || -> Result<Tried, Refusal>
            requires { 0 < its_links (its_words collector.now) }
        { two(rt, collector, 1 + 2 * ROUNDS, come, marks) },
    );
    Ok(one?.and(other?))
}

// In each round four threads read one block, and when all have read it each exchanges that for a block of its own: one wins, and three lose
// to it. Each block ends once: one that was won as it is replaced, or with the collector, and a lost one at once.
#[test]
fn one_of_four_exchanges_is_won(rt: HostRuntime) -> Result<(), Fail> {
    let marks = marks(rt.alloc(), 1 + 4 * ROUNDS)?;
    let collector = collector(rt.alloc())?;
    let come = AtomicU64::new(0);
    put(&rt, &collector, marks.as_slice())?;
    let tried = four(&rt, &collector, &come, marks.as_slice())?;
    let wanted = Tried {
        won: ROUNDS,
        lost: 3 * ROUNDS,
        odd: 0,
    };
    assert_eq!(rt; tried, wanted);
    assert_eq!(rt; read(&rt, &collector)?, Some(ROUNDS));
    assert_eq!(rt; ended(marks.as_slice()), (4 * ROUNDS, 0));
    drop(collector);
    assert_eq!(rt; ended(marks.as_slice()), (1 + 4 * ROUNDS, 0));
    Ok(())
}
