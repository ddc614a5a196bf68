//! Two threads that each hold a guard, of which neither ends before it has found what the other put in. So they must both run, and no call
//! of one waits for a guard of the other's. Threads that ran one after the other would fail: the first would look in vain.
ghost use Rattle.std.specs.Prelude.{◌≡◌, ◌<◌, IfOk};
ghost use Rattle.seize.specs.Collectors.{IsPassOf, its_links, its_words};
ghost use Rattle.seize.specs.Guards.{guard_collector};
ghost use Rattle.seize.specs.Registrations.{registered_in};

use seize::{Collector, Guard, IdSource, LocalGuard, Pass, Refusal, Registration};
use std::alloc::Global;
use std::sync::Wait;
use std::test::*;
use std::thread;
use std::thread::Threads;

// How often a thread looks at most. It yields in between, since the other one may not run at once.
const MOST: u64 = 10_000_000;

// A collector of numbers with two links.
pub(crate) fn collector(alloc: Global) -> Result<Collector<u64>, Refusal>
    ensures { IfOk result (λ made. its_links (its_words made) ≡ 2) }
{
    Collector::new(alloc, &mut IdSource::new(), 1, 2)
}

// Swaps this number into the link, and retires what came out. It says what that was.
pub(crate) fn put(
    rt: &impl Wait,
    guard: &LocalGuard<'_, '_, u64>,
    link: usize,
    number: u64,
    pass: &mut Pass,
) -> Result<Option<u64>, Refusal>
    requires of { IsPassOf (guard_collector guard.now) pass.old × (link < its_links (guard_collector guard.now)) }
    ensures { IsPassOf (guard_collector guard.now) pass.new }
{
    let block = match guard.collector().owned(number) {
        Ok(block) => block,
        Err((refusal, _)) => return Err(refusal),
    };
    match guard.swap(link, Some(block), pass) {
        Some(old) => {
            let out = *old;
            guard.defer_retire(rt, pass, old);
            Ok(Some(out))
        }
        None => Ok(None),
    }
}

// Looks at the link until it has a value. It says which.
fn look(guard: &LocalGuard<'_, '_, u64>, link: usize, pass: &mut Pass) -> Option<u64>
    requires of { IsPassOf (guard_collector guard.now) pass.old × (link < its_links (guard_collector guard.now)) }
    ensures { IsPassOf (guard_collector guard.now) pass.new }
{
    for _ in 0..MOST {
        if let Some(found) = guard.protect(link, pass) {
            return Some(*found);
        }
        thread::yield_now();
    }
    None
}

// With one guard: puts this number into one link, and looks at the other till it has a value.
fn put_and_look(
    rt: &impl Wait,
    registration: &Registration<'_, u64>,
    links: (usize, usize),
    number: u64,
    pass: &mut Pass,
) -> Result<Option<u64>, Refusal>
    requires pass { IsPassOf (registered_in registration.now) pass.old }
    requires links { let many = its_links (registered_in registration.now) in (links.0 < many) × (links.1 < many) }
    ensures { IsPassOf (registered_in registration.now) pass.new }
{
    let guard = registration.enter(pass)?;
    let done = put(rt, &guard, links.0, number, pass);
    let found = look(&guard, links.1, pass);
    guard.leave(rt, pass);
    done?;
    Ok(found)
}

// Registers for that.
fn meet(
    rt: &impl Wait,
    collector: &Collector<u64>,
    links: (usize, usize),
    number: u64,
) -> Result<Option<u64>, Refusal>
    requires { let many = its_links (its_words collector.now) in (links.0 < many) × (links.1 < many) }
{
    let mut pass = collector.pass();
    let registration = collector.register(rt, &mut pass)?;
    let found = put_and_look(rt, &registration, links, number, &mut pass);
    registration.end(rt, &mut pass);
    found
}

// Two threads do so, each with the other's links. They say what they found.
fn two<R: Threads + Wait + Sync>(
    rt: &R,
    collector: &Collector<u64>,
) -> Result<(Option<u64>, Option<u64>), Refusal>
    requires { its_links (its_words collector.now) ≡ 2 }
{
    let (one, other) = thread::join(
        rt,
        move || -> Result<Option<u64>, Refusal>
            requires { its_links (its_words collector.now) ≡ 2 }
        { meet(rt, collector, (0, 1), 1) },
        move || -> Result<Option<u64>, Refusal>
            requires { its_links (its_words collector.now) ≡ 2 }
        { meet(rt, collector, (1, 0), 2) },
    );
    Ok((one?, other?))
}

// Each of two threads holds its guard until it has found what the other put in.
#[test]
fn two_threads_meet_under_guards(rt: HostRuntime) -> Result<(), Fail> {
    let collector = collector(rt.alloc())?;
    assert_eq!(rt; two(&rt, &collector)?, (Some(2), Some(1)));
    Ok(())
}
