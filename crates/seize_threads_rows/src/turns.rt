//! Turns of a thread at a collector: it enters, reads a link, swaps a new block in, retires what came out, and leaves.
ghost use Rattle.std.specs.Prelude.{◌≡◌, ◌<◌, IfOk};
ghost use Rattle.seize.specs.Collectors.{IsPassOf, its_links, its_words};
ghost use Rattle.seize.specs.Guards.{guard_collector};
ghost use Rattle.seize.specs.Registrations.{registered_in};

use seize::{Collector, Guard, LocalGuard, Pass, Refusal, Registration};
use seize_test_kit::marked::{Marked, ends_of};
use std::sync::Wait;
use std::sync::atomic::AtomicU64;

/// What a thread saw in its turns.
#[derive(Clone, Copy, PartialEq, Eq, Debug)]
pub struct Seen {
    /// How many values it found in the link.
    pub found: u64,
    /// How many of these had ended while the guard stood.
    pub early: u64,
    /// How many it retired.
    pub retired: u64,
}

impl Seen {
    /// Both together.
    pub fn and(self, other: Seen) -> Seen {
        Seen {
            found: self.found.wrapping_add(other.found),
            early: self.early.wrapping_add(other.early),
            retired: self.retired.wrapping_add(other.retired),
        }
    }
}

/// Swaps a block of this number into the link, and retires what came out. It says how many it retired.
pub fn replace<'c, 'a, W: Wait>(
    guard: &LocalGuard<'_, 'c, Marked<'a>>,
    link: usize,
    value: Marked<'a>,
    rt: &W,
    pass: &mut Pass,
) -> Result<u64, Refusal>
    requires of { IsPassOf (guard_collector guard.now) pass.old × (link < its_links (guard_collector guard.now)) }
    ensures pass { IsPassOf (guard_collector guard.now) pass.new }
{
    let block = match guard.collector().owned(value) {
        Ok(block) => block,
        Err((refusal, _)) => return Err(refusal),
    };
    match guard.swap(link, Some(block), pass) {
        Some(old) => {
            guard.defer_retire(rt, pass, old);
            Ok(1)
        }
        None => Ok(0),
    }
}

/// One turn: enters, reads the link, swaps a block of this number in, retires what came out, and leaves. What it found had not ended when
/// the guard left.
pub fn turn<'c, 'a, W: Wait>(
    registration: &Registration<'c, Marked<'a>>,
    link: usize,
    value: Marked<'a>,
    rt: &W,
    pass: &mut Pass,
) -> Result<Seen, Refusal>
    requires of { IsPassOf (registered_in registration.now) pass.old × (link < its_links (registered_in registration.now)) }
    ensures pass { IsPassOf (registered_in registration.now) pass.new }
{
    let marks = value.marks;
    let guard = registration.enter(pass)?;
    let shared = guard.protect(link, pass);
    let replaced = replace(&guard, link, value, rt, pass);
    let (found, early) = match &shared {
        Some(shared) => (1, ends_of(marks, shared.value)),
        None => (0, 0),
    };
    guard.leave(rt, pass);
    let retired = replaced?;
    Ok(Seen {
        found,
        early,
        retired,
    })
}

/// Registers, makes so many turns on link 0 with the numbers from this one on, and ends.
pub fn work<'a, W: Wait>(
    collector: &Collector<Marked<'a>>,
    first: u64,
    turns: u64,
    marks: &'a [AtomicU64],
    rt: &W,
) -> Result<Seen, Refusal>
    requires { 0 < its_links (its_words collector.now) }
{
    let mut pass = collector.pass();
    let registration = collector.register(rt, &mut pass)?;
    let worked = work_by(&registration, first, turns, marks, rt, &mut pass);
    registration.end(rt, &mut pass);
    worked
}

// So many turns.
fn work_by<'c, 'a, W: Wait>(
    registration: &Registration<'c, Marked<'a>>,
    first: u64,
    turns: u64,
    marks: &'a [AtomicU64],
    rt: &W,
    pass: &mut Pass,
) -> Result<Seen, Refusal>
    requires of { IsPassOf (registered_in registration.now) pass.old × (0 < its_links (registered_in registration.now)) }
    ensures pass { IsPassOf (registered_in registration.now) pass.new }
{
    let mut all = Seen {
        found: 0,
        early: 0,
        retired: 0,
    };
    for n in 0..turns {
        let value = Marked {
            value: first.wrapping_add(n),
            marks,
        };
        all = all.and(turn(registration, 0, value, rt, pass)?);
    }
    Ok(all)
}
