//! What a thread does with one slot: it registers, or enters with an owned guard, makes some turns, and ends or is forgotten.
ghost use Rattle.std.specs.Prelude.{◌≡◌, ◌<◌};
ghost use Rattle.seize.specs.Collectors.{IsPassOf, its_links, its_words};
ghost use Rattle.seize.specs.Guards.{owned_collector};
ghost use Rattle.seize.specs.Registrations.{registered_in};

use crate::dice::Dice;
use crate::turns::{Found, Step, turn};
use seize::{Collector, Guard, OwnedGuard, Pass, Refusal, Registration};
use seize_test_kit::marked::Marked;
use std::sync::Wait;
use std::sync::atomic::AtomicU64;

/// How many links a collector has.
pub(crate) const LINKS: usize = 4;

/// How many turns a span has at most, each with a value.
pub(crate) const TURNS: u64 = 32;

/// One span of a thread.
#[derive(Clone, Copy)]
pub(crate) struct Span<'a> {
    /// The number of its first value.
    pub(crate) first: u64,
    /// Its chances.
    pub(crate) dice: Dice,
    /// Where values are marked.
    pub(crate) marks: &'a [AtomicU64],
}

impl<'a> Span<'a> {
    // The value of this turn.
    fn value(&self, n: u64) -> Marked<'a> {
        Marked {
            value: self.first.wrapping_add(n),
            marks: self.marks,
        }
    }

    // Where a turn puts its value.
    fn step(&mut self) -> Step
        ensures { result.link < LINKS }
    {
        let link = self.dice.roll(LINKS as u64) as usize % LINKS;
        let swaps = self.dice.roll(2) == 0;
        Step { link, swaps }
    }
}

// A turn with a guard of its own, which may refresh or flush before it leaves.
fn local_turn<'a, W: Wait>(
    rt: &W,
    registration: &Registration<'_, Marked<'a>>,
    value: Marked<'a>,
    span: &mut Span<'a>,
    pass: &mut Pass,
) -> Result<Found, Refusal>
    requires of { IsPassOf (registered_in registration.now) pass.old × (its_links (registered_in registration.now) ≡ 4) }
    ensures { IsPassOf (registered_in registration.now) pass.new }
{
    let step = span.step();
    let chance = span.dice.roll(4);
    let mut guard = registration.enter(pass)?;
    let found = turn(rt, &guard, step, value, pass);
    if chance == 0 {
        guard.refresh(rt, pass);
    }
    if chance == 1 {
        guard.flush(rt, pass);
    }
    guard.leave(rt, pass);
    Ok(found)
}

// All turns of a registration.
fn local_turns<'a, W: Wait>(
    rt: &W,
    registration: &Registration<'_, Marked<'a>>,
    span: &mut Span<'a>,
    pass: &mut Pass,
) -> Result<Found, Refusal>
    requires of { IsPassOf (registered_in registration.now) pass.old × (its_links (registered_in registration.now) ≡ 4) }
    ensures { IsPassOf (registered_in registration.now) pass.new }
{
    let mut all = Found::none();
    for n in 0..TURNS {
        let value = span.value(n);
        all = all.and(local_turn(rt, registration, value, span, pass)?);
    }
    Ok(all)
}

/// Those of a registration, which ends then. One in eight is forgotten with a guard.
pub(crate) fn local_span<'a, W: Wait>(
    rt: &W,
    collector: &Collector<Marked<'a>>,
    span: Span<'a>,
) -> Result<Found, Refusal>
    requires { its_links (its_words collector.now) ≡ 4 }
{
    let mut span = span;
    let mut pass = collector.pass();
    let registration = collector.register(rt, &mut pass)?;
    let found = local_turns(rt, &registration, &mut span, &mut pass);
    if span.dice.roll(8) != 0 {
        registration.end(rt, &mut pass);
        return found;
    }
    if let Ok(guard) = registration.enter(&mut pass) {
        guard.forget(&mut pass);
    }
    registration.forget();
    found
}

// All turns of an owned guard, which may flush after each.
fn owned_turns<'a, W: Wait>(
    rt: &W,
    guard: &OwnedGuard<'_, Marked<'a>>,
    span: &mut Span<'a>,
    pass: &mut Pass,
) -> Found
    requires of { IsPassOf (owned_collector guard.now) pass.old × (its_links (owned_collector guard.now) ≡ 4) }
    ensures { IsPassOf (owned_collector guard.now) pass.new }
{
    let mut all = Found::none();
    for n in 0..TURNS {
        let value = span.value(n);
        let step = span.step();
        all = all.and(turn(rt, guard, step, value, pass));
        if span.dice.roll(8) == 0 {
            guard.flush(rt, pass);
        }
    }
    all
}

/// Those of an owned guard, which refreshes and leaves then. One in eight is forgotten.
pub(crate) fn owned_span<'a, W: Wait>(
    rt: &W,
    collector: &Collector<Marked<'a>>,
    span: Span<'a>,
) -> Result<Found, Refusal>
    requires { its_links (its_words collector.now) ≡ 4 }
{
    let mut span = span;
    let mut pass = collector.pass();
    let mut guard = collector.enter_owned(rt, &mut pass)?;
    let found = owned_turns(rt, &guard, &mut span, &mut pass);
    if span.dice.roll(8) == 0 {
        guard.forget();
        return Ok(found);
    }
    guard.refresh(rt, &mut pass);
    guard.leave(rt, &mut pass);
    Ok(found)
}
