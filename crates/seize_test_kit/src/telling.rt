//! A collector of values that tell their ends by digits, and guards that retire such values.
ghost use Rattle.std.specs.Prelude.{◌<◌, IfOk};
ghost use Rattle.seize.specs.Collectors.{IsPassOf, its_links, its_words};
ghost use Rattle.seize.specs.Guards.{guard_collector};
ghost use Rattle.seize.specs.Registrations.{registered_in};

use crate::values::Digit;
use seize::{Collector, Guard, IdSource, LocalGuard, Pass, Refusal, Registration};
use std::alloc::Global;
use std::sync::Wait;
use std::sync::atomic::AtomicU64;

/// A collector of such values.
pub type Telling<'a> = Collector<Digit<'a>>;

/// One with one link, and batches of this many values.
pub fn telling<'a>(alloc: Global, size: usize) -> Result<Telling<'a>, Refusal>
    ensures { IfOk result (λ made. 0 < its_links (its_words made)) }
{
    let made: Telling<'a> = Collector::new(alloc, &mut IdSource::new(), 1, 1)?;
    Ok(made.batch_size(size))
}

/// A guard retires a value that was in no link.
pub fn defer<'a>(
    rt: &impl Wait,
    guard: &LocalGuard<'_, '_, Digit<'a>>,
    digit: u64,
    told: &'a AtomicU64,
    pass: &mut Pass,
)
    requires { IsPassOf (guard_collector guard.now) pass.old }
    ensures { IsPassOf (guard_collector guard.now) pass.new }
{
    if let Ok(owned) = guard.owned(Digit { digit, told }) {
        guard.defer_retire(rt, pass, guard.collector().unlinked(owned));
    }
}

/// A guard does so that leaves then.
pub fn defer_alone<'a>(
    rt: &impl Wait,
    registration: &Registration<'_, Digit<'a>>,
    digit: u64,
    told: &'a AtomicU64,
    pass: &mut Pass,
)
    requires { IsPassOf (registered_in registration.now) pass.old }
    ensures { IsPassOf (registered_in registration.now) pass.new }
{
    if let Ok(guard) = registration.enter(pass) {
        defer(rt, &guard, digit, told, pass);
        guard.leave(rt, pass);
    }
}
