//! A number that threads share: each reads and replaces it, by a registration of its own.
ghost use base.Stored.{gnum};
ghost use Rattle.std.specs.Prelude.{◌≡◌, ◌<◌, ◌≤◌, ℕ, length, IfSome};
ghost use Rattle.seize.specs.Blocks.{HasContent};
ghost use Rattle.seize.specs.Links.{IsUnlinkedOf, unlinked_name};
ghost use Rattle.seize.specs.Collectors.{IsPassOf, its_links};
ghost use Rattle.seize.specs.Guards.{core_collector, core_slot, guard_collector};
ghost use Rattle.seize.specs.Laws.{moments_seen, opening_of};
ghost use Rattle.seize.specs.Makes.{MakesNone};
ghost use Rattle.seize.specs.Registrations.{registered_in};
ghost use Rattle.seize.specs.Machine.History.{Found, HasParted, IsActiveAt, Reclaimed, Retired};
ghost use Rattle.seize.specs.Machine.Laws.{After};

use seize::{
    Collector, Guard, GuardCore, IdSource, LocalGuard, Pass, Refusal, Registration, Unlinked,
};
use std::alloc::Global;
use std::sync::Wait;

/// The number in link 0, if there is one.
pub fn read<W: Wait>(
    registration: &Registration<'_, u64>,
    rt: &W,
    pass: &mut Pass,
) -> Result<Option<u64>, Refusal>
    requires pass { IsPassOf (registered_in registration.now) pass.old }
    requires link { 0 < its_links (registered_in registration.now) }
    ensures pass { IsPassOf (registered_in registration.now) pass.new }
{
    let guard = registration.enter(pass)?;
    let found = guard.protect(0, pass).map(|shared| *shared);
    guard.leave(rt, pass);
    Ok(found)
}

/// Puts a number into link 0, and retires the block that was there.
pub fn replace<W: Wait>(
    registration: &Registration<'_, u64>,
    value: u64,
    rt: &W,
    pass: &mut Pass,
) -> Result<(), Refusal>
    requires pass { IsPassOf (registered_in registration.now) pass.old }
    requires link { 0 < its_links (registered_in registration.now) }
    ensures pass { IsPassOf (registered_in registration.now) pass.new }
{
    let block = registration.owned(value).map_err(|(refusal, _)| refusal)?;
    let guard = registration.enter(pass)?;
    if let Some(old) = guard.swap(0, Some(block), pass) {
        guard.defer_retire(rt, pass, old);
    }
    guard.leave(rt, pass);
    Ok(())
}

/// Puts a number into the one link of a new collector, and reads it there.
pub fn put_and_read<W: Wait>(alloc: Global, value: u64, rt: &W) -> Result<Option<u64>, Refusal> {
    let collector: Collector<u64> = Collector::new(alloc, &mut IdSource::new(), 4, 1)?;
    let mut pass = collector.pass();
    let registration = collector.register(rt, &mut pass)?;
    let put = replace(&registration, value, rt, &mut pass);
    let found = read(&registration, rt, &mut pass);
    registration.end(rt, &mut pass);
    put?;
    found
}

/// In the list that the pass sees then, each value that was reclaimed was retired before, once, and each slot that was active at that
/// moment has left or refreshed since.
pub fn audit(registration: &Registration<'_, u64>, pass: &mut Pass)
    requires pass { IsPassOf (registered_in registration.now) pass.old }
    ensures pass { IsPassOf (registered_in registration.now) pass.new }
    ensures none { MakesNone pass.old pass.new }
    ensures after { After (opening_of pass.new) (moments_seen pass.new) }
{
    registration.collector().laws(pass);
}

/// The number in link 0, which the guard found, after a look at the list. The read stands there, after all that the pass had seen before;
/// and while the guard stands, the number is not reclaimed in what the pass sees.
pub fn read_and_audit(core: &GuardCore<'_, u64>, pass: &mut Pass) -> Option<u64>
    requires of { IsPassOf (core_collector core.now) pass.old × (0 < its_links (core_collector core.now)) }
    ensures pass { IsPassOf (core_collector core.now) pass.new }
    ensures found { let ms = moments_seen pass.new in IfSome result (λ n. (v : ℕ) × HasContent gnum v n
        × ((e : ℕ) × (length (moments_seen pass.old) ≤ e) × Found ms (core_slot core.now) v e) × ((k : ℕ) → ¬ (Reclaimed ms v k))) }
{
    let found = core.protect(0, pass)?;
    core.protected(pass);
    Some(*found)
}

/// Retires a number that came out of a link, and looks at the list. The retirement stands there; and each time that the number was
/// reclaimed in what the pass sees then, that was after it, and each slot that was active at it had left or refreshed in between.
pub fn retire_and_audit<W: Wait>(
    guard: &LocalGuard<'_, '_, u64>,
    value: Unlinked<'_, u64>,
    rt: &W,
    pass: &mut Pass,
)
    requires of { IsPassOf (guard_collector guard.now) pass.old × IsUnlinkedOf (guard_collector guard.now) value }
    ensures pass { IsPassOf (guard_collector guard.now) pass.new }
    ensures retired { let v = unlinked_name value.entry in let ms = moments_seen pass.new in (q : ℕ) × Retired ms v q
        × ((c : ℕ) → Reclaimed ms v c → (q < c) × ((s : ℕ) → IsActiveAt ms s q → HasParted ms s q c)) }
{
    guard.defer_retire(rt, pass, value);
    guard.collector().laws(pass);
}
