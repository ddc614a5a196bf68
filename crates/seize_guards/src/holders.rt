//! How a thread comes to a slot: by a registration, or by a guard that has a slot of its own. Each takes the least number not in use.
ghost use Rattle.std.specs.Prelude.{◌≡◌, IfErr, IfOk};
ghost use Rattle.seize_calls.specs.Slots.{IsPassOf};
ghost use Rattle.seize_guards.specs.Guards.{owned_collector, owned_home, owned_slot};
ghost use Rattle.seize_parts.specs.Makes.{TakesAndEnters, TakesNumber};
ghost use Rattle.seize_parts.specs.Numbers.{TakesNone};
ghost use Rattle.seize_parts.specs.Puts.{PutBy};
ghost use Rattle.seize_guards.specs.Registrations.{registered_home, registered_in, registered_slot};

use crate::guard::OwnedGuard;
use crate::parts::{Home, Parts};
use crate::registration::Registration;
use crate::taking::take_slot;
use seize_parts::reclaim::Reclaim;
use seize_table::Refusal;
use seize_words::book::Pass;
use std::alloc::Global;
use std::sync::Wait;

/// A slot for the calling thread: that of the least number that is not in use, which is taken as `take_slot` takes it.
///
/// # Errors
///
/// As `take_slot`.
#[inline(always)]
pub fn register<'c, T: Drop, R: Reclaim<T>, C: Home<T>, W: Wait>(
    home: &'c C,
    parts: &'c Parts<T, R>,
    rt: &W,
    alloc: Global,
    pass: &mut Pass,
) -> Result<Registration<'c, T, R, C>, Refusal>
    requires home { parts.now.words ≡ C.its_words home.now }
    requires pass { IsPassOf parts.now.words pass.old }
    ensures made { IfOk result (λ made. (registered_in made ≡ parts.now.words) × (registered_home made ≡ home.now)
        × TakesNumber (PutBy T.row.coded.code R.puts) (registered_slot made) pass.old pass.new) }
    ensures refused { IfErr result (λ refusal. TakesNone pass.old pass.new refusal) }
{
    let (slot, shelf) = take_slot(parts, rt, alloc, pass)?;
    Ok(Registration::of(home, parts, slot, shelf, pass))
}

/// A guard with the slot of the least number that is not in use, which is taken as `take_slot` takes it, and enters.
///
/// # Errors
///
/// As `take_slot`.
#[inline(always)]
pub fn enter_owned<'c, T: Drop, R: Reclaim<T>, C: Home<T>, W: Wait>(
    home: &'c C,
    parts: &'c Parts<T, R>,
    rt: &W,
    alloc: Global,
    pass: &mut Pass,
) -> Result<OwnedGuard<'c, T, R, C>, Refusal>
    requires home { parts.now.words ≡ C.its_words home.now }
    requires pass { IsPassOf parts.now.words pass.old }
    ensures made { IfOk result (λ guard. (owned_collector guard ≡ parts.now.words) × (owned_home guard ≡ home.now)
        × TakesAndEnters (PutBy T.row.coded.code R.puts) (owned_slot guard) pass.old pass.new) }
    ensures refused { IfErr result (λ refusal. TakesNone pass.old pass.new refusal) }
{
    let (slot, shelf) = take_slot(parts, rt, alloc, pass)?;
    Ok(OwnedGuard::of(home, parts, slot, shelf, pass))
}
