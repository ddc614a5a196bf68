//! A block in the place of the one that was read: how a structure without locks changes a link.
ghost use base.Stored.{gnum};
ghost use Rattle.std.specs.Prelude.{◌≡◌, ◌<◌, ℕ, Option, None, Some, [], ◌∷◌, IfOk, IfSome};
ghost use Rattle.seize.specs.Blocks.{HasContent, IsNamed, content};
ghost use Rattle.seize.specs.Links.{IsUnlinkedOf, unlinked_name};
ghost use Rattle.seize.specs.Collectors.{BelongsTo, IsBlockOf, IsPassOf, its_links};
ghost use Rattle.seize.specs.Guards.{core_collector, core_slot};
ghost use Rattle.seize.specs.Machine.Event.{ExchangeLink, ReadLink};
ghost use Rattle.seize.specs.Makes.{Makes, MakesOne};
ghost use Rattle.seize.specs.Registrations.{registered_in};
ghost use Rattle.seize.specs.Answer.TheVariants.{Link};
ghost use Rattle.seize.specs.Exchange.TheVariants.{Compare};

use seize::{Failed, Guard, GuardCore, Owned, Pass, Reclaim, Refusal, Registration, Unlinked};
use std::sync::Wait;

/// Puts the block into link 0 in the place of the one that is there, by a guard of either kind. Where the link is empty, or another thread
/// is faster, the block comes back. The value that comes out is the one that was read, and no other value of the same block, since that is
/// not used again while the guard stands.
pub fn replace_read<'c, R: Reclaim<u64>>(
    core: &GuardCore<'c, u64, R>,
    new: Owned<u64>,
    pass: &mut Pass,
) -> Result<Option<Unlinked<'c, u64>>, Option<Owned<u64>>>
    requires of { IsPassOf (core_collector core.now) pass.old × (0 < its_links (core_collector core.now)) }
    requires value { BelongsTo R.owners (core_collector core.now) new }
    requires rule { (x : ℕ) → R.keeps 0 (Some x) (Some (content new)) }
    ensures pass { IsPassOf (core_collector core.now) pass.new }
    ensures of { IfOk result (λ out. IfSome out (IsUnlinkedOf (core_collector core.now))) }
    ensures took { IfOk result (λ _. (held : Option ℕ) × (v : Option ℕ) × IsNamed gnum (Some new) v × Makes pass.old pass.new
        ((ReadLink (core_slot core.now) 0, Link held) ∷ (ExchangeLink (core_slot core.now) 0 (Compare held v), Link held) ∷ [])) }
{
    let Some(found) = core.protect(0, pass) else {
        return Err(Some(new));
    };
    match core.compare_exchange(0, Some(&found), Some(new), pass) {
        Ok(old) => Ok(old),
        Err(failed) => Err(failed.new),
    }
}

/// Takes out of link 0 by one guard what another guard of the collector found there, if the link holds that still. The number that was
/// found comes with what came out. The passes need not have met: what came out is the very value that was found, as that stands until then.
pub fn take_found<'c, R: Reclaim<u64>>(
    finder: &GuardCore<'c, u64, R>,
    taker: &GuardCore<'c, u64, R>,
    seen: &mut Pass,
    pass: &mut Pass,
) -> Option<(u64, Unlinked<'c, u64>)>
    requires finder { IsPassOf (core_collector finder.now) seen.old × (0 < its_links (core_collector finder.now)) }
    requires taker { IsPassOf (core_collector taker.now) pass.old × (core_collector taker.now ≡ core_collector finder.now) }
    requires rule { (x : ℕ) → R.keeps 0 (Some x) None }
    ensures passes { IsPassOf (core_collector finder.now) seen.new × IsPassOf (core_collector taker.now) pass.new }
    ensures of { IfSome result (λ taken. IsUnlinkedOf (core_collector taker.now) taken.1) }
    ensures took { IfSome result (λ taken. let v = unlinked_name taken.1 in HasContent gnum v taken.0
        × MakesOne seen.old seen.new (ReadLink (core_slot finder.now) 0) (Link (Some v))
        × MakesOne pass.old pass.new (ExchangeLink (core_slot taker.now) 0 (Compare (Some v) None)) (Link (Some v))) }
{
    let found = finder.protect(0, seen)?;
    match taker.compare_exchange(0, Some(&found), None, pass) {
        Ok(Some(out)) => Some((*found, out)),
        _ => None,
    }
}

/// Puts a number into link 0 in the place of the one that is there, and retires the block that was there. It says whether it did: not
/// where the link is empty, and not where another thread was faster.
pub fn exchange<W: Wait>(
    registration: &Registration<'_, u64>,
    value: u64,
    rt: &W,
    pass: &mut Pass,
) -> Result<bool, Refusal>
    requires pass { IsPassOf (registered_in registration.now) pass.old }
    requires link { 0 < its_links (registered_in registration.now) }
    ensures pass { IsPassOf (registered_in registration.now) pass.new }
{
    let block = registration.owned(value).map_err(|(refusal, _)| refusal)?;
    let guard = registration.enter(pass)?;
    let done = match replace_read(&guard, block, pass) {
        Ok(Some(old)) => {
            guard.defer_retire(rt, pass, old);
            true
        }
        Ok(None) => true,
        Err(back) => {
            drop(back);
            false
        }
    };
    guard.leave(rt, pass);
    Ok(done)
}

/// Adds to the number in link 0, if there is one: the sum comes in the place of the number that was read. Where another thread was faster,
/// it tries again with what the link held then. It tries so often at most, and says whether a try was won.
pub fn add<W: Wait>(
    registration: &Registration<'_, u64>,
    more: u64,
    attempts: usize,
    rt: &W,
    pass: &mut Pass,
) -> Result<bool, Refusal>
    requires pass { IsPassOf (registered_in registration.now) pass.old }
    requires link { 0 < its_links (registered_in registration.now) }
    ensures pass { IsPassOf (registered_in registration.now) pass.new }
{
    let block = registration.owned(more).map_err(|(refusal, _)| refusal)?;
    let guard = registration.enter(pass)?;
    let added = match add_under(&guard, more, attempts, block, pass) {
        Some(old) => {
            guard.defer_retire(rt, pass, old);
            true
        }
        None => false,
    };
    guard.leave(rt, pass);
    Ok(added)
}

// Adds under this guard, with this block. It gives what came out, where a try was won.
fn add_under<'c>(
    core: &GuardCore<'c, u64>,
    more: u64,
    attempts: usize,
    block: Owned<u64>,
    pass: &mut Pass,
) -> Option<Unlinked<'c, u64>>
    requires of { IsPassOf (core_collector core.now) pass.old × (0 < its_links (core_collector core.now)) }
    requires block { IsBlockOf (core_collector core.now) block }
    ensures pass { IsPassOf (core_collector core.now) pass.new }
    ensures of { IfSome result (IsUnlinkedOf (core_collector core.now)) }
{
    let (mut found, mut block) = (core.protect(0, pass), block);
    for _ in 0..attempts {
        let shared = found?;
        *block = shared.wrapping_add(more);
        match core.compare_exchange(0, Some(&shared), Some(block), pass) {
            Ok(old) => return old,
            Err(Failed { found: other, new }) => {
                found = other;
                block = new?;
            }
        }
    }
    None
}
