//! A mark that stays, and what is read after it, as where a table grows: a number moves from an old link to a new one, and then the old one
//! is marked. The rule of the links says that a mark stays. So whoever finds the mark and then reads the new link has the answer of one
//! moment: at the second read the mark is there still, whatever other threads did in between.
ghost use Rattle.std.proofs.Common.{lit<};
ghost use Rattle.std.specs.Prelude.{◌≡◌, ◌<◌, ◌↔◌, Option, IsTrue};
ghost use Rattle.seize.specs.Collectors.{IsPassOf, its_links};
ghost use Rattle.seize.specs.Exchanges.{current_value};
ghost use Rattle.seize.specs.Guards.{core_collector, guard_collector};
ghost use Rattle.seize.specs.Machine.History.{Moment};
ghost use Rattle.seize.specs.Moments.{StandsSince};
ghost use Rattle.seize_uses.specs.Places.{IsMoved, StaysMoved, number_in};
ghost use Rattle.seize_uses.specs.Shown.{ShowsNumber};

use crate::links::{block_of, content_at, retire_any};
use seize::{Further, GuardCore, LocalGuard, Pass, Puts, Reclaim, Refusal, Shared};
use std::sync::Wait;

/// A number, or the mark that it moved to another link.
#[derive(Clone, Copy)]
pub enum Place {
    /// The number.
    Here(u64),
    /// The mark.
    Moved,
}

/// The reclaimer of places, which does nothing with them. Its type says the rule of the links.
#[derive(Clone, Copy)]
pub struct Staying;

impl Puts<Place> for Staying {
    ghost keeps = { λ _ before after. StaysMoved before after };

    ghost lighter = { λ _ _. lit< tt };
}

impl Reclaim<Place> for Staying {
    fn reclaim(self, _kind: u64, _value: Place, _further: &mut Further<'_, Place, Staying>) {}
}

/// The number in the old link, or where that is marked, the number in the new one: as it is at one moment of the call.
pub fn find(
    core: &GuardCore<'_, Place, Staying>,
    old: usize,
    new: usize,
    pass: &mut Pass,
) -> Option<u64>
    requires of { IsPassOf (core_collector core.now) pass.old × (old < its_links (core_collector core.now))
        × (new < its_links (core_collector core.now)) }
    ensures pass { IsPassOf (core_collector core.now) pass.new }
    ensures found { (m : Moment) × StandsSince pass.old pass.new m × ShowsNumber old new m.before result }
{
    let collector = core.collector();
    collector.laws(pass);
    let first = content_at(core, old, pass);
    match first {
        Some(Place::Moved) => {
            let second = content_at(core, new, pass);
            collector.laws(pass);
            number(second)
        }
        Some(Place::Here(n)) => Some(n),
        None => None,
    }
}

// The number there.
fn number(place: Option<Place>) -> Option<u64>
    ensures { result ≡ number_in place }
{
    match place {
        Some(Place::Here(n)) => Some(n),
        _ => None,
    }
}

/// Puts a number into a link, and retires what was there. It says whether it did: not where the link is marked, and not where another
/// thread was faster.
///
/// # Errors
///
/// `NoMemory` where no block can be made.
pub fn put<W: Wait>(
    guard: &LocalGuard<'_, '_, Place, Staying>,
    link: usize,
    number: u64,
    rt: &W,
    pass: &mut Pass,
) -> Result<bool, Refusal>
    requires of { IsPassOf (guard_collector guard.now) pass.old × (link < its_links (guard_collector guard.now)) }
    ensures pass { IsPassOf (guard_collector guard.now) pass.new }
{
    let found = guard.protect(link, pass);
    let current = found.as_ref();
    if is_marked(current) {
        return Ok(false);
    }
    let block = block_of(guard, Place::Here(number))?;
    let Ok(out) = guard.compare_exchange(link, current, Some(block), pass) else {
        return Ok(false);
    };
    retire_any(guard, out, rt, pass);
    Ok(true)
}

// Whether the mark was found.
fn is_marked(found: Option<&Shared<'_, Place>>) -> bool
    ensures { IsTrue result ↔ IsMoved (current_value found.entry) }
{
    match found {
        Some(place) => matches!(**place, Place::Moved),
        None => false,
    }
}

/// Marks a link, and retires what was there. The rule lets a mark follow anything, so a swap serves.
///
/// # Errors
///
/// `NoMemory` where no block can be made.
pub fn mark<W: Wait>(
    guard: &LocalGuard<'_, '_, Place, Staying>,
    link: usize,
    rt: &W,
    pass: &mut Pass,
) -> Result<(), Refusal>
    requires of { IsPassOf (guard_collector guard.now) pass.old × (link < its_links (guard_collector guard.now)) }
    ensures pass { IsPassOf (guard_collector guard.now) pass.new }
{
    let block = block_of(guard, Place::Moved)?;
    let out = guard.swap(link, Some(block), pass);
    retire_any(guard, out, rt, pass);
    Ok(())
}
