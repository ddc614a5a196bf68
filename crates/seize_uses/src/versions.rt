//! A version that only grows. The type of the reclaimer says so, as the rule of the links: after a version comes no smaller one, and none
//! is taken out. So whoever has read a link knows that each later read finds no smaller version, by whichever guard, and whatever other
//! threads do in between.
ghost use Rattle.std.proofs.Common.{lit<};
ghost use Rattle.std.specs.Prelude.{◌≡◌, ◌<◌, ◌≤◌, ◌↔◌, ℕ, Option, Some, [], ◌∷◌, IfOk, IfSome, IsTrue, true};
ghost use Rattle.seize.specs.Collectors.{IsPassOf, its_links};
ghost use Rattle.seize.specs.Exchanges.{current_value};
ghost use Rattle.seize.specs.Guards.{core_collector, core_home, core_slot, guard_collector, guard_home};
ghost use Rattle.seize.specs.Machine.Event.{ReadLink};
ghost use Rattle.seize.specs.Makes.{Makes, MakesOne};
ghost use Rattle.seize.specs.Rules.{Says};
ghost use Rattle.seize.specs.Answer.TheVariants.{Link};
ghost use Rattle.seize_uses.specs.contracts.versions.Version.{the_row};
ghost use Rattle.seize_uses.specs.declared.versions.Version.{Version};
ghost use Rattle.seize_uses.specs.Reached.{HasReached};
ghost use Rattle.seize_uses.specs.Versions.{GrowsTo};

use crate::links::{block_of, content_at, retire_any};
use seize::{Further, GuardCore, LocalGuard, Pass, Puts, Reclaim, Refusal, Shared};
use std::sync::Wait;

/// A version, by its number.
#[derive(Clone, Copy)]
pub struct Version {
    /// The number.
    pub number: u64,
}

/// The reclaimer of versions, which does nothing with them. Its type says the rule of the links.
#[derive(Clone, Copy)]
pub struct Growing;

impl Puts<Version> for Growing {
    ghost keeps = { λ _ before after. GrowsTo before after };

    ghost lighter = { λ _ _. lit< tt };
}

impl Reclaim<Version> for Growing {
    fn reclaim(self, _kind: u64, _value: Version, _further: &mut Further<'_, Version, Growing>) {}
}

/// The version that a link holds. It is no less than each that the link had reached as the pass knew, and the pass knows of this one then.
pub fn newest(
    core: &GuardCore<'_, Version, Growing>,
    link: usize,
    pass: &mut Pass,
) -> Option<Version>
    requires of { IsPassOf (core_collector core.now) pass.old × (link < its_links (core_collector core.now)) }
    ensures pass { IsPassOf (core_collector core.now) pass.new }
    ensures read { (held : Option ℕ) × Says the_row.coded.code held result
        × MakesOne pass.old pass.new (ReadLink (core_slot core.now) link) (Link held) }
    ensures no_less { (version : Version) → HasReached (core_home core.now) link version pass.old → GrowsTo (Some version) result }
    ensures reached { IfSome result (λ version. HasReached (core_home core.now) link version pass.new) }
{
    let collector = core.collector();
    collector.laws(pass);
    let version = content_at(core, link, pass);
    collector.laws(pass);
    version
}

/// Reads a link twice, by two guards, which may have entered at different times. The second version is no less than the first.
pub fn read_twice(
    first: &GuardCore<'_, Version, Growing>,
    second: &GuardCore<'_, Version, Growing>,
    link: usize,
    pass: &mut Pass,
) -> (Option<Version>, Option<Version>)
    requires of { IsPassOf (core_collector first.now) pass.old × (link < its_links (core_collector first.now)) }
    requires same { (core_home second.now ≡ core_home first.now) × (core_collector second.now ≡ core_collector first.now) }
    ensures pass { IsPassOf (core_collector first.now) pass.new }
    ensures read { (one : Option ℕ) × (other : Option ℕ) × Says the_row.coded.code one result.0
        × Says the_row.coded.code other result.1 × Makes pass.old pass.new
        ((ReadLink (core_slot first.now) link, Link one) ∷ (ReadLink (core_slot second.now) link, Link other) ∷ []) }
    ensures grows { GrowsTo result.0 result.1 }
{
    let one = newest(first, link, pass);
    let other = newest(second, link, pass);
    (one, other)
}

/// Puts this version into a link in the place of an older one, or of none, and retires what was there. It says whether it did: not where
/// the link holds a later version, and not where another thread was faster. Where it did, the pass knows that the link has reached this
/// version.
///
/// # Errors
///
/// `NoMemory` where no block can be made.
pub fn advance<W: Wait>(
    guard: &LocalGuard<'_, '_, Version, Growing>,
    link: usize,
    version: Version,
    rt: &W,
    pass: &mut Pass,
) -> Result<bool, Refusal>
    requires of { IsPassOf (guard_collector guard.now) pass.old × (link < its_links (guard_collector guard.now)) }
    ensures pass { IsPassOf (guard_collector guard.now) pass.new }
    ensures reached { IfOk result (λ done. done ≡ true → HasReached (guard_home guard.now) link version pass.new) }
{
    let collector = guard.collector();
    collector.laws(pass);
    let found = guard.protect(link, pass);
    let current = found.as_ref();
    if !may_follow(current, version) {
        return Ok(false);
    }
    let block = block_of(guard, version)?;
    let Ok(out) = guard.compare_exchange(link, current, Some(block), pass) else {
        return Ok(false);
    };
    retire_any(guard, out, rt, pass);
    collector.laws(pass);
    Ok(true)
}

// Whether the rule lets this version follow what was found.
fn may_follow(found: Option<&Shared<'_, Version>>, version: Version) -> bool
    ensures { IsTrue result ↔ GrowsTo (current_value found.entry) (Some version) }
{
    match found {
        Some(current) => current.number <= version.number,
        None => true,
    }
}
