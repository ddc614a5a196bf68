//! Steps that calls on links share: a copy of what a link holds, a block to go in, and the retirement of what came out.
ghost use Rattle.std.specs.Prelude.{◌≡◌, ◌⊎◌, ◌<◌, ℕ, List, Option, IfOk, IfSome};
ghost use Rattle.seize.specs.Blocks.{content};
ghost use Rattle.seize.specs.Collectors.{IsBlockOf, IsPassOf, its_links};
ghost use Rattle.seize.specs.Guards.{core_collector, core_slot, guard_collector};
ghost use Rattle.seize.specs.Links.{IsUnlinkedOf};
ghost use Rattle.seize.specs.Machine.Event.{Event, ReadLink};
ghost use Rattle.seize.specs.Makes.{Makes, MakesOne};
ghost use Rattle.seize.specs.Rules.{Says};
ghost use Rattle.seize.specs.Answer.{Answer};
ghost use Rattle.seize.specs.Answer.TheVariants.{Link};

use seize::{Guard, GuardCore, LocalGuard, Owned, Pass, Reclaim, Refusal, Unlinked};
use std::sync::Wait;

/// A copy of what a link holds. It outlives the guard.
pub fn content_at<T: Copy + Drop, R: Reclaim<T>>(
    core: &GuardCore<'_, T, R>,
    link: usize,
    pass: &mut Pass,
) -> Option<T>
    requires of { IsPassOf (core_collector core.now) pass.old × (link < its_links (core_collector core.now)) }
    ensures pass { IsPassOf (core_collector core.now) pass.new }
    ensures read { (held : Option ℕ) × MakesOne pass.old pass.new (ReadLink (core_slot core.now) link) (Link held)
        × Says T.row.coded.code held result }
{
    core.protect(link, pass).map(|found| *found)
}

/// A block of this value. The value ends where none could be made.
///
/// # Errors
///
/// `NoMemory` where the store could not grow.
pub fn block_of<T: Drop, R: Reclaim<T>>(
    guard: &LocalGuard<'_, '_, T, R>,
    value: T,
) -> Result<Owned<T>, Refusal>
    ensures { IfOk result (λ owned. IsBlockOf (guard_collector guard.now) owned × (content owned ≡ value)) }
{
    guard.owned(value).map_err(|(refusal, _)| refusal)
}

/// Retires what came out of a link, if anything did.
pub fn retire_any<T: Drop, R: Reclaim<T>, W: Wait>(
    guard: &LocalGuard<'_, '_, T, R>,
    out: Option<Unlinked<'_, T>>,
    rt: &W,
    pass: &mut Pass,
)
    requires of { IsPassOf (guard_collector guard.now) pass.old × IfSome out (IsUnlinkedOf (guard_collector guard.now)) }
    ensures pass { IsPassOf (guard_collector guard.now) pass.new }
    ensures made { (pass.new ≡ pass.old) ⊎ ((events : List (Event × Answer)) × Makes pass.old pass.new events) }
{
    if let Some(old) = out {
        guard.defer_retire(rt, pass, old);
    }
}
