//! What a thread may ask of a collector that it shares: how long a batch is that waits at rest, and whether a block is of it.
ghost use Rattle.std.specs.Prelude.{◌≡◌, ◌⊎◌, ℕ, true};
ghost use Rattle.seize.specs.Collectors.{IsPassOf, its_most, its_words};
ghost use Rattle.seize.specs.Laws.{WaitsBelow, moments_seen, opening_of};
ghost use Rattle.seize.specs.Links.{IsUnlinkedOf};
ghost use Rattle.seize.specs.Machine.History.{Reclaimed, Retired, end_of};
ghost use Rattle.seize.specs.Machine.Laws.{is_quiet};
ghost use Rattle.seize.specs.Makes.{MakesNone};

use seize::{Collector, Pass, Unlinked};

/// Where no call is under way and no slot is active, as the pass sees then, each value that was retired is reclaimed; or it waits in a
/// slot's batch, or with what slots left, of which the greatest batch size that the collector ever had bounds the length.
pub fn audit_waiting(collector: &Collector<u64>, pass: &mut Pass)
    requires pass { IsPassOf (its_words collector.now) pass.old }
    ensures pass { IsPassOf (its_words collector.now) pass.new }
    ensures none { MakesNone pass.old pass.new }
    ensures waits { let ms = moments_seen pass.new in let st = end_of (opening_of pass.new) ms in
        is_quiet st ≡ true → (v q : ℕ) → Retired ms v q
        → ((c : ℕ) × Reclaimed ms v c) ⊎ WaitsBelow (its_most collector.now) st v }
{
    collector.laws(pass);
}

/// Whether a block in no link is of this collector, as their ids say.
pub fn is_of(value: &Unlinked<'_, u64>, collector: &Collector<u64>) -> bool
    ensures own { IsUnlinkedOf (its_words collector.now) value.now → result ≡ true }
{
    value.collector_id() == collector.id()
}
