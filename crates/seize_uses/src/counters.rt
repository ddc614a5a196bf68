//! Numbers in cells, to which threads add. The function that an update is given says its answer, so the contract says what the cell holds
//! before and after.
ghost use base.Stored.{gnum};
ghost use Rattle.std.specs.Prelude.{◌≡◌, ◌+◌, ◌%◌, ◌^◌, ℕ, Option, IfOk, option_copied, option_map};
ghost use Rattle.seize.specs.Collectors.{IsPassOf};
ghost use Rattle.seize.specs.Guards.{guard_collector};
ghost use Rattle.seize.specs.Machine.History.{Moment};
ghost use Rattle.seize.specs.Machine.State.{link_at};
ghost use Rattle.seize.specs.Moments.{StandsSince};
ghost use Rattle.seize.specs.Rules.{Says};
ghost use Rattle.seize_atomic.specs.Cells.{IsForCell};

use seize::{LocalGuard, Pass};
use seize_atomic::{Cells, NotAltered};
use std::sync::Wait;

/// The next number, where there is one: 0 after 2^64 - 1.
pub fn next(number: Option<&u64>) -> Option<u64>
    ensures { result ≡ option_map (λ n. (n + 1) % 2 ^ 64) (option_copied number.entry) }
{
    number.map(|n| n.wrapping_add(1))
}

/// Adds 1 to the number in a cell, if there is one. Where it says so, the list has a moment, after what the pass had seen before, at which
/// the cell went from a number to the next one, or stayed empty.
///
/// # Errors
///
/// `Contended` where other exchanges came first so often, and `NoMemory`.
pub fn add_one<W: Wait>(
    cells: &Cells<'_, u64>,
    guard: &LocalGuard<'_, '_, u64>,
    cell: usize,
    tries: u32,
    rt: &W,
    pass: &mut Pass,
) -> Result<(), NotAltered>
    requires of { IsForCell cells.now (guard_collector guard.now) cell pass.old }
    ensures pass { IsPassOf (guard_collector guard.now) pass.new }
    ensures adds { IfOk result (λ _. (m : Moment) × StandsSince pass.old pass.new m × ((x : Option ℕ)
        × Says gnum (link_at m.before cell) x × Says gnum (link_at m.after cell) (option_map (λ n. (n + 1) % 2 ^ 64) x))) }
{
    cells.update(rt, guard, cell, next, tries, pass)
}
