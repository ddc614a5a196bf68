//! A watch: it is told of each value that is gone.
ghost use base.Stored.{coded_ℕ, gnum};
ghost use Rattle.std.specs.Coded.{coded_option};
ghost use Rattle.std.specs.Prelude.{◌≡◌, true, None};
ghost use Rattle.seize.specs.Waiting.Calls.{unused};
ghost use Rattle.seize.specs.Waiting.State.{has_guard, model_slot};
ghost use Rattle.seize.specs.Takens.{IsTakenOf};

use seize::waiting::batches;
use seize::{Alone, Taken, Watch};

/// The number that was gone last.
#[derive(Drop, Debug, PartialEq, Eq)]
pub struct Newest(pub Option<u64>);

impl Watch<u64> for Newest {
    ghost use Rattle.std.specs.Prelude.{Option, Some, ℕ};

    ghost Seen = { Option ℕ };

    ghost coded = { coded_option coded_ℕ };

    ghost seen = { λ newest. newest.0 };

    ghost told = { λ _ number. Some number };

    fn gone(&mut self, value: &u64) {
        self.0 = Some(*value);
    }
}

/// Retires a number by a slot that has a guard. Nothing is gone in this call, so the watch is told nothing.
pub fn retire_under_guard(
    alone: &mut Alone<u64>,
    slot: usize,
    number: Taken<u64>,
    newest: &mut Newest,
)
    requires own { IsTakenOf gnum alone.old.book number }
    requires used { unused alone.old.state slot ≡ None }
    requires active { has_guard (model_slot alone.old.state slot) ≡ true }
    ensures { newest.new.0 ≡ newest.old.0 }
{
    batches::<u64, u64>();
    match alone.retire(slot, number, 0, newest) {
        Ok(()) => {}
        Err((_, _number)) => unreachable!(),
    }
}
