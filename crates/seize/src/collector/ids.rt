//! Where collectors get their ids.
ghost use Rattle.std.specs.Prelude.{◌≡◌, ◌⊎◌, ◌+◌, ◌≤◌, ◌<◌, ◌^◌, IfErr, IfOk, max as greater};
ghost use Rattle.std.specs.Int.{IsNextPowerOfTwo};
ghost use Rattle.seize_table.specs.declared.refusal.Refusal.TheVariants.{NoNumbers as no_numbers, TooManyProcessors as too_many};

use seize_table::Refusal;
use std::cmp::max;
use std::marker::Model;

// For how many processors a collector may be made: 2^63.
const MOST_PROCESSORS: usize = 0x8000_0000_0000_0000;

/// Where collectors get their ids: 0, 1, 2 and so on, up to 2^64 - 1.
#[derive(Drop)]
pub struct IdSource {
    // how many ids it has given
    given: u128,
}

impl Model for IdSource {
    ghost use Rattle.std.specs.Prelude.{ℕ};

    ghost Value = { ℕ };

    ghost view = { λ ids. ids.given };
}

impl IdSource {
    /// A source that has given no id.
    pub fn new() -> IdSource
        ensures { result ≡ 0 }
    {
        IdSource { given: 0 }
    }

    // What a new collector for so many processors begins with: the next id, which is not given yet, and its batch size.
    pub(crate) fn begin(&self, processors: usize) -> Result<(u64, usize), Refusal>
        ensures begun { IfOk result (λ begun. (begun.0 ≡ self.now) × IsNextPowerOfTwo (greater 32 processors) begun.1
            × (processors ≤ 2 ^ 63) × (self.now < 2 ^ 64)) }
        ensures refused { IfErr result (λ refusal. ((2 ^ 63 < processors) × (refusal ≡ too_many))
            ⊎ ((processors ≤ 2 ^ 63) × (2 ^ 64 ≤ self.now) × (refusal ≡ no_numbers))) }
    {
        if processors > MOST_PROCESSORS {
            return Err(Refusal::TooManyProcessors);
        }
        let Ok(id) = u64::try_from(self.given) else {
            return Err(Refusal::NoNumbers);
        };
        Ok((id, max(32, processors).next_power_of_two()))
    }

    // It is given.
    pub(crate) fn give(&mut self)
        requires { self.old < 2 ^ 64 }
        ensures { self.new ≡ self.old + 1 }
    {
        self.given += 1;
    }
}
