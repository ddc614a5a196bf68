//! A retired batch.
ghost use Rattle.std.specs.Prelude.{◌≡◌, ◌^◌, pos, neg_ℤ, ◌+ℤ◌, ◌-ℤ◌, ◌≤ℤ◌, [], if◌then◌else◌};
ghost use Rattle.seize_machine.specs.Machine.State as state;
ghost use Rattle.seize_machine.specs.Machine.Next.{is_zero};

use std::alloc::Global;
use std::collections::VecDeque;
use std::marker::Model;
use std::mem;

/// The values, in order of retirement, and the count, which is below zero while walkers are faster than the add.
#[derive(Drop)]
pub(super) struct Batch {
    values: VecDeque<u64>,
    count: i128,
}

impl Model for Batch {
    ghost Value = { state.Batch };

    ghost view = { λ b. record { values = b.values.items; count = b.count } };
}

impl Batch {
    /// A batch that was just taken from its slot.
    pub(super) fn new(values: VecDeque<u64>) -> Batch
        ensures { result ≡ record { values = values.items; count = pos 0 } }
    {
        Batch { values, count: 0 }
    }

    /// The count becomes this one. At 0 the values are given up.
    pub(super) fn settle(&mut self, alloc: Global, count: i128) -> VecDeque<u64>
        ensures given { result.items ≡ (if is_zero count then self.old.values else []) }
        ensures rest { self.new ≡ record { values = if is_zero count then [] else self.old.values; count = count } }
    {
        self.count = count;
        if count == 0 {
            mem::replace(&mut self.values, VecDeque::new(alloc))
        } else {
            VecDeque::new(alloc)
        }
    }

    /// The count after this many insertions.
    pub(super) fn raised(&self, won: usize) -> i128
        requires low { pos 0 ≤ℤ (self.now.count +ℤ pos won) }
        requires high { (self.now.count +ℤ pos won) ≤ℤ pos (2 ^ 64) }
        ensures { result ≡ self.now.count +ℤ pos won }
    {
        self.count + won as i128
    }

    /// The count after one of the slots that hold the batch has left it.
    pub(super) fn lowered(&self) -> i128
        requires { neg_ℤ (pos (2 ^ 64)) ≤ℤ self.now.count }
        ensures { result ≡ self.now.count -ℤ pos 1 }
    {
        self.count - 1
    }
}
