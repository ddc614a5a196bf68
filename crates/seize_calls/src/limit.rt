//! A number that is known by a fact of it alone: how many values may come to a queue. It has no bytes.
ghost use Rattle.std.specs.Prelude.{ℕ};
ghost use base.Fml.{ftrue};

use crate::batch::Batch;
use crate::further::Further;
use std::marker::{Brand, Model, PhantomData};

/// What holds of a limit. A caller passes `Brand`, and its proof picks it, by the batch and the queue.
pub(crate) trait Limits {
    ghost is_one: { ℕ → Type 0 };
}

impl Limits for Brand {
    ghost is_one = { λ _. Unit {0} };
}

/// A limit.
pub(crate) struct Limit {
    marker: PhantomData<()>,
    /// It is there for measures alone.
    pub(crate) ghost number: { ℕ },
}

impl Model for Limit {
    ghost also_owns = { λ _. ftrue };
}

impl Drop for Limit {
    fn drop(self) {
        let Limit { marker: _ } = self;
    }
}

impl Limit {
    /// There is one, and this is it. It does nothing when the program runs.
    pub(crate) fn of<L: Limits>(_batch: &Batch, _queue: &Further) -> Limit
        requires { (n : ℕ) × L.is_one n }
        ensures { L.is_one result.number }
    {
        Limit {
            marker: PhantomData,
        }
    }
}
