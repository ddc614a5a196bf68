//! A cell of one thread, whose value keeps its label and is sound. A call takes the value out and lays another one of the label there.
ghost use Rattle.std.specs.Prelude.{◌≡◌, ℕ};
ghost use base.Stored.{coded_ℕ};
ghost use Rattle.seize_content.specs.Steady.{keeps};
ghost use Rattle.seize_cells.specs.Locals.{local_owns, local_shares};

use crate::tag::Tag;
use seize_content::Steady;
use std::marker::{Move, Owns, PhantomData};

/// A value in its place, which one thread uses by `&`. In a clause a cell is the label of its value.
///
/// It can go to another thread where the value can, and is never shared by threads. No call waits or takes memory.
pub(crate) struct LocalCell<M: Steady> {
    value: M,
}

impl<M: Steady> Owns for LocalCell<M> {
    ghost Value = { ℕ };

    ghost coded = { coded_ℕ };

    ghost shr_at = { λ n p κ. local_shares M.row (keeps M.label M.sound n) p κ };
}

impl<M: Steady> Move for LocalCell<M> {
    ghost own_val = { λ n vs. local_owns M.row (keeps M.label M.sound n) (λ x. Fields.own_val (record { value = x }) vs) };
}

impl<M: Steady> LocalCell<M> {
    /// A cell with this value.
    pub(crate) fn new(value: M) -> LocalCell<M>
        requires { M.sound value }
        ensures { result ≡ M.label value }
    {
        LocalCell { value }
    }

    /// The label, as a value of its own. It does nothing when the program runs.
    pub(crate) fn tag(&self) -> Tag
        ensures { result.name ≡ self.now }
    {
        Tag {
            marker: PhantomData,
        }
    }

    /// Lays another sound value of the label there, and gives what lay there. Until the caller lays that back, the other value is what
    /// every call finds.
    pub(crate) fn replace(&self, value: M) -> M
        requires { keeps M.label M.sound self.now value }
        ensures { keeps M.label M.sound self.now result }
    {
        let at = (self as *const LocalCell<M>).cast::<M>().cast_mut();
        unsafe {
            let old = at.read();
            at.write(value);
            old
        }
    }

    /// The value.
    pub(crate) fn into_value(self) -> M
        ensures { keeps M.label M.sound self result }
    {
        let Self { value } = self;
        value
    }
}

impl<M: Steady + Drop> Drop for LocalCell<M> {
    fn drop(self) {
        drop(self.into_value());
    }
}

// The one thread that has it may be any thread.
unsafe impl<M: Steady + Send> Send for LocalCell<M> {}
