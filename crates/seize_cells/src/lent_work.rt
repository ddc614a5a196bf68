//! What is done with the value of a lock where it lies, together with something that the caller lends for the time of the work.
ghost use Rattle.std.specs.Prelude.{◌≡◌};
ghost use Rattle.seize_cells.specs.Locks.{HadLock, MayLock};

use seize_content::{CellToken, Steady, SteadyCell};

/// A piece of work for [`Lock::with`](crate::Lock::with) and for [`LocalLock::with`](crate::LocalLock::with). It leaves the value's label
/// as it was, and the value sound. The caller knows how the work left what was lent beside the value.
pub trait LockWork<M: Steady, A, R> {
    /// On which sound values the work may be done, and with what beside them.
    ghost may: { Self → M → A → Type 0 };

    /// What the work does: from the value before to the value after, from what was lent before to what it is after, and the result.
    ghost gives: { Self → M → M → A → A → R → Type 0 };

    /// Does the work.
    fn work(self, value: &mut M, with: &mut A) -> R
        requires { M.sound value.old × may self value.old with.old }
        ensures { ((M.label value.new ≡ M.label value.old) × M.sound value.new)
            × gives self value.old value.new with.old with.new result };
}

/// Has the work done on the cell's value, by whoever has the cell's token.
#[inline(always)]
pub(crate) fn work_in<M: Steady, W: LockWork<M, A, R>, A, R>(
    cell: &SteadyCell<M>,
    token: &mut CellToken,
    work: W,
    with: &mut A,
) -> R
    requires name { token.old.name ≡ cell.now.name }
    requires may { MayLock M.label M.sound cell.now.label (λ x. W.may work x with.old) }
    ensures { (token.new.name ≡ token.old.name)
        × HadLock M.label M.sound cell.now.label (λ x y. W.gives work x y with.old with.new result) }
{
    let at = (cell as *const SteadyCell<M>).cast::<M>().cast_mut();
    work.work(unsafe { &mut *at }, with)
}
