//! A lock of one thread over a value that stays in its place. The thread has the lock by `&` and has work done on the value; while a work
//! is being done, no other one is begun.
ghost use Rattle.std.specs.Prelude.{◌≡◌, ℕ, IfErr, IfOk};
ghost use base.Stored.{coded_ℕ};
ghost use Rattle.seize_content.specs.Steady.{keeps};
ghost use Rattle.seize_cells.specs.Locks.{HadLock, MayLock};

use crate::lent_work::{LockWork, work_in};
use crate::token_place::TokenPlace;
use seize_content::{Steady, SteadyCell};
use std::marker::Model;
use std::sync::Wait;

/// A value and its lock, for one thread. In a clause a lock is the label of its value.
///
/// Only a work has the value, where it lies, and no work changes the label or leaves the value unsound. The lock can go to another thread
/// where the value can, and is never shared by threads. It asks for no memory, and makes no atomic step.
#[derive(Drop)]
pub struct LocalLock<M: Steady> {
    cell: SteadyCell<M>,
    token: TokenPlace,
}

impl<M: Steady> Model for LocalLock<M> {
    ghost Value = { ℕ };

    ghost coded = { coded_ℕ };

    ghost view = { λ lock. lock.cell.label };

    ghost invariant = { λ lock. lock.token.place ≡ lock.cell.name };
}

impl<M: Steady> LocalLock<M> {
    /// A lock over this value.
    pub fn new(value: M) -> LocalLock<M>
        requires { M.sound value }
        ensures { result ≡ M.label value }
    {
        let (cell, token) = SteadyCell::new(value);
        let token = TokenPlace::new(&cell, token);
        LocalLock { cell, token }
    }

    /// Has the work done on the value and on what is lent beside it. Within another work it is not done, and comes back.
    #[inline(always)]
    pub fn try_with<W: LockWork<M, A, R>, A, R>(&self, work: W, with: &mut A) -> Result<R, W>
        requires { MayLock M.label M.sound self.now (λ x. W.may work x with.old) }
        ensures done { IfOk result (λ r. HadLock M.label M.sound self.now (λ x y. W.gives work x y with.old with.new r)) }
        ensures within { IfErr result (λ back. (back ≡ work) × (with.new ≡ with.old)) }
    {
        let Some(mut token) = self.token.take() else {
            return Err(work);
        };
        let result = work_in(&self.cell, &mut token, work, with);
        self.token.give(token);
        Ok(result)
    }

    /// The same, but within another work it waits for ever.
    #[inline(always)]
    pub fn with<W: LockWork<M, A, R>, A, R>(&self, rt: &impl Wait, work: W, with: &mut A) -> R
        requires { MayLock M.label M.sound self.now (λ x. W.may work x with.old) }
        ensures { HadLock M.label M.sound self.now (λ x y. W.gives work x y with.old with.new result) }
    {
        let mut token = match self.token.take() {
            Some(token) => token,
            None => self.token.wait(rt),
        };
        let result = work_in(&self.cell, &mut token, work, with);
        self.token.give(token);
        result
    }

    /// The value.
    pub fn into_value(self) -> M
        ensures { keeps M.label M.sound self result }
    {
        let Self { cell, token: _ } = self;
        cell.into_value()
    }
}
