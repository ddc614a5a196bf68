//! A lock over a value that stays in its place. Threads share it by `&`, and one of them at a time has work done on the value.
ghost use Rattle.std.specs.Prelude.{◌≡◌, ℕ, IfErr, IfOk};
ghost use base.Stored.{coded_ℕ};
ghost use Rattle.seize_content.specs.Steady.{keeps};
ghost use Rattle.seize_cells.specs.Locks.{HadLock, MayLock};

use crate::lent_work::{LockWork, work_in};
use crate::token_lock::TokenLock;
use seize_content::{Steady, SteadyCell};
use std::marker::Model;
use std::sync::Wait;

/// A value and its lock. In a clause a lock is the label of its value.
///
/// Only a work has the value, where it lies, and no work changes the label or leaves the value unsound. If a work does not return, its lock
/// is held for as long as threads share it.
#[derive(Drop)]
pub struct Lock<M: Steady> {
    cell: SteadyCell<M>,
    token: TokenLock,
}

impl<M: Steady> Model for Lock<M> {
    ghost Value = { ℕ };

    ghost coded = { coded_ℕ };

    ghost view = { λ lock. lock.cell.label };

    ghost invariant = { λ lock. lock.token.latch ≡ lock.cell.name };
}

impl<M: Steady> Lock<M> {
    /// A lock over this value. It asks for no memory.
    pub fn new(value: M) -> Lock<M>
        requires { M.sound value }
        ensures { result ≡ M.label value }
    {
        let (cell, token) = SteadyCell::new(value);
        Lock {
            cell,
            token: TokenLock::new(token),
        }
    }

    /// Takes the lock, has the work done on the value and on what is lent beside it, and gives the lock back.
    ///
    /// It waits while another thread has the lock: it yields some times, and then sleeps until it is woken. A work that asks for the same
    /// lock waits for ever. Taking the lock is one swap where nobody has it, and giving it back one store and a look at who waits.
    #[inline(always)]
    pub fn with<W: LockWork<M, A, R>, A, R>(&self, rt: &impl Wait, work: W, with: &mut A) -> R
        requires { MayLock M.label M.sound self.now (λ x. W.may work x with.old) }
        ensures { HadLock M.label M.sound self.now (λ x y. W.gives work x y with.old with.new result) }
    {
        let mut token = self.token.take(rt);
        let result = work_in(&self.cell, &mut token, work, with);
        self.token.give(token);
        result
    }

    /// The same where nobody has the lock: one swap, and it waits for nobody. Else the work is not done, and comes back.
    pub fn try_with<W: LockWork<M, A, R>, A, R>(&self, work: W, with: &mut A) -> Result<R, W>
        requires { MayLock M.label M.sound self.now (λ x. W.may work x with.old) }
        ensures done { IfOk result (λ r. HadLock M.label M.sound self.now (λ x y. W.gives work x y with.old with.new r)) }
        ensures taken { IfErr result (λ back. (back ≡ work) × (with.new ≡ with.old)) }
    {
        let Some(mut token) = self.token.try_take() else {
            return Err(work);
        };
        let result = work_in(&self.cell, &mut token, work, with);
        self.token.give(token);
        Ok(result)
    }

    /// The same for a caller who has the lock alone. It takes no lock: nobody else can have it, whatever became of a work.
    pub fn with_mut<W: LockWork<M, A, R>, A, R>(&mut self, work: W, with: &mut A) -> R
        requires { MayLock M.label M.sound self.old (λ x. W.may work x with.old) }
        ensures same { self.new ≡ self.old }
        ensures done { HadLock M.label M.sound self.old (λ x y. W.gives work x y with.old with.new result) }
    {
        let Lock { cell, token: kept } = self;
        let mut token = cell.renew();
        let result = work_in(cell, &mut token, work, with);
        *kept = TokenLock::new(token);
        result
    }

    /// The value.
    pub fn into_value(self) -> M
        ensures { keeps M.label M.sound self result }
    {
        let Self { cell, token: _ } = self;
        cell.into_value()
    }
}
