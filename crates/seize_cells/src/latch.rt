//! A word beside the token of a cell. Threads share it by `&`; whoever takes the token lays it back when it is done.
ghost use Rattle.std.specs.Prelude.{◌≡◌, ℕ, IfSome};
ghost use base.Stored.{coded_ℕ};
ghost use Rattle.seize_cells.specs.Latches.{latch_owns, latch_shares};

use seize_content::CellToken;
use std::marker::{Brand, Move, Owns, PhantomData};
use std::sync::atomic::Ordering::SeqCst;
use std::sync::atomic::raw;

/// The word is 0 while the token is there. In a clause a latch is the name of the token's cell.
pub(crate) struct Latch {
    taken: u64,
}

impl Owns for Latch {
    ghost Value = { ℕ };

    ghost coded = { coded_ℕ };

    ghost shr_at = { λ γ p κ. latch_shares γ p κ };
}

impl Move for Latch {
    ghost own_val = { λ γ vs. latch_owns γ (λ w. Fields.own_val (record { taken = w }) vs) };
}

impl Latch {
    /// A latch with this token.
    pub(crate) fn new(token: CellToken) -> Latch
        ensures { result ≡ token.name }
    {
        Latch { taken: 0 }
    }

    /// The token, if it is there: one swap.
    pub(crate) fn try_take(&self) -> Option<CellToken>
        ensures { IfSome result (λ token. token.name ≡ self.now) }
    {
        let found = unsafe { raw::swap::<Brand>(&raw const self.taken, 1, SeqCst) };
        if found == 0 {
            Some(CellToken {
                marker: PhantomData,
            })
        } else {
            None
        }
    }

    /// Lays the token back: one store.
    pub(crate) fn give(&self, token: CellToken)
        requires { token.name ≡ self.now }
    {
        unsafe { raw::store::<Brand>(&raw const self.taken, 0, SeqCst) };
    }
}

impl Drop for Latch {
    fn drop(self) {
        let Self { taken: _ } = self;
    }
}

unsafe impl Send for Latch {}

unsafe impl Sync for Latch {}
