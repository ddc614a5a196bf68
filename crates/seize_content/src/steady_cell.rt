//! A token cell whose value stays what it is known for. A layer above lets who has the token work on the value where it lies, as the locks
//! of `seize_cells` do. No work changes the label or leaves the value unsound. So once nobody shares the cell any more the value is so,
//! wherever the token went.
ghost use Rattle.std.specs.Prelude.{◌≡◌, ℕ};
ghost use Rattle.seize_content.specs.Cells.{cell_owns, cell_shares};
ghost use Rattle.seize_content.specs.Steady.{SteadyName, keeps, steady_name_coded};

use crate::token_cell::CellToken;
use std::marker::{Move, Owns, PhantomData};

/// What stays so of a value while it lies in a cell.
pub trait Steady {
    /// What says which value it is, for good.
    ghost label: { Self → ℕ };

    /// What holds of it whenever no work is being done on it.
    ghost sound: { Self → Type 0 };
}

/// A value in its place. In a clause a cell is its name, and the label of its value; it keeps both while it is shared.
///
/// What is lent to a holder with its token is not lost when the holder is forgotten: it comes back with the cell.
pub struct SteadyCell<M: Steady> {
    value: M,
}

impl<M: Steady> Owns for SteadyCell<M> {
    ghost Value = { SteadyName };

    ghost coded = { steady_name_coded };

    ghost shr_at = { λ c p κ. cell_shares M.row (keeps M.label M.sound c.label) c.name p κ };
}

impl<M: Steady> Move for SteadyCell<M> {
    ghost own_val = { λ c vs. cell_owns M.row (keeps M.label M.sound c.label) c.name (λ x. Fields.own_val (record { value = x }) vs) };
}

impl<M: Steady> SteadyCell<M> {
    /// A cell of a name that nothing else has, and its token.
    pub fn new(value: M) -> (SteadyCell<M>, CellToken)
        requires { M.sound value }
        ensures { (result.1.name ≡ result.0.name) × (result.1.value ≡ M.row.coded.code value) × (result.0.label ≡ M.label value) }
    {
        let token = CellToken {
            marker: PhantomData,
        };
        (SteadyCell { value }, token)
    }

    /// The value, wherever the token is.
    pub fn into_value(self) -> M
        ensures { keeps M.label M.sound self.label result }
    {
        let Self { value } = self;
        value
    }

    /// The cell has another name, which nothing else has, and this is its token: what became of the one before does not matter. The value
    /// and its label are as they were. Nothing is done when the program runs.
    pub fn renew(&mut self) -> CellToken
        ensures { (result.name ≡ self.new.name) × (self.new.label ≡ self.old.label) }
    {
        CellToken {
            marker: PhantomData,
        }
    }
}

impl<M: Steady + Drop> Drop for SteadyCell<M> {
    fn drop(self) {
        drop(self.into_value());
    }
}

// Only who has the token sees the value, on whatever thread.
unsafe impl<M: Steady + Send> Send for SteadyCell<M> {}

unsafe impl<M: Steady + Send> Sync for SteadyCell<M> {}
