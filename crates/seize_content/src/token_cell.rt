//! A cell whose value lies in place. Threads share it by `&`, and whoever has its one token reads and writes the value by plain accesses to
//! memory. There is no lock and no pointer: where the token goes is the caller's affair.
ghost use Rattle.std.specs.Prelude.{◌≡◌, ℕ};
ghost use base.Stored.{Gv};
ghost use denote.Sharing.{nothing};
ghost use denote.Struct.Codes.{itself};
ghost use Rattle.seize_content.specs.Cells.{CellName, anything, cell_name_coded, cell_owns, cell_shares, cell_token};

use std::marker::{Model, Move, Owns, PhantomData};

/// A value in its place. In a clause a cell is its name, which it keeps while it is shared.
pub struct TokenCell<M> {
    value: M,
}

impl<M> Owns for TokenCell<M> {
    ghost Value = { CellName };

    ghost coded = { cell_name_coded };

    ghost shr_at = { λ c p κ. cell_shares M.row anything c.name p κ };
}

impl<M> Move for TokenCell<M> {
    ghost own_val = { λ c vs. cell_owns M.row anything c.name (λ x. Fields.own_val (record { value = x }) vs) };
}

/// Who has it reads and writes the value of one cell, and knows it. It knows nothing of the value's type.
#[derive(Drop)]
pub struct CellToken {
    /// It has no bytes. Who takes a token apart has nothing of it, and who makes one has to show what it owns.
    pub marker: PhantomData<()>,
    /// Which cell it is of.
    pub ghost name: { ℕ },
    /// The code of the value that lies there.
    pub ghost value: { Gv } by { itself },
}

impl Model for CellToken {
    ghost also_owns = { λ t. cell_token t.name t.value };

    ghost also_shares = { λ _ _ κ. nothing κ };
}

impl<M> TokenCell<M> {
    /// A cell of a name that nothing else has, and its token.
    pub fn new(value: M) -> (TokenCell<M>, CellToken)
        ensures { (result.1.name ≡ result.0.name) × (result.1.value ≡ M.row.coded.code value) }
    {
        let token = CellToken {
            marker: PhantomData,
        };
        (TokenCell { value }, token)
    }

    // The value, wherever the token is.
    fn into_value(self) -> M {
        let Self { value } = self;
        value
    }

    /// Writes a value there, and gives what lay there.
    pub fn replace(&self, token: &mut CellToken, value: M) -> M
        requires { token.old.name ≡ self.now.name }
        ensures token { (token.new.name ≡ token.old.name) × (token.new.value ≡ M.row.coded.code value) }
        ensures value { M.row.coded.code result ≡ token.old.value }
    {
        let at = (self as *const TokenCell<M>).cast::<M>().cast_mut();
        unsafe {
            let old = at.read();
            at.write(value);
            old
        }
    }
}

impl<M: Copy> TokenCell<M> {
    /// Reads the value. The token stays as it was.
    pub fn get(&self, token: &mut CellToken) -> M
        requires { token.old.name ≡ self.now.name }
        ensures token { (token.new.name ≡ token.old.name) × (token.new.value ≡ token.old.value) }
        ensures value { M.row.coded.code result ≡ token.old.value }
    {
        unsafe { *(self as *const TokenCell<M>).cast::<M>() }
    }

    /// Writes a value there.
    pub fn set(&self, token: &mut CellToken, value: M)
        requires { token.old.name ≡ self.now.name }
        ensures { (token.new.name ≡ token.old.name) × (token.new.value ≡ M.row.coded.code value) }
    {
        let _ = self.replace(token, value);
    }
}

impl<M: Drop> Drop for TokenCell<M> {
    fn drop(self) {
        drop(self.into_value());
    }
}

// Only who has the token sees the value, on whatever thread.
unsafe impl<M: Send> Send for TokenCell<M> {}

unsafe impl<M: Send> Sync for TokenCell<M> {}

unsafe impl Send for CellToken {}

unsafe impl Sync for CellToken {}
