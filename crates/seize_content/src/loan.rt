//! A loan of a content, under a lifetime of its own: what is left with the lender, and what a reader has. Nothing here has bytes, and
//! nothing knows the value's type.
ghost use Rattle.std.specs.Prelude.{◌≡◌, ℕ};
ghost use base.Stored.{Gv};
ghost use denote.Struct.Codes.{itself};
ghost use Rattle.seize_content.specs.Contents.{pool_owns, pool_shares, sight_owns};

use std::marker::{Model, PhantomData};

/// The whole token of a loan's lifetime. While it is shared the value can be seen; whoever has it whole can end the loan.
#[derive(Drop)]
pub struct Pool {
    /// It has no bytes, as that of a sight.
    pub marker: PhantomData<()>,
    /// Which content is lent.
    pub ghost name: { ℕ },
    /// The loan's lifetime.
    pub ghost life: { ℕ },
    /// The code of the value.
    pub ghost value: { Gv } by { itself },
}

impl Model for Pool {
    ghost also_owns = { λ p. pool_owns p.name p.life p.value };

    ghost also_shares = { λ p _ κ. pool_shares p.name p.life p.value κ };
}

/// What a reader found: a content that is lent, for `'g` or longer.
#[derive(Drop)]
pub struct Sight<'g> {
    /// It has no bytes. Who takes a sight apart has nothing of it, and who makes one has to show what it owns.
    pub marker: PhantomData<&'g ()>,
    /// Which content it is.
    pub ghost name: { ℕ },
    /// The loan's lifetime.
    pub ghost life: { ℕ },
    /// The code of the value.
    pub ghost value: { Gv } by { itself },
}

impl<'g> Model for Sight<'g> {
    ghost also_owns = { λ s. sight_owns 'g s.name s.life s.value };
}

impl Pool {
    ghost use Rattle.seize_content.specs.Loans.{SightOf};

    /// Sees what is lent, for as long as the pool is borrowed.
    pub fn sight(&self) -> Sight<'_>
        ensures { SightOf self.now result }
    {
        Sight {
            marker: PhantomData,
        }
    }
}

unsafe impl Send for Pool {}

unsafe impl Sync for Pool {}

unsafe impl<'g> Send for Sight<'g> {}
