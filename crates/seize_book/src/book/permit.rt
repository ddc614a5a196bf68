//! Permits. A book has two lists of codes: those that may be lent with its values, and those of the pairs, before and after, that its links
//! may go through. Of each code in a list that list's condition holds. Nothing here has bytes.
ghost use Rattle.std.specs.Prelude.{◌≡◌, ℕ, List};
ghost use base.Stored.{Gv, gnil, coded_list, coded_ℕ};
ghost use denote.Sharing.{said};
ghost use Rattle.seize_book.specs.Permits.{all_permitted, knows_permits};

use crate::book::seen::Storage;
use std::marker::{Brand, Model, PhantomData};

/// What holds of each code in a list of a book whose blocks lie in this store.
pub trait Condition {
    ghost holds: { List ℕ → Gv → Type 0 };
}

/// A code, which is that of no value at hand. It is not there in the program: a caller passes `Brand`, and its proof picks the code.
pub trait Chosen {
    ghost code: { Gv };
}

impl Chosen for Brand {
    ghost code = { gnil };
}

/// These codes are in a list, for good. It doesn't know what holds of them: `Permits::check` says it.
#[derive(Drop)]
pub struct Permit {
    pub(crate) marker: PhantomData<()>,
    /// The list in which they stand.
    pub ghost list: { ℕ },
    /// The codes, by the numbers of loans: one more than a code's own number, and 0 stands for no code.
    pub ghost codes: { List ℕ } by { coded_list coded_ℕ },
}

impl Model for Permit {
    ghost also_owns = { λ p. all_permitted p.list p.codes };

    ghost also_shares = { λ p _ κ. said (all_permitted p.list p.codes) κ };
}

/// The permits that one look at the list gives.
#[derive(Drop)]
pub struct Permitted {
    /// For what is lent with each value that was ever named.
    pub named: Permit,
    /// For the pairs of all exchanges that were won, but for those of the first pass: what each of these links held, and what went in.
    pub pairs: Permit,
}

/// A list of codes. The condition holds of each of them. The list is there for good, and only grows.
pub struct Permits<C: Condition> {
    marker: PhantomData<C>,
    /// The list.
    pub ghost list: { ℕ },
    /// The store where the blocks of the book lie.
    pub ghost store: { List ℕ } by { coded_list coded_ℕ },
}

impl<C: Condition> Model for Permits<C> {
    ghost also_owns = { λ p. knows_permits (C.holds p.store) p.list };

    ghost also_shares = { λ p _ κ. said (knows_permits (C.holds p.store) p.list) κ };
}

impl<C: Condition> Permits<C> {
    ghost use Rattle.std.specs.Prelude.{[], ◌∷◌};
    ghost use Rattle.seize_book.specs.Loans.{loan_number};
    ghost use Rattle.seize_book.specs.Permits.{AllAre};

    /// A new list, for a book whose blocks lie in the store that `K` says.
    pub fn new<K: Storage>() -> Permits<C>
        ensures { result.store ≡ K.store }
    {
        Permits {
            marker: PhantomData,
        }
    }

    /// The code of this value comes into the list.
    pub fn permit<T>(&self, _value: &T) -> Permit
        requires { C.holds self.now.store (T.row.coded.code _value.now) }
        ensures { (result.list ≡ self.now.list) × (result.codes ≡ loan_number (T.row.coded.code _value.now) ∷ []) }
    {
        Permit {
            marker: PhantomData,
        }
    }

    /// This code comes into the list, which `K` says.
    pub fn permit_code<K: Chosen>(&self) -> Permit
        requires { C.holds self.now.store K.code }
        ensures { (result.list ≡ self.now.list) × (result.codes ≡ loan_number K.code ∷ []) }
    {
        Permit {
            marker: PhantomData,
        }
    }

    /// The condition holds of each code that the permit is for. The permit is spent. It does nothing when the program runs: its contract
    /// is the law.
    pub fn check(&self, permit: Permit)
        requires { permit.list ≡ self.now.list }
        ensures { AllAre (C.holds self.now.store) permit.codes }
    {
        let Permit { marker: _ } = permit;
    }
}

impl<C: Condition> Drop for Permits<C> {
    fn drop(self) {
        let Self { marker: _ } = self;
    }
}

unsafe impl Send for Permit {}

unsafe impl Sync for Permit {}

unsafe impl<C: Condition> Send for Permits<C> {}

unsafe impl<C: Condition> Sync for Permits<C> {}
