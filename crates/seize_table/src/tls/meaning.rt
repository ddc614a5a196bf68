//! Names of values. What is known of an entry is said by its value's name, so it can be said without the value's type. It uses no other
//! module; `cells` names the value of each entry.
ghost use Rattle.std.specs.Prelude.{◌≡◌, ℕ};
ghost use denote.Sharing.{said};
ghost use Rattle.seize_table.specs.Meaning.{means};

use std::marker::{Model, PhantomData};

/// What shows which value a name means, for good. It takes no bytes.
pub(super) struct Meaning<T> {
    marker: PhantomData<*const T>,
    pub(super) ghost name: { ℕ },
    pub(super) ghost value: { T } by { T.code },
}

impl<T> Model for Meaning<T> {
    ghost also_owns = { λ m. means T.row m.name m.value };

    ghost also_shares = { λ m _ κ. said (means T.row m.name m.value) κ };
}

impl<T> Meaning<T> {
    /// Gives the value a new name.
    pub(super) fn of(value: &T) -> Meaning<T>
        ensures { result.value ≡ value.now }
    {
        Meaning {
            marker: PhantomData,
        }
    }

    /// A copy.
    pub(super) fn again(&self) -> Meaning<T>
        ensures { result ≡ self.now }
    {
        Meaning {
            marker: PhantomData,
        }
    }

    /// A name means one value. It does nothing: its contract is the law.
    pub(super) fn agree(&self, other: &Meaning<T>)
        requires { self.now.name ≡ other.now.name }
        ensures { self.now.value ≡ other.now.value }
    {}
}

impl<T> Drop for Meaning<T> {
    fn drop(self) {
        let Self { marker: _ } = self;
    }
}

unsafe impl<T> Send for Meaning<T> {}

unsafe impl<T> Sync for Meaning<T> {}
