//! The code of a type, for facts about what a type with that parameter holds.
ghost use base.Stored.{Coded};
ghost use mathlib.Core.Path.{◌≡◌, refl};

/// Every type has a code, by which proofs name its values. There is nothing to implement: a struct that has an [`Alone`](crate::Alone) as a
/// field, for any `T`, writes this bound beside `Drop`.
pub trait Codes {
    ghost its: { Coded Self };

    /// It is that by which the parts of a collector name its values.
    ghost same: { its ≡ Self.row.coded };
}

impl<T> Codes for T {
    ghost its = { T.row.coded };

    ghost same = { refl };
}
