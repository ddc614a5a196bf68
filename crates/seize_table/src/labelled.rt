//! The label of a value, by which a layer that doesn't know its type tells it from others. It uses no other module; `tls` keeps the
//! label of each entry.
ghost use Rattle.std.specs.Prelude.{ℕ};

/// What contracts see of a value that stays where it was put: its label, a number of its maker's own.
///
/// What a `Labelled` is labelled with is fixed when it is made, as a ghost field is.
pub trait Labelled {
    ghost label: { Self → ℕ };
}

/// Says nothing.
impl Labelled for () {
    ghost label = { λ _. 0 };
}

/// A number is its own label.
impl Labelled for u64 {
    ghost label = { λ number. number };
}

/// A number is its own label.
impl Labelled for usize {
    ghost label = { λ number. number };
}
