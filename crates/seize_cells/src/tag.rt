//! A label had as a value of its own, for what has to name it where the value itself is out of its place. `local_cell` makes it.
ghost use Rattle.std.specs.Prelude.{ℕ};
ghost use base.Fml.{ftrue};

use std::marker::{Model, PhantomData};

/// A number that proofs alone see. It gives no right, and has no bytes.
#[derive(Drop)]
pub(crate) struct Tag {
    pub(crate) marker: PhantomData<()>,
    /// The number.
    pub(crate) ghost name: { ℕ },
}

impl Model for Tag {
    ghost also_owns = { λ _. ftrue };
}

unsafe impl Send for Tag {}

unsafe impl Sync for Tag {}
