//! What one store alone has, so that two stores are told apart. It uses no other module; `row` keeps it beside the cells of the rows.
ghost use Rattle.std.specs.Prelude.{◌≡◌, ◌≢◌, ℕ};
ghost use types.Na.{out};

use std::marker::{Model, PhantomData};

/// A ghost name that has no second holder. It takes no bytes.
pub(crate) struct Identity {
    marker: PhantomData<()>,
    pub(crate) ghost name: { ℕ },
}

impl Model for Identity {
    ghost also_owns = { λ i. out i.name };
}

impl Identity {
    /// One of a new name.
    pub(crate) fn new() -> Identity {
        Identity {
            marker: PhantomData,
        }
    }

    /// Two that stand at once have different names. It does nothing: its contract says so.
    pub(crate) fn apart(&mut self, other: &mut Identity)
        ensures { (self.new ≡ self.old) × (other.new ≡ other.old) × (self.old.name ≢ other.old.name) }
    {}
}

impl Drop for Identity {
    fn drop(self) {
        let Self { marker: _ } = self;
    }
}

unsafe impl Send for Identity {}

unsafe impl Sync for Identity {}
