//! Which family the chunks of a store are of: their labels say so. It uses no other module; a store is made with one, and so are its cells.
ghost use Rattle.std.specs.Prelude.{◌≡◌, ℕ};
ghost use base.Fml.{ftrue};

use std::marker::{Model, PhantomData};

/// A family, of which all chunks of a store are. It takes no bytes.
///
/// A crate above that has families of its own makes one with the number: a proof by hand has nothing to show for it.
pub struct Family {
    /// Nothing.
    pub marker: PhantomData<()>,
    /// The number of the family.
    pub ghost number: { ℕ },
}

impl Model for Family {
    ghost also_owns = { λ _. ftrue };
}

impl Family {
    /// The family of this number.
    pub fn new(number: u64) -> Family
        ensures { result.number ≡ number }
    {
        Family {
            marker: PhantomData,
        }
    }

    /// The same family.
    pub fn again(&self) -> Family
        ensures { result ≡ self.now }
    {
        Family {
            marker: PhantomData,
        }
    }
}

impl Drop for Family {
    fn drop(self) {
        let Self { marker: _ } = self;
    }
}

unsafe impl Send for Family {}

unsafe impl Sync for Family {}
