//! What shows that an entry of a table is filled, free of the type of its value. `tls` makes it of a `Filled` and reads the entry by it.
ghost use Rattle.std.specs.Prelude.{◌≡◌, ℕ, List};
ghost use base.Stored.{coded_list, coded_ℕ};
ghost use denote.Sharing.{said};
ghost use Rattle.seize_table.specs.Filled.{filled_at};

mod tells;

use std::marker::{Model, PhantomData};

/// What shows that one entry of one table is filled, and what its value is labelled with, for good. It takes no bytes, and names no type
/// of values, so a layer that doesn't know the type can keep it.
pub struct FilledAt {
    pub(super) marker: PhantomData<()>,
    /// The table: the names of its buckets' cells.
    pub ghost table: { List ℕ } by { coded_list coded_ℕ },
    /// The entry's number.
    pub ghost number: { ℕ },
    /// The label of the entry's value.
    pub ghost label: { ℕ },
}

impl Model for FilledAt {
    ghost also_owns = { λ f. filled_at f.table f.number f.label };

    ghost also_shares = { λ f _ κ. said (filled_at f.table f.number f.label) κ };
}

impl FilledAt {
    /// A copy, as for another thread.
    pub fn again(&self) -> FilledAt
        ensures { result ≡ self.now }
    {
        FilledAt {
            marker: PhantomData,
        }
    }

    /// Two tokens of one entry of one table have one label. It does nothing: its contract is the law.
    pub fn agree(&self, other: &FilledAt)
        requires { (self.now.table ≡ other.now.table) × (self.now.number ≡ other.now.number) }
        ensures { self.now.label ≡ other.now.label }
    {}
}

impl Drop for FilledAt {
    fn drop(self) {
        let Self { marker: _ } = self;
    }
}

unsafe impl Send for FilledAt {}

unsafe impl Sync for FilledAt {}
