//! What shows that the first entries of a table are filled, free of the type of their values. A layer above makes it of what it knows of
//! each of them, and `first` walks over the entries by it.
ghost use Rattle.std.specs.Prelude.{◌≡◌, ℕ, ◌<◌, List, length, get_or};
ghost use base.Stored.{coded_list, coded_ℕ};
ghost use denote.Sharing.{said};
ghost use Rattle.seize_table.specs.Filled.{all_filled};

use crate::tls::filled_at::FilledAt;
use std::marker::{Model, PhantomData};

/// What shows that so many first entries of one table are filled, and what their values are labelled with, for good. It takes no bytes.
pub struct AllFilled {
    /// Nothing.
    pub marker: PhantomData<()>,
    /// The table: the names of its buckets' cells.
    pub ghost table: { List ℕ } by { coded_list coded_ℕ },
    /// The labels of the first entries' values, from number 0 on.
    pub ghost labels: { List ℕ } by { coded_list coded_ℕ },
}

impl Model for AllFilled {
    ghost also_owns = { λ a. all_filled a.table a.labels };

    ghost also_shares = { λ a _ κ. said (all_filled a.table a.labels) κ };
}

impl AllFilled {
    /// What shows one of them.
    pub fn get(&self, number: usize) -> FilledAt
        requires { number < length self.now.labels }
        ensures entry { (result.table ≡ self.now.table) × (result.number ≡ number) × (result.label ≡ get_or self.now.labels number 0) }
    {
        FilledAt {
            marker: PhantomData,
        }
    }
}

impl Drop for AllFilled {
    fn drop(self) {
        let Self { marker: _ } = self;
    }
}

unsafe impl Send for AllFilled {}

unsafe impl Sync for AllFilled {}
