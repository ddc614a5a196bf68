//! What shows that an entry of a table is filled, and what a load answers. `tls` makes both, and passes them on to its callers.
ghost use Rattle.std.specs.Prelude.{◌≡◌};

use super::cells::{Item, Row};
use crate::Labelled;
use once_cell::race::Note;
use std::ops::Deref;

/// What shows that one entry of one table holds one value, for good. It takes no bytes.
#[derive(Drop)]
pub struct Filled<T: Labelled> {
    pub(super) row: Note<Row<T>>,
    pub(super) item: Item<T>,
}

impl<T: Labelled> Filled<T> {
    /// A copy, as for another thread.
    pub fn again(&mut self) -> Filled<T>
        ensures { (self.new ≡ self.old) × (result ≡ self.old) }
    {
        Filled {
            row: self.row.again(),
            item: Item {
                note: self.item.note.again(),
                meaning: self.item.meaning.again(),
            },
        }
    }
}

/// What a load answers: the entry's value, and the token that shows it from then on. It is as large as a `&T`, and reads as `T`.
#[derive(Drop)]
pub struct Loaded<'a, T: Labelled> {
    /// The value, for as long as the table is borrowed.
    pub value: &'a T,
    /// What shows the value.
    pub filled: Filled<T>,
}

impl<T: Labelled> Deref for Loaded<'_, T> {
    type Target = T;

    fn deref(&self) -> &T
        ensures { result.now ≡ self.now.value.now }
    {
        self.value
    }
}
