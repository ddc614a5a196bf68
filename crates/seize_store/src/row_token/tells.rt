//! How a token comes from a note of the row's cell, how it is copied, and that two of one row agree. The token is that of `row_token`.
ghost use Rattle.std.specs.Prelude.{◌≡◌, Some};
ghost use Rattle.seize_store.specs.RowTokens.{row_name};
ghost use Rattle.seize_store.specs.Titled.{IsSeen, ShowsRow};

use super::RowToken;
use crate::kin::NoteOf;
use crate::row::{Row, Rows};
use seize_table::Labelled;
use std::marker::PhantomData;

impl RowToken {
    // Of a note that knows the row of this index.
    pub(crate) fn of<H: Labelled + Drop, P: Labelled + Drop, T>(
        rows: &Rows<H, P, T>,
        index: usize,
        note: &mut NoteOf<Row<H, P, T>>,
    ) -> RowToken
        requires { IsSeen rows.now index note.old }
        ensures { (note.new ≡ note.old) × ShowsRow rows.now index note.old result }
    {
        RowToken {
            marker: PhantomData,
        }
    }

    // A note of the row's cell knows the row then.
    pub(crate) fn tell<H: Labelled + Drop, P: Labelled + Drop, T>(
        &self,
        note: &mut NoteOf<Row<H, P, T>>,
    )
        requires { note.old.cell ≡ row_name self.now.store self.now.row }
        ensures { (note.new.cell ≡ note.old.cell) × (note.new.known ≡ Some self.now.chunks) }
    {}

    /// A copy, as for another thread.
    pub fn again(&self) -> RowToken
        ensures { result ≡ self.now }
    {
        RowToken {
            marker: PhantomData,
        }
    }

    /// Two tokens of one row of one store say the same.
    pub fn agree(&self, other: &RowToken)
        requires { (self.now.store ≡ other.now.store) × (self.now.row ≡ other.now.row) }
        ensures { self.now.chunks ≡ other.now.chunks }
    {}
}
