//! How a token of an entry comes from what notes of the table's cells know, and tells notes the same in turn. The token is that of
//! `filled_at`.
ghost use Rattle.std.specs.Prelude.{◌≡◌, ℕ, IfSome, Some};
ghost use Rattle.seize_table.specs.Filled.{names_of, name_in};
ghost use Rattle.seize_table.specs.Named.{cells_of};
ghost use Rattle.seize_table.specs.Table.{Cell as OneCell, IsCell};

use super::FilledAt;
use crate::Labelled;
use crate::thread_id::Thread;
use crate::tls::ThreadLocal;
use crate::tls::cells::{Cell, Entry, Row};
use once_cell::race::Note;
use std::marker::PhantomData;

impl FilledAt {
    // Of notes that know the bucket of that place and its entry.
    pub(in crate::tls) fn of<T: Labelled>(
        table: &ThreadLocal<T>,
        thread: &Thread,
        row: &mut Note<Row<T>>,
        item: &mut Note<Option<Entry<T>>>,
    ) -> FilledAt
        requires { (row.old.cell ≡ name_in (names_of (cells_of table.now)) thread.now.bucket)
            × ((cell : OneCell) × IsCell row.old thread.now.entry cell × (item.old.cell ≡ cell.1))
            × ((label value : ℕ) × (item.old.known ≡ Some (Some (label, value)))) }
        ensures { (row.new ≡ row.old) × (item.new ≡ item.old) × (result.table ≡ names_of (cells_of table.now))
            × (result.number ≡ thread.now.id) × ((value : ℕ) × (item.old.known ≡ Some (Some (result.label, value)))) }
    {
        FilledAt {
            marker: PhantomData,
        }
    }

    // The note of the entry's bucket knows it then, and what it knew.
    pub(in crate::tls) fn tell_row<T: Labelled>(&self, thread: &Thread, row: &mut Note<Row<T>>)
        requires { (self.now.number ≡ thread.now.id) × (row.old.cell ≡ name_in self.now.table thread.now.bucket) }
        ensures { (row.new.cell ≡ row.old.cell) × ((cell : OneCell) × IsCell row.new thread.now.entry cell)
            × IfSome row.old.known (λ r. row.new.known ≡ Some r) }
    {}

    // The note of the entry's cell, in the bucket that the other note knows, knows its value's label then.
    pub(in crate::tls) fn tell_item<T: Labelled>(
        &self,
        thread: &Thread,
        row: &mut Note<Row<T>>,
        item: &mut Note<Option<Entry<T>>>,
    )
        requires { (self.now.number ≡ thread.now.id) × (row.old.cell ≡ name_in self.now.table thread.now.bucket)
            × ((cell : OneCell) × IsCell row.old thread.now.entry cell × (item.old.cell ≡ cell.1)) }
        ensures { (row.new ≡ row.old) × (item.new.cell ≡ item.old.cell)
            × ((value : ℕ) × (item.new.known ≡ Some (Some (self.now.label, value)))) }
    {}

    // The value of the entry's cell, in the bucket that the note knows.
    pub(in crate::tls) fn read<'a, T: Labelled>(
        &self,
        thread: &Thread,
        row: &mut Note<Row<T>>,
        cell: &'a Cell<T>,
    ) -> &'a T
        requires entry { (self.now.number ≡ thread.now.id) × (row.old.cell ≡ name_in self.now.table thread.now.bucket) }
        requires cell { IsCell row.old thread.now.entry cell.now }
        ensures { (row.new ≡ row.old) × (T.label result.now ≡ self.now.label) }
    {
        let mut item = cell.note();
        self.tell_item(thread, row, &mut item);
        let Some(Some(entry)) = cell.get_as(&mut item) else {
            unreachable!()
        };
        let (value, _) = entry.get();
        value
    }
}
