//! A bucket that is made, as a token of one of its entries shows. `tls` reads an entry by it, and the walk of `first` all of a bucket's.
ghost use Rattle.std.specs.Prelude.{◌≡◌, Some};

use crate::Labelled;
use crate::thread_id::Thread;
use crate::tls::ThreadLocal;
use crate::tls::cells::Row;
use crate::tls::filled_at::FilledAt;
use once_cell::race::Note;

/// The cells of a bucket, with what shows that they are its.
#[derive(Drop)]
pub(super) struct Opened<'a, T: Labelled> {
    note: Note<Row<T>>,
    cells: &'a Row<T>,
    pub(super) bucket: usize,
    ghost known: { note.known ≡ Some cells.now },
}

impl<'a, T: Labelled + Drop> Opened<'a, T> {
    ghost use Rattle.seize_table.specs.Filled.{name_in};
    ghost use Rattle.seize_table.specs.Named.{name_of};
    ghost use Rattle.seize_table.specs.Opened.{bucket_by, name_by};

    /// The bucket of the entry that the token shows.
    pub(super) fn of(table: &'a ThreadLocal<T>, thread: &Thread, token: &FilledAt) -> Opened<'a, T>
        requires { (token.now.table ≡ name_of table.now) × (token.now.number ≡ thread.now.id) }
        ensures { (bucket_by result ≡ thread.now.bucket) × (name_by result ≡ name_in token.now.table thread.now.bucket) }
    {
        let bucket = thread.bucket;
        let mut note = table.buckets[bucket].note();
        token.tell_row(thread, &mut note);
        let Some(cells) = table.buckets[bucket].get_as(&mut note) else {
            unreachable!()
        };
        Opened {
            note,
            cells,
            bucket,
        }
    }

    /// The value of an entry of this bucket, which the token shows.
    pub(super) fn read(&mut self, thread: &Thread, token: &FilledAt) -> &'a T
        requires { (token.now.number ≡ thread.now.id) × (name_by self.old ≡ name_in token.now.table thread.now.bucket) }
        ensures same { (bucket_by self.new ≡ bucket_by self.old) × (name_by self.new ≡ name_by self.old) }
        ensures label { T.label result.now ≡ token.now.label }
    {
        token.tell_row(thread, &mut self.note);
        let cell = &self.cells[thread.entry];
        token.read(thread, &mut self.note, cell)
    }
}
