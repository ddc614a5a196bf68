//! The walk of a table: by bucket, then by entry. It stands on the table of `tls`, which begins it.
ghost use Rattle.std.specs.Prelude.{◌≡◌, ◌+◌, ◌-◌, ◌^◌, ◌<◌, ◌≤◌, IfSome, IfNone};
ghost use Rattle.std.specs.Iterator.{at_most};
ghost use Rattle.seize_table.specs.Table.{HasCell, ShowsEntry};

use super::cells::{Cell, Item};
use super::{Loaded, ThreadLocal};
use crate::Labelled;
use crate::thread_id::{BUCKETS, MAX_INDEX, Thread};

/// The values of the filled entries of a table, by bucket and then by entry, which is by number: each entry at most once. Each value comes
/// with the token that shows it from then on. It takes no memory.
///
/// An entry that was seen filled when the walk began is among them. Of an entry that another thread fills meanwhile it may
/// yield the value or not.
#[derive(Drop)]
pub struct Iter<'a, T: Labelled> {
    table: &'a ThreadLocal<T>,
    bucket: usize,
    entry: usize,
    ghost in_table: { bucket ≤ 59 },
    ghost within: { entry ≤ 2 ^ (bucket + 5) },
    ghost at_end: { 59 ≤ bucket → entry ≡ 0 },
}

impl<'a, T: Labelled + Drop> Iter<'a, T> {
    ghost use Rattle.seize_table.specs.Named.{bucket_of, cells_of, next_entry, stands_at, table_of};
    ghost use Rattle.seize_table.specs.Walk.{YieldsInOrder};

    pub(super) fn new(table: &'a ThreadLocal<T>) -> Iter<'a, T>
        ensures { ((table_of result).now ≡ table.now) × (bucket_of result ≡ 0) × (next_entry result ≡ 0) }
    {
        Iter {
            table,
            bucket: 0,
            entry: 0,
        }
    }

    /// The next filled entry: its place, and its value with the token that shows it from then on.
    pub fn next_seen(&mut self) -> Option<(Thread, Loaded<'a, T>)>
        ensures table { table_of self.new ≡ table_of self.old }
        ensures forward { stands_at self.old ≤ stands_at self.new }
        ensures in_table { stands_at self.new ≤ MAX_INDEX + 1 }
        ensures place { IfSome result (λ found. stands_at self.old ≤ found.0.id) }
        ensures past { IfSome result (λ found. stands_at self.new ≡ found.0.id + 1) }
        ensures shown { IfSome result
            (λ found. ShowsEntry T.label (cells_of (table_of self.old).now) found.0 found.1.filled found.1.value.now) }
        ensures none { IfNone result (stands_at self.new ≡ MAX_INDEX + 1) }
    {
        while self.bucket < BUCKETS {
            if let Some(found) = self.next_in_bucket() {
                return Some(found);
            }
            self.bucket += 1;
            self.entry = 0;
        }
        None
    }

    /// What the walk yields from here on: the values of as many entries, each entry by a greater number than the one before, and none that
    /// the walk has passed. It does nothing: its contract is the law.
    pub fn yields(&self)
        ensures { YieldsInOrder self.now }
    {}

    // The next filled entry of this bucket.
    fn next_in_bucket(&mut self) -> Option<(Thread, Loaded<'a, T>)>
        requires { bucket_of self.old < BUCKETS }
        ensures table { table_of self.new ≡ table_of self.old }
        ensures bucket { bucket_of self.new ≡ bucket_of self.old }
        ensures same_bucket { IfSome result (λ found. found.0.bucket ≡ bucket_of self.old) }
        ensures place { IfSome result (λ found. next_entry self.old ≤ found.0.entry) }
        ensures past { IfSome result (λ found. next_entry self.new ≡ found.0.entry + 1) }
        ensures shown { IfSome result
            (λ found. ShowsEntry T.label (cells_of (table_of self.old).now) found.0 found.1.filled found.1.value.now) }
        ensures none { IfNone result (next_entry self.new ≡ next_entry self.old) }
    {
        let found = self.table.first_from(self.bucket, self.entry)?;
        self.entry = found.0.entry + 1;
        Some(found)
    }
}

impl<'a, T: Labelled + Drop> Iterator for Iter<'a, T> {
    ghost use Rattle.seize_table.specs.Named.{stands_at};
    ghost use Rattle.seize_table.specs.Place.{all_numbers};
    ghost use Rattle.seize_table.specs.Walk.{WalksOn};

    type Item = Loaded<'a, T>;

    ghost next_gives = { WalksOn };

    ghost remaining = { λ it. at_most (all_numbers - stands_at it) };

    fn next(&mut self) -> Option<Loaded<'a, T>> {
        let (_thread, found) = self.next_seen()?;
        Some(found)
    }
}

// The first filled entry of the row that is neither before `from` nor past `end`.
pub(super) fn first_filled<T: Labelled + Drop>(
    row: &[Cell<T>],
    from: usize,
    end: usize,
) -> Option<(usize, &T, Item<T>)>
    ensures { IfSome result (λ found. (from ≤ found.0) × (found.0 < end) × HasCell T.label row.now found.0 found.2 found.1.now) }
{
    for entry in from..row.len().min(end) {
        let mut note = row[entry].note();
        if let Some(Some(filled)) = row[entry].get_as(&mut note) {
            let (value, meaning) = filled.get();
            return Some((entry, value, Item { note, meaning }));
        }
    }
    None
}
