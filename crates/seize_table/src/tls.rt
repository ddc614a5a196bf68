//! A table of values that threads share without a lock. It only grows, and a value stays where it was put. It uses
//! `thread_id` for the places of its entries and `refusal`; the collector keeps its slots in one.
ghost use Rattle.std.specs.Prelude.{◌≡◌, ◌↔◌, ◌+◌, ◌<◌, ◌≤◌, Err, length, IfOk, IfErr, IfSome, Some, ◌⊎◌};
ghost use Rattle.seize_table.specs.Table.{IsBucket, IsCell, IsOf, ShowsEntry};
ghost use Rattle.seize_table.specs.declared.refusal.Refusal.TheVariants.{NoMemory, NoNumbers};

mod all_filled;
mod cells;
mod filled;
mod filled_at;
mod first;
mod iter;
mod meaning;
mod opened;

use crate::thread_id::{BUCKETS, MAX_INDEX, Thread};
use crate::{Labelled, Refusal};
pub use all_filled::AllFilled;
use cells::{Cell, Entry, Item, Room, Row};
pub use filled::{Filled, Loaded};
pub use filled_at::FilledAt;
pub use first::First;
pub use iter::Iter;
use iter::first_filled;
use once_cell::race::{Note, OnceBox};
use opened::Opened;
use std::alloc::{AllocError, Global};
use std::array;

/// A table with an entry for each number from 0 to `MAX_INDEX`. An entry is filled at most once.
#[derive(Drop)]
pub struct ThreadLocal<T: Labelled> {
    buckets: [OnceBox<Row<T>>; 59],
    alloc: Global,
    ghost all_there: { 59 ≡ length buckets },
}

impl<T: Labelled + Drop> ThreadLocal<T> {
    ghost use Rattle.seize_table.specs.Named.{cells_of, name_of, stands_at, table_of};
    ghost use Rattle.seize_table.specs.Walk.{walk_end, walk_labels, walk_next};

    /// A table with the buckets of the numbers from 0 to `capacity`, and no entry filled. Further buckets are made as they are
    /// needed, and the memory is given back when the table ends.
    ///
    /// # Errors
    ///
    /// `NoNumbers` where `capacity` is above `MAX_INDEX`, and only then; `NoMemory` where a growth was refused. After either nothing is
    /// kept.
    pub fn with_capacity(alloc: Global, capacity: usize) -> Result<ThreadLocal<T>, Refusal>
        ensures refusals { IfErr result (λ e. (e ≡ NoNumbers) ⊎ (e ≡ NoMemory)) }
        ensures no_numbers { (result ≡ Err NoNumbers) ↔ (MAX_INDEX < capacity) }
    {
        let Some(last) = Thread::new(capacity) else {
            return Err(Refusal::NoNumbers);
        };
        let table = ThreadLocal {
            buckets: array::from_fn(move |_| OnceBox::new(alloc)),
            alloc,
        };
        for bucket in 0..last.bucket + 1 {
            let mut note = table.buckets[bucket].note();
            table.row(bucket, &mut note)?;
        }
        Ok(table)
    }

    /// How many buckets are made, from 1 to `BUCKETS`. It looks at each bucket, and takes no memory.
    pub fn buckets(&self) -> usize
        ensures { result ≤ BUCKETS }
    {
        self.buckets
            .iter()
            .filter(|bucket| bucket.get().is_some())
            .count()
    }

    /// The filled entries' values, by bucket and then by entry. It takes no memory.
    pub fn iter(&self) -> Iter<'_, T>
        ensures table { (table_of result).now ≡ self.now }
        ensures start { stands_at result ≡ 0 }
    {
        Iter::new(self)
    }

    /// The values of the first `count` entries, which are all filled as the token shows, by number. It takes no memory.
    pub fn first<'a>(&'a self, count: usize, all: &'a AllFilled) -> First<'a, T>
        requires table { all.now.table ≡ name_of self.now }
        requires filled { count ≤ length all.now.labels }
        requires in_table { count ≤ MAX_INDEX + 1 }
        ensures start { walk_next result ≡ 0 }
        ensures end { walk_end result ≡ count }
        ensures labels { walk_labels result ≡ all.now.labels }
    {
        First::new(self, count, all)
    }

    // The first filled entry of the bucket that is not before `from`.
    fn first_from(&self, bucket: usize, from: usize) -> Option<(Thread, Loaded<'_, T>)>
        requires { bucket < BUCKETS }
        ensures place { IfSome result (λ found. (found.0.bucket ≡ bucket) × (from ≤ found.0.entry)) }
        ensures shown { IfSome result (λ found. ShowsEntry T.label (cells_of self.now) found.0 found.1.filled found.1.value.now) }
    {
        let mut row = self.buckets[bucket].note();
        let cells = self.buckets[bucket].get_as(&mut row)?;
        let end = Thread::bucket_capacity(bucket);
        let (entry, value, item) = first_filled(cells, from, end)?;
        let filled = Filled { row, item };
        Some((Thread::at(bucket, entry), Loaded { value, filled }))
    }

    // The bucket, which is made where it isn't yet. A bucket that another thread makes first is kept in place of this one.
    fn row<'a>(&'a self, bucket: usize, note: &mut Note<Row<T>>) -> Result<&'a Row<T>, Refusal>
        requires bucket { bucket < BUCKETS }
        requires cell { IsBucket (cells_of self.now) bucket note.old.cell }
        ensures cell { note.new.cell ≡ note.old.cell }
        ensures known { IfOk result (λ row. note.new.known ≡ Some row.now) }
        ensures refusal { IfErr result (λ e. e ≡ NoMemory) }
    {
        let alloc = self.alloc;
        let capacity = Thread::bucket_capacity(bucket);
        Ok(self.buckets[bucket].get_or_try_init_as(move || cells::row(alloc, capacity), note)?)
    }

    // All the memory of a fill: a box for the entry's value, and then the entry's cell, in its bucket, which is made where it isn't yet. So
    // a refusal leaves the table as it was. A bucket is made with a cell for each of its entries, so the refusal below is only that of
    // memory: the bucket's own cell does not say how many entries the bucket has.
    fn room<'a>(
        &'a self,
        thread: Thread,
        note: &mut Note<Row<T>>,
    ) -> Result<(Room<T>, &'a Cell<T>), Refusal>
        requires { IsBucket (cells_of self.now) thread.bucket note.old.cell }
        ensures bucket { note.new.cell ≡ note.old.cell }
        ensures cell { IfOk result (λ room. IsCell note.new thread.entry room.1.now) }
        ensures refusal { IfErr result (λ e. e ≡ NoMemory) }
    {
        let room = Box::new(self.alloc, None).map_err(AllocError::from)?;
        match self.row(thread.bucket, note)?.get(thread.entry) {
            Some(cell) => Ok((room, cell)),
            None => Err(Refusal::NoMemory),
        }
    }

    // Fills the entry where it isn't filled yet. All memory is there before `create` is called. An entry that is in its cell has a value,
    // so the last refusal is that of no call: the cell does not tell a proof what another thread put in.
    fn fill<F: FnOnce() -> T>(&self, create: F, thread: Thread) -> Result<Loaded<'_, T>, Refusal>
    where
        F: Drop,
        requires { F.pre create }
        ensures shown { IfOk result (λ found. ShowsEntry T.label (cells_of self.now) thread found.filled found.value.now) }
        ensures refusal { IfErr result (λ e. e ≡ NoMemory) }
    {
        let mut row = self.buckets[thread.bucket].note();
        let (room, cell) = self.room(thread, &mut row)?;
        let mut note = cell.note();
        match cell.get_or_init_as(move || cells::filled(room, create), &mut note) {
            Some(entry) => {
                let (value, meaning) = entry.get();
                let item = Item { note, meaning };
                let filled = Filled { row, item };
                Ok(Loaded { value, filled })
            }
            None => Err(Refusal::NoMemory),
        }
    }

    /// Puts the value into the entry, if that isn't filled, and gives the token that shows it from then on.
    ///
    /// # Errors
    ///
    /// The value comes back where a growth was refused, or where the entry is filled already. Then the table is as it was.
    pub fn put(&self, value: T, thread: Thread) -> Result<Filled<T>, T>
        ensures shown { IfOk result (λ filled. ShowsEntry T.label (cells_of self.now) thread filled value) }
        ensures back { IfErr result (λ back. back ≡ value) }
    {
        let mut row = self.buckets[thread.bucket].note();
        let Ok((mut room, cell)) = self.room(thread, &mut row) else {
            return Err(value);
        };
        let (entry, meaning) = Entry::named(value);
        Box::replace(&mut room, Some(entry));
        let mut note = cell.note();
        let Err(back) = cell.set_as(room, &mut note) else {
            let item = Item { note, meaning };
            return Ok(Filled { row, item });
        };
        match Box::into_inner(back) {
            Some(entry) => Err(entry.back(&meaning)),
            None => unreachable!(),
        }
    }

    /// The entry's value, if it is filled, with the token that shows it from then on. It takes no memory and changes nothing:
    /// three loads, of which two depend on one before them, and no atomic write.
    pub fn try_load(&self, thread: Thread) -> Option<Loaded<'_, T>>
        ensures { IfSome result (λ found. ShowsEntry T.label (cells_of self.now) thread found.filled found.value.now) }
    {
        let mut row = self.buckets[thread.bucket].note();
        let cell = self.buckets[thread.bucket]
            .get_as(&mut row)?
            .get(thread.entry)?;
        let mut note = cell.note();
        let (value, meaning) = cell.get_as(&mut note)?.as_ref()?.get();
        let item = Item { note, meaning };
        let filled = Filled { row, item };
        Some(Loaded { value, filled })
    }

    /// The entry's value. Where the entry isn't filled, it is filled with what `create` answers; where another thread fills it
    /// first, that thread's value stays, this one's is ended, and both calls answer the value that stays.
    ///
    /// The entry's own memory and its bucket are made here, where they aren't yet, before `create` is called, and stay until the table
    /// ends. Where the entry is filled, `create` is not called, and no memory is taken.
    ///
    /// # Errors
    ///
    /// `NoMemory` where a growth was refused; then the table is as it was, and `create` was not called.
    pub fn load_or<F: Fn() -> T>(&self, create: F, thread: Thread) -> Result<Loaded<'_, T>, Refusal>
    where
        F: Drop,
        requires { F.IsAlwaysCallable create }
        ensures shown { IfOk result (λ found. ShowsEntry T.label (cells_of self.now) thread found.filled found.value.now) }
        ensures refusal { IfErr result (λ e. e ≡ NoMemory) }
    {
        match self.try_load(thread) {
            Some(found) => Ok(found),
            None => self.fill(create, thread),
        }
    }

    /// The value of an entry that was seen filled. It takes no memory and changes nothing.
    pub fn value<'a>(&'a self, thread: Thread, filled: &mut Filled<T>) -> &'a T
        requires { IsOf T.label (cells_of self.now) thread filled.old }
        ensures value { ShowsEntry T.label (cells_of self.now) thread filled.new result.now }
        ensures same { (x : T) → ShowsEntry T.label (cells_of self.now) thread filled.old x → result.now ≡ x }
    {
        let Some(row) = self.buckets[thread.bucket].get_as(&mut filled.row) else {
            unreachable!()
        };
        let Some(Some(entry)) = row[thread.entry].get_as(&mut filled.item.note) else {
            unreachable!()
        };
        let (value, meaning) = entry.get();
        filled.item.meaning.agree(&meaning);
        value
    }

    /// What shows that the entry is filled, free of the type of its value. It does nothing else.
    pub fn filled_at(&self, thread: Thread, filled: &mut Filled<T>) -> FilledAt
        requires { IsOf T.label (cells_of self.now) thread filled.old }
        ensures token { filled.new ≡ filled.old }
        ensures entry { (result.table ≡ name_of self.now) × (result.number ≡ thread.id) }
        ensures label { (x : T) → ShowsEntry T.label (cells_of self.now) thread filled.old x → result.label ≡ T.label x }
    {
        FilledAt::of(self, &thread, &mut filled.row, &mut filled.item.note)
    }

    /// The value of an entry that a token shows to be filled. It takes no memory and changes nothing: three loads, of which two depend on
    /// one before them, and no atomic write.
    pub fn at(&self, thread: Thread, token: &FilledAt) -> &T
        requires { (token.now.table ≡ name_of self.now) × (token.now.number ≡ thread.id) }
        ensures { T.label result.now ≡ token.now.label }
    {
        Opened::of(self, &thread, token).read(&thread, token)
    }

    /// Two tokens of one entry show one value. It does nothing else.
    pub fn agree(&self, thread: Thread, one: &mut Filled<T>, other: Filled<T>)
        requires one { IsOf T.label (cells_of self.now) thread one.old }
        requires other { IsOf T.label (cells_of self.now) thread other }
        ensures { (x y : T) → ShowsEntry T.label (cells_of self.now) thread one.old x
            → ShowsEntry T.label (cells_of self.now) thread other y → x ≡ y }
    {
        let Filled { row, item } = other;
        one.row.compare(row);
        one.item.note.compare(item.note);
        one.item.meaning.agree(&item.meaning);
    }
}

impl<T: Labelled + Drop + Default> ThreadLocal<T> {
    ghost use Rattle.seize_table.specs.Named.{cells_of};

    /// As `load_or`, with the default value of `T`, which is made only where the entry isn't filled and its memory is there.
    ///
    /// # Errors
    ///
    /// As `load_or`: `NoMemory` where a growth was refused; then the table is as it was, and no default was made.
    pub fn load(&self, thread: Thread) -> Result<Loaded<'_, T>, Refusal>
        ensures shown { IfOk result (λ found. ShowsEntry T.label (cells_of self.now) thread found.filled found.value.now) }
        ensures refusal { IfErr result (λ e. e ≡ NoMemory) }
    {
        self.load_or(|| T::default(), thread)
    }
}
