//! The boxes that a table is made of: those of its buckets and of its entries. Only `tls` and its modules use it.
ghost use Rattle.std.specs.Prelude.{◌≡◌, vec_len, IfOk, IfSome};

use super::meaning::Meaning;
use crate::Labelled;
use once_cell::race::{Note, OnceBox};
use std::alloc::{AllocError, Global};
use std::marker::Model;

/// A value that is in an entry for good, seen as its label and its name: what is known of an entry can then be said without the type of
/// its value.
#[derive(Drop)]
pub(super) struct Entry<T: Labelled> {
    value: T,
    meaning: Meaning<T>,
    ghost same: { meaning.value ≡ value },
}

impl<T: Labelled> Model for Entry<T> {
    ghost use base.Stored.{coded×, coded_ℕ};
    ghost use Rattle.std.specs.Prelude.{ℕ};

    ghost Value = { ℕ × ℕ };

    ghost coded = { coded× coded_ℕ coded_ℕ };

    ghost view = { λ e. (T.label e.value, e.meaning.name) };
}

impl<T: Labelled> Entry<T> {
    fn of(value: T) -> Entry<T>
        ensures { result.0 ≡ T.label value }
    {
        let meaning = Meaning::of(&value);
        Entry { value, meaning }
    }

    /// One of the value, and what shows that its name means that.
    pub(super) fn named(value: T) -> (Entry<T>, Meaning<T>)
        ensures { (result.0 ≡ (T.label value, result.1.name)) × (result.1.value ≡ value) }
    {
        let meaning = Meaning::of(&value);
        let kept = meaning.again();
        (Entry { value, meaning }, kept)
    }

    /// The value again, of which this shows that the entry's name means it.
    pub(super) fn back(self, kept: &Meaning<T>) -> T
        requires { self.1 ≡ kept.now.name }
        ensures { result ≡ kept.now.value }
    {
        let Entry { value, meaning } = self;
        meaning.agree(kept);
        value
    }

    /// The value, and what shows that the entry's name means it.
    pub(super) fn get(&self) -> (&T, Meaning<T>)
        ensures { ((T.label result.0.now, result.1.name) ≡ self.now) × (result.1.value ≡ result.0.now) }
    {
        (&self.value, self.meaning.again())
    }
}

/// What shows which value the cell of an entry holds, for good.
#[derive(Drop)]
pub(super) struct Item<T: Labelled> {
    pub(super) note: Note<Option<Entry<T>>>,
    pub(super) meaning: Meaning<T>,
}

/// An entry's box. It is made before the value is, so it holds an `Option`; a box that is in a cell has a value.
pub(super) type Room<T> = Box<Option<Entry<T>>>;

/// An entry's cell.
pub(super) type Cell<T> = OnceBox<Option<Entry<T>>>;

/// The cells of a bucket.
pub(super) type Row<T> = Vec<Cell<T>>;

/// The box with what `create` answers.
pub(super) fn filled<T: Labelled + Drop, F: FnOnce() -> T>(mut room: Room<T>, create: F) -> Room<T>
    requires { F.pre create }
    ensures { (x : T) × F.post create x × IfSome result.value (λ seen. seen.0 ≡ T.label x) }
{
    Box::replace(&mut room, Some(Entry::of(create())));
    room
}

/// A bucket of so many entries, none of them filled.
pub(super) fn row<T: Labelled + Drop>(
    alloc: Global,
    capacity: usize,
) -> Result<Box<Row<T>>, AllocError>
    ensures { IfOk result (λ b. vec_len b.value ≡ capacity) }
{
    let mut entries = Vec::with_capacity(alloc, capacity)?;
    for _ in 0..capacity {
        entries.push_reserved(OnceBox::new(alloc));
    }
    Ok(Box::new(alloc, entries)?)
}
