//! Values that are of a family, and cells of `once_cell` at the type of those of one family. `once_of` hides which family that is.
ghost use Rattle.std.specs.Prelude.{◌≡◌, ℕ, IfOk, IsSome, None, Some};
ghost use Rattle.std.specs.Option.{MatchOption};
ghost use Rattle.once_cell.specs.Once.{Agrees, cell_name};

use once_cell::race::{Note, OnceBox};
use std::alloc::{AllocError, Global};
use std::marker::{Brand, Model, PhantomData};
use std::sync::atomic::Ordering::SeqCst;
use std::sync::atomic::raw;

/// What can be of a family.
pub(crate) trait Kin {
    ghost is_of: { ℕ → Self → Type 0 };
}

/// A family, as a type: a proof by hand takes that of the cell at hand. That below stands where none is taken.
pub(crate) trait Named {
    ghost number: { ℕ };
}

impl Named for Brand {
    ghost number = { 0 };
}

/// What is known of the cell of a value that is of some family. It doesn't say of which.
pub(crate) type NoteOf<T> = Note<Child<T, Brand>>;

/// A value of that family.
#[derive(Drop)]
pub(crate) struct Child<T: Kin, F: Named> {
    value: T,
    by: PhantomData<F>,
}

impl<T: Kin, F: Named> Model for Child<T, F> {
    ghost Value = { T };

    ghost coded = { T.code };

    ghost view = { λ c. c.value };

    ghost invariant = { λ c. T.is_of F.number c.value };
}

impl<T: Kin, F: Named> Child<T, F> {
    fn of(value: T) -> Child<T, F>
        requires { T.is_of F.number value }
        ensures { result ≡ value }
    {
        Child {
            value,
            by: PhantomData,
        }
    }

    fn get(&self) -> &T
        ensures { (result.now ≡ self.now) × T.is_of F.number result.now }
    {
        &self.value
    }
}

/// An empty cell.
pub(crate) fn empty_cell<T: Kin, F: Named>(alloc: Global) -> OnceBox<Child<T, F>> {
    OnceBox::new(alloc)
}

/// A note of the cell that knows nothing yet.
pub(crate) fn note_of<T: Kin, F: Named>(cell: &OnceBox<Child<T, F>>) -> Note<Child<T, F>>
    ensures { (result.cell ≡ cell_name cell.now) × (result.known ≡ None) }
{
    cell.note()
}

/// What the cell has, and a note that knows it.
pub(crate) fn found_in<'a, T: Kin, F: Named>(
    cell: &'a OnceBox<Child<T, F>>,
    note: Note<Child<T, F>>,
) -> (Option<&'a T>, Note<Child<T, F>>)
    requires { note.cell ≡ cell_name cell.now }
    ensures { (result.1.cell ≡ note.cell)
        × MatchOption result.0 ((note.known ≡ None) × (result.1.known ≡ None))
        (λ r. (result.1.known ≡ Some r.now) × Agrees note.known r.now × T.is_of F.number r.now) }
{
    let mut note = note;
    match cell.get_as(&mut note) {
        Some(child) => (Some(child.get()), note),
        None => (None, note),
    }
}

// What the cell has, for whoever has a note that knows it: the pointer that the load gives is not tested.
fn pointed<'a, U>(cell: &'a OnceBox<U>, note: &mut Note<U>) -> &'a U
    requires { (note.old.cell ≡ cell_name cell.now) × IsSome note.old.known }
    ensures { (note.new.known ≡ Some result.now) × Agrees note.old.known result.now }
{
    let word = cell as *const OnceBox<U> as *const *mut U;
    let at = unsafe { raw::ptr::load::<U, Brand>(word, SeqCst) };
    unsafe { &*at }
}

/// The same of a value of that family.
pub(crate) fn known_in<'a, T: Kin, F: Named>(
    cell: &'a OnceBox<Child<T, F>>,
    note: Note<Child<T, F>>,
) -> &'a T
    requires { (note.cell ≡ cell_name cell.now) × IsSome note.known }
    ensures { note.known ≡ Some result.now }
{
    let mut note = note;
    pointed(cell, &mut note).get()
}

/// Puts the value into the cell if that is empty. What the cell has then, and a note that knows it.
pub(crate) fn put_in<'a, T: Kin + Drop, F: Named>(
    cell: &'a OnceBox<Child<T, F>>,
    value: T,
    alloc: Global,
    note: Note<Child<T, F>>,
) -> Result<(&'a T, Note<Child<T, F>>), AllocError>
    requires { (note.cell ≡ cell_name cell.now) × T.is_of F.number value }
    ensures { IfOk result (λ r. (r.1.cell ≡ note.cell) × (r.1.known ≡ Some r.0.now) × T.is_of F.number r.0.now) }
{
    let child = Box::new(alloc, Child::of(value))?;
    let mut note = note;
    let first = cell.get_or_init_as(move || child, &mut note);
    Ok((first.get(), note))
}

/// Ends the cell, with what it has.
pub(crate) fn ended<T: Kin + Drop, F: Named>(cell: OnceBox<Child<T, F>>) {
    drop(cell);
}
