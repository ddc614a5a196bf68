//! A cell that is filled at most once, and only with what is of the cell's family. It wraps a cell of `once_cell`, whose contracts say
//! nothing of what other threads put there. The rows of a store lie in such cells.
ghost use Rattle.std.specs.Prelude.{◌≡◌, ℕ, IfOk, IsSome, None, Some};
ghost use Rattle.std.specs.Option.{MatchOption};
ghost use Rattle.std.specs.declared.alloc.Global.{Global as Heap};
ghost use Rattle.once_cell.specs.Once.{Agrees, cell_name};
ghost use Rattle.seize_store.specs.Kept.{once_owns, once_shares};

use crate::family::Family;
use crate::kin::{Child, Kin, NoteOf, empty_cell, ended, found_in, known_in, note_of, put_in};
use once_cell::race::OnceBox;
use std::alloc::{AllocError, Global};
use std::marker::{Brand, Move, Owns};

/// A box that is filled at most once, with a value of the cell's family.
pub(crate) struct OnceOf<T: Kin> {
    inner: OnceBox<Child<T, Brand>>,
}

impl<T: Kin> Owns for OnceOf<T> {
    ghost Value = { ℕ × (Heap × ℕ) };

    ghost shr_at = { λ c p κ. once_shares T.row (record { is_of = T.is_of }) c p κ };
}

impl<T: Kin> Move for OnceOf<T> {
    ghost own_val = { λ c vs. once_owns T.row (record { is_of = T.is_of }) c vs };
}

impl<T: Kin> OnceOf<T> {
    /// An empty cell of that family. It takes no memory.
    pub(crate) fn new(alloc: Global, family: &Family) -> OnceOf<T>
        ensures { result.0 ≡ family.now.number }
    {
        let inner = empty_cell::<T, Brand>(alloc);
        OnceOf { inner }
    }

    /// A note that knows nothing yet.
    pub(crate) fn note(&self) -> NoteOf<T>
        ensures { (result.cell ≡ cell_name self.now.1) × (result.known ≡ None) }
    {
        note_of::<T, Brand>(&self.inner)
    }

    /// What the cell has, and a note that knows it.
    pub(crate) fn found(&self, note: NoteOf<T>) -> (Option<&T>, NoteOf<T>)
        requires { note.cell ≡ cell_name self.now.1 }
        ensures { (result.1.cell ≡ note.cell)
            × MatchOption result.0 ((note.known ≡ None) × (result.1.known ≡ None))
            (λ r. (result.1.known ≡ Some r.now) × Agrees note.known r.now × T.is_of self.now.0 r.now) }
    {
        found_in::<T, Brand>(&self.inner, note)
    }

    /// What the cell has, for whoever has a note that knows it: one load, and no test of what it gives.
    pub(crate) fn known(&self, note: NoteOf<T>) -> &T
        requires { (note.cell ≡ cell_name self.now.1) × IsSome note.known }
        ensures { note.known ≡ Some result.now }
    {
        known_in::<T, Brand>(&self.inner, note)
    }
}

impl<T: Kin + Drop> OnceOf<T> {
    /// Puts the value into the cell if that is empty. What the cell has then, and a note that knows it.
    pub(crate) fn put(
        &self,
        value: T,
        alloc: Global,
        note: NoteOf<T>,
    ) -> Result<(&T, NoteOf<T>), AllocError>
        requires { (note.cell ≡ cell_name self.now.1) × T.is_of self.now.0 value }
        ensures { IfOk result (λ r. (r.1.cell ≡ note.cell) × (r.1.known ≡ Some r.0.now) × T.is_of self.now.0 r.0.now) }
    {
        put_in::<T, Brand>(&self.inner, value, alloc, note)
    }

    fn end(self) {
        let OnceOf { inner } = self;
        ended::<T, Brand>(inner)
    }
}

impl<T: Kin + Drop> Drop for OnceOf<T> {
    fn drop(self) {
        self.end();
    }
}

unsafe impl<T: Kin + Send> Send for OnceOf<T> {}

unsafe impl<T: Kin + Send + Sync> Sync for OnceOf<T> {}
