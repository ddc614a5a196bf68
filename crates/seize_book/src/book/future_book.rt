//! Books that have not begun: what a book is known by before it has a list, which `open` begins.
ghost use Rattle.std.specs.Prelude.{◌≡◌, ℕ};
ghost use Rattle.seize_book.specs.Tokens.{free_family};

use crate::book::book_keys::BookKeys;
use crate::book::porter::Porter;
use crate::book::seen::{Seen, Storage};
use seize_store::Family;
use std::marker::{Model, PhantomData};

/// A book that has not begun. It has its family already, so that a store can be made of chunks that are labelled with it, and the book then
/// begins with its blocks in that store.
#[derive(Drop)]
pub struct FutureBook {
    pub(crate) marker: PhantomData<()>,
    /// By which labels say that something is of the book.
    pub ghost family: { ℕ },
}

impl Model for FutureBook {
    ghost also_owns = { λ u. free_family u.family };
}

impl FutureBook {
    ghost use Rattle.seize_book.specs.Porters.{Opens};

    /// One of a new family, and that family.
    pub fn new() -> (FutureBook, Family)
        ensures { result.1.number ≡ result.0.family }
    {
        let unopened = FutureBook {
            marker: PhantomData,
        };
        let family = Family {
            marker: PhantomData,
        };
        (unopened, family)
    }

    /// The book begins, with its keys and its porter, which is at home. It has no slot yet, and so many links, which are empty. Its blocks
    /// lie in the store that `K` says, and its heads in the table, and the codes that may be lent are those of its list. The batch size is
    /// `size` values, until [`Porter::set_size`] changes it.
    pub fn open<K: Storage>(self, links: usize, size: usize) -> (Seen, Porter, BookKeys)
        ensures book { Opens result.0 result.1 result.2 links size K.store K.table }
        ensures its { (result.0.name.family ≡ self.family) × (result.0.name.permits ≡ K.permits) × (result.0.name.pairs ≡ K.pairs) }
    {
        let (book, pass, keys, sizes) = Seen::open::<K>(self, links, size);
        (book, Porter::again(pass), BookKeys::apart(keys, sizes))
    }
}

unsafe impl Send for FutureBook {}
