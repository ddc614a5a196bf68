//! A block whose owner's part was taken out, until it is put back. It wraps a hull of `block`, and `owned` makes it.
ghost use Rattle.std.specs.Prelude.{◌≡◌};
ghost use Rattle.seize_store.specs.Titled.{chunk_of};

use crate::block::Hull;
use crate::hollow::Hollow;
use crate::owned::Owned;
use crate::row_token::{RowToken, Title};
use seize_table::Labelled;
use std::ops::Deref;

/// A block without the owner's part of its chunk. It reads as the value.
///
/// Its chunk is in again only with its part, so put that back by `with`. Where this is dropped instead, the value ends, the chunk stays
/// out for good, and its row's memory is never given back, also when the store and the other blocks of the row have ended.
pub struct Bare<H, P: Labelled + Drop, T: Drop> {
    pub(crate) hull: Hull<H, P, T>,
    pub(crate) title: Title,
    ghost titled: { chunk_of title ≡ (hull.at, hull.tag) },
}

impl<H, P: Labelled + Drop, T: Drop> Bare<H, P, T> {
    ghost use Rattle.seize_store.specs.RowTokens.{content_in, entry_of, label_in};
    ghost use Rattle.seize_store.specs.Named.{IsRowOf, bare_content, bare_known, bare_label, bare_number, bare_store, bare_title, bare_value, hollow_title, owned_value, title_of};

    /// The block's number. No other block of its store has it while this one stands.
    pub fn number(&self) -> usize
        ensures { result ≡ bare_number self.now }
    {
        self.title.number
    }

    /// What shows the row in which the block's chunk lies, and that it lies there.
    pub fn known(&self) -> &RowToken
        ensures known { result.now ≡ bare_known self.now }
        ensures row { (result.now.store ≡ bare_store self.now) × IsRowOf result.now (bare_number self.now) }
        ensures label { bare_label self.now ≡ label_in result.now.chunks (entry_of (bare_number self.now)) }
        ensures content { bare_content self.now ≡ content_in result.now.chunks (entry_of (bare_number self.now)) }
    {
        &self.title.known
    }

    /// The block with its owner's part, which may be another one of the same label. It takes no memory and no atomic step.
    pub fn with(self, part: P) -> Owned<H, P, T>
        requires { P.label part ≡ bare_label self }
        ensures { (owned_value result ≡ bare_value self) × (title_of result ≡ bare_title self) }
    {
        let Bare { hull, title } = self;
        Owned {
            block: hull.with(title, part),
        }
    }

    /// The value by value, and the chunk without value and part. It takes no memory and no atomic step.
    pub fn take(self) -> (T, Hollow<H, P, T>)
        ensures value { result.0 ≡ bare_value self }
        ensures hollow { hollow_title result.1 ≡ bare_title self }
    {
        let Bare { hull, title } = self;
        let (value, shell) = hull.take();
        (value, Hollow { shell, title })
    }
}

impl<H, P: Labelled + Drop, T: Drop> Bare<H, P, T> {
    ghost use Rattle.seize_store.specs.Named.{bare_title, bare_value};
    ghost use Rattle.seize_store.specs.Parts.{hull_with};

    // What it wraps.
    pub(crate) fn into_hull(self) -> (Hull<H, P, T>, Title)
        ensures { (result.0.value ≡ bare_value self) × (chunk_of result.1 ≡ hull_with result.0) × (result.1 ≡ bare_title self) }
    {
        let Bare { hull, title } = self;
        (hull, title)
    }
}

impl<H, P: Labelled + Drop, T: Drop> Deref for Bare<H, P, T> {
    ghost use Rattle.seize_store.specs.Named.{bare_value};

    type Target = T;

    fn deref(&self) -> &T
        ensures { result.now ≡ bare_value self.now }
    {
        self.hull.get()
    }
}

impl<H, P: Labelled + Drop, T: Drop> Drop for Bare<H, P, T> {
    fn drop(self) {
        let (value, _) = self.take();
        drop(value);
    }
}
