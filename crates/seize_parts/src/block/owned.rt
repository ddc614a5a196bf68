//! A block in one owner's hands.
ghost use Rattle.std.specs.Prelude.{◌≡◌};
ghost use Rattle.std.specs.Borrow.{sem};
ghost use Rattle.seize_book.specs.Others.{IsVacated, book_of};
ghost use Rattle.seize_store.specs.Named.{bare_store, bare_value};
ghost use Rattle.seize_words.specs.Chunks.{IsBlockIn, LendsIn, LiesIn, blocks_book};
ghost use Rattle.seize_book.specs.Lending.{ArePermitsOf};
ghost use Rattle.seize_parts.specs.Blocks.{Belongs, content, owned_store};

use crate::ender::Fit;
use crate::reclaim::Puts;
use seize_store::Bare;
use seize_words::blocks::Blocks;
use seize_words::book::{Permits, Seen, ValueKey};
use seize_words::chunk::{Header, Part};
use std::ops::{Deref, DerefMut};

/// A block in one owner's hands. It reads as its value, which its owner may change in place.
///
/// It may be dropped: then the value ends, and the block's place in the store is free again, by one swap. It may outlive its collector, and
/// keeps the memory of all blocks of its row until it ends.
#[derive(Drop)]
pub struct Owned<T: Drop> {
    block: seize_store::Owned<Header, Part, T>,
}

impl<T: Drop> Owned<T> {
    /// The block whose values this key is of.
    pub fn of(key: ValueKey, block: Bare<Header, Part, T>, book: &Seen) -> Owned<T>
        requires book { book_of key ≡ book.now.name }
        requires key { IsVacated key × LiesIn key block }
        ensures { (content result ≡ bare_value block) × (owned_store result ≡ bare_store block) }
    {
        let part = Part {
            key: key.bare(),
            book: book.again(),
        };
        Owned {
            block: block.with(part),
        }
    }

    /// The value by value. The block's place in the store is free again, by one swap.
    pub fn into_value(self) -> T
        ensures { result ≡ content self }
    {
        self.block.into_inner()
    }

    // The key of its next value, and the block without it.
    fn open(self, blocks: &Blocks<T>) -> (ValueKey, Bare<Header, Part, T>)
        requires store { owned_store self ≡ (blocks_book blocks.now).store }
        ensures block { IsBlockIn blocks.now (content self) result.0 result.1 }
    {
        let (part, block) = self.block.split();
        let Part { key, book } = part;
        let known = block.known();
        blocks.book.agree(&book);
        let key = key.place(block.number() as u64, known);
        (key, block)
    }

    /// Its value is lent from then on, and may go into a link. It gives the block's number, and the key of the value.
    pub fn lend<R: Puts<T>>(
        self,
        blocks: &Blocks<T>,
        permits: &Permits<Fit<T, R>>,
    ) -> (u64, ValueKey)
        requires belongs { Belongs R.owners (blocks_book blocks.now).store self }
        requires permits { ArePermitsOf (blocks_book blocks.now) permits.now }
        ensures lent { LendsIn blocks.now result.1 result.0 (T.row.coded.code (content self)) }
    {
        let (mut key, block) = self.open(blocks);
        let number = block.number() as u64;
        let permit = permits.permit(&*block);
        blocks.lend(&mut key, block, permit);
        (number, key)
    }
}

impl<T: Drop> Deref for Owned<T> {
    type Target = T;

    ghost use Rattle.std.specs.Prelude.{◌≡◌};
    ghost use Rattle.seize_parts.specs.Blocks.{content};

    ghost deref_gives = { λ owned value. value ≡ content owned };

    fn deref(&self) -> &T {
        &self.block
    }
}

/// Its value may be changed while it has one owner. Its collector stays.
impl<T: Drop> DerefMut for Owned<T> {
    ghost use Rattle.std.specs.Prelude.{◌≡◌};
    ghost use Rattle.seize_parts.specs.Blocks.{content};
    ghost use Rattle.seize_parts.specs.Lends.{lends_content};

    ghost deref_mut_gives = { λ owned value. value ≡ content owned };

    fn deref_mut(&mut self) -> &mut T
        ensures* writes_back { sem 𝓛 (lends_content T.row self.entry result) }
        ensures value { result.now ≡ content self.old }
    {
        &mut self.block
    }
}
