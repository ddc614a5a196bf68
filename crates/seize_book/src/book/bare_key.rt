//! The key of a block before a number leads to it: what a chunk of a store keeps. It is `Rights` with one key.
ghost use Rattle.std.specs.Prelude.{◌≡◌, true};
ghost use Rattle.seize_store.specs.RowTokens.{content_in, entry_of, label_in};
ghost use Rattle.seize_store.specs.Named.{IsRowOf};
ghost use Rattle.seize_book.specs.Book.{after, blocks};
ghost use Rattle.seize_book.specs.Homes.{IsVacant, home_of};
ghost use Rattle.seize_book.specs.Loans.{cell_of};
ghost use Rattle.seize_book.specs.Private.{is_one, key_of, label_of, own_of};
ghost use Rattle.seize_book.specs.Tokens.{chunk_label, start};

use crate::book::rights::Rights;
use crate::book::value_key::ValueKey;
use seize_store::{Labelled, RowToken};

/// The right to name the values of one block, before it is said by which number words hold the block. All values that ever lay in it were
/// reclaimed.
///
/// A chunk of a store has the key of its block for good, with the chunk's label: it lies there while the chunk is in.
#[derive(Drop)]
pub struct BareKey {
    pub(crate) rights: Rights,
    ghost one: { is_one blocks rights.held ≡ true },
    ghost home: { key_of rights.held ≡ home_of (label_of rights.held) },
    ghost vacant: { IsVacant (after (start rights.name) (own_of rights.held)) (key_of rights.held) },
}

impl Labelled for BareKey {
    ghost label = { λ key. chunk_label key.rights.name (key_of key.rights.held) (cell_of (label_of key.rights.held)) };
}

impl BareKey {
    ghost use Rattle.seize_book.specs.Bare.{Becomes, bare_book, bare_key_label};
    ghost use Rattle.seize_book.specs.Loans.{place_of};
    ghost use Rattle.seize_book.specs.Others.{value_of};

    /// The key for a value of the block, which lies in the chunk with this number in the store of its book, as the token shows: the chunk
    /// has the block's label. Words hold the block by this number. The value's name says the content that the chunk has.
    pub fn place(self, number: u64, known: &RowToken) -> ValueKey
        requires store { (bare_book self).store ≡ known.now.store }
        requires row { IsRowOf known.now number }
        requires home { label_in known.now.chunks (entry_of number) ≡ bare_key_label self }
        ensures becomes { Becomes self result number }
        ensures content { place_of (value_of result) ≡ content_in known.now.chunks (entry_of number) }
    {
        let mut rights = self.rights;
        ValueKey {
            keys: rights.place(number, known),
        }
    }
}
