//! The word of a link that nobody shares: plain memory beside the link's keys, its own and that of the value in it. By `&` it stays as it
//! is, so what is lent with the value is seen for as long as the word is borrowed, with no event. Link words are made of it.
ghost use Rattle.std.specs.Prelude.{List};
ghost use base.Stored.{coded_list};
ghost use Rattle.seize_book.specs.Entry.{Entry};
ghost use Rattle.seize_book.specs.Ledger.{HeldKey};
ghost use Rattle.seize_book.specs.Peeks.{keys_show};
ghost use Rattle.seize_book.specs.Tokens.{Name, held_coded, keys_own, name_coded};

use crate::glimpse::Glimpse;
use seize_store::RowToken;
use std::marker::{Model, PhantomData};

/// The word of a link that stands still.
pub(crate) struct StillWord {
    bits: u64,
    // The book.
    ghost name: { Name } by { name_coded },
    // The keys beside it, in order.
    ghost held: { List (HeldKey Entry) } by { coded_list held_coded },
}

impl Model for StillWord {
    ghost also_owns = { λ k. keys_own k.name k.held };

    ghost also_shares = { λ k _ κ. keys_show k.name k.held κ };
}

impl StillWord {
    ghost use Rattle.std.specs.Prelude.{◌≡◌, Some, drop, true};
    ghost use Rattle.seize_book.specs.Book.{blocks};
    ghost use Rattle.seize_book.specs.Lending.{IsRowAt};
    ghost use Rattle.seize_book.specs.Private.{is_one, label_of};
    ghost use Rattle.seize_words.specs.LinkSites.{MayGlimpse};

    /// The word.
    pub(crate) fn word(&self) -> u64
        ensures { result ≡ self.now.bits }
    {
        self.bits
    }

    /// What shows the row in which the value in the link lies.
    pub(crate) fn row(&self) -> RowToken
        requires { is_one blocks (drop 1 self.now.held) ≡ true }
        ensures { IsRowAt self.now.name (label_of (drop 1 self.now.held)) result }
    {
        RowToken {
            marker: PhantomData,
        }
    }

    /// What is lent with the value in the link, for as long as the word is borrowed.
    pub(crate) fn glimpse(&self) -> Glimpse<'_>
        requires { MayGlimpse self.now.held }
        ensures { result.value ≡ Some (label_of (drop 1 self.now.held)) }
    {
        Glimpse {
            marker: PhantomData,
        }
    }
}

impl Drop for StillWord {
    fn drop(self) {
        let Self { bits: _ } = self;
    }
}

unsafe impl Send for StillWord {}

unsafe impl Sync for StillWord {}
