//! Blocks that are lent: while a block is in nobody's hands, whoever has a sight of its loan sees its value, and whoever has the loan's
//! ticket and pool has the block back, by its number alone. It stands on the look-ups of `look_up`, and `row` lends.
ghost use Rattle.std.specs.Prelude.{◌≡◌};
ghost use Rattle.seize_content.specs.Loans.{IsLent};
ghost use Rattle.seize_store.specs.RowTokens.{content_in, entry_of};
ghost use Rattle.seize_store.specs.Named.{IsRowOf, bare_content, bare_known, bare_number, bare_store, bare_value, store_name};

use crate::bare::Bare;
use crate::row_token::{RowToken, Title};
use crate::store::Store;
use seize_content::{Pool, Sight, Ticket};
use seize_table::Labelled;

impl<H: Labelled + Drop, P: Labelled + Drop, T: Drop> Store<H, P, T> {
    /// Lends the block's value, under a lifetime of its own. The ticket says so, and the pool has the lifetime's token. It takes no memory
    /// and no atomic step: it looks the block's chunk up, and leaves the value where it lies.
    ///
    /// The block is in nobody's hands then. Who knows its number and a token of its row (`Bare::known`) has it back by `back`. Where ticket
    /// or pool are lost, or the store ends before, it is lost: the value does not end, and its row's memory is never given back.
    pub fn lend(&self, bare: Bare<H, P, T>) -> (Ticket, Pool)
        requires { bare_store bare ≡ store_name self.now }
        ensures loan { IsLent result.0 result.1 × (result.0.name ≡ bare_content bare) }
        ensures value { result.1.value ≡ T.row.coded.code (bare_value bare) }
    {
        let (hull, title) = bare.into_hull();
        let (row, entry) = self.row_of(title.number, &title.known);
        row.lend(entry, hull)
    }

    /// The block of that number, in hand again, with a value of the code that was lent. It takes no memory and no atomic step.
    ///
    /// Two loads, of which one waits for the other: the row's cell, and where its chunks begin.
    pub fn back(&self, number: usize, known: &RowToken, ticket: Ticket, pool: Pool) -> Bare<H, P, T>
        requires store { known.now.store ≡ store_name self.now }
        requires row { IsRowOf known.now number }
        requires loan { IsLent ticket pool × (ticket.name ≡ content_in known.now.chunks (entry_of number)) }
        ensures title { (bare_number result ≡ number) × (bare_known result ≡ known.now) }
        ensures value { T.row.coded.code (bare_value result) ≡ pool.value }
    {
        let (row, entry) = self.row_of(number, known);
        let hull = row.back(entry, ticket, pool);
        let title = Title {
            number,
            alloc: self.alloc,
            known: known.again(),
        };
        Bare { hull, title }
    }
}

impl<H: Labelled + Drop, P: Labelled + Drop, T> Store<H, P, T> {
    /// The value of the block of that number, of whose loan this is a sight, for as long as the store is borrowed and, by `'g`, the loan
    /// lasts.
    ///
    /// Three loads, each of which waits for the one before, as `place`: the row's cell, where its chunks begin, and then what is looked for
    /// in the value.
    pub fn see<'g>(&'g self, number: usize, known: &RowToken, sight: Sight<'g>) -> &'g T
        requires store { known.now.store ≡ store_name self.now }
        requires row { IsRowOf known.now number }
        requires loan { sight.name ≡ content_in known.now.chunks (entry_of number) }
        ensures { T.row.coded.code result.now ≡ sight.entry.value }
    {
        let (row, entry) = self.row_of(number, known);
        row.see(entry, sight)
    }
}
