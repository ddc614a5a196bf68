//! What lends the blocks of a chunk: the content of the chunk, in which a hull of `block` lies while it is lent. It has no bytes. `row`
//! keeps it beside the chunk, and `store` lends by it.
ghost use Rattle.std.specs.Prelude.{◌≡◌, ℕ};
ghost use denote.RawPtr.{Ptr, coded_ptr};
ghost use Rattle.seize_store.specs.Lending.{lender_owns, lender_shares};

use crate::block::Hull;
use crate::chunk::{Base, Body, Chunk};
use seize_content::{Pool, Sight, Start, Ticket};
use seize_table::Labelled;
use std::marker::{Model, PhantomData};

/// The content of a chunk. Where it ends while a block is lent, the value does not end, and its chunk stays out.
#[derive(Drop)]
pub(crate) struct Lender<H, P: Labelled, T> {
    marker: PhantomData<*mut Body<H, P, T>>,
    pub(crate) ghost at: { Ptr } by { coded_ptr },
    pub(crate) ghost tag: { ℕ },
}

impl<H, P: Labelled, T> Model for Lender<H, P, T> {
    ghost also_owns = { λ l. lender_owns H.row P.row T.row P.label l.at l.tag };

    ghost also_shares = { λ l _ κ. lender_shares H.row P.row T.row P.label l.at l.tag κ };
}

impl<H, P: Labelled, T> Lender<H, P, T> {
    ghost use Rattle.std.specs.Prelude.{◌<◌, length};
    ghost use Rattle.seize_content.specs.Loans.{IsLent};
    ghost use Rattle.seize_store.specs.Parts.{hull_with, lent_from, lies_with};
    ghost use Rattle.seize_store.specs.Row.{at_entry};
    ghost use Rattle.seize_table.specs.Pairs.{right_of};

    /// The content of that chunk, which begins with this.
    pub(crate) fn of(_chunk: &Chunk<H, P, T>, start: Start) -> Lender<H, P, T>
        requires { start.name ≡ right_of _chunk.now.tag }
        ensures { lent_from result ≡ lies_with _chunk.now }
    {
        let Start { marker: _ } = start;
        Lender {
            marker: PhantomData,
        }
    }

    /// Lends the block, under a lifetime of its own. It does nothing when the program runs.
    pub(crate) fn lend(&self, hull: Hull<H, P, T>) -> (Ticket, Pool)
        requires { hull_with hull ≡ lent_from self.now }
        ensures { IsLent result.0 result.1 × ((result.0.name ≡ right_of self.now.tag) × (result.1.value ≡ T.row.coded.code hull.value)) }
    {
        let Hull { at: _ } = hull;
        let ticket = Ticket {
            marker: PhantomData,
        };
        let pool = Pool {
            marker: PhantomData,
        };
        (ticket, pool)
    }

    /// Ends the loan: the block is in hand again, found by where the row's chunks begin.
    pub(crate) fn back(
        &self,
        base: &Base<H, P, T>,
        entry: usize,
        ticket: Ticket,
        pool: Pool,
    ) -> Hull<H, P, T>
        requires { (entry < length base.now.places) × (self.now.at ≡ at_entry base.now.places entry)
            × (ticket.name ≡ right_of self.now.tag) × IsLent ticket pool }
        ensures { (hull_with result ≡ lent_from self.now) × (T.row.coded.code result.value ≡ pool.value) }
    {
        let Ticket { marker: _ } = ticket;
        let Pool { marker: _ } = pool;
        let first = base.at;
        let at = unsafe { first.add(entry) };
        Hull { at }
    }

    /// What a sight found, for as long as its loan lasts and the store is shared, found by where the row's chunks begin.
    pub(crate) fn view_by<'g>(
        &'g self,
        base: &Base<H, P, T>,
        entry: usize,
        sight: Sight<'g>,
    ) -> &'g T
        requires { (entry < length base.now.places) × (self.now.at ≡ at_entry base.now.places entry)
            × (sight.name ≡ right_of self.now.tag) }
        ensures { T.row.coded.code result.now ≡ sight.entry.value }
    {
        let Sight { marker: _ } = sight;
        unsafe { &(*base.at.add(entry)).room }
    }
}

// Readers on other threads see the value, and its block comes back on any thread.
unsafe impl<H, P: Labelled + Send, T: Send + Sync> Send for Lender<H, P, T> {}

unsafe impl<H, P: Labelled + Send, T: Send + Sync> Sync for Lender<H, P, T> {}
