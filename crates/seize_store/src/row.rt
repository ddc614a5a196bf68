//! A row of chunks, and the cells that the rows stand in. It cuts the memory of `strip` into chunks of `chunk`; `store` keeps the rows.
ghost use Rattle.std.specs.Prelude.{◌≡◌, ◌+◌, ◌^◌, ◌<◌, All, IfOk, IfSome, length};
ghost use Rattle.seize_store.specs.RowTokens.{AreKin, IsInRow, entry_of, label_in, place_in, row_of};
ghost use Rattle.seize_table.specs.Pairs.{left_of};

use crate::block::Hull;
use crate::chunk::{Base, Body, Chunk};
use crate::family::Family;
use crate::identity::Identity;
use crate::kin::{Kin, NoteOf};
use crate::lender::Lender;
use crate::look_up::Place;
use crate::maker::Maker;
use crate::once_of::OnceOf;
use crate::strip::{Rooms, Strip};
use seize_content::{Pool, Sight, Start, Ticket};
use seize_table::Labelled;
use std::alloc::{AllocError, Global};
use std::array;
use std::marker::Model;
use std_alloc::room::may_hold;

/// How many rows a store may have. No memory holds the last one, and the numbers of all their chunks stay below 2^63.
pub(crate) const ROWS: usize = 53;

// How far apart the numbers of neighbours in a row lie. A number's remainder by it is the row.
const APART: usize = 64;

/// A chunk that is closed when its store lets it go, and its content.
pub(crate) struct Kept<H: Labelled + Drop, P: Labelled + Drop, T> {
    pub(crate) chunk: Chunk<H, P, T>,
    pub(crate) lender: Lender<H, P, T>,
    alloc: Global,
    ghost labelled: { left_of chunk.tag ≡ H.label chunk.header },
    ghost place: { lender.at ≡ chunk.at },
    ghost tag: { lender.tag ≡ chunk.tag },
}

impl<H: Labelled + Drop, P: Labelled + Drop, T> Drop for Kept<H, P, T> {
    fn drop(self) {
        let Self {
            chunk,
            lender: _,
            alloc,
        } = self;
        let (header, remains) = chunk.close();
        if let Some(remains) = remains {
            let (part, piece) = remains.take();
            piece.give(&alloc);
            drop(part);
        }
        drop(header);
    }
}

/// The chunks of a row, seen as the list of where they lie, one after the other from `base` on, with their tags.
#[derive(Drop)]
pub(crate) struct Row<H: Labelled + Drop, P: Labelled + Drop, T> {
    pub(crate) base: Base<H, P, T>,
    pub(crate) chunks: Vec<Kept<H, P, T>>,
}

impl<H: Labelled + Drop, P: Labelled + Drop, T> Model for Row<H, P, T> {
    ghost use base.Stored.{coded_list, coded×, coded_ℕ};
    ghost use denote.RawPtr.{Ptr, coded_ptr};
    ghost use Rattle.std.specs.Prelude.{◌≡◌, ℕ, List, map};

    ghost Value = { List (Ptr × ℕ) };

    ghost coded = { coded_list (coded× coded_ptr coded_ℕ) };

    ghost view = { λ r. map (λ k. (k.chunk.at, k.chunk.tag)) r.chunks.items };

    ghost invariant = { λ r. r.base.places ≡ map (λ k. k.chunk.at) r.chunks.items };
}

/// A row is of a family where the labels of all its chunks are.
impl<H: Labelled + Drop, P: Labelled + Drop, T> Kin for Row<H, P, T> {
    ghost is_of = { λ family chunks. AreKin family chunks };
}

/// How many chunks a row has.
pub(crate) fn capacity(row: usize) -> usize
    requires { row < ROWS }
    ensures { result ≡ 2 ^ (row + 5) }
{
    1 << (row + 5)
}

/// The number of the chunk at that entry of that row.
pub(crate) fn number_at(row: usize, entry: usize) -> usize
    requires { (row < ROWS) × (entry < 2 ^ (row + 5)) }
    ensures { IsInRow result row × (entry_of result ≡ entry) }
{
    entry * APART + row
}

/// The row and the entry of a number, whether there is such a row or not.
#[inline(always)]
pub(crate) fn place_of(number: usize) -> (usize, usize)
    ensures { (result.0 ≡ row_of number) × (result.1 ≡ entry_of number) }
{
    (number % APART, number / APART)
}

impl<H: Labelled + Drop, P: Labelled + Drop, T> Row<H, P, T> {
    ghost use Rattle.seize_store.specs.Named.{header_of, lies_of};

    /// The row of this index, with all its chunks in. `maker` makes the header and the owner's part of each from its number. Where memory
    /// is refused, what was taken goes back, and `maker` was not called.
    pub(crate) fn new<M: Maker<H, P>>(
        alloc: Global,
        bucket: usize,
        maker: &M,
    ) -> Result<Row<H, P, T>, AllocError>
        requires { bucket < ROWS }
        ensures { IfOk result (λ row. AreKin (M.family maker.now) row) }
    {
        let len = capacity(bucket);
        let mut chunks = Vec::with_capacity(alloc, len)?;
        if len == usize::MAX || !may_hold::<Body<H, P, T>>(len + 1) {
            return Err(AllocError);
        }
        let (base, mut strip) = Strip::of(Rooms::take(&alloc, len + 1)?, len as u64);
        for entry in 0..len {
            let (piece, rest) = strip.cut();
            strip = rest;
            let (header, part) = maker.make(number_at(bucket, entry));
            let (start, ticket) = Start::new();
            let chunk = Chunk::of(piece, header, part, ticket);
            let lender = Lender::of(&chunk, start);
            chunks.push_reserved(Kept {
                chunk,
                lender,
                alloc,
            });
        }
        Ok(Row { base, chunks })
    }

    /// How many chunks it has.
    pub(crate) fn len(&self) -> usize
        ensures { result ≡ length self.now }
    {
        self.chunks.len()
    }

    /// The chunk at that entry, and its header.
    pub(crate) fn chunk(&self, entry: usize) -> Place<'_, H, P, T>
        requires { entry < length self.now }
        ensures { (lies_of result ≡ place_in self.now entry) × (H.label (header_of result) ≡ label_in self.now entry) }
    {
        let chunk = &self.chunks[entry].chunk;
        let header = chunk.header_by(&self.base, entry);
        Place { chunk, header }
    }
}

impl<H: Labelled + Drop, P: Labelled + Drop, T> Row<H, P, T> {
    ghost use Rattle.seize_content.specs.Loans.{IsLent};
    ghost use Rattle.seize_store.specs.RowTokens.{chunk_in, content_in};
    ghost use Rattle.seize_store.specs.Parts.{hull_with};

    /// Lends the block of the chunk at that entry.
    pub(crate) fn lend(&self, entry: usize, hull: Hull<H, P, T>) -> (Ticket, Pool)
        requires { (entry < length self.now) × (hull_with hull ≡ chunk_in self.now entry) }
        ensures loan { IsLent result.0 result.1 × (result.0.name ≡ content_in self.now entry) }
        ensures value { result.1.value ≡ T.row.coded.code hull.value }
    {
        self.chunks[entry].lender.lend(hull)
    }

    /// The block of the chunk at that entry, where it was lent.
    pub(crate) fn back(&self, entry: usize, ticket: Ticket, pool: Pool) -> Hull<H, P, T>
        requires { (entry < length self.now) × IsLent ticket pool × (ticket.name ≡ content_in self.now entry) }
        ensures { (hull_with result ≡ chunk_in self.now entry) × (T.row.coded.code result.value ≡ pool.value) }
    {
        self.chunks[entry]
            .lender
            .back(&self.base, entry, ticket, pool)
    }

    /// The value of the block that is lent from the chunk at that entry.
    pub(crate) fn see<'g>(&'g self, entry: usize, sight: Sight<'g>) -> &'g T
        requires { (entry < length self.now) × (sight.name ≡ content_in self.now entry) }
        ensures { T.row.coded.code result.now ≡ sight.entry.value }
    {
        self.chunks[entry].lender.view_by(&self.base, entry, sight)
    }
}

/// The cells of the rows, each filled at most once, and what their store alone has.
#[derive(Drop)]
pub(crate) struct Rows<H: Labelled + Drop, P: Labelled + Drop, T> {
    pub(crate) cells: [OnceOf<Row<H, P, T>>; 53],
    pub(crate) identity: Identity,
    pub(crate) family: Family,
    ghost all_there: { 53 ≡ length cells },
    ghost kin: { All (λ cell. cell.0 ≡ family.number) cells },
}

impl<H: Labelled + Drop, P: Labelled + Drop, T> Rows<H, P, T> {
    ghost use Rattle.seize_store.specs.Titled.{IsRowNote, family_of, names_of_rows};

    /// The cells of a new store of this family. They take no memory.
    pub(crate) fn new(alloc: Global, family: &Family) -> Rows<H, P, T>
        ensures { family_of result ≡ family.now.number }
    {
        let cells = array::from_fn(
            move |_|
                ensures cell { result.0 ≡ family.entry.now.number }
                ensures same { family.exit.now ≡ family.entry.now }
            { OnceOf::new(alloc, family) },
        );
        Rows {
            cells,
            identity: Identity::new(),
            family: family.again(),
        }
    }

    /// The row of this index, where it is made, and a note that knows it.
    pub(crate) fn found(&self, bucket: usize) -> Option<(&Row<H, P, T>, NoteOf<Row<H, P, T>>)>
        requires { bucket < ROWS }
        ensures { IfSome result (λ found. IsRowNote (names_of_rows self.now) bucket found.0.now found.1) }
    {
        let cell = &self.cells[bucket];
        let (row, note) = cell.found(cell.note());
        Some((row?, note))
    }

    /// The same of a row that is made if it is missing.
    pub(crate) fn made<M: Maker<H, P>>(
        &self,
        alloc: Global,
        bucket: usize,
        maker: &M,
    ) -> Result<(&Row<H, P, T>, NoteOf<Row<H, P, T>>), AllocError>
        requires bucket { bucket < ROWS }
        requires family { M.family maker.now ≡ family_of self.now }
        ensures { IfOk result (λ made. IsRowNote (names_of_rows self.now) bucket made.0.now made.1) }
    {
        if let Some(found) = self.found(bucket) {
            return Ok(found);
        }
        let cell = &self.cells[bucket];
        cell.put(Row::new(alloc, bucket, maker)?, alloc, cell.note())
    }
}
