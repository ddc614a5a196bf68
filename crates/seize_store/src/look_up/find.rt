//! Look-ups: from a number to its chunk, in a store that made the number's row. `look_up` says what they answer.
ghost use Rattle.std.specs.Prelude.{◌≡◌, ◌<◌, length, IfSome};
ghost use Rattle.seize_store.specs.RowTokens.{chunk_in, entry_of, label_in, place_in};
ghost use Rattle.seize_store.specs.Named.{IsRowOf, chunks_by, header_of, label_by, lies_of, place_by, row_by, row_is, store_by, store_name};

use super::{Place, TypedRowToken};
use crate::row::{ROWS, Row, capacity, place_of};
use crate::row_token::RowToken;
use crate::store::Store;
use seize_table::Labelled;

impl<'a, H, P: Labelled, T> Place<'a, H, P, T> {
    /// The chunk's header, for as long as the store is borrowed.
    pub fn header(&self) -> &'a H
        ensures { result.now ≡ header_of self.now }
    {
        self.header
    }
}

impl<H: Labelled + Drop, P: Labelled + Drop, T> Store<H, P, T> {
    /// The chunk of a number, and what shows its row, where that is made.
    pub fn find(&self, number: usize) -> Option<(Place<'_, H, P, T>, TypedRowToken<H, P, T>)>
        ensures row { IfSome result (λ found. (store_by found.1 ≡ store_name self.now) × row_is found.1 number) }
        ensures place { IfSome result (λ found. lies_of found.0 ≡ place_by found.1 number) }
        ensures label { IfSome result (λ found. H.label (header_of found.0) ≡ label_by found.1 number) }
    {
        let (bucket, entry) = place_of(number);
        if bucket >= ROWS || entry >= capacity(bucket) {
            return None;
        }
        let (row, mut note) = self.rows.found(bucket)?;
        if row.len() != capacity(bucket) {
            return None;
        }
        let chunk = row.chunk(entry);
        let known = RowToken::of(&self.rows, bucket, &mut note);
        Some((chunk, TypedRowToken { note, known }))
    }

    /// What shows the number's row, where that is made.
    pub fn seen(&self, number: usize) -> Option<TypedRowToken<H, P, T>>
        ensures { IfSome result (λ seen. (store_by seen ≡ store_name self.now) × row_is seen number) }
    {
        let (_, seen) = self.find(number)?;
        Some(seen)
    }

    /// The chunk of any number of the row that the token shows. It is the chunk of every block that ever has this number.
    ///
    /// Three loads, each of which waits for the one before: the row's cell, where its chunks begin, and then what is looked for in the
    /// chunk.
    pub fn at(&self, number: usize, seen: &mut TypedRowToken<H, P, T>) -> Place<'_, H, P, T>
        requires store { store_by seen.old ≡ store_name self.now }
        requires row { row_is seen.old number }
        ensures token { seen.new ≡ seen.old }
        ensures place { lies_of result ≡ place_by seen.old number }
        ensures label { H.label (header_of result) ≡ label_by seen.old number }
    {
        let (bucket, entry) = place_of(number);
        let row = self.row(bucket, seen);
        row.chunk(entry)
    }

    /// The same for whoever has a token free of the store's types.
    pub fn place(&self, number: usize, known: &RowToken) -> Place<'_, H, P, T>
        requires store { known.now.store ≡ store_name self.now }
        requires row { IsRowOf known.now number }
        ensures place { lies_of result ≡ place_in known.now.chunks (entry_of number) }
        ensures label { H.label (header_of result) ≡ label_in known.now.chunks (entry_of number) }
    {
        let (row, entry) = self.row_of(number, known);
        row.chunk(entry)
    }

    // The number's row, which the token shows, and its entry there.
    pub(crate) fn row_of(&self, number: usize, known: &RowToken) -> (&Row<H, P, T>, usize)
        requires { (known.now.store ≡ store_name self.now) × IsRowOf known.now number }
        ensures { (result.1 < length result.0.now)
            × (chunk_in result.0.now result.1 ≡ chunk_in known.now.chunks (entry_of number)) }
    {
        let (bucket, entry) = place_of(number);
        let row = self.known_row(bucket, known);
        (row, entry)
    }

    // The row that the token shows.
    fn known_row(&self, bucket: usize, known: &RowToken) -> &Row<H, P, T>
        requires { (store_name self.now ≡ known.now.store) × (bucket ≡ known.now.row) × (bucket < 53) }
        ensures { result.now ≡ known.now.chunks }
    {
        let cell = &self.rows.cells[bucket];
        let mut note = cell.note();
        known.tell(&mut note);
        cell.known(note)
    }

    // The row that the token shows.
    fn row(&self, bucket: usize, seen: &mut TypedRowToken<H, P, T>) -> &Row<H, P, T>
        requires { (store_by seen.old ≡ store_name self.now) × (row_by seen.old ≡ bucket) × (bucket < 53) }
        ensures { (seen.new ≡ seen.old) × (result.now ≡ chunks_by seen.old) }
    {
        self.rows.cells[bucket].known(seen.note.again())
    }
}
