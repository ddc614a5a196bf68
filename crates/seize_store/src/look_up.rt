//! The way from a number to its chunk, for whoever knows that the number's row is made. It stands on `row` and `row_token`; the look-ups
//! are in `find`.
ghost use Rattle.std.specs.Prelude.{◌≡◌, Some};
ghost use Rattle.seize_store.specs.RowTokens.{row_name};

use crate::chunk::Chunk;
use crate::kin::NoteOf;
use crate::row::Row;
use crate::row_token::RowToken;
use seize_table::Labelled;

mod find;

/// What shows that a row of a store is made, with all its chunks, for good. It takes no bytes.
#[derive(Drop)]
pub struct TypedRowToken<H: Labelled + Drop, P: Labelled + Drop, T> {
    pub(crate) note: NoteOf<Row<H, P, T>>,
    pub(crate) known: RowToken,
    ghost cell: { note.cell ≡ row_name known.store known.row },
    ghost same: { note.known ≡ Some known.chunks },
}

/// The chunk of a number.
#[derive(Drop)]
pub struct Place<'a, H, P: Labelled, T> {
    pub(crate) chunk: &'a Chunk<H, P, T>,
    pub(crate) header: &'a H,
    ghost own: { header.now ≡ chunk.now.header },
}
