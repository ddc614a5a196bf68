//! Chunks: what each chunk of a store has of a book, from when its row is made. In its header lie the words of its block, and with whoever
//! has the chunk out goes the key of its values. It uses the book, counts and fields; `blocks` makes a store of such chunks.
ghost use Rattle.seize_book.specs.Bare.{bare_cell, bare_home};
ghost use Rattle.seize_book.specs.Chains.{first_field, next_field};
ghost use Rattle.seize_words.specs.Chunk.{HasCount, HasField, HasKey};
ghost use Rattle.seize_words.specs.Counts.{home};
ghost use Rattle.seize_book.specs.Tokens.{chunk_label};

use crate::batch::Count;
use crate::header::Field;
use crate::note::Note;
use seize_book::book::{BareKey, ChunkKeys, Seen};
use seize_content::TokenCell;
use seize_store::{Labelled, Maker};

/// The header of a chunk: the words of its block, which stay there for good. Its label says the book, and the home of the block's values.
#[derive(Drop)]
pub struct Header {
    /// The count of the batch whose first value lies in the block.
    pub count: Count,
    /// What comes next in the list of the slot for which a batch was inserted with the block.
    pub next: Field,
    /// The first block of that batch.
    pub first: Field,
    /// What is noted of the block, by who has the key of its values.
    pub note: TokenCell<Note>,
    /// The book whose words they are.
    pub book: Seen,
    ghost counted: { HasCount book count },
    ghost its_next: { HasField next_field book count next },
    ghost its_first: { HasField first_field book count first },
}

impl Labelled for Header {
    ghost label = { λ header. chunk_label header.book.name (home header.count) header.note.name };
}

/// What a chunk's owner has of the book: the key of the block's values. It has the header's label.
#[derive(Drop)]
pub struct Part {
    /// The right to name the values of the block.
    pub key: BareKey,
    /// The book.
    pub book: Seen,
    ghost of_book: { HasKey book key },
}

impl Labelled for Part {
    ghost label = { λ part. chunk_label part.book.name (bare_home part.key) (bare_cell part.key) };
}

/// Each chunk has a block of its own: the words of its header are new, and no value of the block was ever named.
impl Maker<Header, Part> for Seen {
    ghost family = { λ book. book.name.family };

    fn make(&self, _number: usize) -> (Header, Part) {
        let (note, token) = TokenCell::new(Note::new());
        let ChunkKeys {
            value,
            count,
            next,
            first,
        } = self.chunk(token);
        let header = Header {
            count: Count::new(count),
            next: Field::new(next),
            first: Field::new(first),
            note,
            book: self.again(),
        };
        let part = Part {
            key: value,
            book: self.again(),
        };
        (header, part)
    }
}
