//! A claimed chunk with its title, and lists of these. A store makes a spot where it claims a chunk, and a spot with a value in it is a
//! block of `owned`.
ghost use Rattle.std.specs.Prelude.{◌≡◌, ◌≢◌, ◌≤◌, vec_len, vec_capacity};
ghost use Rattle.seize_store.specs.Titled.{chunk_of};

mod list;

use crate::block::{Block, Out};
use crate::owned::Owned;
use crate::row_token::Title;
use seize_table::Labelled;

/// A chunk that is out and empty, with the owner's part, and its number. Its chunk is in again when it ends.
pub(crate) struct Spot<H, P: Labelled + Drop, T> {
    pub(crate) out: Out<H, P, T>,
    pub(crate) title: Title,
    pub(crate) ghost titled: { chunk_of title ≡ (out.at, out.tag) },
}

impl<H, P: Labelled + Drop, T> Spot<H, P, T> {
    ghost use Rattle.seize_store.specs.Parts.{spot_number, spot_store, spot_title};

    /// Two spots of one store have different numbers.
    pub(crate) fn apart(self, other: Spot<H, P, T>) -> (Spot<H, P, T>, Spot<H, P, T>)
        requires { spot_store self ≡ spot_store other }
        ensures numbers { spot_number self ≢ spot_number other }
        ensures titles { (spot_title result.0 ≡ spot_title self) × (spot_title result.1 ≡ spot_title other) }
    {
        let Spot { out, title } = self;
        let Spot {
            out: other_out,
            title: other,
        } = other;
        let (out, other_out) = out.differ(other_out);
        if title.number == other.number {
            title.known.agree(&other.known);
            unreachable!();
        }
        let second = Spot {
            out: other_out,
            title: other,
        };
        (Spot { out, title }, second)
    }
}

impl<H, P: Labelled + Drop, T: Drop> Spot<H, P, T> {
    ghost use Rattle.seize_store.specs.Named.{owned_value, title_of};
    ghost use Rattle.seize_store.specs.Parts.{spot_title};

    /// A block of this spot. It takes no memory and no atomic step.
    pub(crate) fn fill(self, value: T) -> Owned<H, P, T>
        ensures { (owned_value result ≡ value) × (title_of result ≡ spot_title self) }
    {
        let Spot { out, title } = self;
        Owned {
            block: Block::of(out, title, value),
        }
    }
}

impl<H, P: Labelled + Drop, T> Drop for Spot<H, P, T> {
    // One swap. Where the store is gone, the chunk's memory goes back, and the owner's part ends.
    fn drop(self) {
        let Spot { out, title } = self;
        if let Some(remains) = out.give_back() {
            let (part, piece) = remains.take();
            piece.give(&title.alloc);
            drop(part);
        }
    }
}

/// How many spots a list has room for.
pub const SPOTS: usize = 128;

/// Chunks that one holder keeps claimed and empty, at most `SPOTS`, so that making and ending a block takes no atomic step. They are
/// in again when the list ends.
#[derive(Drop)]
pub struct Spots<H, P: Labelled + Drop, T> {
    pub(crate) list: Vec<Spot<H, P, T>>,
    ghost room: { 128 ≤ vec_capacity list },
    ghost few: { vec_len list ≤ 128 },
}
