//! Values that count their ends, headers, and what makes the parts of chunks. All labels are of the family 0.
ghost use Rattle.seize_table.specs.Pairs.{pair};

use seize_store::{Labelled, Maker};
use std::sync::atomic::{AtomicU64, Ordering};

/// A value with a name of its own, which counts its end.
pub(crate) struct Counted<'a> {
    pub(crate) ends: &'a AtomicU64,
    pub(crate) name: u64,
}

impl Labelled for Counted<'_> {
    ghost label = { λ counted. pair 0 counted.name };
}

impl Drop for Counted<'_> {
    fn drop(self) {
        let Counted { ends, name: _ } = self;
        ends.fetch_add(1, Ordering::SeqCst);
    }
}

/// Makes headers that no test looks at, with empty parts.
#[derive(Drop)]
pub(crate) struct Zero;

impl Maker<u64, ()> for Zero {
    ghost family = { λ _. 0 };

    fn make(&self, _number: usize) -> (u64, ()) {
        (0, ())
    }
}

/// A header that knows its chunk's number, by which it is labelled, and in which a test counts.
#[derive(Drop)]
pub(crate) struct Tally {
    pub(crate) number: usize,
    pub(crate) sum: AtomicU64,
}

impl Labelled for Tally {
    ghost label = { λ tally. pair 0 tally.number };
}

/// An owner's part, or a header, that knows its chunk's number, by which it is labelled.
#[derive(Drop)]
pub(crate) struct Numbered {
    pub(crate) number: usize,
}

impl Labelled for Numbered {
    ghost label = { λ numbered. pair 0 numbered.number };
}

/// Makes a tally of each number. The owner's part knows the number too.
#[derive(Drop)]
pub(crate) struct Tallies;

impl Maker<Tally, Numbered> for Tallies {
    ghost family = { λ _. 0 };

    #[tactic(auto, using(seize_table::proofs::Pairs::left_pair))]
    fn make(&self, number: usize) -> (Tally, Numbered) {
        let sum = AtomicU64::new(0);
        (Tally { number, sum }, Numbered { number })
    }
}

/// Makes headers and owners' parts that count their ends, under names of their own. Both of a chunk have one name.
#[derive(Drop)]
pub(crate) struct Pairs<'a> {
    pub(crate) made: &'a AtomicU64,
    pub(crate) headers: &'a AtomicU64,
    pub(crate) parts: &'a AtomicU64,
}

impl<'a> Maker<Counted<'a>, Counted<'a>> for Pairs<'a> {
    ghost family = { λ _. 0 };

    #[tactic(auto, using(seize_table::proofs::Pairs::left_pair))]
    fn make(&self, _number: usize) -> (Counted<'a>, Counted<'a>) {
        let name = self.made.fetch_add(1, Ordering::SeqCst);
        let header = Counted {
            ends: self.headers,
            name,
        };
        let part = Counted {
            ends: self.parts,
            name,
        };
        (header, part)
    }
}

/// The number of the chunk that comes so many after the first one, row by row, in the first four rows.
pub(crate) fn nth(rank: usize) -> usize {
    let (row, before) = if rank < 32 {
        (0, 0)
    } else if rank < 96 {
        (1, 32)
    } else if rank < 224 {
        (2, 96)
    } else {
        (3, 224)
    };
    rank.wrapping_sub(before).wrapping_mul(64).wrapping_add(row)
}
