//! The block in its owner's hands, which is what a store gives out. It wraps a block of `block`, and its chunk goes back as a spot of
//! `spot`.
ghost use Rattle.std.specs.Prelude.{◌≡◌, ◌≢◌};
ghost use Rattle.std.specs.Borrow.{sem};
ghost use Rattle.seize_store.specs.Named.{AreOfStore, bare_title, bare_value, IsSameBlock, count_of, count_with, known_of, owned_label, owned_number, store_of, title_of, titles_of, titles_with, owned_value};
ghost use Rattle.seize_store.specs.Parts.{spot_title};

use crate::bare::Bare;
use crate::block::Block;
use crate::row_token::RowToken;
use crate::spot::{Spot, Spots};
use seize_table::Labelled;
use std::ops::{Deref, DerefMut};

/// A value in a chunk of a store, with the owner's part of that chunk. It reads as the value, and may end on any thread and after its
/// store.
///
/// When it ends, its chunk is in again with its part, by one swap, and then the value ends; where the store is gone, the chunk's memory
/// goes back, and the part ends. A list of blocks that is dropped whole nests, one call in another, as a list of boxes does. Take it apart
/// from its front.
pub struct Owned<H, P: Labelled + Drop, T: Drop> {
    pub(crate) block: Block<H, P, T>,
}

impl<H, P: Labelled + Drop, T: Drop> Owned<H, P, T> {
    /// The block's number. No other block of its store has it while this one stands.
    pub fn number(&self) -> usize
        ensures { result ≡ owned_number self.now }
    {
        self.block.title().number
    }

    /// The owner's part by value, and the block without it. It takes no memory and no atomic step.
    pub fn split(self) -> (P, Bare<H, P, T>)
        ensures label { P.label result.0 ≡ owned_label self }
        ensures block { (bare_value result.1 ≡ owned_value self) × (bare_title result.1 ≡ title_of self) }
    {
        let Owned { block } = self;
        let (part, hull, title) = block.split();
        (part, Bare { hull, title })
    }

    /// The value by value. The chunk is in again, by one swap; where the store is gone, its memory goes back.
    pub fn into_inner(self) -> T
        ensures { result ≡ owned_value self }
    {
        let (value, _) = self.into_parts();
        value
    }

    /// The same, and what shows the row in which the value lay.
    pub fn into_parts(self) -> (T, RowToken)
        ensures value { result.0 ≡ owned_value self }
        ensures known { result.1 ≡ known_of self }
    {
        let (value, spot) = self.empty();
        let known = spot.title.known.again();
        drop(spot);
        (value, known)
    }

    /// The value by value. The chunk stays claimed, and its spot goes to the list; where that is full, half of it goes back first. No
    /// atomic step else.
    pub fn empty_into(self, spots: &mut Spots<H, P, T>) -> T
        requires { AreOfStore spots.old (store_of self) }
        ensures value { result ≡ owned_value self }
        ensures spots { AreOfStore spots.new (store_of self) }
        ensures count { count_of spots.new ≡ count_with (count_of spots.old) }
        ensures last { titles_of spots.new ≡ titles_with (titles_of spots.old) (title_of self) }
    {
        let (value, spot) = self.empty();
        spots.put(spot);
        value
    }

    // The value, and the spot where it lay.
    pub(crate) fn empty(self) -> (T, Spot<H, P, T>)
        ensures { (result.0 ≡ owned_value self) × (spot_title result.1 ≡ title_of self) }
    {
        let Owned { block } = self;
        let (value, out, title) = block.empty();
        (value, Spot { out, title })
    }
}

/// Two blocks of one store that stand at once have different numbers. It gives both back as they were, and does nothing else: its
/// contract is the law.
pub fn apart<H, P: Labelled + Drop, T: Drop>(
    first: Owned<H, P, T>,
    second: Owned<H, P, T>,
) -> (Owned<H, P, T>, Owned<H, P, T>)
    requires { store_of first ≡ store_of second }
    ensures numbers { owned_number first ≢ owned_number second }
    ensures same { IsSameBlock result.0 first × IsSameBlock result.1 second }
{
    let (one, first) = first.empty();
    let (two, second) = second.empty();
    let (first, second) = first.apart(second);
    (first.fill(one), second.fill(two))
}

impl<H, P: Labelled + Drop, T: Drop> Deref for Owned<H, P, T> {
    type Target = T;

    fn deref(&self) -> &T
        ensures { result.now ≡ owned_value self.now }
    {
        self.block.get()
    }
}

impl<H, P: Labelled + Drop, T: Drop> DerefMut for Owned<H, P, T> {
    ghost use Rattle.seize_store.specs.Lends.{lends_owned_value};

    ghost deref_mut_gives = { λ owned value. value ≡ owned_value owned };

    fn deref_mut(&mut self) -> &mut T
        ensures* writes_back { sem 𝓛 (lends_owned_value H.row P.row T.row P.label self.entry result) }
        ensures value { result.now ≡ owned_value self.old }
    {
        self.block.get_mut()
    }
}

impl<H, P: Labelled + Drop, T: Drop> Drop for Owned<H, P, T> {
    fn drop(self) {
        drop(self.into_inner());
    }
}
