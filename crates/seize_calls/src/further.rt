//! Further values: those that a reclaimer puts, and the queue of a slot's call, which has them one after the other until they are retired
//! too. They are a chain through their blocks, as a batch is one, and so they take no memory.
ghost use Rattle.std.specs.Prelude.{◌≡◌, true};
ghost use Rattle.seize_calls.specs.Numbered.{ends_at, word_of_first};
ghost use Rattle.seize_book.specs.Values.{AreClosed, values_of};

use crate::batch::Newcomer;
use crate::chain::{join, lead_on};
use seize_words::blocks::Blocks;
use seize_words::book::{Pass, SlotKey, ValueKey, ValueKeys};

/// The keys of some values, in the order in which they were put. Of each block it is noted which one comes next, and of the last one's that
/// none does.
///
/// Those that are dropped leave their blocks, and what is lent in them, where they are for good.
#[derive(Drop)]
pub struct Further {
    // The block of the first one, as a link's word would show it: its number and one more, or 0 where there is none.
    pub(crate) front: u64,
    // The number of the last one's block, where there is one.
    pub(crate) last: u64,
    pub(crate) values: ValueKeys,
    ghost its_front: { front ≡ word_of_first (values_of values) },
    ghost back: { ends_at last (values_of values) ≡ true },
    ghost closed: { AreClosed values },
}

impl Further {
    ghost use Rattle.std.specs.Prelude.{◌≢◌, ◌↔◌, [], is_some};
    ghost use Rattle.seize_machine.specs.Machine.Event.{Hand};
    ghost use Rattle.seize_book.specs.Adding.{deed_with_words};
    ghost use Rattle.seize_book.specs.Books.{IsNextIn};
    ghost use Rattle.seize_book.specs.Kept.{kepts_of};
    ghost use Rattle.seize_book.specs.Lending.{IsLentKey};
    ghost use Rattle.seize_book.specs.Others.{book_of, value_of};
    ghost use Rattle.seize_book.specs.Slots.{AddsDeed, IsKeyOfBook, hands_next, slot_number, slot_of};
    ghost use Rattle.seize_book.specs.Values.{AreNew, AreOfBook, FollowsValues, IsEmpty, IsEmptyIn, book_in};
    ghost use Rattle.seize_calls.specs.Batches.{IsPushed};
    ghost use Rattle.seize_calls.specs.Furthers.{IsFirstOut, JoinsValues, further_in};
    ghost use Rattle.seize_words.specs.Chunks.{blocks_book};

    /// No values, of the pass's book.
    pub fn new(pass: &mut Pass) -> Further
        ensures { IsEmpty (further_in result) pass.old × (pass.new ≡ pass.old) }
    {
        Further {
            front: 0,
            last: 0,
            values: ValueKeys::new(pass),
        }
    }

    /// No values, of the same book.
    pub fn none(&mut self) -> Further
        ensures { (self.new ≡ self.old) × IsEmptyIn (book_in (further_in self.old)) (further_in result) }
    {
        Further {
            front: 0,
            last: 0,
            values: self.values.none(),
        }
    }

    /// Whether there are none. It compares one word.
    pub fn is_empty(&self) -> bool
        ensures { (result ≡ true) ↔ (values_of (further_in self.now) ≡ []) }
    {
        self.front == 0
    }

    /// Puts one value more, which comes last: that of the block with this number, which is lent there. It was never named. This is kept of
    /// it, which says for which reclaimer it is.
    ///
    /// It takes no memory: two look-ups, a plain read and two plain writes.
    pub fn put<T: Drop>(&mut self, blocks: &Blocks<T>, number: u64, kept: u64, value: ValueKey)
        requires book { (book_in (further_in self.old) ≡ blocks_book blocks.now) × (book_of value ≡ blocks_book blocks.now) }
        requires value { IsNextIn value number × IsLentKey value }
        requires new { AreNew (further_in self.old) }
        ensures puts { IsPushed (further_in self.old) (value_of value) kept (further_in self.new) }
        ensures new { AreNew (further_in self.new) }
    {
        let empty = self.front == 0;
        join(
            blocks,
            &mut self.values,
            empty,
            self.last,
            number,
            kept,
            value,
        );
        self.front = if empty { number + 1 } else { self.front };
        self.last = number;
    }

    /// All the others come after its own, and none are left there.
    ///
    /// It takes no memory, however many they are: a look-up, a plain read and a plain write.
    pub fn append<T: Drop>(&mut self, blocks: &Blocks<T>, other: &mut Further)
        requires book { (book_in (further_in self.old) ≡ blocks_book blocks.now) ×
            (book_in (further_in other.old) ≡ blocks_book blocks.now) }
        ensures joins { JoinsValues (further_in self.old) (further_in other.old) (further_in self.new) }
        ensures emptied { (book_in (further_in other.new) ≡ book_in (further_in other.old)) ×
            (values_of (further_in other.new) ≡ []) }
        ensures new { AreNew (further_in self.old) → AreNew (further_in other.old) →
            AreNew (further_in self.new) × AreNew (further_in other.new) }
    {
        if other.front == 0 {
            return;
        }
        let empty = self.front == 0;
        lead_on(blocks, &mut self.values, empty, self.last, other.front - 1);
        self.values.append(&mut other.values);
        self.front = if empty { other.front } else { self.front };
        self.last = other.last;
        other.front = 0;
    }

    /// The first of them, which there is, with the number of its block and what is kept of it. Where they may be put, it was never named.
    ///
    /// It takes no memory: a look-up and a plain read.
    pub fn next<T: Drop>(&mut self, blocks: &Blocks<T>) -> (ValueKey, u64, u64)
        requires book { book_in (further_in self.old) ≡ blocks_book blocks.now }
        requires some { values_of (further_in self.old) ≢ [] }
        ensures first { IsFirstOut (further_in self.old) result.0 result.1 result.2 (further_in self.new) }
        ensures new { AreNew (further_in self.old) → IsNextIn result.0 result.1 × IsLentKey result.0 × AreNew (further_in self.new) }
    {
        let mut value = self.values.next();
        let number = self.front - 1;
        let note = value.note(blocks.cell(number, &value));
        self.front = note.next;
        (value, number, note.kept)
    }

    /// The first of them, which there is, as it joins the slot's batch.
    ///
    /// It takes no memory: a look-up and a plain read.
    #[inline]
    pub(crate) fn newcomer<T: Drop>(&mut self, blocks: &Blocks<T>) -> Newcomer
        requires book { book_in (further_in self.old) ≡ blocks_book blocks.now }
        requires some { values_of (further_in self.old) ≢ [] }
        ensures { IsFirstOut (further_in self.old) result.value result.number result.kept (further_in self.new) }
    {
        let (value, number, kept) = self.next(blocks);
        Newcomer {
            number,
            kept,
            value,
        }
    }

    /// The event `Hand`: the value that the slot's call is about to hand goes to its reclaimer, which put these. It says what is kept of
    /// each.
    pub(crate) fn hand(&mut self, key: &mut SlotKey, pass: &mut Pass)
        requires book { IsKeyOfBook key.old pass.old × AreOfBook (further_in self.old) pass.old }
        requires next { is_some (hands_next (slot_of key.old)) ≡ true }
        requires new { AreNew (further_in self.old) }
        ensures noted { let hands = Hand (slot_number key.old) (values_of (further_in self.old)) in
            AddsDeed key.old pass.old key.new pass.new (deed_with_words pass.old hands (kepts_of (further_in self.old))) }
        ensures keys { FollowsValues (further_in self.old) pass.new (further_in self.new) }
    {
        key.hand_with(&mut self.values, pass);
    }
}
