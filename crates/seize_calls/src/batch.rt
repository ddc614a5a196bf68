//! The batch of a slot, as its holder keeps it, or what slots left: the keys of the values, and where the first and the last lie. What
//! comes between is noted of the blocks themselves, so a batch takes no memory, however many values it has.
ghost use Rattle.std.specs.Prelude.{◌≡◌, ◌+◌, ◌<◌, ◌^◌, true};
ghost use Rattle.seize_book.specs.Blocks.{block_number};
ghost use Rattle.seize_book.specs.Others.{value_of};
ghost use Rattle.seize_calls.specs.Numbered.{ends_at, is_count_of, starts_at};
ghost use Rattle.seize_book.specs.Values.{AreClosed, values_of};

use crate::chain::{join, lead_on};
use seize_words::blocks::Blocks;
use seize_words::book::{Pass, ValueKey, ValueKeys};
use std::mem;

/// The keys of the values of a slot's batch, in the order in which they were put, or those of the rest, which slots left as they ended. Of
/// each block it is noted which one comes next, and of the last one's that none does.
///
/// A batch that is dropped leaves its blocks, and what is lent in them, where they are for good: nothing is handed, and no row of theirs
/// goes back.
#[derive(Drop)]
pub struct Batch {
    // The numbers of the blocks of the first and the last value, where there are some.
    pub(crate) first: u64,
    pub(crate) last: u64,
    pub(crate) len: usize,
    pub(crate) values: ValueKeys,
    ghost many: { is_count_of len (values_of values) ≡ true },
    ghost front: { starts_at first (values_of values) ≡ true },
    ghost back: { ends_at last (values_of values) ≡ true },
    ghost closed: { AreClosed values },
    ghost fits: { first + 1 < 2 ^ 64 },
}

/// A value that is about to join a batch, with the number of its block and what is kept of it.
pub struct Newcomer {
    pub(crate) number: u64,
    pub(crate) kept: u64,
    pub(crate) value: ValueKey,
    ghost its: { block_number (value_of value) ≡ number },
}

impl Batch {
    ghost use Rattle.std.specs.Prelude.{length, max, min, nat_le, nat_lt, ◌-◌};
    ghost use Rattle.seize_book.specs.Others.{book_of};
    ghost use Rattle.seize_book.specs.Values.{IsEmpty, IsEmptyIn, book_in};
    ghost use Rattle.seize_calls.specs.Batches.{IsPushed, keys_in};
    ghost use Rattle.seize_calls.specs.Furthers.{JoinsValues};
    ghost use Rattle.seize_calls.specs.Numbered.{are_none};
    ghost use Rattle.seize_words.specs.Chunks.{blocks_book};

    /// A batch of no values, of the pass's book.
    pub fn new(pass: &mut Pass) -> Batch
        ensures { IsEmpty (keys_in result) pass.old × (pass.new ≡ pass.old) }
    {
        Batch {
            first: 0,
            last: 0,
            len: 0,
            values: ValueKeys::new(pass),
        }
    }

    /// One value more comes last.
    ///
    /// It takes no memory: two look-ups, a plain read and two plain writes.
    #[inline(always)]
    pub(crate) fn push<T: Drop>(&mut self, blocks: &Blocks<T>, newcomer: Newcomer)
        requires { (book_in (keys_in self.old) ≡ blocks_book blocks.now) × (book_of newcomer.value ≡ blocks_book blocks.now) }
        ensures { IsPushed (keys_in self.old) (value_of newcomer.value) newcomer.kept (keys_in self.new) }
    {
        let Newcomer {
            number,
            kept,
            value,
        } = newcomer;
        let empty = self.len == 0;
        join(
            blocks,
            &mut self.values,
            empty,
            self.last,
            number,
            kept,
            value,
        );
        self.first = if empty { number } else { self.first };
        self.last = number;
        self.len = self.len.saturating_add(1);
    }

    /// All the values of the other batch come after its own, and none are left there.
    ///
    /// It takes no memory, however many they are: a look-up, a plain read and a plain write.
    pub(crate) fn append<T: Drop>(&mut self, blocks: &Blocks<T>, other: &mut Batch)
        requires book { (book_in (keys_in self.old) ≡ blocks_book blocks.now) × (book_in (keys_in other.old) ≡ blocks_book blocks.now) }
        ensures joins { JoinsValues (keys_in self.old) (keys_in other.old) (keys_in self.new) }
        ensures emptied { IsEmptyIn (book_in (keys_in other.old)) (keys_in other.new) }
    {
        if other.len == 0 {
            return;
        }
        let empty = self.len == 0;
        lead_on(blocks, &mut self.values, empty, self.last, other.first);
        self.values.append(&mut other.values);
        self.first = if empty { other.first } else { self.first };
        self.last = other.last;
        self.len = self.len.saturating_add(other.len);
        other.len = 0;
    }

    /// Whether it has no values. It compares one word.
    pub fn is_empty(&self) -> bool
        ensures { result ≡ are_none (values_of (keys_in self.now)) }
    {
        self.len == 0
    }

    /// Whether it has so many values, and one at least.
    pub(crate) fn is_full(&self, size: usize) -> bool
        ensures { result ≡ nat_le (max 1 size) (length (values_of (keys_in self.now))) }
    {
        self.len != 0 && self.len >= size
    }

    /// Whether it has fewer values with one more. It compares two words.
    #[inline(always)]
    pub(crate) fn stays_short(&self, size: usize) -> bool
        ensures { result ≡ nat_lt (length (values_of (keys_in self.now)) + 1) size }
    {
        self.len.saturating_add(1) < size
    }

    /// All its values come out, with the number of the first one's block, and none are left.
    pub(crate) fn take(&mut self) -> (u64, ValueKeys)
        ensures out { (result.0 ≡ self.old.first) × (result.1 ≡ keys_in self.old) }
        ensures left { IsEmptyIn (book_in (keys_in self.old)) (keys_in self.new) }
    {
        let none = self.values.none();
        self.len = 0;
        (self.first, mem::replace(&mut self.values, none))
    }
}
