//! Batches: what counts them. Each block has a word for the count of the batch whose first value lies in it. It uses words and the book's
//! keys.
ghost use Rattle.std.specs.Prelude.{◌≡◌, [], false, pos, true};
ghost use Rattle.seize_machine.specs.Machine.Event.{AddCount, SubCount};
ghost use Rattle.seize_words.specs.Words.{IsCount};

use crate::word::Word;
use seize_book::book::{CountKey, Keys, Pass, SlotKey, ValueKeys};
use std::marker::Brand;

/// The count of one block, which threads share.
///
/// Its word is the count of the batch whose first value lies in the block, modulo 2^64. It is 0 where there is no such batch.
#[derive(Drop)]
pub struct Count {
    word: Word,
    ghost count: { IsCount word },
}

impl Count {
    ghost use Rattle.seize_words.specs.Counts.{Counts, GivesUp, IsCountOf, IsCountOfBook, LeavesKeys, MayCountDown, MayCountUp, MayCountUpWith, TakesKeys, count_seen};
    ghost use Rattle.seize_book.specs.Kept.{AreTold};
    ghost use Rattle.seize_book.specs.Passes.{LooksOn};
    ghost use Rattle.seize_book.specs.Values.{AreOfBook, IsEmpty};
    ghost use Rattle.seize_book.specs.Blocks.{IsNear, count_word};
    ghost use Rattle.seize_book.specs.Books.{count_known, deposit_known};
    ghost use Rattle.seize_book.specs.Slots.{IsKeyOfBook, active_of, slot_number};

    /// The word of a block's count, which is 0.
    pub fn new(key: CountKey) -> Count
        requires { (count_known key ≡ pos 0) × (deposit_known key ≡ []) }
        ensures { IsCountOf result key }
    {
        let mut keys = key.keys;
        Count {
            word: Word::new(0, &mut keys),
        }
    }

    /// What the word shows in the list that the pass has seen then: modulo 2^64, the count of the batch whose first value lies in the
    /// block. The count lies between minus and plus 2^64 - 32, so the word is 0 just where the count is. It is no event, and nothing is
    /// added to the list.
    ///
    /// It takes no memory and waits for nobody: one atomic load.
    pub fn load(&self, pass: &mut Pass) -> u64
        requires { IsCountOfBook self.now pass.old }
        ensures looks { LooksOn pass.old pass.new }
        ensures shows { result ≡ count_word (count_seen self.now pass.new) }
        ensures near { IsNear (count_seen self.now pass.new) }
    {
        let mut none = Keys::empty(pass);
        self.word.look(&mut none, pass)
    }

    /// Adds the insertions won to the batch's count: the event `AddCount` of the slot that detached the batch. It says whether the count
    /// is 0 then. If it is, nobody holds the batch, its values are given up to the slot's call, and their keys stay with the caller. If it
    /// isn't, the keys go to whoever gives the batch up. Of each value the list says what is noted to be kept of it.
    ///
    /// Where the slot is active the count is not 0: the slot has the batch in its own list.
    ///
    /// It takes no memory and waits for nobody: one atomic addition.
    pub fn add(&self, won: u64, key: &mut SlotKey, values: &mut ValueKeys, pass: &mut Pass) -> bool
        requires book { IsKeyOfBook key.old pass.old × IsCountOfBook self.now pass.old × AreOfBook values.old pass.old }
        requires adds { MayCountUpWith key.old self.now won values.old }
        requires told { AreTold values.old pass.old }
        ensures counts { Counts key.old pass.old key.new pass.new (AddCount (slot_number key.old)) result }
        ensures gives { (adds : MayCountUp key.old self.now won) → GivesUp key.old key.new adds.batch [] adds.queue result }
        ensures under_guard { active_of key.old ≡ true → result ≡ false }
        ensures keys { LeavesKeys values.old pass.new values.new result }
    {
        let both = &mut key.keys;
        both.join(&mut values.keys);
        let old = self.word.add::<Brand>(won, both, pass);
        both.part(&mut values.keys);
        old.wrapping_add(won) == 0
    }

    /// Counts the batch down that the slot's walk comes to: the event `SubCount`. It says whether the count is 0 then. If it is, nobody
    /// else holds the batch, and its values are given up to the slot's call, with their keys.
    ///
    /// It takes no memory and waits for nobody: one atomic subtraction.
    pub fn subtract(&self, key: &mut SlotKey, values: &mut ValueKeys, pass: &mut Pass) -> bool
        requires book { IsKeyOfBook key.old pass.old × IsCountOfBook self.now pass.old × IsEmpty values.old pass.old }
        requires walks { MayCountDown key.old self.now }
        ensures counts { Counts key.old pass.old key.new pass.new (SubCount (slot_number key.old)) result }
        ensures gives { (walks : MayCountDown key.old self.now) → GivesUp key.old key.new walks.batch walks.walk walks.queue result }
        ensures keys { (walks : MayCountDown key.old self.now) → TakesKeys key.old walks.batch pass.new values.new result }
    {
        let both = &mut key.keys;
        let old = self.word.subtract::<Brand>(1, both, pass);
        both.part(&mut values.keys);
        old == 1
    }
}
