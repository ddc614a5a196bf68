//! The total: how many slots there are. Whoever goes through the heads reads it first; the holder of the numbers' key makes a slot by
//! adding to it. It uses words and the book's keys.
ghost use Rattle.std.specs.Prelude.{◌≡◌};
ghost use Rattle.seize_words.specs.Words.{IsTotal};

use crate::word::Word;
use seize_book::book::{HeadKey, Keys, NumbersKey, Pass, SlotKey, SlotKeys, TotalKey};
use std::marker::Brand;

/// How many slots there are, which threads share. Slots are made in the order of their numbers, so those below it are there.
#[derive(Drop)]
pub struct Total {
    word: Word,
    ghost total: { IsTotal word },
}

impl Total {
    ghost use Rattle.seize_book.specs.Slots.{IsKeyOfBook};
    ghost use Rattle.seize_book.specs.Passes.{LooksOn};
    ghost use Rattle.seize_book.specs.Tables.{IsPlaced};
    ghost use Rattle.seize_words.specs.Totals.{AreNextKeys, IsTotalOf, IsTotalOfBook, MakesSlot, MayMake, slots_seen, total_known};
    ghost use Rattle.seize_book.specs.Others.{AreNumbersOf};

    /// The word of a book that has no slot yet.
    pub fn new(key: TotalKey) -> Total
        requires { total_known key ≡ 0 }
        ensures { IsTotalOf result key }
    {
        let mut keys = key.keys;
        Total {
            word: Word::new(0, &mut keys),
        }
    }

    /// How many slots there are in the list that the pass has seen then. It is no event, and nothing is added to the list.
    ///
    /// It takes no memory and waits for nobody: one atomic load.
    pub fn load(&self, pass: &mut Pass) -> u64
        requires { IsTotalOfBook self.now pass.old }
        ensures looks { LooksOn pass.old pass.new }
        ensures shows { result ≡ slots_seen pass.new }
    {
        let mut none = Keys::empty(pass);
        self.word.look(&mut none, pass)
    }

    /// Makes the slot that comes next: the event `Take` of a number that was never in use, where all numbers below it are in use. From
    /// then on whoever loads the total knows that the slot is there, so its head has to be in its place before, as the slot's key says. It
    /// gives the keys of the slot that comes after it.
    ///
    /// It takes no memory and waits for nobody: one atomic addition.
    pub fn add(&self, key: &mut SlotKey, numbers: &mut NumbersKey, pass: &mut Pass) -> SlotKeys
        requires book { IsKeyOfBook key.old pass.old × AreNumbersOf numbers.old pass.old × IsTotalOfBook self.now pass.old }
        requires next { MayMake numbers.old key.old }
        requires place { IsPlaced key.old }
        ensures made { MakesSlot numbers.old key.old pass.old numbers.new key.new pass.new }
        ensures next { AreNextKeys numbers.new pass.new result }
    {
        let mut next = numbers.keys.none();
        let mut head = numbers.keys.none();
        let both = &mut numbers.keys;
        both.join(&mut key.keys);
        self.word.add::<Brand>(1, both, pass);
        both.part(&mut key.keys);
        key.keys.part(&mut next);
        next.part(&mut head);
        SlotKeys {
            slot: SlotKey { keys: next },
            head: HeadKey { keys: head },
        }
    }
}
