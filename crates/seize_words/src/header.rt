//! Headers: the two fields of a block by which the batches that wait for a slot lead on from block to block. A slot's call stores them
//! before it tries to insert its batch with the block, and who walks the slot's list loads them. It uses words and the book's keys.
ghost use Rattle.std.specs.Prelude.{◌≡◌};
ghost use Rattle.seize_words.specs.Words.{IsField};

use crate::word::Word;
use seize_book::book::{FieldKey, Pass, SlotKey};
use std::marker::Brand;

/// One field of one block's header, which threads share.
///
/// The next field holds what the word of the slot's head would be for the rest of the list; the first field holds the number of the first
/// block of the batch, with which the batch's count stands. What they hold counts from when a slot's call is about to try to insert its
/// batch with the block until that batch is counted down; at other times nobody reads it.
#[derive(Drop)]
pub struct Field {
    word: Word,
    ghost field: { IsField word },
}

impl Field {
    ghost use Rattle.seize_words.specs.Headers.{IsFieldOf, IsFieldOfBook, MayLoad, MayStore, ShowsField, Uses, Wrote, field_number, field_seen};
    ghost use Rattle.seize_book.specs.Books.{field_known};
    ghost use Rattle.seize_book.specs.Passes.{LooksOn};
    ghost use Rattle.seize_book.specs.Slots.{IsKeyOfBook, IsStill};

    /// The word of a field in which nothing was stored.
    pub fn new(key: FieldKey) -> Field
        requires { field_known key ≡ 0 }
        ensures { IsFieldOf result key }
    {
        let mut keys = key.keys;
        Field {
            word: Word::new(0, &mut keys),
        }
    }

    /// Stores the value, by a slot whose call is about to try to insert its batch with this block: in the next field the word of the head
    /// that the call saw, and in the first field the number of the batch's first block. It is no event of the machine.
    ///
    /// It takes no memory and waits for nobody: one atomic swap.
    pub fn store(&self, value: u64, key: &mut SlotKey, pass: &mut Pass)
        requires book { IsKeyOfBook key.old pass.old × IsFieldOfBook self.now pass.old }
        requires stored { MayStore self.now key.old }
        ensures uses { Uses key.old pass.old key.new pass.new (field_number self.now) value }
        ensures wrote { Wrote self.now key.old key.new value }
    {
        self.word.replace::<Brand>(value, &mut key.keys, pass);
    }

    /// Loads the field, by a slot whose call is about to count down the batch that was inserted with this block: what was last stored
    /// there, in the list that the pass has seen then. It is no event of the machine, and nothing is added to the list.
    ///
    /// It takes no memory and waits for nobody: one atomic load.
    pub fn load(&self, key: &mut SlotKey, pass: &mut Pass) -> u64
        requires book { IsKeyOfBook key.old pass.old × IsFieldOfBook self.now pass.old }
        requires passed { MayLoad self.now key.old }
        ensures looks { LooksOn pass.old pass.new × IsStill key.old key.new }
        ensures told { result ≡ field_seen self.now pass.new }
        ensures shows { ShowsField self.now key.old result }
    {
        self.word.look(&mut key.keys, pass)
    }
}
