//! Heads: what a slot has reserved. A head's word shows whether the slot is active, and the list of retired batches that wait for it. It
//! uses words and the book's keys.
ghost use Rattle.std.specs.Prelude.{◌≡◌, true, false};
ghost use Rattle.seize_machine.specs.Machine.State.{Inactive, is_idle};
ghost use Rattle.seize_machine.specs.Machine.Event.{Enter, Insert, ReadHead, SwapOut};
ghost use Rattle.seize_words.specs.Heads.{IsHead, found_end};

use crate::activation::Activation;
use crate::word::Word;
use seize_book::book::{HeadKey, Pass, SlotKey};
use std::marker::Brand;

/// The head of one slot, which threads share.
///
/// Its word is 0 where the slot is inactive, 1 where it is active and nothing waits for it, and else 2 and the number of the block with
/// which the newest batch that waits was inserted.
#[derive(Drop)]
pub struct Head {
    word: Word,
    ghost head: { IsHead word },
}

impl Head {
    ghost use Rattle.seize_words.specs.Reservations.{FoundBefore, IsActivationOf, IsHeadOf, IsHeadOfBook, IsLastOf, IsOfSlot, IsOut, IsOwnHead, MayRead, ShowsHead, TriesAt, WalksFrom, beginning, head_known, slot};
    ghost use Rattle.seize_book.specs.Slots.{AddsDeed, AddsEvent, IsKeyOfBook, active_of, slot_number, slot_of};

    /// The word of an inactive slot's head. The slot may be one that is not there yet.
    pub fn new(key: HeadKey) -> Head
        requires { head_known key ≡ Inactive }
        ensures { IsHeadOf result key }
    {
        let mut keys = key.keys;
        Head {
            word: Word::new(0, &mut keys),
        }
    }

    /// Reads the head: the event `ReadHead` of a slot whose call marks, or is about to insert its batch here.
    ///
    /// It takes no memory and waits for nobody: one atomic load.
    pub fn read(&self, key: &mut SlotKey, pass: &mut Pass) -> u64
        requires book { IsKeyOfBook key.old pass.old × IsHeadOfBook self.now pass.old }
        requires reads { MayRead key.old self.now pass.old }
        ensures noted { AddsEvent key.old pass.old key.new pass.new (ReadHead (slot_number key.old) (slot self.now)) }
        ensures shows { ShowsHead self.now pass.new.seen result }
    {
        self.word.load::<Brand>(&mut key.keys, pass)
    }

    /// Inserts the slot's batch with this block if the head's word is still what was seen: the event `Insert`. It gives the word that it
    /// found; the insertion is won if that is what was seen. Before each try, also after a loss, the call has stored what it saw in the
    /// block's next field, and the number of its batch's first block in its first field.
    ///
    /// It takes no memory and waits for nobody: one atomic compare and exchange.
    pub fn insert(&self, seen: u64, block: u64, key: &mut SlotKey, pass: &mut Pass) -> u64
        requires book { IsKeyOfBook key.old pass.old × IsHeadOfBook self.now pass.old }
        requires tries { TriesAt key.old self.now seen block }
        ensures noted { AddsEvent key.old pass.old key.new pass.new (Insert (slot_number key.old) (slot self.now) (found_end seen result)) }
        ensures found { FoundBefore self.now pass.new result }
    {
        self.word
            .exchange::<Brand>(seen, block + 2, &mut key.keys, pass)
    }

    /// The slot becomes active: the event `Enter`, which begins the activation.
    ///
    /// It takes no memory and waits for nobody: one atomic swap.
    pub fn enter(&self, activation: &mut Activation, key: &mut SlotKey, pass: &mut Pass)
        requires book { IsKeyOfBook key.old pass.old × IsHeadOfBook self.now pass.old × IsOwnHead self.now key.old }
        requires outside { (is_idle (slot_of key.old) ≡ true) × (active_of key.old ≡ false) }
        requires slot { IsOfSlot key.old activation.old }
        ensures noted { AddsDeed key.old pass.old key.new pass.new (beginning pass.old activation.new.life (Enter (slot_number key.old))) }
        ensures activation { IsActivationOf key.new activation.new }
    {
        let mut ended = activation.end();
        self.word.swap::<Brand>(1, &mut key.keys, &mut ended, pass);
        activation.begin(&mut key.keys);
    }

    /// The slot leaves: the event `SwapOut` of a leave, which ends the activation. It gives the word of the head that comes out. The slot
    /// may enter with the same activation again.
    ///
    /// It takes no memory and waits for nobody: one atomic swap.
    pub fn leave(&self, activation: &mut Activation, key: &mut SlotKey, pass: &mut Pass) -> u64
        requires book { IsKeyOfBook key.old pass.old × IsHeadOfBook self.now pass.old × IsOwnHead self.now key.old }
        requires leaving { IsOut key.old false }
        requires last { IsLastOf key.old activation.old }
        ensures noted { AddsEvent key.old pass.old key.new pass.new (SwapOut (slot_number key.old)) }
        ensures slot { IsOfSlot key.new activation.new }
        ensures found { FoundBefore self.now pass.new result }
        ensures walks { (leaving : IsOut key.old false) → WalksFrom self.now key.new result leaving.0 }
    {
        let mut over = activation.end();
        self.word.swap::<Brand>(0, &mut key.keys, &mut over, pass)
    }

    /// The slot refreshes: the event `SwapOut` of a refresh, which ends the activation and begins another one. It gives the word of the
    /// head that comes out.
    ///
    /// It takes no memory and waits for nobody: one atomic swap.
    pub fn refresh(&self, activation: &mut Activation, key: &mut SlotKey, pass: &mut Pass) -> u64
        requires book { IsKeyOfBook key.old pass.old × IsHeadOfBook self.now pass.old × IsOwnHead self.now key.old }
        requires refreshing { IsOut key.old true }
        requires last { IsLastOf key.old activation.old }
        ensures noted { AddsDeed key.old pass.old key.new pass.new
            (beginning pass.old activation.new.life (SwapOut (slot_number key.old))) }
        ensures activation { IsActivationOf key.new activation.new }
        ensures found { FoundBefore self.now pass.new result }
        ensures walks { (refreshing : IsOut key.old true) → WalksFrom self.now key.new result refreshing.0 }
    {
        let mut ended = activation.end();
        let word = self.word.swap::<Brand>(1, &mut key.keys, &mut ended, pass);
        activation.begin(&mut key.keys);
        word
    }
}
