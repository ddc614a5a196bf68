//! The walk of a call that has swapped its own head out: it counts down each batch that waited, by the words in the headers of blocks.
//! Others may step on all these words meanwhile, and add any events.
ghost use Rattle.std.specs.Prelude.{◌≡◌};
ghost use Rattle.seize_calls.specs.Laying.{Lays};
ghost use Rattle.seize_calls.specs.Walking.{IsAtWalk, WalksAll, WalksTo};
ghost use Rattle.seize_words.specs.Chunks.{blocks_book};
ghost use Rattle.seize_words.specs.Joined.{words_book};
ghost use Rattle.seize_book.specs.Slots.{IsKeyOfBook};
ghost use Rattle.seize_book.specs.Values.{IsEmpty};
ghost use Rattle.seize_calls.specs.Furthers.{further_in};
ghost use Rattle.seize_calls.specs.Together.{IsUnderWay};
ghost use Rattle.seize_words.specs.Walks.{Knows};

use crate::further::Further;
use crate::handing::Reclaim;
use crate::holder::Holder;
use seize_words::blocks::Blocks;
use seize_words::book::{Pass, SlotKey, ValueKeys};
use seize_words::words::Words;

/// Where a walk stops.
#[derive(Clone, Copy, PartialEq, Eq, Debug)]
pub enum WalkOutcome {
    /// Each batch was counted down, and none more was given up.
    Over,
    /// A batch was given up to the call, which is to hand its values before the walk goes on. First the number of the block of the first of
    /// them, and then the word that leads to the rest of the walk.
    GivesUp(u64, u64),
}

/// Counts down the batches to which this word leads, until one is given up to the slot's call. The keys of its values come out then.
///
/// It takes no memory and waits for nobody: for each batch, what `Blocks::count_down` does.
pub fn walk<T: Drop>(
    blocks: &Blocks<T>,
    word: u64,
    key: &mut SlotKey,
    values: &mut ValueKeys,
    pass: &mut Pass,
) -> WalkOutcome
    requires book { IsKeyOfBook key.old pass.old × (blocks_book blocks.now ≡ pass.old.name) × IsEmpty values.old pass.old }
    requires knows { Knows key.old pass.old }
    requires at { IsAtWalk key.old word }
    ensures book { IsKeyOfBook key.new pass.new }
    ensures knows { Knows key.new pass.new }
    ensures walks { (at : IsAtWalk key.old word) → WalksTo at pass.old key.new pass.new values.new result }
{
    let mut leads = word;
    while leads != 1 {
        let (rest, zero, front) = blocks.count_down(leads, key, values, pass);
        if zero {
            return WalkOutcome::GivesUp(front, rest);
        }
        leads = rest;
    }
    WalkOutcome::Over
}

impl<T: Drop> Holder<T> {
    /// Counts down all the batches to which this word leads. What one of them gives up is handed before the walk goes on, and what the
    /// reclaimer puts joins the call's queue. The chunks of the blocks of what is handed go to the list, in order.
    ///
    /// It takes no memory and waits for nobody, but for what the reclaimer does. Where no batch waits it compares one word.
    #[inline(always)]
    pub(crate) fn walk_all<R: Reclaim<T>>(
        &mut self,
        words: &Words<T>,
        word: u64,
        queue: &mut Further,
        reclaimer: &mut R,
        pass: &mut Pass,
    )
        requires stands { IsUnderWay words.now self.old queue.old pass.old × R.serves reclaimer.old (words_book words.now) }
        requires at { IsAtWalk self.old.key word }
        ensures stands { IsUnderWay words.now self.new queue.new pass.new × R.serves reclaimer.new (words_book words.now) }
        ensures walks { (self.new.batch ≡ self.old.batch) × ((at : IsAtWalk self.old.key word) → let had = R.had reclaimer.old in
            WalksAll at pass.old (further_in queue.old) had self.new.key pass.new (further_in queue.new) (R.had reclaimer.new)) }
        ensures laid { Lays pass.old self.old.spots pass.new self.new.spots }
    {
        if word == 1 {
            return;
        }
        self.walk_waiting(words, word, queue, reclaimer, pass);
    }

    // The same where some may wait. It is kept out of the calls, so that those for which none waits are short.
    #[cold]
    #[inline(never)]
    fn walk_waiting<R: Reclaim<T>>(
        &mut self,
        words: &Words<T>,
        word: u64,
        queue: &mut Further,
        reclaimer: &mut R,
        pass: &mut Pass,
    )
        requires stands { IsUnderWay words.now self.old queue.old pass.old × R.serves reclaimer.old (words_book words.now) }
        requires at { IsAtWalk self.old.key word }
        ensures stands { IsUnderWay words.now self.new queue.new pass.new × R.serves reclaimer.new (words_book words.now) }
        ensures walks { (self.new.batch ≡ self.old.batch) × ((at : IsAtWalk self.old.key word) → let had = R.had reclaimer.old in
            WalksAll at pass.old (further_in queue.old) had self.new.key pass.new (further_in queue.new) (R.had reclaimer.new)) }
        ensures laid { Lays pass.old self.old.spots pass.new self.new.spots }
    {
        let mut values = ValueKeys::new(pass);
        let mut leads = word;
        loop {
            match walk(&words.blocks, leads, &mut self.key, &mut values, pass) {
                WalkOutcome::Over => return,
                WalkOutcome::GivesUp(front, rest) => {
                    self.hand_all(words, front, &mut values, queue, reclaimer, pass);
                    leads = rest;
                }
            }
        }
    }
}
