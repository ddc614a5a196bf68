//! Where the values go that are given up to a slot's call: by value to their reclaimers, one after the other, each out of its block.
//! Others may add any events meanwhile.
ghost use Rattle.std.specs.Prelude.{◌≡◌, ◌++◌, ◌∷◌, [], ℕ, List, Some};
ghost use base.Stored.{Gv};
ghost use Rattle.seize_book.specs.Blocks.{block_number};
ghost use Rattle.seize_book.specs.Lending.{IsPermitFor};
ghost use Rattle.seize_book.specs.Linked.{next_in};
ghost use Rattle.seize_book.specs.Notes.{note_in};
ghost use Rattle.seize_book.specs.Others.{IsLast, IsValueOf, value_of};
ghost use Rattle.seize_book.specs.Slots.{hands_next, slot_of};
ghost use Rattle.seize_book.specs.Tokens.{Name};
ghost use Rattle.seize_book.specs.Values.{values_of};
ghost use Rattle.seize_book.specs.Kept.{kept_in, kepts_of};
ghost use Rattle.seize_calls.specs.Furthers.{further_in};
ghost use Rattle.seize_calls.specs.Handing.{GainsSpot, HasHad, IsServed};
ghost use Rattle.seize_calls.specs.Laying.{Lays};
ghost use Rattle.seize_calls.specs.Walking.{HandsAll, HandsOne, IsGiven};
ghost use Rattle.seize_calls.specs.Together.{IsUnderWay};
ghost use Rattle.seize_words.specs.Chunks.{blocks_book};
ghost use Rattle.seize_words.specs.Joined.{words_book};

use crate::further::Further;
use crate::holder::Holder;
use seize_words::blocks::Blocks;
use seize_words::book::{Pass, Permit, ValueKey, ValueKeys};
use seize_words::words::Words;

/// What becomes of values that nobody can see any more.
pub trait Reclaim<T> {
    /// What it had so far: of each value the word that was kept of it, the value's code, and what it put with it, the oldest first: values,
    /// and the words that are kept of these.
    ghost had: { Self → List (ℕ × Gv × List ℕ × List ℕ) };

    /// It may be called for this book: what it holds to put is of that.
    ghost serves: { Self → Name → Type 0 };

    /// Ends the value, or hands it on. The word is what was kept of it by whoever retired it, and the permit is that by which it was lent.
    /// What it puts (`Further::put`) the call retires when it has nothing else to do, in the order in which it was put; the blocks are
    /// those of the book. Nothing was put when it is called, before the value's hand is made and its block is laid into the list. It is
    /// given no pass: what it puts it has to have, with its key, or to make with a pass of its own.
    fn reclaim(
        &mut self,
        kept: u64,
        value: T,
        permit: Permit,
        further: &mut Further,
        blocks: &Blocks<T>,
    )
        requires serves { serves self.old (blocks_book blocks.now) }
        requires permit { IsPermitFor (blocks_book blocks.now) (T.row.coded.code value) permit }
        requires further { IsServed (further_in further.old) (blocks_book blocks.now) × (values_of (further_in further.old) ≡ []) }
        ensures had { let puts = further_in further.new in
            had self.new ≡ had self.old ++ (kept, T.row.coded.code value, values_of puts, kepts_of puts) ∷ [] }
        ensures serves { serves self.new (blocks_book blocks.now) }
        ensures further { IsServed (further_in further.new) (blocks_book blocks.now) };
}

impl<T: Drop> Holder<T> {
    /// Hands the value of this block, which is what the slot's call is about to hand: the value goes to the reclaimer, with the word that
    /// is kept of it, what that puts joins the call's queue, and then the block's chunk goes to the list: it stays claimed, and comes last.
    /// It gives the word that is noted of what comes next.
    ///
    /// It takes no memory and waits for nobody, but for what the reclaimer does: three look-ups, plain reads and writes. Where the list is
    /// full, half of it goes back into the store before, by an atomic swap for each spot.
    fn hand_one<R: Reclaim<T>>(
        &mut self,
        words: &Words<T>,
        number: u64,
        value: ValueKey,
        queue: &mut Further,
        reclaimer: &mut R,
        pass: &mut Pass,
    ) -> u64
        requires stands { IsUnderWay words.now self.old queue.old pass.old × R.serves reclaimer.old (words_book words.now) }
        requires value { IsValueOf value pass.old × IsLast value × (block_number (value_of value) ≡ number) }
        requires soon { hands_next (slot_of self.old.key) ≡ Some (value_of value) }
        ensures stands { IsUnderWay words.now self.new queue.new pass.new × R.serves reclaimer.new (words_book words.now) }
        ensures handed { let v = value_of value in (self.new.batch ≡ self.old.batch)
            × (one : HandsOne self.old.key pass.old v (further_in queue.old) self.new.key pass.new (further_in queue.new))
            × HasHad ((v, one.puts, one.words) ∷ []) (kept_in (note_in value) ∷ []) (R.had reclaimer.old) (R.had reclaimer.new) }
        ensures laid { GainsSpot self.old.spots self.new.spots number }
        ensures next { result ≡ next_in (note_in value) }
    {
        let blocks = &words.blocks;
        let mut value = value;
        let header = blocks.header(number, pass);
        let note = value.note(&header.note);
        let permit = value.permit();
        let block = blocks.redeem(number, &mut value, &mut self.key, pass);
        let (content, hollow) = block.take();
        let mut further = Further::new(pass);
        reclaimer.reclaim(note.kept, content, permit, &mut further, blocks);
        further.hand(&mut self.key, pass);
        queue.append(blocks, &mut further);
        value.settle(pass);
        blocks.lay_into(value, hollow, &mut self.spots);
        note.next
    }

    /// Hands all these values, which were given up to the slot's call, in their order: each goes to the reclaimer, with the word that is
    /// kept of it, what that puts joins the call's queue, and the block's chunk goes to the list, last. The number is that of the first
    /// one's block, and what is noted of each block leads to the next one's. No keys are left.
    ///
    /// It takes no memory and waits for nobody, but for what the reclaimer does: for each value, what `hand_one` does.
    pub(crate) fn hand_all<R: Reclaim<T>>(
        &mut self,
        words: &Words<T>,
        front: u64,
        values: &mut ValueKeys,
        queue: &mut Further,
        reclaimer: &mut R,
        pass: &mut Pass,
    )
        requires stands { IsUnderWay words.now self.old queue.old pass.old × R.serves reclaimer.old (words_book words.now) }
        requires given { IsGiven self.old.key pass.old values.old front }
        ensures stands { IsUnderWay words.now self.new queue.new pass.new × R.serves reclaimer.new (words_book words.now) }
        ensures handed { (self.new.batch ≡ self.old.batch) × ((given : IsGiven self.old.key pass.old values.old front)
            → (all : HandsAll given (further_in queue.old) self.new.key pass.new values.new (further_in queue.new))
            × HasHad all.handed (kepts_of values.old) (R.had reclaimer.old) (R.had reclaimer.new)) }
        ensures laid { Lays pass.old self.old.spots pass.new self.new.spots }
    {
        let mut number = front;
        loop {
            let value = values.next();
            let next = self.hand_one(words, number, value, queue, reclaimer, pass);
            if next == 0 {
                return;
            }
            number = next - 1;
        }
    }
}
