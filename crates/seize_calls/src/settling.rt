//! What a slot's call does when its slot's batch may be full: it attempts it, and hands its values where they are given up. What their
//! reclaimers put joins the call's queue. Others may add any events meanwhile.
use crate::attempt::{AttemptOutcome, attempt};
use crate::batch::Newcomer;
use crate::further::Further;
use crate::handing::Reclaim;
use crate::holder::Holder;
use crate::manner::Manner;
use seize_words::book::Pass;
use seize_words::words::Words;

impl<T: Drop> Holder<T> {
    ghost use Rattle.std.specs.Prelude.{max};
    ghost use Rattle.seize_book.specs.Kept.{IsTold};
    ghost use Rattle.seize_book.specs.Others.{IsValueOf, value_of};
    ghost use Rattle.seize_words.specs.Joined.{words_book};
    ghost use Rattle.seize_calls.specs.Furthers.{further_in};
    ghost use Rattle.seize_calls.specs.Together.{IsUnderWay};
    ghost use Rattle.seize_calls.specs.Laying.{Lays};
    ghost use Rattle.seize_calls.specs.Settling.{DrainsOne, IsToMark, MarksFrom, MayPut, Settles, call_state};

    /// Puts the value to the slot's batch: it comes last. What is kept of it is noted of its block. Where the batch has as many values as
    /// the batch size says, it is attempted, as by `settle`. It says whether the batch was retired.
    ///
    /// It takes no memory and waits as `settle` does.
    #[inline(always)]
    pub(crate) fn put<R: Reclaim<T>, M: Manner>(
        &mut self,
        words: &Words<T>,
        newcomer: Newcomer,
        queue: &mut Further,
        reclaimer: &mut R,
        pass: &mut Pass,
        manner: &M,
    ) -> bool
        requires stands { IsUnderWay words.now self.old queue.old pass.old
            × MayPut self.old.key (value_of newcomer.value) (further_in queue.old) }
        requires value { IsValueOf newcomer.value pass.old × IsTold pass.old.seen (value_of newcomer.value) newcomer.kept }
        requires serves { R.serves reclaimer.old (words_book words.now) × M.may manner.now pass.old.id }
        ensures stands { IsUnderWay words.now self.new queue.new pass.new × R.serves reclaimer.new (words_book words.now) }
        ensures laid { Lays pass.old self.old.spots pass.new self.new.spots }
        ensures drains_one { let from = call_state self.old pass.old queue.old (R.had reclaimer.old) in
            DrainsOne from (value_of newcomer.value) newcomer.kept (call_state self.new pass.new queue.new (R.had reclaimer.new)) result }
    {
        self.key.put(pass);
        self.batch.push(&words.blocks, newcomer);
        self.settle(words, words.size, queue, reclaimer, pass, manner)
    }

    /// Attempts the slot's batch if it has so many values, and one at least, and hands its values if they are given up; the chunks of their
    /// blocks go to the list, in order. It says whether the batch was retired: if it was, it has no values any more.
    ///
    /// It takes no memory, but for what the reclaimer does, and waits as its manner does.
    #[inline]
    pub(crate) fn settle<R: Reclaim<T>, M: Manner>(
        &mut self,
        words: &Words<T>,
        least: usize,
        queue: &mut Further,
        reclaimer: &mut R,
        pass: &mut Pass,
        manner: &M,
    ) -> bool
        requires stands { IsUnderWay words.now self.old queue.old pass.old × MarksFrom least self.old.key (further_in queue.old) }
        requires serves { R.serves reclaimer.old (words_book words.now) × M.may manner.now pass.old.id }
        ensures stands { IsUnderWay words.now self.new queue.new pass.new × R.serves reclaimer.new (words_book words.now) }
        ensures laid { Lays pass.old self.old.spots pass.new self.new.spots }
        ensures settles { let from = call_state self.old pass.old queue.old (R.had reclaimer.old) in
            Settles (max 1 least) from (call_state self.new pass.new queue.new (R.had reclaimer.new)) result }
    {
        if self.batch.len < least {
            return false;
        }
        self.settle_full(words, queue, reclaimer, pass, manner)
    }

    /// The same where the batch is to be attempted. It is kept out of the calls, so that those which attempt none are short.
    #[cold]
    #[inline(never)]
    pub(crate) fn settle_full<R: Reclaim<T>, M: Manner>(
        &mut self,
        words: &Words<T>,
        queue: &mut Further,
        reclaimer: &mut R,
        pass: &mut Pass,
        manner: &M,
    ) -> bool
        requires stands { IsUnderWay words.now self.old queue.old pass.old × IsToMark self.old.key (further_in queue.old) }
        requires serves { R.serves reclaimer.old (words_book words.now) × M.may manner.now pass.old.id }
        ensures stands { IsUnderWay words.now self.new queue.new pass.new × R.serves reclaimer.new (words_book words.now) }
        ensures laid { Lays pass.old self.old.spots pass.new self.new.spots }
        ensures settles { let from = call_state self.old pass.old queue.old (R.had reclaimer.old) in
            Settles 0 from (call_state self.new pass.new queue.new (R.had reclaimer.new)) result }
    {
        match attempt(words, &mut self.batch, &mut self.key, pass, manner) {
            AttemptOutcome::Stays => false,
            AttemptOutcome::Waits => true,
            AttemptOutcome::GivenUp => {
                let (front, mut values) = self.batch.take();
                self.hand_all(words, front, &mut values, queue, reclaimer, pass);
                true
            }
        }
    }
}
