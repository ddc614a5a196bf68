//! The queue of a slot's call: when the call has nothing else to do it retires what is there, the first first, until none is left. What
//! goes to its reclaimer meanwhile may put more. Others may add any events meanwhile. Beside others the queue ends where reclaimers come
//! to put no more; alone it ends by weights.
ghost use Rattle.std.specs.Prelude.{◌≡◌};
ghost use Rattle.seize_calls.specs.Furthers.{further_in};
ghost use Rattle.seize_calls.specs.Together.{IsUnderWay};
ghost use Rattle.seize_calls.specs.Laying.{Lays};
ghost use Rattle.seize_calls.specs.Settling.{DrainsAll, HasQueue, call_state};
ghost use Rattle.seize_words.specs.Chunks.{blocks_book};
ghost use Rattle.seize_words.specs.Joined.{words_book};

use crate::further::Further;
use crate::handing::Reclaim;
use crate::holder::Holder;
use crate::limit::Limit;
use crate::manner::{Alone, Beside, Manner};
use seize_words::blocks::Blocks;
use seize_words::book::{Pass, Permit};
use seize_words::words::Words;
use std::marker::Brand;
use std::sync::Wait;

/// A reclaimer that puts less than it was given, by some weight. Where only such ones are called, a queue comes to its end.
pub trait Lightens<T>: Reclaim<T> {
    ghost use Rattle.std.specs.Prelude.{ℕ};
    ghost use Rattle.seize_calls.specs.Weights.{AreLight, AreWeighed};

    /// What this number stands for, which is lent with a value, weighs so much.
    ghost weighs: { ℕ → ℕ → Type 0 };

    /// Each of these codes weighs something. Nothing runs here.
    fn weigh(&self, permit: Permit, blocks: &Blocks<T>)
        requires { Self.serves self.now (blocks_book blocks.now) × (permit.list ≡ (blocks_book blocks.now).permits) }
        ensures { AreWeighed weighs permit.codes };

    /// With each value that it had, it put values that weigh less than that one, together. Nothing runs here.
    fn lightens(&self, blocks: &Blocks<T>)
        requires { Self.serves self.now (blocks_book blocks.now) }
        ensures { AreLight weighs (Self.had self.now) };

    /// A number stands for one weight at most.
    ghost once: { (l m n : ℕ) → weighs l m → weighs l n → m ≡ n };
}

/// A manner in which a call's queue can be drained where its reclaimer is such a one.
pub trait Drainer<T: Drop, R: Reclaim<T>>: Manner {
    /// What `Holder::drain` does, also where the queue is empty.
    fn drain_all(
        &self,
        holder: &mut Holder<T>,
        words: &Words<T>,
        queue: &mut Further,
        reclaimer: &mut R,
        pass: &mut Pass,
    )
        requires stands { IsUnderWay words.now holder.old queue.old pass.old × HasQueue holder.old.key (further_in queue.old) }
        requires serves { R.serves reclaimer.old (words_book words.now) × Self.may self.now pass.old.id }
        ensures stands { IsUnderWay words.now holder.new queue.new pass.new × R.serves reclaimer.new (words_book words.now) }
        ensures laid { Lays pass.old holder.old.spots pass.new holder.new.spots }
        ensures drains { let from = call_state holder.old pass.old queue.old (R.had reclaimer.old) in
            DrainsAll from (call_state holder.new pass.new queue.new (R.had reclaimer.new)) };
}

/// It ends where reclaimers come to put no more.
impl<T: Drop, R: Reclaim<T>, W: Wait> Drainer<T, R> for Beside<'_, W> {
    #[cold]
    #[inline(never)]
    fn drain_all(
        &self,
        holder: &mut Holder<T>,
        words: &Words<T>,
        queue: &mut Further,
        reclaimer: &mut R,
        pass: &mut Pass,
    ) {
        for _ in self.rt.forever() {
            if queue.front == 0 {
                return;
            }
            let newcomer = queue.newcomer(&words.blocks);
            holder.put(words, newcomer, queue, reclaimer, pass, self);
        }
        unreachable!()
    }
}

/// It ends: each round leaves fewer values that may still go through the queue.
impl<T: Drop, R: Lightens<T>> Drainer<T, R> for Alone {
    #[cold]
    #[inline(never)]
    fn drain_all(
        &self,
        holder: &mut Holder<T>,
        words: &Words<T>,
        queue: &mut Further,
        reclaimer: &mut R,
        pass: &mut Pass,
    ) {
        reclaimer.weigh(holder.batch.values.permit(), &words.blocks);
        reclaimer.weigh(queue.values.permit(), &words.blocks);
        let _limit = Limit::of::<Brand>(&holder.batch, queue);
        while queue.front != 0 {
            let newcomer = queue.newcomer(&words.blocks);
            holder.put(words, newcomer, queue, reclaimer, pass, self);
            reclaimer.lightens(&words.blocks);
        }
    }
}

impl<T: Drop> Holder<T> {
    /// Retires the values of the queue, which the slot's call has left to do, until none is left. Each joins the slot's batch, which is
    /// attempted where it is full. The chunks of the blocks of what is handed go to the list, in order.
    ///
    /// It takes no memory, but for what the reclaimer does, and waits as its manner does. Where the queue is empty it compares one word.
    #[inline(always)]
    pub(crate) fn drain<R: Reclaim<T>, M: Drainer<T, R>>(
        &mut self,
        words: &Words<T>,
        queue: &mut Further,
        reclaimer: &mut R,
        pass: &mut Pass,
        manner: &M,
    )
        requires stands { IsUnderWay words.now self.old queue.old pass.old × HasQueue self.old.key (further_in queue.old) }
        requires serves { R.serves reclaimer.old (words_book words.now) × M.may manner.now pass.old.id }
        ensures stands { IsUnderWay words.now self.new queue.new pass.new × R.serves reclaimer.new (words_book words.now) }
        ensures laid { Lays pass.old self.old.spots pass.new self.new.spots }
        ensures drains { let from = call_state self.old pass.old queue.old (R.had reclaimer.old) in
            DrainsAll from (call_state self.new pass.new queue.new (R.had reclaimer.new)) }
    {
        if queue.front == 0 {
            return;
        }
        manner.drain_all(self, words, queue, reclaimer, pass);
    }
}
