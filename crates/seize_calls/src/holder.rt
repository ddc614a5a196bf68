//! A slot's holder: what the slot has for its calls, in one value, and the whole calls, each from its begin to its return. They make their
//! own events with the pass, in the order of the scheme, beside whatever others add. What reclaimers put meanwhile is retired in the same
//! call, when it has nothing else to do.
ghost use Rattle.std.specs.Prelude.{◌≡◌, true};
ghost use Rattle.seize_machine.specs.Machine.Event.{Begin, SwapOut};
ghost use Rattle.seize_book.specs.Slots.{AddsDeed, AddsEvent, IsKeyOfBook, slot_number};
ghost use Rattle.seize_words.specs.Reservations.{IsActivationOf, IsHeadOfBook, IsLastOf, IsOfSlot, IsOut, IsOwnHead, WalksFrom, beginning};
ghost use Rattle.seize_calls.specs.Calls.{IsInside, job_of, life_when};

use crate::batch::{Batch, Newcomer};
use crate::draining::Drainer;
use crate::further::Further;
use crate::handing::Reclaim;
use seize_store::Spots;
use seize_words::activation::Activation;
use seize_words::book::{Pass, SlotKey};
use seize_words::chunk::{Header, Part};
use seize_words::reservation::Head;
use seize_words::words::Words;

/// What a slot has for its calls: the right to them, its batch, and spots, the chunks of blocks whose values are gone, for its next
/// blocks. For each value that a call hands, in order, the chunk of its block comes to these, last (`laid`).
#[derive(Drop)]
pub struct Holder<T> {
    pub(crate) key: SlotKey,
    pub(crate) batch: Batch,
    pub(crate) spots: Spots<Header, Part, T>,
}

/// How a slot swaps its head out.
#[derive(Clone, Copy)]
pub struct Way<'h> {
    /// The head.
    pub head: &'h Head,
    /// Whether the slot stays active: it refreshes, and else it leaves.
    pub stays: bool,
}

impl<T: Drop> Holder<T> {
    ghost use Rattle.seize_machine.specs.Machine.State.{is_idle};
    ghost use Rattle.seize_book.specs.Others.{MayRetire, book_of, value_of};
    ghost use Rattle.seize_book.specs.Slots.{slot_of};
    ghost use Rattle.seize_words.specs.Joined.{words_book};
    ghost use Rattle.seize_calls.specs.Batches.{keys_in};
    ghost use Rattle.seize_calls.specs.Calls.{BeginsToAttempt, Ends, Flushes, HasBegun, Leaves, Resumes, RetiresOne};
    ghost use Rattle.seize_calls.specs.Furthers.{further_in};
    ghost use Rattle.seize_calls.specs.Together.{IsHolderFor, IsUnderWay};
    ghost use Rattle.seize_calls.specs.Laying.{Lays};
    ghost use Rattle.seize_calls.specs.Settling.{HasQueue, call_state};

    /// Attempts the slot's batch at any length. It says whether the batch was retired with the values that it had.
    ///
    /// What reclaimers put meanwhile is retired then, one after the other: the batch may have some of these values afterwards. It takes no
    /// memory, but for what the reclaimer does, and waits as its manner does.
    pub fn flush<R: Reclaim<T>, M: Drainer<T, R>>(
        &mut self,
        words: &Words<T>,
        reclaimer: &mut R,
        pass: &mut Pass,
        manner: &M,
    ) -> bool
        requires holder { IsHolderFor words.now self.old pass.old × IsInside self.old.key }
        requires serves { R.serves reclaimer.old (words_book words.now) × M.may manner.now pass.old.id }
        ensures holder { IsHolderFor words.now self.new pass.new × R.serves reclaimer.new (words_book words.now) }
        ensures laid { Lays pass.old self.old.spots pass.new self.new.spots }
        ensures flushes { let had = R.had reclaimer.old in let had' = R.had reclaimer.new in
            Flushes self.old.key pass.old (keys_in self.old.batch) had self.new.key pass.new (keys_in self.new.batch) had' result }
    {
        let mut queue = Further::new(pass);
        self.key.begin_flush(pass);
        let retired = self.settle(words, 1, &mut queue, reclaimer, pass, manner);
        self.finish(words, &mut queue, reclaimer, pass, manner);
        retired
    }

    /// Goes on with a call that a take or a gathering began: attempts the slot's batch, at any length.
    ///
    /// It takes no memory and waits as `flush` does.
    pub fn resume<R: Reclaim<T>, M: Drainer<T, R>>(
        &mut self,
        words: &Words<T>,
        reclaimer: &mut R,
        pass: &mut Pass,
        manner: &M,
    )
        requires holder { IsHolderFor words.now self.old pass.old × BeginsToAttempt self.old.key }
        requires serves { R.serves reclaimer.old (words_book words.now) × M.may manner.now pass.old.id }
        ensures holder { IsHolderFor words.now self.new pass.new × R.serves reclaimer.new (words_book words.now) }
        ensures laid { Lays pass.old self.old.spots pass.new self.new.spots }
        ensures resumes { let had = R.had reclaimer.old in let had' = R.had reclaimer.new in
            Resumes self.old.key pass.old (keys_in self.old.batch) had self.new.key pass.new (keys_in self.new.batch) had' }
    {
        let mut queue = Further::new(pass);
        self.settle_full(words, &mut queue, reclaimer, pass, manner);
        self.finish(words, &mut queue, reclaimer, pass, manner);
    }

    /// Retires the value of this key, which lies in the block of this number: it joins the slot's batch, and comes last. What its owner
    /// keeps of it is noted of its block, and the list says it for good: whoever is given the value hands it to its reclaimer with this
    /// word. Where the batch has as many values as the batch size says, it is attempted. It says whether the batch was retired, with the
    /// values that it had then.
    ///
    /// It takes no memory and waits as `flush` does.
    #[inline(always)]
    pub fn retire<R: Reclaim<T>, M: Drainer<T, R>>(
        &mut self,
        words: &Words<T>,
        newcomer: Newcomer,
        reclaimer: &mut R,
        pass: &mut Pass,
        manner: &M,
    ) -> bool
        requires holder { IsHolderFor words.now self.old pass.old × (is_idle (slot_of self.old.key) ≡ true) }
        requires value { (book_of newcomer.value ≡ pass.old.name) × MayRetire newcomer.value }
        requires serves { R.serves reclaimer.old (words_book words.now) × M.may manner.now pass.old.id }
        ensures holder { IsHolderFor words.now self.new pass.new × R.serves reclaimer.new (words_book words.now) }
        ensures laid { Lays pass.old self.old.spots pass.new self.new.spots }
        ensures retires { let v = value_of newcomer.value in let values = keys_in self.old.batch in let had = R.had reclaimer.old in
            RetiresOne self.old.key pass.old v newcomer.kept values had
            self.new.key pass.new (keys_in self.new.batch) (R.had reclaimer.new) result }
    {
        let mut queue = Further::new(pass);
        let mut newcomer = newcomer;
        let kept = newcomer.kept;
        self.key.begin_retire(&mut newcomer.value, kept, pass);
        let retired = self.put(words, newcomer, &mut queue, reclaimer, pass, manner);
        self.finish(words, &mut queue, reclaimer, pass, manner);
        retired
    }

    /// The slot leaves by its own head, or refreshes where it stays active. It counts down what waited for it, and hands what is given up.
    /// What reclaimers put meanwhile joins the slot's batch then, as with `retire`. Where it left it may enter with the same activation
    /// again.
    ///
    /// It takes no memory and waits as `flush` does. It is inlined, so that a way that is known costs no test.
    #[inline(always)]
    pub fn leave_by<R: Reclaim<T>, M: Drainer<T, R>>(
        &mut self,
        words: &Words<T>,
        way: Way<'_>,
        activation: &mut Activation,
        reclaimer: &mut R,
        pass: &mut Pass,
        manner: &M,
    )
        requires holder { IsHolderFor words.now self.old pass.old × IsInside self.old.key }
        requires head { IsHeadOfBook way.head.now pass.old × IsOwnHead way.head.now self.old.key }
        requires last { IsLastOf self.old.key activation.old }
        requires serves { R.serves reclaimer.old (words_book words.now) × M.may manner.now pass.old.id }
        ensures holder { IsHolderFor words.now self.new pass.new × R.serves reclaimer.new (words_book words.now) }
        ensures slot { IsOfSlot self.new.key activation.new }
        ensures last { way.entry.stays ≡ true → IsLastOf self.new.key activation.new × HasBegun activation.new pass.new }
        ensures laid { Lays pass.old self.old.spots pass.new self.new.spots }
        ensures leaves { let stays = way.entry.stays in
            let swap = beginning pass.old (life_when stays activation.new.life) (SwapOut (slot_number self.old.key)) in
            Leaves (job_of stays) stays swap self.old.key pass.old (keys_in self.old.batch) (R.had reclaimer.old)
            self.new.key pass.new (keys_in self.new.batch) (R.had reclaimer.new) }
    {
        let mut queue = Further::new(pass);
        begin_out(way.stays, &mut self.key, pass);
        let word = swap_out(way, activation, &mut self.key, pass);
        self.walk_all(words, word, &mut queue, reclaimer, pass);
        self.finish(words, &mut queue, reclaimer, pass, manner);
    }

    // The slot's call has nothing else to do but with its queue: it drains that, and returns.
    #[inline(always)]
    fn finish<R: Reclaim<T>, M: Drainer<T, R>>(
        &mut self,
        words: &Words<T>,
        queue: &mut Further,
        reclaimer: &mut R,
        pass: &mut Pass,
        manner: &M,
    )
        requires stands { IsUnderWay words.now self.old queue.old pass.old × HasQueue self.old.key (further_in queue.old) }
        requires serves { R.serves reclaimer.old (words_book words.now) × M.may manner.now pass.old.id }
        ensures holder { IsHolderFor words.now self.new pass.new × R.serves reclaimer.new (words_book words.now) }
        ensures laid { Lays pass.old self.old.spots pass.new self.new.spots }
        ensures ends { let from = call_state self.old pass.old queue.old (R.had reclaimer.old) in
            Ends from self.new.key pass.new (keys_in self.new.batch) (R.had reclaimer.new) }
    {
        self.drain(words, queue, reclaimer, pass, manner);
        self.key.finish(pass);
    }
}

// A refresh begins, where the slot stays, and else a leave.
#[inline(always)]
fn begin_out(stays: bool, key: &mut SlotKey, pass: &mut Pass)
    requires book { IsKeyOfBook key.old pass.old }
    requires inside { IsInside key.old }
    ensures noted { AddsEvent key.old pass.old key.new pass.new (Begin (slot_number key.old) (job_of stays)) }
{
    if stays {
        key.begin_refresh(pass);
    } else {
        key.begin_leave(pass);
    }
}

// The head is swapped out. It gives the head's word.
#[inline(always)]
fn swap_out(way: Way<'_>, activation: &mut Activation, key: &mut SlotKey, pass: &mut Pass) -> u64
    requires book { IsKeyOfBook key.old pass.old × IsHeadOfBook way.head.now pass.old × IsOwnHead way.head.now key.old }
    requires out { IsOut key.old way.stays }
    requires last { IsLastOf key.old activation.old }
    ensures noted { AddsDeed key.old pass.old key.new pass.new
        (beginning pass.old (life_when way.entry.stays activation.new.life) (SwapOut (slot_number key.old))) }
    ensures slot { IsOfSlot key.new activation.new }
    ensures activation { way.entry.stays ≡ true → IsActivationOf key.new activation.new }
    ensures walks { (out : IsOut key.old way.entry.stays) → WalksFrom way.entry.head.now key.new result out.0 }
{
    if way.stays {
        way.head.refresh(activation, key, pass)
    } else {
        way.head.leave(activation, key, pass)
    }
}
