//! A slot in one value: its number, its holder, and what its passes have seen. Its calls are those of its holder; a pass that is lent anew
//! for each call learns first what the ones before it saw.
ghost use Rattle.std.specs.Prelude.{◌≡◌, IfErr, IfNone, IfOk, IfSome, false, true};
ghost use Rattle.seize_book.specs.Blocks.{block_number};
ghost use Rattle.seize_book.specs.Others.{AreNumbersOf, value_of};
ghost use Rattle.seize_words.specs.Joined.{words_book};
ghost use Rattle.seize_calls.specs.Together.{BelongTogether};

use crate::batch::{Batch, Newcomer};
use crate::draining::Drainer;
use crate::handing::Reclaim;
use crate::holder::{Holder, Way};
use seize_store::Bare;
use seize_table::Refusal;
use seize_words::activation::Activation;
use seize_words::blocks::Blocks;
use seize_words::book::{NumbersKey, Pass, Seen, ValueKey};
use seize_words::chunk::{Header, Part};
use seize_words::link::MaybeKey;
use seize_words::reservation::Head;
use seize_words::slots::NextSlot;
use seize_words::words::Words;
use std::alloc::Global;

/// A value that is in no link, and is to be retired, with the number of its block.
///
/// It has no `Drop`, so it can't be lost by oversight: it is retired, or goes on.
pub struct Loose {
    pub(crate) number: u64,
    pub(crate) value: ValueKey,
    ghost its: { block_number (value_of value) ≡ number },
}

impl Loose {
    ghost use Rattle.seize_book.specs.Blocks.{link_word};
    ghost use Rattle.seize_book.specs.Lending.{IsLentKey};
    ghost use Rattle.seize_book.specs.Others.{MayRetire};
    ghost use Rattle.seize_words.specs.Chunks.{IsLentAs, blocks_book};
    ghost use Rattle.seize_words.specs.LinkWords.{IsLoose, value_held};
    ghost use Rattle.seize_calls.specs.Slots.{IsLooseAs, IsLooseIn, IsReadable, its_value, loose_book};

    /// A value that is in no link, and the number of its block. It came out of a link, or was never named and something is lent with it.
    pub fn new(number: u64, value: ValueKey) -> Loose
        requires number { block_number (value_of value) ≡ number }
        requires may { MayRetire value }
        ensures loose { IsLooseAs value result }
        ensures readable { IsLentKey value → IsReadable result }
    {
        Loose { number, value }
    }

    /// What came out of a link, whose word was this; nothing where that was 0.
    pub fn of(word: u64, key: MaybeKey) -> Option<Loose>
        requires word { word ≡ link_word (value_held key) }
        requires loose { IsLoose key }
        ensures some { IfSome result (λ loose. IsLooseIn key loose) }
        ensures none { IfNone result (word ≡ 0) }
    {
        if word == 0 {
            return None;
        }
        Some(Loose {
            number: word - 1,
            value: key.value(),
        })
    }

    /// What is lent with the value, for as long as this and the blocks are borrowed: a value of the code that the value's name says. Others
    /// may see it meanwhile by their activations. No event is made.
    ///
    /// It takes no memory: three loads, each of which waits for the one before, with that of what is read in the value.
    pub fn peek<'g, T: Drop>(&'g self, blocks: &'g Blocks<T>) -> &'g T
        requires book { loose_book self.now ≡ blocks_book blocks.now }
        requires readable { IsReadable self.now }
        ensures code { IsLentAs (its_value self.now) (T.row.coded.code result.now) }
    {
        blocks.peek(self.number, &self.value)
    }
}

/// A slot, with all that belongs to it (`Holder`). For each value that a call hands, in order, the chunk of its block comes to its list of
/// spots, last (`laid`). No call of the slot is under way, but one that a take or a gathering began, until `resume`.
///
/// Where it is dropped, its slot stays as it is for good: active if it is active, and with its batch.
#[derive(Drop)]
pub struct Slot<T> {
    number: usize,
    holder: Holder<T>,
    seen: Seen,
    ghost together: { BelongTogether number holder seen },
}

impl<T: Drop> Slot<T> {
    ghost use Rattle.std.specs.Prelude.{[], get_or, length, min, ◌-◌, ◌^◌, ◌&&◌};
    ghost use Rattle.seize_book.specs.Others.{MayGather, MayGive, MayTakeNumber, use_flags};
    ghost use Rattle.seize_book.specs.Slots.{active_of, slot_of};
    ghost use Rattle.seize_book.specs.Values.{values_of};
    ghost use Rattle.seize_calls.specs.Batches.{keys_in};
    ghost use Rattle.seize_machine.specs.Machine.Next.{is_empty};
    ghost use Rattle.seize_table.specs.declared.refusal.Refusal.TheVariants.{NoMemory};
    ghost use Rattle.seize_words.specs.Reservations.{IsOfSlot};
    ghost use Rattle.seize_words.specs.Reserved.{HasNextSlot, IsSameNext};
    ghost use Rattle.seize_words.specs.Totals.{};
    ghost use Rattle.seize_words.specs.Chunks.{IsBlockIn};
    ghost use Rattle.seize_calls.specs.Slots.{KeepsCalls, MakesOneSlot, Prepares, SetsUse, seen_book, its_key, its_number, its_seen};
    ghost use Rattle.seize_calls.specs.Slots.{its_spots};
    ghost use Rattle.seize_calls.specs.Laying.{Lays};
    ghost use Rattle.seize_calls.specs.Calls.{HasBegun};
    ghost use Rattle.seize_calls.specs.Slots.{HasActivation, InActivation, IsLooseOf, IsPassOf, KeepsActivation, MayEnterWith};
    ghost use Rattle.seize_calls.specs.Slots.{IsActive, IsFreeSlotOf, IsInactive, IsItsHead, IsOfWords, IsSlotOf};
    ghost use Rattle.seize_calls.specs.Slots.{IsRestIn, IsTakenAs, KeepsUse};
    ghost use Rattle.seize_calls.specs.Slots.{SlotEnters, SlotFlushes, SlotGathers, SlotGives, SlotGoes, SlotLeaves, SlotLooks, SlotRefreshes};
    ghost use Rattle.seize_calls.specs.Slots.{SlotResumes, SlotRetires, SlotTakes};

    /// Makes the slot that comes next, which is inactive and has no batch. It takes memory for its list of spots first, and for a bucket of
    /// the table of heads where that has none for it.
    ///
    /// # Errors
    ///
    /// `NoMemory` where either was refused, or the slot's entry of the table was filled already, which no call leads to. Then nothing was
    /// changed, and the slot that comes next is given back.
    pub fn make(
        words: &Words<T>,
        alloc: Global,
        next: NextSlot,
        numbers: &mut NumbersKey,
        pass: &mut Pass,
    ) -> Result<(Slot<T>, NextSlot), (Refusal, NextSlot)>
        requires book { (words_book words.now ≡ pass.old.name) × AreNumbersOf numbers.old pass.old }
        requires next { HasNextSlot numbers.old next }
        ensures of { IfOk result (λ made. IsSlotOf words.now made.0) }
        ensures made { IfOk result (λ made. MakesOneSlot numbers.old next pass.old numbers.new made.0 made.1 pass.new) }
        ensures outside { IfOk result (λ made. IsInactive made.0) }
        ensures refused { IfErr result (λ e. (e.0 ≡ NoMemory) × IsSameNext next e.1) }
        ensures unchanged { IfErr result (λ e. (numbers.new ≡ numbers.old) × (pass.new ≡ pass.old)) }
    {
        let number = next.number();
        let Ok(spots) = words.blocks.spots(alloc) else {
            return Err((Refusal::NoMemory, next));
        };
        let (key, next) = words.make_slot(next, numbers, pass)?;
        let batch = Batch::new(pass);
        let mut seen = words.blocks.book.again();
        seen.learn(pass);
        let slot = Slot {
            number,
            holder: Holder { key, batch, spots },
            seen,
        };
        Ok((slot, next))
    }

    /// Its number, by which the words name it.
    pub fn number(&self) -> usize
        ensures { result ≡ its_number self.now }
    {
        self.number
    }

    /// An activation of it, which has still to begin.
    pub fn activation(&self) -> Activation
        ensures { IsOfSlot (its_key self.now) result }
    {
        Activation::new(&self.holder.key)
    }

    /// What its passes have seen, by which another pass learns that its activation began (`Pass::learn`).
    pub fn seen(&self) -> Seen
        ensures { (result.name ≡ seen_book self.now) × (result.seen ≡ its_seen self.now) }
    {
        self.seen.again()
    }

    /// A block with this value, and the key of it, which was never named. It is made in a spot of the slot, where that has one; then
    /// it takes no atomic step and no memory. The slot is as it was, but for that spot, and the pass as it was.
    ///
    /// # Errors
    ///
    /// `NoMemory` where a growth of the store was refused; the value comes back.
    #[inline(always)]
    pub fn add(
        &mut self,
        words: &Words<T>,
        value: T,
    ) -> Result<(ValueKey, Bare<Header, Part, T>), (Refusal, T)>
        requires { IsSlotOf words.now self.old }
        ensures same { KeepsCalls self.old self.new }
        ensures made { IfOk result (λ made. IsBlockIn words.now.blocks value made.0 made.1) }
        ensures refused { IfErr result (λ refused. (refused.0 ≡ NoMemory) × (refused.1 ≡ value)) }
    {
        words.blocks.add_from(&mut self.holder.spots, value)
    }

    /// Looks at the list with no event: the pass knows of the slot then what its own key says. It does nothing else.
    pub fn look(&mut self, _words: &Words<T>, pass: &mut Pass)
        requires of { IsSlotOf _words.now self.old × IsPassOf _words.now pass.old }
        ensures of { IsSlotOf _words.now self.new × KeepsActivation self.old self.new }
        ensures looks { SlotLooks self.old pass.old self.new pass.new }
    {
        pass.learn(&self.seen);
        self.holder.key.look(pass);
        self.seen.learn(pass);
    }

    /// The pass learns what the slot has seen, such as that its activation began. No event is made with it.
    pub fn teach(&self, pass: &mut Pass)
        requires { pass.old.name ≡ seen_book self.now }
        ensures { Prepares self.now pass.old pass.new }
    {
        pass.learn(&self.seen);
    }

    /// The slot is in this activation, of which the caller has a part: it has begun, as the pass has seen, and lasts. So a slot that is
    /// inactive, as its key knows, has none. The pass learns what the slot has seen and looks at the list, and so does the slot; no event
    /// is made with it.
    ///
    /// It does nothing when the program runs: its contract is the law.
    pub fn current(&mut self, _words: &Words<T>, unit: &Activation, pass: &mut Pass)
        requires of { IsSlotOf _words.now self.old × IsPassOf _words.now pass.old }
        requires unit { (unit.now.slot ≡ its_number self.old) × HasBegun unit.now pass.old }
        ensures of { IsSlotOf _words.now self.new × KeepsActivation self.old self.new }
        ensures within { IsActive self.old × InActivation self.new unit.now }
        ensures looks { SlotLooks self.old pass.old self.new pass.new }
    {
        self.look(_words, pass);
        unit.lasts(pass);
    }

    /// Whether nothing is left where the slot ends: its batch and the rest have no values. It compares two words.
    pub fn leaves_nothing(&self, rest: &Batch) -> bool
        ensures { result ≡ (is_empty (slot_of (its_key self.now)).batch && is_empty (values_of (keys_in rest.now))) }
    {
        self.holder.batch.is_empty() && rest.is_empty()
    }

    /// The slot's number goes back. The slot is inactive, and its batch joins the rest, behind what is there. It can do no more until the
    /// number is taken again.
    ///
    /// It takes no memory, makes no atomic step and waits for nobody.
    #[inline(always)]
    pub fn give(
        &mut self,
        words: &Words<T>,
        numbers: &mut NumbersKey,
        rest: &mut Batch,
        pass: &mut Pass,
    )
        requires of { IsSlotOf words.now self.old × IsPassOf words.now pass.old × IsInactive self.old }
        requires numbers { AreNumbersOf numbers.old pass.old × IsRestIn (words_book words.now) numbers.old rest.old }
        requires may { MayGive numbers.old (its_key self.old) }
        ensures of { IsFreeSlotOf words.now self.new }
        ensures gives { SlotGives self.old pass.old self.new pass.new }
        ensures was { get_or (use_flags numbers.old) (its_number self.old) false ≡ true }
        ensures numbers { SetsUse numbers.old pass.new numbers.new self.old false × IsRestIn (words_book words.now) numbers.new rest.new }
    {
        pass.learn(&self.seen);
        self.holder.key.give(numbers, pass);
        rest.append(&words.blocks, &mut self.holder.batch);
        self.seen.learn(pass);
    }

    /// The slot's number, which went back, is taken again: it is the least that is not in use. The rest is the slot's batch then. It says
    /// whether that is full: then a call of the slot is under way, which attempts it, and only `resume` can be called.
    ///
    /// It takes no memory, makes no atomic step and waits for nobody.
    #[inline(always)]
    pub fn take_again(
        &mut self,
        words: &Words<T>,
        numbers: &mut NumbersKey,
        rest: &mut Batch,
        pass: &mut Pass,
    ) -> bool
        requires of { IsFreeSlotOf words.now self.old × IsPassOf words.now pass.old }
        requires numbers { AreNumbersOf numbers.old pass.old × IsRestIn (words_book words.now) numbers.old rest.old }
        requires may { MayTakeNumber numbers.old (its_key self.old) }
        ensures of { IsTakenAs result words.now self.new × IsInactive self.new }
        ensures takes { SlotTakes self.old pass.old self.new pass.new }
        ensures numbers { SetsUse numbers.old pass.new numbers.new self.old true × IsRestIn (words_book words.now) numbers.new rest.new }
    {
        let full = rest.is_full(words.size);
        pass.learn(&self.seen);
        self.holder.key.take_again(numbers, pass);
        self.holder.batch.append(&words.blocks, rest);
        self.seen.learn(pass);
        full
    }

    /// The slot, which is the only one in use and inactive, begins to gather: the rest comes before its batch, and a call of the slot is
    /// under way, which attempts both. Only `resume` can be called then.
    ///
    /// It takes no memory, makes no atomic step and waits for nobody.
    #[cold]
    #[inline(never)]
    pub fn gather(
        &mut self,
        words: &Words<T>,
        numbers: &mut NumbersKey,
        rest: &mut Batch,
        pass: &mut Pass,
    )
        requires of { IsSlotOf words.now self.old × IsPassOf words.now pass.old × IsInactive self.old }
        requires numbers { AreNumbersOf numbers.old pass.old × IsRestIn (words_book words.now) numbers.old rest.old }
        requires may { MayGather numbers.old (its_key self.old) }
        ensures of { IsTakenAs true words.now self.new × IsInactive self.new }
        ensures gathers { SlotGathers self.old pass.old self.new pass.new }
        ensures numbers { KeepsUse numbers.old pass.new numbers.new × IsRestIn (words_book words.now) numbers.new rest.new }
    {
        pass.learn(&self.seen);
        self.holder.key.begin_gather(numbers, pass);
        rest.append(&words.blocks, &mut self.holder.batch);
        self.holder.batch.append(&words.blocks, rest);
        self.seen.learn(pass);
    }

    /// Goes on with the call that a take or a gathering began: attempts the slot's batch. What reclaimers put meanwhile joins the slot's
    /// batch, as with `retire`.
    ///
    /// It takes no memory and waits as `retire` does.
    #[cold]
    #[inline(never)]
    pub fn resume<R: Reclaim<T>, M: Drainer<T, R>>(
        &mut self,
        words: &Words<T>,
        reclaimer: &mut R,
        pass: &mut Pass,
        manner: &M,
    )
        requires of { IsTakenAs true words.now self.old × IsPassOf words.now pass.old × M.may manner.now pass.old.id }
        requires serves { R.serves reclaimer.old (words_book words.now) }
        ensures of { IsSlotOf words.now self.new × (active_of (its_key self.new) ≡ active_of (its_key self.old)) }
        ensures serves { R.serves reclaimer.new (words_book words.now) }
        ensures laid { Lays pass.old (its_spots self.old) pass.new (its_spots self.new) }
        ensures resumes { SlotResumes self.old pass.old (R.had reclaimer.old) self.new pass.new (R.had reclaimer.new) }
    {
        pass.learn(&self.seen);
        self.holder.resume(words, reclaimer, pass, manner);
        self.seen.learn(pass);
    }

    /// Its head, which stays where it is for as long as the words. The pass learns what the slot has seen and looks at the list; no event
    /// is made with it.
    ///
    /// It takes no memory: the look-up of the head, as `Slots::head`.
    pub fn head<'w>(&self, words: &'w Words<T>, pass: &mut Pass) -> &'w Head
        requires of { IsOfWords words.now self.now × IsPassOf words.now pass.old }
        ensures head { IsItsHead self.now result.now }
        ensures pass { Prepares self.now pass.old pass.new }
    {
        pass.learn(&self.seen);
        words.slots.head(self.number, pass)
    }

    /// The slot enters by its head, which begins the activation.
    ///
    /// It takes no memory and waits for nobody: one atomic swap.
    #[inline(always)]
    pub fn enter(
        &mut self,
        _words: &Words<T>,
        head: &Head,
        activation: &mut Activation,
        pass: &mut Pass,
    )
        requires of { IsSlotOf _words.now self.old × IsPassOf _words.now pass.old }
        requires head { IsItsHead self.old head.now }
        requires outside { MayEnterWith self.old activation.old }
        ensures of { IsSlotOf _words.now self.new }
        ensures activation { HasActivation self.new activation.new }
        ensures enters { SlotEnters self.old pass.old activation.new self.new pass.new }
    {
        pass.learn(&self.seen);
        head.enter(activation, &mut self.holder.key, pass);
        self.seen.learn(pass);
    }

    /// Retires the value: it comes last in the slot's batch, and `kept` is kept of it. Where the batch has as many values as the batch size
    /// says, it is attempted. It says whether the batch was retired. The reclaimer is for what this call hands. The value itself goes to
    /// that of whichever call hands it, with the word `kept`.
    ///
    /// It takes no memory, but for what the reclaimer does, and waits as its manner does.
    #[inline(always)]
    pub fn retire<R: Reclaim<T>, M: Drainer<T, R>>(
        &mut self,
        words: &Words<T>,
        value: Loose,
        kept: u64,
        reclaimer: &mut R,
        pass: &mut Pass,
        manner: &M,
    ) -> bool
        requires of { IsSlotOf words.now self.old × IsPassOf words.now pass.old × M.may manner.now pass.old.id }
        requires value { IsLooseOf words.now value }
        requires serves { R.serves reclaimer.old (words_book words.now) }
        ensures of { IsSlotOf words.now self.new × KeepsActivation self.old self.new }
        ensures serves { R.serves reclaimer.new (words_book words.now) }
        ensures laid { Lays pass.old (its_spots self.old) pass.new (its_spots self.new) }
        ensures retires { let had = R.had reclaimer.old in
            SlotRetires self.old pass.old value kept had self.new pass.new (R.had reclaimer.new) result }
    {
        pass.learn(&self.seen);
        let Loose { number, value } = value;
        let newcomer = Newcomer {
            number,
            kept,
            value,
        };
        let retired = self.holder.retire(words, newcomer, reclaimer, pass, manner);
        self.seen.learn(pass);
        retired
    }

    /// Retires the value as `retire` does, where nothing is attempted: with it too, the slot's batch has fewer values than the batch size
    /// says. It needs no reclaimer, takes no memory and waits for nobody.
    ///
    /// # Errors
    ///
    /// The value, where the batch would be full with it. Then nothing was done.
    #[inline(always)]
    pub fn retire_short(
        &mut self,
        words: &Words<T>,
        value: Loose,
        kept: u64,
        pass: &mut Pass,
    ) -> Result<(), Loose>
        requires of { IsSlotOf words.now self.old × IsPassOf words.now pass.old }
        requires value { IsLooseOf words.now value }
        ensures of { IsSlotOf words.now self.new × KeepsActivation self.old self.new }
        ensures laid { Lays pass.old (its_spots self.old) pass.new (its_spots self.new) }
        ensures retires { IfOk result (λ _. SlotRetires self.old pass.old value kept [] self.new pass.new [] false) }
        ensures back { IfErr result (λ back. (back ≡ value) × (self.new ≡ self.old) × (pass.new ≡ pass.old)) }
    {
        if !self.holder.batch.stays_short(words.size) {
            return Err(value);
        }
        pass.learn(&self.seen);
        let Loose { number, value } = value;
        let newcomer = Newcomer {
            number,
            kept,
            value,
        };
        self.holder.retire_short(words, newcomer, pass);
        self.seen.learn(pass);
        Ok(())
    }

    /// Attempts the batch of the slot, which is active, at any length. It says whether the batch was retired with the values that it had.
    ///
    /// It takes no memory and waits as `retire` does.
    pub fn flush<R: Reclaim<T>, M: Drainer<T, R>>(
        &mut self,
        words: &Words<T>,
        reclaimer: &mut R,
        pass: &mut Pass,
        manner: &M,
    ) -> bool
        requires of { IsSlotOf words.now self.old × IsPassOf words.now pass.old × M.may manner.now pass.old.id }
        requires inside { IsActive self.old }
        requires serves { R.serves reclaimer.old (words_book words.now) }
        ensures of { IsSlotOf words.now self.new × KeepsActivation self.old self.new }
        ensures serves { R.serves reclaimer.new (words_book words.now) }
        ensures laid { Lays pass.old (its_spots self.old) pass.new (its_spots self.new) }
        ensures flushes { SlotFlushes self.old pass.old (R.had reclaimer.old) self.new pass.new (R.had reclaimer.new) result }
    {
        pass.learn(&self.seen);
        let retired = self.holder.flush(words, reclaimer, pass, manner);
        self.seen.learn(pass);
        retired
    }

    /// The slot leaves by its head, and may enter with the same activation again. It counts down what waited for it, and hands what is
    /// given up. What reclaimers put meanwhile joins the slot's batch, as with `retire`.
    ///
    /// It takes no memory and waits as `retire` does.
    #[inline(always)]
    pub fn leave<R: Reclaim<T>, M: Drainer<T, R>>(
        &mut self,
        words: &Words<T>,
        head: &Head,
        activation: &mut Activation,
        reclaimer: &mut R,
        pass: &mut Pass,
        manner: &M,
    )
        requires of { IsSlotOf words.now self.old × IsPassOf words.now pass.old × M.may manner.now pass.old.id }
        requires head { IsItsHead self.old head.now }
        requires inside { HasActivation self.old activation.old }
        requires serves { R.serves reclaimer.old (words_book words.now) }
        ensures of { IsSlotOf words.now self.new × MayEnterWith self.new activation.new }
        ensures serves { R.serves reclaimer.new (words_book words.now) }
        ensures laid { Lays pass.old (its_spots self.old) pass.new (its_spots self.new) }
        ensures leaves { SlotLeaves self.old pass.old (R.had reclaimer.old) self.new pass.new (R.had reclaimer.new) }
    {
        let stays = false;
        self.leave_by(
            words,
            Way { head, stays },
            activation,
            reclaimer,
            pass,
            manner,
        );
    }

    /// The slot refreshes by its head: it ends its activation and begins another, and stays active. It counts down what waited for it, and
    /// hands what is given up. What reclaimers put meanwhile joins the slot's batch, as with `retire`.
    ///
    /// It takes no memory and waits as `retire` does.
    #[inline(always)]
    pub fn refresh<R: Reclaim<T>, M: Drainer<T, R>>(
        &mut self,
        words: &Words<T>,
        head: &Head,
        activation: &mut Activation,
        reclaimer: &mut R,
        pass: &mut Pass,
        manner: &M,
    )
        requires of { IsSlotOf words.now self.old × IsPassOf words.now pass.old × M.may manner.now pass.old.id }
        requires head { IsItsHead self.old head.now }
        requires inside { HasActivation self.old activation.old }
        requires serves { R.serves reclaimer.old (words_book words.now) }
        ensures of { IsSlotOf words.now self.new }
        ensures inside { HasActivation self.new activation.new }
        ensures serves { R.serves reclaimer.new (words_book words.now) }
        ensures laid { Lays pass.old (its_spots self.old) pass.new (its_spots self.new) }
        ensures refreshes { let had = R.had reclaimer.old in
            SlotRefreshes self.old pass.old activation.new had self.new pass.new (R.had reclaimer.new) }
    {
        let stays = true;
        self.leave_by(
            words,
            Way { head, stays },
            activation,
            reclaimer,
            pass,
            manner,
        );
    }

    // The slot leaves, or refreshes where it stays.
    #[inline(always)]
    fn leave_by<R: Reclaim<T>, M: Drainer<T, R>>(
        &mut self,
        words: &Words<T>,
        way: Way<'_>,
        activation: &mut Activation,
        reclaimer: &mut R,
        pass: &mut Pass,
        manner: &M,
    )
        requires of { IsSlotOf words.now self.old × IsPassOf words.now pass.old × M.may manner.now pass.old.id }
        requires head { IsItsHead self.old way.head.now }
        requires inside { HasActivation self.old activation.old }
        requires serves { R.serves reclaimer.old (words_book words.now) }
        ensures of { IsSlotOf words.now self.new × R.serves reclaimer.new (words_book words.now) }
        ensures left { way.entry.stays ≡ false → MayEnterWith self.new activation.new }
        ensures inside { way.entry.stays ≡ true → HasActivation self.new activation.new }
        ensures laid { Lays pass.old (its_spots self.old) pass.new (its_spots self.new) }
        ensures goes { let had = R.had reclaimer.old in
            SlotGoes way.entry.stays self.old pass.old activation.new.life had self.new pass.new (R.had reclaimer.new) }
    {
        pass.learn(&self.seen);
        self.holder
            .leave_by(words, way, activation, reclaimer, pass, manner);
        self.seen.learn(pass);
    }
}
