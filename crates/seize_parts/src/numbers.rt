//! The numbers of a collector's slots: which are in use, the slots of those that are not, and the rest, which slots left in their batches
//! as they ended. They lie behind a lock of the collector.
ghost use Rattle.std.specs.Prelude.{◌≡◌, ◌≤◌, IfErr, IfNone, IfOk, IfSome, None, Some, is_some};
ghost use Rattle.std.specs.List.{position};
ghost use Rattle.seize_calls.specs.Slots.{IsPassOf, its_number};
ghost use Rattle.seize_words.specs.Joined.{words_book};
ghost use Rattle.seize_words.specs.Named.{numbers_book};
ghost use Rattle.seize_words.specs.Reserved.{HasNextSlot};
ghost use Rattle.seize_words.specs.Totals.{made_of};
ghost use Rattle.seize_machine.specs.Machine.Event.{Give};
ghost use Rattle.seize_machine.specs.declared.machine.event.Answer.TheVariants.{Done};
ghost use Rattle.seize_parts.specs.Makes.{MakesOne};
ghost use Rattle.seize_parts.specs.Shelves.{IsShelfFor};

mod keeping;
mod parting;
pub mod reclaiming;
mod recovering;
pub mod resting;

use crate::ender::Ender;
use crate::ends::Forwards;
use crate::reclaim::Reclaim;
use crate::shelf::{Shelf, Shelves};
use seize_calls::batch::Batch;
use seize_calls::manner::Alone;
use seize_calls::slot::Slot;
use seize_content::Steady;
use seize_table::Refusal;
use seize_words::book::{NumbersKey, Pass, Seen};
use seize_words::slots::NextSlot;
use seize_words::words::Words;
use std::alloc::Global;
use std::cmp::min;

/// What is needed to hand out slots.
#[derive(Drop)]
pub struct Numbers<T: Drop> {
    /// The right to take numbers and to give them back.
    key: NumbersKey,
    /// The slot that is made next. It is there whenever no work is done.
    next: Option<NextSlot>,
    /// The slots made so far, by their numbers: each whose number is not in use, and none in the place of one that is in use.
    slots: Vec<Option<Slot<T>>>,
    /// How many lie there.
    free: usize,
    /// Slots in use that nobody has, by their numbers. They are there only while all is reclaimed.
    kept: Vec<Option<Slot<T>>>,
    /// What slots left in their batches as they ended. Whoever takes a number next takes it.
    rest: Batch,
    /// Where the search for the first slot begins: none lies in a place before.
    least: usize,
    /// The shelves of all slots made so far, and perhaps that of the next one.
    shelves: Shelves<T>,
    /// The list of events.
    pub book: Seen,
    ghost shelved: { shelves.book.name.family ≡ book.name.family },
}

/// A slot that took its number, and is inactive.
#[derive(Drop)]
pub struct Taken<T: Drop> {
    /// The slot.
    pub slot: Slot<T>,
    /// Whether a call of the slot is under way, which attempts what slots left.
    pub begun: bool,
    /// Its shelf.
    pub shelf: Shelf<T>,
}

impl<T: Drop> Steady for Numbers<T> {
    ghost use Rattle.seize_parts.specs.Numbers.{AreNumbers, KnowsLeast};

    ghost label = { λ numbers. numbers.book.name.family };

    ghost sound = { λ numbers. AreNumbers numbers × KnowsLeast numbers };
}

impl<T: Drop> Numbers<T> {
    ghost use Rattle.std.specs.Prelude.{[], false, slice_set};
    ghost use Rattle.seize_book.specs.Others.{others_used, rest_of, use_flags};
    ghost use Rattle.seize_book.specs.Tokens.{IsSole};
    ghost use Rattle.seize_alone.specs.Events.{MakesAlone};
    ghost use Rattle.seize_calls.specs.declared.slot.Slot.{Slot as ASlot};
    ghost use Rattle.seize_machine.specs.declared.machine.event.Answer.{Answer};
    ghost use Rattle.seize_parts.specs.Numbers.{AreNumbers, AreSlots, HasGathered, HasTaken, KnowsLeast, MayEnd, MayGiveBack, TakesNone};

    /// Those of a new list of events, which has no slot yet.
    pub fn new(
        alloc: Global,
        key: NumbersKey,
        next: NextSlot,
        book: &Seen,
        pass: &mut Pass,
    ) -> Numbers<T>
        requires key { (numbers_book key ≡ book.now.name) × (made_of key ≡ 0) × (rest_of key ≡ []) }
        requires next { HasNextSlot key next }
        requires pass { pass.old.name ≡ book.now.name }
        ensures numbers { AreNumbers result × KnowsLeast result × (result.book.name ≡ book.now.name) }
        ensures pass { pass.new ≡ pass.old }
    {
        Numbers {
            key,
            next: Some(next),
            slots: Vec::new(alloc),
            free: 0,
            kept: Vec::new(alloc),
            rest: Batch::new(pass),
            least: 0,
            shelves: Shelves::new(alloc, book),
            book: book.again(),
        }
    }

    // The place of the first slot here: the least number that was made and is not in use.
    #[inline(always)]
    fn first(&self) -> Option<usize>
        requires { KnowsLeast self.now }
        ensures { result ≡ position is_some self.now.slots.items }
    {
        for n in self.least..self.slots.len() {
            if self.slots[n].is_some() {
                return Some(n);
            }
        }
        None
    }

    /// Whether a number other than this one is in use. It compares two counts.
    fn others(&self, n: usize) -> bool
        requires { AreSlots self.now }
        ensures { result ≡ others_used (use_flags self.now.key) n }
    {
        let in_use = self.slots.len() - self.free;
        let own = n < self.slots.len() && self.slots[n].is_none();
        if own { in_use > 1 } else { in_use > 0 }
    }

    /// The slot of the least number that is not in use, one that was made before or a new one, and its shelf. The rest is its batch.
    ///
    /// # Errors
    ///
    /// `NoMemory` where the allocator refuses.
    #[inline(always)]
    pub fn take(
        &mut self,
        words: &Words<T>,
        alloc: Global,
        pass: &mut Pass,
    ) -> Result<Taken<T>, Refusal>
        requires numbers { AreNumbers self.old × (self.old.book.name ≡ words_book words.now) }
        requires least { KnowsLeast self.old }
        requires pass { IsPassOf words.now pass.old }
        ensures numbers { AreNumbers self.new × (self.new.book ≡ self.old.book) × KnowsLeast self.new }
        ensures made { IfOk result (λ made. HasTaken words.now pass.old pass.new made.slot made.begun × IsShelfFor words.now made.shelf) }
        ensures refused { IfErr result (λ refusal. TakesNone pass.old pass.new refusal) }
    {
        let first = self.first();
        let Ok(shelf) = self.shelves.shelf(first.unwrap_or(self.slots.len())) else {
            pass.learn(&self.book);
            return Err(Refusal::NoMemory);
        };
        let (slot, begun) = match first {
            Some(n) => self.again(words, n, pass),
            None => (self.make(words, alloc, pass)?, false),
        };
        Ok(Taken { slot, begun, shelf })
    }

    // The slot of number n, which is the least one that is not in use: the number is taken again. It says whether a call has begun.
    #[inline(always)]
    fn again(&mut self, words: &Words<T>, n: usize, pass: &mut Pass) -> (Slot<T>, bool)
        requires numbers { AreSlots self.old × (self.old.book.name ≡ words_book words.now) }
        requires pass { IsPassOf words.now pass.old }
        requires first { position is_some self.old.slots.items ≡ Some n }
        ensures numbers { AreSlots self.new × (self.new.book ≡ self.old.book) × KnowsLeast self.new × (rest_of self.new.key ≡ []) }
        ensures places { (self.new.slots.items ≡ slice_set self.old.slots.items n None) × (self.new.kept ≡ self.old.kept) }
        ensures made { HasTaken words.now pass.old pass.new result.0 result.1 × (its_number result.0 ≡ n) }
    {
        let Some(mut slot) = self.slots[n].take() else {
            unreachable!()
        };
        let begun = slot.take_again(words, &mut self.key, &mut self.rest, pass);
        self.free -= 1;
        self.least = n + 1;
        (slot, begun)
    }

    // A new slot, with the number after all others. Its place in the list is made first, so that no slot is made without one. A list has
    // fewer than 2^63 places, so the 2^64 - 32 numbers never run out. While all numbers are in use, nothing is left.
    #[cold]
    #[inline(never)]
    fn make(&mut self, words: &Words<T>, alloc: Global, pass: &mut Pass) -> Result<Slot<T>, Refusal>
        requires numbers { AreNumbers self.old × (self.old.book.name ≡ words_book words.now) }
        requires pass { IsPassOf words.now pass.old }
        requires taken { position is_some self.old.slots.items ≡ None }
        requires least { KnowsLeast self.old }
        ensures numbers { AreNumbers self.new × (self.new.book ≡ self.old.book) × KnowsLeast self.new }
        ensures made { IfOk result (λ slot. HasTaken words.now pass.old pass.new slot false) }
        ensures refused { IfErr result (λ refusal. TakesNone pass.old pass.new refusal) }
    {
        pass.learn(&self.book);
        if self.slots.reserve(1).is_err() || self.kept.reserve(1).is_err() {
            return Err(Refusal::NoMemory);
        }
        let Some(next) = self.next.take() else {
            unreachable!()
        };
        match Slot::make(words, alloc, next, &mut self.key, pass) {
            Ok((slot, next)) => {
                self.next = Some(next);
                self.slots.push_reserved(None);
                self.kept.push_reserved(None);
                self.least = self.slots.len();
                Ok(slot)
            }
            Err((refusal, next)) => {
                self.next = Some(next);
                Err(refusal)
            }
        }
    }

    // The number of the slot goes back, and its batch joins the rest.
    #[inline(always)]
    fn give(&mut self, words: &Words<T>, slot: Slot<T>, pass: &mut Pass)
        requires numbers { AreSlots self.old × (self.old.book.name ≡ words_book words.now) }
        requires pass { IsPassOf words.now pass.old }
        requires slot { MayEnd words.now slot × MayGiveBack self.old slot }
        ensures numbers { AreSlots self.new × (self.new.book ≡ self.old.book) × (self.new.kept ≡ self.old.kept) }
        ensures least { KnowsLeast self.old → KnowsLeast self.new }
        ensures place { (s : ASlot T) × (self.new.slots.items ≡ slice_set self.old.slots.items (its_number slot) (Some s)) }
        ensures gives { MakesOne pass.old pass.new (Give (its_number slot)) Done }
        ensures alone { IsSole pass.old.id → (answer : Answer) × MakesAlone pass.old pass.new (Give (its_number slot)) answer }
    {
        let mut slot = slot;
        let n = slot.number();
        slot.give(words, &mut self.key, &mut self.rest, pass);
        self.slots[n] = Some(slot);
        self.free += 1;
        self.least = min(self.least, n);
    }

    /// The number of the slot goes back, where another slot is in use or nothing is left. Else the slot begins to gather, and comes back.
    #[inline(always)]
    pub fn end(&mut self, words: &Words<T>, slot: Slot<T>, pass: &mut Pass) -> Option<Slot<T>>
        requires numbers { AreNumbers self.old × (self.old.book.name ≡ words_book words.now) × KnowsLeast self.old }
        requires pass { IsPassOf words.now pass.old }
        requires slot { MayEnd words.now slot }
        ensures numbers { AreNumbers self.new × (self.new.book ≡ self.old.book) × KnowsLeast self.new }
        ensures gives { IfNone result (MakesOne pass.old pass.new (Give (its_number slot)) Done) }
        ensures alone { IfNone result (IsSole pass.old.id
            → (answer : Answer) × MakesAlone pass.old pass.new (Give (its_number slot)) answer) }
        ensures gathers { IfSome result (λ begun. HasGathered words.now slot pass.old begun pass.new) }
    {
        if self.others(slot.number()) || slot.leaves_nothing(&self.rest) {
            self.give(words, slot, pass);
            return None;
        }
        let mut slot = slot;
        slot.gather(words, &mut self.key, &mut self.rest, pass);
        Some(slot)
    }
}

impl<T: Drop> Numbers<T> {
    ghost use Rattle.seize_book.specs.Passes.{IsSamePass};
    ghost use Rattle.seize_book.specs.Tokens.{IsSole};
    ghost use Rattle.seize_calls.specs.Slots.{IsInactive, IsSlotOf};
    ghost use Rattle.seize_parts.specs.Enders.{IsEnderOf};
    ghost use Rattle.seize_parts.specs.Numbers.{AreNumbers, IsLockFor, KnowsLeast};

    /// The slot of the least number that is not in use, where there is one, by a pass that is alone: the number is taken again, and what
    /// slots left is attempted, where it is enough. No slot is made.
    ///
    /// It takes no memory and waits for nobody, but for what the reclaimer does.
    pub(crate) fn take_free<R: Reclaim<T>>(
        &mut self,
        words: &Words<T>,
        ender: &Ender<T, R>,
        pass: &mut Pass,
    ) -> Option<Slot<T>>
        requires numbers { AreNumbers self.old × IsLockFor words.now self.old × KnowsLeast self.old }
        requires pass { IsPassOf words.now pass.old × IsSole pass.old.id }
        requires ender { IsEnderOf words.now ender.now }
        ensures numbers { AreNumbers self.new × IsLockFor words.now self.new }
        ensures same { IsSamePass pass.old pass.new }
        ensures taken { IfSome result (λ slot. IsSlotOf words.now slot × IsInactive slot) }
    {
        self.book.agree(&words.blocks.book);
        let n = self.first()?;
        let (mut slot, begun) = self.again(words, n, pass);
        if begun {
            slot.resume(words, &mut Forwards::new(ender), pass, &Alone {});
        }
        Some(slot)
    }
}
