//! How a thread takes a slot, and how it gives one back, where threads share the collector. Each is a work on the numbers; what a slot
//! attempts then goes to the reclaimer outside their lock.
ghost use Rattle.std.specs.Prelude.{◌≡◌, IfErr, IfNone, IfOk, IfSome};
ghost use Rattle.seize_calls.specs.Slots.{IsInactive, IsPassOf, IsSlotOf, its_number};
ghost use Rattle.seize_machine.specs.Machine.Event.{Give};
ghost use Rattle.seize_machine.specs.declared.machine.event.Answer.TheVariants.{Done};
ghost use Rattle.seize_parts.specs.Makes.{GivesNumber, MakesOne, TakesNumber};
ghost use Rattle.seize_parts.specs.Numbers.{HasGathered, HasTaken, IsLockFor, MayEnd, TakesNone};
ghost use Rattle.seize_parts.specs.Puts.{PutBy};
ghost use Rattle.seize_parts.specs.Shelves.{IsShelfFor};

use crate::parts::Parts;
use seize_calls::manner::Beside;
use seize_calls::slot::Slot;
use seize_cells::LockWork;
use seize_parts::ends::Forwards;
use seize_parts::numbers::{Numbers, Taken};
use seize_parts::reclaim::Reclaim;
use seize_parts::shelf::Shelf;
use seize_table::Refusal;
use seize_words::book::Pass;
use seize_words::words::Words;
use std::alloc::Global;
use std::sync::Wait;

// A slot is taken.
#[derive(Drop)]
struct Registering<'a, T> {
    words: &'a Words<T>,
    // Where a new slot takes its memory.
    alloc: Global,
}

impl<'a, 'p, T: Drop> LockWork<Numbers<T>, Pass<'p>, Result<Taken<T>, Refusal>>
    for Registering<'a, T> {
    ghost may = { λ work numbers pass. IsLockFor work.words.now numbers × IsPassOf work.words.now pass };

    ghost gives = { λ work numbers numbers' pass pass' result.
        IfOk result (λ made. HasTaken work.words.now pass pass' made.slot made.begun × IsShelfFor work.words.now made.shelf)
        × IfErr result (λ refusal. TakesNone pass pass' refusal) };

    #[inline(always)]
    fn work(self, numbers: &mut Numbers<T>, pass: &mut Pass<'p>) -> Result<Taken<T>, Refusal> {
        numbers.book.agree(&self.words.blocks.book);
        numbers.take(self.words, self.alloc, pass)
    }
}

// A slot goes back, or begins to gather.
#[derive(Drop)]
struct Ending<'a, T> {
    words: &'a Words<T>,
    // The slot, which is inactive.
    slot: Slot<T>,
}

impl<'a, 'p, T: Drop> LockWork<Numbers<T>, Pass<'p>, Option<Slot<T>>> for Ending<'a, T> {
    ghost may = { λ work numbers pass. IsLockFor work.words.now numbers × IsPassOf work.words.now pass
        × MayEnd work.words.now work.slot };

    ghost gives = { λ work numbers numbers' pass pass' result.
        IfNone result (MakesOne pass pass' (Give (its_number work.slot)) Done)
        × IfSome result (λ begun. HasGathered work.words.now work.slot pass begun pass') };

    #[inline(always)]
    fn work(self, numbers: &mut Numbers<T>, pass: &mut Pass<'p>) -> Option<Slot<T>> {
        let Ending { words, slot } = self;
        numbers.book.agree(&words.blocks.book);
        numbers.end(words, slot, pass)
    }
}

/// The slot of the least number that is not in use, and its shelf. What slots left as they ended is its batch, and is attempted where it
/// is full. The slot is inactive.
///
/// It waits for other threads that take numbers or give them back, and asks for memory where a slot is made. What is reclaimed goes to the
/// reclaimer outside the lock of the numbers.
///
/// # Errors
///
/// `NoMemory` where the allocator refuses.
#[inline(always)]
pub fn take_slot<T: Drop, R: Reclaim<T>, W: Wait>(
    parts: &Parts<T, R>,
    rt: &W,
    alloc: Global,
    pass: &mut Pass,
) -> Result<(Slot<T>, Shelf<T>), Refusal>
    requires { IsPassOf parts.now.words pass.old }
    ensures slot { IfOk result (λ made. IsSlotOf parts.now.words made.0 × IsInactive made.0 × IsShelfFor parts.now.words made.1) }
    ensures takes { IfOk result (λ made. TakesNumber (PutBy T.row.coded.code R.puts) (its_number made.0) pass.old pass.new) }
    ensures refused { IfErr result (λ refusal. TakesNone pass.old pass.new refusal) }
{
    let words = &parts.words;
    let Taken {
        mut slot,
        begun,
        shelf,
    } = parts.numbers.with(rt, Registering { words, alloc }, pass)?;
    if begun {
        slot.resume(
            words,
            &mut Forwards::new(parts.ender()),
            pass,
            &Beside { rt },
        );
    }
    Ok((slot, shelf))
}

/// The slot's number goes back, and its batch is left for whoever takes a number next. While no other slot is in use, what slots left and
/// the slot's batch are attempted first, until nothing is left.
///
/// It takes no memory and waits as `take_slot` does; what is reclaimed goes to the reclaimer outside the lock.
#[inline(always)]
pub fn end_slot<T: Drop, R: Reclaim<T>, W: Wait>(
    parts: &Parts<T, R>,
    rt: &W,
    slot: Slot<T>,
    pass: &mut Pass,
)
    requires pass { IsPassOf parts.now.words pass.old }
    requires slot { MayEnd parts.now.words slot }
    ensures gives { GivesNumber (PutBy T.row.coded.code R.puts) (its_number slot) pass.old pass.new }
{
    let words = &parts.words;
    let mut slot = slot;
    for _ in rt.forever() {
        let Some(begun) = parts.numbers.with(rt, Ending { words, slot }, pass) else {
            return;
        };
        slot = begun;
        slot.resume(
            words,
            &mut Forwards::new(parts.ender()),
            pass,
            &Beside { rt },
        );
    }
    unreachable!()
}
