//! A caller who has a collector alone: what is put into a link is found there, and the block that came out is retired.
ghost use Rattle.std.specs.Prelude.{◌≡◌, ◌<◌, IfOk, IfSome, Some, option_map, true};
ghost use Rattle.seize.specs.Waiting.Calls as calls;
ghost use Rattle.seize.specs.Alones.{moments_in, opening_in};
ghost use Rattle.seize.specs.Blocks.{content, owned_store};
ghost use Rattle.seize.specs.Machine.Laws.{After, AtMostOnce};

use seize::{Alone, IdSource, Owned, Refusal};
use std::alloc::Global;

/// Puts a number into the one link of a new collector, reads it there, takes it out and retires it. What was read is that number.
///
/// # Errors
///
/// `NoMemory` where the allocator refuses.
pub fn read_and_retire(alloc: Global, number: u64) -> Result<Option<u64>, Refusal>
    ensures { IfOk result (λ read. read ≡ Some number) }
{
    let mut alone = Alone::new(alloc, &mut IdSource::new(), 1, 1)?;
    let slot = alone.register(&mut ())?;
    alone.enter(slot)?;
    let block = alone.owned(number).map_err(|(refusal, _)| refusal)?;
    replace(&mut alone, slot, Some(block))?;
    let read = alone.protect(slot, 0)?.map(|found| *found);
    replace(&mut alone, slot, None)?;
    alone.leave(slot, &mut ())?;
    Ok(read)
}

/// Puts a number into link 0, and reads it there. The slot has a guard, else this is refused.
///
/// # Errors
///
/// As `replace`, and `NoMemory` where no block can be made.
pub fn put_and_read(
    alone: &mut Alone<u64>,
    slot: usize,
    number: u64,
) -> Result<Option<u64>, Refusal>
    requires link { 0 < alone.old.links }
    ensures read { IfOk result (λ read. read ≡ Some number) }
    ensures links { alone.new.links ≡ alone.old.links }
{
    let block = alone.owned(number).map_err(|(refusal, _)| refusal)?;
    replace(alone, slot, Some(block))?;
    Ok(alone.protect(slot, 0)?.map(|found| *found))
}

/// Puts a block or nothing into link 0, and retires the block that the link held.
///
/// # Errors
///
/// In this order: `NotInUse`, `NotActive` where the slot has no guard.
pub fn replace(alone: &mut Alone<u64>, slot: usize, new: Option<Owned<u64>>) -> Result<(), Refusal>
    requires link { 0 < alone.old.links }
    requires own { IfSome new (λ owned. owned_store owned ≡ alone.old.book.store) }
    ensures held { IfOk result (λ _. calls.model_link alone.new.state 0 ≡ option_map content new) }
    ensures links { alone.new.links ≡ alone.old.links }
{
    let Some(old) = alone.swap(slot, 0, new).map_err(|(refusal, _)| refusal)? else {
        return Ok(());
    };
    match alone.retire(slot, old, 0, &mut ()) {
        Ok(()) => Ok(()),
        Err((_, _old)) => unreachable!(),
    }
}

/// Whether two reads of link 0, one after the other, find one block. They do; so it says true also where both find none.
///
/// # Errors
///
/// In this order: `NotInUse`, `NotActive` where the slot has no guard.
pub fn found_twice(alone: &Alone<u64>, slot: usize) -> Result<bool, Refusal>
    requires link { 0 < alone.now.links }
    ensures { IfOk result (λ same. same ≡ true) }
{
    let Some(one) = alone.protect(slot, 0)? else {
        return Ok(true);
    };
    let Some(other) = alone.protect(slot, 0)? else {
        unreachable!()
    };
    Ok(one.same(&other))
}

/// Empties link 0, reads what it held while that is in no link, and retires it.
///
/// # Errors
///
/// As `replace`.
pub fn take_out(alone: &mut Alone<u64>, slot: usize) -> Result<Option<u64>, Refusal>
    requires link { 0 < alone.old.links }
    ensures taken { IfOk result (λ number. number ≡ calls.model_link alone.old.state 0) }
    ensures links { alone.new.links ≡ alone.old.links }
{
    let Some(old) = alone.swap(slot, 0, None).map_err(|(refusal, _)| refusal)? else {
        return Ok(None);
    };
    let number = *alone.peek(&old);
    match alone.retire(slot, old, 0, &mut ()) {
        Ok(()) => Ok(Some(number)),
        Err((_, _old)) => unreachable!(),
    }
}

/// In the list of all events no value was reclaimed twice; each that was reclaimed was retired before, and each slot that was active
/// at that moment has left or refreshed since.
pub fn audit(alone: &mut Alone<u64>)
    ensures same { alone.new ≡ alone.old }
    ensures once { AtMostOnce (opening_in alone.old) (moments_in alone.old) }
    ensures after { After (opening_in alone.old) (moments_in alone.old) }
{
    alone.laws();
}
