//! A cache that threads share. Each key has a place, which is a link of the collector, and a place holds the entry that was put there last.
ghost use Rattle.std.specs.Prelude.{◌≡◌, ◌<◌, ℕ, IfSome};
ghost use Rattle.seize.specs.Blocks.{HasContent};
ghost use Rattle.seize.specs.Collectors.{IsPassOf, its_links};
ghost use Rattle.seize.specs.Guards.{core_collector, core_slot, guard_collector};
ghost use Rattle.seize.specs.Laws.{moments_seen};
ghost use Rattle.seize.specs.Machine.History.{Found};
ghost use Rattle.seize_uses.specs.contracts.cache.Entry.{the_row};
ghost use Rattle.seize_uses.specs.declared.cache.Entry.{Entry};

use seize::{Guard, GuardCore, LocalGuard, Pass, Refusal};
use std::sync::Wait;

/// A value under its key.
#[derive(Clone, Copy)]
pub struct Entry {
    /// The key.
    pub key: u64,
    /// The value.
    pub value: u64,
}

// The place of a key.
fn place(core: &GuardCore<'_, Entry>, key: u64) -> usize
    requires { 0 < its_links (core_collector core.now) }
    ensures { result < its_links (core_collector core.now) }
{
    key as usize % core.collector().links()
}

/// The value under this key, if its place holds one. Then the list says that the guard's slot found it: an entry with the key and the
/// value.
pub fn get(core: &GuardCore<'_, Entry>, key: u64, pass: &mut Pass) -> Option<u64>
    requires of { IsPassOf (core_collector core.now) pass.old × (0 < its_links (core_collector core.now)) }
    ensures pass { IsPassOf (core_collector core.now) pass.new }
    ensures found { IfSome result (λ value. (v : ℕ) × (e : Entry) × HasContent the_row.coded.code v e × (e.key ≡ key) × (e.value ≡ value)
        × ((q : ℕ) × Found (moments_seen pass.new) (core_slot core.now) v q)) }
{
    let entry = *core.protect(place(core, key), pass)?;
    if entry.key == key {
        Some(entry.value)
    } else {
        None
    }
}

/// Puts a value under this key into the key's place, and retires the entry that was there. Guards that have found that one still read it.
///
/// # Errors
///
/// `NoMemory` where no block could be made.
pub fn put<W: Wait>(
    guard: &LocalGuard<'_, '_, Entry>,
    entry: Entry,
    rt: &W,
    pass: &mut Pass,
) -> Result<(), Refusal>
    requires of { IsPassOf (guard_collector guard.now) pass.old × (0 < its_links (guard_collector guard.now)) }
    ensures pass { IsPassOf (guard_collector guard.now) pass.new }
{
    let block = guard.owned(entry).map_err(|(refusal, _)| refusal)?;
    if let Some(old) = guard.swap(place(guard, entry.key), Some(block), pass) {
        guard.defer_retire(rt, pass, old);
    }
    Ok(())
}
