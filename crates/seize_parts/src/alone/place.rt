//! The place of a slot in use, while a collector is in one caller's hands. The slot lies there in a reservation for one guard; how many
//! guards the caller has of it is counted beside that, with the unit of the activation that they share.
ghost use Rattle.std.specs.Prelude.{◌≡◌, ◌<◌, ◌≤◌, ℕ, IfErr, IfOk, None, Some, get_or, is_some, length, slice_set, true};
ghost use base.Growing.{prefix_prop};
ghost use base.Stored.{Coded-set, coded_list};
ghost use mathlib.Core.List.{IsPrefix};
ghost use Rattle.seize_book.specs.Entry.{entry_coded};
ghost use Rattle.seize_table.specs.declared.refusal.Refusal.TheVariants.{NoMemory as no_memory};
ghost use Rattle.seize_parts.specs.Reservations.{IsUnitIn};

use crate::reservation::Reservation;
use crate::shelf::Shelf;
use seize_table::Refusal;
use seize_words::activation::Activation;
use seize_words::book::Seen;

/// The unit of an activation that a slot's guards share.
#[derive(Drop)]
pub struct Unit {
    /// The number of the slot.
    pub number: usize,
    /// The unit.
    pub unit: Activation,
    /// What was seen when the activation had begun.
    pub seen: Seen,
    ghost its: { IsUnitIn seen.name number unit seen },
    ghost known: { IsPrefix unit.since seen.seen } by { prefix_prop (Coded-set (coded_list entry_coded)) unit.since seen.seen },
}

/// A slot in use.
#[derive(Drop)]
pub struct Place<T: Drop> {
    /// Whether it has just one guard, with which its use ends.
    pub owned: bool,
    /// How many guards it has.
    pub guards: u64,
    /// The slot, for one guard.
    pub reservation: Reservation<T>,
    /// The unit of its activation, where it has guards.
    pub unit: Option<Unit>,
    /// Where it is laid when the collector is shared again.
    pub shelf: Shelf<T>,
}

/// Makes room for the places of so many slots.
pub fn room<T: Drop>(places: &mut Vec<Option<Place<T>>>, many: usize) -> Result<(), Refusal>
    ensures room { IfOk result (λ _. many ≤ length places.new.items) }
    ensures refused { IfErr result (λ refusal. refusal ≡ no_memory) }
    ensures same { (s : ℕ) → get_or places.new.items s None ≡ get_or places.old.items s None }
{
    for _ in places.len()..many {
        if places.push(None).is_err() {
            return Err(Refusal::NoMemory);
        }
    }
    Ok(())
}

/// Takes out what lies in the place of this slot.
pub fn out<T: Drop>(places: &mut Vec<Option<Place<T>>>, s: usize) -> Place<T>
    requires { is_some (get_or places.old.items s None) ≡ true }
    ensures place { get_or places.old.items s None ≡ Some result }
    ensures places { (places.new.items ≡ slice_set places.old.items s None) × (s < length places.old.items) }
{
    let Some(place) = places[s].take() else {
        unreachable!()
    };
    place
}

/// Lays this into the place of the slot.
pub fn back<T: Drop>(places: &mut Vec<Option<Place<T>>>, s: usize, place: Place<T>)
    requires { s < length places.old.items }
    ensures { places.new.items ≡ slice_set places.old.items s (Some place) }
{
    places[s] = Some(place);
}
