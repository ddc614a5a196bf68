//! Between shelves and places. What forgotten holders left of a slot lies on the slot's shelf; it comes into the slot's place where one
//! caller has the collector, and goes back where threads share it again.
ghost use Rattle.std.specs.Prelude.{◌≡◌, ◌<◌, ◌≤◌, ◌-◌, ◌^◌, ℕ, IfSome, Some, None, false, get_or, true};
ghost use Rattle.seize_book.specs.Homesteads.{state_seen};
ghost use Rattle.seize_book.specs.Tokens.{IsSole};
ghost use Rattle.seize_calls.specs.Slots.{IsPassOf, its_number};
ghost use Rattle.seize_words.specs.Joined.{words_book};
ghost use Rattle.seize_parts.specs.Placing.{IsLeftAt, MayLay};
ghost use Rattle.seize_parts.specs.Reservations.{IsReservation, IsReservationOf, IsUnit};
ghost use Rattle.seize_parts.specs.Shelves.{IsForgottenOf, IsLaidFor, IsShelfFor, IsAllLeft};
ghost use Rattle.seize_parts.specs.declared.alone.place.Place.{Place};

use crate::alone::place::{Place, Unit};
use crate::reservation::Reservation;
use crate::shelf::{Forgotten, Shelf};
use seize_words::book::{Pass, Porter};
use seize_words::words::Words;

// Whether this is all that was left of slot `n`: with its reservation the unit of each guard.
fn is_whole<T: Drop>(n: usize, r: &Reservation<T>, forgotten: &Option<Forgotten>) -> bool
    ensures { result ≡ true → IsAllLeft n r.now forgotten.now }
{
    if r.slot.number() != n {
        return false;
    }
    match forgotten {
        Some(forgotten) => forgotten.number == n && forgotten.count == r.guards,
        None => r.guards == 0,
    }
}

// The place of a slot without a guard, of which this was left.
fn without_guard<T: Drop>(
    words: &Words<T>,
    r: Reservation<T>,
    shelf: Shelf<T>,
    pass: &mut Pass,
) -> Place<T>
    requires r { IsReservation r × IsReservationOf words.now r × (r.guards ≡ 0) }
    requires shelf { IsShelfFor words.now shelf }
    requires pass { IsPassOf words.now pass.old × IsSole pass.old.id }
    ensures still { pass.new ≡ pass.old }
    ensures place { IsLeftAt (words_book words.now) (state_seen pass.old) (its_number r.slot) result }
{
    let Reservation {
        mut slot,
        rest,
        guards: _,
        most,
    } = r;
    slot.seen().agree(&words.blocks.book);
    slot.look(words, pass);
    let reservation = Reservation {
        slot,
        rest,
        guards: 0,
        most: 1,
    };
    Place {
        owned: most == 1,
        guards: 0,
        reservation,
        unit: None,
        shelf,
    }
}

// The place of a slot whose guards left these units. All but one of them join the rest.
fn with_guards<T: Drop>(
    words: &Words<T>,
    r: Reservation<T>,
    forgotten: Forgotten,
    shelf: Shelf<T>,
    pass: &mut Pass,
) -> Place<T>
    requires r { IsReservation r × IsReservationOf words.now r }
    requires forgotten { IsForgottenOf (words_book words.now).family forgotten × (forgotten.number ≡ its_number r.slot)
        × (forgotten.count ≡ r.guards) }
    requires shelf { IsShelfFor words.now shelf }
    requires pass { IsPassOf words.now pass.old × IsSole pass.old.id }
    ensures still { pass.new ≡ pass.old }
    ensures place { IsLeftAt (words_book words.now) (state_seen pass.old) (its_number r.slot) result }
{
    let Reservation {
        mut slot,
        mut rest,
        guards,
        most,
    } = r;
    let Forgotten {
        number,
        units,
        count: _,
        seen,
    } = forgotten;
    slot.seen().agree(&words.blocks.book);
    pass.agree(&seen);
    pass.learn(&seen);
    slot.current(words, &units, pass);
    rest.join(units);
    let unit = rest.split();
    let seen = slot.seen();
    let reservation = Reservation {
        slot,
        rest,
        guards: 1,
        most: 1,
    };
    Place {
        owned: most == 1,
        guards,
        reservation,
        unit: Some(Unit { number, unit, seen }),
        shelf,
    }
}

/// What lies on the shelf of slot `n` comes into the slot's place. Where a holder of the slot is lost, so that not all of it lies there,
/// it stays there. It takes no memory and waits for nobody.
pub fn found<T: Drop>(
    words: &Words<T>,
    n: usize,
    shelf: Shelf<T>,
    pass: &mut Pass,
) -> Option<Place<T>>
    requires shelf { IsShelfFor words.now shelf }
    requires pass { IsPassOf words.now pass.old × IsSole pass.old.id }
    ensures still { pass.new ≡ pass.old }
    ensures place { IfSome result (λ place. IsLeftAt (words_book words.now) (state_seen pass.old) n place) }
{
    let (reservation, forgotten) = shelf.take();
    let Some(r) = reservation else {
        shelf.put(None, forgotten);
        return None;
    };
    if !is_whole(n, &r, &forgotten) {
        shelf.put(Some(r), forgotten);
        return None;
    }
    match forgotten {
        Some(forgotten) => Some(with_guards(words, r, forgotten, shelf, pass)),
        None => Some(without_guard(words, r, shelf, pass)),
    }
}

// The units of so many guards, of which this is one: the others come from the rest.
fn units_of<T: Drop>(
    words: &Words<T>,
    r: &mut Reservation<T>,
    guards: u64,
    unit: Unit,
    pass: &mut Pass,
) -> Forgotten
    requires r { IsReservation r.old × IsReservationOf words.now r.old × (r.old.most ≡ 1) }
    requires pass { IsPassOf words.now pass.old }
    requires unit { IsUnit (words_book words.now) (its_number r.old.slot) unit.unit unit.seen × (unit.number ≡ its_number r.old.slot) }
    requires some { 0 < guards }
    ensures units { IsForgottenOf (words_book words.now).family result }
    ensures few { guards ≤ 2 ^ 64 - 1 }
    ensures rest { (most : ℕ) → guards ≤ most → IsLaidFor (words_book words.now).family (record r.new { most = most }) }
{
    let Unit {
        number,
        mut unit,
        seen,
    } = unit;
    r.current(words, &unit, &seen, pass);
    if guards > 1 {
        unit.join(r.rest.split_many(guards - 1));
    }
    r.guards = guards;
    Forgotten {
        number,
        units: unit,
        count: guards,
        seen,
    }
}

// What lies in this place is laid on its shelf, as if the holders of the slot and of its guards had been forgotten.
fn lay<T: Drop>(words: &Words<T>, place: Place<T>, pass: &mut Pass)
    requires pass { IsPassOf words.now pass.old }
    requires place { MayLay (words_book words.now) place }
{
    let Place {
        owned,
        guards,
        reservation: mut r,
        unit,
        shelf,
    } = place;
    let forgotten = match unit {
        Some(unit) => Some(units_of(words, &mut r, guards, unit, pass)),
        None => None,
    };
    r.most = if owned { 1 } else { u64::MAX };
    shelf.put(Some(r), forgotten);
}

/// So is what lies in each of these places. It takes no memory and waits for nobody.
pub fn lay_all<T: Drop>(words: &Words<T>, places: &mut Vec<Option<Place<T>>>, porter: &Porter)
    requires porter { (porter.now.home ≡ false) × (porter.now.name ≡ words_book words.now) × (porter.now.size ≡ words.now.size) }
    requires places { (s : ℕ) (place : Place T) → get_or places.old.items s None ≡ Some place → MayLay (words_book words.now) place }
{
    for n in 0..places.len() {
        if let Some(place) = places[n].take() {
            lay(words, place, &mut porter.pass());
        }
    }
}
