//! Each slot in use leaves with its last guard, where it has any, and is kept, by a pass that is alone. A watch is told of each value that
//! goes, and what the reclaimer puts waits in a queue.
ghost use Rattle.std.specs.Prelude.{◌≡◌, ◌<◌, ℕ, None, Some, false, get_or, length, slice_set};
ghost use Rattle.std.specs.List.{range_with_len};
ghost use Rattle.seize_book.specs.Tokens.{IsSole};
ghost use Rattle.seize_words.specs.Joined.{words_book};
ghost use Rattle.seize_model.specs.Waiting.Calls.{is_free, one_guard_less};
ghost use Rattle.seize_model.specs.Waiting.State.{ModelState, model_slot};
ghost use Rattle.seize_calls.specs.Slots.{IsInactive, IsPassOf, IsSlotOf, its_number};
ghost use Rattle.seize_calls.specs.declared.slot.Slot.{Slot as ASlot};
ghost use Rattle.seize_alone.specs.Reclaiming.{last_guard_left, part_in_turn, parts_in_turn};
ghost use Rattle.seize_parts.specs.Aparts.{AreKeptOf, Fits, Goes, IsIn, MovesToKept, IsSomeHeld, KeepsAside, MayDrain, MayGo, MayPart};
ghost use Rattle.seize_parts.specs.Enders.{IsEnderOf};
ghost use Rattle.seize_parts.specs.Numbers.{AreNumbers, AreSlots};
ghost use Rattle.seize_parts.specs.Places.{IsOnly};
ghost use Rattle.seize_parts.specs.Reservations.{IsReservation, IsUnit};
ghost use Rattle.seize_parts.specs.Sweeps.{KeepsFree};

use crate::alone::apart::leave_into;
use crate::alone::aside::Aside;
use crate::alone::place::{Place, Unit};
use crate::ender::Ender;
use crate::numbers::Numbers;
use crate::reclaim::{Reclaim, Watch};
use crate::reservation::Reservation;
use seize_calls::slot::Slot;
use seize_words::book::Pass;
use seize_words::words::Words;

// The slot leaves with its last guard, of which this is the unit.
fn leave_last<T: Drop, R: Reclaim<T>, W: Watch<T>>(
    words: &Words<T>,
    ender: &Ender<T, R>,
    r: &mut Reservation<T>,
    unit: Unit,
    aside: &mut Aside<'_, W>,
    pass: &mut Pass,
)
    requires r { IsReservation r.old × IsOnly words.now r.old pass.old }
    requires unit { IsUnit (words_book words.now) (its_number r.old.slot) unit.unit unit.seen }
    requires ender { IsEnderOf words.now ender.now }
    requires queue { MayDrain T.row.coded.code (words_book words.now) aside.old.queue }
    ensures aside { KeepsAside aside.old aside.new × MayDrain T.row.coded.code (words_book words.now) aside.new.queue }
    ensures slot { IsSlotOf words.now r.new.slot × IsInactive r.new.slot × (its_number r.new.slot ≡ its_number r.old.slot) }
    ensures goes { let s = its_number r.old.slot in Goes T.row.coded.code R.puts W.told
        (λ st. Fits pass.old st × (is_free (model_slot st s).kind ≡ false) × ((model_slot st s).guards ≡ 1)) (λ st. one_guard_less st s)
        pass.old pass.new (W.seen aside.old.watch.now) (W.seen aside.new.watch.now) aside.old.queue aside.new.queue }
{
    let Unit {
        number: _,
        unit,
        seen,
    } = unit;
    r.current(words, &unit, &seen, pass);
    let head = r.slot.head(words, pass);
    r.rest.join(unit);
    leave_into(words, ender, &mut r.slot, head, &mut r.rest, aside, pass);
}

// The slot whose place this is leaves with its last guard, where it has any. It gives the slot. Clauses alone use the number `_s`.
fn part<T: Drop, R: Reclaim<T>, W: Watch<T>>(
    words: &Words<T>,
    ender: &Ender<T, R>,
    _s: usize,
    place: Place<T>,
    aside: &mut Aside<'_, W>,
    pass: &mut Pass,
) -> Slot<T>
    requires pass { IsPassOf words.now pass.old × IsSole pass.old.id }
    requires held { IsSomeHeld T.row.coded.code pass.old (IsIn pass.old _s place) }
    requires ender { IsEnderOf words.now ender.now }
    requires queue { MayDrain T.row.coded.code (words_book words.now) aside.old.queue }
    ensures aside { KeepsAside aside.old aside.new × MayDrain T.row.coded.code (words_book words.now) aside.new.queue }
    ensures slot { IsSlotOf words.now result × IsInactive result × (its_number result ≡ _s) }
    ensures goes { Goes T.row.coded.code R.puts W.told (IsIn pass.old _s place) (λ st. last_guard_left st _s)
        pass.old pass.new (W.seen aside.old.watch.now) (W.seen aside.new.watch.now) aside.old.queue aside.new.queue }
{
    let Place {
        reservation: mut r,
        unit,
        ..
    } = place;
    let Some(unit) = unit else {
        r.slot.seen().agree(&words.blocks.book);
        r.slot.look(words, pass);
        let Reservation { slot, .. } = r;
        return slot;
    };
    leave_last(words, ender, &mut r, unit, aside, pass);
    let Reservation { slot, .. } = r;
    slot
}

impl<T: Drop> Numbers<T> {
    /// Each slot leaves with its last guard, where it has any, in order of numbers, and is kept. Nothing lies in any place then. It takes
    /// no memory and waits for nobody, but for what watch and reclaimer do.
    pub(super) fn part_all<R: Reclaim<T>, W: Watch<T>>(
        &mut self,
        words: &Words<T>,
        ender: &Ender<T, R>,
        places: &mut Vec<Option<Place<T>>>,
        aside: &mut Aside<'_, W>,
        pass: &mut Pass,
    )
        requires numbers { AreNumbers self.old × (self.old.book.name ≡ words_book words.now) }
        requires pass { IsPassOf words.now pass.old × IsSole pass.old.id × IsEnderOf words.now ender.now }
        requires held { IsSomeHeld T.row.coded.code pass.old (MayGo pass.old places.old.items) }
        requires queue { MayDrain T.row.coded.code (words_book words.now) aside.old.queue }
        ensures aside { KeepsAside aside.old aside.new × MayDrain T.row.coded.code (words_book words.now) aside.new.queue }
        ensures numbers { AreSlots self.new × KeepsFree self.old self.new }
        ensures places { (s : ℕ) → get_or places.new.items s None ≡ None }
        ensures kept { (st : ModelState T ℕ) → MayGo pass.old places.old.items st
            → AreKeptOf self.new.kept.items (parts_in_turn st (range_with_len 0 (length st.slots))).0 }
        ensures goes { Goes T.row.coded.code R.puts W.told (MayGo pass.old places.old.items)
            (λ st. parts_in_turn st (range_with_len 0 (length st.slots))) pass.old pass.new
            (W.seen aside.old.watch.now) (W.seen aside.new.watch.now) aside.old.queue aside.new.queue }
    {
        for n in 0..places.len() {
            self.part_at(words, ender, n, places, aside, pass);
        }
    }

    // The slot in this place leaves with its last guard, where it has any, and is kept.
    fn part_at<R: Reclaim<T>, W: Watch<T>>(
        &mut self,
        words: &Words<T>,
        ender: &Ender<T, R>,
        n: usize,
        places: &mut Vec<Option<Place<T>>>,
        aside: &mut Aside<'_, W>,
        pass: &mut Pass,
    )
        requires numbers { AreSlots self.old × (self.old.book.name ≡ words_book words.now) }
        requires pass { IsPassOf words.now pass.old × IsSole pass.old.id × IsEnderOf words.now ender.now }
        requires held { IsSomeHeld T.row.coded.code pass.old (MayPart pass.old n places.old.items) × (n < length places.old.items) }
        requires queue { MayDrain T.row.coded.code (words_book words.now) aside.old.queue }
        ensures aside { KeepsAside aside.old aside.new × MayDrain T.row.coded.code (words_book words.now) aside.new.queue }
        ensures numbers { AreSlots self.new × KeepsFree self.old self.new }
        ensures places { places.new.items ≡ slice_set places.old.items n None }
        ensures kept { MovesToKept n places.old.items self.old.kept.items self.new.kept.items }
        ensures goes { Goes T.row.coded.code R.puts W.told (MayPart pass.old n places.old.items) (λ st. part_in_turn st n)
            pass.old pass.new (W.seen aside.old.watch.now) (W.seen aside.new.watch.now) aside.old.queue aside.new.queue }
    {
        if let Some(place) = places[n].take() {
            let slot = part(words, ender, n, place, aside, pass);
            self.keep(words, n, slot, pass);
        }
    }

    // The slot is kept. Its key and that of the numbers know the same list then, so it has a place here.
    fn keep(&mut self, words: &Words<T>, n: usize, slot: Slot<T>, pass: &mut Pass)
        requires numbers { AreSlots self.old × (self.old.book.name ≡ words_book words.now) }
        requires pass { IsPassOf words.now pass.old × IsSole pass.old.id }
        requires slot { IsSlotOf words.now slot × IsInactive slot × (its_number slot ≡ n) }
        ensures still { pass.new ≡ pass.old }
        ensures numbers { AreSlots self.new × KeepsFree self.old self.new }
        ensures kept { (s : ASlot T) × (n < length self.old.kept.items) × (self.new.kept.items ≡ slice_set self.old.kept.items n (Some s)) }
    {
        let mut slot = slot;
        self.key.look(pass);
        slot.look(words, pass);
        self.kept[n] = Some(slot);
    }
}
