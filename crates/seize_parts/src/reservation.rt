//! What the calls of guards change: a slot, how many guards it has, and what is left of the activation that these share. It lies in its
//! place, under the lock of a registration or of an owned guard. Each call is a work there (`works` of `seize_guards`).
ghost use Rattle.std.specs.Prelude.{◌≡◌};
ghost use Rattle.seize_parts.specs.Reservations.{IsReservation, its_label};

use crate::alone::apart::leave_into;
use crate::alone::aside::Aside;
use crate::ender::Ender;
use crate::reclaim::{Reclaim, Watch};
use crate::shelf::Forgotten;
use seize_calls::slot::Slot;
use seize_content::Steady;
use seize_words::activation::Activation;
use seize_words::book::{Pass, Seen};
use seize_words::reservation::Head;
use seize_words::words::Words;

/// A slot in use, and what its guards share.
#[derive(Drop)]
pub struct Reservation<T> {
    /// The slot, which is active while it has a guard.
    pub slot: Slot<T>,
    /// All units of its activation but one for each guard. Where there is no guard, the activation has still to begin.
    pub rest: Activation,
    /// How many guards there are. Those that were forgotten are among them.
    pub guards: u64,
    /// How many there may be.
    pub most: u64,
}

impl<T> Steady for Reservation<T> {
    ghost label = { λ reservation. its_label reservation };

    ghost sound = { λ reservation. IsReservation reservation };
}

impl<T: Drop> Reservation<T> {
    ghost use Rattle.std.specs.Prelude.{◌+◌, ◌<◌, IfNone, IfSome};
    ghost use Rattle.seize_machine.specs.Machine.Event.{Enter};
    ghost use Rattle.seize_machine.specs.declared.machine.event.Answer.{Answer};
    ghost use Rattle.seize_machine.specs.declared.machine.event.Answer.TheVariants.{Done};
    ghost use Rattle.seize_words.specs.Joined.{words_book};
    ghost use Rattle.seize_alone.specs.Events.{MakesAlone};
    ghost use Rattle.seize_parts.specs.Aparts.{KeepsAside, MayDrain};
    ghost use Rattle.seize_parts.specs.Enders.{IsEnderOf};
    ghost use Rattle.seize_parts.specs.Places.{IsUnmoved};
    ghost use Rattle.seize_calls.specs.Slots.{InActivation, IsInactive, IsPassOf, IsSlotOf, its_number};
    ghost use Rattle.seize_book.specs.Tokens.{IsSole};
    ghost use Rattle.seize_parts.specs.Makes.{MakesOne, StaysActive};
    ghost use Rattle.seize_parts.specs.Reservations.{IsHeadFor, IsReservationOf, IsUnit, KeepsPlace, place_label};
    ghost use Rattle.seize_parts.specs.Shelves.{IsForgottenOf};
    ghost use Rattle.seize_parts.specs.Sweeps.{IsLedBy};

    /// That of a slot with no guard, which may have so many.
    pub fn new(_words: &Words<T>, slot: Slot<T>, most: u64) -> Reservation<T>
        requires { IsSlotOf _words.now slot × IsInactive slot }
        ensures { IsReservation result × (its_label result ≡ place_label (words_book _words.now) (its_number slot) most)
            × (result.guards ≡ 0) }
    {
        let rest = slot.activation();
        Reservation {
            slot,
            rest,
            guards: 0,
            most,
        }
    }

    /// The slot enters with its first guard. It gives the guard's unit, and what was seen then.
    #[inline(always)]
    pub fn enter(&mut self, words: &Words<T>, head: &Head, pass: &mut Pass) -> (Activation, Seen)
        requires of { IsReservation self.old × IsReservationOf words.now self.old × IsPassOf words.now pass.old }
        requires head { IsHeadFor (words_book words.now) (its_number self.old.slot) head.now }
        requires first { (self.old.guards ≡ 0) × (0 < self.old.most) }
        ensures follows { KeepsPlace self.old self.new }
        ensures unit { IsUnit (words_book words.now) (its_number self.old.slot) result.0 result.1 }
        ensures guards { self.new.guards ≡ 1 }
        ensures enters { MakesOne pass.old pass.new (Enter (its_number self.old.slot)) Done }
        ensures alone { IsSole pass.old.id → (answer : Answer) × MakesAlone pass.old pass.new (Enter (its_number self.old.slot)) answer }
    {
        self.slot.seen().agree(&words.blocks.book);
        self.slot.enter(words, head, &mut self.rest, pass);
        self.guards = 1;
        let unit = self.rest.split();
        (unit, self.slot.seen())
    }

    /// One guard more beside others. No event is made; the pass learns that the slot is active.
    #[inline(always)]
    pub fn enter_beside(&mut self, words: &Words<T>, pass: &mut Pass) -> (Activation, Seen)
        requires of { IsReservation self.old × IsReservationOf words.now self.old × IsPassOf words.now pass.old }
        requires beside { (0 < self.old.guards) × (self.old.guards < self.old.most) }
        ensures follows { KeepsPlace self.old self.new }
        ensures guards { self.new.guards ≡ self.old.guards + 1 }
        ensures unit { IsUnit (words_book words.now) (its_number self.old.slot) result.0 result.1 }
        ensures active { StaysActive (its_number self.old.slot) pass.old pass.new }
    {
        self.look(words, pass);
        self.guards += 1;
        let unit = self.rest.split();
        (unit, self.slot.seen())
    }

    /// The slot has a guard, so the pass learns that it is active. No event is made, and nothing is done when the program runs.
    #[inline(always)]
    pub fn look(&mut self, words: &Words<T>, pass: &mut Pass)
        requires of { IsReservation self.old × IsReservationOf words.now self.old × IsPassOf words.now pass.old }
        requires some { 0 < self.old.guards }
        ensures follows { KeepsPlace self.old self.new × (self.new.guards ≡ self.old.guards) × (self.new.most ≡ self.old.most) }
        ensures slot { IsSlotOf words.now self.new.slot × InActivation self.new.slot self.new.rest }
        ensures same { its_number self.new.slot ≡ its_number self.old.slot }
        ensures active { StaysActive (its_number self.old.slot) pass.old pass.new }
    {
        self.slot.seen().agree(&words.blocks.book);
        self.slot.teach(pass);
        self.slot.current(words, &self.rest, pass);
    }

    /// The slot is active, as a guard's unit says. The pass learns that, and no event is made. It does nothing when the program runs.
    #[inline(always)]
    pub fn current(&mut self, words: &Words<T>, unit: &Activation, seen: &Seen, pass: &mut Pass)
        requires of { IsReservation self.old × IsReservationOf words.now self.old × IsPassOf words.now pass.old }
        requires unit { IsUnit (words_book words.now) (its_number self.old.slot) unit.now seen.now }
        ensures follows { KeepsPlace self.old self.new × (self.new.guards ≡ self.old.guards) × (self.new.rest ≡ self.old.rest) }
        ensures active { (0 < self.old.guards) × IsSlotOf words.now self.new.slot × InActivation self.new.slot unit.now }
        ensures same { its_number self.new.slot ≡ its_number self.old.slot }
        ensures active_still { StaysActive (its_number self.old.slot) pass.old pass.new }
        ensures still { IsUnmoved pass.old pass.new }
    {
        self.slot.seen().agree(&words.blocks.book);
        pass.learn(seen);
        self.slot.current(words, unit, pass);
    }

    /// The slot of a reservation that was forgotten, for a caller who has the collector alone. Where it has guards, and each of them was
    /// forgotten too, the slot leaves with their units; what waited for it is counted down. The watch is told of each value that goes, and
    /// what the reclaimer puts waits in the queue. Else, where it has guards, there is no slot, and no event.
    pub(crate) fn into_slot<R: Reclaim<T>, W: Watch<T>>(
        self,
        words: &Words<T>,
        ender: &Ender<T, R>,
        forgotten: Option<Forgotten>,
        aside: &mut Aside<'_, W>,
        pass: &mut Pass,
    ) -> Option<Slot<T>>
        requires of { IsReservation self × IsReservationOf words.now self }
        requires forgotten { IfSome forgotten (IsForgottenOf (words_book words.now).family) }
        requires pass { IsPassOf words.now pass.old × IsSole pass.old.id }
        requires ender { IsEnderOf words.now ender.now }
        requires queue { MayDrain T.row.coded.code (words_book words.now) aside.old.queue }
        ensures led { IsLedBy (its_number self.slot) pass.old pass.new }
        ensures slot { IfSome result (λ slot. IsSlotOf words.now slot × IsInactive slot × (its_number slot ≡ its_number self.slot)) }
        ensures unless { IfNone result (pass.new ≡ pass.old) }
        ensures aside { KeepsAside aside.old aside.new × MayDrain T.row.coded.code (words_book words.now) aside.new.queue }
    {
        let Reservation {
            mut slot,
            mut rest,
            guards,
            most: _,
        } = self;
        slot.seen().agree(&words.blocks.book);
        if guards == 0 {
            return Some(slot);
        }
        let Forgotten {
            number,
            units,
            count,
            seen,
        } = forgotten?;
        if count != guards || number != slot.number() {
            return None;
        }
        pass.agree(&seen);
        pass.learn(&seen);
        slot.current(words, &units, pass);
        rest.join(units);
        let head = slot.head(words, pass);
        leave_into(words, ender, &mut slot, head, &mut rest, aside, pass);
        Some(slot)
    }
}
