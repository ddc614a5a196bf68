//! The place of a slot, with as many guards as the test lets it have: a registration's may have 2^64 - 1.
ghost use Rattle.std.specs.Prelude.{IfOk};
ghost use Rattle.seize_calls.specs.Slots.{IsInactive, IsSlotOf, its_number};
ghost use Rattle.seize_words.specs.Joined.{words_book};
ghost use Rattle.seize_parts.specs.Reservations.{IsUnit};
ghost use Rattle.seize_parts_rows.specs.Places.{IsPlace, LendsFor};

use seize_calls::slot::Slot;
use seize_cells::LockWork;
use seize_guards::works::{Entering, LeavingBeside};
use seize_parts::reservation::Reservation;
use seize_table::Refusal;
use seize_words::activation::Activation;
use seize_words::book::{Porter, Seen};
use seize_words::reservation::Head;
use seize_words::words::Words;

/// A slot's reservation and its head, and the porter by which each call has a pass of its own.
#[derive(Drop)]
pub struct Place<'w> {
    pub words: &'w Words<u64>,
    pub porter: &'w Porter,
    pub head: &'w Head,
    pub reservation: Reservation<u64>,
}

/// The unit of a guard, and what was seen when it was made.
#[derive(Drop)]
pub struct Unit {
    pub activation: Activation,
    pub seen: Seen,
}

impl<'w> Place<'w> {
    /// That of a slot without a guard, which may have so many.
    pub fn new(words: &'w Words<u64>, porter: &'w Porter, slot: Slot<u64>, most: u64) -> Place<'w>
        requires slot { IsSlotOf words.now slot × IsInactive slot }
        requires lends { LendsFor words.now porter.now }
        ensures { IsPlace result }
    {
        let mut pass = porter.pass();
        let head = slot.head(words, &mut pass);
        Place {
            words,
            porter,
            head,
            reservation: Reservation::new(words, slot, most),
        }
    }

    /// One guard more, if there may be one.
    pub fn enter(&mut self) -> Result<Unit, Refusal>
        requires place { IsPlace self.old }
        ensures place { IsPlace self.new }
        ensures unit { IfOk result (λ unit. IsUnit (words_book self.new.words.now) (its_number self.new.reservation.slot)
            unit.activation unit.seen) }
    {
        let mut pass = self.porter.pass();
        let entering = Entering {
            words: self.words,
            head: self.head,
        };
        let (activation, seen) = entering.work(&mut self.reservation, &mut pass)?;
        Ok(Unit { activation, seen })
    }

    /// A guard leaves, where there are others. It says whether it has left.
    pub fn leave(&mut self, unit: Unit) -> bool
        requires place { IsPlace self.old }
        requires unit { IsUnit (words_book self.old.words.now) (its_number self.old.reservation.slot) unit.activation unit.seen }
        ensures place { IsPlace self.new }
    {
        let Unit { activation, seen } = unit;
        let mut pass = self.porter.pass();
        let leaving = LeavingBeside {
            words: self.words,
            unit: activation,
            seen,
        };
        leaving.work(&mut self.reservation, &mut pass).is_none()
    }

    /// One guard more, if there may be one, which leaves at once. It says whether it has left, as it does beside others.
    pub fn visit(&mut self) -> Result<bool, Refusal>
        requires place { IsPlace self.old }
        ensures place { IsPlace self.new }
    {
        let unit = self.enter()?;
        Ok(self.leave(unit))
    }
}
