//! A thread's slot, for as long as the thread keeps it.
ghost use Rattle.std.specs.Prelude.{◌≡◌, ◌-◌, ◌^◌};
ghost use Rattle.seize_words.specs.Joined.{words_book};
ghost use Rattle.seize_parts.specs.Shelves.{IsShelfFor};
ghost use Rattle.seize_parts.specs.Reservations.{IsHeadFor, IsUnit, place_label};

use crate::block::{Owned, Unlinked, add_block};
use crate::guard::{GuardCore, LocalGuard};
use crate::parts::{Home, Parts};
use crate::taking::end_slot;
use crate::works::{Adding, Entering, LeavingBeside, Retiring, RetiringShort};
use seize_calls::slot::{Loose, Slot};
use seize_cells::LocalLock;
use seize_parts::reclaim::Reclaim;
use seize_parts::reservation::Reservation;
use seize_parts::shelf::Shelf;
use seize_table::Refusal;
use seize_words::activation::Activation;
use seize_words::book::{Pass, Seen};
use seize_words::reservation::Head;
use std::sync::Wait;

/// A slot of a collector, in the hands of one thread. It may go to another thread, and isn't shared by two.
///
/// It has no `Drop`: it is spent by `end`, which gives the slot's number back, or by `forget`.
pub struct Registration<'c, T: Drop, R: Reclaim<T>, C: Home<T>> {
    // The collector, for who asks for it, and what it lends to its slots.
    home: &'c C,
    pub(crate) parts: &'c Parts<T, R>,
    pub(crate) number: usize,
    // The slot's head.
    pub(crate) head: &'c Head,
    pub(crate) reservation: LocalLock<Reservation<T>>,
    // Where its slot is laid when it is forgotten, and units of forgotten guards.
    pub(crate) shelf: Shelf<T>,
    ghost homed: { parts.now.words ≡ C.its_words home.now },
    ghost at: { reservation ≡ place_label (words_book parts.now.words) number (2 ^ 64 - 1) },
    ghost headed: { IsHeadFor (words_book parts.now.words) number head.now },
    ghost shelved: { IsShelfFor parts.now.words shelf },
}

impl<'c, T: Drop, R: Reclaim<T>, C: Home<T>> Registration<'c, T, R, C> {
    ghost use Rattle.seize_machine.specs.declared.machine.event.Job.TheVariants.{Retire};
    ghost use Rattle.seize_table.specs.declared.refusal.Refusal.TheVariants.{NoMemory as no_memory, TooManyGuards as too_many_guards};
    ghost use Rattle.std.specs.Prelude.{IfErr, IfNone, IfOk, IfSome};
    ghost use Rattle.seize_calls.specs.Slots.{IsInactive, IsLooseOf, IsPassOf, IsSlotOf, Prepares, its_number, its_value};
    ghost use Rattle.seize_parts.specs.Puts.{PutBy};
    ghost use Rattle.seize_guards.specs.Registrations.{registered_home, registered_in, registered_slot};
    ghost use Rattle.seize_parts.specs.Blocks.{content};
    ghost use Rattle.seize_guards.specs.Links.{IsUnlinkedOf, unlinked_name};
    ghost use Rattle.seize_guards.specs.Collectors.{IsBlockOf};
    ghost use Rattle.seize_guards.specs.Guards.{IsGuardOf};
    ghost use Rattle.seize_parts.specs.Makes.{Defers, EndsUse, Enters, IsOfKind, MakesCall, MakesNone, StaysActive};

    // One with this slot, and its shelf.
    #[inline(always)]
    pub(crate) fn of(
        home: &'c C,
        parts: &'c Parts<T, R>,
        slot: Slot<T>,
        shelf: Shelf<T>,
        pass: &mut Pass,
    ) -> Registration<'c, T, R, C>
        requires home { parts.now.words ≡ C.its_words home.now }
        requires slot { IsSlotOf parts.now.words slot × IsInactive slot }
        requires shelf { IsShelfFor parts.now.words shelf }
        requires pass { IsPassOf parts.now.words pass.old }
        ensures of { (registered_in result ≡ parts.now.words) × (registered_slot result ≡ its_number slot)
            × (registered_home result ≡ home.now) }
        ensures looks { Prepares slot pass.old pass.new }
    {
        let words = &parts.words;
        let head = slot.head(words, pass);
        let number = slot.number();
        let reservation = Reservation::new(words, slot, u64::MAX);
        Registration {
            home,
            parts,
            number,
            head,
            reservation: LocalLock::new(reservation),
            shelf,
        }
    }

    /// The collector.
    pub fn collector(&self) -> &'c C
        ensures { (result.now ≡ registered_home self.now) × (C.its_words result.now ≡ registered_in self.now) }
    {
        self.home
    }

    /// The number of its slot.
    pub fn thread_id(&self) -> usize
        ensures { result ≡ registered_slot self.now }
    {
        self.number
    }

    /// A guard. The first one enters: the event `Enter`. Beside others it makes no event, and the pass learns that the slot is active.
    ///
    /// It takes no memory and waits for nobody: one atomic swap for the first guard, and none for others.
    ///
    /// # Errors
    ///
    /// `TooManyGuards` where the slot has 2^64 - 1 guards, or within another call of the same registration, as from its reclaimer, or
    /// the `Drop` of a value that the call reclaims. No event was made then.
    #[inline(always)]
    pub fn enter(&self, pass: &mut Pass) -> Result<LocalGuard<'_, 'c, T, R, C>, Refusal>
        requires pass { IsPassOf (registered_in self.now) pass.old }
        ensures made { IfOk result (λ guard. IsGuardOf self.now guard × Enters (registered_slot self.now) pass.old pass.new) }
        ensures refused { IfErr result (λ refusal. (refusal ≡ too_many_guards) × (pass.new ≡ pass.old)) }
    {
        let parts = self.parts;
        let entering = Entering {
            words: &parts.words,
            head: self.head,
        };
        match self.reservation.try_with(entering, pass) {
            Ok(Ok((unit, seen))) => {
                let core = GuardCore {
                    home: self.home,
                    parts,
                    number: self.number,
                    unit,
                    seen,
                };
                Ok(LocalGuard::of(self, core))
            }
            Ok(Err(refusal)) => Err(refusal),
            Err(_) => Err(Refusal::TooManyGuards),
        }
    }

    /// A block of this value, made of one of the slot's that is gone, where it has one: then it takes no atomic step and no memory. Else
    /// it is made as `Collector::owned` makes it, also within another call of the same registration.
    ///
    /// # Errors
    ///
    /// `NoMemory` where the store could not grow; the value comes back.
    #[inline(always)]
    pub fn owned(&self, value: T) -> Result<Owned<T>, (Refusal, T)>
        ensures made { IfOk result (λ owned. IsBlockOf (registered_in self.now) owned × (content owned ≡ value)) }
        ensures refused { IfErr result (λ refused. (refused.0 ≡ no_memory) × (refused.1 ≡ value)) }
    {
        let words = &self.parts.words;
        let adding = Adding { words, value };
        match self.reservation.try_with(adding, &mut ()) {
            Ok(added) => {
                let (key, block) = added?;
                Ok(Owned::of(key, block, &words.blocks.book))
            }
            Err(adding) => add_block(words, adding.value),
        }
    }

    /// Retires a block that is in no link: it joins the slot's batch, which is attempted where it has the batch size or more. What is
    /// reclaimed in the call goes to the reclaimer there.
    ///
    /// But for what that does, it takes no memory. An insertion is tried again as often as other threads change the head between a look at
    /// it and the try. Within another call of the same registration it waits for ever.
    #[inline(always)]
    pub fn retire<W: Wait>(&self, rt: &W, pass: &mut Pass, value: Unlinked<'_, T>)
        requires pass { IsPassOf (registered_in self.now) pass.old }
        requires value { IsUnlinkedOf (registered_in self.now) value }
        ensures call { MakesCall (PutBy T.row.coded.code R.puts) (registered_slot self.now) (Retire (unlinked_name value.entry))
            pass.old pass.new }
        ensures kind { IsOfKind (unlinked_name value.entry) 0 pass.new }
    {
        self.retire_as(rt, pass, value, 0);
    }

    /// The same, and says of which kind the value is. Its reclaimer is given the kind, and the list says for good that this is kept of the
    /// value.
    #[inline(always)]
    pub fn retire_as<W: Wait>(&self, rt: &W, pass: &mut Pass, value: Unlinked<'_, T>, kind: u64)
        requires pass { IsPassOf (registered_in self.now) pass.old }
        requires value { IsUnlinkedOf (registered_in self.now) value }
        ensures call { MakesCall (PutBy T.row.coded.code R.puts) (registered_slot self.now) (Retire (unlinked_name value.entry))
            pass.old pass.new }
        ensures kind { IsOfKind (unlinked_name value.entry) kind pass.new }
    {
        let parts = self.parts;
        let Err(loose) = self.retire_short(value.into_loose(), kind, pass) else {
            return;
        };
        let retiring = Retiring {
            words: &parts.words,
            ender: parts.ender(),
            loose,
            kind,
            rt,
        };
        self.reservation.with(rt, retiring, pass);
    }

    // Retires the value where nothing is to be attempted then. Else, or within another call of the registration, it comes back. It is no
    // call that may wait.
    #[inline(always)]
    pub(crate) fn retire_short(&self, loose: Loose, kind: u64, pass: &mut Pass) -> Result<(), Loose>
        requires pass { IsPassOf (registered_in self.now) pass.old }
        requires loose { IsLooseOf (registered_in self.now) loose }
        ensures retired { IfOk result (λ _. Defers (registered_slot self.now) (Retire (its_value loose)) pass.old pass.new
            × IsOfKind (its_value loose) kind pass.new) }
        ensures back { IfErr result (λ back. (back ≡ loose) × (pass.new ≡ pass.old)) }
    {
        let words = &self.parts.words;
        let retiring = RetiringShort { words, loose, kind };
        match self.reservation.try_with(retiring, pass) {
            Ok(retired) => retired,
            Err(
                RetiringShort {
                    words: _,
                    loose,
                    kind: _,
                },
            ) => Err(loose),
        }
    }

    // A guard leaves with this unit, where the slot has others. Where it has none, or within another call of the registration, the unit
    // comes back, with what was seen. It is no call that may wait.
    #[inline(always)]
    pub(crate) fn leave_beside(
        &self,
        unit: Activation,
        seen: Seen,
        pass: &mut Pass,
    ) -> Option<(Activation, Seen)>
        requires pass { IsPassOf (registered_in self.now) pass.old }
        requires unit { IsUnit (words_book (registered_in self.now)) (registered_slot self.now) unit seen }
        ensures left { IfNone result (StaysActive (registered_slot self.now) pass.old pass.new) }
        ensures back { IfSome result (λ back. IsUnit (words_book (registered_in self.now)) (registered_slot self.now) back.0 back.1
            × (pass.new ≡ pass.old)) }
    {
        let words = &self.parts.words;
        let leaving = LeavingBeside { words, unit, seen };
        match self.reservation.try_with(leaving, pass) {
            Ok(back) => back,
            Err(leaving) => Some((leaving.unit, leaving.seen)),
        }
    }

    /// Gives the slot's number back, and answers true. While another slot is in use, the slot's batch is left for whoever takes a number
    /// next: the event `Give`. Else what slots left and the batch are attempted first, until nothing is left, or another slot is in use:
    /// runs from `Begin(Gather)` to `Return`. What is reclaimed goes to the reclaimer there, outside the lock of the numbers. So where the
    /// last slot in use ends, each value that was retired is reclaimed.
    ///
    /// Where a guard was forgotten the slot is active still. Then the answer is false, and no event is made: number and batch wait for
    /// `Collector::reclaim_all`, for `Collector::alone`, or for the collector's drop.
    ///
    /// But for what the reclaimer does, it takes no memory. It waits for other threads that register or end. An attempt reads the head of
    /// each slot that was made, and tries again where another thread changes one; there is no bound for attempts where reclaimers put more
    /// each time. Values that other threads retired may end in this call: no lock may be held that their `Drop` takes.
    pub fn end<W: Wait>(self, rt: &W, pass: &mut Pass) -> bool
        requires pass { IsPassOf (registered_in self) pass.old }
        ensures ends { EndsUse (PutBy T.row.coded.code R.puts) (registered_slot self.entry) pass.old pass.new result }
        ensures pass { IsPassOf (registered_in self.entry) pass.new }
    {
        let Registration {
            home: _,
            parts,
            number: _,
            head: _,
            reservation,
            shelf,
        } = self;
        let words = &parts.words;
        let mut reservation = reservation.into_value();
        if reservation.guards > 0 {
            reservation.look(words, pass);
            shelf.lay(reservation);
            return false;
        }
        let slot = reservation.slot;
        slot.seen().agree(&words.blocks.book);
        end_slot(parts, rt, slot, pass);
        true
    }

    /// Spends the registration. The slot stays as it is, and its number in use, until `Collector::reclaim_all`,
    /// `Collector::alone` or the collector's drop finds it.
    ///
    /// It takes no memory and waits for nobody.
    pub fn forget(self) {
        let Registration {
            home: _,
            parts: _,
            number: _,
            head: _,
            reservation,
            shelf,
        } = self;
        shelf.lay(reservation.into_value());
    }
}
