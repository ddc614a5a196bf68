//! A guard with a slot of its own: it needs no registration, and threads share it. They read and exchange links by its core, each with a
//! pass of its own; what changes the slot is done under the guard's lock.
ghost use Rattle.std.specs.Prelude.{◌≡◌};
ghost use Rattle.seize_machine.specs.declared.machine.event.Job.TheVariants.{Retire};
ghost use Rattle.seize_guards.specs.Links.{IsUnlinkedOf, unlinked_name};
ghost use Rattle.seize_words.specs.Joined.{words_book};
ghost use Rattle.seize_calls.specs.Slots.{IsPassOf};
ghost use Rattle.seize_parts.specs.Makes.{Defers, IsOfKind};
ghost use Rattle.seize_parts.specs.Shelves.{IsShelfFor};
ghost use Rattle.seize_parts.specs.Reservations.{IsHeadFor, place_label};

use crate::block::{Owned, Unlinked};
use crate::guard::{Guard, GuardCore};
use crate::parts::{Home, Parts};
use crate::taking::end_slot;
use crate::works::{Deferring, Flushing, Leaving, Refreshing, RetiringShort, Sparing};
use seize_calls::slot::{Loose, Slot};
use seize_cells::{Lock, LockWork};
use seize_parts::reclaim::Reclaim;
use seize_parts::reservation::Reservation;
use seize_parts::shelf::{Forgotten, Shelf};
use seize_table::Refusal;
use seize_words::book::Pass;
use seize_words::reservation::Head;
use std::ops::Deref;
use std::sync::Wait;
use std::{fmt, mem};

/// A guard with a slot of its own, which threads share by `&`, and which may go to another thread. While it stands, its slot is active. It
/// derefs to its core, which reads and exchanges links; `Guard` has the calls that retire and flush.
///
/// It has no `Drop`: it is spent by `leave`, or by `forget`, after which the slot stays active until `reclaim_all` or the drop.
///
/// `defer_retire` and `flush` are done under the guard's lock: each waits while another thread is within one of them. No value goes
/// to the reclaimer there, since the guard's slot is active.
pub struct OwnedGuard<'c, T: Drop, R: Reclaim<T>, C: Home<T>> {
    core: GuardCore<'c, T, R, C>,
    // The slot's head.
    head: &'c Head,
    reservation: Lock<Reservation<T>>,
    // Where its slot is laid when it is forgotten.
    shelf: Shelf<T>,
    ghost at: { reservation ≡ place_label (words_book core.parts.now.words) core.number 1 },
    ghost headed: { IsHeadFor (words_book core.parts.now.words) core.number head.now },
    ghost shelved: { IsShelfFor core.parts.now.words shelf },
}

impl<'c, T: Drop, R: Reclaim<T>, C: Home<T>> OwnedGuard<'c, T, R, C> {
    ghost use Rattle.seize_machine.specs.Machine.Event.{Enter};
    ghost use Rattle.seize_machine.specs.declared.machine.event.Answer.TheVariants.{Done};
    ghost use Rattle.seize_machine.specs.declared.machine.event.Job.TheVariants.{Refresh};
    ghost use Rattle.std.specs.Prelude.{IfErr, IfOk};
    ghost use Rattle.seize_calls.specs.Slots.{IsInactive, IsLooseOf, IsSlotOf, its_number, its_value};
    ghost use Rattle.seize_guards.specs.Guards.{owned_collector, owned_home, owned_slot};
    ghost use Rattle.seize_parts.specs.Puts.{PutBy};
    ghost use Rattle.seize_parts.specs.Makes.{LeavesAndGives, MakesCall, MakesOne};

    // One with this slot, which enters, and its shelf.
    #[inline(always)]
    pub(crate) fn of(
        home: &'c C,
        parts: &'c Parts<T, R>,
        slot: Slot<T>,
        shelf: Shelf<T>,
        pass: &mut Pass,
    ) -> OwnedGuard<'c, T, R, C>
        requires home { parts.now.words ≡ C.its_words home.now }
        requires slot { IsSlotOf parts.now.words slot × IsInactive slot }
        requires shelf { IsShelfFor parts.now.words shelf }
        requires pass { IsPassOf parts.now.words pass.old }
        ensures of { (owned_collector result ≡ parts.now.words) × (owned_slot result ≡ its_number slot) × (owned_home result ≡ home.now) }
        ensures enters { MakesOne pass.old pass.new (Enter (its_number slot)) Done }
    {
        let number = slot.number();
        let words = &parts.words;
        let head = slot.head(words, pass);
        let mut reservation = Reservation::new(words, slot, 1);
        let (unit, seen) = reservation.enter(words, head, pass);
        OwnedGuard {
            core: GuardCore {
                home,
                parts,
                number,
                unit,
                seen,
            },
            head,
            reservation: Lock::new(reservation),
            shelf,
        }
    }

    /// Ends the slot's activation and begins another. No other thread has the guard meanwhile. What waited for the slot is counted down,
    /// and what is reclaimed in the call goes to the reclaimer there.
    ///
    /// But for what that does, it takes no memory and waits for nobody: the lock is free.
    pub fn refresh<W: Wait>(&mut self, rt: &W, pass: &mut Pass)
        requires of { IsPassOf (owned_collector self.old) pass.old }
        ensures same { (owned_collector self.new ≡ owned_collector self.old) × (owned_slot self.new ≡ owned_slot self.old)
            × (owned_home self.new ≡ owned_home self.old) }
        ensures refreshes { MakesCall (PutBy T.row.coded.code R.puts) (owned_slot self.old) Refresh pass.old pass.new }
    {
        let core = &mut self.core;
        let spare = self.reservation.with(rt, Sparing {}, pass);
        let unit = mem::replace(&mut core.unit, spare);
        let refreshing = Refreshing {
            words: &core.parts.words,
            ender: core.parts.ender(),
            head: self.head,
            unit,
            seen: &core.seen,
            rt,
        };
        let (unit, seen) = self.reservation.with(rt, refreshing, pass);
        core.unit = unit;
        core.seen = seen;
    }

    /// Leaves: what waited for the slot is counted down, and what is reclaimed in the call goes to the reclaimer there. Then the use of the
    /// slot ends, as with `Registration::end`: it leaves its batch to whoever takes a number next, or, as the last one in use, attempts all
    /// that was left.
    ///
    /// But for what the reclaimer does, it takes no memory. It takes no lock of the guard. At last it waits for other threads that
    /// register or end. Values that other threads retired may end in this call: no lock may be held that their `Drop` takes.
    #[inline(always)]
    pub fn leave<W: Wait>(self, rt: &W, pass: &mut Pass)
        requires of { IsPassOf (owned_collector self) pass.old }
        ensures leaves { LeavesAndGives (PutBy T.row.coded.code R.puts) (owned_slot self.entry) pass.old pass.new }
        ensures pass { IsPassOf (owned_collector self.entry) pass.new }
    {
        let OwnedGuard {
            core,
            head,
            reservation,
            shelf: _,
        } = self;
        let GuardCore {
            home: _,
            parts,
            number: _,
            unit,
            seen,
        } = core;
        let words = &parts.words;
        let mut reservation = reservation.into_value();
        let leaving = Leaving {
            words,
            ender: parts.ender(),
            head,
            unit,
            seen,
            rt,
        };
        leaving.work(&mut reservation, pass);
        let slot = reservation.slot;
        slot.seen().agree(&words.blocks.book);
        end_slot(parts, rt, slot, pass);
    }

    // Retires the value where nothing is to be attempted then. Else, or while another thread has the lock, it comes back. It is no call
    // that may wait.
    fn retire_short(&self, loose: Loose, kind: u64, pass: &mut Pass) -> Result<(), Loose>
        requires of { IsPassOf (owned_collector self.now) pass.old × IsLooseOf (owned_collector self.now) loose }
        ensures retired { IfOk result (λ _. Defers (owned_slot self.now) (Retire (its_value loose)) pass.old pass.new
            × IsOfKind (its_value loose) kind pass.new) }
        ensures back { IfErr result (λ back. (back ≡ loose) × (pass.new ≡ pass.old)) }
    {
        let words = &self.core.parts.words;
        let retiring = RetiringShort { words, loose, kind };
        match self.reservation.try_with(retiring, pass) {
            Ok(retired) => retired,
            Err(
                RetiringShort {
                    words: _,
                    loose,
                    kind: _,
                },
            ) => Err(loose),
        }
    }

    /// Spends the guard without leaving. Its slot stays active, and its number in use, until `Collector::reclaim_all`,
    /// `Collector::alone` or the collector's drop finds it. What is retired meanwhile may wait so long.
    ///
    /// It takes no memory and waits for nobody.
    pub fn forget(self) {
        let OwnedGuard {
            core,
            head: _,
            reservation,
            shelf,
        } = self;
        let GuardCore {
            home: _,
            parts: _,
            number,
            unit,
            seen,
        } = core;
        let forgotten = Forgotten::one(number, unit, seen);
        shelf.put(Some(reservation.into_value()), Some(forgotten));
    }
}

impl<'c, T: Drop, R: Reclaim<T>, C: Home<T>> Deref for OwnedGuard<'c, T, R, C> {
    ghost use Rattle.seize_guards.specs.Guards.{owned_core};

    type Target = GuardCore<'c, T, R, C>;

    ghost deref_gives = { λ guard core. core ≡ owned_core guard };

    #[inline(always)]
    fn deref(&self) -> &GuardCore<'c, T, R, C> {
        &self.core
    }
}

impl<T: Drop, R: Reclaim<T>, C: Home<T>> Guard<T> for OwnedGuard<'_, T, R, C> {
    ghost use Rattle.seize_guards.specs.Guards.{core_activation, owned_core, owned_collector, owned_home, owned_slot};

    type Reclaimer = R;

    type At = C;

    ghost its_home = { λ guard. owned_home guard };

    ghost its_collector = { λ guard. owned_collector guard };

    ghost its_slot = { λ guard. owned_slot guard };

    ghost its_activation = { λ guard. core_activation (owned_core guard) };

    ghost has_others = { ⊥ };

    #[inline(always)]
    fn core(&self) -> &GuardCore<'_, T, R, C> {
        &self.core
    }

    fn owned(&self, value: T) -> Result<Owned<T>, (Refusal, T)> {
        self.core.owned(value)
    }

    fn defer_retire<W: Wait>(&self, rt: &W, pass: &mut Pass, value: Unlinked<'_, T>)
        requires of { IsPassOf (owned_collector self.now) pass.old × IsUnlinkedOf (owned_collector self.now) value }
        ensures call { Defers (owned_slot self.now) (Retire (unlinked_name value.entry)) pass.old pass.new }
        ensures kind { IsOfKind (unlinked_name value.entry) 0 pass.new }
    {
        self.defer_retire_as(rt, pass, value, 0);
    }

    fn defer_retire_as<W: Wait>(&self, rt: &W, pass: &mut Pass, value: Unlinked<'_, T>, kind: u64)
        requires of { IsPassOf (owned_collector self.now) pass.old × IsUnlinkedOf (owned_collector self.now) value }
        ensures call { Defers (owned_slot self.now) (Retire (unlinked_name value.entry)) pass.old pass.new }
        ensures kind { IsOfKind (unlinked_name value.entry) kind pass.new }
    {
        let core = &self.core;
        let Err(loose) = self.retire_short(value.into_loose(), kind, pass) else {
            return;
        };
        let deferring = Deferring {
            words: &core.parts.words,
            ender: core.parts.ender(),
            unit: &core.unit,
            seen: &core.seen,
            loose,
            kind,
            rt,
        };
        self.reservation.with(rt, deferring, pass);
    }

    fn flush<W: Wait>(&self, rt: &W, pass: &mut Pass) {
        let core = &self.core;
        let flushing = Flushing {
            words: &core.parts.words,
            ender: core.parts.ender(),
            unit: &core.unit,
            seen: &core.seen,
            rt,
        };
        self.reservation.with(rt, flushing, pass);
    }

    fn refresh<W: Wait>(&mut self, rt: &W, pass: &mut Pass) {
        OwnedGuard::refresh(self, rt, pass);
    }
}

impl<T: Drop, R: Reclaim<T>, C: Home<T>> fmt::Debug for OwnedGuard<'_, T, R, C> {
    ghost use Rattle.std.specs.Prelude.{Some, codes};

    ghost debug_output = { λ _. Some (codes "OwnedGuard") };

    fn fmt<W: fmt::Write>(&self, f: &mut fmt::Formatter<W>) -> fmt::Result {
        f.write_str("OwnedGuard")
    }
}
