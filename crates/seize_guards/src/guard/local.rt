//! A guard of a registration. It has the core of a guard; what changes the slot is done in the registration's reservation, which nobody
//! else has.
ghost use Rattle.std.specs.Prelude.{◌≡◌};
ghost use Rattle.seize_machine.specs.declared.machine.event.Job.TheVariants.{Retire};
ghost use Rattle.seize_guards.specs.Links.{IsUnlinkedOf, unlinked_name};
ghost use Rattle.seize_calls.specs.Slots.{IsPassOf};
ghost use Rattle.seize_parts.specs.Makes.{Defers, IsOfKind};

use crate::block::{Owned, Unlinked};
use crate::guard::{Guard, GuardCore};
use crate::parts::Home;
use crate::registration::Registration;
use crate::works::{Deferring, Flushing, Leaving, Refreshing, Sparing};
use seize_parts::reclaim::Reclaim;
use seize_table::Refusal;
use seize_words::book::Pass;
use std::ops::Deref;
use std::sync::Wait;
use std::{fmt, mem};

/// A guard of a registration, for the registration's thread alone. It derefs to its core, which reads and exchanges links; `Guard` has the
/// calls that retire, flush and refresh.
///
/// It has no `Drop`: it is spent by `leave`, or by `forget`, after which the slot stays active until `reclaim_all` or the drop.
pub struct LocalGuard<'r, 'c, T: Drop, R: Reclaim<T>, C: Home<T>> {
    registration: &'r Registration<'c, T, R, C>,
    core: GuardCore<'c, T, R, C>,
    ghost its: { (core.parts.now.words ≡ registration.now.parts.now.words) × (core.number ≡ registration.now.number)
        × (core.home.now ≡ registration.now.home.now) },
}

impl<'r, 'c, T: Drop, R: Reclaim<T>, C: Home<T>> LocalGuard<'r, 'c, T, R, C> {
    ghost use Rattle.std.specs.Prelude.{◌⊎◌, IfErr, IfOk};
    ghost use Rattle.seize_machine.specs.declared.machine.event.Job.TheVariants.{Leave};
    ghost use Rattle.seize_table.specs.declared.refusal.Refusal.TheVariants.{NoMemory as no_memory};
    ghost use Rattle.seize_parts.specs.Blocks.{content};
    ghost use Rattle.seize_guards.specs.Collectors.{IsBlockOf};
    ghost use Rattle.seize_guards.specs.Guards.{IsGuardOf, guard_collector, guard_slot};
    ghost use Rattle.seize_parts.specs.Puts.{PutBy};
    ghost use Rattle.seize_parts.specs.Makes.{MakesCall, MakesNone, StaysActive};

    // One of this registration, with this core.
    #[inline(always)]
    pub(crate) fn of(
        registration: &'r Registration<'c, T, R, C>,
        core: GuardCore<'c, T, R, C>,
    ) -> LocalGuard<'r, 'c, T, R, C>
        requires { (core.parts.now.words ≡ registration.now.parts.now.words) × (core.number ≡ registration.now.number)
            × (core.home.now ≡ registration.now.home.now) }
        ensures { IsGuardOf registration.now result }
    {
        LocalGuard { registration, core }
    }

    /// A block of this value, as `Registration::owned` makes it.
    ///
    /// # Errors
    ///
    /// `NoMemory` where the store could not grow; the value comes back.
    #[inline(always)]
    pub fn owned(&self, value: T) -> Result<Owned<T>, (Refusal, T)>
        ensures made { IfOk result (λ owned. IsBlockOf (guard_collector self.now) owned × (content owned ≡ value)) }
        ensures refused { IfErr result (λ refused. (refused.0 ≡ no_memory) × (refused.1 ≡ value)) }
    {
        self.registration.owned(value)
    }

    /// Leaves. The last guard of the slot leaves for it: what waited for the slot is counted down, and what is reclaimed in the call goes
    /// to the reclaimer there. Beside others it makes no event, and the pass learns that the slot is active.
    ///
    /// But for what the reclaimer does, it takes no memory. Within another call of the same registration it waits for ever, and else for
    /// nobody.
    #[inline(always)]
    pub fn leave<W: Wait>(self, rt: &W, pass: &mut Pass)
        requires of { IsPassOf (guard_collector self) pass.old }
        ensures { MakesCall (PutBy T.row.coded.code R.puts) (guard_slot self.entry) Leave pass.old pass.new
            ⊎ StaysActive (guard_slot self.entry) pass.old pass.new }
    {
        let LocalGuard { registration, core } = self;
        let GuardCore {
            home: _,
            parts,
            number: _,
            unit,
            seen,
        } = core;
        let Some((unit, seen)) = registration.leave_beside(unit, seen, pass) else {
            return;
        };
        let leaving = Leaving {
            words: &parts.words,
            ender: parts.ender(),
            head: registration.head,
            unit,
            seen,
            rt,
        };
        registration.reservation.with(rt, leaving, pass);
    }

    /// Spends the guard without leaving. Its slot stays active until `Collector::reclaim_all`, or the collector's drop, finds it: what is
    /// retired meanwhile may wait so long, other guards of the registration don't leave or refresh the slot, and `Registration::end`
    /// answers false.
    ///
    /// It makes no event, takes no memory and waits for nobody.
    pub fn forget(self, pass: &mut Pass)
        requires of { IsPassOf (guard_collector self) pass.old }
        ensures none { MakesNone pass.old pass.new }
    {
        let LocalGuard { registration, core } = self;
        let GuardCore {
            home: _,
            parts: _,
            number,
            unit,
            seen,
        } = core;
        registration.shelf.forget(number, unit, seen, pass);
    }
}

impl<'c, T: Drop, R: Reclaim<T>, C: Home<T>> Deref for LocalGuard<'_, 'c, T, R, C> {
    ghost use Rattle.seize_guards.specs.Guards.{guard_core};

    type Target = GuardCore<'c, T, R, C>;

    ghost deref_gives = { λ guard core. core ≡ guard_core guard };

    #[inline(always)]
    fn deref(&self) -> &GuardCore<'c, T, R, C> {
        &self.core
    }
}

impl<T: Drop, R: Reclaim<T>, C: Home<T>> Guard<T> for LocalGuard<'_, '_, T, R, C> {
    ghost use Rattle.seize_guards.specs.Guards.{core_activation, guard_core, guard_collector, guard_home, guard_slot};

    type Reclaimer = R;

    type At = C;

    ghost its_home = { λ guard. guard_home guard };

    ghost its_collector = { λ guard. guard_collector guard };

    ghost its_slot = { λ guard. guard_slot guard };

    ghost its_activation = { λ guard. core_activation (guard_core guard) };

    ghost has_others = { Unit {0} };

    #[inline(always)]
    fn core(&self) -> &GuardCore<'_, T, R, C> {
        &self.core
    }

    #[inline(always)]
    fn owned(&self, value: T) -> Result<Owned<T>, (Refusal, T)> {
        LocalGuard::owned(self, value)
    }

    #[inline(always)]
    fn defer_retire<W: Wait>(&self, rt: &W, pass: &mut Pass, value: Unlinked<'_, T>)
        requires of { IsPassOf (guard_collector self.now) pass.old × IsUnlinkedOf (guard_collector self.now) value }
        ensures call { Defers (guard_slot self.now) (Retire (unlinked_name value.entry)) pass.old pass.new }
        ensures kind { IsOfKind (unlinked_name value.entry) 0 pass.new }
    {
        self.defer_retire_as(rt, pass, value, 0);
    }

    #[inline(always)]
    fn defer_retire_as<W: Wait>(&self, rt: &W, pass: &mut Pass, value: Unlinked<'_, T>, kind: u64)
        requires of { IsPassOf (guard_collector self.now) pass.old × IsUnlinkedOf (guard_collector self.now) value }
        ensures call { Defers (guard_slot self.now) (Retire (unlinked_name value.entry)) pass.old pass.new }
        ensures kind { IsOfKind (unlinked_name value.entry) kind pass.new }
    {
        let core = &self.core;
        let Err(loose) = self
            .registration
            .retire_short(value.into_loose(), kind, pass)
        else {
            return;
        };
        let deferring = Deferring {
            words: &core.parts.words,
            ender: core.parts.ender(),
            unit: &core.unit,
            seen: &core.seen,
            loose,
            kind,
            rt,
        };
        self.registration.reservation.with(rt, deferring, pass);
    }

    fn flush<W: Wait>(&self, rt: &W, pass: &mut Pass) {
        let core = &self.core;
        let flushing = Flushing {
            words: &core.parts.words,
            ender: core.parts.ender(),
            unit: &core.unit,
            seen: &core.seen,
            rt,
        };
        self.registration.reservation.with(rt, flushing, pass);
    }

    fn refresh<W: Wait>(&mut self, rt: &W, pass: &mut Pass) {
        let registration = self.registration;
        let reservation = &registration.reservation;
        let core = &mut self.core;
        let spare = reservation.with(rt, Sparing {}, pass);
        let unit = mem::replace(&mut core.unit, spare);
        let refreshing = Refreshing {
            words: &core.parts.words,
            ender: core.parts.ender(),
            head: registration.head,
            unit,
            seen: &core.seen,
            rt,
        };
        let (unit, seen) = reservation.with(rt, refreshing, pass);
        core.unit = unit;
        core.seen = seen;
    }
}

impl<T: Drop, R: Reclaim<T>, C: Home<T>> fmt::Debug for LocalGuard<'_, '_, T, R, C> {
    ghost use Rattle.std.specs.Prelude.{Some, codes};

    ghost debug_output = { λ _. Some (codes "LocalGuard") };

    fn fmt<W: fmt::Write>(&self, f: &mut fmt::Formatter<W>) -> fmt::Result {
        f.write_str("LocalGuard")
    }
}
