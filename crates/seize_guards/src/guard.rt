//! Guards: with one, a thread reads links, exchanges what they hold, and retires what came out. While a guard stands, its slot is active.
//! Both kinds deref to what they have in common (`GuardCore`): the calls that change no slot. `Guard` has the calls that do.
ghost use Rattle.std.specs.Prelude.{◌≡◌, ◌⊎◌, ℕ, IfErr, IfOk};
ghost use Rattle.seize_machine.specs.declared.machine.event.Job.TheVariants.{Flush, Refresh, Retire};
ghost use Rattle.seize_table.specs.declared.refusal.Refusal.TheVariants.{NoMemory as no_memory};
ghost use Rattle.seize_calls.specs.Slots.{IsPassOf};
ghost use Rattle.seize_parts.specs.Blocks.{content};
ghost use Rattle.seize_guards.specs.Links.{IsUnlinkedOf, unlinked_name};
ghost use Rattle.seize_guards.specs.Collectors.{IsBlockOf};
ghost use Rattle.seize_guards.specs.Guards.{core_activation, core_collector, core_home, core_slot};
ghost use Rattle.seize_parts.specs.Puts.{PutBy};
ghost use Rattle.seize_parts.specs.Makes.{Defers, IsOfKind, MakesCall, StaysActive};
ghost use Rattle.seize_words.specs.declared.activation.Activation.{Activation};
ghost use Rattle.seize_words.specs.declared.words.Words.{Words};

mod common;
mod exchanging;
mod local;
mod owned;

use crate::block::{Owned, Unlinked};
use crate::parts::Home;
pub use common::GuardCore;
pub use local::LocalGuard;
pub use owned::OwnedGuard;
use seize_parts::reclaim::Reclaim;
use seize_table::Refusal;
use seize_words::book::Pass;
use std::sync::Wait;

/// A guard of a collector, of whichever kind. Links are read and exchanged by its core; here are the calls that change its slot, which
/// `LocalGuard` makes by its registration and `OwnedGuard` under its lock.
pub trait Guard<T: Drop> {
    /// The type of the collector's reclaimer.
    type Reclaimer: Reclaim<T>;

    /// The collector, which `core().collector()` gives.
    type At: Home<T>;

    /// The collector itself.
    ghost its_home: { Self → Self.At };

    /// The words of the collector.
    ghost its_collector: { Self → Words T };

    /// The number of the slot.
    ghost its_slot: { Self → ℕ };

    /// Its part of the slot's activation, of another one after a refresh.
    ghost its_activation: { Self → Activation };

    /// That other guards of the slot may stand beside one of this kind.
    ghost has_others: { Type 0 };

    /// What it reads and exchanges links with.
    fn core(&self) -> &GuardCore<'_, T, Self::Reclaimer, Self::At>
        ensures { (core_collector result.now ≡ its_collector self.now) × (core_slot result.now ≡ its_slot self.now)
            × (core_activation result.now ≡ its_activation self.now) × (core_home result.now ≡ its_home self.now) };

    /// A block of this value. `LocalGuard` makes it of one of its slot's that is gone, where there is one.
    ///
    /// # Errors
    ///
    /// `NoMemory` where the store could not grow; the value comes back.
    fn owned(&self, value: T) -> Result<Owned<T>, (Refusal, T)>
        ensures made { IfOk result (λ owned. IsBlockOf (its_collector self.now) owned × (content owned ≡ value)) }
        ensures refused { IfErr result (λ refused. (refused.0 ≡ no_memory) × (refused.1 ≡ value)) };

    /// Retires what came out of a link: it joins the slot's batch, which is attempted where it has the batch size or more. The slot is
    /// active, so the list hands no value in the call.
    ///
    /// It takes no memory. An insertion is tried again as often as other threads change the head between a look at it and the try. A local
    /// guard waits for ever within another call of the same registration; an owned guard waits while another thread has its lock.
    fn defer_retire<W: Wait>(&self, rt: &W, pass: &mut Pass, value: Unlinked<'_, T>)
        requires of { IsPassOf (its_collector self.now) pass.old × IsUnlinkedOf (its_collector self.now) value }
        ensures call { Defers (its_slot self.now) (Retire (unlinked_name value.entry)) pass.old pass.new }
        ensures kind { IsOfKind (unlinked_name value.entry) 0 pass.new };

    /// The same, and says of which kind the value is: see `Registration::retire_as`.
    fn defer_retire_as<W: Wait>(&self, rt: &W, pass: &mut Pass, value: Unlinked<'_, T>, kind: u64)
        requires of { IsPassOf (its_collector self.now) pass.old × IsUnlinkedOf (its_collector self.now) value }
        ensures call { Defers (its_slot self.now) (Retire (unlinked_name value.entry)) pass.old pass.new }
        ensures kind { IsOfKind (unlinked_name value.entry) kind pass.new };

    /// Attempts the slot's batch at any length. The list hands no value in the call, as in `defer_retire`.
    ///
    /// It takes no memory and waits as `defer_retire` does.
    fn flush<W: Wait>(&self, rt: &W, pass: &mut Pass)
        requires of { IsPassOf (its_collector self.now) pass.old }
        ensures { Defers (its_slot self.now) Flush pass.old pass.new };

    /// Ends the slot's activation and begins another, where this is the slot's only guard; beside others it does nothing. What waited for
    /// the slot is counted down, and what is reclaimed in the call goes to the reclaimer there.
    ///
    /// But for what that does, it takes no memory. A local guard waits for ever within another call of the same registration, and else a
    /// guard waits for nobody.
    fn refresh<W: Wait>(&mut self, rt: &W, pass: &mut Pass)
        requires of { IsPassOf (its_collector self.old) pass.old }
        ensures same { (its_collector self.new ≡ its_collector self.old) × (its_slot self.new ≡ its_slot self.old)
            × (its_home self.new ≡ its_home self.old) }
        ensures refreshes { MakesCall (PutBy T.row.coded.code Self.Reclaimer.puts) (its_slot self.old) Refresh pass.old pass.new
            ⊎ (has_others × StaysActive (its_slot self.old) pass.old pass.new
            × (its_activation self.new ≡ its_activation self.old)) };
}
