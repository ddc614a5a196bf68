//! Calls by which values may be gone. Each tells a watch of them, in order, and then gives them to the reclaimer. What that puts weighs
//! less, so each call returns. None of them waits or takes memory of its own.

use crate::alone::hands::Hands;
use crate::alone::{Alone, Codes};
use crate::block::{Content, Taken};
use seize_parts::alone::calls::held;
use seize_parts::reclaim::{Reclaim, Watch};
use seize_table::Refusal;
use std::marker::Brand;

impl<T: Drop, R: Reclaim<T>> Alone<T, R> {
    ghost use Rattle.std.specs.Prelude.{◌<◌, ◌==◌, ◌||◌, ◌≡◌, IfErr, Ok, OnErr, false, true};
    ghost use Rattle.seize_model.specs.Waiting.Calls as calls;
    ghost use Rattle.seize_model.specs.Waiting.Further.{with_further};
    ghost use Rattle.seize_model.specs.Waiting.State.{has_guard, model_slot};
    ghost use Rattle.seize.specs.Alones.{IsLinkedSame, ListGrows};
    ghost use Rattle.seize.specs.Takens.{IsTakenOf, taken_content};
    ghost use Rattle.seize_parts.specs.Told.{Answers, Did, only_refusal, told_of};

    // The slot leaves with its last guard, and keeps its number.
    fn part<W: Watch<T>>(&mut self, s: usize, watch: &mut W)
        requires { let slot = model_slot self.old.state s in (calls.is_free slot.kind ≡ false) × (slot.guards ≡ 1) }
        ensures done { let now = with_further R.puts R.weight s (calls.one_guard_less self.old.state s) in (self.new.state ≡ now.0)
            × (W.seen watch.new ≡ told_of W.told (W.seen watch.old) now.1)
            × (calls.is_free (model_slot now.0 s).kind ≡ false) × (has_guard (model_slot now.0 s) ≡ false) }
        ensures same { IsLinkedSame self.old self.new }
        ensures grows { ListGrows self.old self.new }
        ensures same_reference { watch.exit.ghost_name ≡ watch.entry.ghost_name }
    {
        held(&mut self.places[s]).leave(&self.words, &self.ender, &mut self.pass, watch);
        self.hands = Hands::of::<Brand, usize>(&self.hands, &self.pass, &s);
    }

    // The slot, which is owned or has one guard, refreshes.
    fn renew<W: Watch<T>>(&mut self, s: usize, watch: &mut W)
        requires { let slot = model_slot self.old.state s in (calls.no_guard self.old.state s ≡ None)
            × ((calls.is_owned slot.kind || (slot.guards == 1)) ≡ true) }
        ensures done { Answers W.told (calls.refresh R.puts R.weight self.old.state s) (Ok tt) self.new.state
            (W.seen watch.old) (W.seen watch.new) }
        ensures same { IsLinkedSame self.old self.new }
        ensures grows { ListGrows self.old self.new }
        ensures same_reference { watch.exit.ghost_name ≡ watch.entry.ghost_name }
    {
        held(&mut self.places[s]).refresh(&self.words, &self.ender, &mut self.pass, watch);
        self.hands = Hands::of::<Brand, usize>(&self.hands, &self.pass, &s);
    }

    // The value is retired by the slot, which is in use.
    pub(crate) fn retire_in<W: Watch<T>>(
        &mut self,
        s: usize,
        value: Taken<T>,
        kind: u64,
        watch: &mut W,
    )
        requires used { calls.is_free (model_slot self.old.state s).kind ≡ false }
        requires own { IsTakenOf T.row.coded.code self.old.book value }
        ensures done { Answers W.told (calls.retire R.puts R.weight self.old.state s (taken_content value) kind) (Ok tt) self.new.state
            (W.seen watch.old) (W.seen watch.new) }
        ensures same { IsLinkedSame self.old self.new }
        ensures grows { ListGrows self.old self.new }
        ensures same_reference { watch.exit.ghost_name ≡ watch.entry.ghost_name }
    {
        let (loose, content) = value.into_loose();
        held(&mut self.places[s]).retire(
            &self.words,
            &self.ender,
            loose,
            kind,
            &mut self.pass,
            watch,
        );
        let said = (s, kind, content);
        self.hands = Hands::of::<Brand, (usize, u64, Content<T>)>(&self.hands, &self.pass, &said);
    }

    /// Leaves with one guard of the slot. With its last one the slot is inactive; what waited for it alone is gone. An owned slot gives its
    /// number back then, as by `end`.
    ///
    /// The watch is told of each value that is gone, in order. It takes no memory and waits for nobody, but for what watch and reclaimer
    /// do.
    ///
    /// # Errors
    ///
    /// In this order: `NotInUse`, `NotActive`.
    pub fn leave<W: Watch<T>>(&mut self, s: usize, watch: &mut W) -> Result<(), Refusal>
        ensures done { Answers W.told (calls.leave R.puts R.weight self.old.state s) result self.new.state
            (W.seen watch.old) (W.seen watch.new) }
        ensures same { IsLinkedSame self.old self.new }
        ensures grows { ListGrows self.old self.new }
        ensures unchanged { OnErr result (self.new ≡ self.old) }
        ensures same_reference { watch.exit.ghost_name ≡ watch.entry.ghost_name }
    {
        let (owned, guards) = self.guarded(s)?;
        if guards > 1 {
            self.count(s, guards - 1);
            return Ok(());
        }
        self.part(s, watch);
        if owned {
            self.give_back(s, watch);
        }
        Ok(())
    }

    /// The slot leaves and enters again at once, where it is owned, and so has one guard, or has just one; with more guards nothing
    /// happens. What waited for it alone is gone.
    ///
    /// The watch is told of each value that is gone, in order. It takes no memory and waits for nobody, but for what watch and reclaimer
    /// do.
    ///
    /// # Errors
    ///
    /// In this order: `NotInUse`, `NotActive`.
    pub fn refresh<W: Watch<T>>(&mut self, s: usize, watch: &mut W) -> Result<(), Refusal>
        ensures done { Answers W.told (calls.refresh R.puts R.weight self.old.state s) result self.new.state
            (W.seen watch.old) (W.seen watch.new) }
        ensures same { IsLinkedSame self.old self.new }
        ensures grows { ListGrows self.old self.new }
        ensures unchanged { OnErr result (self.new ≡ self.old) }
        ensures same_reference { watch.exit.ghost_name ≡ watch.entry.ghost_name }
    {
        let (owned, guards) = self.guarded(s)?;
        if owned || guards == 1 {
            self.renew(s, watch);
        }
        Ok(())
    }

    /// Attempts the batch of the slot at any length: if it has at least as many values as slots are active, it waits for these slots, and
    /// for no others.
    ///
    /// The watch is told of each value that is gone, in order. It takes no memory and waits for nobody, but for what watch and reclaimer
    /// do.
    ///
    /// # Errors
    ///
    /// In this order: `NotInUse`, `NotActive`.
    pub fn flush<W: Watch<T>>(&mut self, s: usize, watch: &mut W) -> Result<(), Refusal>
        ensures done { Answers W.told (calls.flush R.puts R.weight self.old.state s) result self.new.state
            (W.seen watch.old) (W.seen watch.new) }
        ensures same { IsLinkedSame self.old self.new }
        ensures grows { ListGrows self.old self.new }
        ensures unchanged { OnErr result (self.new ≡ self.old) }
        ensures same_reference { watch.exit.ghost_name ≡ watch.entry.ghost_name }
    {
        self.guarded(s)?;
        held(&mut self.places[s]).flush(&self.words, &self.ender, &mut self.pass, watch);
        self.hands = Hands::of::<Brand, usize>(&self.hands, &self.pass, &s);
        Ok(())
    }

    /// Retires a value that is in no link, of this collector. It goes into the slot's batch with its kind, which the reclaimer is given
    /// with it; the batch is attempted where it is full. What the reclaimer puts is retired in this call.
    ///
    /// The watch is told of each value that is gone, in order. It takes no memory and waits for nobody, but for what watch and reclaimer
    /// do.
    ///
    /// # Errors
    ///
    /// `NotInUse`. The value comes back.
    pub fn retire<W: Watch<T>>(
        &mut self,
        s: usize,
        value: Taken<T>,
        kind: u64,
        watch: &mut W,
    ) -> Result<(), (Refusal, Taken<T>)>
        requires { IsTakenOf T.row.coded.code self.old.book value }
        ensures done { Answers W.told (calls.retire R.puts R.weight self.old.state s (taken_content value) kind) (only_refusal result)
            self.new.state (W.seen watch.old) (W.seen watch.new) }
        ensures back { IfErr result (λ refused. (refused.1 ≡ value) × (self.new ≡ self.old)) }
        ensures same { IsLinkedSame self.old self.new }
        ensures grows { ListGrows self.old self.new }
        ensures same_reference { watch.exit.ghost_name ≡ watch.entry.ghost_name }
    {
        if self.known(s).is_none() {
            return Err((Refusal::NotInUse, value));
        }
        self.retire_in(s, value, kind, watch);
        Ok(())
    }

    /// Every slot leaves, in order of numbers; then each slot's batch is gone, in order, and then what slots left as they ended. Then what
    /// the reclaimer put meanwhile is gone, oldest first; what it puts with these joins the end, until none is left. So every number is
    /// free then, every batch is empty, and no retired batch is left. The links hold what they held.
    ///
    /// The watch is told of each value that is gone, in order. It takes no memory and waits for nobody, but for what watch and reclaimer
    /// do.
    pub fn reclaim_all<W: Watch<T>>(&mut self, watch: &mut W)
        ensures done { Did W.told (calls.reclaim_all R.puts R.weight self.old.state) self.new.state (W.seen watch.old) (W.seen watch.new) }
        ensures same { IsLinkedSame self.old self.new }
        ensures grows { ListGrows self.old self.new }
        ensures same_reference { watch.exit.ghost_name ≡ watch.entry.ghost_name }
    {
        self.numbers.clear(
            &self.words,
            &self.ender,
            &mut self.places,
            &mut self.pass,
            watch,
        );
        self.hands = Hands::of::<Brand, ()>(&self.hands, &self.pass, &());
    }
}
