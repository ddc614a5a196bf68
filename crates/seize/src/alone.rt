//! The collector in one caller's hands. Nobody shares it, so each call is exactly what the model of waiting sets says (`seize_model`): its
//! answer, the state after it, and the values that are gone, in order. It has the list's first pass, which is alone, the numbers, and the
//! slots in use in their places (`place`); the state is kept in `hands`, which has no bytes.
ghost use Rattle.std.specs.Prelude.{◌≡◌, ◌==◌, ◌+◌, ◌<◌, ◌^◌, box_value, if◌then◌else◌, length};
ghost use Rattle.seize_words.specs.Joined.{words_book};
ghost use Rattle.seize.specs.Alones.{IsAlone, View, view_coded};

mod beginning;
mod blocks;
mod codes;
mod hands;
mod links;
mod reclaiming;
mod running;
mod sharing;

pub use crate::alone::codes::Codes;
use crate::alone::hands::Hands;
pub use crate::alone::running::{Call, Reply};
use crate::alone::sharing::shared;
use seize_machine::machine;
use seize_parts::alone::calls::{attempt_taken, held, resume_in};
use seize_parts::alone::place::{Place, back, out, room};
use seize_parts::ender::Ender;
use seize_parts::numbers::{Numbers, Taken as TakenSlot};
use seize_parts::reclaim::{Boxed, Reclaim, Watch};
use seize_parts::reservation::Reservation;
use seize_table::Refusal;
use seize_words::book::Pass;
use seize_words::words::Words;
use std::alloc::Global;
use std::marker::{Brand, Model};

/// A collector in one caller's hands. No call waits, and each returns, but for what a reclaimer, a watch or the `Drop` of a value does.
///
/// Its drop reclaims all, in the order of `reclaim_all`; then each value in a link goes to the reclaimer, once, as of kind 0. Memory goes
/// back, but for rows of the store of which a block is still in hand, or was lost. That no clause says. For a watch, call `reclaim_all`
/// first.
pub struct Alone<T: Drop + Codes, R: Reclaim<T> = Boxed> {
    words: Words<T>,
    pass: Pass<'static>,
    numbers: Numbers<T>,
    // Those of slots in use, by their numbers.
    places: Vec<Option<Place<T>>>,
    // How many slots were made.
    made: usize,
    ender: Box<Ender<T, R>>,
    alloc: Global,
    hands: Hands<T>,
}

impl<T: Drop + Codes, R: Reclaim<T>> Model for Alone<T, R> {
    ghost Value = { View T };

    ghost coded = { view_coded T.code };

    ghost view = { λ a. record {
      book = words_book a.words;
      size = a.words.size;
      most = a.words.sizes.most;
      id = a.words.id;
      links = length (words_book a.words).links;
      state = a.hands.state;
      held = a.hands.held;
      seen = a.pass.seen;
    } };

    ghost invariant = { λ a. IsAlone T.its.code a.words a.pass a.numbers a.places.items a.made (box_value a.ender) a.hands };
}

// How many slots there are, with that of number `n`: it comes after all that were made, or it is one of them.
fn made_then(made: usize, n: usize) -> usize
    requires { n + 1 < 2 ^ 64 }
    ensures { result ≡ (if n == made then made + 1 else made) }
{
    if n == made { n + 1 } else { made }
}

impl<T: Drop, R: Reclaim<T>> Alone<T, R> {
    ghost use Rattle.std.specs.Prelude.{◌≡◌, ◌<◌, ◌≤◌, ◌≢◌, length, true, None, Ok, OnErr, Some, IfErr, IfOk, false, if◌then◌else◌};
    ghost use Rattle.seize_model.specs.Waiting.Calls as calls;
    ghost use Rattle.seize_model.specs.Waiting.State.{has_guard, model_slot};
    ghost use Rattle.seize_model.specs.declared.kind.Kind.TheVariants.{Owned as owned_slot, Registered as registered};
    ghost use Rattle.seize.specs.Alones.{AsListed, IsLinkedSame, ListGrows, moments_in, opening_in};
    ghost use Rattle.seize_parts.specs.Kinds.{kind_if_owned};
    ghost use Rattle.seize_parts.specs.Laws.{LawsOf};
    ghost use Rattle.std.specs.List.{sum_by};
    ghost use Rattle.seize_model.specs.Waiting.Attempt.{with_gone};
    ghost use Rattle.seize_parts.specs.Told.{Answers, Did, Grew, Said};

    /// How many links it has.
    pub fn links(&self) -> usize
        ensures links { result ≡ self.now.links }
        ensures state { length self.now.state.links ≡ self.now.links }
    {
        self.words.links.len()
    }

    /// The id that its source gave it.
    pub fn id(&self) -> u64
        ensures { result ≡ self.now.id }
    {
        self.words.id
    }

    /// What the collector's list of events says: it is legal, so every law of the machine holds of it; where it ends no call is under way;
    /// and it leads to the state, as numbers stand for values there. So each call that is made here is a legal list of events.
    ///
    /// It makes no event, and does nothing when the program runs: its contract is the laws. Who has the `Alone` by `&mut` alone knows that
    /// this is the whole list.
    pub fn laws(&mut self)
        ensures same { self.new ≡ self.old }
        ensures listed { AsListed T.row.coded.code self.old }
        ensures laws { LawsOf (opening_in self.old) (moments_in self.old) }
    {
        machine::laws();
        self.pass.slots();
    }

    // Whether the slot is owned, and how many guards it has, where its number is in use. An owned one has one at most.
    fn known(&self, s: usize) -> Option<(bool, u64)>
        ensures it { let slot = model_slot self.now.state s in
            result ≡ (if calls.is_free slot.kind then None else Some (calls.is_owned slot.kind, slot.guards)) }
        ensures one { let slot = model_slot self.now.state s in (calls.is_owned slot.kind ≡ true) → slot.guards ≤ 1 }
    {
        let place = self.places.get(s)?.as_ref()?;
        Some((place.owned, place.guards))
    }

    // How many guards the registered slot has.
    fn registered(&self, s: usize) -> Result<u64, Refusal>
        ensures it { IfOk result (λ guards. (calls.not_registered self.now.state s ≡ None)
            × ((model_slot self.now.state s).kind ≡ registered) × ((model_slot self.now.state s).guards ≡ guards)) }
        ensures refused { IfErr result (λ refusal. calls.not_registered self.now.state s ≡ Some refusal) }
    {
        match self.known(s) {
            None => Err(Refusal::NotInUse),
            Some((true, _)) => Err(Refusal::WrongKind),
            Some((false, guards)) => Ok(guards),
        }
    }

    // Whether the slot is owned, and how many guards it has: one or more.
    fn guarded(&self, s: usize) -> Result<(bool, u64), Refusal>
        ensures it { IfOk result (λ known. let slot = model_slot self.now.state s in (calls.no_guard self.now.state s ≡ None)
            × (slot.kind ≡ kind_if_owned known.0) × (slot.guards ≡ known.1) × (0 < known.1)) }
        ensures refused { IfErr result (λ refusal. calls.no_guard self.now.state s ≡ Some refusal) }
        ensures one { let slot = model_slot self.now.state s in (calls.is_owned slot.kind ≡ true) → slot.guards ≤ 1 }
    {
        match self.known(s) {
            None => Err(Refusal::NotInUse),
            Some((_, 0)) => Err(Refusal::NotActive),
            Some(known) => Ok(known),
        }
    }

    // The least number that is not in use is taken, for a slot of this kind without a guard.
    fn take<W: Watch<T>>(&mut self, owned: bool, watch: &mut W) -> Result<usize, Refusal>
        ensures done { Grew W.told (calls.take_number R.puts R.weight self.old.state (kind_if_owned owned) 0) result
            self.old.state self.new.state (W.seen watch.old) (W.seen watch.new) }
        ensures same { IsLinkedSame self.old self.new }
        ensures grows { ListGrows self.old self.new }
        ensures unchanged { OnErr result (self.new ≡ self.old) }
        ensures same_reference { watch.exit.ghost_name ≡ watch.entry.ghost_name }
    {
        room(&mut self.places, self.made + 1)?;
        let TakenSlot {
            mut slot,
            begun,
            shelf,
        } = self.numbers.take(&self.words, self.alloc, &mut self.pass)?;
        attempt_taken(
            &self.words,
            &self.ender,
            &mut slot,
            begun,
            &mut self.pass,
            watch,
        );
        let number = slot.number();
        let reservation = Reservation::new(&self.words, slot, 1);
        let place = Place {
            owned,
            guards: 0,
            reservation,
            unit: None,
            shelf,
        };
        back(&mut self.places, number, place);
        self.made = made_then(self.made, number);
        self.hands = Hands::of::<Brand, (usize, bool)>(&self.hands, &self.pass, &(number, owned));
        Ok(number)
    }

    // The slot, which is in use, enters with its first guard.
    fn begin(&mut self, s: usize)
        requires { let slot = model_slot self.old.state s in (calls.is_free slot.kind ≡ false) × (has_guard slot ≡ false) }
        ensures done { self.new.state ≡ calls.set_guards self.old.state s 1 }
        ensures same { IsLinkedSame self.old self.new }
        ensures grows { ListGrows self.old self.new }
    {
        held(&mut self.places[s]).begin(&self.words, &mut self.pass);
        self.hands = Hands::of::<Brand, usize>(&self.hands, &self.pass, &s);
    }

    // The registered slot, which has guards, has so many then. No event is made.
    fn count(&mut self, s: usize, guards: u64)
        requires { let slot = model_slot self.old.state s in (slot.kind ≡ registered) × (has_guard slot ≡ true) × (0 < guards) }
        ensures done { self.new.state ≡ calls.set_guards self.old.state s guards }
        ensures same { IsLinkedSame self.old self.new }
        ensures grows { ListGrows self.old self.new }
    {
        held(&mut self.places[s]).guards = guards;
        self.hands = Hands::of::<Brand, (usize, u64)>(&self.hands, &self.pass, &(s, guards));
    }

    // The number of the slot, which has no guard, goes back, where another slot is in use or nothing is left. Else the slot gathers once:
    // what slots left comes before its batch, and is attempted with it. It says whether the number went back.
    fn end_once<W: Watch<T>>(&mut self, s: usize, watch: &mut W) -> bool
        requires { let slot = model_slot self.old.state s in (calls.is_free slot.kind ≡ false) × (has_guard slot ≡ false) }
        ensures gives { result ≡ true → Did W.told (calls.give_back R.puts R.weight self.old.state s) self.new.state
            (W.seen watch.old) (W.seen watch.new) }
        ensures gathers { result ≡ false → Did W.told (calls.gathering R.puts R.weight self.old.state s) self.new.state
            (W.seen watch.old) (W.seen watch.new) }
        ensures left { result ≡ false → let o = calls.gathering R.puts R.weight self.old.state s in
            (calls.give_back R.puts R.weight self.old.state s ≡ with_gone o.1 (calls.give_back R.puts R.weight o.0 s))
            × (sum_by (λ v. R.weight v.0) (calls.rest_and_batch o.0 s)
            < sum_by (λ v. R.weight v.0) (calls.rest_and_batch self.old.state s)) }
        ensures same { IsLinkedSame self.old self.new }
        ensures grows { ListGrows self.old self.new }
        ensures same_reference { watch.exit.ghost_name ≡ watch.entry.ghost_name }
    {
        let Place {
            owned,
            guards,
            reservation,
            unit,
            shelf,
        } = out(&mut self.places, s);
        let Reservation {
            mut slot,
            rest,
            most,
            ..
        } = reservation;
        slot.seen().agree(&self.words.blocks.book);
        slot.look(&self.words, &mut self.pass);
        let Some(begun) = self.numbers.end(&self.words, slot, &mut self.pass) else {
            self.hands = Hands::of::<Brand, (usize, bool)>(&self.hands, &self.pass, &(s, true));
            return true;
        };
        let mut slot = begun;
        resume_in(&self.words, &self.ender, &mut slot, &mut self.pass, watch);
        let reservation = Reservation {
            slot,
            rest,
            guards: 0,
            most,
        };
        let place = Place {
            owned,
            guards,
            reservation,
            unit,
            shelf,
        };
        back(&mut self.places, s, place);
        self.hands = Hands::of::<Brand, (usize, bool)>(&self.hands, &self.pass, &(s, false));
        false
    }

    // The number of the slot, which has no guard, goes back.
    fn give_back<W: Watch<T>>(&mut self, s: usize, watch: &mut W)
        requires { let slot = model_slot self.old.state s in (calls.is_free slot.kind ≡ false) × (has_guard slot ≡ false) }
        ensures done { Did W.told (calls.give_back R.puts R.weight self.old.state s) self.new.state (W.seen watch.old) (W.seen watch.new) }
        ensures same { IsLinkedSame self.old self.new }
        ensures grows { ListGrows self.old self.new }
        ensures same_reference { watch.exit.ghost_name ≡ watch.entry.ghost_name }
    {
        let mut given = false;
        while !given {
            given = self.end_once(s, watch);
        }
    }

    /// Takes the least number that is not in use, for a registered slot without a guard. What slots left in their batches as they ended is
    /// its batch then, and is attempted where it is full; the watch is told of each value that is gone, in order. It asks for memory where
    /// a slot is made, and where the list of places has none for it yet.
    ///
    /// # Errors
    ///
    /// `NoMemory` where the allocator refuses. It is never `NoNumbers`: a list has room for fewer than 2^63 slots, so memory is refused
    /// before all 2^64 - 32 numbers are in use. That no clause says.
    pub fn register<W: Watch<T>>(&mut self, watch: &mut W) -> Result<usize, Refusal>
        ensures done { Grew W.told (calls.take_number R.puts R.weight self.old.state registered 0) result self.old.state self.new.state
            (W.seen watch.old) (W.seen watch.new) }
        ensures same { IsLinkedSame self.old self.new }
        ensures grows { ListGrows self.old self.new }
        ensures unchanged { OnErr result (self.new ≡ self.old) }
        ensures same_reference { watch.exit.ghost_name ≡ watch.entry.ghost_name }
    {
        self.take(false, watch)
    }

    /// Takes the least number that is not in use as `register` does, for an owned slot, which has one guard. What slots left is attempted
    /// before the slot enters.
    ///
    /// # Errors
    ///
    /// As `register`.
    pub fn enter_owned<W: Watch<T>>(&mut self, watch: &mut W) -> Result<usize, Refusal>
        ensures done { Grew W.told (calls.take_number R.puts R.weight self.old.state owned_slot 1) result self.old.state self.new.state
            (W.seen watch.old) (W.seen watch.new) }
        ensures same { IsLinkedSame self.old self.new }
        ensures grows { ListGrows self.old self.new }
        ensures unchanged { OnErr result (self.new ≡ self.old) }
        ensures same_reference { watch.exit.ghost_name ≡ watch.entry.ghost_name }
    {
        let number = self.take(true, watch)?;
        self.begin(number);
        Ok(number)
    }

    /// Gives the registered slot one guard more. The first one makes the slot active. It takes no memory.
    ///
    /// # Errors
    ///
    /// In this order: `NotInUse`, `WrongKind` of an owned slot, and `TooManyGuards` where it has 2^64 - 1.
    pub fn enter(&mut self, s: usize) -> Result<(), Refusal>
        ensures done { Said (calls.enter self.old.state s) result self.new.state }
        ensures same { IsLinkedSame self.old self.new }
        ensures grows { ListGrows self.old self.new }
        ensures unchanged { OnErr result (self.new ≡ self.old) }
    {
        let guards = self.registered(s)?;
        if guards == u64::MAX {
            return Err(Refusal::TooManyGuards);
        }
        if guards == 0 {
            self.begin(s);
        } else {
            self.count(s, guards + 1);
        }
        Ok(())
    }

    /// Gives the number of a registered slot back. It answers false where the slot has a guard, and changes nothing. While another slot is
    /// in use, the slot's batch is left for whoever takes a number next. Else what slots left and the batch are attempted, until nothing is
    /// left. Where the collector was never shared, they are gone then, in that order, and then what the reclaimer puts, in turn
    /// (`waiting::last_ends`).
    ///
    /// The watch is told of each value that is gone, in order. It takes no memory and waits for nobody, but for what watch and reclaimer
    /// do.
    ///
    /// # Errors
    ///
    /// In this order: `NotInUse`, `WrongKind` of an owned slot.
    pub fn end<W: Watch<T>>(&mut self, s: usize, watch: &mut W) -> Result<bool, Refusal>
        ensures done { Answers W.told (calls.end_slot R.puts R.weight self.old.state s) result self.new.state
            (W.seen watch.old) (W.seen watch.new) }
        ensures same { IsLinkedSame self.old self.new }
        ensures grows { ListGrows self.old self.new }
        ensures unchanged { result ≢ Ok true → self.new ≡ self.old }
        ensures same_reference { watch.exit.ghost_name ≡ watch.entry.ghost_name }
    {
        if self.registered(s)? > 0 {
            return Ok(false);
        }
        self.give_back(s, watch);
        Ok(true)
    }
}

impl<T: Drop + Codes, R: Reclaim<T>> Drop for Alone<T, R> {
    fn drop(self) {
        let Alone {
            mut words,
            mut pass,
            mut numbers,
            mut places,
            made: _,
            ender,
            alloc,
            hands: _,
        } = self;
        numbers.clear(&words, &ender, &mut places, &mut pass, &mut ());
        words.links.stir();
        // Nothing is left to reclaim, so this ends what the links hold.
        drop(shared(words, pass, numbers, places, ender, alloc));
    }
}
