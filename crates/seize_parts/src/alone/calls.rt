//! The calls on what lies in the place of a slot, while a collector is in one caller's hands, by a pass that is alone. The place is changed
//! where it lies. None of them waits, and each returns, since what the reclaimer puts weighs less than the value.
ghost use Rattle.std.specs.Borrow.{sem};
ghost use Rattle.std.specs.Prelude.{◌≡◌, Bool, [], None, Some, false, is_some, true};
ghost use Rattle.seize_book.specs.Homesteads.{state_seen};
ghost use Rattle.seize_book.specs.Tokens.{IsSole};
ghost use Rattle.seize_machine.specs.Machine.Event.{Enter};
ghost use Rattle.seize_machine.specs.Machine.State.{head_at, is_active};
ghost use Rattle.seize_machine.specs.declared.machine.event.Answer.{Answer};
ghost use Rattle.seize_alone.specs.Events.{MakesAlone};
ghost use Rattle.seize_alone.specs.Gone.{PutAs};
ghost use Rattle.seize_calls.specs.Handing.{Had};
ghost use Rattle.seize_calls.specs.Slots.{HasActivation, IsActive, IsItsHead, IsLooseOf, IsPassOf, IsSlotOf, KeepsActivation};
ghost use Rattle.seize_calls.specs.Slots.{IsTakenAs, MayEnterWith, SlotFlushes, SlotLeaves, SlotRefreshes, SlotResumes, SlotRetires, its_key, its_number};
ghost use Rattle.seize_book.specs.Slots.{active_of};
ghost use Rattle.seize_words.specs.Joined.{words_book};
ghost use Rattle.seize_words.specs.declared.activation.Activation.{Activation};
ghost use Rattle.seize_parts.specs.Enders.{IsEnderOf};
ghost use Rattle.seize_parts.specs.Lends.{lends_place};
ghost use Rattle.seize_parts.specs.Places.{CallsSlot, HasUnit, IsOnly, LiesThen, MayCall};
ghost use Rattle.seize_parts.specs.Placing.{what_lies_in, what_lies_with};
ghost use Rattle.seize_parts.specs.Reservations.{IsReservation, IsUnit, KeepsPlace};
ghost use Rattle.seize_parts.specs.Told.{HasTold};

use crate::alone::place::{Place, Unit};
use crate::alone::tells::{Begun, Tells};
use crate::ender::Ender;
use crate::ends::Forwards;
use crate::reclaim::{Reclaim, Watch};
use crate::reservation::Reservation;
use seize_calls::manner::Alone;
use seize_calls::slot::{Loose, Slot};
use seize_words::activation::Activation;
use seize_words::book::Pass;
use seize_words::reservation::Head;
use seize_words::words::Words;
use std::marker::{Brand, PhantomData};

/// What lies in this place, which is in use.
pub fn held<T: Drop>(place: &mut Option<Place<T>>) -> &mut Place<T>
    requires { is_some place.old ≡ true }
    ensures* lends { sem 𝓛 (lends_place T.row place.entry result) }
    ensures value { place.old ≡ Some result.now }
{
    let Some(place) = place else { unreachable!() };
    place
}

// The slot enters. It gives the unit of its activation.
fn begin_in<T: Drop>(words: &Words<T>, r: &mut Reservation<T>, pass: &mut Pass) -> Unit
    requires r { IsReservation r.old × IsOnly words.now r.old pass.old }
    requires off { is_active (head_at (state_seen pass.old) (its_number r.old.slot)) ≡ false }
    ensures keeps { KeepsPlace r.old r.new }
    ensures enters { (answer : Answer) × MakesAlone pass.old pass.new (Enter (its_number r.old.slot)) answer }
    ensures unit { IsUnit (words_book words.now) (its_number r.old.slot) result.unit result.seen × (result.number ≡ its_number r.old.slot) }
{
    r.slot.seen().agree(&words.blocks.book);
    r.slot.look(words, pass);
    let head = r.slot.head(words, pass);
    let number = r.slot.number();
    let (unit, seen) = r.enter(words, head, pass);
    Unit { number, unit, seen }
}

// The slot leaves, by a reclaimer that tells the watch.
fn leave_telling<B: Begun, T: Drop, R: Reclaim<T>, W: Watch<T>>(
    words: &Words<T>,
    slot: &mut Slot<T>,
    head: &Head,
    rest: &mut Activation,
    tells: &mut Tells<'_, Forwards<'_, T, R>, W, B>,
    pass: &mut Pass,
)
    requires of { IsSlotOf words.now slot.old × IsPassOf words.now pass.old × IsSole pass.old.id }
    requires head { IsItsHead slot.old head.now }
    requires inside { HasActivation slot.old rest.old }
    requires new { (tells.old.forwards.ends.had ≡ []) × IsEnderOf words.now tells.old.forwards.ender.now }
    requires begun { (tells.old.watch.ghost_name ≡ B.name) × (W.coded.code (W.seen tells.old.watch.now) ≡ B.first) }
    ensures same_reference { tells.new.watch.ghost_name ≡ tells.old.watch.ghost_name }
    ensures of { IsSlotOf words.now slot.new × MayEnterWith slot.new rest.new }
    ensures leaves { (had : Had) × SlotLeaves slot.old pass.old [] slot.new pass.new had × PutAs T.row.coded.code R.puts had
        × HasTold T.row.coded.code W.told (W.seen tells.old.watch.now) (W.seen tells.new.watch.now) had }
{
    slot.leave(words, head, rest, tells, pass, &Alone {});
}

// The slot leaves with its last guard, whose unit this is.
fn leave_in<T: Drop, R: Reclaim<T>, W: Watch<T>>(
    words: &Words<T>,
    ender: &Ender<T, R>,
    r: &mut Reservation<T>,
    unit: Unit,
    pass: &mut Pass,
    watch: &mut W,
)
    requires r { IsReservation r.old × IsOnly words.now r.old pass.old }
    requires ender { IsEnderOf words.now ender.now }
    requires unit { IsUnit (words_book words.now) (its_number r.old.slot) unit.unit unit.seen }
    ensures keeps { KeepsPlace r.old r.new }
    ensures calls { CallsSlot T.row.coded.code R.puts W.told r.old pass.old r.new pass.new (W.seen watch.old) (W.seen watch.new)
        (λ slot ready slot' pass' had. SlotLeaves slot ready [] slot' pass' had) }
    ensures same_reference { watch.exit.ghost_name ≡ watch.entry.ghost_name }
{
    let Unit {
        number: _,
        unit,
        seen,
    } = unit;
    r.current(words, &unit, &seen, pass);
    let head = r.slot.head(words, pass);
    r.rest.join(unit);
    r.guards -= 1;
    let mut tells = Tells {
        forwards: Forwards::new(ender),
        watch: &mut *watch,
        begun: PhantomData,
    };
    leave_telling::<Brand, T, R, W>(words, &mut r.slot, head, &mut r.rest, &mut tells, pass);
    // It is taken apart, and so what the watch has seen is known.
    let Tells {
        forwards: _forwards,
        watch: _watch,
        begun: _,
    } = tells;
}

// The slot refreshes, by a reclaimer that tells the watch.
fn refresh_telling<B: Begun, T: Drop, R: Reclaim<T>, W: Watch<T>>(
    words: &Words<T>,
    slot: &mut Slot<T>,
    head: &Head,
    rest: &mut Activation,
    tells: &mut Tells<'_, Forwards<'_, T, R>, W, B>,
    pass: &mut Pass,
)
    requires of { IsSlotOf words.now slot.old × IsPassOf words.now pass.old × IsSole pass.old.id }
    requires head { IsItsHead slot.old head.now }
    requires inside { HasActivation slot.old rest.old }
    requires new { (tells.old.forwards.ends.had ≡ []) × IsEnderOf words.now tells.old.forwards.ender.now }
    requires begun { (tells.old.watch.ghost_name ≡ B.name) × (W.coded.code (W.seen tells.old.watch.now) ≡ B.first) }
    ensures same_reference { tells.new.watch.ghost_name ≡ tells.old.watch.ghost_name }
    ensures of { IsSlotOf words.now slot.new × HasActivation slot.new rest.new }
    ensures refreshes { (had : Had) × SlotRefreshes slot.old pass.old rest.new [] slot.new pass.new had
        × PutAs T.row.coded.code R.puts had
        × HasTold T.row.coded.code W.told (W.seen tells.old.watch.now) (W.seen tells.new.watch.now) had }
{
    slot.refresh(words, head, rest, tells, pass, &Alone {});
}

// The slot refreshes for its only guard, whose unit this is. It gives the unit of the new activation.
fn refresh_in<T: Drop, R: Reclaim<T>, W: Watch<T>>(
    words: &Words<T>,
    ender: &Ender<T, R>,
    r: &mut Reservation<T>,
    unit: Unit,
    pass: &mut Pass,
    watch: &mut W,
) -> Unit
    requires r { IsReservation r.old × IsOnly words.now r.old pass.old }
    requires ender { IsEnderOf words.now ender.now }
    requires unit { IsUnit (words_book words.now) (its_number r.old.slot) unit.unit unit.seen }
    ensures keeps { KeepsPlace r.old r.new }
    ensures calls { CallsSlot T.row.coded.code R.puts W.told r.old pass.old r.new pass.new (W.seen watch.old) (W.seen watch.new)
        (λ slot ready slot' pass' had. (a : Activation) × SlotRefreshes slot ready a [] slot' pass' had) }
    ensures unit { IsUnit (words_book words.now) (its_number r.old.slot) result.unit result.seen × (result.number ≡ its_number r.old.slot) }
    ensures same_reference { watch.exit.ghost_name ≡ watch.entry.ghost_name }
{
    let Unit { number, unit, seen } = unit;
    r.current(words, &unit, &seen, pass);
    let head = r.slot.head(words, pass);
    r.rest.join(unit);
    let mut tells = Tells {
        forwards: Forwards::new(ender),
        watch: &mut *watch,
        begun: PhantomData,
    };
    refresh_telling::<Brand, T, R, W>(words, &mut r.slot, head, &mut r.rest, &mut tells, pass);
    // It is taken apart, and so what the watch has seen is known.
    let Tells {
        forwards: _forwards,
        watch: _watch,
        begun: _,
    } = tells;
    let unit = r.rest.split();
    let seen = r.slot.seen();
    Unit { number, unit, seen }
}

// The slot's batch is attempted, by a reclaimer that tells the watch.
fn flush_telling<B: Begun, T: Drop, R: Reclaim<T>, W: Watch<T>>(
    words: &Words<T>,
    slot: &mut Slot<T>,
    tells: &mut Tells<'_, Forwards<'_, T, R>, W, B>,
    pass: &mut Pass,
)
    requires of { IsSlotOf words.now slot.old × IsPassOf words.now pass.old × IsSole pass.old.id }
    requires inside { IsActive slot.old }
    requires new { (tells.old.forwards.ends.had ≡ []) × IsEnderOf words.now tells.old.forwards.ender.now }
    requires begun { (tells.old.watch.ghost_name ≡ B.name) × (W.coded.code (W.seen tells.old.watch.now) ≡ B.first) }
    ensures same_reference { tells.new.watch.ghost_name ≡ tells.old.watch.ghost_name }
    ensures of { IsSlotOf words.now slot.new × KeepsActivation slot.old slot.new }
    ensures flushes { (retired : Bool) × (had : Had) × SlotFlushes slot.old pass.old [] slot.new pass.new had retired
        × PutAs T.row.coded.code R.puts had
        × HasTold T.row.coded.code W.told (W.seen tells.old.watch.now) (W.seen tells.new.watch.now) had }
{
    slot.flush(words, tells, pass, &Alone {});
}

// The batch of the slot is attempted, which has a guard with this unit.
fn flush_in<T: Drop, R: Reclaim<T>, W: Watch<T>>(
    words: &Words<T>,
    ender: &Ender<T, R>,
    r: &mut Reservation<T>,
    unit: &Unit,
    pass: &mut Pass,
    watch: &mut W,
)
    requires r { IsReservation r.old × IsOnly words.now r.old pass.old }
    requires ender { IsEnderOf words.now ender.now }
    requires unit { IsUnit (words_book words.now) (its_number r.old.slot) unit.now.unit unit.now.seen }
    ensures keeps { KeepsPlace r.old r.new }
    ensures calls { CallsSlot T.row.coded.code R.puts W.told r.old pass.old r.new pass.new (W.seen watch.old) (W.seen watch.new)
        (λ slot ready slot' pass' had. (retired : Bool) × SlotFlushes slot ready [] slot' pass' had retired) }
    ensures same_reference { watch.exit.ghost_name ≡ watch.entry.ghost_name }
{
    r.current(words, &unit.unit, &unit.seen, pass);
    let mut tells = Tells {
        forwards: Forwards::new(ender),
        watch: &mut *watch,
        begun: PhantomData,
    };
    flush_telling::<Brand, T, R, W>(words, &mut r.slot, &mut tells, pass);
    // It is taken apart, and so what the watch has seen is known.
    let Tells {
        forwards: _forwards,
        watch: _watch,
        begun: _,
    } = tells;
}

// A value is retired, by a reclaimer that tells the watch.
fn retire_telling<B: Begun, T: Drop, R: Reclaim<T>, W: Watch<T>>(
    words: &Words<T>,
    slot: &mut Slot<T>,
    value: Loose,
    kind: u64,
    tells: &mut Tells<'_, Forwards<'_, T, R>, W, B>,
    pass: &mut Pass,
)
    requires of { IsSlotOf words.now slot.old × IsPassOf words.now pass.old × IsSole pass.old.id }
    requires value { IsLooseOf words.now value }
    requires new { (tells.old.forwards.ends.had ≡ []) × IsEnderOf words.now tells.old.forwards.ender.now }
    requires begun { (tells.old.watch.ghost_name ≡ B.name) × (W.coded.code (W.seen tells.old.watch.now) ≡ B.first) }
    ensures same_reference { tells.new.watch.ghost_name ≡ tells.old.watch.ghost_name }
    ensures of { IsSlotOf words.now slot.new × KeepsActivation slot.old slot.new }
    ensures retires { (retired : Bool) × (had : Had) × SlotRetires slot.old pass.old value kind [] slot.new pass.new had retired
        × PutAs T.row.coded.code R.puts had
        × HasTold T.row.coded.code W.told (W.seen tells.old.watch.now) (W.seen tells.new.watch.now) had }
{
    slot.retire(words, value, kind, tells, pass, &Alone {});
}

// A value is retired by the slot, with or without a guard.
fn retire_in<T: Drop, R: Reclaim<T>, W: Watch<T>>(
    words: &Words<T>,
    ender: &Ender<T, R>,
    r: &mut Reservation<T>,
    loose: Loose,
    kind: u64,
    pass: &mut Pass,
    watch: &mut W,
)
    requires r { IsReservation r.old × IsOnly words.now r.old pass.old }
    requires ender { IsEnderOf words.now ender.now }
    requires value { IsLooseOf words.now loose }
    ensures keeps { KeepsPlace r.old r.new }
    ensures calls { CallsSlot T.row.coded.code R.puts W.told r.old pass.old r.new pass.new (W.seen watch.old) (W.seen watch.new)
        (λ slot ready slot' pass' had. (retired : Bool) × SlotRetires slot ready loose kind [] slot' pass' had retired) }
    ensures same_reference { watch.exit.ghost_name ≡ watch.entry.ghost_name }
{
    r.slot.seen().agree(&words.blocks.book);
    let mut tells = Tells {
        forwards: Forwards::new(ender),
        watch: &mut *watch,
        begun: PhantomData,
    };
    retire_telling::<Brand, T, R, W>(words, &mut r.slot, loose, kind, &mut tells, pass);
    // It is taken apart, and so what the watch has seen is known.
    let Tells {
        forwards: _forwards,
        watch: _watch,
        begun: _,
    } = tells;
}

// The slot goes on with its call, by a reclaimer that tells the watch.
fn resume_telling<B: Begun, T: Drop, R: Reclaim<T>, W: Watch<T>>(
    words: &Words<T>,
    slot: &mut Slot<T>,
    tells: &mut Tells<'_, Forwards<'_, T, R>, W, B>,
    pass: &mut Pass,
)
    requires of { IsTakenAs true words.now slot.old × IsPassOf words.now pass.old × IsSole pass.old.id }
    requires new { (tells.old.forwards.ends.had ≡ []) × IsEnderOf words.now tells.old.forwards.ender.now }
    requires begun { (tells.old.watch.ghost_name ≡ B.name) × (W.coded.code (W.seen tells.old.watch.now) ≡ B.first) }
    ensures same_reference { tells.new.watch.ghost_name ≡ tells.old.watch.ghost_name }
    ensures of { IsSlotOf words.now slot.new × (active_of (its_key slot.new) ≡ active_of (its_key slot.old)) }
    ensures resumes { (had : Had) × SlotResumes slot.old pass.old [] slot.new pass.new had × PutAs T.row.coded.code R.puts had
        × HasTold T.row.coded.code W.told (W.seen tells.old.watch.now) (W.seen tells.new.watch.now) had }
{
    slot.resume(words, tells, pass, &Alone {});
}

/// The slot goes on with the call that a take or a gathering began. The watch is told of each value that is gone.
pub fn resume_in<T: Drop, R: Reclaim<T>, W: Watch<T>>(
    words: &Words<T>,
    ender: &Ender<T, R>,
    slot: &mut Slot<T>,
    pass: &mut Pass,
    watch: &mut W,
)
    requires of { IsTakenAs true words.now slot.old × IsPassOf words.now pass.old × IsSole pass.old.id }
    requires ender { IsEnderOf words.now ender.now }
    ensures of { IsSlotOf words.now slot.new × (active_of (its_key slot.new) ≡ active_of (its_key slot.old)) }
    ensures resumes { (had : Had) × SlotResumes slot.old pass.old [] slot.new pass.new had × PutAs T.row.coded.code R.puts had
        × HasTold T.row.coded.code W.told (W.seen watch.old) (W.seen watch.new) had }
    ensures same_reference { watch.exit.ghost_name ≡ watch.entry.ghost_name }
{
    let mut tells = Tells {
        forwards: Forwards::new(ender),
        watch: &mut *watch,
        begun: PhantomData,
    };
    resume_telling::<Brand, T, R, W>(words, slot, &mut tells, pass);
    // It is taken apart, and so what the watch has seen is known.
    let Tells {
        forwards: _forwards,
        watch: _watch,
        begun: _,
    } = tells;
}

/// What a slot that took its number found left is attempted, where a call has begun for it. The watch is told of each value that is gone.
pub fn attempt_taken<T: Drop, R: Reclaim<T>, W: Watch<T>>(
    words: &Words<T>,
    ender: &Ender<T, R>,
    slot: &mut Slot<T>,
    begun: bool,
    pass: &mut Pass,
    watch: &mut W,
)
    requires of { IsTakenAs begun words.now slot.old × IsPassOf words.now pass.old × IsSole pass.old.id }
    requires ender { IsEnderOf words.now ender.now }
    ensures of { IsSlotOf words.now slot.new × (active_of (its_key slot.new) ≡ active_of (its_key slot.old)) }
    ensures resumes { begun ≡ true → (had : Had) × SlotResumes slot.old pass.old [] slot.new pass.new had
        × PutAs T.row.coded.code R.puts had × HasTold T.row.coded.code W.told (W.seen watch.old) (W.seen watch.new) had }
    ensures none { begun ≡ false → (slot.new ≡ slot.old) × (pass.new ≡ pass.old) × (W.seen watch.new ≡ W.seen watch.old) }
    ensures same_reference { watch.exit.ghost_name ≡ watch.entry.ghost_name }
{
    if begun {
        resume_in(words, ender, slot, pass, watch);
    }
}

impl<T: Drop> Place<T> {
    /// The slot enters with its first guard.
    pub fn begin(&mut self, words: &Words<T>, pass: &mut Pass)
        requires place { MayCall words.now self.old pass.old }
        requires off { is_active (head_at (state_seen pass.old) (its_number self.old.reservation.slot)) ≡ false }
        ensures place { LiesThen self.new (what_lies_with self.old 1 (Some (its_number self.old.reservation.slot, words_book words.now))) }
        ensures enters { (answer : Answer) × MakesAlone pass.old pass.new (Enter (its_number self.old.reservation.slot)) answer }
    {
        let unit = begin_in(words, &mut self.reservation, pass);
        self.unit = Some(unit);
        self.guards = 1;
    }

    /// The slot leaves with its last guard, and the watch is told of each value that is gone.
    pub fn leave<R: Reclaim<T>, W: Watch<T>>(
        &mut self,
        words: &Words<T>,
        ender: &Ender<T, R>,
        pass: &mut Pass,
        watch: &mut W,
    )
        requires place { MayCall words.now self.old pass.old × HasUnit words.now self.old }
        requires ender { IsEnderOf words.now ender.now }
        ensures place { LiesThen self.new (what_lies_with self.old 0 None) }
        ensures calls { CallsSlot T.row.coded.code R.puts W.told self.old.reservation pass.old self.new.reservation pass.new
            (W.seen watch.old) (W.seen watch.new)
            (λ slot ready slot' pass' had. SlotLeaves slot ready [] slot' pass' had) }
        ensures same_reference { watch.exit.ghost_name ≡ watch.entry.ghost_name }
    {
        let Some(unit) = self.unit.take() else {
            unreachable!()
        };
        leave_in(words, ender, &mut self.reservation, unit, pass, watch);
        self.guards = 0;
    }

    /// The slot refreshes for its only guard, and the watch is told of each value that is gone.
    pub fn refresh<R: Reclaim<T>, W: Watch<T>>(
        &mut self,
        words: &Words<T>,
        ender: &Ender<T, R>,
        pass: &mut Pass,
        watch: &mut W,
    )
        requires place { MayCall words.now self.old pass.old × HasUnit words.now self.old }
        requires ender { IsEnderOf words.now ender.now }
        ensures place { LiesThen self.new (what_lies_in self.old) }
        ensures calls { CallsSlot T.row.coded.code R.puts W.told self.old.reservation pass.old self.new.reservation pass.new
            (W.seen watch.old) (W.seen watch.new)
            (λ slot ready slot' pass' had. (a : Activation) × SlotRefreshes slot ready a [] slot' pass' had) }
        ensures same_reference { watch.exit.ghost_name ≡ watch.entry.ghost_name }
    {
        let Some(unit) = self.unit.take() else {
            unreachable!()
        };
        let unit = refresh_in(words, ender, &mut self.reservation, unit, pass, watch);
        self.unit = Some(unit);
    }

    /// The batch of the slot, which has a guard, is attempted, and the watch is told of each value that is gone.
    pub fn flush<R: Reclaim<T>, W: Watch<T>>(
        &mut self,
        words: &Words<T>,
        ender: &Ender<T, R>,
        pass: &mut Pass,
        watch: &mut W,
    )
        requires place { MayCall words.now self.old pass.old × HasUnit words.now self.old }
        requires ender { IsEnderOf words.now ender.now }
        ensures place { LiesThen self.new (what_lies_in self.old) }
        ensures calls { CallsSlot T.row.coded.code R.puts W.told self.old.reservation pass.old self.new.reservation pass.new
            (W.seen watch.old) (W.seen watch.new)
            (λ slot ready slot' pass' had. (retired : Bool) × SlotFlushes slot ready [] slot' pass' had retired) }
        ensures same_reference { watch.exit.ghost_name ≡ watch.entry.ghost_name }
    {
        let Some(unit) = &self.unit else {
            unreachable!()
        };
        flush_in(words, ender, &mut self.reservation, unit, pass, watch);
    }

    /// A value is retired with this kind by the slot, with or without a guard, and the watch is told of each value that is gone.
    pub fn retire<R: Reclaim<T>, W: Watch<T>>(
        &mut self,
        words: &Words<T>,
        ender: &Ender<T, R>,
        loose: Loose,
        kind: u64,
        pass: &mut Pass,
        watch: &mut W,
    )
        requires place { MayCall words.now self.old pass.old }
        requires ender { IsEnderOf words.now ender.now }
        requires value { IsLooseOf words.now loose }
        ensures place { LiesThen self.new (what_lies_in self.old) }
        ensures calls { CallsSlot T.row.coded.code R.puts W.told self.old.reservation pass.old self.new.reservation pass.new
            (W.seen watch.old) (W.seen watch.new)
            (λ slot ready slot' pass' had. (retired : Bool) × SlotRetires slot ready loose kind [] slot' pass' had retired) }
        ensures same_reference { watch.exit.ghost_name ≡ watch.entry.ghost_name }
    {
        retire_in(
            words,
            ender,
            &mut self.reservation,
            loose,
            kind,
            pass,
            watch,
        );
    }
}
