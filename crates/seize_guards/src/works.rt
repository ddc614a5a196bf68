//! Each call of a guard or a registration, as a work on the slot's reservation.
ghost use Rattle.std.specs.Prelude.{◌≡◌, ◌+◌, ◌⊎◌, ◌<◌, IfErr, IfNone, IfOk, IfSome};
ghost use Rattle.seize_calls.specs.Slots.{IsLooseOf, IsPassOf, its_number, its_value};
ghost use Rattle.seize_words.specs.Chunks.{IsBlockIn};
ghost use Rattle.seize_words.specs.Joined.{words_book};
ghost use Rattle.seize_machine.specs.declared.machine.event.Job.TheVariants.{Flush, Leave, Refresh, Retire};
ghost use Rattle.seize_table.specs.declared.refusal.Refusal.TheVariants.{NoMemory as no_memory, TooManyGuards as too_many_guards};
ghost use Rattle.seize_parts.specs.Enders.{IsEnderOf};
ghost use Rattle.seize_parts.specs.Makes.{Defers, Enters, IsOfKind, MakesCall, StaysActive};
ghost use Rattle.seize_parts.specs.Puts.{PutBy};
ghost use Rattle.seize_parts.specs.Reservations.{IsHeadFor, IsReservationOf, IsUnit};

use seize_calls::manner::Beside;
use seize_calls::slot::Loose;
use seize_cells::LockWork;
use seize_parts::ender::Ender;
use seize_parts::ends::Forwards;
use seize_parts::reclaim::Reclaim;
use seize_parts::reservation::Reservation;
use seize_store::Bare;
use seize_table::Refusal;
use seize_words::activation::Activation;
use seize_words::book::{Pass, Seen, ValueKey};
use seize_words::chunk::{Header, Part};
use seize_words::reservation::Head;
use seize_words::words::Words;
use std::sync::Wait;

/// One guard more, if there can be one. It gives the guard's unit, and what was seen then.
#[derive(Drop)]
pub struct Entering<'a, T> {
    /// The words of the collector.
    pub words: &'a Words<T>,
    /// The slot's head.
    pub head: &'a Head,
}

impl<'a, 'p, T: Drop> LockWork<Reservation<T>, Pass<'p>, Result<(Activation, Seen), Refusal>>
    for Entering<'a, T> {
    ghost may = { λ work r pass. IsReservationOf work.words.now r × IsPassOf work.words.now pass
        × IsHeadFor (words_book work.words.now) (its_number r.slot) work.head.now };

    ghost gives = { λ work r r' pass pass' result. let s = its_number r.slot in
        IfOk result (λ made. Enters s pass pass' × IsUnit (words_book work.words.now) s made.0 made.1 × (r'.guards ≡ r.guards + 1))
        × IfErr result (λ refusal. (refusal ≡ too_many_guards) × (r.guards ≡ r.most) × (pass' ≡ pass)) };

    #[inline(always)]
    fn work(
        self,
        r: &mut Reservation<T>,
        pass: &mut Pass<'p>,
    ) -> Result<(Activation, Seen), Refusal> {
        if r.guards == r.most {
            return Err(Refusal::TooManyGuards);
        }
        if r.guards == 0 {
            return Ok(r.enter(self.words, self.head, pass));
        }
        Ok(r.enter_beside(self.words, pass))
    }
}

/// A block is made of one of the slot's that is gone, where it has one.
#[derive(Drop)]
pub struct Adding<'a, T: Drop> {
    /// The words of the collector.
    pub words: &'a Words<T>,
    /// Its value.
    pub value: T,
}

impl<'a, T: Drop> LockWork<
    Reservation<T>,
    (),
    Result<(ValueKey, Bare<Header, Part, T>), (Refusal, T)>,
> for Adding<'a, T> {
    ghost may = { λ work r _. IsReservationOf work.words.now r };

    ghost gives = { λ work _ _ _ _ result. IfOk result (λ made. IsBlockIn work.words.now.blocks work.value made.0 made.1)
        × IfErr result (λ refused. (refused.0 ≡ no_memory) × (refused.1 ≡ work.value)) };

    #[inline(always)]
    fn work(
        self,
        r: &mut Reservation<T>,
        _with: &mut (),
    ) -> Result<(ValueKey, Bare<Header, Part, T>), (Refusal, T)> {
        let Adding { words, value } = self;
        r.slot.seen().agree(&words.blocks.book);
        r.slot.add(words, value)
    }
}

/// A value is retired.
pub struct Retiring<'a, T: Drop, R: Reclaim<T>, W> {
    /// The words of the collector.
    pub words: &'a Words<T>,
    /// Its reclaimer.
    pub ender: &'a Ender<T, R>,
    /// The value.
    pub loose: Loose,
    /// Its kind.
    pub kind: u64,
    /// The runtime by whose leave it may wait.
    pub rt: &'a W,
}

impl<'a, 'p, T: Drop, R: Reclaim<T>, W: Wait> LockWork<Reservation<T>, Pass<'p>, ()>
    for Retiring<'a, T, R, W> {
    ghost may = { λ work r pass. IsReservationOf work.words.now r × IsPassOf work.words.now pass × IsLooseOf work.words.now work.loose
        × IsEnderOf work.words.now work.ender.now };

    ghost gives = { λ work r r' pass pass' _. MakesCall (PutBy T.row.coded.code R.puts) (its_number r.slot)
        (Retire (its_value work.loose)) pass pass'
        × IsOfKind (its_value work.loose) work.kind pass' };

    #[inline(always)]
    fn work(self, r: &mut Reservation<T>, pass: &mut Pass<'p>) {
        let Retiring {
            words,
            ender,
            loose,
            kind,
            rt,
        } = self;
        r.slot.seen().agree(&words.blocks.book);
        r.slot.retire(
            words,
            loose,
            kind,
            &mut Forwards::new(ender),
            pass,
            &Beside { rt },
        );
    }
}

/// A value is retired where nothing is to be attempted then. Else it comes back, and nothing is done. It has no need of a guard's unit,
/// since nothing is handed.
pub struct RetiringShort<'a, T: Drop> {
    /// The words of the collector.
    pub words: &'a Words<T>,
    /// The value.
    pub loose: Loose,
    /// Its kind.
    pub kind: u64,
}

impl<'a, 'p, T: Drop> LockWork<Reservation<T>, Pass<'p>, Result<(), Loose>>
    for RetiringShort<'a, T> {
    ghost may = { λ work r pass. IsReservationOf work.words.now r × IsPassOf work.words.now pass × IsLooseOf work.words.now work.loose };

    ghost gives = { λ work r r' pass pass' result. let v = its_value work.loose in
        IfOk result (λ _. Defers (its_number r.slot) (Retire v) pass pass' × IsOfKind v work.kind pass')
        × IfErr result (λ back. (back ≡ work.loose) × (pass' ≡ pass)) };

    #[inline(always)]
    fn work(self, r: &mut Reservation<T>, pass: &mut Pass<'p>) -> Result<(), Loose> {
        let RetiringShort { words, loose, kind } = self;
        r.slot.seen().agree(&words.blocks.book);
        r.slot.retire_short(words, loose, kind, pass)
    }
}

/// A value is retired under a guard.
pub struct Deferring<'a, T: Drop, R: Reclaim<T>, W> {
    /// The words of the collector.
    pub words: &'a Words<T>,
    /// Its reclaimer.
    pub ender: &'a Ender<T, R>,
    /// The guard's unit.
    pub unit: &'a Activation,
    /// What was seen when its activation had begun.
    pub seen: &'a Seen,
    /// The value.
    pub loose: Loose,
    /// Its kind.
    pub kind: u64,
    /// The runtime by whose leave it may wait.
    pub rt: &'a W,
}

impl<'a, 'p, T: Drop, R: Reclaim<T>, W: Wait> LockWork<Reservation<T>, Pass<'p>, ()>
    for Deferring<'a, T, R, W> {
    ghost may = { λ work r pass. IsReservationOf work.words.now r × IsPassOf work.words.now pass × IsLooseOf work.words.now work.loose
        × IsUnit (words_book work.words.now) (its_number r.slot) work.unit.now work.seen.now
        × IsEnderOf work.words.now work.ender.now };

    ghost gives = { λ work r r' pass pass' _. Defers (its_number r.slot) (Retire (its_value work.loose)) pass pass'
        × IsOfKind (its_value work.loose) work.kind pass' };

    #[inline(always)]
    fn work(self, r: &mut Reservation<T>, pass: &mut Pass<'p>) {
        let Deferring {
            words,
            ender,
            unit,
            seen,
            loose,
            kind,
            rt,
        } = self;
        r.current(words, unit, seen, pass);
        r.slot.retire(
            words,
            loose,
            kind,
            &mut Forwards::new(ender),
            pass,
            &Beside { rt },
        );
    }
}

/// The slot's batch is attempted.
#[derive(Drop)]
pub struct Flushing<'a, T: Drop, R: Reclaim<T>, W> {
    /// The words of the collector.
    pub words: &'a Words<T>,
    /// Its reclaimer.
    pub ender: &'a Ender<T, R>,
    /// The guard's unit.
    pub unit: &'a Activation,
    /// What was seen when its activation had begun.
    pub seen: &'a Seen,
    /// The runtime by whose leave it may wait.
    pub rt: &'a W,
}

impl<'a, 'p, T: Drop, R: Reclaim<T>, W: Wait> LockWork<Reservation<T>, Pass<'p>, ()>
    for Flushing<'a, T, R, W> {
    ghost may = { λ work r pass. IsReservationOf work.words.now r × IsPassOf work.words.now pass
        × IsUnit (words_book work.words.now) (its_number r.slot) work.unit.now work.seen.now
        × IsEnderOf work.words.now work.ender.now };

    ghost gives = { λ work r r' pass pass' _. Defers (its_number r.slot) Flush pass pass' };

    #[inline(always)]
    fn work(self, r: &mut Reservation<T>, pass: &mut Pass<'p>) {
        let Flushing {
            words,
            ender,
            unit,
            seen,
            rt,
        } = self;
        r.current(words, unit, seen, pass);
        r.slot
            .flush(words, &mut Forwards::new(ender), pass, &Beside { rt });
    }
}

/// An activation is made that has still to begin. It takes the place of the guard's unit while the slot refreshes.
#[derive(Drop)]
pub struct Sparing {}

impl<'p, T: Drop> LockWork<Reservation<T>, Pass<'p>, Activation> for Sparing {
    ghost may = { λ _ _ _. Unit {0} };

    ghost gives = { λ _ _ _ pass pass' _. pass' ≡ pass };

    #[inline(always)]
    fn work(self, r: &mut Reservation<T>, _pass: &mut Pass<'p>) -> Activation {
        r.slot.activation()
    }
}

/// The slot refreshes for its only guard; beside others nothing is done. It gives the guard's unit, and what was seen when its activation
/// had begun.
#[derive(Drop)]
pub struct Refreshing<'a, T: Drop, R: Reclaim<T>, W> {
    /// The words of the collector.
    pub words: &'a Words<T>,
    /// Its reclaimer.
    pub ender: &'a Ender<T, R>,
    /// The slot's head.
    pub head: &'a Head,
    /// The guard's unit.
    pub unit: Activation,
    /// What was seen when its activation had begun.
    pub seen: &'a Seen,
    /// The runtime by whose leave it may wait.
    pub rt: &'a W,
}

impl<'a, 'p, T: Drop, R: Reclaim<T>, W: Wait> LockWork<Reservation<T>, Pass<'p>, (Activation, Seen)>
    for Refreshing<'a, T, R, W> {
    ghost may = { λ work r pass. IsReservationOf work.words.now r × IsPassOf work.words.now pass
        × IsUnit (words_book work.words.now) (its_number r.slot) work.unit work.seen.now
        × IsHeadFor (words_book work.words.now) (its_number r.slot) work.head.now
        × IsEnderOf work.words.now work.ender.now };

    ghost gives = { λ work r r' pass pass' result. let s = its_number r.slot in
        let IsPut = PutBy T.row.coded.code R.puts in
        (((r.guards ≡ 1) × MakesCall IsPut s Refresh pass pass') ⊎ ((1 < r.guards) × (StaysActive s pass pass' × (result.0 ≡ work.unit))))
        × IsUnit (words_book work.words.now) s result.0 result.1 };

    #[inline(always)]
    fn work(self, r: &mut Reservation<T>, pass: &mut Pass<'p>) -> (Activation, Seen) {
        let Refreshing {
            words,
            ender,
            head,
            unit,
            seen,
            rt,
        } = self;
        r.current(words, &unit, seen, pass);
        if r.guards > 1 {
            return (unit, seen.again());
        }
        r.rest.join(unit);
        r.slot.refresh(
            words,
            head,
            &mut r.rest,
            &mut Forwards::new(ender),
            pass,
            &Beside { rt },
        );
        let unit = r.rest.split();
        (unit, r.slot.seen())
    }
}

/// A guard leaves. The slot's last one leaves for it; beside others no event is made.
#[derive(Drop)]
pub struct Leaving<'a, T: Drop, R: Reclaim<T>, W> {
    /// The words of the collector.
    pub words: &'a Words<T>,
    /// Its reclaimer.
    pub ender: &'a Ender<T, R>,
    /// The slot's head.
    pub head: &'a Head,
    /// The guard's unit.
    pub unit: Activation,
    /// What was seen when its activation had begun.
    pub seen: Seen,
    /// The runtime by whose leave it may wait.
    pub rt: &'a W,
}

impl<'a, 'p, T: Drop, R: Reclaim<T>, W: Wait> LockWork<Reservation<T>, Pass<'p>, ()>
    for Leaving<'a, T, R, W> {
    ghost may = { λ work r pass. IsReservationOf work.words.now r × IsPassOf work.words.now pass
        × IsUnit (words_book work.words.now) (its_number r.slot) work.unit work.seen
        × IsHeadFor (words_book work.words.now) (its_number r.slot) work.head.now
        × IsEnderOf work.words.now work.ender.now };

    ghost gives = { λ work r r' pass pass' _. let s = its_number r.slot in
        let IsPut = PutBy T.row.coded.code R.puts in
        (((r.guards ≡ 1) × MakesCall IsPut s Leave pass pass') ⊎ ((1 < r.guards) × StaysActive s pass pass'))
        × (r'.guards + 1 ≡ r.guards) };

    #[inline(always)]
    fn work(self, r: &mut Reservation<T>, pass: &mut Pass<'p>) {
        let Leaving {
            words,
            ender,
            head,
            unit,
            seen,
            rt,
        } = self;
        r.current(words, &unit, &seen, pass);
        r.rest.join(unit);
        r.guards -= 1;
        if r.guards > 0 {
            return;
        }
        r.slot.leave(
            words,
            head,
            &mut r.rest,
            &mut Forwards::new(ender),
            pass,
            &Beside { rt },
        );
    }
}

/// A guard leaves beside others: no event is made, and the pass learns that the slot is active. Where it is the slot's only one nothing is
/// done, and its unit comes back, with what was seen.
#[derive(Drop)]
pub struct LeavingBeside<'a, T> {
    /// The words of the collector.
    pub words: &'a Words<T>,
    /// The guard's unit.
    pub unit: Activation,
    /// What was seen when its activation had begun.
    pub seen: Seen,
}

impl<'a, 'p, T: Drop> LockWork<Reservation<T>, Pass<'p>, Option<(Activation, Seen)>>
    for LeavingBeside<'a, T> {
    ghost may = { λ work r pass. IsReservationOf work.words.now r × IsPassOf work.words.now pass
        × IsUnit (words_book work.words.now) (its_number r.slot) work.unit work.seen };

    ghost gives = { λ work r r' pass pass' result.
        IfNone result (StaysActive (its_number r.slot) pass pass')
        × IfSome result (λ back. (back.0 ≡ work.unit) × (back.1 ≡ work.seen) × (pass' ≡ pass)) };

    #[inline(always)]
    fn work(self, r: &mut Reservation<T>, pass: &mut Pass<'p>) -> Option<(Activation, Seen)> {
        if r.guards < 2 {
            return Some((self.unit, self.seen));
        }
        r.current(self.words, &self.unit, &self.seen, pass);
        r.rest.join(self.unit);
        r.guards -= 1;
        None
    }
}
