//! Shelves: where the reservation of a registration or of an owned guard is laid when that is forgotten, and a guard's unit when that
//! is. The collector keeps a shelf for each slot, and the holder of the slot shares it. So a caller who has the collector alone finds there
//! what was forgotten (`numbers`).
ghost use Rattle.std.specs.Prelude.{◌≡◌, ℕ, IfErr, IfOk, IfSome};
ghost use base.Stored.{coded_ℕ};
ghost use mathlib.Core.List.{IsPrefix};
ghost use Rattle.std_alloc.specs.Arc.{arc_value};
ghost use Rattle.seize_book.specs.Passes.{IsSamePass, MadeNone};
ghost use Rattle.seize_parts.specs.Makes.{MakesNone};
ghost use Rattle.seize_parts.specs.Shelves.{AreOfFamily, IsLaidFor, IsForgottenOf};
ghost use Rattle.seize_parts.specs.Reservations.{IsReservation, IsUnit};

mod forgotten;

use crate::reservation::Reservation;
pub use forgotten::Forgotten;
use seize_cells::{Lock, LockWork};
use seize_content::Steady;
use seize_words::activation::Activation;
use seize_words::book::{Pass, Seen};
use std::alloc::{AllocError, Global};
use std::marker::Model;
use std::sync::Arc;

// What lies on a shelf.
#[derive(Drop)]
struct Laid<T> {
    // The list of events.
    book: Seen,
    reservation: Option<Reservation<T>>,
    forgotten: Option<Forgotten>,
}

impl<T> Steady for Laid<T> {
    ghost label = { λ laid. laid.book.name.family };

    ghost sound = { λ laid. IfSome laid.reservation (IsLaidFor laid.book.name.family)
        × IfSome laid.forgotten (IsForgottenOf laid.book.name.family) };
}

/// The shelf of one slot. In a clause it is the family of its list of events.
#[derive(Drop)]
pub struct Shelf<T: Drop> {
    laid: Arc<Lock<Laid<T>>>,
}

impl<T: Drop> Model for Shelf<T> {
    ghost Value = { ℕ };

    ghost coded = { coded_ℕ };

    ghost view = { λ shelf. arc_value shelf.laid };
}

// A reservation is laid there.
#[derive(Drop)]
struct Laying<T> {
    reservation: Reservation<T>,
}

impl<T: Drop> LockWork<Laid<T>, (), ()> for Laying<T> {
    ghost may = { λ work laid _. IsLaidFor laid.book.name.family work.reservation };

    ghost gives = { λ _ _ _ _ _ _. Unit {0} };

    fn work(self, laid: &mut Laid<T>, _with: &mut ()) {
        laid.reservation = Some(self.reservation);
    }
}

// The unit of a guard is laid there, with those that lie there.
#[derive(Drop)]
struct Forgetting {
    forgotten: Forgotten,
}

impl<'p, T: Drop> LockWork<Laid<T>, Pass<'p>, ()> for Forgetting {
    ghost may = { λ work laid pass. IsForgottenOf laid.book.name.family work.forgotten × (pass.name.family ≡ laid.book.name.family) };

    ghost gives = { λ _ _ _ pass pass' _. IsSamePass pass pass' × IsPrefix pass.seen pass'.seen × MadeNone pass pass' };

    fn work(self, laid: &mut Laid<T>, pass: &mut Pass<'p>) {
        let forgotten = match laid.forgotten.take() {
            Some(forgotten) => forgotten.and(self.forgotten, pass),
            None => self.forgotten,
        };
        laid.forgotten = Some(forgotten);
    }
}

// This is laid there, and nothing else lies there then.
#[derive(Drop)]
struct Putting<T> {
    reservation: Option<Reservation<T>>,
    forgotten: Option<Forgotten>,
}

impl<T: Drop> LockWork<Laid<T>, (), ()> for Putting<T> {
    ghost may = { λ work laid _. IfSome work.reservation (IsLaidFor laid.book.name.family)
        × IfSome work.forgotten (IsForgottenOf laid.book.name.family) };

    ghost gives = { λ _ _ _ _ _ _. Unit {0} };

    fn work(self, laid: &mut Laid<T>, _with: &mut ()) {
        let Putting {
            reservation,
            forgotten,
        } = self;
        laid.reservation = reservation;
        laid.forgotten = forgotten;
    }
}

// What lies there is taken out.
#[derive(Drop)]
struct Taking {}

impl<T: Drop> LockWork<Laid<T>, (), (Option<Reservation<T>>, Option<Forgotten>)> for Taking {
    ghost may = { λ _ _ _. Unit {0} };

    ghost gives = { λ _ laid _ _ _ result.
        IfSome result.0 (IsLaidFor laid.book.name.family) × IfSome result.1 (IsForgottenOf laid.book.name.family) };

    fn work(
        self,
        laid: &mut Laid<T>,
        _with: &mut (),
    ) -> (Option<Reservation<T>>, Option<Forgotten>) {
        (laid.reservation.take(), laid.forgotten.take())
    }
}

impl<T: Drop> Shelf<T> {
    /// A shelf for a slot of this list, where nothing lies.
    ///
    /// # Errors
    ///
    /// `AllocError` where the allocator refuses.
    #[cold]
    #[inline(never)]
    fn new(alloc: Global, book: &Seen) -> Result<Shelf<T>, AllocError>
        ensures { IfOk result (λ shelf. shelf ≡ book.now.name.family) }
    {
        let laid = Laid {
            book: book.again(),
            reservation: None,
            forgotten: None,
        };
        match Arc::new(alloc, Lock::new(laid)) {
            Ok(laid) => Ok(Shelf { laid }),
            Err(_) => Err(AllocError),
        }
    }

    /// The same shelf, for one who shares it.
    ///
    /// # Errors
    ///
    /// `AllocError` where 2^63 share it.
    fn again(&self) -> Result<Shelf<T>, AllocError>
        ensures { IfOk result (λ shelf. shelf ≡ self.now) }
    {
        let laid = Arc::try_clone(&self.laid)?;
        Ok(Shelf { laid })
    }

    /// Lays a reservation there. It takes no memory and waits for nobody: only the one holder of the slot, or a caller who has the
    /// collector alone, ever comes to a shelf. If two came at once, the second would lose what it lays.
    pub fn lay(&self, reservation: Reservation<T>)
        requires { IsLaidFor self.now reservation }
    {
        drop(self.laid.try_with(Laying { reservation }, &mut ()));
    }

    /// Lays the unit of a guard there. It takes no memory and waits for nobody: see `lay`.
    pub fn forget(&self, number: usize, unit: Activation, seen: Seen, pass: &mut Pass)
        requires unit { IsUnit seen.name number unit seen × (seen.name.family ≡ self.now) }
        requires pass { pass.old.name.family ≡ self.now }
        ensures none { MakesNone pass.old pass.new }
    {
        let forgotten = Forgotten::one(number, unit, seen);
        drop(self.laid.try_with(Forgetting { forgotten }, pass));
        pass.slots();
    }

    /// Lays this there, where nothing lies. It takes no memory and waits for nobody: see `lay`.
    pub fn put(&self, reservation: Option<Reservation<T>>, forgotten: Option<Forgotten>)
        requires { IfSome reservation (IsLaidFor self.now) × IfSome forgotten (IsForgottenOf self.now) }
    {
        drop(
            self.laid.try_with(
                Putting {
                    reservation,
                    forgotten,
                },
                &mut (),
            ),
        );
    }

    /// Takes out what lies there.
    pub(crate) fn take(&self) -> (Option<Reservation<T>>, Option<Forgotten>)
        ensures { IfSome result.0 (IsLaidFor self.now) × IfSome result.1 (IsForgottenOf self.now) }
    {
        match self.laid.try_with(Taking {}, &mut ()) {
            Ok(laid) => laid,
            Err(_) => (None, None),
        }
    }
}

/// The shelves of a list of events, by the numbers of their slots.
#[derive(Drop)]
pub(crate) struct Shelves<T: Drop> {
    all: Vec<Shelf<T>>,
    alloc: Global,
    /// The list.
    pub(crate) book: Seen,
    ghost of_book: { AreOfFamily book.name.family all.items },
}

impl<T: Drop> Shelves<T> {
    /// None yet.
    pub(crate) fn new(alloc: Global, book: &Seen) -> Shelves<T>
        ensures { result.book.name ≡ book.now.name }
    {
        Shelves {
            all: Vec::new(alloc),
            alloc,
            book: book.again(),
        }
    }

    /// How many there are.
    pub(crate) fn len(&self) -> usize {
        self.all.len()
    }

    /// The shelf of this slot, which is made where it is not there: slots come in order of their numbers.
    ///
    /// # Errors
    ///
    /// `AllocError` where the allocator refuses.
    pub(crate) fn shelf(&mut self, number: usize) -> Result<Shelf<T>, AllocError>
        ensures same { self.new.book ≡ self.old.book }
        ensures shelf { IfOk result (λ shelf. shelf ≡ self.old.book.name.family) }
    {
        if let Some(shelf) = self.all.get(number) {
            return shelf.again();
        }
        self.all.reserve(1)?;
        let shelf = Shelf::new(self.alloc, &self.book)?;
        let other = shelf.again()?;
        self.all.push_reserved(shelf);
        Ok(other)
    }

    /// Takes out what lies on the shelf of this slot.
    pub(crate) fn take(&self, number: usize) -> (Option<Reservation<T>>, Option<Forgotten>)
        ensures { IfSome result.0 (IsLaidFor self.now.book.name.family) × IfSome result.1 (IsForgottenOf self.now.book.name.family) }
    {
        match self.all.get(number) {
            Some(shelf) => shelf.take(),
            None => (None, None),
        }
    }
}
