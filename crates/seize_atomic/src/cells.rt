//! A table of cells. Its calls read and exchange links, and retire what came out. They take a guard of either kind, and the caller's pass,
//! and say which events they made. Like a guard, `Cells` knows its collector by a type with no methods, so no call of it can make a pass of
//! its own.
ghost use Rattle.std.specs.Prelude.{◌≡◌};
ghost use Rattle.seize.specs.Collectors.{its_links};

use crate::attempt::{Missed, attempt};
use seize::{Collector, Failed, Guard, Home, Owned, Pass, Reclaim, Shared, Unlinked};
use std::convert::Infallible;
use std::marker::PhantomData;
use std::sync::Wait;

/// Why a cell was not altered. No exchange of the call was won then.
#[derive(Clone, Copy, PartialEq, Eq, Debug, Drop)]
pub enum NotAltered<E = Infallible> {
    /// The allocator refused a block.
    NoMemory,
    /// All tries were lost: each time another exchange came first.
    Contended,
    /// The function refused, and says why.
    Refused(E),
}

/// The links of a collector, as cells. Whoever has a guard may read and exchange a link beside them. What a call of these takes out of a
/// cell is retired as of kind 0, or of the kind that `of_kind` says; what a cell still holds as the collector ends is of kind 0.
#[derive(Drop)]
pub struct Cells<'c, T: Drop, C: Home<T>> {
    home: &'c C,
    links: usize,
    kind: u64,
    values: PhantomData<T>,
    ghost counted: { links ≡ its_links (C.its_words home.now) },
}

impl<'c, T: Drop, R: Reclaim<T>> Cells<'c, T, Collector<T, R>> {
    ghost use Rattle.seize_atomic.specs.Cells.{cells_home, cells_kind};

    /// The cells of this collector: cell i is link i. It takes no memory.
    pub fn new(collector: &'c Collector<T, R>) -> Cells<'c, T, Collector<T, R>>
        ensures collector { cells_home result ≡ collector.now }
        ensures kind { cells_kind result ≡ 0 }
    {
        Cells {
            home: collector,
            links: collector.links(),
            kind: 0,
            values: PhantomData,
        }
    }
}

impl<'c, T: Drop, C: Home<T>> Cells<'c, T, C> {
    ghost use Rattle.std.specs.Prelude.{◌<◌, ℕ, Option, IfSome};
    ghost use Rattle.seize.specs.Answer.TheVariants.{Link};
    ghost use Rattle.seize.specs.Blocks.{content_of};
    ghost use Rattle.seize.specs.Collectors.{BelongsTo, IsPassOf, its_store};
    ghost use Rattle.seize.specs.Exchanges.{FoundIn, current_name, current_value};
    ghost use Rattle.seize.specs.Links.{IsSharedOf, IsUnlinkedOf, Shows};
    ghost use Rattle.seize.specs.Machine.Event.{ReadLink};
    ghost use Rattle.seize.specs.Makes.{MakesOne};
    ghost use Rattle.seize_atomic.specs.Cells.{IsForCell, PutsCell, ReplacesCell, RetiresOut, cells_home, cells_kind, out_name};
    ghost use Rattle.seize_atomic.specs.Alters.{AltersCell, MayHold, plain};

    /// Their collector.
    pub fn collector(&self) -> &'c C
        ensures { result.now ≡ cells_home self.now }
    {
        self.home
    }

    /// The same cells, whose calls retire what they take out as of this kind. `self` stays as it is.
    pub fn of_kind(&self, kind: u64) -> Cells<'c, T, C>
        ensures collector { cells_home result ≡ cells_home self.now }
        ensures kind { cells_kind result ≡ kind }
    {
        Cells {
            home: self.home,
            links: self.links,
            kind,
            values: PhantomData,
        }
    }

    /// How many cells there are.
    pub fn len(&self) -> usize
        ensures { result ≡ its_links (C.its_words (cells_home self.now)) }
    {
        self.links
    }

    /// What the cell holds, which can be read while the guard is borrowed: `GuardCore::protect` of link i.
    #[inline(always)]
    pub fn read<'g, G: Guard<T, At = C>>(
        &self,
        guard: &'g G,
        i: usize,
        pass: &mut Pass,
    ) -> Option<Shared<'g, T>>
    where
        C: 'g,
        requires of { IsForCell self.now (G.its_collector guard.now) i pass.old }
        ensures { (held : Option ℕ) × MakesOne pass.old pass.new (ReadLink (G.its_slot guard.now) i) (Link held)
            × Shows (G.its_collector guard.now) T.row.coded.code held result × FoundIn (G.its_activation guard.now) held pass.new }
    {
        guard.core().protect(i, pass)
    }

    /// Puts a block into the cell, or empties it, and retires what was there. It says whether anything was.
    ///
    /// With a rule of links it asks that the block may follow whatever the cell holds. It takes no memory, and waits as
    /// `Guard::defer_retire` does.
    #[inline(always)]
    pub fn put<G: Guard<T, At = C>, W: Wait>(
        &self,
        rt: &W,
        guard: &G,
        i: usize,
        new: Option<Owned<T>>,
        pass: &mut Pass,
    ) -> bool
        requires of { IsForCell self.now (G.its_collector guard.now) i pass.old }
        requires value { IfSome new (λ owned. BelongsTo G.Reclaimer.owners (G.its_collector guard.now) owned) }
        requires rule { (x : Option T) → G.Reclaimer.keeps i x (content_of new) }
        ensures puts { PutsCell T.row.coded.code (G.its_slot guard.now) i (cells_kind self.now) new pass.old pass.new result }
        ensures pass { IsPassOf (G.its_collector guard.now) pass.new }
    {
        let out = guard.core().swap(i, new, pass);
        let was = out.is_some();
        self.retire(rt, guard, out, pass);
        was
    }

    /// Puts a block into the cell, or empties it, where the cell holds `current` still, and retires that. `None` for `current` is an empty
    /// cell. Another guard of the collector may have found it.
    ///
    /// It takes no memory, and waits as `Guard::defer_retire` does.
    ///
    /// # Errors
    ///
    /// What the cell held, where that was something else, and the block that was to go in.
    #[inline(always)]
    pub fn replace<'g, G: Guard<T, At = C>, W: Wait>(
        &self,
        rt: &W,
        guard: &'g G,
        i: usize,
        current: Option<&Shared<'_, T>>,
        new: Option<Owned<T>>,
        pass: &mut Pass,
    ) -> Result<(), Failed<'g, T>>
    where
        C: 'g,
        requires of { IsForCell self.now (G.its_collector guard.now) i pass.old }
        requires value { IfSome new (λ owned. BelongsTo G.Reclaimer.owners (G.its_collector guard.now) owned) }
        requires current { IfSome current (λ shared. IsSharedOf T.row.coded.code (G.its_collector guard.now) shared.now) }
        requires rule { G.Reclaimer.keeps i (current_value current) (content_of new) }
        ensures replaces { ReplacesCell T.row.coded.code (G.its_collector guard.now) (G.its_slot guard.now) (G.its_activation guard.now) i
            (cells_kind self.now) (current_name current.entry) new pass.old pass.new result }
        ensures pass { IsPassOf (G.its_collector guard.now) pass.new }
    {
        let out = guard.core().compare_exchange(i, current, new, pass)?;
        self.retire(rt, guard, out, pass);
        Ok(())
    }

    /// Puts what `f` makes of the cell's value into the cell, and retires what was there. `f` is given the value, or `None` where the cell
    /// is empty, and answers what the cell is to hold: see `alter`.
    ///
    /// # Errors
    ///
    /// `NoMemory` and `Contended`, as `alter`.
    pub fn update<G: Guard<T, At = C>, W: Wait, F: Fn(Option<&T>) -> Option<T>>(
        &self,
        rt: &W,
        guard: &G,
        i: usize,
        f: F,
        tries: u32,
        pass: &mut Pass,
    ) -> Result<(), NotAltered>
    where
        F: Drop,
        requires of { IsForCell self.now (G.its_collector guard.now) i pass.old }
        requires callable { F.IsAlwaysCallable f }
        requires may_hold { MayHold (plain (F.post f)) G.Reclaimer.keeps G.Reclaimer.owners (its_store (G.its_collector guard.now)) i }
        ensures alters { AltersCell (plain (F.post f)) T.row.coded.code (G.its_slot guard.now) i (cells_kind self.now) tries
            pass.old pass.new result }
        ensures pass { IsPassOf (G.its_collector guard.now) pass.new }
    {
        let always = move |value: Option<&T>| -> Result<(Option<T>, ()), Infallible>
            requires { F.IsAlwaysCallable f }
            ensures { plain (F.post f) value.entry result }
        { Ok((f(value), ())) };
        self.alter(rt, guard, i, always, tries, pass)
    }

    /// Puts what `f` makes of the cell's value into the cell, and retires what was there. `f` is given the value, or `None` where the cell
    /// is empty. It answers what the cell is to hold, with something for the caller; or it refuses. Where another exchange came first, it
    /// is given what that one put, and so on.
    ///
    /// It reads the cell once, and exchanges it `tries` times at most, also where `f` answers the same value. A block takes memory where no
    /// place of the slot's own is free. A block that did not go in ends by the `Drop` of its value, within the call. It waits as
    /// `Guard::defer_retire` does.
    ///
    /// # Errors
    ///
    /// `Refused` where `f` refuses, `NoMemory` where a block is refused, and `Contended` where all tries were lost: at once where `tries`
    /// is 0.
    pub fn alter<
        G: Guard<T, At = C>,
        W: Wait,
        A: Drop,
        E,
        F: Fn(Option<&T>) -> Result<(Option<T>, A), E>,
    >(
        &self,
        rt: &W,
        guard: &G,
        i: usize,
        f: F,
        tries: u32,
        pass: &mut Pass,
    ) -> Result<A, NotAltered<E>>
    where
        F: Drop,
        requires of { IsForCell self.now (G.its_collector guard.now) i pass.old }
        requires callable { F.IsAlwaysCallable f }
        requires may_hold { MayHold (F.post f) G.Reclaimer.keeps G.Reclaimer.owners (its_store (G.its_collector guard.now)) i }
        ensures alters { AltersCell (F.post f) T.row.coded.code (G.its_slot guard.now) i (cells_kind self.now) tries
            pass.old pass.new result }
        ensures pass { IsPassOf (G.its_collector guard.now) pass.new }
    {
        let mut found = guard.core().protect(i, pass);
        let mut left = tries;
        while left > 0 {
            left -= 1;
            match attempt(guard, i, &f, found, pass) {
                Ok((out, answer)) => {
                    self.retire(rt, guard, out, pass);
                    return Ok(answer);
                }
                Err(Missed::NoMemory) => return Err(NotAltered::NoMemory),
                Err(Missed::Refused(why)) => return Err(NotAltered::Refused(why)),
                Err(Missed::Lost(other)) => found = other,
            }
        }
        Err(NotAltered::Contended)
    }

    // Retires what came out of a cell, if anything did.
    #[inline(always)]
    fn retire<G: Guard<T, At = C>, W: Wait>(
        &self,
        rt: &W,
        guard: &G,
        out: Option<Unlinked<'_, T>>,
        pass: &mut Pass,
    )
        requires of { IsPassOf (G.its_collector guard.now) pass.old × IfSome out (IsUnlinkedOf (G.its_collector guard.now)) }
        ensures retires { RetiresOut (G.its_slot guard.now) (cells_kind self.now) (out_name out.entry) pass.old pass.new }
        ensures pass { IsPassOf (G.its_collector guard.now) pass.new }
    {
        if let Some(old) = out {
            guard.defer_retire_as(rt, pass, old, self.kind);
        }
    }
}
