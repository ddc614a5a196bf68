//! The cell: one link of a collector of versions. A reading is one read of it, and a publication one won exchange. So each has one moment
//! of the list of all events, at which the cell is what the contract says.
ghost use Rattle.std.specs.Prelude.{◌≡◌, ◌<◌, option_copied, option_map};
ghost use Rattle.seize.specs.Collectors.{its_links};
ghost use Rattle.seize_atomic.specs.Cells.{cells_home};

use crate::version::{Made, NotPublished, Version, next, settled};
use seize::{Collector, Guard, Home, Pass, Reclaim, Shared};
use seize_atomic::cells::Cells;
use std::sync::Wait;

/// A cell of versions that threads share: a link of a collector. Its readers take no lock, and wait for nobody. Whoever has a guard may
/// exchange the link beside it; by the rule of `ByNumber` only for a version whose number is greater.
#[derive(Drop)]
pub struct Versions<'c, T: Drop, C: Home<Version<T>>> {
    pub(crate) cells: Cells<'c, Version<T>, C>,
    pub(crate) cell: usize,
    ghost there: { cell < its_links (C.its_words (cells_home cells)) },
}

impl<'c, T: Drop, R: Reclaim<Version<T>>> Versions<'c, T, Collector<Version<T>, R>> {
    ghost use Rattle.seize.specs.Collectors.{its_words};
    ghost use Rattle.seize_versions.specs.Versions.{versions_cell, versions_home, versions_kind};

    /// The cell that is link 0 of this collector, which has at least one link. It is empty where the link is. It takes no memory.
    pub fn new(collector: &'c Collector<Version<T>, R>) -> Versions<'c, T, Collector<Version<T>, R>>
        requires there { 0 < its_links (its_words collector.now) }
        ensures { (versions_home result ≡ collector.now) × (versions_cell result ≡ 0) × (versions_kind result ≡ 0) }
    {
        Versions::at(collector, 0)
    }

    /// The cell that is this link of the collector, which has more links than `cell`. It takes no memory.
    pub fn at(
        collector: &'c Collector<Version<T>, R>,
        cell: usize,
    ) -> Versions<'c, T, Collector<Version<T>, R>>
        requires there { cell < its_links (its_words collector.now) }
        ensures { (versions_home result ≡ collector.now) × (versions_cell result ≡ cell) × (versions_kind result ≡ 0) }
    {
        Versions {
            cells: Cells::new(collector),
            cell,
        }
    }
}

impl<'c, T: Drop, C: Home<Version<T>>> Versions<'c, T, C> {
    ghost use Rattle.std.specs.Prelude.{IfSome};
    ghost use Rattle.seize.specs.Collectors.{IsPassOf, its_store};
    ghost use Rattle.seize.specs.Links.{IsSharedOf, shared_value};
    ghost use Rattle.seize_versions.specs.Numbers.{MakesNext, MayPublish};
    ghost use Rattle.seize_versions.specs.Versions.{AltersVersion, IsForVersions, Publishes, ReadsVersion, versions_cell, versions_home};
    ghost use Rattle.seize_versions.specs.contracts.version.Version.{the_row};

    /// Its collector, by which threads register, and get guards and passes.
    pub fn collector(&self) -> &'c C
        ensures { result.now ≡ versions_home self.now }
    {
        self.cells.collector()
    }

    /// The version that the cell holds, for as long as the guard is borrowed. It takes no memory, and waits for nobody.
    pub fn read<'g, G: Guard<Version<T>, At = C>>(
        &self,
        guard: &'g G,
        pass: &mut Pass,
    ) -> Option<Shared<'g, Version<T>>>
    where
        C: 'g,
        requires of { IsForVersions self.now (G.its_collector guard.now) pass.old }
        ensures reads { ReadsVersion self.now (the_row T.row).coded.code (G.its_slot guard.now) pass.old pass.new
            (option_map shared_value result) }
        ensures of { IfSome result (IsSharedOf (the_row T.row).coded.code (G.its_collector guard.now)) }
        ensures pass { IsPassOf (G.its_collector guard.now) pass.new }
    {
        self.cells.read(guard, self.cell, pass)
    }

    /// Puts the next version into the cell, and gives its number: one more than that of the version whose place it takes, or 1. Its value
    /// is what `f` makes of that version's value, or of `None` where the cell is empty. `f` may refuse. Where another exchange came
    /// first, `f` is given what that one put: so it tries `tries` times at most, and `u32::MAX` is as good as no limit.
    ///
    /// A try takes memory for a block where no place of the slot's own is free. A value that did not go in ends within the call. The
    /// version that came out is retired as of kind 0, and so the call waits as `Guard::defer_retire` does.
    ///
    /// # Errors
    ///
    /// `Refused` where `f` refuses. `LastNumber` where the number is `u64::MAX`: then `f` is not called. `NoMemory` where a block is
    /// refused, and `Contended` where all tries were lost, at once where `tries` is 0.
    pub fn publish<G: Guard<Version<T>, At = C>, W: Wait, E, F: Fn(Option<&T>) -> Result<T, E>>(
        &self,
        rt: &W,
        guard: &G,
        f: F,
        tries: u32,
        pass: &mut Pass,
    ) -> Result<u64, NotPublished<E>>
    where
        F: Drop,
        requires of { IsForVersions self.now (G.its_collector guard.now) pass.old }
        requires callable { F.IsAlwaysCallable f }
        requires rule { MayPublish G.Reclaimer.keeps G.Reclaimer.owners (its_store (G.its_collector guard.now)) (versions_cell self.now) }
        ensures publishes { Publishes self.now (the_row T.row).coded.code (F.post f) (G.its_slot guard.now) pass.old pass.new result }
        ensures alters { AltersVersion self.now (the_row T.row).coded.code (F.post f) (G.its_slot guard.now) tries pass.old pass.new
            result }
        ensures pass { IsPassOf (G.its_collector guard.now) pass.new }
    {
        let made = move |version: Option<&Version<T>>| -> Made<T, E>
            requires { F.IsAlwaysCallable f }
            ensures { MakesNext (F.post f) version.entry result }
        { next(version, &f) };
        settled(self.cells.alter(rt, guard, self.cell, made, tries, pass))
    }
}
