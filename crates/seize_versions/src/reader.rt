//! A reader, which knows the newest number that it read or published. By the rule of versions each later reading finds no older one,
//! whatever other threads do in between. It has a guard of its own and a pass, and knows by its type that they are of the cell's collector.
ghost use Rattle.std.specs.Prelude.{◌≡◌, IfErr, IfOk, option_copied, option_map};
ghost use Rattle.seize.specs.Guards.{owned_collector};
ghost use Rattle.seize.specs.Links.{shared_value};
ghost use Rattle.seize_versions.specs.Reached.{HoldsAtLeast};
ghost use Rattle.seize_versions.specs.Versions.{IsForVersions};

use crate::version::{ByNumber, Named, NotPublished, Version, number};
use crate::versions::Versions;
use seize::{Collector, Home, OwnedGuard, Pass, Refusal, Shared};
use std::sync::Wait;

/// A reader of a cell of versions. It is spent by `leave`, or by `into_parts`.
///
/// While it stands, nothing ends that it may have found: a reader that lives for long calls `refresh` now and then. A struct that holds
/// one, for any `T`, repeats its bounds.
pub struct Reader<'v, 'c, T: Drop>
where
    Version<T>: Named,
    Collector<Version<T>, ByNumber>: Home<Version<T>>,
{
    versions: &'v Versions<'c, T, Collector<Version<T>, ByNumber>>,
    guard: OwnedGuard<'c, Version<T>, ByNumber>,
    pass: Pass<'c>,
    newest: u64,
    ghost of: { IsForVersions versions.now (owned_collector guard) pass },
    ghost reached: { ∥ HoldsAtLeast versions.now ⟦<Version<T> as Named>⟧.code newest pass ∥₁ },
}

impl<'c, T: Drop> Versions<'c, T, Collector<Version<T>, ByNumber>> {
    ghost use Rattle.seize_book.specs.declared.book.pass.Pass.{Pass as a_pass};
    ghost use Rattle.seize_table.specs.declared.refusal.Refusal.TheVariants.{NoMemory as no_memory};
    ghost use Rattle.seize.specs.Collectors.{IsPassOf};
    ghost use Rattle.seize.specs.Guards.{owned_slot};
    ghost use Rattle.seize.specs.Makes.{MakesNone};
    ghost use Rattle.seize_versions.specs.Reached.{KeepsToRule};
    ghost use Rattle.seize_versions.specs.Readers.{BeginsReader, reader_newest, reader_versions};
    ghost use Rattle.seize_versions.specs.Versions.{ReadsVersion, versions_words};
    ghost use Rattle.seize_versions.specs.contracts.version.Version.{the_row};

    // A look at the list, by which the rule is known of what the pass has seen.
    fn know(&self, pass: &mut Pass)
        requires of { IsPassOf (versions_words self.now) pass.old }
        ensures none { MakesNone pass.old pass.new }
        ensures rule { KeepsToRule self.now (the_row T.row).coded.code pass.new }
    {
        self.collector().laws(pass);
    }

    // A reading, and then such a look.
    fn look<'g>(
        &self,
        guard: &'g OwnedGuard<'c, Version<T>, ByNumber>,
        pass: &mut Pass,
    ) -> Option<&'g Version<T>>
        requires of { IsForVersions self.now (owned_collector guard.now) pass.old }
        ensures reads { ReadsVersion self.now (the_row T.row).coded.code (owned_slot guard.now) pass.old pass.new
            (option_copied result) }
        ensures rule { KeepsToRule self.now (the_row T.row).coded.code pass.new }
        ensures pass { IsPassOf (owned_collector guard.now) pass.new }
    {
        let found = self.read(guard, pass);
        self.know(pass);
        version_of(found)
    }

    /// A reader of the cell, which saw nothing yet. It has a slot of its own, and waits and takes memory as `Collector::enter_owned` does.
    ///
    /// # Errors
    ///
    /// `NoMemory` as `Collector::enter_owned`.
    pub fn reader<W: Wait>(&self, rt: &W) -> Result<Reader<'_, 'c, T>, Refusal>
        ensures made { IfOk result (λ reader. (reader_versions reader ≡ self.now) × (reader_newest reader ≡ 0)) }
        ensures begins { IfOk result (λ reader. (by : a_pass) × BeginsReader (the_row T.row).coded.code by reader) }
        ensures refused { IfErr result (λ refusal. refusal ≡ no_memory) }
    {
        let collector = self.collector();
        let mut pass = collector.pass();
        let guard = collector.enter_owned(rt, &mut pass)?;
        self.know(&mut pass);
        Ok(Reader {
            versions: self,
            guard,
            pass,
            newest: 0,
        })
    }
}

impl<'v, 'c, T: Drop> Reader<'v, 'c, T> {
    ghost use denote.Bor.{Bor};
    ghost use Rattle.std.specs.Prelude.{◌≤◌, Option};
    ghost use Rattle.seize.specs.Collectors.{IsPassOf};
    ghost use Rattle.seize.specs.Guards.{owned_slot};
    ghost use Rattle.seize_versions.specs.Numbers.{number_of};
    ghost use Rattle.seize_versions.specs.Reached.{KnowsThen};
    ghost use Rattle.seize_versions.specs.Readers.{IsSameReader, LeavesOn, PublishesOn, ReadsOn, RefreshesOn, reader_newest, reader_pass, reader_slot, reader_versions};
    ghost use Rattle.seize_versions.specs.Versions.{Publishes, ReadsVersion, versions_words};
    ghost use Rattle.seize_versions.specs.contracts.version.Version.{the_row};
    ghost use Rattle.seize_versions.specs.declared.version.Version.{Version as a_version};

    /// The newest number that it read or published, and 0 where there is none. A publication that was not made adds nothing.
    pub fn newest(&self) -> u64
        ensures { result ≡ reader_newest self.now }
    {
        self.newest
    }

    /// What `f` makes of the version that the cell holds, or of `None` where it is empty. The version is no older than what the reader saw
    /// before, and can be read for as long as `f` runs. But for `f`, it takes no memory, and waits for nobody.
    pub fn read_with<A, F: FnOnce(Option<&Version<T>>) -> A>(&mut self, f: F) -> A
        requires callable { F.IsAlwaysCallable f }
        ensures same { IsSameReader self.old self.new }
        ensures reads { (x : Option (a_version T)) × ReadsOn (the_row T.row).coded.code self.old self.new x
            × ((found : Option (Bor (a_version T))) × (option_copied found ≡ x) × F.post f found result) }
    {
        let version = self.versions.look(&self.guard, &mut self.pass);
        self.newest = number(version);
        f(version)
    }

    /// A copy of the version that the cell holds, if there is one. It is no older than what the reader saw before. It takes no memory, and
    /// waits for nobody.
    pub fn read(&mut self) -> Option<Version<T>>
    where
        T: Copy,
        ensures same { IsSameReader self.old self.new }
        ensures reads { ReadsVersion (reader_versions self.old) (the_row T.row).coded.code (reader_slot self.old) (reader_pass self.old)
            (reader_pass self.new) result }
        ensures no_older { reader_newest self.old ≤ number_of result }
        ensures newest { reader_newest self.new ≡ number_of result }
    {
        let version = self.versions.look(&self.guard, &mut self.pass);
        self.newest = number(version);
        version.copied()
    }

    /// Publishes a version: see `Versions::publish`, also for what it takes. Its number is greater than each that it read or published.
    ///
    /// # Errors
    ///
    /// As `Versions::publish`.
    pub fn publish<W: Wait, E, F: Fn(Option<&T>) -> Result<T, E>>(
        &mut self,
        rt: &W,
        f: F,
        tries: u32,
    ) -> Result<u64, NotPublished<E>>
    where
        F: Drop,
        requires callable { F.IsAlwaysCallable f }
        ensures same { IsSameReader self.old self.new }
        ensures newer { KnowsThen (reader_newest self.old) (reader_newest self.new) result }
        ensures publishes { Publishes (reader_versions self.old) (the_row T.row).coded.code (F.post f) (reader_slot self.old)
            (reader_pass self.old) (reader_pass self.new) result }
        ensures alters { PublishesOn (the_row T.row).coded.code (F.post f) tries self.old self.new result }
    {
        let published = self
            .versions
            .publish(rt, &self.guard, f, tries, &mut self.pass);
        self.versions.know(&mut self.pass);
        self.newest = newest_then(self.newest, &published);
        published
    }

    /// Lets go of what it has found: its guard refreshes, so values may end (`OwnedGuard::refresh`). It still knows its newest number.
    pub fn refresh<W: Wait>(&mut self, rt: &W)
        ensures same { IsSameReader self.old self.new }
        ensures newest { reader_newest self.new ≡ reader_newest self.old }
        ensures refreshes { RefreshesOn (the_row T.row).coded.code self.old self.new }
    {
        self.guard.refresh(rt, &mut self.pass);
        self.versions.know(&mut self.pass);
    }

    /// Ends the reader: its guard leaves, and its slot ends: see `OwnedGuard::leave`, also for what it waits for, and for what ends in it.
    pub fn leave<W: Wait>(self, rt: &W)
        ensures { LeavesOn (the_row T.row).coded.code self.entry }
    {
        let Reader {
            versions: _,
            guard,
            mut pass,
            newest: _,
        } = self;
        guard.leave(rt, &mut pass);
    }

    /// Ends the reader: its guard, which is to leave, and the pass, which has seen all that the reader did. The pass still shows
    /// that the cell has reached the newest number.
    pub fn into_parts(self) -> (OwnedGuard<'c, Version<T>, ByNumber>, Pass<'c>)
        ensures of { IsPassOf (owned_collector result.0) result.1
            × (owned_collector result.0 ≡ versions_words (reader_versions self.entry)) }
        ensures parts { (owned_slot result.0 ≡ reader_slot self.entry) × (result.1 ≡ reader_pass self.entry) }
        ensures reached { ∥ HoldsAtLeast (reader_versions self.entry) (the_row T.row).coded.code (reader_newest self.entry) result.1 ∥₁ }
    {
        let Reader {
            versions: _,
            guard,
            pass,
            newest: _,
        } = self;
        (guard, pass)
    }
}

// The version that was found.
fn version_of<'g, T: Drop>(found: Option<Shared<'g, Version<T>>>) -> Option<&'g Version<T>>
    ensures { option_copied result ≡ option_map shared_value found.entry }
{
    match found {
        Some(shared) => Some(shared.get()),
        None => None,
    }
}

// The newest number that is known after a publication.
fn newest_then<E>(newest: u64, published: &Result<u64, E>) -> u64
    ensures made { IfOk published.now (λ n. result ≡ n) }
    ensures not_made { IfErr published.now (λ _. result ≡ newest) }
{
    match published {
        Ok(number) => *number,
        Err(_) => newest,
    }
}
