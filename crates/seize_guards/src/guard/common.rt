//! What guards of both kinds have: the collector, the slot's number, and a unit of the slot's activation, with which links are read and
//! exchanged. No lock is taken for that.
ghost use Rattle.std.specs.Prelude.{◌≡◌};
ghost use base.Growing.{prefix_prop};
ghost use base.Stored.{Coded-set, coded_list};
ghost use mathlib.Core.List.{IsPrefix};
ghost use Rattle.seize_book.specs.Entry.{entry_coded};
ghost use Rattle.seize_words.specs.Joined.{words_book};
ghost use Rattle.seize_guards.specs.Collectors.{BelongsTo};
ghost use Rattle.seize_parts.specs.Reservations.{IsUnitIn};

use crate::block::{Failed, Owned, Shared, Unlinked, add_block, name, show};
use crate::guard::exchanging::{came_back, current_word, exchange, learn_current, shown};
use crate::parts::{Home, Parts};
use seize_parts::reclaim::Reclaim;
use seize_table::Refusal;
use seize_words::activation::Activation;
use seize_words::book::{Pass, Seen};
use seize_words::lasting::Lasting;
use std::marker::Brand;

/// What a guard reads and exchanges links with, the same for both kinds. Each guard derefs to its core, so `guard.protect(..)` is a call of
/// this type. Code that serves any guard takes `&GuardCore`.
///
/// A core can be shared between threads, as an owned guard can: its calls read and exchange links, and leave the slot's batch alone.
#[derive(Drop)]
pub struct GuardCore<'c, T: Drop, R: Reclaim<T>, C: Home<T>> {
    // The collector, for who asks for it.
    pub(crate) home: &'c C,
    // What it lends to its slots.
    pub(crate) parts: &'c Parts<T, R>,
    // The number of the slot.
    pub(crate) number: usize,
    // The guard's unit of the slot's activation.
    pub(crate) unit: Activation,
    // What was seen when the activation had begun.
    pub(crate) seen: Seen,
    ghost homed: { parts.now.words ≡ C.its_words home.now },
    ghost its: { IsUnitIn (words_book parts.now.words) number unit seen },
    ghost known: { IsPrefix unit.since seen.seen } by { prefix_prop (Coded-set (coded_list entry_coded)) unit.since seen.seen },
}

impl<'c, T: Drop, R: Reclaim<T>, C: Home<T>> GuardCore<'c, T, R, C> {
    ghost use Rattle.std.specs.Prelude.{◌<◌, ℕ, Option, IfErr, IfOk, IfSome};
    ghost use Rattle.seize_machine.specs.Machine.Event.{ExchangeLink, ReadLink};
    ghost use Rattle.seize_machine.specs.declared.machine.event.Answer.TheVariants.{Link};
    ghost use Rattle.seize_machine.specs.declared.machine.event.Exchange.TheVariants.{Swap};
    ghost use Rattle.seize_table.specs.declared.refusal.Refusal.TheVariants.{NoMemory as no_memory};
    ghost use Rattle.seize_calls.specs.Slots.{IsPassOf};
    ghost use Rattle.seize_parts.specs.Blocks.{IsNamed, content, content_of};
    ghost use Rattle.seize_guards.specs.Links.{ComesOut, IsSharedOf, IsUnlinkedOf, Shows};
    ghost use Rattle.seize_guards.specs.Collectors.{IsBlockOf, its_links};
    ghost use Rattle.seize_guards.specs.Exchanges.{FoundIn, MakesExchange, Protects, current_name, current_value};
    ghost use Rattle.seize_guards.specs.Guards.{core_activation, core_collector, core_home, core_slot};
    ghost use Rattle.seize_parts.specs.Makes.{MakesNone, MakesOne};

    /// The collector.
    #[inline(always)]
    pub fn collector(&self) -> &'c C
        ensures { (result.now ≡ core_home self.now) × (C.its_words result.now ≡ core_collector self.now) }
    {
        self.home
    }

    /// The number of the guard's slot. All threads that share an owned guard have the same one.
    #[inline(always)]
    pub fn thread_id(&self) -> usize
        ensures { result ≡ core_slot self.now }
    {
        self.number
    }

    /// A block of this value, as the collector's `owned` makes it.
    ///
    /// # Errors
    ///
    /// `NoMemory` where the store could not grow; the value comes back.
    pub fn owned(&self, value: T) -> Result<Owned<T>, (Refusal, T)>
        ensures made { IfOk result (λ owned. IsBlockOf (core_collector self.now) owned × (content owned ≡ value)) }
        ensures refused { IfErr result (λ refused. (refused.0 ≡ no_memory) × (refused.1 ≡ value)) }
    {
        add_block(&self.parts.words, value)
    }

    /// Reads a link: the event `ReadLink`. What the link holds can be read for as long as the guard is borrowed: other threads may take it
    /// out of the link meanwhile, and retire it.
    ///
    /// It takes no memory and no lock, and waits for nobody: one load of the link, and where that holds a block three more to find it.
    #[inline(always)]
    pub fn protect(&self, link: usize, pass: &mut Pass) -> Option<Shared<'_, T>>
        requires of { IsPassOf (core_collector self.now) pass.old × (link < its_links (core_collector self.now)) }
        ensures { (held : Option ℕ) × MakesOne pass.old pass.new (ReadLink (core_slot self.now) link) (Link held)
            × Shows (core_collector self.now) T.row.coded.code held result × FoundIn (core_activation self.now) held pass.new }
    {
        pass.learn(&self.seen);
        let (word, found) = self.parts.words.find(link, &self.unit, pass);
        let found = found?;
        let lasting = Lasting::of(&self.unit, pass);
        Some(show(found.value, word, found.glimpse, lasting))
    }

    /// The pass looks at the list of events. No value that this guard found since it entered or refreshed, as the pass has seen, is
    /// reclaimed in what it sees then. It may see values there that this guard found, and that others retired since.
    ///
    /// It makes no event, and does nothing when the program runs: its contract is the law.
    #[inline(always)]
    pub fn protected(&self, pass: &mut Pass)
        requires of { IsPassOf (core_collector self.now) pass.old }
        ensures none { MakesNone pass.old pass.new }
        ensures protects { Protects (core_activation self.now) pass.new }
    {
        pass.slots();
        self.unit.lasts(pass);
    }

    /// Exchanges what a link holds for this block, or for none: the event `ExchangeLink`. It gives what the link held, which may outlive
    /// the guard, and is to be retired. The rule of the collector's links has to let the new content follow whatever is there.
    ///
    /// It takes no memory and no lock, and waits for nobody: one load to find the link, one atomic swap, and the look-up of the new block.
    #[inline(always)]
    pub fn swap(
        &self,
        link: usize,
        value: Option<Owned<T>>,
        pass: &mut Pass,
    ) -> Option<Unlinked<'c, T>>
        requires of { IsPassOf (core_collector self.now) pass.old × (link < its_links (core_collector self.now)) }
        requires value { IfSome value (λ owned. BelongsTo R.owners (core_collector self.now) owned) }
        requires rule { (x : Option T) → R.keeps link x (content_of value) }
        ensures of { IfSome result (IsUnlinkedOf (core_collector self.now)) }
        ensures made { (new : Option ℕ) × (held : Option ℕ) × IsNamed T.row.coded.code value new × ComesOut held result
            × MakesOne pass.old pass.new (ExchangeLink (core_slot self.now) link (Swap new)) (Link held)
            × FoundIn (core_activation self.now) held pass.new }
    {
        let parts = self.parts;
        let words = &parts.words;
        pass.learn(&self.seen);
        let (new, mut key) = name(value, words, parts.ender(), pass);
        let permit = parts.ender().for_swap(link, &key, pass);
        let old = words.swap_link(link, new, &mut key, &self.unit, pass, &permit);
        Unlinked::found(words, old, key)
    }

    /// Exchanges what a link holds for this block, or for none, if the link holds what was found, or nothing where that is `None`: the
    /// event `ExchangeLink`. It gives what the link held, which may outlive the guard, and is to be retired. What was found is of this
    /// collector.
    ///
    /// A won exchange took out just what was found, whoever found it: it stands while `current` is there, so its block has no other value.
    /// The rule of the collector's links has to let the new content follow what was found (`Puts::keeps`).
    ///
    /// It takes no memory and no lock, and waits for nobody: one atomic compare and exchange, and look-ups of the blocks.
    ///
    /// # Errors
    ///
    /// What the link held, where that was something else, and the block that was to go in.
    #[inline(always)]
    pub fn compare_exchange(
        &self,
        link: usize,
        current: Option<&Shared<'_, T>>,
        new: Option<Owned<T>>,
        pass: &mut Pass,
    ) -> Result<Option<Unlinked<'c, T>>, Failed<'_, T>>
        requires of { IsPassOf (core_collector self.now) pass.old × (link < its_links (core_collector self.now)) }
        requires value { IfSome new (λ owned. BelongsTo R.owners (core_collector self.now) owned) }
        requires current { IfSome current (λ shared. IsSharedOf T.row.coded.code (core_collector self.now) shared.now) }
        requires rule { R.keeps link (current_value current) (content_of new) }
        ensures { MakesExchange T.row.coded.code (core_collector self.now) (core_slot self.now) (core_activation self.now) link
            (current_name current.entry) new pass.old pass.new result }
    {
        let parts = self.parts;
        let words = &parts.words;
        learn_current(current, pass);
        pass.learn(&self.seen);
        let (word, mut key) = name(new, words, parts.ender(), pass);
        let expected = current_word(current);
        let (old, glimpse) = exchange::<T, R, Brand, C>(self, link, current, word, &mut key, pass);
        if old == expected {
            return Ok(Unlinked::found(words, old, key));
        }
        let found = shown(words, old, glimpse, &self.unit, pass);
        let new = came_back(words, word, key, pass);
        Err(Failed { found, new })
    }

    /// The same: a try is lost only to another content, so the weak form has no other failure.
    #[inline(always)]
    pub fn compare_exchange_weak(
        &self,
        link: usize,
        current: Option<&Shared<'_, T>>,
        new: Option<Owned<T>>,
        pass: &mut Pass,
    ) -> Result<Option<Unlinked<'c, T>>, Failed<'_, T>>
        requires of { IsPassOf (core_collector self.now) pass.old × (link < its_links (core_collector self.now)) }
        requires value { IfSome new (λ owned. BelongsTo R.owners (core_collector self.now) owned) }
        requires current { IfSome current (λ shared. IsSharedOf T.row.coded.code (core_collector self.now) shared.now) }
        requires rule { R.keeps link (current_value current) (content_of new) }
        ensures { MakesExchange T.row.coded.code (core_collector self.now) (core_slot self.now) (core_activation self.now) link
            (current_name current.entry) new pass.old pass.new result }
    {
        self.compare_exchange(link, current, new, pass)
    }
}
