//! The reclaimer of a collector, with the two lists of its book: the codes that may be lent with values, which are those of contents that
//! the reclaimer may be given; and the pairs of contents that its rule of links allows.
ghost use Rattle.std.specs.Prelude.{◌≡◌};
ghost use Rattle.seize_book.specs.Pairs.{IsPairOf};
ghost use Rattle.seize_parts.specs.Blocks.{HoldsOnly};
ghost use Rattle.seize_parts.specs.Rules.{KeepsNumbers};

use crate::reclaim::{Puts, Reclaim};
use seize_words::book::{Condition, Pass, Permit, Permits, Permitted, Porter};
use seize_words::link::{Expects, MaybeKey};
use seize_words::permits::{for_exchange, for_swap};
use std::marker::PhantomData;

/// A code is that of a value of type `T`, and each block inside that value lies in this store.
pub struct Fit<T, R> {
    of: PhantomData<T>,
    by: PhantomData<R>,
}

impl<T, R: Puts<T>> Condition for Fit<T, R> {
    ghost holds = { λ store g. (x : T) × (T.row.coded.code x ≡ g) × HoldsOnly R.owners store x };
}

/// A code is that of a pair which the reclaimer's rule of links allows.
pub struct Allowed<T, R> {
    of: PhantomData<T>,
    by: PhantomData<R>,
}

impl<T, R: Puts<T>> Condition for Allowed<T, R> {
    ghost holds = { λ _ g. IsPairOf (KeepsNumbers T.row.coded.code R.keeps) g };
}

/// The reclaimer, and the lists.
#[derive(Drop)]
pub struct Ender<T: Drop, R: Reclaim<T>> {
    /// The reclaimer.
    pub reclaimer: R,
    /// The codes that may be lent.
    pub permits: Permits<Fit<T, R>>,
    /// The pairs, before and after, that links may go through.
    pub pairs: Permits<Allowed<T, R>>,
}

impl<T: Drop, R: Reclaim<T>> Ender<T, R> {
    ghost use Rattle.std.specs.Prelude.{Option, false};
    ghost use Rattle.seize_book.specs.Pairs.{content_number};
    ghost use Rattle.seize_book.specs.Passes.{LooksOn};
    ghost use Rattle.seize_parts.specs.Laws.{HaveContents};
    ghost use Rattle.seize_words.specs.LinkWords.{IsPermittedExchange, IsPermittedSwap, value_held};
    ghost use Rattle.seize_parts.specs.Enders.{IsEnderIn};
    ghost use Rattle.seize_parts.specs.Rules.{HoldsOf, KeepsSince, number_if};

    /// The permit for a swap, which puts the value of this key into a link, or none. The rule allows that whatever the link holds. It does
    /// nothing when the program runs.
    pub fn for_swap(&self, link: usize, key: &MaybeKey, pass: &Pass) -> Permit
        requires ender { IsEnderIn pass.now.name self.now }
        requires rule { (x : Option T) → HoldsOf T.row.coded.code (R.keeps link x) (value_held key.now) }
        ensures { IsPermittedSwap link key.now pass.now result }
    {
        for_swap(&self.pairs, link, key, pass)
    }

    /// The permit for an exchange that compares. The rule allows it where the link holds what is expected (`E`).
    pub fn for_exchange<E: Expects>(&self, link: usize, key: &MaybeKey, pass: &Pass) -> Permit
        requires ender { IsEnderIn pass.now.name self.now }
        requires rule { (x : Option T) → content_number E.current ≡ number_if T.row.coded.code x
            → HoldsOf T.row.coded.code (R.keeps link x) (value_held key.now) }
        ensures { IsPermittedExchange link key.now pass.now E.current result }
    {
        for_exchange::<Allowed<T, R>, E>(&self.pairs, link, key, pass)
    }

    /// The pass looks at the list, and adds nothing. What may be lent with values is what the condition says (`Fit`); and of the exchanges
    /// that it has seen and the porter has not, each that was won meets the rule. It does nothing when the program runs: its contract is
    /// the law.
    pub fn look(&self, porter: &Porter, pass: &mut Pass)
        requires ender { IsEnderIn pass.old.name self.now }
        requires shared { porter.now.home ≡ false }
        requires book { pass.old.name ≡ porter.now.name }
        ensures looks { LooksOn pass.old pass.new }
        ensures contents { HaveContents T.row.coded.code pass.new }
        ensures rule { KeepsSince T.row.coded.code R.keeps porter.now.seen pass.new }
    {
        let Permitted { named, pairs } = porter.look(pass);
        self.permits.check(named);
        self.pairs.check(pairs);
    }
}
