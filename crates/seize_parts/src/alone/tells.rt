//! The reclaimer of a call that one caller makes: it tells the watch of each value, and then gives it to the collector's own.
ghost use base.Stored.{Gv, gnil};
ghost use Rattle.std.specs.Prelude.{◌≡◌, ℕ};
ghost use Rattle.seize_parts.specs.Enders.{IsEnderIn, Weighs};
ghost use Rattle.seize_alone.specs.Gone.{PutAs};
ghost use Rattle.seize_parts.specs.Lighter.{weighs_once};
ghost use Rattle.seize_parts.specs.Told.{HasToldFrom};

use crate::ends::Forwards;
use crate::reclaim::{Reclaim, Watch};
use seize_calls::draining::Lightens;
use seize_calls::{further as chain, handing};
use seize_words::blocks::Blocks;
use seize_words::book::Permit;
use std::marker::{Brand, PhantomData};

/// Which watch is told, by the name of its borrow, and the code of what it had seen when the call began. A caller passes `Brand`, and its
/// proof picks them.
pub(crate) trait Begun {
    ghost name: { ℕ };

    ghost first: { Gv };
}

impl Begun for Brand {
    ghost name = { 0 };

    ghost first = { gnil };
}

/// Tells the watch of each value, and gives it to the collector's reclaimer: `F` is `Forwards`, and `B` says which watch it is.
#[derive(Drop)]
pub(crate) struct Tells<'w, F: Drop, W, B> {
    /// Gives it on.
    pub(crate) forwards: F,
    /// The watch.
    pub(crate) watch: &'w mut W,
    /// What is known of it.
    pub(crate) begun: PhantomData<B>,
}

impl<T: Drop, R: Reclaim<T>, W: Watch<T>, B: Begun> handing::Reclaim<T>
    for Tells<'_, Forwards<'_, T, R>, W, B> {
    ghost had = { λ tells. tells.forwards.ends.had };

    ghost serves = { λ tells n. let had = tells.forwards.ends.had in
        IsEnderIn n tells.forwards.ender.now × PutAs T.row.coded.code R.puts had
        × HasToldFrom W.coded T.row.coded.code W.told B.first (W.seen tells.watch.now) had
        × (tells.watch.ghost_name ≡ B.name) };

    fn reclaim(
        &mut self,
        kept: u64,
        value: T,
        permit: Permit,
        further: &mut chain::Further,
        blocks: &Blocks<T>,
    ) {
        self.watch.gone(&value);
        self.forwards.reclaim(kept, value, permit, further, blocks);
    }
}

/// What a reclaimer of the collector puts weighs less than the value.
impl<T: Drop, R: Reclaim<T>, W: Watch<T>, B: Begun> Lightens<T>
    for Tells<'_, Forwards<'_, T, R>, W, B> {
    ghost weighs = { Weighs T.row.coded.code R.weight };

    ghost once = { weighs_once T.row.coded R.weight };

    fn weigh(&self, permit: Permit, blocks: &Blocks<T>) {
        self.forwards.weigh(permit, blocks);
    }

    fn lightens(&self, blocks: &Blocks<T>) {
        self.forwards.lightens(blocks);
    }
}
