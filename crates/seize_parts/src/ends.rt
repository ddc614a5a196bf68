//! The reclaimer of a slot's calls: it gives each value to the collector's own, with a place for what that puts.
ghost use Rattle.std.specs.Prelude.{[]};
ghost use Rattle.seize_calls.specs.Handing.{Had, had_coded};
ghost use Rattle.seize_parts.specs.Enders.{IsEnderIn, Weighs};
ghost use Rattle.seize_alone.specs.Gone.{PutAs};
ghost use Rattle.seize_parts.specs.Lighter.{weighs_once};
ghost use base.Fml.{ftrue};
ghost use base.Stored.{Gv};
ghost use denote.Struct.Codes.{itself};

use crate::ender::Ender;
use crate::reclaim::{Further, Reclaim};
use seize_calls::draining::Lightens;
use seize_calls::{further as chain, handing};
use seize_words::blocks::Blocks;
use seize_words::book::Permit;
use std::marker::{Model, PhantomData};

/// Which values went to the reclaimer. It has no bytes.
pub struct Ends {
    marker: PhantomData<()>,
    /// Of each of them the word that was kept of it, its code, and what was put with it, the oldest first. It is there for clauses alone.
    pub(crate) ghost had: { Had } by { had_coded },
    /// The code of the one that it has now.
    ghost at: { Gv } by { itself },
}

impl Model for Ends {
    ghost also_owns = { λ _. ftrue };
}

impl Drop for Ends {
    fn drop(self) {
        let Ends { marker: _ } = self;
    }
}

impl Ends {
    ghost use Rattle.std.specs.Prelude.{◌≡◌, ◌∷◌, ◌++◌};
    ghost use Rattle.seize_book.specs.Kept.{kepts_of};
    ghost use Rattle.seize_book.specs.Values.{values_of};
    ghost use Rattle.seize_calls.specs.Furthers.{further_in};

    /// None did.
    pub fn new() -> Ends
        ensures { result.had ≡ [] }
    {
        Ends {
            marker: PhantomData,
        }
    }

    // It has this value now. It does nothing when the program runs.
    fn take<T>(&mut self, _value: &T)
        ensures { (self.new.had ≡ self.old.had) × (self.new.at ≡ T.row.coded.code _value.now) }
    {}

    // The value that it has went to the reclaimer, which put these. It does nothing when the program runs.
    fn note(&mut self, kept: u64, put: &chain::Further)
        ensures { self.new.had ≡ self.old.had ++ (kept, self.old.at, values_of (further_in put.now), kepts_of (further_in put.now)) ∷ [] }
    {}
}

/// Gives each value to the collector's reclaimer, with the word that was kept of it: its kind.
#[derive(Drop)]
pub struct Forwards<'a, T: Drop, R: Reclaim<T>> {
    pub(crate) ender: &'a Ender<T, R>,
    /// What it had.
    pub(crate) ends: Ends,
}

impl<'a, T: Drop, R: Reclaim<T>> Forwards<'a, T, R> {
    ghost use Rattle.std.specs.Prelude.{◌≡◌};

    /// It has had none.
    pub fn new(ender: &'a Ender<T, R>) -> Forwards<'a, T, R>
        ensures { (result.ends.had ≡ []) × (result.ender.now ≡ ender.now) }
    {
        Forwards {
            ender,
            ends: Ends::new(),
        }
    }
}

impl<T: Drop, R: Reclaim<T>> handing::Reclaim<T> for Forwards<'_, T, R> {
    ghost had = { λ forwards. forwards.ends.had };

    ghost serves = { λ forwards n. let ender = forwards.ender.now in
        IsEnderIn n ender × PutAs T.row.coded.code R.puts forwards.ends.had };

    fn reclaim(
        &mut self,
        kept: u64,
        value: T,
        permit: Permit,
        further: &mut chain::Further,
        blocks: &Blocks<T>,
    ) {
        let ender = self.ender;
        ender.permits.check(permit);
        let mut put = Further::new(further.none(), blocks, &ender.permits, kept);
        self.ends.take(&value);
        ender.reclaimer.reclaim(kept, value, &mut put);
        self.ends.note(kept, &put.chain);
        further.append(blocks, &mut put.chain);
    }
}

/// What a reclaimer of the collector puts weighs less than the value.
impl<T: Drop, R: Reclaim<T>> Lightens<T> for Forwards<'_, T, R> {
    ghost weighs = { Weighs T.row.coded.code R.weight };

    ghost once = { weighs_once T.row.coded R.weight };

    fn weigh(&self, permit: Permit, _blocks: &Blocks<T>) {
        self.ender.permits.check(permit);
    }

    fn lightens(&self, _blocks: &Blocks<T>) {}
}
