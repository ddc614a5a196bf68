//! What a collector lends to its slots: its words, the numbers of slots, and its reclaimer. It lacks the owner of the list of events, which
//! makes passes. Guards and registrations borrow it, so no call of theirs can make a pass, and each clause on the caller's pass speaks of
//! all that the call adds to the list.
ghost use Rattle.std.specs.Prelude.{◌≡◌, box_value};
ghost use Rattle.seize_words.specs.Joined.{words_book};
ghost use Rattle.seize_words.specs.Rows.{AreShared};
ghost use Rattle.seize_words.specs.declared.words.Words.{Words};
ghost use Rattle.seize_parts.specs.Enders.{IsEnderOf};

use seize_cells::Lock;
use seize_parts::ender::Ender;
use seize_parts::numbers::Numbers;
use seize_parts::reclaim::Reclaim;
use seize_words::words::Words;

/// The parts of a collector that its slots use.
pub struct Parts<T: Drop, R: Reclaim<T>> {
    /// The words, which threads share.
    pub words: Words<T>,
    /// The numbers of slots.
    pub numbers: Lock<Numbers<T>>,
    /// The reclaimer, in a box, so that the size of a collector does not depend on it: proofs of calls by a `&` to one ask that it is below
    /// 2^63.
    pub ender: Box<Ender<T, R>>,
    ghost shared: { AreShared words.links },
    ghost numbered: { numbers ≡ (words_book words).family },
    ghost ends: { IsEnderOf words (box_value ender) },
}

impl<T: Drop, R: Reclaim<T>> Parts<T, R> {
    /// The reclaimer, for the calls of slots.
    #[inline(always)]
    pub fn ender(&self) -> &Ender<T, R>
        ensures { IsEnderOf self.now.words result.now }
    {
        &self.ender
    }
}

/// Who has the parts of a collector. The trait has no methods: a guard gives its home back to its user, and can call nothing of it.
pub trait Home<T> {
    /// The words of the collector.
    ghost its_words: { Self → Words T };
}
