//! Words: the memory that threads change by single atomic steps. A word stands for a head, link, count or field of the book, or for the
//! total. Its keys stand beside it, so an atomic step on it is an entry in the list, which the holder of a pass adds in that very step.
//! Heads, links, counts, fields and the total are made of it.
ghost use Rattle.std.specs.Prelude.{◌≡◌, ℕ, ◌<◌, ◌==◌, ◌^◌, Bool, false, if◌then◌else◌, List, []};
ghost use base.Fml.{fsep, fex};
ghost use Rattle.seize_machine.specs.Machine.Event.{Return};
ghost use Rattle.seize_book.specs.Entry.{Entry, Made};
ghost use Rattle.seize_words.specs.Words.{Site, site_coded, word_owns, word_shares};

use crate::activation::{Activation, Ended};
use crate::glimpse::Glimpse;
use crate::lasting::Lasting;
use atomic_table::exchange;
use seize_book::book::{Keys, Pass, Permit};
use std::marker::{Brand, Move, Owns, PhantomData};
use std::sync::atomic::Ordering::SeqCst;
use std::sync::atomic::raw;

/// A word of a book.
pub(crate) struct Word {
    bits: u64,
}

impl Owns for Word {
    ghost Value = { Site };

    ghost coded = { site_coded };

    ghost shr_at = { λ w p κ. word_shares w p κ };
}

impl Move for Word {
    ghost own_val = { λ w vs. fex ℕ (λ n. fsep (Fields.own_val (record { bits = n }) vs) (word_owns w n)) };
}

/// The entry of an atomic step, by what the step found in the word and what the list was just before; whether the keys that stand beside
/// the word's own change places with the holder's; and the keys that the step makes, by kind and number. A caller passes `Brand`, and its
/// proof picks them; those below stand where none are picked.
pub(crate) trait Finds {
    ghost entry: { ℕ → List Entry → Entry };

    ghost trades: { ℕ → Bool };

    ghost births: { List (ℕ × ℕ) };
}

impl Finds for Brand {
    ghost entry = { λ v log. Made (record { pass = 0; size = 0; event = Return 0; life = 0; kepts = [] }) };

    ghost trades = { λ v. false };

    ghost births = { [] };
}

impl Word {
    ghost use Rattle.seize_words.specs.Atomic.{ExchangesIn, IsWordOf, LooksAtWord, MayLookAtWord, MayExchangeIn, MaySeeIn, MayTakeStep, MayTakeStepIn, MayTakeStepWith, SeesIn, TakesStep, TakesStepIn, TakesStepWith, after_exchange, minus, plus, site_of};

    /// A word that holds `bits` and has the keys of what it stands for.
    pub(crate) fn new(bits: u64, keys: &mut Keys) -> Word
        requires { IsWordOf keys.old bits }
        ensures { (result ≡ site_of keys.old) × (keys.new.name ≡ keys.old.name) × (keys.new.held ≡ []) }
    {
        Word { bits }
    }

    /// Reads the word and looks at the list, to which it adds nothing.
    pub(crate) fn look(&self, keys: &mut Keys, pass: &mut Pass) -> u64
        requires { MayLookAtWord self.now keys.old pass.old }
        ensures { LooksAtWord self.now keys.old pass.old keys.new pass.new result }
    {
        unsafe { raw::load::<Brand>(self as *const Self as *const u64, SeqCst) }
    }

    /// Reads the word.
    pub(crate) fn load<P: Finds>(&self, keys: &mut Keys, pass: &mut Pass) -> u64
        requires { MayTakeStep self.now keys.old pass.old [] [] (λ v. v) P.entry P.trades }
        ensures { TakesStep self.now keys.old pass.old keys.new pass.new [] (λ v. v) result P.entry P.trades }
    {
        unsafe { raw::load::<Brand>(self as *const Self as *const u64, SeqCst) }
    }

    /// Reads the word of a link, where the activation has not ended, and sees what is lent with what the link holds.
    pub(crate) fn see_in<'g, P: Finds>(
        &self,
        keys: &mut Keys,
        activation: &'g Activation,
        pass: &mut Pass,
    ) -> (u64, Glimpse<'g>)
        requires { MaySeeIn self.now keys.old pass.old activation.now (λ v. v) P.entry P.trades }
        ensures { SeesIn self.now keys.old pass.old keys.new pass.new activation.now (λ v. v) result P.entry P.trades }
    {
        let bits = unsafe { raw::load::<Brand>(self as *const Self as *const u64, SeqCst) };
        let glimpse = Glimpse {
            marker: PhantomData,
        };
        (bits, glimpse)
    }

    /// Stores `new` and gives what the word held, where the activation has not ended.
    pub(crate) fn swap_in<P: Finds>(
        &self,
        new: u64,
        keys: &mut Keys,
        activation: &Activation,
        pass: &mut Pass,
        _permit: &Permit,
    ) -> u64
        requires { MayTakeStepIn self.now keys.old pass.old activation.now _permit.now (λ v. new) P.entry P.trades }
        ensures { TakesStepIn self.now keys.old pass.old keys.new pass.new activation.now (λ v. new) result P.entry P.trades }
    {
        unsafe { raw::swap::<Brand>(self as *const Self as *const u64, new, SeqCst) }
    }

    /// Stores `new` where the word of a link holds `seen`, and gives what it held, where the activation has not ended, and that has not in
    /// which was found what it compares with. Where it stores nothing, it sees what is lent with what the link holds.
    pub(crate) fn exchange_in<'g, P: Finds>(
        &self,
        seen: u64,
        new: u64,
        keys: &mut Keys,
        activation: &'g Activation,
        pass: &mut Pass,
        _permit: &Permit,
        _found: &Lasting<'_>,
    ) -> (u64, Glimpse<'g>)
        requires { MayExchangeIn self.now keys.old pass.old activation.now _permit.now _found.now (after_exchange seen new)
            P.entry P.trades }
        ensures { ExchangesIn self.now keys.old pass.old keys.new pass.new activation.now _found.now (after_exchange seen new) result
            P.entry P.trades }
    {
        let bits = unsafe { exchange::<Brand>(self as *const Self as *const u64, seen, new) };
        let glimpse = Glimpse {
            marker: PhantomData,
        };
        (bits, glimpse)
    }

    /// Stores `new` and gives what the word held. It may end activations with these lifetimes.
    pub(crate) fn swap<P: Finds>(
        &self,
        new: u64,
        keys: &mut Keys,
        ended: &mut Ended,
        pass: &mut Pass,
    ) -> u64
        requires { MayTakeStep self.now keys.old pass.old [] ended.old.lives (λ v. new) P.entry P.trades }
        ensures { TakesStep self.now keys.old pass.old keys.new pass.new [] (λ v. new) result P.entry P.trades }
    {
        unsafe { raw::swap::<Brand>(self as *const Self as *const u64, new, SeqCst) }
    }

    /// Stores `new` where the word holds `seen`, and gives what it held.
    pub(crate) fn exchange<P: Finds>(
        &self,
        seen: u64,
        new: u64,
        keys: &mut Keys,
        pass: &mut Pass,
    ) -> u64
        requires { MayTakeStep self.now keys.old pass.old [] [] (after_exchange seen new) P.entry P.trades }
        ensures { TakesStep self.now keys.old pass.old keys.new pass.new [] (after_exchange seen new) result P.entry P.trades }
    {
        unsafe { exchange::<Brand>(self as *const Self as *const u64, seen, new) }
    }

    /// Stores `new` and gives what the word held.
    pub(crate) fn replace<P: Finds>(&self, new: u64, keys: &mut Keys, pass: &mut Pass) -> u64
        requires { MayTakeStep self.now keys.old pass.old [] [] (λ v. new) P.entry P.trades }
        ensures { TakesStep self.now keys.old pass.old keys.new pass.new [] (λ v. new) result P.entry P.trades }
    {
        unsafe { raw::swap::<Brand>(self as *const Self as *const u64, new, SeqCst) }
    }

    /// Adds to the word, round 2^64, and gives what it held. The step may make keys, which go to the holder's.
    pub(crate) fn add<P: Finds>(&self, added: u64, keys: &mut Keys, pass: &mut Pass) -> u64
        requires { MayTakeStepWith P.births self.now keys.old pass.old [] [] (plus added) P.entry P.trades }
        ensures { TakesStepWith P.births self.now keys.old pass.old keys.new pass.new [] (plus added) result P.entry P.trades }
    {
        unsafe { raw::fetch_add::<Brand>(self as *const Self as *const u64, added, SeqCst) }
    }

    /// Subtracts from the word, round 2^64, and gives what it held.
    pub(crate) fn subtract<P: Finds>(&self, less: u64, keys: &mut Keys, pass: &mut Pass) -> u64
        requires { MayTakeStep self.now keys.old pass.old [] [] (minus less) P.entry P.trades }
        ensures { TakesStep self.now keys.old pass.old keys.new pass.new [] (minus less) result P.entry P.trades }
    {
        unsafe { raw::fetch_sub::<Brand>(self as *const Self as *const u64, less, SeqCst) }
    }
}

impl Drop for Word {
    fn drop(self) {
        let Self { bits: _ } = self;
    }
}

unsafe impl Send for Word {}

unsafe impl Sync for Word {}
