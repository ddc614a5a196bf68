//! The words of links. Threads share one by `&` and take atomic steps on it, or it stands still: who has it alone turns it from the one
//! into the other, with no step. Links are made of it.
ghost use Rattle.std.specs.Prelude.{◌≡◌, [], Some, true};
ghost use Rattle.seize_words.specs.LinkSites.{LinkSite, link_site_coded, link_word_owns, link_word_shares};

use crate::link::still::StillWord;
use crate::word::Word;
use seize_book::book::{Keys, Pass};
use std::marker::{Move, Owns};

/// The word of a link, which threads share, or which stands still.
pub(crate) struct LinkWord {
    bits: u64,
}

impl Owns for LinkWord {
    ghost Value = { LinkSite };

    ghost coded = { link_site_coded };

    ghost shr_at = { λ w p κ. link_word_shares w p κ };
}

impl Move for LinkWord {
    ghost own_val = { λ w vs. link_word_owns w vs };
}

impl LinkWord {
    ghost use Rattle.seize_words.specs.Atomic.{IsWordOf, site_of};
    ghost use Rattle.seize_words.specs.LinkSites.{IsShared, LooksStill, MayLookStill, StandsAs, StirsAs, is_still, shared_at, site_in, still_word};

    /// A word that holds `bits` and has the keys of what it stands for. Threads may share it.
    pub(crate) fn new(bits: u64, keys: &mut Keys) -> LinkWord
        requires { IsWordOf keys.old bits }
        ensures { (result ≡ shared_at (site_of keys.old)) × (keys.new.name ≡ keys.old.name) × (keys.new.held ≡ []) }
    {
        LinkWord { bits }
    }

    /// The word as threads step on it.
    pub(crate) fn shared(&self) -> &Word
        requires { IsShared self.now }
        ensures { result.now ≡ site_in self.now }
    {
        unsafe { &*(self as *const LinkWord as *const Word) }
    }

    /// The word as it stands still.
    pub(crate) fn still(&self) -> &StillWord
        requires { is_still self.now ≡ true }
        ensures { still_word self.now ≡ Some result.now }
    {
        unsafe { &*(self as *const LinkWord as *const StillWord) }
    }

    /// It stands still from then on. It does nothing when the program runs.
    pub(crate) fn rest(&mut self)
        requires { IsShared self.old }
        ensures { StandsAs self.old self.new }
    {}

    /// Threads may share it again. It does nothing when the program runs.
    pub(crate) fn stir(&mut self)
        requires { StirsAs self.old }
        ensures { self.new ≡ shared_at (site_in self.old) }
    {}

    /// Where it stands still, its keys look at the list with the pass, to which they add nothing.
    pub(crate) fn look(&mut self, pass: &mut Pass)
        requires { MayLookStill self.old pass.old }
        ensures { LooksStill self.old pass.old self.new pass.new }
    {}
}

impl Drop for LinkWord {
    fn drop(self) {
        let Self { bits: _ } = self;
    }
}

unsafe impl Send for LinkWord {}

unsafe impl Sync for LinkWord {}
