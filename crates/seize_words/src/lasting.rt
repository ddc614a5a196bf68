//! What shows that an activation, or the sight of a value, lasts for as long as a borrow of it, where the borrow itself is not at hand.
//! Nothing here has bytes.
ghost use Rattle.std.specs.Prelude.{◌≡◌, ℕ, List};
ghost use base.Stored.{coded_list};
ghost use denote.Sharing.{said};
ghost use Rattle.seize_book.specs.Entry.{Entry, entry_coded};
ghost use Rattle.seize_book.specs.Tokens.{Name, name_coded};
ghost use Rattle.seize_words.specs.Lasts.{lasting};

use crate::activation::Activation;
use seize_book::book::{Pass, Seen};
use seize_content::Sight;
use std::marker::{Model, PhantomData};

/// An activation has not ended for `'g`. It goes with what was found in the activation, and knows a list in which that was found. Of what
/// was found without an activation it knows the book alone (`of_sight`).
#[derive(Drop)]
pub struct Lasting<'g> {
    marker: PhantomData<&'g ()>,
    /// The book.
    pub ghost name: { Name } by { name_coded },
    /// The lifetime of the activation.
    pub ghost life: { ℕ },
    /// What was seen in it.
    pub ghost seen: { List Entry } by { coded_list entry_coded },
}

impl<'g> Model for Lasting<'g> {
    ghost also_owns = { λ s. lasting 'g s.name s.life s.seen };

    ghost also_shares = { λ s _ κ. said (lasting 'g s.name s.life s.seen) κ };
}

impl<'g> Lasting<'g> {
    ghost use Rattle.seize_words.specs.Lasted.{HasNotEnded, IsOfActivation, LearnsFrom};

    /// The activation lasts for as long as it is borrowed. What the pass has seen is known with it.
    pub fn of(activation: &'g Activation, pass: &mut Pass) -> Lasting<'g>
        ensures { (pass.new ≡ pass.old) × IsOfActivation activation.now pass.old result }
    {
        Lasting {
            marker: PhantomData,
        }
    }

    /// What is seen lasts, of which no activation is known.
    pub fn of_sight(sight: Sight<'g>, book: &Seen) -> Lasting<'g>
        ensures { result.name ≡ book.now.name }
    {
        let Sight { marker: _ } = sight;
        Lasting {
            marker: PhantomData,
        }
    }

    /// The same once more.
    pub fn again(&self) -> Lasting<'g>
        ensures { result ≡ self.now }
    {
        Lasting {
            marker: PhantomData,
        }
    }

    /// The pass learns what was seen in it: afterwards it has seen the longer of the two beginnings. No event is made with it.
    pub fn tell(&self, pass: &mut Pass)
        requires { self.now.name ≡ pass.old.name }
        ensures { LearnsFrom self.now pass.old pass.new }
    {}

    /// It has not ended in what the pass has seen. So a value that was found in it was not reclaimed there. It does nothing when the
    /// program runs: its contract is the law.
    pub fn lasts(&self, pass: &mut Pass)
        ensures { (pass.new ≡ pass.old) × HasNotEnded self.now.life pass.new }
    {}
}

unsafe impl<'g> Send for Lasting<'g> {}

unsafe impl<'g> Sync for Lasting<'g> {}
