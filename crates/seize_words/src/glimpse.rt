//! What readers of links see there. A content that is lent while its value stands in a link can be seen by whoever finds the value, for as
//! long as the reader's activation lasts. Nothing here has bytes.
ghost use Rattle.std.specs.Prelude.{◌≡◌, ℕ, Option};
ghost use Rattle.std.specs.Coded.{coded_option, coded_ℕ};
ghost use Rattle.seize_words.specs.Glimpses.{glimpse};

use seize_content::Sight;
use std::marker::{Model, PhantomData};

/// What a reader found in a link, for `'g` or longer.
#[derive(Drop)]
pub struct Glimpse<'g> {
    pub(crate) marker: PhantomData<&'g ()>,
    /// The value, or none.
    pub ghost value: { Option ℕ } by { coded_option coded_ℕ },
}

impl<'g> Model for Glimpse<'g> {
    ghost also_owns = { λ s. glimpse 'g s.value };
}

/// A value that was found in a link, where it is lent.
#[derive(Drop)]
pub struct Found<'g, T> {
    /// The value.
    pub value: &'g T,
    /// What the list calls it.
    pub glimpse: Glimpse<'g>,
}

impl<'g> Glimpse<'g> {
    ghost use Rattle.seize_words.specs.Glimpses.{IsLentWith, SightFor};

    /// Another one of the same value. It does nothing when the program runs.
    pub fn again(&mut self) -> Glimpse<'g>
        ensures { (self.new ≡ self.old) × (result.value ≡ self.old.value) }
    {
        Glimpse {
            marker: PhantomData,
        }
    }

    /// A sight of the content that is lent with the value.
    pub fn sight(self) -> Sight<'g>
        requires { IsLentWith self.value }
        ensures { SightFor self.entry.value result }
    {
        let Glimpse { marker: _ } = self;
        Sight {
            marker: PhantomData,
        }
    }
}

unsafe impl<'g> Send for Glimpse<'g> {}
