//! The greatest batch size of a book, which bounds the size of each event in its list.
ghost use Rattle.std.specs.Prelude.{◌≡◌, ℕ};
ghost use Rattle.seize_book.specs.Bounds.{size_lent, sets_size};
ghost use Rattle.seize_book.specs.Tokens.{Name, name_coded};

use crate::book::pass::Pass;
use std::marker::{Model, PhantomData};

/// The right to set the batch size of a book ([`Porter::set_size`](crate::book::Porter::set_size)), of which there is one. It knows the
/// greatest size that the book ever had. It has no bytes.
#[derive(Drop)]
pub struct Sizes {
    pub(super) marker: PhantomData<()>,
    /// The book.
    pub ghost name: { Name } by { name_coded },
    /// The greatest batch size that the book ever had.
    pub ghost most: { ℕ },
}

impl Model for Sizes {
    ghost also_owns = { λ s. sets_size s.name.gate.sizes s.most };

    ghost also_shares = { λ s _ κ. size_lent s.name.gate.sizes s.most κ };
}

impl Sizes {
    ghost use Rattle.seize_book.specs.Bounds.{AllWithin};

    /// Each event that the pass has seen has at most the greatest size. It does nothing: its contract is the law.
    pub fn bound(&self, pass: &mut Pass)
        requires { pass.old.name ≡ self.now.name }
        ensures { (pass.new ≡ pass.old) × AllWithin self.now.most pass.new.seen }
    {}
}

unsafe impl Send for Sizes {}

unsafe impl Sync for Sizes {}
