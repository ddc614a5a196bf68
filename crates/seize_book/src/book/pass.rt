//! Passes. The keys beside it add entries with a pass; `porter` lends them.
ghost use Rattle.std.specs.Prelude.{◌≡◌, ℕ, List, []};
ghost use base.Stored.{coded_list};
ghost use Rattle.seize_book.specs.Entry.{Entry, entry_coded};
ghost use Rattle.seize_store.specs.Named.{IsRowOf};
ghost use Rattle.seize_book.specs.Tokens.{Name, name_coded, sized_pass};

use crate::book::permit::Permit;
use crate::book::porter::Porter;
use crate::book::seen::Seen;
use seize_store::RowToken;
use seize_table::tls::AllFilled;
use std::marker::{Model, PhantomData};

/// What its holder has seen of the list, and the right to add entries under its id, for as long as `'p` lasts.
///
/// A porter lends a pass for as long as the porter is shared ([`Porter::pass`]); dropping or forgetting such a pass keeps nobody out.
/// [`Porter::shut`] gives the first pass of a book, a `Pass<'static>`. It is alone; if it is dropped, nobody adds to the list any more.
pub struct Pass<'p> {
    pub(super) marker: PhantomData<&'p ()>,
    /// The book.
    pub ghost name: { Name } by { name_coded },
    /// Which pass of the book it is.
    pub ghost id: { ℕ },
    /// The batch size at each event that is added with it, which is one that the book had.
    pub ghost size: { ℕ },
    /// The beginning of the list that it has seen.
    pub ghost seen: { List Entry } by { coded_list entry_coded },
}

impl<'p> Model for Pass<'p> {
    ghost also_owns = { λ p. sized_pass p.name 'p p.id p.size p.seen };
}

impl<'p> Pass<'p> {
    ghost use Rattle.seize_book.specs.Books.{Learns};
    ghost use Rattle.seize_book.specs.Homesteads.{AreAt, HasNumber, state_seen};
    ghost use Rattle.seize_book.specs.Lending.{IsPermitForAll};
    ghost use Rattle.seize_book.specs.Passes.{LooksOn, Meets};
    ghost use Rattle.seize_book.specs.Saying.{AllSay};
    ghost use Rattle.seize_book.specs.Tables.{AreSlotsOf};

    /// Two passes of one book tell each other what they have seen: afterwards both have seen the longer of their two beginnings. No event
    /// is made with either. Their ids differ: an event that was made with one was not made with the other.
    pub fn meet(&mut self, other: &mut Pass)
        requires { other.old.name ≡ self.old.name }
        ensures { Meets self.old other.old self.new other.new }
    {}

    /// The pass learns what a [`Seen`] has seen: afterwards it has seen the longer of the two beginnings. So a caller who shares a `Seen`
    /// by `&` tells others what it has seen, such as that an activation began. No event is made with the pass.
    pub fn learn(&mut self, book: &Seen)
        requires { book.now.name ≡ self.old.name }
        ensures { Learns self.old book.now self.new }
    {}

    /// A [`Seen`] of the pass's family is of its book. It does nothing: its contract is the law.
    pub fn agree(&mut self, book: &Seen)
        requires { book.now.name.family ≡ self.old.name.family }
        ensures { (self.new ≡ self.old) × (book.now.name ≡ self.new.name) }
    {}

    /// Looks at the list, and adds nothing. It gives what shows the row of this number, which is that of a value that was named: the value
    /// lies in the block with the label that the row has there, and so does each other one that was named and whose number is one of the
    /// row's. With each something is lent (`LooksOn`).
    pub fn seek(&mut self, number: u64) -> RowToken
        requires named { HasNumber number (state_seen self.old) }
        ensures looks { LooksOn self.old self.new }
        ensures row { (result.store ≡ self.old.name.store) × IsRowOf result number }
        ensures homes { AreAt self.new.name result (state_seen self.new) }
    {
        let known = self.row_of(number);
        self.find(&known);
        known
    }

    // What shows the row of the number.
    fn row_of(&mut self, number: u64) -> RowToken
        requires { HasNumber number (state_seen self.old) }
        ensures { LooksOn self.old self.new × (result.store ≡ self.old.name.store) × IsRowOf result number }
    {
        RowToken {
            marker: PhantomData,
        }
    }

    /// Looks at the list, and adds nothing. It gives what shows the first entries of the table where the heads of the book lie, one for
    /// each slot that there is, with the slot's label.
    pub fn slots(&mut self) -> AllFilled
        ensures { LooksOn self.old self.new × AreSlotsOf self.new result }
    {
        AllFilled {
            marker: PhantomData,
        }
    }

    /// Looks at the list, and adds nothing. It gives the permit for what is lent with each value that was ever named. And each entry of the
    /// list says of the values that it retires or puts what is kept of them.
    pub fn permit_for_named(&mut self) -> Permit
        ensures { LooksOn self.old self.new × IsPermitForAll self.new result × AllSay self.new.seen }
    {
        Permit {
            marker: PhantomData,
        }
    }

    /// A permit for no pair, which the first pass needs: what that does to links is not bound.
    pub fn no_pairs(&mut self) -> Permit
        ensures { (self.new ≡ self.old) × (result.list ≡ self.old.name.pairs) × (result.codes ≡ []) }
    {
        Permit {
            marker: PhantomData,
        }
    }

    /// Looks at the list, and adds nothing. The row is one of the book's store. Each value that was ever named, and whose
    /// number is one of the row's, lies in the block with the label that the row has there.
    pub fn find(&mut self, known: &RowToken)
        requires { self.old.name.store ≡ known.now.store }
        ensures { LooksOn self.old self.new × AreAt self.new.name known.now (state_seen self.new) }
    {}
}

impl Pass<'static> {
    ghost use Rattle.seize_book.specs.Porters.{OpensAgain};
    ghost use Rattle.seize_book.specs.Tokens.{IsSole};

    // The gate is opened again, to which it was alone.
    pub(super) fn open_again(self) -> Porter
        requires { IsSole self.id }
        ensures { OpensAgain self.entry result }
    {
        let Self { marker: _ } = self;
        Porter {
            marker: PhantomData,
        }
    }
}

impl<'p> Drop for Pass<'p> {
    fn drop(self) {
        let Self { marker: _ } = self;
    }
}

unsafe impl<'p> Send for Pass<'p> {}
