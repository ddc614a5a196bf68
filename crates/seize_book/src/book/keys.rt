//! Keys, one or several in a given order: the one generic step of the book. Each kind of key is a `Keys` with one key of that kind.
ghost use Rattle.std.specs.Prelude.{◌≡◌, ℕ, List, [], true};
ghost use base.Stored.{coded_list};
ghost use Rattle.seize_machine.specs.Machine.Event.{Event, Return};
ghost use Rattle.seize_book.specs.Book.{blocks};
ghost use Rattle.seize_book.specs.Entry.{Entry};
ghost use Rattle.seize_book.specs.Ledger.{HeldKey};
ghost use Rattle.seize_book.specs.Peeks.{keys_show};
ghost use Rattle.seize_book.specs.Private.{are_of_blocks, is_one, label_of, labels_of};
ghost use Rattle.seize_book.specs.Tokens.{Name, held_coded, keys_own, name_coded};

use crate::book::key_without_note::KeyWithoutNote;
use crate::book::pass::Pass;
use crate::book::permit::Permit;
use crate::book::rights::Rights;
use seize_content::{CellToken, Pool, Sight, Ticket};
use seize_store::RowToken;
use seize_table::tls::FilledAt;
use std::marker::{Brand, Model, PhantomData};

/// Some keys of one book, each with the list as it was when its holder last added an event.
///
/// It is for crates with words, whose atomic steps add entries by the rights themselves. Others need the kinds of keys alone.
pub struct Keys {
    pub(super) marker: PhantomData<()>,
    /// The book.
    pub ghost name: { Name } by { name_coded },
    /// The keys, in order.
    pub ghost held: { List (HeldKey Entry) } by { coded_list held_coded },
}

impl Model for Keys {
    ghost also_owns = { λ k. keys_own k.name k.held };

    ghost also_shares = { λ k _ κ. keys_show k.name k.held κ };
}

/// An event, and the words that it says of the values that it retires or puts. A caller passes `Brand`, and its proof picks them; those
/// below stand where none are picked.
pub(crate) trait Picks {
    ghost event: { Event };

    ghost kepts: { List ℕ };
}

impl Picks for Brand {
    ghost event = { Return 0 };

    ghost kepts = { [] };
}

impl Keys {
    ghost use Rattle.seize_book.specs.Adding.{AddsWithKeys, Asks, JoinsKeys, LooksWithKeys, MayLook, Parts, PartsLast, deed_with_words};
    ghost use Rattle.seize_book.specs.Ledger.{AllApart};
    ghost use Rattle.seize_book.specs.Lending.{IsPermitOf, IsRowAt, Lends, MayLend, MayRedeem, MayWithdraw, Redeems};
    ghost use Rattle.seize_book.specs.Notes.{MayOpen, OpensNote};
    ghost use Rattle.seize_book.specs.Peeking.{MaySee, SightBy};
    ghost use Rattle.seize_book.specs.Tables.{GetsPlace, LiesAt};

    /// Adds the event with the pass.
    pub(crate) fn add<P: Picks>(&mut self, pass: &mut Pass)
        requires { Asks self.old pass.old (deed_with_words pass.old P.event P.kepts) }
        ensures { AddsWithKeys self.old pass.old self.new pass.new (deed_with_words pass.old P.event P.kepts) }
    {}

    /// Looks at the list with the pass, and adds nothing.
    pub(crate) fn look(&mut self, pass: &mut Pass)
        requires { MayLook self.old pass.old }
        ensures { LooksWithKeys self.old pass.old self.new pass.new }
    {}

    /// The head of the slot lies in the table of the book, as the token shows, and its key says so then.
    pub(crate) fn place(&mut self, token: &FilledAt)
        requires { LiesAt self.old token.now }
        ensures { GetsPlace self.old self.new }
    {}

    /// The content, whose code may be lent, goes with the first key, whose label is another value of its block then, which was never named.
    pub(crate) fn lend(&mut self, ticket: Ticket, pool: Pool, permit: Permit)
        requires { MayLend self.old ticket pool permit }
        ensures { Lends self.old pool self.new }
    {
        let Ticket { marker: _ } = ticket;
        let Pool { marker: _ } = pool;
        let Permit { marker: _ } = permit;
    }

    /// What went with the first key comes back, whole. The call of the slot whose key is the second is about to hand its value, so nobody
    /// sees the content any more.
    pub(crate) fn redeem(&mut self, pass: &mut Pass) -> (Ticket, Pool)
        requires { MayRedeem self.old pass.old }
        ensures { (pass.new ≡ pass.old) × Redeems self.old self.new result.0 result.1 }
    {
        let ticket = Ticket {
            marker: PhantomData,
        };
        let pool = Pool {
            marker: PhantomData,
        };
        (ticket, pool)
    }

    /// The same where the value was never named: nobody ever found it in a link, so nobody sees the content.
    pub(crate) fn withdraw(&mut self, pass: &mut Pass) -> (Ticket, Pool)
        requires { MayWithdraw self.old pass.old }
        ensures { (pass.new ≡ pass.old) × Redeems self.old self.new result.0 result.1 }
    {
        let ticket = Ticket {
            marker: PhantomData,
        };
        let pool = Pool {
            marker: PhantomData,
        };
        (ticket, pool)
    }

    /// What shows the row in which the block of the first key's value lies.
    pub(crate) fn row(&self) -> RowToken
        requires { is_one blocks self.now.held ≡ true }
        ensures { IsRowAt self.now.name (label_of self.now.held) result }
    {
        RowToken {
            marker: PhantomData,
        }
    }

    /// The permit for what went with them.
    pub(crate) fn permit(&self) -> Permit
        requires { are_of_blocks self.now.held ≡ true }
        ensures { IsPermitOf self.now.name (labels_of self.now.held) result }
    {
        Permit {
            marker: PhantomData,
        }
    }

    /// A sight of what went with the first key, for as long as the keys are borrowed.
    pub(crate) fn sight(&self) -> Sight<'_>
        requires { MaySee self.now }
        ensures { SightBy self.now result }
    {
        Sight {
            marker: PhantomData,
        }
    }

    /// No two of them are one: nobody has a right twice.
    pub(crate) fn apart(&mut self)
        ensures { (self.new ≡ self.old) × AllApart self.old.held }
    {}

    /// The token of the cell of the block whose key it is comes out. It says what is noted.
    pub(crate) fn open(&mut self) -> (KeyWithoutNote, CellToken)
        requires { MayOpen self.old }
        ensures { OpensNote self.old self.new result.0 result.1 }
    {
        let opened = KeyWithoutNote {
            marker: PhantomData,
        };
        let token = CellToken {
            marker: PhantomData,
        };
        (opened, token)
    }

    /// All of them, without the ways.
    pub(crate) fn bare(&mut self) -> Rights
        ensures { (result.name ≡ self.old.name) × (result.held ≡ self.old.held) }
    {
        Rights {
            marker: PhantomData,
        }
    }

    /// No keys of the same book.
    pub fn none(&mut self) -> Keys
        ensures { (self.new ≡ self.old) × (result.name ≡ self.old.name) × (result.held ≡ []) }
    {
        Keys {
            marker: PhantomData,
        }
    }

    /// No keys of the pass's book.
    pub fn empty(pass: &mut Pass) -> Keys
        ensures { (result.name ≡ pass.old.name) × (result.held ≡ []) × (pass.new ≡ pass.old) }
    {
        Keys {
            marker: PhantomData,
        }
    }

    /// Takes the other's keys, which come after its own.
    pub fn join(&mut self, other: &mut Keys)
        requires { other.old.name ≡ self.old.name }
        ensures { JoinsKeys self.old other.old self.new other.new }
    {}

    /// Gives the last to the other, which had none.
    pub(crate) fn part_last(&mut self, other: &mut Keys)
        requires { (other.old.name ≡ self.old.name) × (other.old.held ≡ []) }
        ensures { PartsLast self.old self.new other.new }
    {}

    /// Gives all but the first to the other, which had none.
    pub fn part(&mut self, other: &mut Keys)
        requires { (other.old.name ≡ self.old.name) × (other.old.held ≡ []) }
        ensures { Parts self.old self.new other.new }
    {}
}

impl Drop for Keys {
    fn drop(self) {
        let Self { marker: _ } = self;
    }
}

unsafe impl Send for Keys {}

unsafe impl Sync for Keys {}
