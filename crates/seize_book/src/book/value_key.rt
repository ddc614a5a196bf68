//! The key of a value: that of the block in which it lies. It is `Keys` with one key, whose label is the value's name.
ghost use Rattle.std.specs.Prelude.{◌≡◌, [], ◌∷◌, is_some, true, Some};
ghost use Rattle.seize_book.specs.Blocks.{block_number};
ghost use Rattle.seize_book.specs.Book.{blocks};
ghost use Rattle.seize_book.specs.Homes.{home_of};
ghost use Rattle.seize_book.specs.Private.{is_one, key_of, label_of};

use crate::book::bare_key::BareKey;
use crate::book::keys::Keys;
use crate::book::pass::Pass;
use crate::book::permit::Permit;
use crate::book::slot_key::SlotKey;
use seize_content::{Pool, Sight, Ticket, TokenCell};
use seize_store::RowToken;

/// The right to name the values of one block, of which it is this one's turn: to put it into a link, out of one, and to begin to retire it.
/// It knows which of the block's values were ever named, and which came out of a link and no call began to retire them.
///
/// Where it is dropped, what is lent with the value is lost, and its block stays out of the store for good.
#[derive(Drop)]
pub struct ValueKey {
    /// The right by itself, for crates with words.
    pub keys: Keys,
    ghost one: { is_one blocks keys.held ≡ true },
    ghost home: { key_of keys.held ≡ home_of (label_of keys.held) },
}

impl ValueKey {
    ghost use Rattle.seize_book.specs.Bare.{IsBareKeyOf};
    ghost use Rattle.seize_book.specs.Books.{IsNextAfter, IsNextIn, MaySettle};
    ghost use Rattle.seize_content.specs.Loans.{IsLent};
    ghost use Rattle.seize_book.specs.Loans.{place_of};
    ghost use Rattle.seize_book.specs.Lending.{GoesWith, IsFreeKey, IsInBlockOf, IsLentKey, IsOfPlace, IsPermitFor, IsPermitOf, IsRowAt};
    ghost use Rattle.seize_book.specs.Notes.{HasNoted, IsUnchanged, cell_in, note_in};
    ghost use Rattle.seize_book.specs.Others.{FollowsValue, IsLast, IsVacated, IsValueOf, book_of, value_of};
    ghost use Rattle.seize_book.specs.Passes.{LooksOn};
    ghost use Rattle.seize_book.specs.Peeking.{SightWith};
    ghost use Rattle.seize_book.specs.Slots.{IsKeyOfBook, IsStill, hands_next, slot_of};

    /// A content that is lent goes with the key from then on, into a link and out of it, and whoever finds the value in a link can see the
    /// content (`Link::see`). The key is for another value of its block then, which stands for this content. The value before was never
    /// named, and nothing is lent with it. It is the content of this block in the store, and the permit is for its code.
    pub fn lend(&mut self, ticket: Ticket, pool: Pool, permit: Permit)
        requires lent { IsLent ticket pool }
        requires permit { IsPermitFor (book_of self.old) pool.value permit }
        requires place { IsOfPlace (value_of self.old) ticket }
        requires next { IsNextIn self.old (block_number (value_of self.old)) × IsFreeKey self.old }
        ensures next { IsNextIn self.new (block_number (value_of self.old)) × IsInBlockOf self.old self.new }
        ensures goes { GoesWith self.new pool }
    {
        self.keys.lend(ticket, pool, permit);
    }

    /// The content that is lent with the value comes back, when the slot's call is about to hand the value to its reclaimer: whoever found
    /// it in a link has left or refreshed since, so nobody sees it any more. The key is for another value of its block then, with which
    /// nothing is lent, and which may be named when this one was handed (`settle`).
    pub fn redeem(&mut self, slot: &mut SlotKey, pass: &mut Pass) -> (Ticket, Pool)
        requires book { IsValueOf self.old pass.old × IsKeyOfBook slot.old pass.old }
        requires soon { hands_next (slot_of slot.old) ≡ Some (value_of self.old) }
        requires last { IsLast self.old }
        requires lent { IsLentKey self.old }
        ensures still { (pass.new ≡ pass.old) × IsStill slot.old slot.new }
        ensures value { IsNextAfter self.new (value_of self.old) (block_number (value_of self.old)) }
        ensures block { IsInBlockOf self.old self.new }
        ensures free { IsFreeKey self.new }
        ensures place { place_of (value_of self.new) ≡ place_of (value_of self.old) }
        ensures content { IsLent result.0 result.1 × GoesWith self.old result.1 }
    {
        self.keys.join(&mut slot.keys);
        let lent = self.keys.redeem(pass);
        self.keys.part(&mut slot.keys);
        lent
    }

    /// The key's value is the next of its block then, when the one before was handed, as the pass has seen. The pass and the key look at
    /// the list with no event.
    pub fn settle(&mut self, pass: &mut Pass)
        requires book { IsValueOf self.old pass.old }
        requires handed { MaySettle self.old pass.old }
        ensures looks { LooksOn pass.old pass.new }
        ensures follows { FollowsValue self.old pass.new self.new }
        ensures next { IsNextIn self.new (block_number (value_of self.old)) }
    {
        self.keys.look(pass);
    }

    /// The content that is lent with the value comes back where that was never named: nobody can have found it in a link. The key is for
    /// another value of its block then, with which nothing is lent. Nothing is looked at and no event is made: the key knows it.
    pub fn withdraw(&mut self, pass: &mut Pass) -> (Ticket, Pool)
        requires book { IsValueOf self.old pass.old }
        requires new { IsNextIn self.old (block_number (value_of self.old)) }
        requires lent { IsLentKey self.old }
        ensures pass { pass.new ≡ pass.old }
        ensures next { IsNextIn self.new (block_number (value_of self.old)) × IsInBlockOf self.old self.new }
        ensures free { IsFreeKey self.new }
        ensures place { place_of (value_of self.new) ≡ place_of (value_of self.old) }
        ensures content { IsLent result.0 result.1 × GoesWith self.old result.1 }
    {
        self.keys.withdraw(pass)
    }

    /// What shows the row of the store in which the block lies, whether one of its values was ever named or not.
    pub fn row(&self) -> RowToken
        ensures row { IsRowAt (book_of self.now) (value_of self.now) result }
    {
        self.keys.row()
    }

    /// The permit for what is lent with the value.
    pub fn permit(&self) -> Permit
        ensures { IsPermitOf (book_of self.now) (value_of self.now ∷ []) result }
    {
        self.keys.permit()
    }

    /// Sees the content that is lent with the value, for as long as the key is borrowed, whether the value was ever named or not, and while
    /// others see it by their activations: what is left of the loan is with the key, and comes back from it by `&mut` alone.
    pub fn sight(&self) -> Sight<'_>
        requires lent { IsLentKey self.now }
        ensures sight { SightWith self.now result }
    {
        self.keys.sight()
    }

    /// What is noted of the block, in the cell of its chunk.
    pub fn note<M: Copy>(&mut self, cell: &TokenCell<M>) -> M
        requires cell { cell.now.name ≡ cell_in self.old }
        ensures same { IsUnchanged self.old self.new }
        ensures note { M.row.coded.code result ≡ note_in self.old }
    {
        let (opened, mut token) = self.keys.open();
        let note = cell.get(&mut token);
        self.keys = opened.close(token);
        note
    }

    /// Notes this of the block, in the cell of its chunk, in the place of what was noted before.
    pub fn set_note<M: Copy>(&mut self, cell: &TokenCell<M>, note: M)
        requires cell { cell.now.name ≡ cell_in self.old }
        ensures { HasNoted (M.row.coded.code note) self.old self.new }
    {
        let (opened, mut token) = self.keys.open();
        cell.set(&mut token, note);
        self.keys = opened.close(token);
    }

    /// The key of the block by itself, as a chunk of a store keeps it. All values that ever lay in the block were reclaimed.
    pub fn bare(self) -> BareKey
        requires vacant { IsVacated self }
        ensures { IsBareKeyOf self result }
    {
        let mut keys = self.keys;
        BareKey {
            rights: keys.bare(),
        }
    }
}
