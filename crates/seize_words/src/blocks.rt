//! Blocks in a store: from the number that a word shows to the words of its block. It stands on chunks and on the store.
ghost use Rattle.std.specs.Prelude.{◌≡◌, ◌+◌, ◌<◌, ◌^◌, ◌⊎◌, ◌↔◌, [], ◌∷◌, ◌++◌, ℕ, IfErr, IfOk, Some, true};
ghost use Rattle.seize_store.specs.RowTokens.{family_in};
ghost use Rattle.seize_store.specs.Named.{store_name};

use crate::chunk::{Header, Part};
use crate::glimpse::Glimpse;
use crate::note::Note;
use seize_book::book::{Pass, Permit, Seen, SlotKey, ValueKey, ValueKeys};
use seize_content::TokenCell;
use seize_store::{Bare, Hollow, Owned, RowToken, Spots, Store};
use seize_table::Refusal;
use std::alloc::{AllocError, Global};

/// The blocks of a book, in the store where they lie. Threads share them by `&`.
#[derive(Drop)]
pub struct Blocks<T> {
    store: Store<Header, Part, T>,
    /// The book.
    pub book: Seen,
    ghost stands: { book.name.store ≡ store_name store },
    ghost kin: { family_in (store_name store) ≡ book.name.family },
}

impl<T: Drop> Blocks<T> {
    ghost use Rattle.seize_book.specs.Books.{IsNextIn};
    ghost use Rattle.seize_store.specs.Named.{bare_number, bare_title, bare_value, hollow_store, hollow_title, is_empty_list, owned_value, store_of, title_of, titles_of, titles_with};
    ghost use Rattle.seize_table.specs.declared.refusal.Refusal.TheVariants.{NoMemory};
    ghost use Rattle.seize_words.specs.Chunks.{AreSpotsIn, IsBlockAfter, IsBlockIn, IsFoundAs, IsFoundAt, IsHeaderOf, IsLentAs, IsPartOf, LayIn, LendsIn, LiesIn, blocks_book};
    ghost use Rattle.seize_book.specs.Others.{IsLast, IsVacated, IsValueOf, book_of, value_of};
    ghost use Rattle.seize_book.specs.Blocks.{block_number};
    ghost use Rattle.seize_book.specs.Notes.{HasNoted, IsUnchanged, cell_in};
    ghost use Rattle.seize_words.specs.Noted.{IsNoted, note_code};
    ghost use Rattle.seize_book.specs.Lending.{IsInBlockOf, IsLentKey, IsPermitFor, IsRowAt};
    ghost use Rattle.seize_book.specs.Loans.{CarriesOne};
    ghost use Rattle.seize_book.specs.Homesteads.{HasNumber, state_seen};
    ghost use Rattle.seize_words.specs.Headers.{IsFrontBlock};
    ghost use Rattle.seize_book.specs.Passes.{LooksOn};
    ghost use Rattle.seize_book.specs.Slots.{IsKeyOfBook, IsStill, hands_next, slot_of};
    ghost use Rattle.seize_book.specs.Values.{IsEmpty};
    ghost use Rattle.seize_words.specs.Walks.{CountsDown, IsAtBatch, Knows};

    /// Those of a book whose blocks lie in this store.
    pub(crate) fn of(store: Store<Header, Part, T>, book: Seen) -> Blocks<T>
        requires lies { book.name.store ≡ store_name store }
        requires kin { family_in (store_name store) ≡ book.name.family }
        ensures { result.book ≡ book }
    {
        Blocks { store, book }
    }

    /// A block of the value, and the key for that value, by the number that the block has in the store. Where no chunk is in, it asks for
    /// memory, as `Store::add` does; each chunk of a new row has a block of its own.
    ///
    /// # Errors
    ///
    /// `NoMemory` where that growth was refused; the value comes back.
    pub fn add(&self, value: T) -> Result<(ValueKey, Bare<Header, Part, T>), (Refusal, T)>
        ensures made { IfOk result (λ made. IsBlockIn self.now value made.0 made.1) }
        ensures refused { IfErr result (λ refused. (refused.0 ≡ NoMemory) × (refused.1 ≡ value)) }
    {
        let block = self.store.add(value, &self.book)?;
        Ok(self.take_key(block))
    }

    /// The same with the last spot of the list, where it has one: then it takes no atomic step and no memory.
    ///
    /// # Errors
    ///
    /// As `add`, where the list is empty.
    pub fn add_from(
        &self,
        spots: &mut Spots<Header, Part, T>,
        value: T,
    ) -> Result<(ValueKey, Bare<Header, Part, T>), (Refusal, T)>
        requires { AreSpotsIn self.now spots.old }
        ensures made { IfOk result (λ made. IsBlockIn self.now value made.0 made.1) }
        ensures refused { IfErr result (λ refused. (refused.0 ≡ NoMemory) × (refused.1 ≡ value) × is_empty_list spots.old) }
        ensures spots { AreSpotsIn self.now spots.new }
        ensures last { IfOk result (λ made.
            is_empty_list spots.old ⊎ (titles_of spots.old ≡ titles_of spots.new ++ bare_title made.1 ∷ [])) }
    {
        let block = self.store.add_from(spots, value, &self.book)?;
        Ok(self.take_key(block))
    }

    /// An empty list of spots for its blocks, with room for `SPOTS`, which is all the memory that it ever takes. Whoever makes and ends
    /// many blocks keeps one. Its spots go back into the store when it ends.
    ///
    /// # Errors
    ///
    /// Where that memory is refused.
    pub fn spots(&self, alloc: Global) -> Result<Spots<Header, Part, T>, AllocError>
        ensures { IfOk result (λ spots. AreSpotsIn self.now spots × is_empty_list spots) }
    {
        Spots::new(alloc)
    }

    // The key for the value of this block comes out of it.
    fn take_key(&self, block: Owned<Header, Part, T>) -> (ValueKey, Bare<Header, Part, T>)
        requires { (blocks_book self.now).store ≡ store_of block }
        ensures made { IsBlockIn self.now (owned_value block) result.0 result.1 }
        ensures title { bare_title result.1 ≡ title_of block }
    {
        let (part, block) = block.split();
        let Part { key, book } = part;
        let known = block.known();
        self.book.agree(&book);
        let key = key.place(block.number() as u64, known);
        (key, block)
    }

    /// The block is lent: who finds its value in a link sees what lies there, by its number (`see`), and it comes back by its number when
    /// a slot's call is about to hand the value (`redeem`). The key is for another value of the block then, which stands for what is lent.
    /// The block is in nobody's hands until it comes back. The permit is for its code. It does nothing when the program runs but for a
    /// look-up, and takes no memory.
    pub fn lend(&self, key: &mut ValueKey, block: Bare<Header, Part, T>, permit: Permit)
        requires block { IsBlockIn self.now (bare_value block) key.old block }
        requires permit { IsPermitFor (blocks_book self.now) (T.row.coded.code (bare_value block)) permit }
        ensures block { IsInBlockOf key.old key.new }
        ensures lent { LendsIn self.now key.new (bare_number block) (T.row.coded.code (bare_value block)) }
    {
        let (ticket, pool) = self.store.lend(block);
        key.lend(ticket, pool, permit);
    }

    /// What is lent with the value that was found in a link, for as long as the store and the reader's activation are borrowed: a value of
    /// the code that the value's name says. The number is that of the link's word, less 1. The pass looks at the list.
    ///
    /// It takes no memory: three loads, each of which waits for the one before, with that of what is read in the value.
    #[inline(always)]
    pub fn see<'g>(&'g self, number: u64, glimpse: Glimpse<'g>, pass: &mut Pass) -> &'g T
        requires book { blocks_book self.now ≡ pass.old.name }
        requires found { IsFoundAt glimpse.value number pass.old }
        ensures looks { LooksOn pass.old pass.new }
        ensures code { IsFoundAs glimpse.entry.value (T.row.coded.code result.now) }
    {
        let known = pass.seek(number);
        self.store.see(number as usize, &known, glimpse.sight())
    }

    /// The same where the row of the number is shown, by a link that stands still. No event is made, and the list is not looked at.
    pub(crate) fn see_in<'g>(&'g self, number: u64, row: &RowToken, glimpse: Glimpse<'g>) -> &'g T
        requires row { (v : ℕ) × (glimpse.value ≡ Some v) × IsRowAt (blocks_book self.now) v row.now × CarriesOne v
            × (block_number v ≡ number) }
        ensures code { IsFoundAs glimpse.entry.value (T.row.coded.code result.now) }
    {
        self.store.see(number as usize, row, glimpse.sight())
    }

    /// What is lent with the value that this key is for, for as long as the store and the key are borrowed: a value of the code that the
    /// value's name says. The number is that of the value's block. So whoever took a value out of a link reads it while others see it by
    /// their activations, and whoever has one that was never named reads that. No event is made, and the list is not looked at.
    ///
    /// It takes no memory: three loads, each of which waits for the one before, with that of what is read in the value.
    pub fn peek<'g>(&'g self, number: u64, key: &'g ValueKey) -> &'g T
        requires book { book_of key.now ≡ blocks_book self.now }
        requires lent { IsLentKey key.now × (block_number (value_of key.now) ≡ number) }
        ensures code { IsLentAs (value_of key.now) (T.row.coded.code result.now) }
    {
        let row = key.row();
        self.store.see(number as usize, &row, key.sight())
    }

    /// The block whose value the slot's call is about to hand to its reclaimer, in hand again: nobody sees it any more, and its reclaimer
    /// may have it before that names further ones. It has a value of the code that was lent. The key is for another value of the block
    /// then, which may be named, or laid back with the block, when this one was handed (`ValueKey::settle`). The pass looks at the list.
    /// It takes no memory and no atomic step.
    pub fn redeem(
        &self,
        number: u64,
        key: &mut ValueKey,
        slot: &mut SlotKey,
        pass: &mut Pass,
    ) -> Bare<Header, Part, T>
        requires book { IsValueOf key.old pass.old × IsKeyOfBook slot.old pass.old × (blocks_book self.now ≡ pass.old.name) }
        requires knows { Knows slot.old pass.old }
        requires soon { hands_next (slot_of slot.old) ≡ Some (value_of key.old) }
        requires last { IsLast key.old }
        requires lent { IsLentKey key.old × (block_number (value_of key.old) ≡ number) }
        ensures looks { LooksOn pass.old pass.new }
        ensures slot { IsStill slot.old slot.new }
        ensures knows { Knows slot.new pass.new }
        ensures block { IsBlockAfter (value_of key.old) self.now (bare_value result) key.new result × (bare_number result ≡ number) }
        ensures code { IsLentAs (value_of key.old) (T.row.coded.code (bare_value result)) }
    {
        let (ticket, pool) = key.redeem(slot, pass);
        let known = pass.seek(number);
        self.store.back(number as usize, &known, ticket, pool)
    }

    /// The block of a value that was lent and never named, as where an exchange was lost, in hand again: nobody can have found it in a
    /// link. It has a value of the code that was lent. The key is for another value of the block then, with which nothing is lent. It
    /// makes no event, waits for nobody, and does nothing when the program runs but for a look-up.
    pub fn withdraw(
        &self,
        number: u64,
        key: &mut ValueKey,
        pass: &mut Pass,
    ) -> Bare<Header, Part, T>
        requires book { IsValueOf key.old pass.old × (blocks_book self.now ≡ pass.old.name) }
        requires new { IsNextIn key.old number }
        requires lent { IsLentKey key.old }
        ensures pass { pass.new ≡ pass.old }
        ensures home { IsInBlockOf key.old key.new }
        ensures block { IsBlockIn self.now (bare_value result) key.new result × (bare_number result ≡ number) }
        ensures code { IsLentAs (value_of key.old) (T.row.coded.code (bare_value result)) }
    {
        let row = key.row();
        let (ticket, pool) = key.withdraw(pass);
        self.store.back(number as usize, &row, ticket, pool)
    }

    /// A block goes into the list whose values were all reclaimed, and the last one taken out (`Bare::take`). Its chunk stays claimed, with
    /// the block's key. Where the list is full, half of it goes back into the store first, by one swap each. It takes no memory.
    pub fn lay_into(
        &self,
        key: ValueKey,
        hollow: Hollow<Header, Part, T>,
        spots: &mut Spots<Header, Part, T>,
    )
        requires book { book_of key ≡ blocks_book self.now }
        requires vacant { IsVacated key }
        requires lay { LayIn key hollow × ((blocks_book self.now).store ≡ hollow_store hollow) }
        requires spots { AreSpotsIn self.now spots.old }
        ensures spots { AreSpotsIn self.now spots.new }
        ensures last { titles_of spots.new ≡ titles_with (titles_of spots.old) (hollow_title hollow) }
    {
        hollow.put_into(self.part(key), spots);
    }

    // What goes with a chunk whose values were all reclaimed.
    fn part(&self, key: ValueKey) -> Part
        requires book { book_of key ≡ blocks_book self.now }
        requires vacant { IsVacated key }
        ensures { IsPartOf key result }
    {
        Part {
            key: key.bare(),
            book: self.book.again(),
        }
    }

    /// The header of the block with this number, which is that of a value that was named, as the pass has seen. The pass looks at the list.
    ///
    /// It takes no memory: three loads, each of which waits for the one before, with that of the word that is read in the header.
    #[inline(always)]
    pub fn header(&self, number: u64, pass: &mut Pass) -> &Header
        requires book { blocks_book self.now ≡ pass.old.name }
        requires named { HasNumber number (state_seen pass.old) }
        ensures looks { LooksOn pass.old pass.new }
        ensures header { IsHeaderOf result.now number pass.new }
    {
        let known = pass.seek(number);
        let place = self.store.place(number as usize, &known);
        let header = place.header();
        pass.agree(&header.book);
        header
    }

    /// The cell where whoever has this key notes what it keeps of the block with this number, in which the key's value lies, whether that
    /// was ever named or not. No event is made, and the list is not looked at.
    ///
    /// It takes no memory: two loads, each of which waits for the one before.
    #[inline(always)]
    pub fn cell(&self, number: u64, key: &ValueKey) -> &TokenCell<Note>
        requires book { book_of key.now ≡ blocks_book self.now }
        requires number { block_number (value_of key.now) ≡ number }
        ensures cell { result.now.name ≡ cell_in key.now }
        ensures fits { number + 2 < 2 ^ 64 }
    {
        let row = key.row();
        let place = self.store.place(number as usize, &row);
        let header = place.header();
        &header.note
    }

    /// Counts down the next batch of a walk, to which this word leads: that of the slot's head as it came out, or what the step before
    /// gave. It gives the word of the rest of the walk, and whether the batch's values are given up to the slot's call then: if they are,
    /// their keys come out. Last, it gives the number of the batch's first block.
    ///
    /// It takes no memory and waits for nobody: two look-ups, two loads and one atomic subtraction.
    pub fn count_down(
        &self,
        word: u64,
        key: &mut SlotKey,
        values: &mut ValueKeys,
        pass: &mut Pass,
    ) -> (u64, bool, u64)
        requires book { IsKeyOfBook key.old pass.old × (blocks_book self.now ≡ pass.old.name) × IsEmpty values.old pass.old }
        requires knows { Knows key.old pass.old }
        requires at { IsAtBatch key.old word }
        ensures knows { Knows key.new pass.new }
        ensures counts { (at : IsAtBatch key.old word) → CountsDown at pass.old key.new values.new pass.new result.0 result.1 }
        ensures front { (at : IsAtBatch key.old word) → IsFrontBlock key.old at.batch result.2 }
    {
        let header = self.header(word - 2, pass);
        let rest = header.next.load(key, pass);
        let front = header.first.load(key, pass);
        let first = self.header(front, pass);
        (rest, first.count.subtract(key, values, pass), front)
    }
}
