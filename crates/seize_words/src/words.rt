//! Words: all that threads change of one book. The links lie in a row, the heads of the slots in a table, and the counts and fields of the
//! blocks in a store. It joins `link`, `slots` and `blocks`, and has the calls on links, each of which makes one event by one atomic step,
//! through `&self`.
ghost use Rattle.std.specs.Prelude.{◌≡◌};
ghost use Rattle.seize_words.specs.Chunks.{blocks_book};
ghost use Rattle.seize_words.specs.Named.{links_name};
ghost use Rattle.seize_words.specs.Reserved.{slots_book};

use crate::activation::Activation;
use crate::blocks::Blocks;
use crate::chunk::{Header, Part};
use crate::glimpse::{Found, Glimpse};
use crate::link::{Expected, Expects, Links, MaybeKey};
use crate::slots::{NextSlot, Reservation, Slots};
use seize_book::book::{
    BookKeys, Condition, FutureBook, NumbersKey, Pass, Permit, Permits, Porter, Seen, Sizes,
    SlotKey, Storage,
};
use seize_store::Store;
use seize_table::Refusal;
use seize_table::thread_id::MAX_INDEX;
use seize_table::tls::ThreadLocal;
use std::alloc::Global;
use std::marker::Brand;

/// The words of one book, whose blocks have values of type `T`. Threads share them by `&`.
#[derive(Drop)]
pub struct Words<T> {
    /// The links, by their numbers.
    pub links: Links,
    /// The slots that there are, with their heads, by their numbers.
    pub slots: Slots,
    /// The blocks, with their counts and fields, by their numbers.
    pub blocks: Blocks<T>,
    /// The batch size, in values. A size of 0 serves as 1.
    pub size: usize,
    /// The greatest batch size that there was.
    pub sizes: Sizes,
    /// The id of the collector whose words they are: a number that its maker gave.
    pub id: u64,
    ghost linked: { links_name links ≡ blocks_book blocks },
    ghost slotted: { slots_book slots ≡ blocks_book blocks },
    ghost sized: { sizes.name ≡ blocks_book blocks },
}

impl<T: Drop> Words<T> {
    ghost use Rattle.std.specs.Prelude.{◌<◌, ◌⊎◌, ◌↔◌, ℕ, Err, IfErr, IfOk, IfSome, Option, is_some, length};
    ghost use Rattle.seize_store.specs.Named.{store_name};
    ghost use Rattle.seize_table.specs.Named.{name_of};
    ghost use Rattle.seize_table.specs.declared.refusal.Refusal.TheVariants.{NoMemory, NoNumbers};
    ghost use Rattle.seize_book.specs.Blocks.{link_word};
    ghost use Rattle.seize_book.specs.Books.{HasKeys};
    ghost use Rattle.seize_words.specs.Joined.{IsInAt, IsNewTo, OnLink, OpensWords, with_size, words_book};
    ghost use Rattle.seize_book.specs.Lending.{ArePairsOf, ArePermitsOf};
    ghost use Rattle.seize_book.specs.Porters.{Opens, Resizes};
    ghost use Rattle.seize_words.specs.Chunks.{IsFoundAs};
    ghost use Rattle.seize_words.specs.LinkWords.{CompareExchanges, Finds, IsPermittedExchange, IsPermittedSwap, Sees, Swaps, WasFoundIn, held_before};
    ghost use Rattle.seize_words.specs.Reserved.{HasNextSlot, IsSameNext, MakesNextSlot};
    ghost use Rattle.seize_book.specs.Others.{AreNumbersOf};
    ghost use Rattle.seize_words.specs.Rows.{AreShared, IsSharedAt, StandsAt};

    /// The words of a new book, with so many links, which are empty, and no slot; the list of the codes that may be lent with its values
    /// and that of the pairs that its links may go through; the porter of its passes, which is at home; and the two keys with which its
    /// slots are made. A slot attempts its batch when that has `size` values, and at least one; `set_size` sets another size. The words
    /// keep the `id`. The table of heads has the buckets of the numbers from 0 to `capacity`. It asks for their memory and for that of the
    /// links; the store of blocks has no rows yet.
    ///
    /// # Errors
    ///
    /// `NoNumbers` where `capacity` is above the greatest number, and only then; `NoMemory` where a growth was refused.
    pub fn new<C: Condition, D: Condition>(
        alloc: Global,
        capacity: usize,
        links: usize,
        size: usize,
        id: u64,
    ) -> Result<
        (
            Words<T>,
            Permits<C>,
            Permits<D>,
            Porter,
            NumbersKey,
            NextSlot,
        ),
        Refusal,
    >
        ensures made { IfOk result (λ opened. OpensWords opened.0 opened.3 opened.4 opened.5 links size) }
        ensures shared { IfOk result (λ opened. AreShared opened.0.links) }
        ensures id { IfOk result (λ opened. opened.0.id ≡ id) }
        ensures permits { IfOk result (λ opened. ArePermitsOf (words_book opened.0) opened.1) }
        ensures pairs { IfOk result (λ opened. ArePairsOf (words_book opened.0) opened.2) }
        ensures refused { IfErr result (λ e. (e ≡ NoNumbers) ⊎ (e ≡ NoMemory)) }
        ensures no_numbers { (result ≡ Err NoNumbers) ↔ (MAX_INDEX < capacity) }
    {
        let table = ThreadLocal::with_capacity(alloc, capacity)?;
        let (unopened, family) = FutureBook::new();
        let store = Store::new(alloc, &family);
        let permits = Words::permits::<Brand, C>(&store);
        let pairs = Words::permits::<Brand, D>(&store);
        let (book, porter, keys) = Words::open::<Brand, C, D>(
            &store, &table, &permits, &pairs, unopened, links, size,
        );
        let blocks = Blocks::of(store, book);
        let (words, numbers, next) = Words::of(alloc, blocks, table, keys, links, size, id)?;
        Ok((words, permits, pairs, porter, numbers, next))
    }

    // The list of the codes that may be lent with the values of a book whose blocks lie in this store.
    fn permits<K: Storage, C: Condition>(_store: &Store<Header, Part, T>) -> Permits<C>
        requires { K.store ≡ store_name _store.now }
        ensures { result.store ≡ store_name _store.now }
    {
        Permits::new::<K>()
    }

    // A book whose blocks lie in this store, and whose heads lie in this table; what may be lent is in this list.
    fn open<K: Storage, C: Condition, D: Condition>(
        _store: &Store<Header, Part, T>,
        _table: &ThreadLocal<Reservation>,
        _permits: &Permits<C>,
        _pairs: &Permits<D>,
        unopened: FutureBook,
        links: usize,
        size: usize,
    ) -> (Seen, Porter, BookKeys)
        requires { (K.store ≡ store_name _store.now) × (K.table ≡ name_of _table.now) × (K.permits ≡ _permits.now.list)
            × (K.pairs ≡ _pairs.now.list) }
        ensures book { Opens result.0 result.1 result.2 links size (store_name _store.now) (name_of _table.now) }
        ensures its { (result.0.name.family ≡ unopened.family) × (result.0.name.permits ≡ _permits.now.list)
            × (result.0.name.pairs ≡ _pairs.now.list) }
    {
        unopened.open::<K>(links, size)
    }

    // The words of a book that has just begun, with its blocks, and whose heads lie in this table; and what its slots are made with.
    fn of(
        alloc: Global,
        blocks: Blocks<T>,
        table: ThreadLocal<Reservation>,
        keys: BookKeys,
        links: usize,
        size: usize,
        id: u64,
    ) -> Result<(Words<T>, NumbersKey, NextSlot), Refusal>
        requires lie { blocks.book.name.table ≡ name_of table }
        requires keys { HasKeys blocks.book keys links blocks.book.name.store blocks.book.name.table }
        ensures made { IfOk result (λ made. (made.0.blocks.book ≡ blocks.book) × (made.1 ≡ keys.numbers) × HasNextSlot made.1 made.2
            × AreShared made.0.links) }
        ensures size { IfOk result (λ made. (made.0.size ≡ size) × (made.0.sizes ≡ keys.sizes) × (made.0.id ≡ id)) }
        ensures refused { IfErr result (λ e. e ≡ NoMemory) }
    {
        let BookKeys {
            numbers,
            total,
            next,
            links: left,
            sizes,
        } = keys;
        let book = &blocks.book;
        let links = Links::new(alloc, links, left, book.again())?;
        let next = NextSlot::new(next, 0, book);
        let slots = Slots::of(table, total, book.again());
        let words = Words {
            links,
            slots,
            blocks,
            size,
            sizes,
            id,
        };
        Ok((words, numbers, next))
    }

    /// Sets the batch size, of the passes that the porter lends from then on too. See `Porter::set_size`.
    pub fn set_size(&mut self, porter: &mut Porter, size: usize)
        requires book { porter.old.name ≡ words_book self.old }
        ensures words { self.new ≡ with_size self.old size }
        ensures porter { Resizes porter.old porter.new size }
    {
        porter.set_size(size, &mut self.sizes);
        self.size = size;
    }

    /// Makes the slot that comes next, as `Slots::make` does: the event `Take` of a number that was never in use.
    ///
    /// # Errors
    ///
    /// `NoMemory` where the growth of the table was refused, or the slot's entry was filled already, which no call leads to. Then nothing
    /// was changed, and the slot that comes next is given back.
    pub fn make_slot(
        &self,
        next: NextSlot,
        numbers: &mut NumbersKey,
        pass: &mut Pass,
    ) -> Result<(SlotKey, NextSlot), (Refusal, NextSlot)>
        requires book { (words_book self.now ≡ pass.old.name) × AreNumbersOf numbers.old pass.old }
        requires next { HasNextSlot numbers.old next }
        ensures made { IfOk result (λ made. MakesNextSlot numbers.old next pass.old numbers.new made.0 made.1 pass.new) }
        ensures refused { IfErr result (λ e. (e.0 ≡ NoMemory) × IsSameNext next e.1) }
        ensures unchanged { IfErr result (λ e. (numbers.new ≡ numbers.old) × (pass.new ≡ pass.old)) }
    {
        self.slots.make(next, numbers, pass)
    }

    /// Reads a link: the event `ReadLink`. It gives the link's word and a glimpse of what the link holds. See `Link::see`.
    ///
    /// It takes no memory and waits for nobody: one load to find the link, and one atomic load.
    pub fn read_link<'g>(
        &self,
        link: usize,
        activation: &'g Activation,
        pass: &mut Pass,
    ) -> (u64, Glimpse<'g>)
        requires shared { IsSharedAt self.now.links link }
        requires book { words_book self.now ≡ pass.old.name }
        requires within { IsInAt activation.now pass.old link }
        ensures sees { OnLink (words_book self.now) link (λ link. Sees link activation.now pass.old pass.new result.0 result.1) }
    {
        self.links.get(link).see(activation, pass)
    }

    /// Finds what a link holds: the event `ReadLink`, after which the pass looks at the list. It gives the link's word, and what is lent
    /// with the value there, if there is one, for as long as the words and the activation are borrowed: other threads may take the value
    /// out meanwhile, and retire it. With it comes what the list calls the value.
    ///
    /// It takes no memory: one load of the link, and the look-up of a block, as `Blocks::see`.
    pub fn find<'g>(
        &'g self,
        link: usize,
        activation: &'g Activation,
        pass: &mut Pass,
    ) -> (u64, Option<Found<'g, T>>)
        requires shared { IsSharedAt self.now.links link }
        requires book { words_book self.now ≡ pass.old.name }
        requires within { IsInAt activation.now pass.old link }
        ensures finds { OnLink (words_book self.now) link (λ link. (finds : Finds link activation.now pass.old pass.new result.0)
            × (is_some result.1 ≡ is_some (held_before finds.reads))
            × IfSome result.1 (λ found. (found.glimpse.value ≡ held_before finds.reads)
            × IsFoundAs found.glimpse.value (T.row.coded.code found.value.now))) }
    {
        let (word, mut glimpse) = self.read_link(link, activation, pass);
        if word == 0 {
            return (word, None);
        }
        let value = self.blocks.see(word - 1, glimpse.again(), pass);
        (word, Some(Found { value, glimpse }))
    }

    /// What a link holds that stands still: its word, and what is lent with the value there, if there is one, for as long as the words are
    /// borrowed. With it comes what the list calls the value. It makes no event, and needs no activation.
    ///
    /// It takes no memory: two loads to find the link and its word, and the look-up of a block, as `Blocks::see`.
    pub fn peek_link(&self, link: usize) -> Option<(u64, Found<'_, T>)>
        requires range { link < length (words_book self.now).links }
        requires stands { (held : Option ℕ) × StandsAt self.now.links link held }
        ensures held { (held : Option ℕ) → StandsAt self.now.links link held → (is_some result ≡ is_some held)
            × IfSome result (λ found. (found.0 ≡ link_word held) × (found.1.glimpse.value ≡ held)
            × IsFoundAs held (T.row.coded.code found.1.value.now)) }
    {
        let (word, row, mut glimpse) = self.links.get(link).peek()?;
        let value = self.blocks.see_in(word - 1, &row, glimpse.again());
        Some((word, Found { value, glimpse }))
    }

    /// Exchanges what a link holds for a value that was never named, or for none, in any case: the event `ExchangeLink`. See `Link::swap`.
    ///
    /// It takes no memory and waits for nobody: one load to find the link, and one atomic swap.
    pub fn swap_link(
        &self,
        link: usize,
        new: u64,
        value: &mut MaybeKey,
        activation: &Activation,
        pass: &mut Pass,
        permit: &Permit,
    ) -> u64
        requires shared { IsSharedAt self.now.links link }
        requires book { words_book self.now ≡ pass.old.name }
        requires within { IsInAt activation.now pass.old link }
        requires new { IsNewTo (words_book self.now) value.old new }
        requires rule { IsPermittedSwap link value.old pass.old permit.now }
        ensures swaps { OnLink (words_book self.now) link (λ link.
            Swaps link activation.now value.old pass.old value.new pass.new result) }
    {
        self.links
            .get(link)
            .swap(new, value, activation, pass, permit)
    }

    /// The same, but only if the link holds what it is expected to hold. See `Link::compare_exchange`.
    ///
    /// It takes no memory and waits for nobody: one load to find the link, and one atomic compare and exchange.
    pub fn exchange_link<'g, E: Expects>(
        &self,
        link: usize,
        expected: &Expected<'_>,
        new: u64,
        value: &mut MaybeKey,
        activation: &'g Activation,
        pass: &mut Pass,
        permit: &Permit,
    ) -> (u64, Glimpse<'g>)
        requires shared { IsSharedAt self.now.links link }
        requires book { words_book self.now ≡ pass.old.name }
        requires within { IsInAt activation.now pass.old link }
        requires new { IsNewTo (words_book self.now) value.old new }
        requires seen { expected.now.word ≡ link_word E.current }
        requires found { WasFoundIn expected.now.lasting E.current pass.old }
        requires rule { IsPermittedExchange link value.old pass.old E.current permit.now }
        ensures exchanges { OnLink (words_book self.now) link (λ link.
            CompareExchanges link activation.now value.old pass.old E.current value.new pass.new result.0 result.1) }
    {
        self.links
            .get(link)
            .compare_exchange::<Brand>(expected, new, value, activation, pass, permit)
    }
}
