//! What shows that there is a book, and a beginning of its list that was seen; how a book begins, and keys that are made of it later.
ghost use Rattle.std.specs.Prelude.{◌≡◌, ℕ, List, []};
ghost use base.Stored.{coded_list};
ghost use denote.Sharing.{said};
ghost use Rattle.seize_book.specs.Begin.{book_owns};
ghost use Rattle.seize_book.specs.Entry.{Entry, entry_coded};
ghost use Rattle.seize_book.specs.Tokens.{Name, name_coded};

use crate::book::bare_key::BareKey;
use crate::book::chunk_keys::ChunkKeys;
use crate::book::count_key::CountKey;
use crate::book::field_key::FieldKey;
use crate::book::future_book::FutureBook;
use crate::book::keys::Keys;
use crate::book::pass::Pass;
use crate::book::rights::Rights;
use crate::book::sizes::Sizes;
use seize_content::CellToken;
use std::marker::{Brand, Model, PhantomData};

/// What shows that there is a book, for good. It may be copied, and shared by `&`.
pub struct Seen {
    marker: PhantomData<()>,
    /// The book.
    pub ghost name: { Name } by { name_coded },
    /// A beginning of the list, which a pass learns by [`Pass::learn`].
    pub ghost seen: { List Entry } by { coded_list entry_coded },
}

impl Model for Seen {
    ghost also_owns = { λ b. book_owns b.name b.seen };

    ghost also_shares = { λ b _ κ. said (book_owns b.name b.seen) κ };
}

/// The store where the blocks of a book lie, by whose numbers words hold them, the table where its heads lie, the list of the codes that
/// may be lent, and that of the pairs, before and after, that its links may go through. A caller passes `Brand`, and its proof picks them;
/// those below are of no use, since none of them has this name.
pub trait Storage {
    ghost store: { List ℕ };

    ghost table: { List ℕ };

    ghost permits: { ℕ };

    ghost pairs: { ℕ };
}

impl Storage for Brand {
    ghost store = { [] };

    ghost table = { [] };

    ghost permits = { 0 };

    ghost pairs = { 0 };
}

impl Seen {
    ghost use Rattle.seize_book.specs.Bare.{IsChunkOf, IsNewChunk};
    ghost use Rattle.seize_book.specs.Books.{BeginsWithKeys};
    ghost use Rattle.seize_book.specs.Porters.{HasFirstSize, IsFirst};

    // A new book with all its keys, in the order of `first_keys`, with its first pass, and with the right to set its size.
    pub(crate) fn open<K: Storage>(
        unopened: FutureBook,
        links: usize,
        size: usize,
    ) -> (Seen, Pass<'static>, Keys, Sizes)
        ensures { IsFirst result.0 result.1 × (result.1.size ≡ size) × HasFirstSize result.0 result.3 size
            × BeginsWithKeys result.0 result.2 links K.store K.table
            × (result.0.name.family ≡ unopened.family) × (result.0.name.permits ≡ K.permits) × (result.0.name.pairs ≡ K.pairs) }
    {
        let FutureBook { marker: _ } = unopened;
        let book = Seen {
            marker: PhantomData,
        };
        let pass = Pass {
            marker: PhantomData,
        };
        let keys = Keys {
            marker: PhantomData,
        };
        let sizes = Sizes {
            marker: PhantomData,
        };
        (book, pass, keys, sizes)
    }

    /// A copy of it.
    pub fn again(&self) -> Seen
        ensures { (result.name ≡ self.now.name) × (result.seen ≡ self.now.seen) }
    {
        Seen {
            marker: PhantomData,
        }
    }

    /// Two of one family are of one book. It does nothing: its contract is the law.
    pub fn agree(&self, other: &Seen)
        requires { self.now.name.family ≡ other.now.name.family }
        ensures { self.now.name ≡ other.now.name }
    {}

    /// It has seen what the pass has. What it had seen beyond that it forgets.
    pub fn learn(&mut self, pass: &mut Pass)
        requires { self.old.name ≡ pass.old.name }
        ensures { (self.new.name ≡ self.old.name) × (self.new.seen ≡ pass.old.seen) × (pass.new ≡ pass.old) }
    {}

    /// The keys of a new block, before it is said where the block lies. None of its values was ever named. The token goes with the key of
    /// the values: who has that key notes in its cell.
    pub fn chunk(&self, token: CellToken) -> ChunkKeys
        ensures { IsChunkOf self.now token.name result }
    {
        let (rights, mut count) = self.chunk_keys(token);
        let mut next = count.none();
        let mut first = count.none();
        count.part(&mut next);
        next.part(&mut first);
        ChunkKeys {
            value: BareKey { rights },
            count: CountKey { keys: count },
            next: FieldKey { keys: next },
            first: FieldKey { keys: first },
        }
    }

    // The key of a new block's values, and those of its count and its fields, in this order.
    fn chunk_keys(&self, token: CellToken) -> (Rights, Keys)
        ensures { IsNewChunk token.name token.value result.0 result.1 × (result.0.name ≡ self.now.name) }
    {
        let CellToken { marker: _ } = token;
        let rights = Rights {
            marker: PhantomData,
        };
        let keys = Keys {
            marker: PhantomData,
        };
        (rights, keys)
    }
}

impl Drop for Seen {
    fn drop(self) {
        let Self { marker: _ } = self;
    }
}

unsafe impl Send for Seen {}

unsafe impl Sync for Seen {}
