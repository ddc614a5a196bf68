//! The store: rows of chunks by their numbers. It claims chunks of `row`, and gives them out as spots and blocks; look-ups are in
//! `look_up`.
ghost use Rattle.std.specs.Prelude.{◌≡◌, ◌≢◌, ℕ, ◌+◌, ◌-◌, ◌^◌, ◌<◌, ◌⊎◌, length, List, [], ◌∷◌, ◌++◌, IfOk, IfErr, IfSome, Some};
ghost use Rattle.seize_table.specs.declared.refusal.Refusal.TheVariants.{NoMemory};
ghost use Rattle.seize_store.specs.RowTokens.{chunk_in, family_in};
ghost use Rattle.seize_store.specs.Named.{AreOfStore, count_of, is_empty_list, owned_value, store_name, store_of, title_of, titles_of};
ghost use Rattle.seize_store.specs.Parts.{room_with, spot_store};
ghost use Rattle.seize_store.specs.Titled.{IsRowNote};

use crate::block::Out;
use crate::family::Family;
use crate::kin::NoteOf;
use crate::maker::Maker;
use crate::owned::Owned;
use crate::row::{ROWS, Row, Rows, capacity, number_at, place_of};
use crate::row_token::{RowToken, Title};
use crate::spot::{Spot, Spots};
use seize_table::{Labelled, Refusal};
use std::alloc::Global;
use std::sync::atomic::AtomicUsize;
use std::sync::atomic::Ordering::SeqCst;

/// How many chunks a search may begin before the one that was claimed last. Threads share the hint, so it is seldom written.
const BEHIND: usize = 8;

/// Blocks by their numbers. Threads share a store by `&`.
#[derive(Drop)]
pub struct Store<H: Labelled + Drop, P: Labelled + Drop, T> {
    pub(crate) rows: Rows<H, P, T>,
    hint: AtomicUsize,
    pub(crate) alloc: Global,
}

/// Takes the first chunk of the row that is in, from an entry on and before another.
fn first_in<H: Labelled + Drop, P: Labelled + Drop, T>(
    row: &Row<H, P, T>,
    from: usize,
    end: usize,
) -> Option<(usize, Out<H, P, T>)>
    ensures { IfSome result (λ found. (found.0 < end) × (room_with found.1 ≡ chunk_in row.now found.0)) }
{
    let end = end.min(row.chunks.len());
    for entry in from..end {
        let chunk = &row.chunks[entry].chunk;
        if chunk.is_in() {
            if let Some(out) = chunk.claim() {
                return Some((entry, out));
            }
        }
    }
    None
}

impl<H: Labelled + Drop, P: Labelled + Drop, T> Store<H, P, T> {
    /// A store with no rows, whose chunks will all be of this family. It takes no memory.
    pub fn new(alloc: Global, family: &Family) -> Store<H, P, T>
        ensures { family_in (store_name result) ≡ family.now.number }
    {
        Store {
            rows: Rows::new(alloc, family),
            hint: AtomicUsize::new(0),
            alloc,
        }
    }

    /// Two stores that stand at once have different names, whatever they are made for. It does nothing: its contract is the law.
    pub fn apart<G: Labelled + Drop, Q: Labelled + Drop, U>(&mut self, other: &mut Store<G, Q, U>)
        ensures names { store_name self.old ≢ store_name other.old }
        ensures same { (store_name self.new ≡ store_name self.old) × (store_name other.new ≡ store_name other.old) }
    {
        self.rows.identity.apart(&mut other.rows.identity);
    }

    /// A block of the value, from any thread. It asks for memory only where no chunk was found in, and then makes the first row that is
    /// missing: row r has 2^(r + 5) chunks, which are written before the call returns, and `maker` makes the header and the owner's part
    /// of each from its number. Threads that race for a row each make it, and all but one give theirs up, whose headers and parts end. The
    /// call looks at each chunk at most twice, and waits for nobody. What the maker makes has to be of the store's family.
    ///
    /// # Errors
    ///
    /// `NoMemory` where that growth was refused; the value comes back, and no row was made, though `maker` may have been called.
    pub fn add<M: Maker<H, P>>(&self, value: T, maker: &M) -> Result<Owned<H, P, T>, (Refusal, T)>
    where
        T: Drop,
        requires { M.family maker.now ≡ family_in (store_name self.now) }
        ensures ok { IfOk result (λ o. (owned_value o ≡ value) × (store_of o ≡ store_name self.now)) }
        ensures refused { IfErr result (λ e. (e.0 ≡ NoMemory) × (e.1 ≡ value)) }
    {
        match self.claim(maker) {
            Ok(spot) => Ok(spot.fill(value)),
            Err(refusal) => Err((refusal, value)),
        }
    }

    /// The same with the last spot of the list, where it has one: then it takes no atomic step and no memory.
    ///
    /// # Errors
    ///
    /// As `add`, where the list is empty.
    pub fn add_from<M: Maker<H, P>>(
        &self,
        spots: &mut Spots<H, P, T>,
        value: T,
        maker: &M,
    ) -> Result<Owned<H, P, T>, (Refusal, T)>
    where
        T: Drop,
        requires family { M.family maker.now ≡ family_in (store_name self.now) }
        requires spots { AreOfStore spots.old (store_name self.now) }
        ensures ok { IfOk result (λ o. (owned_value o ≡ value) × (store_of o ≡ store_name self.now)) }
        ensures refused { IfErr result (λ e. (e.0 ≡ NoMemory) × (e.1 ≡ value) × is_empty_list spots.old) }
        ensures spots { AreOfStore spots.new (store_name self.now) }
        ensures count { count_of spots.new ≡ count_of spots.old - 1 }
        ensures made { IfOk result (λ o. is_empty_list spots.old ⊎ (titles_of spots.old ≡ titles_of spots.new ++ title_of o ∷ [])) }
    {
        match spots.list.pop() {
            Some(spot) => Ok(spot.fill(value)),
            None => self.add(value, maker),
        }
    }

    // A chunk that was in: from the hint on in its row, or else the first one, in a new row if need be.
    fn claim<M: Maker<H, P>>(&self, maker: &M) -> Result<Spot<H, P, T>, Refusal>
        requires { M.family maker.now ≡ family_in (store_name self.now) }
        ensures ok { IfOk result (λ spot. spot_store spot ≡ store_name self.now) }
        ensures refused { IfErr result (λ e. e ≡ NoMemory) }
    {
        if let Some(spot) = self.near_hint() {
            return Ok(spot);
        }
        for bucket in 0..ROWS {
            let (row, note) = self.rows.made(self.alloc, bucket, maker)?;
            if let Some(spot) = self.spot_in(bucket, 0, row, note) {
                return Ok(spot);
            }
        }
        Err(Refusal::NoMemory)
    }

    fn near_hint(&self) -> Option<Spot<H, P, T>>
        ensures { IfSome result (λ spot. spot_store spot ≡ store_name self.now) }
    {
        let (bucket, entry) = place_of(self.hint.load(SeqCst));
        if bucket >= ROWS {
            return None;
        }
        let (row, note) = self.rows.found(bucket)?;
        self.spot_in(bucket, entry, row, note)
    }

    // The next search begins at that number, or at most so many chunks before it in its row.
    fn move_hint(&self, number: usize) {
        let (bucket, entry) = place_of(number);
        let (hint_bucket, hint_entry) = place_of(self.hint.load(SeqCst));
        if bucket != hint_bucket || entry < hint_entry || entry - hint_entry >= BEHIND {
            self.hint.store(number, SeqCst);
        }
    }

    // A chunk of the row that is in, from an entry on.
    fn spot_in(
        &self,
        bucket: usize,
        from: usize,
        row: &Row<H, P, T>,
        note: NoteOf<Row<H, P, T>>,
    ) -> Option<Spot<H, P, T>>
        requires { (bucket < ROWS) × IsRowNote (store_name self.now) bucket row.now note }
        ensures { IfSome result (λ spot. spot_store spot ≡ store_name self.now) }
    {
        let end = capacity(bucket);
        if row.len() != end {
            return None;
        }
        let (entry, out) = first_in(row, from, end)?;
        let mut note = note;
        let known = RowToken::of(&self.rows, bucket, &mut note);
        let number = number_at(bucket, entry);
        self.move_hint(number);
        let title = Title {
            number,
            alloc: self.alloc,
            known,
        };
        Some(Spot { out, title })
    }
}
