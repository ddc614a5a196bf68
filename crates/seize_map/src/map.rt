//! The map: one cell for each bucket, and each call one read or one alteration of the cell in which its key lies. So a call has one moment
//! of the list of all events, at which the whole map is what its contract says.
ghost use Rattle.std.specs.Prelude.{◌≡◌, ◌<◌, option_copied, option_map};
ghost use Rattle.std_alloc.specs.Arc.{arc_value};
ghost use Rattle.seize.specs.Links.{shared_value};
ghost use Rattle.seize_map.specs.Buckets.{value_of};
ghost use Rattle.seize.specs.Collectors.{its_links};
ghost use Rattle.seize_atomic.specs.Cells.{cells_home};

use crate::bucket::{self, Bucket, Entry, Made, entries, find};
use crate::settled::{NotChanged, settled};
use seize::{Collector, Guard, Home, Pass, Reclaim, Shared};
use seize_atomic::cells::Cells;
use std::alloc::Global;
use std::hash::{BuildHasher, Hash};
use std::sync::{Arc, Wait};

/// A map that threads share: the links of a collector, as so many buckets. Its readers take no lock, and wait for nobody.
///
/// Whoever reads or changes it has a guard of the collector. A change puts a new bucket in the place of the old one, which is retired as of
/// kind 0. An entry ends with the last bucket that has it, or later, with the last `Arc` of it that a caller has.
#[derive(Drop)]
pub struct HashMap<'c, K: Hash + Drop, V: Drop, S: BuildHasher + Drop, C: Home<Bucket<K, V>>> {
    pub(crate) cells: Cells<'c, Bucket<K, V>, C>,
    pub(crate) hasher: S,
    pub(crate) alloc: Global,
    ghost some: { 0 < its_links (C.its_words (cells_home cells)) },
}

impl<'c, K: Hash + Drop, V: Drop, S: BuildHasher + Drop, R: Reclaim<Bucket<K, V>>> HashMap<
    'c,
    K,
    V,
    S,
    Collector<Bucket<K, V>, R>,
> {
    ghost use Rattle.seize.specs.Collectors.{its_words};
    ghost use Rattle.seize_map.specs.Maps.{map_hasher, map_home, map_kind};

    /// The map of this collector: its bucket i is link i. It is empty where the links are. Another map of the same collector finds the same
    /// keys where its hasher puts them into the same buckets, and else loses them.
    ///
    /// It takes no memory. `alloc` is for what changes ask for.
    pub fn new(
        collector: &'c Collector<Bucket<K, V>, R>,
        alloc: Global,
        hasher: S,
    ) -> HashMap<'c, K, V, S, Collector<Bucket<K, V>, R>>
        requires some { 0 < its_links (its_words collector.now) }
        ensures { (map_home result ≡ collector.now) × (map_hasher result ≡ hasher) × (map_kind result ≡ 0) }
    {
        HashMap {
            cells: Cells::new(collector),
            hasher,
            alloc,
        }
    }
}

impl<'c, K: Hash + Drop, V: Drop, S: BuildHasher + Drop, C: Home<Bucket<K, V>>> HashMap<
    'c,
    K,
    V,
    S,
    C,
> {
    ghost use Rattle.std.specs.Prelude.{IfOk, None, Option, Some, is_some};
    ghost use Rattle.seize.specs.Collectors.{IsPassOf, its_store};
    ghost use Rattle.seize_map.specs.Buckets.{AnyEntry, MakesBucket, MayReplace, NoEntry, SomeEntry, entries_of};
    ghost use Rattle.seize_map.specs.Maps.{AltersMap, ChangesAt, IsForMap, MakesEntry, PutsNewAt, ReadsBucket, ReadsMap, RemovesAt, map_home, map_words, place_of};
    ghost use Rattle.seize_map.specs.contracts.bucket.Bucket.{the_row};

    /// Its collector, by which threads register, and get guards and passes.
    pub fn collector(&self) -> &'c C
        ensures { result.now ≡ map_home self.now }
    {
        self.cells.collector()
    }

    /// How many buckets there are: as many as the collector has links.
    pub fn buckets(&self) -> usize
        ensures { result ≡ its_links (map_words self.now) }
    {
        self.cells.len()
    }

    // The bucket of a key. A division of 32 bits costs less than one of 64.
    fn place(&self, key: &K) -> usize
        ensures place { result ≡ place_of self.now key.now }
        ensures there { result < its_links (map_words self.now) }
    {
        let hash = self.hasher.hash_one(key) % 4_294_967_296;
        (hash % self.cells.len() as u64) as usize
    }

    /// The value under the key, for as long as the guard is borrowed, as the map has it at the moment at which the bucket is read.
    ///
    /// It takes no memory and no lock, and waits for nobody, but for what `Hash` and `Eq` of the keys do. Its time grows with the bucket.
    pub fn get<'g, G: Guard<Bucket<K, V>, At = C>>(
        &self,
        guard: &'g G,
        key: &K,
        pass: &mut Pass,
    ) -> Option<&'g V>
    where
        K: 'g,
        V: 'g,
        C: 'g,
        requires of { IsForMap self.now (G.its_collector guard.now) pass.old }
        ensures reads { ReadsMap self.now (the_row K.row V.row).coded.code (G.its_slot guard.now) pass.old pass.new key.now
            (option_copied result) }
        ensures pass { IsPassOf (G.its_collector guard.now) pass.new }
    {
        let found = self.cells.read(guard, self.place(key), pass);
        value(find(entries(bucket_of(found)), key))
    }

    /// Whether the map has something under the key, as `get` finds it.
    pub fn contains_key<G: Guard<Bucket<K, V>, At = C>>(
        &self,
        guard: &G,
        key: &K,
        pass: &mut Pass,
    ) -> bool
        requires of { IsForMap self.now (G.its_collector guard.now) pass.old }
        ensures reads { (value : Option V) × ReadsMap self.now (the_row K.row V.row).coded.code (G.its_slot guard.now) pass.old pass.new
            key.now value × (result ≡ is_some value) }
        ensures pass { IsPassOf (G.its_collector guard.now) pass.new }
    {
        self.get(guard, key, pass).is_some()
    }

    /// The entries of bucket i, for as long as the guard is borrowed, as they are at the moment at which it is read. With `buckets` this
    /// walks over the map. The buckets are read at different moments, so an entry that comes or goes meanwhile may be missed.
    ///
    /// It takes no memory and no lock, and waits for nobody.
    pub fn entries<'g, G: Guard<Bucket<K, V>, At = C>>(
        &self,
        guard: &'g G,
        i: usize,
        pass: &mut Pass,
    ) -> &'g [Arc<Entry<K, V>>]
    where
        K: 'g,
        V: 'g,
        C: 'g,
        requires of { IsForMap self.now (G.its_collector guard.now) pass.old }
        requires there { i < its_links (map_words self.now) }
        ensures reads { ReadsBucket self.now (the_row K.row V.row).coded.code (G.its_slot guard.now) i pass.old pass.new
            (entries_of result.now) }
        ensures pass { IsPassOf (G.its_collector guard.now) pass.new }
    {
        entries(bucket_of(self.cells.read(guard, i, pass)))
    }

    /// Puts a value under the key, in the place of the entry of that key, and gives that entry, if there was one. It does so at one
    /// moment: under every other key the map has what it had. The key is replaced too.
    ///
    /// It takes memory for the entry, and for the bucket with it. Where another change of the same bucket came first it tries again,
    /// `tries` times in all, as `u32::MAX`. It waits as `Guard::defer_retire` does.
    ///
    /// # Errors
    ///
    /// `NoMemory` where the allocator refused, or where an entry's count would overflow. `Contended` where all tries were lost, as where
    /// `tries` is 0. Then the call changed nothing, and the key and the value end.
    pub fn insert<G: Guard<Bucket<K, V>, At = C>, W: Wait>(
        &self,
        rt: &W,
        guard: &G,
        key: K,
        value: V,
        tries: u32,
        pass: &mut Pass,
    ) -> Result<Option<Arc<Entry<K, V>>>, NotChanged>
        requires of { IsForMap self.now (G.its_collector guard.now) pass.old }
        requires rule { MayReplace K.eq key (Some (record { key = key; value = value })) G.Reclaimer.keeps G.Reclaimer.owners
            (its_store (map_words self.now)) (place_of self.now key) }
        ensures alters { MakesEntry (AltersMap self.now (the_row K.row V.row).coded.code (G.its_slot guard.now) AnyEntry key
            (Some (record { key = key; value = value })) tries) pass.old pass.new result }
        ensures changes { IfOk result (ChangesAt self.now (the_row K.row V.row).coded.code (G.its_slot guard.now) pass.old pass.new
            key (Some value)) }
        ensures pass { IsPassOf (G.its_collector guard.now) pass.new }
    {
        let Ok(entry) = Arc::new(self.alloc, Entry { key, value }) else {
            return Err(NotChanged::NoMemory);
        };
        let at = self.place(&entry.key);
        let alloc = self.alloc;
        let entry = &entry;
        let put = move |bucket: Option<&Bucket<K, V>>| -> Made<K, V>
            ensures { let new = arc_value entry.entry.now in MakesBucket AnyEntry K.eq new.key (Some new) bucket.entry result }
        { bucket::put(alloc, bucket, entry) };
        settled(self.cells.alter(rt, guard, at, put, tries, pass))
    }

    /// Puts a value under the key where the map has none, and else gives the entry of that key, which stays. It does so at one moment.
    ///
    /// It takes memory and waits as `insert`. Where there is an entry it exchanges nothing, and the key and the value end.
    ///
    /// # Errors
    ///
    /// As `insert`.
    pub fn insert_new<G: Guard<Bucket<K, V>, At = C>, W: Wait>(
        &self,
        rt: &W,
        guard: &G,
        key: K,
        value: V,
        tries: u32,
        pass: &mut Pass,
    ) -> Result<Option<Arc<Entry<K, V>>>, NotChanged>
        requires of { IsForMap self.now (G.its_collector guard.now) pass.old }
        requires rule { MayReplace K.eq key (Some (record { key = key; value = value })) G.Reclaimer.keeps G.Reclaimer.owners
            (its_store (map_words self.now)) (place_of self.now key) }
        ensures alters { MakesEntry (AltersMap self.now (the_row K.row V.row).coded.code (G.its_slot guard.now) NoEntry key
            (Some (record { key = key; value = value })) tries) pass.old pass.new result }
        ensures changes { IfOk result (PutsNewAt self.now (the_row K.row V.row).coded.code (G.its_slot guard.now) pass.old pass.new
            key value) }
        ensures pass { IsPassOf (G.its_collector guard.now) pass.new }
    {
        let Ok(entry) = Arc::new(self.alloc, Entry { key, value }) else {
            return Err(NotChanged::NoMemory);
        };
        let at = self.place(&entry.key);
        let alloc = self.alloc;
        let entry = &entry;
        let put_new = move |bucket: Option<&Bucket<K, V>>| -> Made<K, V>
            ensures { let new = arc_value entry.entry.now in MakesBucket NoEntry K.eq new.key (Some new) bucket.entry result }
        { bucket::put_new(alloc, bucket, entry) };
        settled(self.cells.alter(rt, guard, at, put_new, tries, pass))
    }

    /// Takes out the entry of the key, and gives it, if there is one. It does so at one moment: under every other key the map has what it
    /// had.
    ///
    /// It takes memory for the bucket without the entry, and waits as `insert` does. Where there is no entry it exchanges nothing.
    ///
    /// # Errors
    ///
    /// As `insert`.
    pub fn remove<G: Guard<Bucket<K, V>, At = C>, W: Wait>(
        &self,
        rt: &W,
        guard: &G,
        key: &K,
        tries: u32,
        pass: &mut Pass,
    ) -> Result<Option<Arc<Entry<K, V>>>, NotChanged>
        requires of { IsForMap self.now (G.its_collector guard.now) pass.old }
        requires rule { MayReplace K.eq key.now None G.Reclaimer.keeps G.Reclaimer.owners (its_store (map_words self.now))
            (place_of self.now key.now) }
        ensures alters { AltersMap self.now (the_row K.row V.row).coded.code (G.its_slot guard.now) SomeEntry key.now None tries
            pass.old pass.new result }
        ensures changes { IfOk result (RemovesAt self.now (the_row K.row V.row).coded.code (G.its_slot guard.now) pass.old pass.new
            key.now) }
        ensures pass { IsPassOf (G.its_collector guard.now) pass.new }
    {
        let at = self.place(key);
        let alloc = self.alloc;
        let take = move |bucket: Option<&Bucket<K, V>>| -> Made<K, V>
            ensures { MakesBucket SomeEntry K.eq key.entry.now None bucket.entry result }
        { bucket::take(alloc, bucket, key) };
        settled(self.cells.alter(rt, guard, at, take, tries, pass))
    }
}

// The bucket that was found.
fn bucket_of<'g, K: Drop, V: Drop>(
    found: Option<Shared<'g, Bucket<K, V>>>,
) -> Option<&'g Bucket<K, V>>
    ensures { option_copied result ≡ option_map shared_value found.entry }
{
    match found {
        Some(shared) => Some(shared.get()),
        None => None,
    }
}

// The value of an entry.
fn value<K: Drop, V: Drop>(entry: Option<&Arc<Entry<K, V>>>) -> Option<&V>
    ensures { option_copied result ≡ value_of (option_map arc_value (option_copied entry.entry)) }
{
    match entry {
        Some(entry) => Some(&entry.value),
        None => None,
    }
}
