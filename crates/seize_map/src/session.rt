//! One thread's use of a map with nothing to ask. A `Handle` has a registration of the map's collector, and a `Session` a guard of it, with
//! a pass. Their types say that these belong together, so with the reclaimer `Boxed` their calls have no conditions, but that a function
//! which is given can be called.
ghost use Rattle.std.specs.Prelude.{◌≡◌};
ghost use Rattle.seize.specs.Guards.{guard_collector};
ghost use Rattle.seize.specs.Registrations.{registered_in};
ghost use Rattle.seize_map.specs.Maps.{IsForMap, map_words};

use crate::bucket::{Bucket, Entry};
use crate::map::HashMap;
use crate::settled::NotChanged;
use seize::{Collector, Guard, Home, Pass, Reclaim, Refusal};
use seize_guards::guard::LocalGuard;
use seize_guards::registration::Registration;
use std::hash::{BuildHasher, Hash};
use std::sync::{Arc, Wait};

/// A thread's registration with the collector of a map. It is spent by `end`.
pub struct Handle<
    'm,
    'c,
    K: Hash + Drop,
    V: Drop,
    S: BuildHasher + Drop,
    R: Reclaim<Bucket<K, V>>,
    C: Home<Bucket<K, V>>,
> {
    map: &'m HashMap<'c, K, V, S, C>,
    registration: Registration<'c, Bucket<K, V>, R, C>,
    ghost of: { registered_in registration ≡ map_words map.now },
}

/// A guard for the calls of a map, with a pass of its own. It is spent by `into_parts`.
pub struct Session<
    'h,
    'c,
    K: Hash + Drop,
    V: Drop,
    S: BuildHasher + Drop,
    R: Reclaim<Bucket<K, V>>,
    C: Home<Bucket<K, V>>,
> {
    map: &'h HashMap<'c, K, V, S, C>,
    guard: LocalGuard<'h, 'c, Bucket<K, V>, R, C>,
    pass: Pass<'c>,
    ghost of: { IsForMap map.now (guard_collector guard) pass },
}

impl<'c, K: Hash + Drop, V: Drop, S: BuildHasher + Drop, R: Reclaim<Bucket<K, V>>> HashMap<
    'c,
    K,
    V,
    S,
    Collector<Bucket<K, V>, R>,
> {
    ghost use Rattle.std.specs.Prelude.{IfErr, IfOk};
    ghost use Rattle.seize.specs.Makes.{TakesNumber};
    ghost use Rattle.seize.specs.Puts.{PutBy};
    ghost use Rattle.seize_map.specs.Maps.{map_home};
    ghost use Rattle.seize_map.specs.Sessions.{ByNewPass, handle_map, handle_slot};
    ghost use Rattle.seize_map.specs.contracts.bucket.Bucket.{the_row};
    ghost use Rattle.seize_table.specs.declared.refusal.Refusal.TheVariants.{NoMemory as no_memory};

    /// A registration of the map's collector, for the calling thread. It waits and takes memory as `Collector::register` does.
    ///
    /// # Errors
    ///
    /// As `Collector::register`.
    pub fn handle<W: Wait>(
        &self,
        rt: &W,
    ) -> Result<Handle<'_, 'c, K, V, S, R, Collector<Bucket<K, V>, R>>, Refusal>
        ensures made { IfOk result (λ handle. (handle_map handle ≡ self.now) × ByNewPass (map_home self.now)
            (TakesNumber (PutBy (the_row K.row V.row).coded.code R.puts) (handle_slot handle))) }
        ensures refused { IfErr result (λ refusal. refusal ≡ no_memory) }
    {
        let collector = self.collector();
        let mut pass = collector.pass();
        let registration = collector.register(rt, &mut pass)?;
        Ok(Handle {
            map: self,
            registration,
        })
    }
}

impl<'c, K: Hash + Drop, V: Drop, S: BuildHasher + Drop, R: Reclaim<Bucket<K, V>>> Handle<
    '_,
    'c,
    K,
    V,
    S,
    R,
    Collector<Bucket<K, V>, R>,
> {
    ghost use Rattle.std.specs.Prelude.{IfErr, IfOk};
    ghost use Rattle.seize.specs.Makes.{EndsUse, Enters};
    ghost use Rattle.seize.specs.Puts.{PutBy};
    ghost use Rattle.seize.specs.Registrations.{registered_slot};
    ghost use Rattle.seize_map.specs.Maps.{map_home};
    ghost use Rattle.seize_map.specs.Sessions.{ByNewPass, handle_map, handle_slot, session_map, session_pass, session_slot};
    ghost use Rattle.seize_map.specs.contracts.bucket.Bucket.{the_row};
    ghost use Rattle.seize_table.specs.declared.refusal.Refusal.TheVariants.{TooManyGuards as too_many_guards};

    /// A guard for calls of the map, with a new pass. What another session did is in what this one has seen only where the collector has
    /// learned it: for that keep one session, and `refresh` it. It takes no memory, and waits for nobody.
    ///
    /// # Errors
    ///
    /// `TooManyGuards` as `Registration::enter`, also within another call of this handle.
    pub fn enter(&self) -> Result<Session<'_, 'c, K, V, S, R, Collector<Bucket<K, V>, R>>, Refusal>
        ensures made { IfOk result (λ session. (session_map session ≡ handle_map self.now)
            × (session_slot session ≡ handle_slot self.now) × ByNewPass (map_home (handle_map self.now))
            (λ pass pass'. Enters (handle_slot self.now) pass pass' × (session_pass session ≡ pass'))) }
        ensures refused { IfErr result (λ refusal. refusal ≡ too_many_guards) }
    {
        let mut pass = self.map.collector().pass();
        let guard = self.registration.enter(&mut pass)?;
        Ok(Session {
            map: self.map,
            guard,
            pass,
        })
    }

    /// Ends the registration. It answers false where a guard was forgotten: see `Registration::end`, also for what it waits for.
    pub fn end<W: Wait>(self, rt: &W) -> bool
        ensures { ByNewPass (map_home (handle_map self.entry)) (λ pass pass'.
            EndsUse (PutBy (the_row K.row V.row).coded.code R.puts) (handle_slot self.entry) pass pass' result) }
    {
        let Handle { map, registration } = self;
        let mut pass = map.collector().pass();
        registration.end(rt, &mut pass)
    }

    /// The registration, as for a type whose `Drop` forgets it.
    pub fn into_registration(self) -> Registration<'c, Bucket<K, V>, R, Collector<Bucket<K, V>, R>>
        ensures { (registered_in result ≡ map_words (handle_map self.entry)) × (registered_slot result ≡ handle_slot self.entry) }
    {
        let Handle {
            map: _,
            registration,
        } = self;
        registration
    }
}

impl<
    'h,
    'c,
    K: Hash + Drop,
    V: Drop,
    S: BuildHasher + Drop,
    R: Reclaim<Bucket<K, V>>,
    C: Home<Bucket<K, V>>,
> Session<'h, 'c, K, V, S, R, C> {
    ghost use Rattle.std.specs.Prelude.{◌⊎◌, IfOk, None, Option, Some, is_some, option_copied};
    ghost use denote.Bor.{Bor};
    ghost use Rattle.seize.specs.Collectors.{IsPassOf, its_store};
    ghost use Rattle.seize.specs.Guards.{guard_slot};
    ghost use Rattle.seize.specs.Job.TheVariants.{Refresh};
    ghost use Rattle.seize.specs.Makes.{MakesCall, StaysActive};
    ghost use Rattle.seize.specs.Puts.{PutBy};
    ghost use Rattle.seize_map.specs.Buckets.{AnyEntry, MayReplace, NoEntry, SomeEntry};
    ghost use Rattle.seize_map.specs.Maps.{AltersMap, ChangesAt, MakesEntry, PutsNewAt, ReadsMap, RemovesAt, place_of};
    ghost use Rattle.seize_map.specs.Sessions.{IsSameSession, session_map, session_pass, session_slot};
    ghost use Rattle.seize_map.specs.contracts.bucket.Bucket.{the_row};

    /// What `f` makes of the value under the key, or of `None`: see `HashMap::get`. The value can be read for as long as `f` runs.
    pub fn get_with<A, F: FnOnce(Option<&V>) -> A>(&mut self, key: &K, f: F) -> A
        requires callable { F.IsAlwaysCallable f }
        ensures same { IsSameSession self.old self.new }
        ensures reads { (value : Option V) × ReadsMap (session_map self.old) (the_row K.row V.row).coded.code (session_slot self.old)
            (session_pass self.old) (session_pass self.new) key.now value
            × ((found : Option (Bor V)) × (option_copied found ≡ value) × F.post f found result) }
    {
        f(self.map.get(&self.guard, key, &mut self.pass))
    }

    /// A copy of the value under the key: see `HashMap::get`.
    pub fn get(&mut self, key: &K) -> Option<V>
    where
        V: Copy,
        ensures same { IsSameSession self.old self.new }
        ensures reads { ReadsMap (session_map self.old) (the_row K.row V.row).coded.code (session_slot self.old)
            (session_pass self.old) (session_pass self.new) key.now result }
    {
        self.map.get(&self.guard, key, &mut self.pass).copied()
    }

    /// Whether there is one.
    pub fn contains_key(&mut self, key: &K) -> bool
        ensures same { IsSameSession self.old self.new }
        ensures reads { (value : Option V) × ReadsMap (session_map self.old) (the_row K.row V.row).coded.code
            (session_slot self.old) (session_pass self.old) (session_pass self.new) key.now value × (result ≡ is_some value) }
    {
        self.map.contains_key(&self.guard, key, &mut self.pass)
    }

    /// Puts a value under the key, and gives the entry that was there: see `HashMap::insert`, also for its errors.
    ///
    /// # Errors
    ///
    /// As `HashMap::insert`.
    pub fn insert<W: Wait>(
        &mut self,
        rt: &W,
        key: K,
        value: V,
        tries: u32,
    ) -> Result<Option<Arc<Entry<K, V>>>, NotChanged>
        requires rule { MayReplace K.eq key (Some (record { key = key; value = value })) R.keeps R.owners
            (its_store (map_words (session_map self.old))) (place_of (session_map self.old) key) }
        ensures same { IsSameSession self.old self.new }
        ensures alters { MakesEntry (AltersMap (session_map self.old) (the_row K.row V.row).coded.code (session_slot self.old) AnyEntry key
            (Some (record { key = key; value = value })) tries) (session_pass self.old) (session_pass self.new) result }
        ensures changes { IfOk result (ChangesAt (session_map self.old) (the_row K.row V.row).coded.code (session_slot self.old)
            (session_pass self.old) (session_pass self.new) key (Some value)) }
    {
        self.map
            .insert(rt, &self.guard, key, value, tries, &mut self.pass)
    }

    /// Puts a value under the key where there is none: see `HashMap::insert_new`.
    ///
    /// # Errors
    ///
    /// As `HashMap::insert`.
    pub fn insert_new<W: Wait>(
        &mut self,
        rt: &W,
        key: K,
        value: V,
        tries: u32,
    ) -> Result<Option<Arc<Entry<K, V>>>, NotChanged>
        requires rule { MayReplace K.eq key (Some (record { key = key; value = value })) R.keeps R.owners
            (its_store (map_words (session_map self.old))) (place_of (session_map self.old) key) }
        ensures same { IsSameSession self.old self.new }
        ensures alters { MakesEntry (AltersMap (session_map self.old) (the_row K.row V.row).coded.code (session_slot self.old) NoEntry key
            (Some (record { key = key; value = value })) tries) (session_pass self.old) (session_pass self.new) result }
        ensures changes { IfOk result (PutsNewAt (session_map self.old) (the_row K.row V.row).coded.code (session_slot self.old)
            (session_pass self.old) (session_pass self.new) key value) }
    {
        self.map
            .insert_new(rt, &self.guard, key, value, tries, &mut self.pass)
    }

    /// Takes out the entry of the key, and gives it: see `HashMap::remove`.
    ///
    /// # Errors
    ///
    /// As `HashMap::insert`.
    pub fn remove<W: Wait>(
        &mut self,
        rt: &W,
        key: &K,
        tries: u32,
    ) -> Result<Option<Arc<Entry<K, V>>>, NotChanged>
        requires rule { MayReplace K.eq key.now None R.keeps R.owners (its_store (map_words (session_map self.old)))
            (place_of (session_map self.old) key.now) }
        ensures same { IsSameSession self.old self.new }
        ensures alters { AltersMap (session_map self.old) (the_row K.row V.row).coded.code (session_slot self.old) SomeEntry key.now
            None tries (session_pass self.old) (session_pass self.new) result }
        ensures changes { IfOk result (RemovesAt (session_map self.old) (the_row K.row V.row).coded.code (session_slot self.old)
            (session_pass self.old) (session_pass self.new) key.now) }
    {
        self.map.remove(rt, &self.guard, key, tries, &mut self.pass)
    }

    /// Lets go of what it has seen: its guard refreshes. See `Guard::refresh`.
    pub fn refresh<W: Wait>(&mut self, rt: &W)
        ensures same { IsSameSession self.old self.new }
        ensures refreshes { MakesCall (PutBy (the_row K.row V.row).coded.code R.puts) (session_slot self.old) Refresh
            (session_pass self.old) (session_pass self.new)
            ⊎ StaysActive (session_slot self.old) (session_pass self.old) (session_pass self.new) }
    {
        self.guard.refresh(rt, &mut self.pass);
    }

    /// Ends the session: its guard, which is to leave, and the pass, which has seen all that the session did.
    pub fn into_parts(self) -> (LocalGuard<'h, 'c, Bucket<K, V>, R, C>, Pass<'c>)
        ensures of { IsPassOf (guard_collector result.0) result.1 × (guard_collector result.0 ≡ map_words (session_map self.entry)) }
        ensures parts { (guard_slot result.0 ≡ session_slot self.entry) × (result.1 ≡ session_pass self.entry) }
    {
        let Session {
            map: _,
            guard,
            pass,
        } = self;
        (guard, pass)
    }
}
