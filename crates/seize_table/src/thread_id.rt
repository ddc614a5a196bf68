//! The numbers of slots: where each lies in a table, and which of them are in use. It uses `refusal` alone; the table and the
//! collector stand on it.
ghost use Rattle.std.specs.Prelude.{◌≡◌, ◌≢◌, ℕ, true, ◌+◌, ◌^◌, ◌<◌, ◌≤◌, ◌↔◌, IsNone, IfSome, IfOk, IfErr, OnErr, Err, ◌⊎◌, sum};
ghost use Rattle.std.specs.FinSet as set;
ghost use Rattle.seize_table.specs.Place.{IsPlace, OnePlace, OneNumber, capacities};
ghost use Rattle.seize_table.specs.Free.{Least};
ghost use Rattle.seize_table.specs.declared.refusal.Refusal.TheVariants.{NoMemory, NoNumbers};

use crate::Refusal;
use std::alloc::Global;
use std::cmp::Reverse;
use std::collections::BinaryHeap;
use std::marker::Model;

/// How many buckets a table has.
pub const BUCKETS: usize = 59;

/// The greatest number that has a place in a table: 2^64 - 33.
pub const MAX_INDEX: usize = usize::MAX - 32;

// Bucket 0 has 2^5 entries, as many as all the smaller buckets that are left out would have, and one more.
const FIRST_BITS: usize = 5;

/// The place of a slot's number in a table. Only `Thread::new` makes one, so its fields always fit together.
#[derive(Clone, Copy, Debug, PartialEq, Eq)]
pub struct Thread {
    /// The number.
    pub id: usize,
    /// The bucket, below `BUCKETS`.
    pub bucket: usize,
    /// The entry in the bucket, below the bucket's capacity.
    pub entry: usize,
    ghost in_table: { bucket < 59 },
    ghost placed: { IsPlace id bucket entry },
}

impl Thread {
    /// The place of the number `id`: the one pair with 2^(bucket + 5) + entry = id + 32 whose entry is below 2^(bucket + 5).
    /// `None` where `id` is above `MAX_INDEX`. It takes constant time and no memory.
    pub fn new(id: usize) -> Option<Thread>
        ensures none { IsNone result ↔ (MAX_INDEX < id) }
        ensures number { IfSome result (λ thread. thread.id ≡ id) }
        ensures place { IfSome result (λ thread. IsPlace id thread.bucket thread.entry) }
        ensures bucket { IfSome result (λ thread. thread.bucket < BUCKETS) }
    {
        if id > MAX_INDEX {
            return None;
        }
        let (bucket, entry) = locate(id);
        Some(Thread { id, bucket, entry })
    }

    // The place of entry `entry` in bucket `bucket`.
    pub(crate) fn at(bucket: usize, entry: usize) -> Thread
        requires bucket { bucket < BUCKETS }
        requires entry { entry < 2 ^ (bucket + 5) }
        ensures { (result.bucket ≡ bucket) × (result.entry ≡ entry) × IsPlace result.id bucket entry }
    {
        Thread {
            id: Thread::bucket_capacity(bucket) - (1 << FIRST_BITS) + entry,
            bucket,
            entry,
        }
    }

    /// How many entries the bucket has: 2^(bucket + 5). The bucket is below `BUCKETS`.
    pub fn bucket_capacity(bucket: usize) -> usize
        requires { bucket < BUCKETS }
        ensures { result ≡ 2 ^ (bucket + 5) }
    {
        1 << (bucket + FIRST_BITS)
    }
}

fn locate(id: usize) -> (usize, usize)
    requires { id ≤ MAX_INDEX }
    ensures { (result.0 < BUCKETS) × IsPlace id result.0 result.1 }
{
    let index = id + (1 << FIRST_BITS);
    let bucket = index.ilog2() as usize - FIRST_BITS;
    (bucket, index - Thread::bucket_capacity(bucket))
}

/// What holds of every number and every place. It does nothing: its contract is the laws.
///
/// No number has two places, each entry of each bucket is the place of exactly one number, and the capacities of all
/// buckets sum to `MAX_INDEX + 1`.
pub fn places()
    ensures one_place { OnePlace }
    ensures one_number { OneNumber BUCKETS MAX_INDEX }
    ensures capacities { sum (capacities BUCKETS) ≡ MAX_INDEX + 1 }
{}

/// The numbers of slots, seen as the set of those in use. The numbers that were ever taken are those below `made`, and the
/// ones of them that are free wait in a heap, least first.
#[derive(Drop)]
pub struct Numbers {
    made: usize,
    free: BinaryHeap<Reverse<usize>>,
}

impl Model for Numbers {
    ghost use Rattle.std.specs.FinSet as set;
    ghost use Rattle.std.specs.Ordering.{nat_cmp};
    ghost use Rattle.std.specs.Coded.{coded_ℕ};
    ghost use Rattle.std.specs.BinaryHeap.{heap_items, heap_capacity};
    ghost use Rattle.seize_table.specs.Free.{in_use, IsRoomy};

    ghost Value = { set.FinSet nat_cmp };

    ghost coded = { set.code coded_ℕ };

    ghost view = { λ n. in_use n.made (heap_items n.free) };

    ghost invariant = { λ n. IsRoomy n.made (heap_items n.free) (heap_capacity n.free) };
}

impl Numbers {
    /// No number is in use. It takes no memory; `take` takes it from `alloc`.
    pub fn new(alloc: Global) -> Numbers
        ensures { result ≡ set.empty }
    {
        Numbers {
            made: 0,
            free: BinaryHeap::new(alloc),
        }
    }

    /// Takes the least number that is not in use.
    ///
    /// Its cost grows with the logarithm of how many numbers are free, and at times, where none is free, it moves the room, which
    /// takes 8 bytes for each number ever made.
    ///
    /// # Errors
    ///
    /// `NoNumbers` where all the numbers from 0 to `MAX_INDEX` are in use, and only then; `NoMemory` where the room for the numbers
    /// made could not grow. After either the same numbers are in use.
    pub fn take(&mut self) -> Result<usize, Refusal>
        ensures least { IfOk result (λ n. Least self.old n) }
        ensures in_table { IfOk result (λ n. n ≤ MAX_INDEX) }
        ensures taken { IfOk result (λ n. self.new ≡ set.insert self.old n) }
        ensures unchanged { OnErr result (self.new ≡ self.old) }
        ensures refusals { IfErr result (λ e. (e ≡ NoNumbers) ⊎ (e ≡ NoMemory)) }
        ensures no_numbers { (result ≡ Err NoNumbers) ↔ ((n : ℕ) → n ≤ MAX_INDEX → set.contains self.old n ≡ true) }
    {
        if let Some(Reverse(number)) = self.free.pop() {
            return Ok(number);
        }
        let number = self.made;
        if number > MAX_INDEX {
            return Err(Refusal::NoNumbers);
        }
        self.free.reserve(number + 1)?;
        self.made = number + 1;
        Ok(number)
    }

    /// Gives back a number that is in use. It takes no memory, since `take` made the room. Its cost grows with the logarithm
    /// of how many numbers are free.
    pub fn give(&mut self, number: usize)
        requires { set.contains self.old number ≡ true }
        ensures { self.new ≡ set.remove self.old number }
    {
        match self.free.push(Reverse(number)) {
            Ok(()) => {}
            Err(_) => unreachable!(),
        }
    }

    /// Whether a number other than `n` is in use. `n` may be any number, in use or not, also one that was never taken.
    ///
    /// It takes no memory. It compares two counts; only where exactly one number is in use it may look through the free ones.
    pub fn others(&self, n: usize) -> bool
        ensures { (result ≡ true) ↔ ((m : ℕ) × (m ≢ n) × (set.contains self.now m ≡ true)) }
    {
        let in_use = self.made - self.free.len();
        if in_use == 1 {
            !self.has(n)
        } else {
            in_use > 1
        }
    }

    // Whether the number is in use. It may look through all that are free.
    fn has(&self, number: usize) -> bool
        ensures { result ≡ set.contains self.now number }
    {
        number < self.made && !self.free.as_slice().contains(&Reverse(number))
    }
}
