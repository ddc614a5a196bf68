//! Works that look numbers up, and one that follows references.
ghost use Rattle.std.specs.Prelude.{◌≡◌, ◌/◌, ◌%◌};
ghost use Rattle.seize_store.specs.RowTokens.{family_in};
ghost use Rattle.seize_store.specs.Named.{row_is, store_by, store_name};

use crate::blocks::{PIPED, block, filled};
use crate::clock::Samples;
use crate::team::runs;
use seize_store::{Family, Owned, Store, TypedRowToken};
use std::alloc::Global;
use std::io;
use std::rt::Clock;
use std::thread::Threads;
use std::time::CpuClock;

const LOOKED: u64 = 1024;

/// How often the numbers are looked up in a run.
const PASSES: u64 = 500;

/// How many blocks stand, of which the first ones are looked up.
pub(crate) const STAND: u64 = PIPED;

fn found(store: &Store<u64, (), u64>, number: usize) -> Option<u64> {
    let (place, _) = store.find(number)?;
    Some(*place.header())
}

fn each_found(store: &Store<u64, (), u64>, numbers: &[usize]) -> u64 {
    let mut sum = 0u64;
    for _ in 0..PASSES {
        for number in numbers.iter() {
            sum = sum.wrapping_add(found(store, *number).unwrap_or(1));
        }
    }
    sum
}

fn numbers_of(all: &[Owned<u64, (), u64>], alloc: Global) -> io::Result<Vec<usize>> {
    let mut numbers = Vec::with_capacity(alloc, LOOKED as usize)?;
    for owned in all.iter().take(LOOKED as usize) {
        numbers.push(owned.number())?;
    }
    Ok(numbers)
}

// The blocks that stand.
fn standing(store: &Store<u64, (), u64>, alloc: Global) -> io::Result<Vec<Owned<u64, (), u64>>>
    requires { family_in (store_name store.now) ≡ 0 }
{
    filled(
        Vec::new(alloc),
        &|value| -> io::Result<Owned<u64, (), u64>>
            requires { family_in (store_name store.now) ≡ 0 }
        { block(store, value) },
    )
}

pub(crate) fn look<R: Clock + CpuClock + Threads + Sync>(
    rt: &R,
    threads: u64,
    alloc: Global,
    samples: &mut Samples,
) -> io::Result<()> {
    let store = Store::new(alloc, &Family::new(0));
    let all = standing(&store, alloc)?;
    let numbers = numbers_of(&all, alloc)?;
    let numbers = numbers.as_slice();
    runs(
        rt,
        threads,
        PASSES * LOOKED,
        samples,
        &|| Ok(each_found(&store, numbers)),
    )
}

/// How many numbers are looked up by one token: the chunks from an entry on that is a multiple of 32 are of one row.
const BY_ONE: usize = 32;

/// How far apart the numbers of chunks lie that are neighbours in a row.
const APART: usize = 64;

fn some_found(
    store: &Store<u64, (), u64>,
    first: usize,
    numbers: &[usize],
    seen: &mut TypedRowToken<u64, (), u64>,
) -> u64
    requires { (store_by seen.old ≡ store_name store.now) × row_is seen.old first × (first / 64 % 32 ≡ 0) }
{
    let mut sum = 0u64;
    for number in numbers.iter() {
        if first <= *number
            && *number % APART == first % APART
            && *number - first < BY_ONE * APART
        {
            sum = sum.wrapping_add(*store.at(*number, seen).header());
        }
    }
    sum
}

fn each_by_token(store: &Store<u64, (), u64>, numbers: &[usize]) -> u64 {
    let mut sum = 0u64;
    for _ in 0..PASSES {
        for part in numbers.chunks(BY_ONE) {
            if let Some(first) = part.first()
                && (*first / APART).is_multiple_of(BY_ONE)
                && let Some(mut seen) = store.seen(*first)
            {
                sum = sum.wrapping_add(some_found(store, *first, part, &mut seen));
            }
        }
    }
    sum
}

pub(crate) fn token<R: Clock + CpuClock + Threads + Sync>(
    rt: &R,
    threads: u64,
    alloc: Global,
    samples: &mut Samples,
) -> io::Result<()> {
    let store = Store::new(alloc, &Family::new(0));
    let all = standing(&store, alloc)?;
    let numbers = numbers_of(&all, alloc)?;
    let numbers = numbers.as_slice();
    runs(
        rt,
        threads,
        PASSES * LOOKED,
        samples,
        &|| Ok(each_by_token(&store, numbers)),
    )
}

fn each_read(places: &[&u64]) -> u64 {
    let mut sum = 0u64;
    for _ in 0..PASSES {
        for place in places.iter() {
            sum = sum.wrapping_add(**place);
        }
    }
    sum
}

fn many<T: Copy>(value: T, alloc: Global) -> io::Result<Vec<Box<T>>> {
    let mut all = Vec::with_capacity(alloc, STAND as usize)?;
    for _ in 0..STAND {
        all.push(Box::new(alloc, value)?)?;
    }
    Ok(all)
}

pub(crate) fn look_plain<R: Clock + CpuClock + Threads + Sync>(
    rt: &R,
    threads: u64,
    alloc: Global,
    samples: &mut Samples,
) -> io::Result<()> {
    let all = many(0u64, alloc)?;
    let mut places = Vec::with_capacity(alloc, LOOKED as usize)?;
    for place in all.iter().take(LOOKED as usize) {
        places.push(&**place)?;
    }
    let places = places.as_slice();
    runs(
        rt,
        threads,
        PASSES * LOOKED,
        samples,
        &|| Ok(each_read(places)),
    )
}

pub(crate) fn look_wide<R: Clock + CpuClock + Threads + Sync>(
    rt: &R,
    threads: u64,
    alloc: Global,
    samples: &mut Samples,
) -> io::Result<()> {
    let all = many([0u64; 8], alloc)?;
    let mut places = Vec::with_capacity(alloc, LOOKED as usize)?;
    for place in all.iter().take(LOOKED as usize) {
        places.push(&place[0])?;
    }
    let places = places.as_slice();
    runs(
        rt,
        threads,
        PASSES * LOOKED,
        samples,
        &|| Ok(each_read(places)),
    )
}
