//! Works that make and end blocks, and the same with boxes.
ghost use Rattle.std.specs.Prelude.{◌≡◌};
ghost use Rattle.seize_store.specs.RowTokens.{family_in};
ghost use Rattle.seize_store.specs.Named.{AreOfStore, store_name};

use crate::clock::{RUNS, Samples};
use crate::team::{Team, runs};
use seize_store::{Family, Maker, Owned, Spots, Store};
use std::alloc::{AllocError, Global};
use std::rt::Clock;
use std::thread::Threads;
use std::time::CpuClock;
use std::{io, thread};

// How many operations a run has, so that it takes 1 to 2 ms.
const BY_SPOTS: u64 = 1_200_000;

const BARE: u64 = 60_000;

const BOXED: u64 = 150_000;

/// How many blocks go from one thread to another in a run.
pub(crate) const PIPED: u64 = 30_000;

/// Makes headers of 0, and empty owners' parts.
#[derive(Drop)]
struct Zero;

impl Maker<u64, ()> for Zero {
    ghost family = { λ _. 0 };

    fn make(&self, _number: usize) -> (u64, ()) {
        (0, ())
    }
}

pub(crate) fn make<R: Clock + CpuClock + Threads + Sync>(
    rt: &R,
    threads: u64,
    alloc: Global,
    samples: &mut Samples,
) -> io::Result<()> {
    let store = Store::new(alloc, &Family::new(0));
    runs(
        rt,
        threads,
        BY_SPOTS,
        samples,
        &|| -> io::Result<u64>
            requires { family_in (store_name store) ≡ 0 }
        { through_spots(&store, alloc) },
    )
}

fn through_spots(store: &Store<u64, (), u64>, alloc: Global) -> io::Result<u64>
    requires { family_in (store_name store.now) ≡ 0 }
{
    let mut spots = Spots::new(alloc)?;
    let mut sum = 0u64;
    for value in 0..BY_SPOTS {
        let Ok(owned) = store.add_from(&mut spots, value, &Zero) else {
            return Err(AllocError.into());
        };
        sum = sum.wrapping_add(owned.empty_into(&mut spots));
    }
    Ok(sum)
}

pub(crate) fn make_bare<R: Clock + CpuClock + Threads + Sync>(
    rt: &R,
    threads: u64,
    alloc: Global,
    samples: &mut Samples,
) -> io::Result<()> {
    let store = Store::new(alloc, &Family::new(0));
    runs(
        rt,
        threads,
        BARE,
        samples,
        &|| -> io::Result<u64>
            requires { family_in (store_name store) ≡ 0 }
        { through(&store) },
    )
}

fn through(store: &Store<u64, (), u64>) -> io::Result<u64>
    requires { family_in (store_name store.now) ≡ 0 }
{
    let mut sum = 0u64;
    for value in 0..BARE {
        sum = sum.wrapping_add(block(store, value)?.into_inner());
    }
    Ok(sum)
}

pub(crate) fn make_box<R: Clock + CpuClock + Threads + Sync>(
    rt: &R,
    threads: u64,
    alloc: Global,
    samples: &mut Samples,
) -> io::Result<()> {
    runs(rt, threads, BOXED, samples, &|| through_boxes(alloc))
}

fn through_boxes(alloc: Global) -> io::Result<u64> {
    let mut sum = 0u64;
    for value in 0..BOXED {
        sum = sum.wrapping_add(Box::into_inner(Box::new(alloc, value)?));
    }
    Ok(sum)
}

pub(crate) fn block(store: &Store<u64, (), u64>, value: u64) -> io::Result<Owned<u64, (), u64>>
    requires { family_in (store_name store.now) ≡ 0 }
{
    match store.add(value, &Zero) {
        Ok(owned) => Ok(owned),
        Err(_) => Err(AllocError.into()),
    }
}

/// As many values as one run needs, in the room given.
pub(crate) fn filled<T: Drop, F: Fn(u64) -> io::Result<T>>(
    room: Vec<T>,
    make: &F,
) -> io::Result<Vec<T>>
    requires { F.IsAlwaysCallable make.now }
{
    let mut all = room;
    for value in 0..PIPED {
        all.push(make(value)?)?;
    }
    Ok(all)
}

/// The room, with the values ended.
fn ended<T: Drop>(all: Vec<T>) -> Vec<T> {
    let mut room = all;
    room.clear();
    room
}

/// Runs in each of which one thread makes values while another ends those of the run before. The room for them goes to and fro.
fn piped<R: Clock + CpuClock + Threads + Sync, T: Drop + Send, F: Fn(u64) -> io::Result<T> + Sync>(
    rt: &R,
    alloc: Global,
    samples: &mut Samples,
    make: &F,
) -> io::Result<()>
    requires { F.IsAlwaysCallable make.now }
{
    let mut full = Vec::with_capacity(alloc, PIPED as usize)?;
    let mut room = Vec::with_capacity(alloc, PIPED as usize)?;
    for _ in 0..RUNS {
        let team = Team::of(2);
        let (one, two) = thread::join(
            rt,
            || -> io::Result<_>
                requires { F.IsAlwaysCallable make.now }
            { team.timed(rt, || filled(room, make)) },
            || team.timed(rt, || ended(full)),
        );
        let (span, made) = one?;
        let (other, emptied) = two?;
        full = made?;
        room = emptied;
        samples.add(span.joined(other), 2, PIPED, full.len() as u64)?;
    }
    Ok(())
}

pub(crate) fn pipe_box<R: Clock + CpuClock + Threads + Sync>(
    rt: &R,
    alloc: Global,
    samples: &mut Samples,
) -> io::Result<()> {
    piped(rt, alloc, samples, &|value| Ok(Box::new(alloc, value)?))
}
