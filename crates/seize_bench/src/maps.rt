//! Works of a map that threads share: `seize_map`, and the kit's map behind a lock. All keys are there from the beginning. In each turn a
//! thread looks up a key, or puts a value under it.
ghost use Rattle.std.specs.Prelude.{◌<◌, IfOk};
ghost use Rattle.seize.specs.Collectors.{its_links, its_words};

use crate::clock::Samples;
use crate::guards::refused;
use crate::team::runs;
use seize::{Collector, IdSource, Refusal};
use seize_map::{Bucket, Handle, HashMap, NotChanged, Session};
use std::alloc::Global;
use std::hash::{BuildHasherDefault, FoldHasher};
use std::io::ErrorKind;
use std::rt::Clock;
use std::sync::atomic::AtomicU64;
use std::sync::atomic::Ordering::Relaxed;
use std::sync::{Mutex, RwLock, Wait};
use std::thread::Threads;
use std::time::CpuClock;
use std::{collections, io};

/// How many keys there are, and as many buckets.
pub(crate) const KEYS: u64 = 1024;

/// How many turns a thread has in a run.
const TURNS: u64 = 20_000;

/// How many keys a thread goes on from one turn to the next.
const STEP: u64 = 389;

type Hasher = BuildHasherDefault<FoldHasher>;

type Shared<'c> = HashMap<'c, u64, u64, Hasher>;

type Plain = collections::HashMap<u64, u64>;

/// The map that threads share.
#[derive(Clone, Copy, PartialEq, Eq)]
pub(crate) enum Map {
    /// That of `seize_map`.
    Links,
    /// The kit's, behind a `Mutex`.
    Mutex,
    /// The kit's, behind an `RwLock`.
    RwLock,
}

// The keys of a thread's turns.
#[derive(Clone, Copy)]
struct Steps {
    at: u64,
    due: u64,
    updates: u64,
}

impl Steps {
    // So many of a hundred turns put a value in. Each thread begins elsewhere.
    fn of(begun: &AtomicU64, updates: u64) -> Steps {
        Steps {
            at: begun.fetch_add(KEYS / 4, Relaxed),
            due: 0,
            updates,
        }
    }

    // The next key, and whether a value is put there.
    fn next(&mut self) -> (u64, bool) {
        self.at = self.at.wrapping_add(STEP);
        self.due = self.due.wrapping_add(self.updates);
        let puts = self.due >= 100;
        if puts {
            self.due = self.due.wrapping_sub(100);
        }
        (self.at % KEYS, puts)
    }
}

// As an error of the program.
fn not_changed(_why: NotChanged) -> io::Error {
    ErrorKind::OutOfMemory.into()
}

// A collector with a link for each key.
fn collector(alloc: Global) -> Result<Collector<Bucket<u64, u64>>, Refusal>
    ensures { IfOk result (λ made. 0 < its_links (its_words made)) }
{
    Collector::new(alloc, &mut IdSource::new(), 4, KEYS as usize)
}

// Looks up the key, or puts a value under it.
fn visit<W: Wait>(
    rt: &W,
    session: &mut Session<'_, '_, u64, u64, Hasher>,
    key: u64,
    value: Option<u64>,
) -> Result<u64, NotChanged> {
    if let Some(value) = value {
        session.insert(rt, key, value, u32::MAX)?;
        return Ok(0);
    }
    Ok(session.get(&key).unwrap_or(0))
}

// Enters, visits the key, and leaves.
fn turn<W: Wait>(
    rt: &W,
    handle: &Handle<'_, '_, u64, u64, Hasher>,
    key: u64,
    value: Option<u64>,
) -> io::Result<u64> {
    let mut session = handle.enter().map_err(refused)?;
    let done = visit(rt, &mut session, key, value);
    let (guard, mut pass) = session.into_parts();
    guard.leave(rt, &mut pass);
    done.map_err(not_changed)
}

// The turns of a thread.
fn turns<W: Wait>(
    rt: &W,
    handle: &Handle<'_, '_, u64, u64, Hasher>,
    steps: Steps,
) -> io::Result<u64> {
    let mut steps = steps;
    let mut sum: u64 = 0;
    for value in 0..TURNS {
        let (key, puts) = steps.next();
        let value = if puts { Some(value) } else { None };
        sum = sum.wrapping_add(turn(rt, handle, key, value)?);
    }
    Ok(sum)
}

// Puts all keys in.
fn fill<W: Wait>(rt: &W, handle: &Handle<'_, '_, u64, u64, Hasher>) -> io::Result<u64> {
    for key in 0..KEYS {
        turn(rt, handle, key, Some(key))?;
    }
    Ok(KEYS)
}

// A thread's part of a run; or all keys put in, where there are no steps.
fn part<W: Wait>(rt: &W, map: &Shared<'_>, steps: Option<Steps>) -> io::Result<u64> {
    let handle = map.handle(rt).map_err(refused)?;
    let done = match steps {
        Some(steps) => turns(rt, &handle, steps),
        None => fill(rt, &handle),
    };
    handle.end(rt);
    done
}

fn measure_links<R: Clock + CpuClock + Threads + Wait + Sync>(
    rt: &R,
    threads: u64,
    alloc: Global,
    updates: u64,
    samples: &mut Samples,
) -> io::Result<()> {
    let collector = collector(alloc).map_err(refused)?;
    let map = HashMap::new(&collector, alloc, BuildHasherDefault::new());
    part(rt, &map, None)?;
    let begun = AtomicU64::new(0);
    runs(
        rt,
        threads,
        TURNS,
        samples,
        &|| { part(rt, &map, Some(Steps::of(&begun, updates))) },
    )
}

// The kit's map with all keys in it.
fn plain(alloc: Global) -> io::Result<Plain> {
    let mut map = collections::HashMap::new(alloc);
    for key in 0..KEYS {
        map.insert(key, key)?;
    }
    Ok(map)
}

fn turns_locked<W: Wait>(rt: &W, map: &Mutex<Plain>, steps: Steps) -> io::Result<u64> {
    let mut steps = steps;
    let mut sum: u64 = 0;
    for value in 0..TURNS {
        let (key, puts) = steps.next();
        let mut map = map.lock(rt);
        if puts {
            map.insert(key, value)?;
        } else {
            sum = sum.wrapping_add(map.get(&key).copied().unwrap_or(0));
        }
    }
    Ok(sum)
}

fn turns_read_locked<W: Wait>(rt: &W, map: &RwLock<Plain>, steps: Steps) -> io::Result<u64> {
    let mut steps = steps;
    let mut sum: u64 = 0;
    for value in 0..TURNS {
        let (key, puts) = steps.next();
        if puts {
            map.write(rt).insert(key, value)?;
        } else {
            sum = sum.wrapping_add(map.read(rt).get(&key).copied().unwrap_or(0));
        }
    }
    Ok(sum)
}

/// Runs in which 1, 2 or 4 threads share this map, where so many of a hundred turns put a value in.
pub(crate) fn measure<R: Clock + CpuClock + Threads + Wait + Sync>(
    rt: &R,
    threads: u64,
    alloc: Global,
    map: Map,
    updates: u64,
    samples: &mut Samples,
) -> io::Result<()> {
    let begun = AtomicU64::new(0);
    match map {
        Map::Links => measure_links(rt, threads, alloc, updates, samples),
        Map::Mutex => {
            let map = Mutex::new(plain(alloc)?);
            runs(
                rt,
                threads,
                TURNS,
                samples,
                &|| { turns_locked(rt, &map, Steps::of(&begun, updates)) },
            )
        }
        Map::RwLock => {
            let map = RwLock::new(plain(alloc)?);
            runs(
                rt,
                threads,
                TURNS,
                samples,
                &|| { turns_read_locked(rt, &map, Steps::of(&begun, updates)) },
            )
        }
    }
}
