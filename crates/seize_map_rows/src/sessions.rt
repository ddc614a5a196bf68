//! A map by handles and sessions: functions of threads that ask nothing of their callers.
ghost use Rattle.std.specs.Prelude.{◌<◌, IfOk};
ghost use Rattle.seize.specs.Collectors.{its_links, its_words};

use seize::{Collector, IdSource, Refusal};
use seize_map::{Bucket, Handle, HashMap, NotChanged, Session};
use std::alloc::Global;
use std::hash::{BuildHasherDefault, DefaultHasher};
use std::sync::Wait;
use std::test::Fail;
use std::thread;
use std::thread::Threads;

type Hasher = BuildHasherDefault<DefaultHasher>;

type Map<'c> = HashMap<'c, u64, u64, Hasher>;

// A collector with sixteen links.
fn collector(alloc: Global) -> Result<Collector<Bucket<u64, u64>>, Refusal>
    ensures { IfOk result (λ made. 0 < its_links (its_words made)) }
{
    Collector::new(alloc, &mut IdSource::new(), 2, 16)
}

// Puts a value in, looks it up, and takes it out. It gives what was there before, in between, and after.
fn visit<W: Wait>(
    rt: &W,
    session: &mut Session<'_, '_, u64, u64, Hasher>,
    key: u64,
) -> Result<[Option<u64>; 3], NotChanged> {
    let before = session.get(&key);
    session.insert(rt, key, 10, u32::MAX)?;
    let there = session.get_with(&key, |value| value.map(|number| number.wrapping_add(1)));
    session.remove(rt, &key, u32::MAX)?;
    Ok([before, there, session.get(&key)])
}

// Visits so many keys from one on, with a session for each, and counts those that were found as they must be.
fn visits<W: Wait>(
    rt: &W,
    handle: &Handle<'_, '_, u64, u64, Hasher>,
    first: u64,
) -> Result<u64, Refusal> {
    let mut right = 0u64;
    for n in 0..100u64 {
        let mut session = handle.enter()?;
        let told = visit(rt, &mut session, first.wrapping_add(n));
        let (guard, mut pass) = session.into_parts();
        guard.leave(rt, &mut pass);
        if told == Ok([None, Some(11), None]) {
            right = right.wrapping_add(1);
        }
    }
    Ok(right)
}

// One thread's visits.
fn work<W: Wait>(rt: &W, map: &Map<'_>, first: u64) -> Result<u64, Refusal> {
    let handle = map.handle(rt)?;
    let right = visits(rt, &handle, first);
    handle.end(rt);
    right
}

// Two threads with keys of their own.
fn both<R: Threads + Wait + Sync>(rt: &R, map: &Map<'_>) -> Result<u64, Refusal> {
    let (one, other) = thread::join(rt, move || work(rt, map, 0), move || work(rt, map, 1_000));
    Ok(one?.wrapping_add(other?))
}

#[test]
fn sessions_find_what_they_put(rt: HostRuntime) -> Result<(), Fail> {
    let collector = collector(rt.alloc())?;
    let map = HashMap::new(&collector, rt.alloc(), BuildHasherDefault::new());
    assert_eq!(rt; both(&rt, &map)?, 200);
    Ok(())
}

// Puts a key in where it isn't, twice.
fn twice<W: Wait>(
    rt: &W,
    session: &mut Session<'_, '_, u64, u64, Hasher>,
) -> Result<(bool, Option<u64>), NotChanged> {
    let first = session.insert_new(rt, 7, 70, 1)?.is_none();
    session.refresh(rt);
    let second = session.insert_new(rt, 7, 71, 1)?.map(|entry| entry.value);
    Ok((first && session.contains_key(&7), second))
}

fn enter_twice<W: Wait>(
    rt: &W,
    handle: &Handle<'_, '_, u64, u64, Hasher>,
) -> Result<Result<(bool, Option<u64>), NotChanged>, Refusal> {
    let mut session = handle.enter()?;
    let told = twice(rt, &mut session);
    let (guard, mut pass) = session.into_parts();
    guard.leave(rt, &mut pass);
    Ok(told)
}

#[test]
fn a_session_puts_a_new_key_in_once(rt: HostRuntime) -> Result<(), Fail> {
    let collector = collector(rt.alloc())?;
    let map = HashMap::new(&collector, rt.alloc(), BuildHasherDefault::new());
    let handle = map.handle(&rt)?;
    let told = enter_twice(&rt, &handle);
    let ended = handle.end(&rt);
    assert!(rt; told? == Ok((true, Some(70))));
    assert!(rt; ended);
    Ok(())
}
