//! How eight threads leave their registrations, all in one way: these end, are forgotten or lost, or their guards are. What was retired
//! ends as all is reclaimed, or with the collector, but for the batches of lost registrations, and for values that wait for lost guards.

use crate::ending::{Counting, collector, put_in_all, retire};
use seize::{Guard, LocalGuard, Refusal, Registration};
use seize_test_kit::values::{Counted, ended};
use std::alloc::{AllocError, Global};
use std::sync::Wait;
use std::sync::atomic::AtomicU64;
use std::test::*;
use std::thread::Threads;
use std::{mem, thread};

// A guard that can be lost.
struct Held<'r, 'c, 'a>(LocalGuard<'r, 'c, Counted<'a>>);

impl Drop for Held<'_, '_, '_> {
    fn drop(self) {
        let Held(guard) = self;
        let mut pass = guard.collector().pass();
        guard.forget(&mut pass);
    }
}

// So can a registration.
struct HeldToo<'c, 'a>(Registration<'c, Counted<'a>>);

impl Drop for HeldToo<'_, '_> {
    fn drop(self) {
        let HeldToo(registration) = self;
        registration.forget();
    }
}

// How a thread leaves its registration.
#[derive(Clone, Copy)]
enum Way {
    Ends,
    Forgets,
    Loses,
    ForgetsAGuard,
    LosesAGuard,
}

// Retires two values. It says whether memory was there, and whether the number went back just where the registration ends.
fn retire_two<'a>(rt: &impl Wait, collector: &Counting<'a>, way: Way, ends: &'a AtomicU64) -> bool {
    let mut pass = collector.pass();
    let Ok(registration) = collector.register(rt, &mut pass) else {
        return false;
    };
    retire(rt, collector, &registration, 2, ends, &mut pass);
    match way {
        Way::Forgets => {
            registration.forget();
            return true;
        }
        Way::Loses => {
            mem::forget(HeldToo(registration));
            return true;
        }
        _ => {}
    }
    let entered = match way {
        Way::Ends | Way::Forgets | Way::Loses => true,
        Way::ForgetsAGuard => match registration.enter(&mut pass) {
            Ok(guard) => {
                guard.forget(&mut pass);
                true
            }
            Err(_) => false,
        },
        Way::LosesAGuard => match registration.enter(&mut pass) {
            Ok(guard) => {
                mem::forget(Held(guard));
                true
            }
            Err(_) => false,
        },
    };
    let ended = registration.end(rt, &mut pass);
    entered && ended == matches!(way, Way::Ends)
}

// A registration ends that nobody used. It gives its number.
fn end_unused(rt: &impl Wait, collector: &Counting<'_>) -> Result<usize, Refusal> {
    let mut pass = collector.pass();
    let registration = collector.register(rt, &mut pass)?;
    let number = registration.thread_id();
    registration.end(rt, &mut pass);
    Ok(number)
}

// Eight threads do so, in the same way. It says whether all went well.
fn retire_by_many<'a, R: Threads + Wait + Sync>(
    rt: &R,
    alloc: Global,
    collector: &Counting<'a>,
    way: Way,
    ends: &'a AtomicU64,
) -> Result<bool, AllocError> {
    let all = thread::map_indices(rt, alloc, 8, &|_| retire_two(rt, collector, way, ends))?;
    Ok(all.iter().all(|well| *well))
}

#[test]
fn what_threads_forget_ends_when_all_is_reclaimed(rt: HostRuntime) -> Result<(), Fail> {
    let ends = AtomicU64::new(0);
    let mut collector = collector(rt.alloc())?;
    put_in_all(&rt, &collector, &ends)?;
    for (way, many) in [
        (Way::ForgetsAGuard, 19),
        (Way::Forgets, 35),
        (Way::Ends, 51),
    ] {
        assert!(rt; retire_by_many(&rt, rt.alloc(), &collector, way, &ends)?);
        assert!(rt; collector.reclaim_all(&mut ()));
        assert_eq!(rt; ended(&ends), many);
    }
    assert_eq!(rt; end_unused(&rt, &collector)?, 0);
    drop(collector);
    assert_eq!(rt; ended(&ends), 54);
    Ok(())
}

#[test]
fn what_threads_forget_ends_with_the_collector(rt: HostRuntime) -> Result<(), Fail> {
    let ends = AtomicU64::new(0);
    let collector = collector(rt.alloc())?;
    put_in_all(&rt, &collector, &ends)?;
    assert!(rt; retire_by_many(&rt, rt.alloc(), &collector, Way::ForgetsAGuard, &ends)?);
    assert!(rt; retire_by_many(&rt, rt.alloc(), &collector, Way::Forgets, &ends)?);
    assert_eq!(rt; ended(&ends), 3);
    drop(collector);
    assert_eq!(rt; ended(&ends), 38);
    Ok(())
}

// What is in the batch of a lost registration's slot never ends, and the answer says so each time. All else ends: what was retired before,
// what forgotten slots have in their batches, and what those left that ended beside the lost ones.
#[test]
fn what_lost_registrations_retired_does_not_end(rt: HostRuntime) -> Result<(), Fail> {
    let ends = AtomicU64::new(0);
    let mut collector = collector(rt.alloc())?;
    put_in_all(&rt, &collector, &ends)?;
    for (before, after) in [(3, 35), (35, 67)] {
        assert!(rt; retire_by_many(&rt, rt.alloc(), &collector, Way::Loses, &ends)?);
        assert!(rt; retire_by_many(&rt, rt.alloc(), &collector, Way::Forgets, &ends)?);
        assert!(rt; retire_by_many(&rt, rt.alloc(), &collector, Way::Ends, &ends)?);
        assert_eq!(rt; ended(&ends), before);
        assert!(rt; !collector.reclaim_all(&mut ()));
        assert_eq!(rt; ended(&ends), after);
    }
    drop(collector);
    assert_eq!(rt; ended(&ends), 70);
    Ok(())
}

// A guard that is lost by `mem::forget` keeps its slot active: what is retired later waits for ever, and the answer says so.
#[test]
fn what_waits_for_lost_guards_does_not_end(rt: HostRuntime) -> Result<(), Fail> {
    let ends = AtomicU64::new(0);
    let mut collector = collector(rt.alloc())?;
    assert!(rt; retire_by_many(&rt, rt.alloc(), &collector, Way::LosesAGuard, &ends)?);
    put_in_all(&rt, &collector, &ends)?;
    assert!(rt; !collector.reclaim_all(&mut ()));
    drop(collector);
    assert_eq!(rt; ended(&ends), 0);
    Ok(())
}
