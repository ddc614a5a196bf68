//! Owned guards, which threads share and which go from one thread to another.
ghost use Rattle.std.specs.Prelude.{◌≡◌};
ghost use Rattle.seize.specs.Collectors.{its_words};
ghost use Rattle.seize.specs.Guards.{owned_collector};

use crate::guards::collector as linked;
use crate::worked::retire_elsewhere;
use seize::{Collector, Guard, IdSource, OwnedGuard, Refusal};
use seize_test_kit::values::{Counted, ended};
use std::alloc::Global;
use std::sync::Wait;
use std::sync::atomic::AtomicU64;
use std::test::*;
use std::thread;
use std::thread::Threads;

type Counting<'a> = Collector<Counted<'a>>;

// A collector with no link, and batches of this many values.
fn collector<'a>(alloc: Global, size: usize) -> Result<Counting<'a>, Refusal> {
    let made: Counting<'a> = Collector::new(alloc, &mut IdSource::new(), 1, 0)?;
    Ok(made.batch_size(size))
}

// A guard on its way to another thread: a closure holds only what has a `Drop`.
struct Handed<'c, 'a>(OwnedGuard<'c, Counted<'a>>);

impl Drop for Handed<'_, '_> {
    fn drop(self) {
        let Handed(guard) = self;
        guard.forget();
    }
}

impl Handed<'_, '_> {
    // The guard leaves.
    fn leave(self, rt: &impl Wait) {
        let Handed(guard) = self;
        let mut pass = guard.collector().pass();
        guard.leave(rt, &mut pass);
    }
}

// Retires a value that was in no link, and flushes. It says whether memory was there for it.
fn retire<'c, 'a>(
    rt: &impl Wait,
    collector: &'c Counting<'a>,
    guard: &OwnedGuard<'c, Counted<'a>>,
    ends: &'a AtomicU64,
) -> bool
    requires { owned_collector guard.now ≡ its_words collector.now }
{
    let mut pass = collector.pass();
    let Ok(owned) = collector.owned(Counted { ends }) else {
        return false;
    };
    guard.defer_retire(rt, &mut pass, collector.unlinked(owned));
    guard.flush(rt, &mut pass);
    true
}

// Two threads do so.
fn two<'c, 'a, R: Threads + Wait + Sync>(
    rt: &R,
    collector: &'c Counting<'a>,
    guard: &OwnedGuard<'c, Counted<'a>>,
    ends: &'a AtomicU64,
) -> bool
    requires { owned_collector guard.now ≡ its_words collector.now }
{
    let (one, other) = thread::join(
        rt,
        move || -> bool
            requires { owned_collector guard.now ≡ its_words collector.now }
        { retire(rt, collector, guard, ends) },
        move || -> bool
            requires { owned_collector guard.now ≡ its_words collector.now }
        { retire(rt, collector, guard, ends) },
    );
    one && other
}

// Four do.
fn four<'c, 'a, R: Threads + Wait + Sync>(
    rt: &R,
    collector: &'c Counting<'a>,
    guard: &OwnedGuard<'c, Counted<'a>>,
    ends: &'a AtomicU64,
) -> bool
    requires { owned_collector guard.now ≡ its_words collector.now }
{
    let (one, other) = thread::join(
        rt,
        move || -> bool
            requires { owned_collector guard.now ≡ its_words collector.now }
        { two(rt, collector, guard, ends) },
        move || -> bool
            requires { owned_collector guard.now ≡ its_words collector.now }
        { two(rt, collector, guard, ends) },
    );
    one && other
}

// Four threads share one guard, and each retires a value and flushes. No value ends while the guard stands, and each when it leaves. The
// number is free then.
#[test]
fn four_threads_share_a_guard(rt: HostRuntime) -> Result<(), Fail> {
    let ends = AtomicU64::new(0);
    let collector = collector(rt.alloc(), 1)?;
    let mut pass = collector.pass();
    let guard = collector.enter_owned(&rt, &mut pass).expect(&rt, "memory");
    assert!(rt; four(&rt, &collector, &guard, &ends));
    assert_eq!(rt; ended(&ends), 0);
    guard.leave(&rt, &mut pass);
    assert_eq!(rt; ended(&ends), 4);
    let registration = collector.register(&rt, &mut pass).expect(&rt, "memory");
    assert_eq!(rt; registration.thread_id(), 0);
    assert!(rt; registration.end(&rt, &mut pass));
    Ok(())
}

// The guard leaves on another thread.
fn leave_elsewhere<R: Threads + Wait + Sync>(rt: &R, handed: Handed<'_, '_>) {
    thread::join(rt, move || handed.leave(rt), || {});
}

// A guard goes to another thread, and leaves there: what a third thread retired meanwhile ends with that.
#[test]
fn a_guard_leaves_on_another_thread(rt: HostRuntime) -> Result<(), Fail> {
    let ends = AtomicU64::new(0);
    let collector = linked(rt.alloc(), 5)?;
    let mut pass = collector.pass();
    let reader = collector.enter_owned(&rt, &mut pass).expect(&rt, "memory");
    assert_eq!(rt; retire_elsewhere(&rt, &collector, &ends), Some(1));
    assert_eq!(rt; ended(&ends), 0);
    leave_elsewhere(&rt, Handed(reader));
    assert_eq!(rt; ended(&ends), 5);
    Ok(())
}
