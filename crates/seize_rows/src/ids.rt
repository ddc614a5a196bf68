//! What collectors, registrations and guards say of themselves: ids, numbers and texts.
use seize::{Collector, Guard, IdSource, Refusal};
use seize_test_kit::values::{Counted, ended};
use std::alloc::{AllocError, Global};
use std::fmt::Debug;
use std::process::Abort;
use std::sync::Wait;
use std::sync::atomic::AtomicU64;
use std::test::*;

// The collectors of one source have the ids 0, 1, 2 and so on. One that is refused takes none, and another batch size changes none. Those
// of another source begin with 0.
#[test]
fn collectors_of_one_source_have_ids_in_order(rt: HostRuntime) -> Result<(), Fail> {
    let mut ids = IdSource::new();
    let first: Collector<u64> = Collector::new(rt.alloc(), &mut ids, 1, 0)?;
    let second: Collector<u64> = Collector::new(rt.alloc(), &mut ids, 1, 0)?;
    let many: Result<Collector<u64>, Refusal> = Collector::new(
        rt.alloc(),
        &mut ids,
        (1 << 63) + 1,
        0,
    );
    assert!(rt; matches!(many, Err(Refusal::TooManyProcessors)));
    let third: Collector<u64> = Collector::new(rt.alloc(), &mut ids, 1, 0)?;
    assert_eq!(rt; (first.id(), second.id(), third.id()), (0, 1, 2));
    let second = second.batch_size(7);
    assert_eq!(rt; second.id(), 1);
    assert!(rt; first == first && second == second);
    assert!(rt; first != second && first != third && second != third);
    let other: Collector<u64> = Collector::new(rt.alloc(), &mut IdSource::new(), 1, 0)?;
    assert_eq!(rt; other.id(), 0);
    Ok(())
}

// The ids that a registration, its guard and an owned guard say their collector has, and whether the slots' numbers are 0, 0 and 1.
fn ask(rt: &(impl Wait + Abort), collector: &Collector<u64>) -> ([u64; 3], bool) {
    let mut pass = collector.pass();
    let registration = collector.register(rt, &mut pass).expect(rt, "memory");
    let guard = registration.enter(&mut pass).expect(rt, "a guard");
    let owned = collector.enter_owned(rt, &mut pass).expect(rt, "memory");
    let ids = [
        registration.collector().id(),
        guard.collector().id(),
        owned.collector().id(),
    ];
    let numbers = (
        registration.thread_id(),
        guard.thread_id(),
        owned.thread_id(),
    );
    owned.leave(rt, &mut pass);
    guard.leave(rt, &mut pass);
    assert!(rt; registration.end(rt, &mut pass));
    (ids, numbers == (0, 0, 1))
}

// A registration, its guard and an owned guard say the id of their collector, which is the second of its source.
#[test]
fn all_say_the_id_of_their_collector(rt: HostRuntime) -> Result<(), Fail> {
    let mut ids = IdSource::new();
    let first: Collector<u64> = Collector::new(rt.alloc(), &mut ids, 1, 0)?;
    let second: Collector<u64> = Collector::new(rt.alloc(), &mut ids, 1, 0)?;
    assert_eq!(rt; ask(&rt, &first), ([0; 3], true));
    assert_eq!(rt; ask(&rt, &second), ([1; 3], true));
    Ok(())
}

// Whether a guard of the first collector says that its collector is the first, and whether it is the second.
fn is_of(
    rt: &(impl Wait + Abort),
    first: &Collector<u64>,
    second: &Collector<u64>,
) -> (bool, bool) {
    let mut pass = first.pass();
    let registration = first.register(rt, &mut pass).expect(rt, "memory");
    let guard = registration.enter(&mut pass).expect(rt, "a guard");
    let of = (guard.collector() == first, guard.collector() == second);
    guard.leave(rt, &mut pass);
    assert!(rt; registration.end(rt, &mut pass));
    of
}

#[test]
fn the_collector_of_a_guard_equals_its_own_alone(rt: HostRuntime) -> Result<(), Fail> {
    let mut ids = IdSource::new();
    let first: Collector<u64> = Collector::new(rt.alloc(), &mut ids, 1, 0)?;
    let made: Collector<u64> = Collector::new(rt.alloc(), &mut ids, 1, 0)?;
    let second = made.batch_size(3);
    assert!(rt; first == first && first != second);
    assert_eq!(rt; is_of(&rt, &first, &second), (true, false));
    assert_eq!(rt; is_of(&rt, &second, &first), (true, false));
    Ok(())
}

// Retires a value, which was in no link, under a guard that leaves then, and its registration ends. It says how often it had ended before
// that, between, and after.
fn retire_one<'a>(
    rt: &(impl Wait + Abort),
    collector: &Collector<Counted<'a>>,
    ends: &'a AtomicU64,
) -> Option<[u64; 3]> {
    let mut pass = collector.pass();
    let block = collector.owned(Counted { ends }).ok()?;
    let registration = collector.register(rt, &mut pass).expect(rt, "memory");
    let guard = registration.enter(&mut pass).expect(rt, "a guard");
    guard.defer_retire(rt, &mut pass, collector.unlinked(block));
    let before = ended(ends);
    guard.leave(rt, &mut pass);
    let between = ended(ends);
    assert!(rt; registration.end(rt, &mut pass));
    Some([before, between, ended(ends)])
}

// A batch size of 0 serves as 1: a value that is retired alone waits for the guard, and ends when that leaves. With a batch size of 2 it
// stays in the batch, and ends as the registration does, which is the last one.
#[test]
fn a_batch_size_of_0_serves_as_1(rt: HostRuntime) -> Result<(), Fail> {
    for (size, between) in [(0, 1), (1, 1), (2, 0)] {
        let ends = AtomicU64::new(0);
        let made: Collector<Counted<'_>> = Collector::new(rt.alloc(), &mut IdSource::new(), 1, 0)?;
        let collector = made.batch_size(size);
        assert_eq!(rt; retire_one(&rt, &collector, &ends), Some([0, between, 1]));
        drop(collector);
        assert_eq!(rt; ended(&ends), 1);
    }
    Ok(())
}

// Whether this is the text of the value.
fn reads<T: Debug>(alloc: Global, value: &T, text: &str) -> Result<bool, AllocError> {
    let shown = format!(in alloc; "{value:?}")?;
    Ok(shown.as_str() == text)
}

// Whether a guard, and an owned guard, each read as the name of its kind.
fn texts(
    rt: &(impl Wait + Abort),
    alloc: Global,
    collector: &Collector<u64>,
) -> Option<(bool, bool)> {
    let mut pass = collector.pass();
    let registration = collector.register(rt, &mut pass).expect(rt, "memory");
    let guard = registration.enter(&mut pass).expect(rt, "a guard");
    let owned = collector.enter_owned(rt, &mut pass).expect(rt, "memory");
    let local = reads(alloc, &guard, "LocalGuard");
    let other = reads(alloc, &owned, "OwnedGuard");
    owned.leave(rt, &mut pass);
    guard.leave(rt, &mut pass);
    assert!(rt; registration.end(rt, &mut pass));
    Some((local.ok()?, other.ok()?))
}

// A collector's text says its batch size, that of a guard its kind.
#[test]
fn texts_of_collectors_and_guards(rt: HostRuntime) -> Result<(), Fail> {
    for (processors, text) in [
        (0, "Collector { batch_size: 32 }"),
        (1, "Collector { batch_size: 32 }"),
        (32, "Collector { batch_size: 32 }"),
        (33, "Collector { batch_size: 64 }"),
        (64, "Collector { batch_size: 64 }"),
        (100, "Collector { batch_size: 128 }"),
    ] {
        let made: Collector<u64> = Collector::new(rt.alloc(), &mut IdSource::new(), processors, 0)?;
        assert!(rt; reads(rt.alloc(), &made, text)?);
    }
    let made: Collector<u64> = Collector::new(rt.alloc(), &mut IdSource::new(), 1, 0)?;
    let collector = made.batch_size(3);
    assert!(rt; reads(rt.alloc(), &collector, "Collector { batch_size: 3 }")?);
    assert_eq!(rt; texts(&rt, rt.alloc(), &collector), Some((true, true)));
    Ok(())
}
