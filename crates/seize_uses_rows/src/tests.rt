//! Each caller once, where memory is there.
ghost use Rattle.std.specs.Prelude.{◌≡◌, ◌<◌, IfOk};
ghost use Rattle.seize.specs.Collectors.{IsPassOf, its_links};
ghost use Rattle.seize.specs.Registrations.{registered_in};

use seize::thread_id::{Numbers, Thread};
use seize::tls::ThreadLocal;
use seize::{Alone, Collector, Guard, IdSource, Pass, Refusal, Registration};
use seize_uses::cache::{self, Entry};
use seize_uses::machine::with_active_slot;
use seize_uses::one_caller::{self, read_and_retire};
use seize_uses::reclaimers::{Counting, Counts, collector, put, remove};
use seize_uses::reclaiming::{reclaim, retire};
use seize_uses::replacing::{add, exchange};
use seize_uses::shared::{audit, put_and_read, read, replace};
use seize_uses::table::loaded_twice;
use seize_uses::watched::{Newest, retire_under_guard};
use std::alloc::Global;
use std::sync::Wait;
use std::sync::atomic::AtomicU64;
use std::test::Fail;

#[test]
fn a_number_is_read_and_retired(rt: HostRuntime) -> Result<(), Fail> {
    assert_eq!(rt; read_and_retire(rt.alloc(), 7)?, Some(7));
    Ok(())
}

// A collector with one link, and batches of one value, in one caller's hands.
fn with_one_link(alloc: Global) -> Result<Alone<u64>, Fail>
    ensures { IfOk result (λ alone. alone.links ≡ 1) }
{
    let collector: Collector<u64> = Collector::new(alloc, &mut IdSource::new(), 1, 1)?;
    match collector.batch_size(1).alone() {
        Ok(alone) => Ok(alone),
        Err(_) => Err(Fail::new("the collector came back")),
    }
}

#[test]
fn a_number_is_put_in_and_read_alone(rt: HostRuntime) -> Result<(), Fail> {
    let mut alone = with_one_link(rt.alloc())?;
    let slot = alone.enter_owned(&mut ())?;
    assert_eq!(rt; one_caller::put_and_read(&mut alone, slot, 7)?, Some(7));
    Ok(())
}

#[test]
fn a_number_is_taken_out_alone(rt: HostRuntime) -> Result<(), Fail> {
    let mut alone = with_one_link(rt.alloc())?;
    let slot = alone.enter_owned(&mut ())?;
    assert_eq!(rt; one_caller::put_and_read(&mut alone, slot, 7)?, Some(7));
    assert!(rt; one_caller::found_twice(&alone, slot)?);
    assert_eq!(rt; one_caller::take_out(&mut alone, slot)?, Some(7));
    assert_eq!(rt; one_caller::take_out(&mut alone, slot)?, None);
    assert!(rt; one_caller::found_twice(&alone, slot)?);
    one_caller::audit(&mut alone);
    Ok(())
}

// The second id of a source: a collector has it shared, alone, and shared again.
#[test]
fn one_caller_has_the_id_of_the_collector(rt: HostRuntime) -> Result<(), Fail> {
    let mut ids = IdSource::new();
    let first: Collector<u64> = Collector::new(rt.alloc(), &mut ids, 1, 0)?;
    let second: Collector<u64> = Collector::new(rt.alloc(), &mut ids, 1, 0)?;
    let id = second.id();
    assert!(rt; id != first.id());
    let Ok(alone) = second.alone() else {
        return Err(Fail::new("the collector came back"));
    };
    assert_eq!(rt; alone.id(), id);
    assert_eq!(rt; alone.share().id(), id);
    Ok(())
}

#[test]
fn a_watch_is_told_once_the_guard_leaves(rt: HostRuntime) -> Result<(), Fail> {
    let mut newest = Newest(None);
    let mut alone = with_one_link(rt.alloc())?;
    let slot = alone.enter_owned(&mut ())?;
    // By this answer the slot has a guard.
    assert!(rt; alone.protect(slot, 0)?.is_none());
    let block = alone.owned(7).expect(&rt, "memory");
    let number = alone.taken(block);
    retire_under_guard(&mut alone, slot, number, &mut newest);
    assert_eq!(rt; newest, Newest(None));
    alone.leave(slot, &mut newest)?;
    assert_eq!(rt; newest, Newest(Some(7)));
    Ok(())
}

#[test]
fn an_entry_keeps_its_first_value(rt: HostRuntime) -> Result<(), Fail> {
    let mut numbers = Numbers::new(rt.alloc());
    let thread = Thread::new(numbers.take()?).expect(&rt, "a place");
    let table = ThreadLocal::with_capacity(rt.alloc(), 0)?;
    assert_eq!(rt; loaded_twice(&table, thread)?, (1, 1));
    Ok(())
}

#[test]
fn a_slot_enters(rt: HostRuntime) -> Result<(), Fail> {
    assert!(rt; with_active_slot(rt.alloc())?.active(0));
    Ok(())
}

#[test]
fn a_shared_number_is_replaced_and_read(rt: HostRuntime) -> Result<(), Fail> {
    let mut ids = IdSource::new();
    let collector: Collector<u64> = Collector::new(rt.alloc(), &mut ids, 1, 1)?;
    let mut pass = collector.pass();
    let registration = collector.register(&rt, &mut pass)?;
    let before = read(&registration, &rt, &mut pass);
    let first = replace(&registration, 7, &rt, &mut pass);
    let second = replace(&registration, 8, &rt, &mut pass);
    let third = exchange(&registration, 9, &rt, &mut pass);
    let none = add(&registration, 1, 0, &rt, &mut pass);
    let fourth = add(&registration, 5, 1, &rt, &mut pass);
    let after = read(&registration, &rt, &mut pass);
    audit(&registration, &mut pass);
    assert!(rt; registration.end(&rt, &mut pass));
    assert!(rt; first.is_ok() && second.is_ok());
    assert_eq!(rt; (third?, none?, fourth?), (true, false, true));
    assert_eq!(rt; (before?, after?), (None, Some(14)));
    assert_eq!(rt; put_and_read(rt.alloc(), 3, &rt)?, Some(3));
    Ok(())
}

#[test]
fn numbers_are_reclaimed_by_who_has_the_collector_alone(rt: HostRuntime) -> Result<(), Fail> {
    let mut ids = IdSource::new();
    let mut collector: Collector<u64> = Collector::new(rt.alloc(), &mut ids, 1, 0)?;
    for number in 0..3u64 {
        let known = retire(&collector, number, &rt)?;
        assert!(rt; reclaim(&mut collector, &known));
    }
    Ok(())
}

// Two numbers are put into the link, and the second one is removed; then the guard's batch is attempted. What was counted before the guard
// refreshes, and afterwards.
fn count_a_refresh<'a>(
    registration: &Registration<'_, u64, Counting<'a>>,
    counts: &'a Counts,
    rt: &impl Wait,
    pass: &mut Pass,
) -> Result<((u64, u64), (u64, u64)), Refusal>
    requires { IsPassOf (registered_in registration.now) pass.old × (0 < its_links (registered_in registration.now)) }
    ensures { IsPassOf (registered_in registration.now) pass.new }
{
    let mut guard = registration.enter(pass)?;
    if let Ok(block) = guard.owned(1) {
        put(&guard, block, rt, pass);
    }
    if let Ok(block) = guard.owned(2) {
        put(&guard, block, rt, pass);
    }
    remove(&guard, rt, pass);
    guard.flush(rt, pass);
    let before = counts.read();
    guard.refresh(rt, pass);
    let after = counts.read();
    guard.leave(rt, pass);
    Ok((before, after))
}

#[test]
fn each_number_is_counted_by_its_kind(rt: HostRuntime) -> Result<(), Fail> {
    let counts = Counts {
        replaced: AtomicU64::new(0),
        removed: AtomicU64::new(0),
    };
    let mut ids = IdSource::new();
    let collector = collector(rt.alloc(), &mut ids, 1, &counts)?;
    let mut pass = collector.pass();
    let registration = collector.register(&rt, &mut pass)?;
    let counted = count_a_refresh(&registration, &counts, &rt, &mut pass);
    registration.end(&rt, &mut pass);
    assert_eq!(rt; counted?, ((0, 0), (1, 1)));
    Ok(())
}

// What is found under the keys 1, 3 and 2 when values were put under 1 and 3, which share one of two places.
fn found_in_a_cache(
    registration: &Registration<'_, Entry>,
    rt: &impl Wait,
    pass: &mut Pass,
) -> Result<(Option<u64>, Option<u64>, Option<u64>), Refusal>
    requires { IsPassOf (registered_in registration.now) pass.old × (0 < its_links (registered_in registration.now)) }
    ensures { IsPassOf (registered_in registration.now) pass.new }
{
    let guard = registration.enter(pass)?;
    let one = cache::put(&guard, Entry { key: 1, value: 10 }, rt, pass);
    let three = cache::put(&guard, Entry { key: 3, value: 30 }, rt, pass);
    let found = (
        cache::get(&guard, 1, pass),
        cache::get(&guard, 3, pass),
        cache::get(&guard, 2, pass),
    );
    guard.leave(rt, pass);
    one.and(three)?;
    Ok(found)
}

#[test]
fn a_cache_has_the_last_entry_of_a_place(rt: HostRuntime) -> Result<(), Fail> {
    let mut ids = IdSource::new();
    let collector: Collector<Entry> = Collector::new(rt.alloc(), &mut ids, 1, 2)?;
    let mut pass = collector.pass();
    let registration = collector.register(&rt, &mut pass)?;
    let found = found_in_a_cache(&registration, &rt, &mut pass);
    registration.end(&rt, &mut pass);
    assert_eq!(rt; found?, (None, Some(30), None));
    Ok(())
}
