//! Which calls ask for no memory. Each test gives a sign when it is set up, by a request for memory of a size that no other has. The script
//! `tools/memory` runs these tests with each request after that refused.
ghost use Rattle.std.specs.Prelude.{◌≡◌, ◌<◌, IfOk};
ghost use Rattle.seize.specs.Collectors.{IsBlockOf, IsPassOf, its_links, its_words};
ghost use Rattle.seize.specs.Guards.{guard_collector, owned_collector};
ghost use Rattle.seize.specs.Registrations.{registered_in};

use seize::{
    Collector, Guard, IdSource, LocalGuard, Owned, OwnedGuard, Pass, Refusal, Registration,
};
use seize_test_kit::sign::give_sign;
use seize_test_kit::values::{Counted, ended};
use std::alloc::Global;
use std::process::Abort;
use std::sync::Wait;
use std::sync::atomic::AtomicU64;
use std::test::*;

// How many blocks are made first, and how many links take them: each link takes four, of which three are retired.
const BLOCKS: u64 = 40;

const LINKS: u64 = 10;

// A collector with ten links, and batches of 32 values.
fn collector<'a>(alloc: Global) -> Result<Collector<Counted<'a>>, Refusal>
    ensures { IfOk result (λ made. its_links (its_words made) ≡ 10) }
{
    Collector::new(alloc, &mut IdSource::new(), 1, 10)
}

// A block with a value that counts its end.
pub(crate) fn block<'a>(
    registration: &Registration<'_, Counted<'a>>,
    ends: &'a AtomicU64,
) -> Result<Owned<Counted<'a>>, Refusal>
    ensures { IfOk result (λ owned. IsBlockOf (registered_in registration.now) owned) }
{
    registration
        .owned(Counted { ends })
        .map_err(|(refusal, _)| refusal)
}

// Puts a block into the link, and retires what was there, with a guard that leaves then.
pub(crate) fn put<'a>(
    rt: &impl Wait,
    registration: &Registration<'_, Counted<'a>>,
    link: usize,
    block: Owned<Counted<'a>>,
    pass: &mut Pass,
) -> Result<(), Refusal>
    requires of { IsPassOf (registered_in registration.now) pass.old × (link < its_links (registered_in registration.now)) }
    requires block { IsBlockOf (registered_in registration.now) block }
    ensures { IsPassOf (registered_in registration.now) pass.new }
{
    let guard = registration.enter(pass)?;
    if let Some(old) = guard.swap(link, Some(block), pass) {
        guard.defer_retire(rt, pass, old);
    }
    guard.leave(rt, pass);
    Ok(())
}

// Makes so many blocks, gives the sign, and puts the blocks into the links, one after the other.
fn put_all<'a>(
    rt: &impl Wait,
    alloc: Global,
    registration: &Registration<'_, Counted<'a>>,
    count: u64,
    ends: &'a AtomicU64,
    pass: &mut Pass,
) -> Result<(), Refusal>
    requires of { IsPassOf (registered_in registration.now) pass.old × (its_links (registered_in registration.now) ≡ 10) }
    ensures { IsPassOf (registered_in registration.now) pass.new }
{
    if count == 0 {
        return give_sign(alloc);
    }
    let block = block(registration, ends)?;
    put_all(rt, alloc, registration, count - 1, ends, pass)?;
    put(rt, registration, (count % LINKS) as usize, block, pass)
}

// Reads link 0, takes out what it read by an exchange, and retires that. It says whether the exchange was won.
fn take_out<'a>(rt: &impl Wait, guard: &LocalGuard<'_, '_, Counted<'a>>, pass: &mut Pass) -> bool
    requires of { IsPassOf (guard_collector guard.now) pass.old × (0 < its_links (guard_collector guard.now)) }
    ensures { IsPassOf (guard_collector guard.now) pass.new }
{
    let found = guard.protect(0, pass);
    match guard.compare_exchange(0, found.as_ref(), None, pass) {
        Ok(Some(old)) => {
            guard.defer_retire(rt, pass, old);
            true
        }
        Ok(None) => false,
        Err(_) => false,
    }
}

// How many values had ended when they were put in, when a guard had flushed, when it had refreshed, and when it had left; and whether it
// took out one more by an exchange before that.
fn make_calls<'a>(
    rt: &impl Wait,
    alloc: Global,
    registration: &Registration<'_, Counted<'a>>,
    ends: &'a AtomicU64,
    pass: &mut Pass,
) -> Result<([u64; 4], bool), Refusal>
    requires of { IsPassOf (registered_in registration.now) pass.old × (its_links (registered_in registration.now) ≡ 10) }
    ensures { IsPassOf (registered_in registration.now) pass.new }
{
    put_all(rt, alloc, registration, BLOCKS, ends, pass)?;
    let put_in = ended(ends);
    let mut guard = registration.enter(pass)?;
    guard.flush(rt, pass);
    let flushed = ended(ends);
    guard.refresh(rt, pass);
    let refreshed = ended(ends);
    let taken = take_out(rt, &guard, pass);
    guard.leave(rt, pass);
    Ok(([put_in, flushed, refreshed, ended(ends)], taken))
}

// The same, and whether the registration ended. Its slot is registered again, and forgotten with a guard.
fn make_all<'a>(
    rt: &impl Wait,
    alloc: Global,
    collector: &Collector<Counted<'a>>,
    ends: &'a AtomicU64,
) -> Result<([u64; 4], bool, bool), Refusal>
    requires { its_links (its_words collector.now) ≡ 10 }
{
    let mut pass = collector.pass();
    let registration = collector.register(rt, &mut pass)?;
    let made = make_calls(rt, alloc, &registration, ends, &mut pass);
    let well = registration.end(rt, &mut pass);
    let (ends, taken) = made?;
    let again = collector.register(rt, &mut pass)?;
    if let Ok(guard) = again.enter(&mut pass) {
        guard.forget(&mut pass);
    }
    again.forget();
    Ok((ends, taken, well))
}

// A slot enters, swaps, retires 30 of 40 values, flushes, refreshes, reads, exchanges, leaves and ends; it is registered again, and
// forgotten. Its collector reclaims all, and is dropped. Where each request for memory after the making of the blocks is refused, each of
// these calls goes well too, and values end as they do with it.
#[test]
fn calls_that_ask_for_no_memory(rt: HostRuntime) -> Result<(), Fail> {
    let ends = AtomicU64::new(0);
    let mut collector = collector(rt.alloc())?;
    let made = make_all(&rt, rt.alloc(), &collector, &ends)?;
    assert_eq!(rt; made, ([0, 0, 30, 30], true, true));
    assert!(rt; collector.reclaim_all(&mut ()));
    assert_eq!(rt; ended(&ends), 31);
    drop(collector);
    assert_eq!(rt; ended(&ends), BLOCKS);
    Ok(())
}

// A collector with no link, and batches of two values.
fn unlinked<'a>(alloc: Global) -> Result<Collector<Counted<'a>>, Refusal> {
    let made: Collector<Counted<'a>> = Collector::new(alloc, &mut IdSource::new(), 1, 0)?;
    Ok(made.batch_size(2))
}

// Four blocks.
#[derive(Drop)]
struct Four<'a> {
    first: Owned<Counted<'a>>,
    second: Owned<Counted<'a>>,
    third: Owned<Counted<'a>>,
    fourth: Owned<Counted<'a>>,
}

// The collector's.
fn make_four<'a>(
    collector: &Collector<Counted<'a>>,
    ends: &'a AtomicU64,
) -> Result<Four<'a>, Refusal>
    ensures { IfOk result (λ made. IsBlockOf (its_words collector.now) made.first × IsBlockOf (its_words collector.now) made.second
        × IsBlockOf (its_words collector.now) made.third × IsBlockOf (its_words collector.now) made.fourth) }
{
    Ok(Four {
        first: new(collector, ends)?,
        second: new(collector, ends)?,
        third: new(collector, ends)?,
        fourth: new(collector, ends)?,
    })
}

// One.
fn new<'a>(
    collector: &Collector<Counted<'a>>,
    ends: &'a AtomicU64,
) -> Result<Owned<Counted<'a>>, Refusal>
    ensures { IfOk result (IsBlockOf (its_words collector.now)) }
{
    match collector.owned(Counted { ends }) {
        Ok(block) => Ok(block),
        Err((refusal, _)) => Err(refusal),
    }
}

// Three slots are in use, and the sign is given. Two of them retire a value each, and end; a number is taken, by which both end. Its slot
// retires the third value and ends. An owned guard takes that and leaves it. At last the third slot retires one, and ends. It says how many
// values had ended when two slots had, when the number was taken, before the last end, and after it.
fn hand_on<'a>(
    rt: &(impl Wait + Abort),
    alloc: Global,
    collector: &Collector<Counted<'a>>,
    blocks: Four<'a>,
    ends: &'a AtomicU64,
) -> [u64; 4]
    requires first { IsBlockOf (its_words collector.now) blocks.first × IsBlockOf (its_words collector.now) blocks.second }
    requires second { IsBlockOf (its_words collector.now) blocks.third × IsBlockOf (its_words collector.now) blocks.fourth }
{
    let Four {
        first,
        second,
        third,
        fourth,
    } = blocks;
    let mut pass = collector.pass();
    let one = collector.register(rt, &mut pass).expect(rt, "memory");
    let two = collector.register(rt, &mut pass).expect(rt, "memory");
    let last = collector.register(rt, &mut pass).expect(rt, "memory");
    assert!(rt; give_sign(alloc).is_ok());
    one.retire(rt, &mut pass, collector.unlinked(first));
    assert!(rt; one.end(rt, &mut pass));
    two.retire(rt, &mut collector.pass(), collector.unlinked(second));
    assert!(rt; two.end(rt, &mut collector.pass()));
    let left = ended(ends);
    let mut its = collector.pass();
    let again = collector.register(rt, &mut its).expect(rt, "memory");
    let taken = ended(ends);
    again.retire(rt, &mut its, collector.unlinked(third));
    assert!(rt; again.end(rt, &mut its));
    let mut its = collector.pass();
    let guard = collector.enter_owned(rt, &mut its).expect(rt, "memory");
    guard.leave(rt, &mut its);
    last.retire(rt, &mut collector.pass(), collector.unlinked(fourth));
    let before = ended(ends);
    assert!(rt; last.end(rt, &mut collector.pass()));
    [left, taken, before, ended(ends)]
}

// A slot that ends hands its batch on, whoever takes it attempts what is full, and the last one attempts what is left: none of these calls
// asks for memory.
#[test]
fn slots_hand_on_without_memory(rt: HostRuntime) -> Result<(), Fail> {
    let ends = AtomicU64::new(0);
    let mut collector = unlinked(rt.alloc())?;
    let blocks = make_four(&collector, &ends)?;
    let came = hand_on(&rt, rt.alloc(), &collector, blocks, &ends);
    assert_eq!(rt; came, [0, 2, 2, 4]);
    assert!(rt; collector.reclaim_all(&mut ()));
    assert_eq!(rt; ended(&ends), 4);
    Ok(())
}

// Reads link 0, takes out what it read by a weak exchange, and retires that. It says whether the exchange was won.
fn take_out_weakly<'a>(rt: &impl Wait, guard: &OwnedGuard<'_, Counted<'a>>, pass: &mut Pass) -> bool
    requires of { IsPassOf (owned_collector guard.now) pass.old × (0 < its_links (owned_collector guard.now)) }
    ensures { IsPassOf (owned_collector guard.now) pass.new }
{
    let core = guard.core();
    let found = core.protect(0, pass);
    match core.compare_exchange_weak(0, found.as_ref(), None, pass) {
        Ok(Some(old)) => {
            guard.defer_retire(rt, pass, old);
            true
        }
        Ok(None) => false,
        Err(_) => false,
    }
}

// An owned guard puts the block in by one pass, and takes it out by another that meets this one. It flushes, refreshes and leaves. It says
// how many values had ended when it had retired, when it had flushed, and when it had refreshed; and whether it took the block out.
fn use_owned<'a>(
    rt: &(impl Wait + Abort),
    alloc: Global,
    collector: &Collector<Counted<'a>>,
    block: Owned<Counted<'a>>,
    ends: &'a AtomicU64,
) -> ([u64; 3], bool)
    requires links { its_links (its_words collector.now) ≡ 10 }
    requires block { IsBlockOf (its_words collector.now) block }
{
    let mut pass = collector.pass();
    let mut other = collector.pass();
    let mut guard = collector.enter_owned(rt, &mut pass).expect(rt, "memory");
    assert!(rt; give_sign(alloc).is_ok());
    if let Some(old) = guard.swap(0, Some(block), &mut pass) {
        guard.defer_retire(rt, &mut pass, old);
    }
    pass.meet(&mut other);
    let taken = take_out_weakly(rt, &guard, &mut other);
    let retired = ended(ends);
    guard.flush(rt, &mut other);
    let flushed = ended(ends);
    guard.refresh(rt, &mut other);
    let refreshed = ended(ends);
    guard.leave(rt, &mut other);
    ([retired, flushed, refreshed], taken)
}

// The calls of an owned guard ask for no memory.
#[test]
fn owned_guards_ask_for_no_memory(rt: HostRuntime) -> Result<(), Fail> {
    let ends = AtomicU64::new(0);
    let collector = collector(rt.alloc())?;
    let block = new(&collector, &ends)?;
    let came = use_owned(&rt, rt.alloc(), &collector, block, &ends);
    assert_eq!(rt; came, ([0, 0, 1], true));
    drop(collector);
    assert_eq!(rt; ended(&ends), 1);
    Ok(())
}
