//! A watch of one caller's hands: it is told of each value just before that value goes to its reclaimer.
ghost use base.Stored.{coded_unit};
ghost use Rattle.std.proofs.Common.{lit<};

use seize::{Alone, Collector, Further, IdSource, Puts, Reclaim, Refusal, Watch};
use std::process::Abort;
use std::sync::atomic::{AtomicU64, Ordering};
use std::test::*;

// Adds a digit to the log, which has the newest one last.
fn note(log: &AtomicU64, digit: u64) {
    let before = log.load(Ordering::SeqCst);
    log.store(
        before.wrapping_mul(10).wrapping_add(digit),
        Ordering::SeqCst,
    );
}

// Notes each number that it is given, and 5 more.
#[derive(Clone, Copy)]
struct Logging<'a> {
    log: &'a AtomicU64,
}

impl Puts<u64> for Logging<'_> {
    ghost lighter = { λ _ _. lit< tt };
}

impl Reclaim<u64> for Logging<'_> {
    fn reclaim(self, _kind: u64, value: u64, _further: &mut Further<'_, u64, Self>) {
        note(self.log, value.wrapping_add(5));
    }
}

// Notes each number that it is told of.
#[derive(Drop)]
struct Noting<'a> {
    log: &'a AtomicU64,
}

impl Watch<u64> for Noting<'_> {
    ghost Seen = { Unit {0} };

    ghost coded = { coded_unit };

    ghost seen = { λ _. tt };

    ghost told = { λ _ _. tt };

    fn gone(&mut self, value: &u64) {
        note(self.log, *value);
    }
}

// The slot retires a number that was in no link.
fn retire(
    rt: &impl Abort,
    alone: &mut Alone<u64, Logging<'_>>,
    slot: usize,
    number: u64,
    noting: &mut Noting<'_>,
) -> Result<(), Refusal> {
    let owned = alone.owned(number).map_err(|(refusal, _)| refusal)?;
    let taken = alone.taken(owned);
    match alone.retire(slot, taken, 0, noting) {
        Ok(()) => Ok(()),
        Err((_, _taken)) => rt.abort(),
    }
}

// Retires three numbers by way of a slot of its own, and reclaims all.
fn retire_three(
    rt: &impl Abort,
    log: &AtomicU64,
    alone: &mut Alone<u64, Logging<'_>>,
) -> Result<(), Fail> {
    let mut noting = Noting { log };
    let slot = alone.register(&mut noting)?;
    retire(rt, alone, slot, 1, &mut noting)?;
    assert_eq!(rt; log.load(Ordering::SeqCst), 0);
    retire(rt, alone, slot, 2, &mut noting)?;
    assert_eq!(rt; log.load(Ordering::SeqCst), 1627);
    retire(rt, alone, slot, 3, &mut noting)?;
    assert_eq!(rt; log.load(Ordering::SeqCst), 1627);
    alone.reclaim_all(&mut noting);
    assert_eq!(rt; log.load(Ordering::SeqCst), 162738);
    Ok(())
}

// Batches of two. 1 and 2 go with the second retirement, 3 as all is reclaimed: of each the watch is told, and then the reclaimer has it.
#[test]
fn the_watch_is_told_just_before_the_reclaimer(rt: HostRuntime) -> Result<(), Fail> {
    let log = AtomicU64::new(0);
    let reclaimer = Logging { log: &log };
    let collector: Collector<u64, Logging<'_>> = Collector::with_reclaimer(
        rt.alloc(),
        &mut IdSource::new(),
        1,
        0,
        reclaimer,
    )?;
    let collector = collector.batch_size(2);
    let Ok(mut alone) = collector.alone() else {
        return Err(Fail::new("the collector came back"));
    };
    retire_three(&rt, &log, &mut alone)
}
