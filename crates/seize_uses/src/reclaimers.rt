//! A reclaimer of one's own, which counts what ends, and a caller who says of which kind a value is.
ghost use Rattle.std.proofs.Common.{lit<};
ghost use Rattle.std.specs.Prelude.{◌≡◌, ◌<◌, ℕ, IfOk, true};
ghost use Rattle.seize.specs.Collectors.{IsBlockOf, IsPassOf, its_links, its_words};
ghost use Rattle.seize.specs.Guards.{guard_collector};
ghost use Rattle.seize.specs.Laws.{moments_seen};
ghost use Rattle.seize.specs.Machine.History.{Retired};
ghost use Rattle.seize.specs.Makes.{IsOfKind};

use seize::{Collector, Further, Guard, IdSource, LocalGuard, Owned, Pass, Puts, Reclaim, Refusal};
use std::alloc::Global;
use std::sync::Wait;
use std::sync::atomic::{AtomicU64, Ordering};

/// How many numbers ended.
#[derive(Drop)]
pub struct Counts {
    /// Those that others took the place of, and those that links held at the end of the collector.
    pub replaced: AtomicU64,
    /// Those that were removed.
    pub removed: AtomicU64,
}

impl Counts {
    /// Both counts, the first one first.
    pub fn read(&self) -> (u64, u64) {
        (
            self.replaced.load(Ordering::SeqCst),
            self.removed.load(Ordering::SeqCst),
        )
    }
}

/// The kind of a number that was removed; all others are of kind 0.
pub const REMOVED: u64 = 1;

/// Counts each number that ends.
#[derive(Clone, Copy)]
pub struct Counting<'a> {
    /// The counts.
    pub counts: &'a Counts,
}

impl Puts<u64> for Counting<'_> {
    ghost lighter = { λ _ _. lit< tt };
}

impl Reclaim<u64> for Counting<'_> {
    fn reclaim(self, kind: u64, _value: u64, _further: &mut Further<'_, u64, Self>) {
        let count = match kind {
            REMOVED => &self.counts.removed,
            _ => &self.counts.replaced,
        };
        count.fetch_add(1, Ordering::SeqCst);
    }
}

/// A collector with one link, whose numbers are counted as they end. It may be refused as `Collector::new` is.
pub fn collector<'a>(
    alloc: Global,
    ids: &mut IdSource,
    processors: usize,
    counts: &'a Counts,
) -> Result<Collector<u64, Counting<'a>>, Refusal>
    ensures { IfOk result (λ made. its_links (its_words made) ≡ 1) }
{
    Collector::with_reclaimer(alloc, ids, processors, 1, Counting { counts })
}

/// Puts a block into link 0, and retires the number that was there, if there was one: it is of kind 0.
pub fn put<W: Wait>(
    guard: &LocalGuard<'_, '_, u64, Counting<'_>>,
    block: Owned<u64>,
    rt: &W,
    pass: &mut Pass,
)
    requires of { IsPassOf (guard_collector guard.now) pass.old × (0 < its_links (guard_collector guard.now)) }
    requires block { IsBlockOf (guard_collector guard.now) block }
    ensures pass { IsPassOf (guard_collector guard.now) pass.new }
{
    if let Some(old) = guard.swap(0, Some(block), pass) {
        guard.defer_retire(rt, pass, old);
    }
}

/// Empties link 0, and retires the number that was there. It says whether there was one: then that is retired, as one that was removed.
pub fn remove<W: Wait>(
    guard: &LocalGuard<'_, '_, u64, Counting<'_>>,
    rt: &W,
    pass: &mut Pass,
) -> bool
    requires of { IsPassOf (guard_collector guard.now) pass.old × (0 < its_links (guard_collector guard.now)) }
    ensures pass { IsPassOf (guard_collector guard.now) pass.new }
    ensures removed { result ≡ true → (v : ℕ) × IsOfKind v 1 pass.new × ((q : ℕ) × Retired (moments_seen pass.new) v q) }
{
    let Some(old) = guard.swap(0, None, pass) else {
        return false;
    };
    guard.defer_retire_as(rt, pass, old, REMOVED);
    true
}
