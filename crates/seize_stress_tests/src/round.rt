//! A round: threads that share a new collector, and what has become of each value when they have ended, and when the collector has.
ghost use Rattle.std.specs.Prelude.{◌≡◌, IfOk};
ghost use Rattle.seize.specs.Collectors.{its_links, its_words};

use crate::dice::Dice;
use crate::spans::{LINKS, Span, TURNS, local_span, owned_span};
use crate::turns::Found;
use seize::{Collector, IdSource, Refusal};
use seize_test_kit::marked::{Marked, marks};
use std::alloc::Global;
use std::sync::Wait;
use std::sync::atomic::{AtomicU64, Ordering};
use std::thread::Threads;
use std::{fmt, thread};

// How many spans a thread has in a round.
const SPANS: u64 = 32;

// How many values a thread makes in a round.
const VALUES: u64 = SPANS * TURNS;

/// What rounds came to.
#[derive(Clone, Copy)]
pub(crate) struct Tally {
    rounds: u64,
    values: u64,
    found: Found,
    left: u64,
    lost: u64,
    twice: u64,
}

impl Tally {
    /// No round.
    pub(crate) fn none() -> Tally {
        Tally {
            rounds: 0,
            values: 0,
            found: Found::none(),
            left: 0,
            lost: 0,
            twice: 0,
        }
    }

    /// Both together.
    pub(crate) fn and(self, other: Tally) -> Tally {
        Tally {
            rounds: self.rounds.wrapping_add(other.rounds),
            values: self.values.wrapping_add(other.values),
            found: self.found.and(other.found),
            left: self.left.wrapping_add(other.left),
            lost: self.lost.wrapping_add(other.lost),
            twice: self.twice.wrapping_add(other.twice),
        }
    }

    /// Whether a value was left when all was reclaimed, was lost, or ended twice or early.
    pub(crate) fn is_bad(self) -> bool {
        self.left != 0 || self.lost != 0 || self.twice != 0 || self.found.early != 0
    }
}

impl fmt::Display for Tally {
    fn fmt<W: fmt::Write>(&self, f: &mut fmt::Formatter<W>) -> fmt::Result {
        write!(
            f,
            "rounds={} values={} found={} early={} left={} lost={} twice={}",
            self.rounds,
            self.values,
            self.found.read,
            self.found.early,
            self.left,
            self.lost,
            self.twice
        )
    }
}

// A thread's spans, one after the other.
fn work<'a, W: Wait>(
    rt: &W,
    collector: &Collector<Marked<'a>>,
    marks: &'a [AtomicU64],
    first: u64,
    seed: u64,
) -> Result<Found, Refusal>
    requires { its_links (its_words collector.now) ≡ 4 }
{
    let mut dice = Dice::of(seed.wrapping_mul(31).wrapping_add(first));
    let mut all = Found::none();
    for n in 0..SPANS {
        let owned = dice.roll(2) == 0;
        let span = Span {
            first: first.wrapping_add(n.wrapping_mul(TURNS)),
            dice: Dice::of(dice.roll(u64::MAX)),
            marks,
        };
        let found = if owned {
            owned_span(rt, collector, span)?
        } else {
            local_span(rt, collector, span)?
        };
        all = all.and(found);
    }
    Ok(all)
}

// Two threads do so.
fn two<'a, R: Threads + Wait + Sync>(
    rt: &R,
    collector: &Collector<Marked<'a>>,
    marks: &'a [AtomicU64],
    first: u64,
    seed: u64,
) -> Result<Found, Refusal>
    requires { its_links (its_words collector.now) ≡ 4 }
{
    let second = first.wrapping_add(VALUES);
    let (one, other) = thread::join(
        rt,
        move || -> Result<Found, Refusal>
            requires { its_links (its_words collector.now) ≡ 4 }
        { work(rt, collector, marks, first, seed) },
        move || -> Result<Found, Refusal>
            requires { its_links (its_words collector.now) ≡ 4 }
        { work(rt, collector, marks, second, seed) },
    );
    Ok(one?.and(other?))
}

// Four do.
fn four<'a, R: Threads + Wait + Sync>(
    rt: &R,
    collector: &Collector<Marked<'a>>,
    marks: &'a [AtomicU64],
    first: u64,
    seed: u64,
) -> Result<Found, Refusal>
    requires { its_links (its_words collector.now) ≡ 4 }
{
    let second = first.wrapping_add(2 * VALUES);
    let (one, other) = thread::join(
        rt,
        move || -> Result<Found, Refusal>
            requires { its_links (its_words collector.now) ≡ 4 }
        { two(rt, collector, marks, first, seed) },
        move || -> Result<Found, Refusal>
            requires { its_links (its_words collector.now) ≡ 4 }
        { two(rt, collector, marks, second, seed) },
    );
    Ok(one?.and(other?))
}

// So many do.
fn by_all<'a, R: Threads + Wait + Sync>(
    rt: &R,
    collector: &Collector<Marked<'a>>,
    marks: &'a [AtomicU64],
    threads: u64,
    seed: u64,
) -> Result<Found, Refusal>
    requires { its_links (its_words collector.now) ≡ 4 }
{
    match threads {
        4 => four(rt, collector, marks, 0, seed),
        2 => two(rt, collector, marks, 0, seed),
        _ => work(rt, collector, marks, 0, seed),
    }
}

// How many values were marked so.
fn count(marks: &[AtomicU64], twice: bool) -> u64 {
    let mut all: u64 = 0;
    for mark in marks.iter() {
        let ends = mark.load(Ordering::SeqCst);
        let is = if twice { ends > 1 } else { ends == 0 };
        all = all.wrapping_add(u64::from(is));
    }
    all
}

// A collector with four links, whose batches have 1, 2, 4 or 32 values.
fn collector<'a>(alloc: Global, seed: u64) -> Result<Collector<Marked<'a>>, Refusal>
    ensures { IfOk result (λ made. its_links (its_words made) ≡ 4) }
{
    let size = match seed % 4 {
        0 => 1,
        1 => 2,
        2 => 4,
        _ => 32,
    };
    let made: Collector<Marked<'a>> = Collector::new(alloc, &mut IdSource::new(), 4, LINKS)?;
    Ok(made.batch_size(size))
}

/// A round of 1, 2 or 4 threads, by the chances of this seed.
///
/// # Errors
///
/// `NoMemory` where the allocator refuses.
pub(crate) fn round<R: Threads + Wait + Sync>(
    rt: &R,
    alloc: Global,
    threads: u64,
    seed: u64,
) -> Result<Tally, Refusal> {
    let values = threads.wrapping_mul(VALUES);
    let places = marks(alloc, values)?;
    let mut collector = collector(alloc, seed)?;
    let found = by_all(rt, &collector, places.as_slice(), threads, seed);
    let reclaimed = collector.reclaim_all(&mut ());
    let waiting = count(places.as_slice(), false).saturating_sub(LINKS as u64);
    drop(collector);
    let found = found?;
    Ok(Tally {
        rounds: 1,
        values,
        found,
        left: waiting.wrapping_add(u64::from(!reclaimed)),
        lost: count(places.as_slice(), false),
        twice: count(places.as_slice(), true),
    })
}
