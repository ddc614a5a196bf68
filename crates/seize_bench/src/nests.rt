//! A work whose reclaimer puts further values.
ghost use Rattle.std.specs.Prelude.{◌≡◌, All, IfOk};
ghost use Rattle.seize.specs.Blocks.{Belongs};
ghost use Rattle.seize.specs.Collectors.{BelongsTo, IsPassOf, its_store};
ghost use Rattle.seize.specs.Registrations.{registered_in};
ghost use Rattle.seize_uses.specs.Nests.{nest_owners};

use crate::clock::{RUNS, Samples, Span};
use crate::guards::{RETIRED, refused};
use seize::{Collector, IdSource, Owned, Pass, Refusal, Registration};
use seize_uses::nest::{Nest, PutInside};
use std::alloc::{AllocError, Global};
use std::io;
use std::rt::Clock;
use std::sync::Wait;
use std::sync::atomic::AtomicU64;
use std::time::CpuClock;

/// How many turns a run has.
const TURNS: u64 = 500;

type Holder<'c, 'a> = Registration<'c, Nest, PutInside<'a>>;

// A block of this number, with these inside.
fn around(
    holder: &Holder<'_, '_>,
    number: u64,
    inside: Vec<Owned<Nest>>,
) -> Result<Owned<Nest>, Refusal>
    requires { All (Belongs nest_owners (its_store (registered_in holder.now))) inside.items }
    ensures { IfOk result (BelongsTo nest_owners (registered_in holder.now)) }
{
    match holder.owned(Nest { number, inside }) {
        Ok(block) => Ok(block),
        Err((refusal, _)) => Err(refusal),
    }
}

// A block with one block inside.
fn pair(holder: &Holder<'_, '_>, alloc: Global, number: u64) -> Result<Owned<Nest>, Refusal>
    ensures { IfOk result (BelongsTo nest_owners (registered_in holder.now)) }
{
    let inner = around(holder, number, Vec::new(alloc))?;
    let mut inside = Vec::new(alloc);
    inside.push(inner).map_err(AllocError::from)?;
    around(holder, number, inside)
}

// Retires values, each with one inside: as many as fill a batch once these are put.
fn retire_pairs<W: Wait>(
    holder: &Holder<'_, '_>,
    alloc: Global,
    rt: &W,
    pass: &mut Pass,
) -> Result<(), Refusal>
    requires { IsPassOf (registered_in holder.now) pass.old }
    ensures { IsPassOf (registered_in holder.now) pass.new }
{
    for number in 0..RETIRED {
        let block = pair(holder, alloc, number)?;
        let block = holder.collector().unlinked(block);
        holder.retire(rt, pass, block);
    }
    Ok(())
}

// In each turn a guard enters, 32 values are retired, each with one inside, and the guard leaves.
fn retire_many<W: Wait>(
    holder: &Holder<'_, '_>,
    alloc: Global,
    rt: &W,
    pass: &mut Pass,
) -> Result<u64, Refusal>
    requires { IsPassOf (registered_in holder.now) pass.old }
    ensures { IsPassOf (registered_in holder.now) pass.new }
{
    for _ in 0..TURNS {
        let guard = holder.enter(pass)?;
        let done = retire_pairs(holder, alloc, rt, pass);
        guard.leave(rt, pass);
        done?;
    }
    Ok(TURNS)
}

// Runs by this registration.
fn runs<R: Clock + CpuClock + Wait>(
    rt: &R,
    alloc: Global,
    holder: &Holder<'_, '_>,
    pass: &mut Pass,
    samples: &mut Samples,
) -> io::Result<()>
    requires { IsPassOf (registered_in holder.now) pass.old }
    ensures { IsPassOf (registered_in holder.now) pass.new }
{
    for _ in 0..RUNS {
        let span = Span::begun(rt)?;
        let sum = retire_many(holder, alloc, rt, pass).map_err(refused)?;
        samples.add(span.ended(rt)?, 1, TURNS.wrapping_mul(RETIRED), sum)?;
    }
    Ok(())
}

/// Runs in which a registration retires new blocks, each with another one inside, which the reclaimer puts.
pub(crate) fn measure<R: Clock + CpuClock + Wait>(
    rt: &R,
    alloc: Global,
    samples: &mut Samples,
) -> io::Result<()> {
    let ended = AtomicU64::new(0);
    let by = PutInside {
        ended: &ended,
        order: &[],
    };
    let collector = Collector::with_reclaimer(alloc, &mut IdSource::new(), 1, 0, by);
    let collector = collector.map_err(refused)?;
    let mut pass = collector.pass();
    let holder = collector.register(rt, &mut pass).map_err(refused)?;
    let done = runs(rt, alloc, &holder, &mut pass, samples);
    holder.end(rt, &mut pass);
    done
}
