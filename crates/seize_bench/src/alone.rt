//! A work of one caller, who has a collector alone.
ghost use Rattle.std.specs.Prelude.{◌≡◌, ◌<◌, IfOk};
ghost use Rattle.seize.specs.Blocks.{owned_store};

use crate::clock::{RUNS, Samples, Span};
use crate::guards::{RETIRED, refused};
use seize::{Alone, IdSource, Owned, Refusal};
use std::alloc::Global;
use std::io;
use std::rt::Clock;
use std::time::CpuClock;

/// How many turns a run has.
const TURNS: u64 = 1_000;

// A collector in one caller's hands, with one link and batches of 32 values.
fn alone(alloc: Global) -> Result<Alone<u64>, Refusal>
    ensures { IfOk result (λ made. made.links ≡ 1) }
{
    Alone::new(alloc, &mut IdSource::new(), 1, 1)
}

// A block goes into the link, and what came out is retired.
fn update(alone: &mut Alone<u64>, slot: usize, value: u64) -> Result<(), Refusal>
    requires { 0 < alone.old.links }
    ensures { alone.new.links ≡ alone.old.links }
{
    let new = alone.owned(value).map_err(|(refusal, _)| refusal)?;
    let Some(old) = alone
        .swap(slot, 0, Some(new))
        .map_err(|(refusal, _)| refusal)?
    else {
        return Ok(());
    };
    match alone.retire(slot, old, 0, &mut ()) {
        Ok(()) => Ok(()),
        Err((_, _old)) => unreachable!(),
    }
}

// In each turn the slot enters, updates the link 32 times, and leaves.
fn update_many(alone: &mut Alone<u64>, slot: usize) -> Result<u64, Refusal>
    requires { 0 < alone.old.links }
    ensures { alone.new.links ≡ alone.old.links }
{
    for _ in 0..TURNS {
        alone.enter(slot)?;
        for value in 0..RETIRED {
            update(alone, slot, value)?;
        }
        alone.leave(slot, &mut ())?;
    }
    Ok(TURNS)
}

/// Runs in which a caller who has a collector alone puts new blocks into its link, and retires what was there.
pub(crate) fn measure<R: Clock + CpuClock>(
    rt: &R,
    alloc: Global,
    samples: &mut Samples,
) -> io::Result<()> {
    let mut alone = alone(alloc).map_err(refused)?;
    let slot = alone.register(&mut ()).map_err(refused)?;
    for _ in 0..RUNS {
        let span = Span::begun(rt)?;
        let sum = update_many(&mut alone, slot).map_err(refused)?;
        samples.add(span.ended(rt)?, 1, TURNS.wrapping_mul(RETIRED), sum)?;
    }
    Ok(())
}
