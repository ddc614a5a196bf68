//! New collectors in one caller's hands: what a refusal leaves, and a batch size that is set later.

use crate::nests::{AloneNests, Ends, Heard, Keeping, retire_new};
use seize::{Alone, IdSource, Refusal};
use std::alloc::Global;
use std::process::Abort;
use std::test::*;

// One that is refused takes no id. The next ones have the ids in order.
#[test]
fn a_refused_one_takes_no_id(rt: HostRuntime) -> Result<(), Fail> {
    let mut ids = IdSource::new();
    let refused: Result<Alone<u64>, Refusal> = Alone::new(rt.alloc(), &mut ids, usize::MAX, 1);
    assert_eq!(rt;
        refused.map(|alone| alone.id()),
        Err(Refusal::TooManyProcessors)
    );
    let first: Alone<u64> = Alone::new(rt.alloc(), &mut ids, 1, 1)?;
    let second: Alone<u64> = Alone::new(rt.alloc(), &mut ids, 1, 1)?;
    assert_eq!(rt; (first.id(), second.id()), (0, 1));
    Ok(())
}

// A new one, with batches of so many.
fn new_nests<'a>(alloc: Global, size: usize, ends: &'a Ends) -> Result<AloneNests<'a>, Refusal> {
    let keeping = Keeping { ends };
    Ok(Alone::with_reclaimer(alloc, &mut IdSource::new(), 1, 0, keeping)?.batch_size(size))
}

// A slot without a guard retires two values, and a third one once batches are of one.
fn retire_three<'a>(
    rt: &impl Abort,
    alloc: Global,
    alone: AloneNests<'a>,
    heard: &mut Heard,
) -> Result<AloneNests<'a>, Refusal> {
    let mut alone = alone;
    let slot = alone.register(heard)?;
    retire_new(rt, alloc, &mut alone, slot, 1, heard)?;
    retire_new(rt, alloc, &mut alone, slot, 2, heard)?;
    assert_eq!(rt; heard.numbers.len(), 0);
    let mut alone = alone.batch_size(1);
    assert_eq!(rt; heard.numbers.len(), 0);
    retire_new(rt, alloc, &mut alone, slot, 3, heard)?;
    Ok(alone)
}

// The size counts from then on: the batch that waits is full with the next value.
#[test]
fn a_size_that_is_set_later_counts_from_then_on(rt: HostRuntime) -> Result<(), Fail> {
    let ends = Ends::with_room(rt.alloc(), 3)?;
    let mut heard = Heard::with_room(rt.alloc(), 3)?;
    let alone = new_nests(rt.alloc(), 4, &ends)?;
    let alone = retire_three(&rt, rt.alloc(), alone, &mut heard)?;
    assert_eq!(rt; heard.numbers.as_slice(), [1, 2, 3].as_slice());
    drop(alone);
    assert!(rt; ends.are(&[1, 2, 3]));
    Ok(())
}
