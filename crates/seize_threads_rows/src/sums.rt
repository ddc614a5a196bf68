//! Numbers to which threads add by exchanges, each in a block with a mark of its own.
ghost use Rattle.std.specs.Prelude.{◌≡◌, ◌<◌, IfOk};
ghost use Rattle.seize.specs.Collectors.{its_links, its_words};

use seize::{Collector, Guard, IdSource, Refusal};
use seize_test_kit::marked::Marked;
use std::alloc::Global;
use std::sync::Wait;
use std::sync::atomic::AtomicU64;

/// A number in a block, and the mark of the block.
#[derive(Drop)]
pub(crate) struct Sum<'a> {
    /// The number.
    pub(crate) number: u64,
    /// The mark of the block.
    pub(crate) mark: Marked<'a>,
}

/// What the exchanges of a thread came to.
#[derive(Clone, Copy, PartialEq, Eq, Debug)]
pub(crate) struct Tried {
    /// How many were won.
    pub(crate) won: u64,
    /// How many were lost.
    pub(crate) lost: u64,
    /// How many of them went otherwise than they should.
    pub(crate) odd: u64,
}

impl Tried {
    /// None.
    pub(crate) fn none() -> Tried {
        Tried {
            won: 0,
            lost: 0,
            odd: 0,
        }
    }

    /// One that was won, as it should.
    pub(crate) fn won(well: bool) -> Tried {
        Tried {
            won: 1,
            lost: 0,
            odd: u64::from(!well),
        }
    }

    /// One that was lost, as it should.
    pub(crate) fn lost(well: bool) -> Tried {
        Tried {
            won: 0,
            lost: 1,
            odd: u64::from(!well),
        }
    }

    /// One that was neither won nor lost.
    pub(crate) fn odd() -> Tried {
        Tried {
            won: 0,
            lost: 0,
            odd: 1,
        }
    }

    /// Both together.
    pub(crate) fn and(self, other: Tried) -> Tried {
        Tried {
            won: self.won.wrapping_add(other.won),
            lost: self.lost.wrapping_add(other.lost),
            odd: self.odd.wrapping_add(other.odd),
        }
    }
}

/// A collector with one link, and batches of one value.
pub(crate) fn collector<'a>(alloc: Global) -> Result<Collector<Sum<'a>>, Refusal>
    ensures { IfOk result (λ made. 0 < its_links (its_words made)) }
{
    let made: Collector<Sum<'a>> = Collector::new(alloc, &mut IdSource::new(), 1, 1)?;
    Ok(made.batch_size(1))
}

/// Puts the number 0 into the link, in the block of mark 0.
pub(crate) fn put<'a>(
    rt: &impl Wait,
    collector: &Collector<Sum<'a>>,
    marks: &'a [AtomicU64],
) -> Result<(), Refusal>
    requires { 0 < its_links (its_words collector.now) }
{
    let mut pass = collector.pass();
    let guard = collector.enter_owned(rt, &mut pass)?;
    let mark = Marked { value: 0, marks };
    let block = guard.owned(Sum { number: 0, mark }).ok();
    if let Some(old) = guard.swap(0, block, &mut pass) {
        guard.defer_retire(rt, &mut pass, old);
    }
    guard.leave(rt, &mut pass);
    Ok(())
}

/// The number that the link holds.
pub(crate) fn read<'a>(
    rt: &impl Wait,
    collector: &Collector<Sum<'a>>,
) -> Result<Option<u64>, Refusal>
    requires { 0 < its_links (its_words collector.now) }
{
    let mut pass = collector.pass();
    let guard = collector.enter_owned(rt, &mut pass)?;
    let found = guard.protect(0, &mut pass).map(|shared| shared.number);
    guard.leave(rt, &mut pass);
    Ok(found)
}
