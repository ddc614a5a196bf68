//! Numbers that seem to come by chance, and what lists of calls take of them: slots, links, kinds and blocks.
ghost use Rattle.std.specs.Prelude.{◌≡◌, ◌<◌, IfOk};
ghost use Rattle.seize.specs.Blocks.{Belongs};
ghost use Rattle.seize_uses.specs.Nests.{nest_owners};

use crate::nests::{AloneNests, Block, leaf, round};
use crate::oracle::Lists;
use seize::Refusal;
use std::alloc::Global;

/// How many slots and links a collector has at most.
pub(crate) const SLOTS: usize = 5;

pub(crate) const LINKS: usize = 3;

/// Numbers that seem to come by chance, and are the same in each run.
#[derive(Drop)]
pub(crate) struct Chance {
    /// What the next one is made of.
    pub(crate) state: u64,
}

impl Chance {
    /// The next one, below this.
    pub(crate) fn below(&mut self, bound: u64) -> u64
        requires { 0 < bound }
        ensures { result < bound }
    {
        self.state = self
            .state
            .wrapping_mul(6_364_136_223_846_793_005)
            .wrapping_add(1_442_695_040_888_963_407);
        (self.state >> 33) % bound
    }

    /// A slot that was made, or the next one.
    pub(crate) fn slot(&mut self, lists: &Lists) -> usize {
        self.below((lists.made() as u64).saturating_add(1)) as usize
    }

    /// A link.
    pub(crate) fn link(&mut self) -> usize
        ensures { result < 3 }
    {
        self.below(LINKS as u64) as usize
    }

    /// A kind.
    pub(crate) fn kind(&mut self) -> u64 {
        self.below(4)
    }
}

/// A new block, in which there may be another one, and one in that. It gives its number too.
pub(crate) fn block(
    alloc: Global,
    alone: &mut AloneNests<'_>,
    lists: &mut Lists,
    chance: &mut Chance,
) -> Result<(Block, u64), Refusal>
    ensures made { IfOk result (λ made. Belongs nest_owners alone.old.book.store made.0) }
    ensures same { alone.new ≡ alone.old }
{
    let mut number = lists.value(None)?;
    let mut block = leaf(alloc, alone, number)?;
    for _ in 0..2u64 {
        if chance.below(3) > 0 {
            break;
        }
        number = lists.value(Some(number))?;
        block = round(alloc, alone, number, block)?;
    }
    Ok((block, number))
}
