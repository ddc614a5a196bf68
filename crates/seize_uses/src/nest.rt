//! Values that hold blocks of their own type, and a reclaimer that puts these: one retirement ends a value with all that is inside, however
//! deep, without recursion.
ghost use Rattle.std.specs.Prelude.{All, IfOk};
ghost use Rattle.seize.specs.Blocks.{Belongs};
ghost use Rattle.seize.specs.Collectors.{BelongsTo, its_store, its_words};
ghost use Rattle.seize_uses.specs.Nests.{nested_in, nest_owners, nest_weight};
ghost use Rattle.seize_uses.specs.Weights.{nested_lighter};

use seize::{Collector, Further, Owned, Puts, Reclaim, Refusal};
use std::sync::atomic::{AtomicU64, Ordering};

/// A number, and the blocks of further values.
#[derive(Drop)]
pub struct Nest {
    pub number: u64,
    pub inside: Vec<Owned<Nest>>,
}

/// Puts the values inside, in their order.
#[derive(Clone, Copy)]
pub struct PutInside<'a> {
    /// How many values ended.
    pub ended: &'a AtomicU64,
    /// How many had ended with it, of each value by its number, for those that have a place here.
    pub order: &'a [AtomicU64],
}

impl Puts<Nest> for PutInside<'_> {
    ghost weight = { nest_weight };

    ghost owners = { nest_owners };

    ghost puts = { λ _ value. nested_in value };

    ghost lighter = { λ _ value. nested_lighter value };
}

impl Reclaim<Nest> for PutInside<'_> {
    fn reclaim(self, _kind: u64, value: Nest, further: &mut Further<'_, Nest, Self>) {
        let before = self.ended.fetch_add(1, Ordering::SeqCst);
        let Nest { number, inside } = value;
        if let Some(place) = self.order.get(number as usize) {
            place.store(before.saturating_add(1), Ordering::SeqCst);
        }
        further.put_all(inside);
    }
}

/// A block of this number, with these blocks inside. It may go into a link, and be retired, with all that it holds.
///
/// # Errors
///
/// `NoMemory` where the allocator refuses. What was to be inside ends then.
pub fn around<'a>(
    collector: &Collector<Nest, PutInside<'a>>,
    number: u64,
    inside: Vec<Owned<Nest>>,
) -> Result<Owned<Nest>, Refusal>
    requires { All (Belongs nest_owners (its_store (its_words collector.now))) inside.items }
    ensures { IfOk result (BelongsTo nest_owners (its_words collector.now)) }
{
    match collector.owned(Nest { number, inside }) {
        Ok(block) => Ok(block),
        Err((refusal, _)) => Err(refusal),
    }
}
