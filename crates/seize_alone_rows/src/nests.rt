//! Values that hold blocks of their own type, for a collector in one caller's hands: a reclaimer that keeps which values ended, in order,
//! and puts what they held; and a watch that keeps of which it was told.
ghost use Rattle.std.specs.Prelude.{◌<◌, ◌≡◌, All, IfOk, length};
ghost use Rattle.seize.specs.Alones.{IsSame};
ghost use Rattle.seize.specs.Blocks.{Belongs};
ghost use Rattle.seize.specs.Collectors.{its_links, its_words};
ghost use Rattle.seize_uses.specs.Nests.{nested_in, nest_owners, nest_weight};
ghost use Rattle.seize_uses.specs.Weights.{nested_lighter};
ghost use base.Stored.{coded_unit};

use crate::oracle::Value;
use seize::{Alone, Collector, Further, IdSource, Owned, Puts, Reclaim, Refusal, Watch};
use seize_uses::nest::Nest;
use std::alloc::{AllocError, Global};
use std::process::Abort;
use std::sync::atomic::{AtomicU64, Ordering};
use std::test::Fail;

// A value that ended.
#[derive(Drop)]
struct End {
    number: AtomicU64,
    kind: AtomicU64,
}

/// The values that ended, in order, for as many as there is room for.
#[derive(Drop)]
pub(crate) struct Ends {
    many: AtomicU64,
    ends: Vec<End>,
}

impl Ends {
    /// None yet, and room for so many.
    pub(crate) fn with_room(alloc: Global, room: u64) -> Result<Ends, AllocError> {
        let mut ends = Vec::new(alloc);
        for _ in 0..room {
            ends.push(End {
                number: AtomicU64::new(0),
                kind: AtomicU64::new(0),
            })
            .map_err(AllocError::from)?;
        }
        Ok(Ends {
            many: AtomicU64::new(0),
            ends,
        })
    }

    /// How many there are.
    pub(crate) fn many(&self) -> u64 {
        self.many.load(Ordering::SeqCst)
    }

    // One more.
    fn keep(&self, number: u64, kind: u64) {
        let before = self.many.fetch_add(1, Ordering::SeqCst);
        if let Some(end) = self.ends.get(before as usize) {
            end.number.store(number, Ordering::SeqCst);
            end.kind.store(kind, Ordering::SeqCst);
        }
    }

    /// Whether this value is the one in this place, by its number and its kind.
    pub(crate) fn is_at(&self, n: usize, value: Value) -> bool {
        let Some(end) = self.ends.get(n) else {
            return false;
        };
        let (number, kind) = (
            end.number.load(Ordering::SeqCst),
            end.kind.load(Ordering::SeqCst),
        );
        (n as u64) < self.many() && number == value.number && kind == value.kind
    }

    /// Whether they have these numbers, in this order.
    pub(crate) fn are(&self, numbers: &[u64]) -> bool {
        self.many() == numbers.len() as u64
            && self.ends.iter().zip(numbers.iter()).all(|(end, number)| end
                .number
                .load(Ordering::SeqCst)
                == *number)
    }

    /// Whether they are these values, in any order.
    pub(crate) fn have(&self, values: &[Value]) -> bool {
        self.many() == values.len() as u64
            && values.iter().all(|value| (0..self.ends.len()).any(|n| self.is_at(n, *value)))
    }
}

/// Keeps each value that ends, and puts what it held, in order.
#[derive(Clone, Copy)]
pub(crate) struct Keeping<'a> {
    /// Where they are kept.
    pub(crate) ends: &'a Ends,
}

impl Puts<Nest> for Keeping<'_> {
    ghost weight = { nest_weight };

    ghost owners = { nest_owners };

    ghost puts = { λ _ value. nested_in value };

    ghost lighter = { λ _ value. nested_lighter value };
}

impl Reclaim<Nest> for Keeping<'_> {
    fn reclaim(self, kind: u64, value: Nest, further: &mut Further<'_, Nest, Self>) {
        let Nest { number, inside } = value;
        self.ends.keep(number, kind);
        further.put_all(inside);
    }
}

/// The numbers of the values that were told, in order, for as many as there is room for.
#[derive(Drop)]
pub(crate) struct Heard {
    /// The numbers.
    pub(crate) numbers: Vec<u64>,
}

impl Heard {
    /// None yet, and room for so many.
    pub(crate) fn with_room(alloc: Global, room: usize) -> Result<Heard, AllocError> {
        Ok(Heard {
            numbers: Vec::with_capacity(alloc, room)?,
        })
    }
}

impl Watch<Nest> for Heard {
    ghost Seen = { Unit {0} };

    ghost coded = { coded_unit };

    ghost seen = { λ _. tt };

    ghost told = { λ _ _. tt };

    fn gone(&mut self, value: &Nest) {
        if self.numbers.len() < self.numbers.capacity() {
            self.numbers.push_reserved(value.number);
        }
    }
}

/// A collector of such values.
pub(crate) type Nests<'a> = Collector<Nest, Keeping<'a>>;

/// The same in one caller's hands.
pub(crate) type AloneNests<'a> = Alone<Nest, Keeping<'a>>;

/// A block of them.
pub(crate) type Block = Owned<Nest>;

/// One with so many links, and batches of so many values.
pub(crate) fn nests<'a>(
    alloc: Global,
    size: usize,
    links: usize,
    ends: &'a Ends,
) -> Result<Nests<'a>, Refusal>
    ensures { IfOk result (λ made. its_links (its_words made) ≡ links) }
{
    let keeping = Keeping { ends };
    Ok(Collector::with_reclaimer(alloc, &mut IdSource::new(), 1, links, keeping)?.batch_size(size))
}

/// A block of this number, with these blocks inside.
pub(crate) fn around(
    alone: &mut AloneNests<'_>,
    number: u64,
    inside: Vec<Block>,
) -> Result<Block, Refusal>
    requires { All (Belongs nest_owners alone.old.book.store) inside.items }
    ensures made { IfOk result (Belongs nest_owners alone.old.book.store) }
    ensures same { alone.new ≡ alone.old }
{
    match alone.owned(Nest { number, inside }) {
        Ok(block) => Ok(block),
        Err((refusal, _)) => Err(refusal),
    }
}

/// A block with nothing inside.
pub(crate) fn leaf(alloc: Global, alone: &mut AloneNests<'_>, number: u64) -> Result<Block, Refusal>
    ensures made { IfOk result (Belongs nest_owners alone.old.book.store) }
    ensures same { alone.new ≡ alone.old }
{
    around(alone, number, Vec::new(alloc))
}

/// A block with this one inside.
pub(crate) fn round(
    alloc: Global,
    alone: &mut AloneNests<'_>,
    number: u64,
    block: Block,
) -> Result<Block, Refusal>
    requires { Belongs nest_owners alone.old.book.store block }
    ensures made { IfOk result (Belongs nest_owners alone.old.book.store) }
    ensures same { alone.new ≡ alone.old }
{
    let mut inside = Vec::new(alloc);
    inside.push(block).map_err(AllocError::from)?;
    around(alone, number, inside)
}

/// The collector in one caller's hands. No number is in use.
pub(crate) fn alone_nests<'a>(
    alloc: Global,
    size: usize,
    links: usize,
    ends: &'a Ends,
) -> Result<AloneNests<'a>, Fail>
    ensures { IfOk result (λ alone. (alone.links ≡ links) × (length alone.book.links ≡ links)) }
{
    match nests(alloc, size, links, ends)?.alone() {
        Ok(alone) => Ok(alone),
        Err(_) => Err(Fail::new("the collector came back")),
    }
}

/// The slot, which is in use, retires a block that was in no link.
pub(crate) fn retire(
    rt: &impl Abort,
    alone: &mut AloneNests<'_>,
    s: usize,
    block: Block,
    heard: &mut Heard,
)
    requires { Belongs nest_owners alone.old.book.store block }
    ensures { IsSame alone.old alone.new }
{
    let taken = alone.taken(block);
    match alone.retire(s, taken, 0, heard) {
        Ok(()) => {}
        Err((_, _taken)) => rt.abort(),
    }
}

/// The number of what the link holds, where the slot has a guard.
pub(crate) fn number_in(
    alone: &AloneNests<'_>,
    s: usize,
    link: usize,
) -> Result<Option<u64>, Refusal>
    requires { link < alone.now.links }
{
    Ok(alone.protect(s, link)?.map(|found| found.number))
}

/// The slot retires a new value of this number.
pub(crate) fn retire_new(
    rt: &impl Abort,
    alloc: Global,
    alone: &mut AloneNests<'_>,
    s: usize,
    number: u64,
    heard: &mut Heard,
) -> Result<(), Refusal>
    ensures { IsSame alone.old alone.new }
{
    let block = leaf(alloc, alone, number)?;
    retire(rt, alone, s, block, heard);
    Ok(())
}
