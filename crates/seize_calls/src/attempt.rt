//! An attempt to retire a slot's batch: it marks the active slots, detaches the batch, inserts it at each of them that is active still, and
//! adds the insertions won to its count. Others may step on all these words meanwhile, and add any events.
ghost use Rattle.seize_calls.specs.Attempts.{Attempts};
ghost use Rattle.seize_calls.specs.Batches.{keys_in};
ghost use Rattle.seize_calls.specs.Together.{IsKeyFor};
ghost use Rattle.seize_calls.specs.Marks.{BeginsToMark};
ghost use Rattle.seize_calls.specs.Settling.{HasBatch};
ghost use Rattle.seize_words.specs.Walks.{Knows};

use crate::batch::Batch;
use crate::inserting::insert_each;
use crate::manner::Manner;
use crate::marking::{MarkOutcome, mark};
use seize_words::book::{Pass, SlotKey};
use seize_words::words::Words;

/// What an attempt comes to.
#[derive(Clone, Copy, PartialEq, Eq, Debug)]
pub enum AttemptOutcome {
    /// More slots are active than the batch has values. The call has given up, and the batch stays.
    Stays,
    /// The batch was retired, and whoever counts it down to 0 is given its values, with their keys.
    Waits,
    /// The batch was retired, and nobody holds it: its values are given up to the call, and their keys stay.
    GivenUp,
}

/// Attempts to retire the slot's batch, which is this one. Afterwards it has no values, unless it stays, or is given up.
///
/// It takes no memory, and waits as its manner does.
pub(crate) fn attempt<T: Drop, M: Manner>(
    words: &Words<T>,
    batch: &mut Batch,
    key: &mut SlotKey,
    pass: &mut Pass,
    manner: &M,
) -> AttemptOutcome
    requires key { IsKeyFor words.now key.old pass.old × M.may manner.now pass.old.id }
    requires begins { BeginsToMark key.old }
    requires batch { HasBatch key.old pass.old (keys_in batch.old) }
    ensures knows { Knows key.new pass.new }
    ensures ends { (at : BeginsToMark key.old) → Attempts at pass.old (keys_in batch.old) key.new pass.new (keys_in batch.new) result }
{
    match mark(words, batch, key, pass) {
        MarkOutcome::TooMany => AttemptOutcome::Stays,
        MarkOutcome::Ready(marked) => {
            key.detach(pass);
            let front = batch.first;
            let won = insert_each(words, batch, marked, key, pass, manner);
            let header = words.blocks.header(front, pass);
            if header.count.add(won, key, &mut batch.values, pass) {
                AttemptOutcome::GivenUp
            } else {
                batch.len = 0;
                AttemptOutcome::Waits
            }
        }
    }
}
