//! What an attempt does between the put and the detach: it reads the heads of as many slots as the total says, and marks those that are
//! active. Others may step on all these words meanwhile, make slots, and add any events.
ghost use Rattle.std.specs.Prelude.{◌≡◌, ◌≤◌, ◌<◌, ◌^◌, true};
ghost use Rattle.seize_calls.specs.Batches.{AreRemarked, keys_in, slot_marks_in, slot_marks_of, without_slots};
ghost use Rattle.seize_calls.specs.Together.{IsKeyFor};
ghost use Rattle.seize_calls.specs.Numbered.{is_count_of};
ghost use Rattle.seize_calls.specs.Marks.{BeginsToMark, EndsMarks};
ghost use Rattle.seize_calls.specs.Rounds.{IsRoundOf, all_in, book_at, rest_in};
ghost use Rattle.seize_book.specs.Values.{AreOfBook, values_of};
ghost use Rattle.seize_words.specs.Reserved.{comes_to, heads_book, heads_end};
ghost use Rattle.seize_book.specs.Slots.{slot_of};
ghost use Rattle.seize_words.specs.Totals.{slots_seen};
ghost use Rattle.seize_words.specs.Walks.{Knows};

use crate::batch::Batch;
use crate::round::Round;
use seize_words::book::{Pass, SlotKey};
use seize_words::slots::Heads;
use seize_words::words::Words;

/// What a call comes to that reads the heads.
#[derive(Clone, Copy, PartialEq, Eq, Debug)]
pub enum MarkOutcome {
    /// The batch has a value for each slot that was marked, which are so many, and may be detached.
    Ready(usize),
    /// More slots are active than the batch has values. The call has given up, and the batch stays.
    TooMany,
}

/// Marks the active slots for the slot's batch: reads the heads of the slots from 0 on, of as many as the total says that there are. The
/// slots marked are noted of the first blocks of the batch then, one each, in order.
///
/// It takes no memory and waits for nobody: a load for each slot that there is, and two for each bucket of the table; and for each slot
/// marked a look-up, a plain read and a plain write.
pub(crate) fn mark<T: Drop>(
    words: &Words<T>,
    batch: &mut Batch,
    key: &mut SlotKey,
    pass: &mut Pass,
) -> MarkOutcome
    requires key { IsKeyFor words.now key.old pass.old }
    requires begins { BeginsToMark key.old }
    requires batch { AreOfBook (keys_in batch.old) pass.old × (values_of (keys_in batch.old) ≡ (slot_of key.old).batch) }
    ensures knows { Knows key.new pass.new }
    ensures batch { AreRemarked (keys_in batch.old) (keys_in batch.new) }
    ensures marks { (at : BeginsToMark key.old) → EndsMarks at pass.old key.new pass.new (slot_marks_in batch.new) result }
{
    let (count, all) = words.slots.load(pass);
    let mut round = Round::new(batch.first, &mut batch.values, pass);
    let marked = read_each(
        words.slots.heads(count, &all),
        words,
        batch.len,
        &mut round,
        key,
        pass,
    );
    round.end(&mut batch.values, pass);
    marked
}

// Reads these heads in turn, unless the call gives up. There are `len` values, or more where that is as many as can be said.
fn read_each<T: Drop>(
    heads: Heads<'_>,
    words: &Words<T>,
    len: usize,
    round: &mut Round,
    key: &mut SlotKey,
    pass: &mut Pass,
) -> MarkOutcome
    requires key { IsKeyFor words.now key.old pass.old }
    requires heads { (heads_book heads ≡ pass.old.name) × (comes_to heads ≡ 0) × (heads_end heads ≤ slots_seen pass.old)
        × (heads_end heads < 2 ^ 64) × ((at : BeginsToMark key.old) → at.note ≤ heads_end heads) }
    requires begins { BeginsToMark key.old }
    requires round { (book_at round.old ≡ pass.old.name) × IsRoundOf round.old (slot_of key.old).batch
        × (is_count_of len (slot_of key.old).batch ≡ true) }
    ensures knows { Knows key.new pass.new }
    ensures round { (book_at round.new ≡ pass.old.name) × (without_slots (all_in round.new) ≡ without_slots (rest_in round.old)) }
    ensures ends { (at : BeginsToMark key.old) → EndsMarks at pass.old key.new pass.new (slot_marks_of (all_in round.new)) result }
{
    let mut number: usize = 0;
    let mut marked: usize = 0;
    for head in heads {
        let slot = number;
        number += 1;
        if head.read(key, pass) == 0 {
            continue;
        }
        if marked >= len {
            return MarkOutcome::TooMany;
        }
        round.mark(&words.blocks, slot, pass);
        marked += 1;
    }
    MarkOutcome::Ready(marked)
}
