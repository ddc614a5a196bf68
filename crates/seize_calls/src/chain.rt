//! Chains of values: of each block it is noted which one comes next, and of the last one's that none does. So they take no memory, however
//! many values there are. Whoever has the keys of the values makes such a chain longer.
ghost use Rattle.std.specs.Prelude.{◌≡◌, ◌+◌, ◌<◌, ◌^◌, true};
ghost use Rattle.seize_book.specs.Blocks.{block_number};
ghost use Rattle.seize_book.specs.Others.{book_of, value_of};
ghost use Rattle.seize_book.specs.Values.{AreClosed, AreNew, book_in, values_of};
ghost use Rattle.seize_calls.specs.Batches.{IsNewValue, IsPushed, LeadsFrom};
ghost use Rattle.seize_calls.specs.Numbered.{are_none, ends_at};
ghost use Rattle.seize_words.specs.Chunks.{blocks_book};

use seize_words::blocks::Blocks;
use seize_words::book::{ValueKey, ValueKeys};
use seize_words::note::Note;

/// One value more comes last, of which this is its block's number and what is kept; `last` is the number of the last one's block before,
/// where there are some.
///
/// It takes no memory: two look-ups, a plain read and two plain writes.
#[inline(always)]
pub(crate) fn join<T: Drop>(
    blocks: &Blocks<T>,
    values: &mut ValueKeys,
    empty: bool,
    last: u64,
    number: u64,
    kept: u64,
    value: ValueKey,
)
    requires book { (book_in values.old ≡ blocks_book blocks.now) × (book_of value ≡ blocks_book blocks.now) }
    requires empty { empty ≡ are_none (values_of values.old) }
    requires last { ends_at last (values_of values.old) ≡ true }
    requires number { block_number (value_of value) ≡ number }
    ensures pushes { IsPushed values.old (value_of value) kept values.new }
    ensures closed { AreClosed values.new }
    ensures new { AreNew values.old → IsNewValue value → AreNew values.new }
    ensures fits { number + 2 < 2 ^ 64 }
{
    let mut value = value;
    let cell = blocks.cell(number, &value);
    let note = Note {
        next: 0,
        slot: 0,
        kept,
    };
    value.set_note(cell, note);
    lead_on(blocks, values, empty, last, number);
    values.push(value);
}

/// What is noted of the last value's block says then that the block of this number comes next, where there are values.
#[inline(always)]
pub(crate) fn lead_on<T: Drop>(
    blocks: &Blocks<T>,
    values: &mut ValueKeys,
    empty: bool,
    last: u64,
    number: u64,
)
    requires book { book_in values.old ≡ blocks_book blocks.now }
    requires empty { empty ≡ are_none (values_of values.old) }
    requires last { ends_at last (values_of values.old) ≡ true }
    requires fits { number + 1 < 2 ^ 64 }
    ensures leads { LeadsFrom values.old number values.new }
    ensures new { AreNew values.old → AreNew values.new }
{
    if empty {
        return;
    }
    let mut value = values.pop();
    let cell = blocks.cell(last, &value);
    let note = value.note(cell);
    let note = Note {
        next: number + 1,
        ..note
    };
    value.set_note(cell, note);
    values.push(value);
}
