//! What an attempt does between the detach and the add: it inserts the batch at the slots that the call has marked, in their order. Others
//! may step on all these words meanwhile, and add any events.
ghost use Rattle.std.specs.Prelude.{◌≡◌, ◌≤◌, [], length, take, true};
ghost use Rattle.seize_calls.specs.Batches.{keys_in, slot_marks_in, slot_marks_of};
ghost use Rattle.seize_calls.specs.Together.{IsKeyFor};
ghost use Rattle.seize_calls.specs.Inserts.{GoesPast, InsertsAtEach, InsertsAtSlot, IsAtNext, IsAtTry, IsInserting, TriesOnce};
ghost use Rattle.seize_calls.specs.Rounds.{all_in, book_at, done_in, rest_in};
ghost use Rattle.seize_book.specs.Private.{labels_of};
ghost use Rattle.seize_book.specs.Values.{AreOfBook, book_in, values_of};
ghost use Rattle.seize_words.specs.Chunks.{header_book};
ghost use Rattle.seize_words.specs.Reservations.{IsHeadOfBook, ShowsHead};
ghost use Rattle.seize_book.specs.Slots.{IsKeyOfBook};
ghost use Rattle.seize_book.specs.Tokens.{IsSole};
ghost use Rattle.seize_words.specs.Walks.{Knows};

use crate::batch::Batch;
use crate::manner::Manner;
use crate::round::Round;
use seize_words::book::{Pass, SlotKey};
use seize_words::chunk::Header;
use seize_words::reservation::Head;
use seize_words::words::Words;

/// Inserts the batch that the slot's call has detached, at the slots that are noted of its first blocks, as many as were marked, in their
/// order, with the block of each. It gives how many insertions were won.
///
/// It takes no memory: for each slot a look-up and a plain read, beside what the insertion does (`Manner::insert`).
pub(crate) fn insert_each<T: Drop, M: Manner>(
    words: &Words<T>,
    batch: &mut Batch,
    marked: usize,
    key: &mut SlotKey,
    pass: &mut Pass,
    manner: &M,
) -> u64
    requires key { IsKeyFor words.now key.old pass.old × M.may manner.now pass.old.id }
    requires batch { AreOfBook (keys_in batch.old) pass.old × (marked ≤ length (slot_marks_in batch.old)) }
    requires at { let marks = take marked (slot_marks_in batch.old) in
        IsInserting key.old pass.old marks batch.old.first (values_of (keys_in batch.old)) }
    ensures knows { Knows key.new pass.new }
    ensures batch { (book_in batch.new.values ≡ book_in batch.old.values) × (batch.new.values.keys.held ≡ batch.old.values.keys.held)
        × (batch.new.first ≡ batch.old.first) }
    ensures all { let marks = take marked (slot_marks_in batch.old) in let values = values_of (keys_in batch.old) in
        (at : IsInserting key.old pass.old marks batch.old.first values) → InsertsAtEach at key.new pass.new result }
{
    let front = batch.first;
    let mut round = Round::new(front, &mut batch.values, pass);
    let won = insert_round(words, &mut round, marked, front, key, pass, manner);
    round.end(&mut batch.values, pass);
    won
}

// Inserts it with so many blocks of the round.
fn insert_round<T: Drop, M: Manner>(
    words: &Words<T>,
    round: &mut Round,
    marked: usize,
    front: u64,
    key: &mut SlotKey,
    pass: &mut Pass,
    manner: &M,
) -> u64
    requires key { IsKeyFor words.now key.old pass.old × M.may manner.now pass.old.id }
    requires round { (book_at round.old ≡ pass.old.name) × (done_in round.old ≡ []) ×
        (marked ≤ length (slot_marks_of (rest_in round.old))) }
    requires at { IsInserting key.old pass.old (take marked (slot_marks_of (rest_in round.old))) front (labels_of (rest_in round.old)) }
    ensures knows { Knows key.new pass.new }
    ensures round { (book_at round.new ≡ pass.new.name) × (all_in round.new ≡ rest_in round.old) }
    ensures all { let marks = take marked (slot_marks_of (rest_in round.old)) in
        (at : IsInserting key.old pass.old marks front (labels_of (rest_in round.old))) → InsertsAtEach at key.new pass.new result }
{
    let mut won: u64 = 0;
    for _ in 0..marked {
        if insert_at(words, round, front, key, pass, manner) {
            won += 1;
        }
    }
    won
}

// Inserts the batch with the next block of the round, at the slot that is noted of it. It says whether an insertion was won; where the slot
// is inactive it is skipped.
fn insert_at<T: Drop, M: Manner>(
    words: &Words<T>,
    round: &mut Round,
    front: u64,
    key: &mut SlotKey,
    pass: &mut Pass,
    manner: &M,
) -> bool
    requires key { IsKeyFor words.now key.old pass.old × M.may manner.now pass.old.id }
    requires round { book_at round.old ≡ pass.old.name }
    requires next { IsAtNext key.old pass.old round.old front }
    ensures knows { Knows key.new pass.new }
    ensures round { (next : IsAtNext key.old pass.old round.old front) → GoesPast next round.new }
    ensures inserted { (next : IsAtNext key.old pass.old round.old front) → InsertsAtSlot next.at pass.old key.new pass.new result }
{
    let block = round.number();
    // So it is known that the number is one of a row, and that its word fits. Nothing runs here.
    let _known = pass.seek(block);
    let header = words.blocks.header(block, pass);
    let note = round.next(header);
    let head = words.slots.head(note.slot, pass);
    manner.insert(head, header, block, front, key, pass)
}

// Stores what leads on from the block, and inserts the batch with it if the head's word is still what was seen. It says whether it was:
// it is so where the pass is alone and has seen the head as it was.
pub(crate) fn try_once(
    head: &Head,
    header: &Header,
    seen: u64,
    block: u64,
    front: u64,
    key: &mut SlotKey,
    pass: &mut Pass,
) -> bool
    requires book { IsKeyOfBook key.old pass.old × IsHeadOfBook head.now pass.old × (header_book header.now ≡ pass.old.name) }
    requires at { IsAtTry key.old head.now header.now seen block front }
    ensures knows { Knows key.new pass.new }
    ensures tried { (at : IsAtTry key.old head.now header.now seen block front) → TriesOnce at pass.old key.new pass.new result }
    ensures alone { IsSole pass.old.id → ShowsHead head.now pass.old.seen seen → result ≡ true }
{
    header.next.store(seen, key, pass);
    header.first.store(front, key, pass);
    head.insert(seen, block, key, pass) == seen
}
