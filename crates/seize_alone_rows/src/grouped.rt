//! Calls that come by chance, four in one `run`, and what plain lists say that each is replied.
ghost use Rattle.std.specs.Prelude.{◌≡◌, ℕ, IfOk, List};
ghost use Rattle.seize.specs.Alones.{IsSame};
ghost use Rattle.seize.specs.Running.{IsFor};
ghost use Rattle.seize_uses.specs.Nests.{nest_owners};

use crate::alone_lists::{Answer, answers};
use crate::chance::{Chance, SLOTS, block};
use crate::nests::{AloneNests, Heard};
use crate::oracle::{Lists, Value};
use seize::{Call, Refusal};
use seize_uses::nest::Nest;
use std::alloc::{AllocError, Global};
use std::collections::VecDeque;

// What a call is replied that takes a number.
fn number(answer: Result<usize, Refusal>) -> Answer {
    match answer {
        Ok(number) => Answer::Slot(number),
        Err(refusal) => Answer::Refused(refusal),
    }
}

// What one is replied that answers nothing but its refusal, and brings this value.
fn plain(answer: Result<(), Refusal>, value: Option<u64>) -> Answer {
    match (answer, value) {
        (Ok(()), _) => Answer::Done,
        (Err(refusal), None) => Answer::Refused(refusal),
        (Err(refusal), Some(value)) => Answer::Back(refusal, value),
    }
}

// What the end of a slot is replied.
fn ended(answer: Result<bool, Refusal>) -> Answer {
    match answer {
        Ok(true) => Answer::Done,
        Ok(false) => Answer::Kept,
        Err(refusal) => Answer::Refused(refusal),
    }
}

// What a read of a link is replied.
fn found(answer: Result<Option<u64>, Refusal>) -> Answer {
    match answer {
        Ok(found) => Answer::Found(found.is_some()),
        Err(refusal) => Answer::Refused(refusal),
    }
}

// The link is exchanged in the lists, and the slot retires what came out.
fn swap(
    lists: &mut Lists,
    s: usize,
    link: usize,
    new: Option<u64>,
    kind: u64,
) -> Result<(), Refusal> {
    match lists.swap(s, link, new)? {
        Some(number) => lists.retire(s, Value { number, kind }),
        None => Ok(()),
    }
}

// A new block is retired.
fn retirement(
    alloc: Global,
    alone: &mut AloneNests<'_>,
    lists: &mut Lists,
    chance: &mut Chance,
    s: usize,
) -> Result<(Call<Nest>, Answer), Refusal>
    ensures made { IfOk result (λ made. IsFor nest_owners alone.old.book.store alone.old.links made.0) }
    ensures same { alone.new ≡ alone.old }
{
    let (block, number) = block(alloc, alone, lists, chance)?;
    let kind = chance.kind();
    let wanted = plain(lists.retire(s, Value { number, kind }), Some(number));
    Ok((Call::Retire(s, block, kind), wanted))
}

// A new block is exchanged for what a link holds, or nothing is.
fn exchange(
    alloc: Global,
    alone: &mut AloneNests<'_>,
    lists: &mut Lists,
    chance: &mut Chance,
    s: usize,
) -> Result<(Call<Nest>, Answer), Refusal>
    requires { alone.old.links ≡ 3 }
    ensures made { IfOk result (λ made. IsFor nest_owners alone.old.book.store alone.old.links made.0) }
    ensures same { alone.new ≡ alone.old }
{
    let (link, kind) = (chance.link(), chance.kind());
    if chance.below(4) == 0 {
        let wanted = plain(swap(lists, s, link, None, kind), None);
        return Ok((Call::Swap(s, link, None, kind), wanted));
    }
    let (block, number) = block(alloc, alone, lists, chance)?;
    let number = Some(number);
    let wanted = plain(swap(lists, s, link, number, kind), number);
    Ok((Call::Swap(s, link, Some(block), kind), wanted))
}

// A call that brings no block and names no link.
fn other(lists: &mut Lists, chance: &mut Chance, s: usize) -> (Call<Nest>, Answer)
    ensures { (store : List ℕ) (links : ℕ) → IsFor nest_owners store links result.0 }
{
    match chance.below(11) {
        0 if lists.has_number(SLOTS) => (Call::Register, number(lists.register())),
        1 if lists.has_number(SLOTS) => (Call::EnterOwned, number(lists.enter_owned())),
        2 => (Call::End(s), ended(lists.end(s))),
        3 => (Call::Refresh(s), plain(lists.refresh(s), None)),
        4 => (Call::Flush(s), plain(lists.flush(s), None)),
        5..8 => (Call::Enter(s), plain(lists.enter(s), None)),
        _ => (Call::Leave(s), plain(lists.leave(s), None)),
    }
}

// Any call, and what the lists say that it is replied.
fn call(
    alloc: Global,
    alone: &mut AloneNests<'_>,
    lists: &mut Lists,
    chance: &mut Chance,
) -> Result<(Call<Nest>, Answer), Refusal>
    requires { alone.old.links ≡ 3 }
    ensures made { IfOk result (λ made. IsFor nest_owners alone.old.book.store alone.old.links made.0) }
    ensures same { alone.new ≡ alone.old }
{
    let s = chance.slot(lists);
    match chance.below(10) {
        0..3 => retirement(alloc, alone, lists, chance, s),
        3 | 4 => exchange(alloc, alone, lists, chance, s),
        5 => {
            let link = chance.link();
            Ok((Call::Protect(s, link), found(lists.look(s, link))))
        }
        _ => Ok(other(lists, chance, s)),
    }
}

// Whether the answers are the same. Where memory was refused the list ends.
fn same(answers: &[Answer], wanted: &[Answer]) -> Result<bool, Refusal> {
    let refused = answers.iter().chain(wanted.iter()).any(|answer| {
        matches!(
            answer,
            Answer::Refused(Refusal::NoMemory) | Answer::Back(Refusal::NoMemory, _)
        )
    });
    if refused {
        return Err(Refusal::NoMemory);
    }
    Ok(answers == wanted)
}

/// Four calls by one `run`. Whether each is replied as the lists say.
pub(crate) fn run_four(
    alloc: Global,
    alone: &mut AloneNests<'_>,
    lists: &mut Lists,
    chance: &mut Chance,
    heard: &mut Heard,
) -> Result<bool, Refusal>
    requires { alone.old.links ≡ 3 }
    ensures { IsSame alone.old alone.new }
{
    let (first, to_first) = call(alloc, alone, lists, chance)?;
    let (second, to_second) = call(alloc, alone, lists, chance)?;
    let (third, to_third) = call(alloc, alone, lists, chance)?;
    let (fourth, to_fourth) = call(alloc, alone, lists, chance)?;
    let mut calls = VecDeque::from_array(alloc, [first, second, third, fourth]).map_err(
        AllocError::from,
    )?;
    let mut replies = Vec::new(alloc);
    alone.run(&mut calls, &mut replies, heard)?;
    let answers = answers(alloc, replies)?;
    let wanted = [to_first, to_second, to_third, to_fourth];
    same(answers.as_slice(), wanted.as_slice())
}
