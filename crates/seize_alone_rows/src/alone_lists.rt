//! Lists of calls of a collector in one caller's hands: what each call of a list is replied, and which values are gone.
ghost use Rattle.std.specs.Prelude.{◌≡◌};
ghost use Rattle.seize.specs.Alones.{IsSame};

use crate::nests::{AloneNests, Ends, Heard, alone_nests, leaf};
use seize::{Call, Refusal, Reply};
use seize_uses::nest::Nest;
use std::alloc::{AllocError, Global};
use std::collections::VecDeque;
use std::test::*;

/// A reply, with a number in the place of the block.
#[derive(Clone, Copy, Debug, PartialEq, Eq)]
pub(crate) enum Answer {
    Done,
    Slot(usize),
    Kept,
    Found(bool),
    Refused(Refusal),
    Back(Refusal, u64),
}

/// What the replies say, in order.
pub(crate) fn answers(alloc: Global, replies: Vec<Reply<Nest>>) -> Result<Vec<Answer>, AllocError> {
    let mut all = Vec::new(alloc);
    for reply in replies {
        all.push(match reply {
            Reply::Done => Answer::Done,
            Reply::Slot(number) => Answer::Slot(number),
            Reply::Kept => Answer::Kept,
            Reply::Found(found) => Answer::Found(found),
            Reply::Refused(refusal, None) => Answer::Refused(refusal),
            Reply::Refused(refusal, Some(back)) => Answer::Back(refusal, back.number),
        })?;
    }
    Ok(all)
}

// Slot 0 enters, swaps 1 and then 2 into the link, retires 3 and leaves. Slot 1 is owned, and refreshes. The number of slot 0 is free then,
// so 4 comes back.
fn run_two_slots(
    alloc: Global,
    alone: &mut AloneNests<'_>,
    heard: &mut Heard,
) -> Result<Vec<Answer>, Refusal>
    requires { alone.old.links ≡ 1 }
    ensures { IsSame alone.old alone.new }
{
    let first = leaf(alloc, alone, 1)?;
    let second = leaf(alloc, alone, 2)?;
    let third = leaf(alloc, alone, 3)?;
    let fourth = leaf(alloc, alone, 4)?;
    let mut calls = VecDeque::from_array(
        alloc,
        [
            Call::Register,
            Call::Enter(0),
            Call::Protect(0, 0),
            Call::Swap(0, 0, Some(first), 0),
            Call::Protect(0, 0),
            Call::EnterOwned,
            Call::Swap(0, 0, Some(second), 0),
            Call::Retire(0, third, 0),
            Call::Enter(1),
            Call::End(0),
            Call::Flush(0),
            Call::Leave(0),
            Call::End(0),
            Call::Refresh(1),
            Call::Retire(0, fourth, 0),
            Call::Leave(0),
        ],
    )
    .map_err(AllocError::from)?;
    let mut replies = Vec::new(alloc);
    alone.run(&mut calls, &mut replies, heard)?;
    Ok(answers(alloc, replies)?)
}

// At size 2 the batch with 1 and 3 waits for both slots, and is gone as the second one refreshes. 2 is left in the link.
#[test]
fn a_list_is_replied_to_call_by_call(rt: HostRuntime) -> Result<(), Fail> {
    let ends = Ends::with_room(rt.alloc(), 3)?;
    let mut heard = Heard::with_room(rt.alloc(), 3)?;
    let mut alone = alone_nests(rt.alloc(), 2, 1, &ends)?;
    let answers = run_two_slots(rt.alloc(), &mut alone, &mut heard)?;
    let wanted = [
        Answer::Slot(0),
        Answer::Done,
        Answer::Found(false),
        Answer::Done,
        Answer::Found(true),
        Answer::Slot(1),
        Answer::Done,
        Answer::Done,
        Answer::Refused(Refusal::WrongKind),
        Answer::Kept,
        Answer::Done,
        Answer::Done,
        Answer::Done,
        Answer::Done,
        Answer::Back(Refusal::NotInUse, 4),
        Answer::Refused(Refusal::NotInUse),
    ];
    assert_eq!(rt; answers.as_slice(), wanted.as_slice());
    assert_eq!(rt; heard.numbers.as_slice(), [1, 3].as_slice());
    drop(alone);
    assert!(rt; ends.are(&[1, 3, 2]));
    Ok(())
}
