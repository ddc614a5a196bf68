//! Calls of one caller that are made again where memory was refused: the second time each serves as if there had been no first one.
//! `tools/lacking seize_alone_rows` refuses one request after another.
ghost use Rattle.std.specs.Prelude.{◌≡◌, IfOk};
ghost use Rattle.seize.specs.Alones.{IsSame};

use seize::{Alone, Call, IdSource, Owned, Refusal, Reply};
use std::alloc::{AllocError, Global};
use std::collections::VecDeque;
use std::process::Abort;
use std::test::*;

// A collector with one link, in one caller's hands.
fn alone(rt: &impl Abort, alloc: Global, ids: &mut IdSource) -> Result<Alone<u64>, Refusal>
    ensures { IfOk result (λ made. made.links ≡ 1) }
{
    match Alone::new(alloc, ids, 1, 1) {
        Ok(alone) => Ok(alone),
        Err(refusal) => {
            assert_eq!(rt; refusal, Refusal::NoMemory);
            Alone::new(alloc, ids, 1, 1)
        }
    }
}

// A slot's number.
fn register(rt: &impl Abort, alone: &mut Alone<u64>) -> Result<usize, Refusal>
    ensures { alone.new.links ≡ alone.old.links }
{
    match alone.register(&mut ()) {
        Ok(number) => Ok(number),
        Err(refusal) => {
            assert_eq!(rt; refusal, Refusal::NoMemory);
            alone.register(&mut ())
        }
    }
}

// That of an owned slot.
fn enter_owned(rt: &impl Abort, alone: &mut Alone<u64>) -> Result<usize, Refusal>
    ensures { alone.new.links ≡ alone.old.links }
{
    match alone.enter_owned(&mut ()) {
        Ok(number) => Ok(number),
        Err(refusal) => {
            assert_eq!(rt; refusal, Refusal::NoMemory);
            alone.enter_owned(&mut ())
        }
    }
}

// A block of this value, which comes back from a refusal.
fn owned(rt: &impl Abort, alone: &mut Alone<u64>, value: u64) -> Result<Owned<u64>, Refusal>
    ensures { alone.new.links ≡ alone.old.links }
{
    let back = match alone.owned(value) {
        Ok(block) => return Ok(block),
        Err((refusal, back)) => {
            assert_eq!(rt; refusal, Refusal::NoMemory);
            back
        }
    };
    alone.owned(back).map_err(|(refusal, _)| refusal)
}

// A list of calls: a slot is taken, and slot 0 enters, reads the link and leaves.
fn run_once(alloc: Global, alone: &mut Alone<u64>) -> Result<Vec<Reply<u64>>, Refusal>
    requires { alone.old.links ≡ 1 }
    ensures { IsSame alone.old alone.new }
{
    let mut calls = VecDeque::from_array(
        alloc,
        [
            Call::Register,
            Call::Enter(0),
            Call::Protect(0, 0),
            Call::Leave(0),
        ],
    )
    .map_err(AllocError::from)?;
    let mut replies = Vec::new(alloc);
    alone.run(&mut calls, &mut replies, &mut ())?;
    Ok(replies)
}

// What is replied to the list. One that is refused was not begun, so it is made again.
fn run(rt: &impl Abort, alloc: Global, alone: &mut Alone<u64>) -> Result<Vec<Reply<u64>>, Refusal>
    requires { alone.old.links ≡ 1 }
{
    match run_once(alloc, alone) {
        Ok(replies) => Ok(replies),
        Err(refusal) => {
            assert_eq!(rt; refusal, Refusal::NoMemory);
            run_once(alloc, alone)
        }
    }
}

// The number of the slot that the list took. Where its call was refused, it is made again.
fn taken(
    rt: &impl Abort,
    alone: &mut Alone<u64>,
    replies: &[Reply<u64>],
) -> Result<usize, Refusal> {
    assert_eq!(rt; replies.len(), 4);
    match replies.first() {
        Some(Reply::Slot(number)) => Ok(*number),
        Some(Reply::Refused(refusal, None)) => {
            assert_eq!(rt; *refusal, Refusal::NoMemory);
            alone.register(&mut ())
        }
        _ => Err(Refusal::NotInUse),
    }
}

// It is shared, and taken over again.
fn share(rt: &impl Abort, alone: Alone<u64>) -> Result<Alone<u64>, Fail> {
    let collector = match alone.share().alone() {
        Ok(alone) => return Ok(alone),
        Err(collector) => collector,
    };
    assert_eq!(rt; collector.id(), 0);
    match collector.alone() {
        Ok(alone) => Ok(alone),
        Err(_) => Err(Fail::new("the collector came back again")),
    }
}

// The numbers and the id are those of calls that nothing refused.
#[test]
fn refused_calls_serve_when_made_again(rt: HostRuntime) -> Result<(), Fail> {
    let mut alone = alone(&rt, rt.alloc(), &mut IdSource::new())?;
    assert_eq!(rt; alone.id(), 0);
    assert_eq!(rt; register(&rt, &mut alone)?, 0);
    assert_eq!(rt; enter_owned(&rt, &mut alone)?, 1);
    assert_eq!(rt; *owned(&rt, &mut alone, 7)?, 7);
    let replies = run(&rt, rt.alloc(), &mut alone)?;
    assert_eq!(rt; taken(&rt, &mut alone, replies.as_slice())?, 2);
    let mut alone = share(&rt, alone)?;
    alone.leave(1, &mut ())?;
    assert!(rt; alone.end(2, &mut ())?);
    assert_eq!(rt; register(&rt, &mut alone)?, 1);
    Ok(())
}
