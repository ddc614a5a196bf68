//! The machine by its calls: the worked runs event by event, and a long run.

use Answer::{Count, Done, Handed, Illegal};
use Event::{
    AddCount, Begin, Detach, Enter, ExchangeLink, Give, Hand, Insert, Put, ReadHead, ReadLink,
    Return, SubCount, SwapOut, Take,
};
use Job::{Flush, Leave, Refresh, Retire};
use seize_machine::machine::{Answer, Event, Exchange, Job, Machine, Try};
use std::alloc::Global;
use std::process::Abort;
use std::test::Fail;

const ACTIVE: Answer = Answer::Head(true);

const INACTIVE: Answer = Answer::Head(false);

/// A run of the machine, event by event.
#[derive(Drop)]
struct Run<'a, A> {
    rt: &'a A,
    machine: Machine,
}

impl<'a, A: Abort> Run<'a, A> {
    /// A machine of batch size 1 that has done nothing.
    fn new(rt: &'a A, alloc: Global, links: usize) -> Result<Run<'a, A>, Fail> {
        let machine = Machine::new(alloc, 1, links)?;
        let mut run = Run { rt, machine };
        run.refuses()?;
        Ok(run)
    }

    /// A number that was never taken is not given back, and that changes nothing.
    fn refuses(&mut self) -> Result<(), Fail> {
        let quiet = self.machine.quiet();
        let reclaimed = self.machine.reclaimed().len();
        assert_eq!(self.rt; self.machine.step(Give(9))?, Illegal);
        assert_eq!(self.rt; self.machine.quiet(), quiet);
        assert_eq!(self.rt; self.machine.reclaimed().len(), reclaimed);
        Ok(())
    }

    /// Does the event, and wants this answer.
    fn does(&mut self, event: Event, want: Answer) -> Result<(), Fail> {
        assert_eq!(self.rt; self.machine.step(event)?, want);
        self.refuses()
    }
}

/// The slot hands the value over, and its reclaimer puts nothing.
fn hands(alloc: Global, s: usize, value: u64) -> (Event, Answer) {
    (Hand(s, Vec::new(alloc)), Handed(value))
}

/// Slot 1 is active, and slot 0 has retired 7 and detached it, marked for slot 1.
fn detached<A: Abort>(rt: &A, alloc: Global) -> Result<Run<'_, A>, Fail> {
    let mut run = Run::new(rt, alloc, 0)?;
    for (event, want) in [
        (Take(0), Done),
        (Take(1), Done),
        (Enter(1), Done),
        (Begin(0, Retire(7)), Done),
        (Put(0), Done),
        (ReadHead(0, 0), INACTIVE),
        (ReadHead(0, 1), ACTIVE),
        (Detach(0), Done),
    ] {
        run.does(event, want)?;
    }
    Ok(run)
}

/// Slot 0 inserts, and slot 1 leaves before the add.
fn walked<A: Abort>(rt: &A, alloc: Global) -> Result<Run<'_, A>, Fail> {
    let mut run = detached(rt, alloc)?;
    for (event, want) in [
        (ReadHead(0, 1), ACTIVE),
        (Insert(0, 1, Try::Won), Done),
        (Begin(1, Leave), Done),
        (SwapOut(1), Done),
        (SubCount(1), Count(-1)),
        (Return(1), Done),
    ] {
        run.does(event, want)?;
    }
    Ok(run)
}

#[test]
fn walker_first(rt: HostRuntime) -> Result<(), Fail> {
    let alloc = rt.alloc();
    let mut run = walked(&rt, alloc)?;
    for (event, want) in [
        (AddCount(0), Count(0)),
        hands(alloc, 0, 7),
        (Return(0), Done),
    ] {
        run.does(event, want)?;
    }
    assert_eq!(rt; run.machine.reclaimed(), [7].as_slice());
    assert!(rt; run.machine.quiet());
    Ok(())
}

#[test]
fn entered_before_add(rt: HostRuntime) -> Result<(), Fail> {
    let alloc = rt.alloc();
    let mut run = walked(&rt, alloc)?;
    for (event, want) in [
        (Take(2), Done),
        (Enter(2), Done),
        (AddCount(0), Count(0)),
        hands(alloc, 0, 7),
        (Return(0), Done),
    ] {
        run.does(event, want)?;
    }
    assert!(rt; run.machine.active(2));
    assert!(rt; !run.machine.quiet());
    Ok(())
}

/// Slot 1 leaves between its mark and the insertion.
fn left<A: Abort>(rt: &A, alloc: Global) -> Result<Run<'_, A>, Fail> {
    let mut run = detached(rt, alloc)?;
    for (event, want) in [
        (Begin(1, Leave), Done),
        (SwapOut(1), Done),
        (Return(1), Done),
    ] {
        run.does(event, want)?;
    }
    Ok(run)
}

#[test]
fn left_before_insertion(rt: HostRuntime) -> Result<(), Fail> {
    let alloc = rt.alloc();
    let mut run = left(&rt, alloc)?;
    for (event, want) in [
        (ReadHead(0, 1), INACTIVE),
        (AddCount(0), Count(0)),
        hands(alloc, 0, 7),
        (Return(0), Done),
    ] {
        run.does(event, want)?;
    }
    Ok(())
}

#[test]
fn back_before_insertion(rt: HostRuntime) -> Result<(), Fail> {
    let alloc = rt.alloc();
    let mut run = left(&rt, alloc)?;
    for (event, want) in [
        (Enter(1), Done),
        (ReadHead(0, 1), ACTIVE),
        (Insert(0, 1, Try::Won), Done),
        (AddCount(0), Count(1)),
        (Return(0), Done),
        (Begin(1, Leave), Done),
        (SwapOut(1), Done),
        (SubCount(1), Count(0)),
        hands(alloc, 1, 7),
        (Return(1), Done),
    ] {
        run.does(event, want)?;
    }
    Ok(())
}

/// Of three slots, slot `s` retires the value and detaches it, marked for slot 1, which is active.
fn detach_of_three(run: &mut Run<'_, impl Abort>, s: usize, value: u64) -> Result<(), Fail> {
    for (event, want) in [
        (Begin(s, Retire(value)), Done),
        (Put(s), Done),
        (ReadHead(s, 0), INACTIVE),
        (ReadHead(s, 1), ACTIVE),
        (ReadHead(s, 2), INACTIVE),
        (Detach(s), Done),
    ] {
        run.does(event, want)?;
    }
    Ok(())
}

/// Slot 1 leaves with two batches, and hands their values in this order.
fn leave_with_two(
    run: &mut Run<'_, impl Abort>,
    alloc: Global,
    first: u64,
    second: u64,
) -> Result<(), Fail> {
    for (event, want) in [
        (Begin(1, Leave), Done),
        (SwapOut(1), Done),
        (SubCount(1), Count(0)),
        hands(alloc, 1, first),
        (SubCount(1), Count(0)),
        hands(alloc, 1, second),
        (Return(1), Done),
    ] {
        run.does(event, want)?;
    }
    Ok(())
}

/// Slots 0 and 2 have each detached a batch for slot 1.
fn detached_twice<A: Abort>(rt: &A, alloc: Global) -> Result<Run<'_, A>, Fail> {
    let mut run = Run::new(rt, alloc, 0)?;
    for (event, want) in [
        (Take(0), Done),
        (Take(1), Done),
        (Take(2), Done),
        (Enter(1), Done),
    ] {
        run.does(event, want)?;
    }
    detach_of_three(&mut run, 0, 1)?;
    detach_of_three(&mut run, 2, 2)?;
    Ok(run)
}

#[test]
fn two_insertions(rt: HostRuntime) -> Result<(), Fail> {
    let alloc = rt.alloc();
    let mut run = detached_twice(&rt, alloc)?;
    for (event, want) in [
        (ReadHead(0, 1), ACTIVE),
        (ReadHead(2, 1), ACTIVE),
        (Insert(0, 1, Try::Won), Done),
        (Insert(2, 1, Try::Lost), Done),
        (ReadHead(2, 1), ACTIVE),
        (Insert(2, 1, Try::Won), Done),
        (AddCount(0), Count(1)),
        (AddCount(2), Count(1)),
        (Return(0), Done),
        (Return(2), Done),
    ] {
        run.does(event, want)?;
    }
    leave_with_two(&mut run, alloc, 2, 1)
}

#[test]
fn second_finishes_first(rt: HostRuntime) -> Result<(), Fail> {
    let alloc = rt.alloc();
    let mut run = detached_twice(&rt, alloc)?;
    for (event, want) in [
        (ReadHead(2, 1), ACTIVE),
        (Insert(2, 1, Try::Won), Done),
        (AddCount(2), Count(1)),
        (Return(2), Done),
        (ReadHead(0, 1), ACTIVE),
        (Insert(0, 1, Try::Won), Done),
        (AddCount(0), Count(1)),
        (Return(0), Done),
    ] {
        run.does(event, want)?;
    }
    leave_with_two(&mut run, alloc, 1, 2)
}

#[test]
fn left_before_both(rt: HostRuntime) -> Result<(), Fail> {
    let alloc = rt.alloc();
    let mut run = detached_twice(&rt, alloc)?;
    for (event, want) in [
        (Begin(1, Leave), Done),
        (SwapOut(1), Done),
        (Return(1), Done),
        (ReadHead(0, 1), INACTIVE),
        (AddCount(0), Count(0)),
        hands(alloc, 0, 1),
        (Return(0), Done),
        (ReadHead(2, 1), INACTIVE),
        (AddCount(2), Count(0)),
        hands(alloc, 2, 2),
        (Return(2), Done),
    ] {
        run.does(event, want)?;
    }
    Ok(())
}

#[test]
fn retire_first(rt: HostRuntime) -> Result<(), Fail> {
    let alloc = rt.alloc();
    let mut run = detached(&rt, alloc)?;
    for (event, want) in [
        (ReadHead(0, 1), ACTIVE),
        (Insert(0, 1, Try::Won), Done),
        (AddCount(0), Count(1)),
        (Return(0), Done),
        (Begin(1, Leave), Done),
        (SwapOut(1), Done),
        (SubCount(1), Count(0)),
        hands(alloc, 1, 7),
        (Return(1), Done),
    ] {
        run.does(event, want)?;
    }
    Ok(())
}

#[test]
fn left_before_put(rt: HostRuntime) -> Result<(), Fail> {
    let alloc = rt.alloc();
    let mut run = Run::new(&rt, alloc, 0)?;
    for (event, want) in [
        (Take(0), Done),
        (Take(1), Done),
        (Enter(1), Done),
        (Begin(0, Retire(7)), Done),
        (Begin(1, Leave), Done),
        (SwapOut(1), Done),
        (Return(1), Done),
        (Put(0), Done),
        (ReadHead(0, 0), INACTIVE),
        (ReadHead(0, 1), INACTIVE),
        (Detach(0), Done),
        (AddCount(0), Count(0)),
        hands(alloc, 0, 7),
        (Return(0), Done),
    ] {
        run.does(event, want)?;
    }
    Ok(())
}

#[test]
fn left_before_attempt(rt: HostRuntime) -> Result<(), Fail> {
    let alloc = rt.alloc();
    let mut run = detached(&rt, alloc)?;
    for (event, want) in [
        (ReadHead(0, 1), ACTIVE),
        (Begin(1, Leave), Done),
        (SwapOut(1), Done),
        (Return(1), Done),
        (Insert(0, 1, Try::Won), Illegal),
        (Insert(0, 1, Try::Lost), Done),
        (ReadHead(0, 1), INACTIVE),
        (AddCount(0), Count(0)),
        hands(alloc, 0, 7),
        (Return(0), Done),
    ] {
        run.does(event, want)?;
    }
    Ok(())
}

/// A slot swaps a value through a link and retires it with a further value, refreshes and flushes.
#[test]
fn links_and_further_values(rt: HostRuntime) -> Result<(), Fail> {
    let alloc = rt.alloc();
    let puts = Vec::from_array(alloc, [8])?;
    let mut run = Run::new(&rt, alloc, 1)?;
    for (event, want) in [
        (Take(0), Done),
        (Enter(0), Done),
        (
            ExchangeLink(0, 0, Exchange::Swap(Some(5))),
            Answer::Link(None),
        ),
        (ReadLink(0, 0), Answer::Link(Some(5))),
        (
            ExchangeLink(0, 0, Exchange::Compare(None, Some(6))),
            Answer::Link(Some(5)),
        ),
        (
            ExchangeLink(0, 0, Exchange::Compare(Some(5), Some(6))),
            Answer::Link(Some(5)),
        ),
        (Begin(0, Retire(6)), Illegal),
        (Begin(0, Retire(5)), Done),
        (Put(0), Done),
        (ReadHead(0, 0), ACTIVE),
        (Detach(0), Done),
        (ReadHead(0, 0), ACTIVE),
        (Insert(0, 0, Try::Won), Done),
        (AddCount(0), Count(1)),
        (Return(0), Done),
        (Begin(0, Refresh), Done),
        (SwapOut(0), Done),
        (SubCount(0), Count(0)),
        (Hand(0, puts), Handed(5)),
        (Return(0), Illegal),
        (Put(0), Done),
        (ReadHead(0, 0), ACTIVE),
        (Detach(0), Done),
        (ReadHead(0, 0), ACTIVE),
        (Insert(0, 0, Try::Won), Done),
        (AddCount(0), Count(1)),
        (Return(0), Done),
        (Begin(0, Flush), Done),
        (Return(0), Done),
    ] {
        run.does(event, want)?;
    }
    assert!(rt; run.machine.active(0));
    assert_eq!(rt; run.machine.reclaimed(), [5].as_slice());
    Ok(())
}

/// One slot retires so many values with no slot active: each is reclaimed in its own call.
#[test]
fn long_run(rt: HostRuntime) -> Result<(), Fail> {
    let alloc = rt.alloc();
    let mut events = Vec::new(alloc);
    events.push(Take(0))?;
    for value in 0..300u64 {
        events.push(Begin(0, Retire(value)))?;
        events.push(Put(0))?;
        events.push(ReadHead(0, 0))?;
        events.push(Detach(0))?;
        events.push(AddCount(0))?;
        events.push(Hand(0, Vec::new(alloc)))?;
        events.push(Return(0))?;
    }
    let mut machine = Machine::new(alloc, 1, 0)?;
    let mut answers = Vec::new(alloc);
    machine.run(&events, &mut answers)?;
    assert_eq!(rt; answers.len(), 2101);
    assert!(rt; !answers.contains(&Illegal));
    assert_eq!(rt; machine.reclaimed().len(), 300);
    assert_eq!(rt; machine.reclaimed().last().copied(), Some(299));
    assert!(rt; machine.quiet());
    Ok(())
}
