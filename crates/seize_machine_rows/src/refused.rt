//! The machine where memory is refused. `tools/lacking` refuses each request in turn: a refused call changes nothing, and made again it
//! answers as if nothing had been refused.

use Answer::{Count, Done, Handed, Link};
use Event::{
    AddCount, Begin, Detach, Enter, ExchangeLink, Hand, Insert, Put, ReadHead, Return, SubCount,
    SwapOut, Take,
};
use seize_machine::machine::{Answer, Event, Exchange, Job, Machine, Try};
use seize_table::Refusal;
use std::alloc::Global;
use std::process::Abort;
use std::test::Fail;

// How many events the run below has.
const EVENTS: usize = 17;

// An event of a run of one slot and one link, by its place in the run, with its answer. The slot retires what the link held, and leaves.
fn event(alloc: Global, place: usize) -> (Event, Answer) {
    match place {
        0 => (Take(0), Done),
        1 => (Enter(0), Done),
        2 => (ExchangeLink(0, 0, Exchange::Swap(Some(5))), Link(None)),
        3 => (ExchangeLink(0, 0, Exchange::Swap(None)), Link(Some(5))),
        4 => (Begin(0, Job::Retire(5)), Done),
        5 => (Put(0), Done),
        6 | 8 => (ReadHead(0, 0), Answer::Head(true)),
        7 => (Detach(0), Done),
        9 => (Insert(0, 0, Try::Won), Done),
        10 => (AddCount(0), Count(1)),
        12 => (Begin(0, Job::Leave), Done),
        13 => (SwapOut(0), Done),
        14 => (SubCount(0), Count(0)),
        15 => (Hand(0, Vec::new(alloc)), Handed(5)),
        _ => (Return(0), Done),
    }
}

// A machine of batch size 1 with one link, made again where it was refused.
fn machine(rt: &impl Abort, alloc: Global) -> Result<Machine, Refusal> {
    match Machine::new(alloc, 1, 1) {
        Ok(machine) => Ok(machine),
        Err(refusal) => {
            assert_eq!(rt; refusal, Refusal::NoMemory);
            Machine::new(alloc, 1, 1)
        }
    }
}

#[test]
fn refused_events_are_done_when_made_again(rt: HostRuntime) -> Result<(), Fail> {
    let mut machine = machine(&rt, rt.alloc())?;
    for place in 0..EVENTS {
        let (event_made, want) = event(rt.alloc(), place);
        let (quiet, active) = (machine.quiet(), machine.active(0));
        let answer = match machine.step(event_made) {
            Ok(answer) => answer,
            Err(refusal) => {
                assert_eq!(rt; refusal, Refusal::NoMemory);
                assert_eq!(rt; (machine.quiet(), machine.active(0)), (quiet, active));
                machine.step(event(rt.alloc(), place).0)?
            }
        };
        assert_eq!(rt; answer, want);
    }
    assert_eq!(rt; machine.reclaimed(), [5].as_slice());
    assert!(rt; machine.quiet());
    Ok(())
}

// All events of the run. Room for them is asked for again where it was refused.
fn events(alloc: Global) -> Result<Vec<Event>, Fail> {
    let mut events = Vec::new(alloc);
    if events.reserve(EVENTS).is_err() {
        events.reserve(EVENTS)?;
    }
    for place in 0..EVENTS {
        events.push(event(alloc, place).0)?;
    }
    Ok(events)
}

#[test]
fn a_refused_run_goes_on_after_what_was_answered(rt: HostRuntime) -> Result<(), Fail> {
    let mut machine = machine(&rt, rt.alloc())?;
    let events = events(rt.alloc())?;
    let mut answers = Vec::new(rt.alloc());
    if let Err(refusal) = machine.run(&events, &mut answers) {
        assert_eq!(rt; refusal, Refusal::NoMemory);
        assert!(rt; answers.len() < EVENTS);
        let rest = events.get(answers.len()..).expect(&rt, "the rest");
        machine.run(rest, &mut answers)?;
    }
    assert_eq!(rt; answers.len(), EVENTS);
    for (place, answer) in answers.iter().enumerate() {
        assert_eq!(rt; *answer, event(rt.alloc(), place).1);
    }
    assert_eq!(rt; machine.reclaimed(), [5].as_slice());
    Ok(())
}
