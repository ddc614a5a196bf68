//! The events of the machine and their answers, as the code writes them.

use std::alloc::Global;

/// What a call of a slot does.
#[derive(Clone, Copy, PartialEq, Eq, Debug)]
pub enum Job {
    /// Retires the value.
    Retire(u64),
    /// Attempts the slot's batch at any length.
    Flush,
    /// Makes the slot inactive.
    Leave,
    /// Leaves and enters in one step.
    Refresh,
    /// Attempts the rest and the slot's batch, as no other slot is in use.
    Gather,
}

/// How an insertion ended.
#[derive(Clone, Copy, PartialEq, Eq, Debug)]
pub enum Try {
    /// The batch stands in front of the slot's list.
    Won,
    /// The head was no longer what had been read.
    Lost,
}

/// An exchange of a link.
#[derive(Clone, Copy, PartialEq, Eq, Debug)]
pub enum Exchange {
    /// The link holds the new value, whatever it held.
    Swap(Option<u64>),
    /// The link holds the second value if it held the first.
    Compare(Option<u64>, Option<u64>),
}

/// The answer to an event.
#[derive(Clone, Copy, PartialEq, Eq, Debug)]
pub enum Answer {
    /// The event was done.
    Done,
    /// Whether the head that was read is active.
    Head(bool),
    /// The batch's count after the event.
    Count(i128),
    /// The value that went to its reclaimer.
    Handed(u64),
    /// The value that the link held before the event.
    Link(Option<u64>),
    /// The event is illegal: nothing has changed.
    Illegal,
}

/// An event. The first number is the slot that makes it.
#[derive(Drop, Debug)]
pub enum Event {
    /// The number is taken: it is the least one that is not in use.
    Take(usize),
    /// The number is given back.
    Give(usize),
    /// The slot becomes active.
    Enter(usize),
    /// A call begins.
    Begin(usize, Job),
    /// The value in turn is retired: it joins the slot's batch.
    Put(usize),
    /// The head of the second slot is read.
    ReadHead(usize, usize),
    /// The batch is taken from the slot.
    Detach(usize),
    /// The detached batch is inserted into the list of the second slot.
    Insert(usize, usize, Try),
    /// The insertions won are added to the batch's count.
    AddCount(usize),
    /// The slot's list is swapped out.
    SwapOut(usize),
    /// One batch of the list that came out is counted down.
    SubCount(usize),
    /// A given-up value goes to its reclaimer, which puts further values.
    Hand(usize, Vec<u64>),
    /// The call is over.
    Return(usize),
    /// The second number's link is read.
    ReadLink(usize, usize),
    /// The second number's link is exchanged.
    ExchangeLink(usize, usize, Exchange),
}
