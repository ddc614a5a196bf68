//! A collector of plain lists, written by the rules of docs/MODEL.md, and by no code of the collector's: `random` compares the two. It
//! knows values by their numbers. A value may hold one more inside, which its reclaimer puts.
use seize::Refusal;
use std::alloc::{AllocError, Global};
use std::cmp::max;
use std::mem;

/// A value that is retired.
#[derive(Clone, Copy, Debug, PartialEq, Eq)]
pub(crate) struct Value {
    /// Its number.
    pub(crate) number: u64,
    /// Its kind.
    pub(crate) kind: u64,
}

// By whom a slot is used.
#[derive(Clone, Copy, PartialEq, Eq)]
enum Use {
    Nobody,
    Registered,
    Owned,
}

// A slot that was made.
#[derive(Drop)]
struct Slot {
    by: Use,
    guards: u64,
    // Its values that wait for an attempt, the oldest first.
    batch: Vec<Value>,
    // The retired batches that wait for it, the oldest first.
    waiting: Vec<usize>,
}

/// The collector of plain lists.
#[derive(Drop)]
pub(crate) struct Lists {
    alloc: Global,
    size: usize,
    slots: Vec<Slot>,
    // What slots had in their batches as they ended, in order.
    rest: Vec<Value>,
    retired: Vec<Vec<Value>>,
    links: Vec<Option<u64>>,
    // What each value holds inside, by its number.
    inside: Vec<Option<u64>>,
    // All values that are gone, in order.
    gone: Vec<Value>,
}

impl Lists {
    /// One with this batch size and so many empty links.
    pub(crate) fn new(alloc: Global, size: usize, links: usize) -> Result<Lists, Refusal> {
        let mut lists = Lists {
            alloc,
            size,
            slots: Vec::new(alloc),
            rest: Vec::new(alloc),
            retired: Vec::new(alloc),
            links: Vec::new(alloc),
            inside: Vec::new(alloc),
            gone: Vec::new(alloc),
        };
        for _ in 0..links {
            lists.links.push(None).map_err(AllocError::from)?;
        }
        Ok(lists)
    }

    /// All values that are gone, in order.
    pub(crate) fn gone(&self) -> &[Value] {
        self.gone.as_slice()
    }

    /// How many slots were made.
    pub(crate) fn made(&self) -> usize {
        self.slots.len()
    }

    /// Whether one more number can be taken where this many slots are made at most.
    pub(crate) fn has_number(&self, most: usize) -> bool {
        self.slots.len() < most || self.slots.iter().any(|slot| slot.by == Use::Nobody)
    }

    /// A slot in use, if there is one.
    pub(crate) fn used(&self) -> Option<usize> {
        self.slots.iter().position(|slot| slot.by != Use::Nobody)
    }

    /// A new value with this one inside. It gives its number.
    pub(crate) fn value(&mut self, inside: Option<u64>) -> Result<u64, Refusal> {
        let number = self.inside.len() as u64;
        self.inside.push(inside).map_err(AllocError::from)?;
        Ok(number)
    }

    // By whom the slot is used, and how many guards it has.
    fn known(&self, s: usize) -> Result<(Use, u64), Refusal> {
        match self.slots.get(s) {
            Some(slot) if slot.by != Use::Nobody => Ok((slot.by, slot.guards)),
            _ => Err(Refusal::NotInUse),
        }
    }

    // How many guards the registered slot has.
    fn registered(&self, s: usize) -> Result<u64, Refusal> {
        match self.known(s)? {
            (Use::Registered, guards) => Ok(guards),
            _ => Err(Refusal::WrongKind),
        }
    }

    // The same of a slot of either kind that has a guard.
    fn guarded(&self, s: usize) -> Result<(Use, u64), Refusal> {
        match self.known(s)? {
            (_, 0) => Err(Refusal::NotActive),
            known => Ok(known),
        }
    }

    // The slot is used so, and has so many guards.
    fn set(&mut self, s: usize, by: Use, guards: u64) {
        if let Some(slot) = self.slots.get_mut(s) {
            slot.by = by;
            slot.guards = guards;
        }
    }

    // The least number not in use is used so, and what slots left is its batch, which is attempted where it is full.
    fn take(&mut self, by: Use, guards: u64) -> Result<usize, Refusal> {
        let alloc = self.alloc;
        let free = self.slots.iter().position(|slot| slot.by == Use::Nobody);
        let s = match free {
            Some(s) => s,
            None => {
                let slot = Slot {
                    by,
                    guards: 0,
                    batch: Vec::new(alloc),
                    waiting: Vec::new(alloc),
                };
                self.slots.push(slot).map_err(AllocError::from)?;
                self.slots.len() - 1
            }
        };
        self.set(s, by, 0);
        self.gather(s)?;
        let from = self.gone.len();
        self.attempt_if_full(s)?;
        self.settle(s, from)?;
        self.set(s, by, guards);
        Ok(s)
    }

    // What slots left comes before the batch of the slot, and is in it.
    fn gather(&mut self, s: usize) -> Result<(), Refusal> {
        if let Some(slot) = self.slots.get_mut(s) {
            let batch = mem::replace(
                &mut slot.batch,
                mem::replace(&mut self.rest, Vec::new(self.alloc)),
            );
            slot.batch.extend_from_slice(batch.as_slice())?;
        }
        Ok(())
    }

    // Whether the slot is the last one in use, and something is left, or in its batch.
    fn gathers(&self, s: usize) -> bool {
        let others = self
            .slots
            .iter()
            .enumerate()
            .any(|(n, slot)| n != s && slot.by != Use::Nobody);
        let none = self.slots.get(s).is_none_or(|slot| slot.batch.is_empty());
        !others && !(none && self.rest.is_empty())
    }

    // The number of the slot, which has no guard, goes back. The last one in use attempts what slots left and its batch first, again and
    // again, until nothing is left. Each value is gone once, so it does so no oftener than there are values. What is in its batch is left.
    fn give_back(&mut self, s: usize) -> Result<(), Refusal> {
        for _ in 0..self.inside.len() {
            if !self.gathers(s) {
                break;
            }
            self.gather(s)?;
            let from = self.gone.len();
            self.attempt(s)?;
            self.settle(s, from)?;
        }
        if let Some(slot) = self.slots.get_mut(s) {
            let batch = mem::replace(&mut slot.batch, Vec::new(self.alloc));
            self.rest.extend_from_slice(batch.as_slice())?;
        }
        self.set(s, Use::Nobody, 0);
        Ok(())
    }

    // The retired batch is gone, if it waits for no slot.
    fn release(&mut self, batch: usize) -> Result<(), Refusal> {
        if self.slots.iter().any(|slot| slot.waiting.contains(&batch)) {
            return Ok(());
        }
        if let Some(values) = self.retired.get_mut(batch) {
            let values = mem::replace(values, Vec::new(self.alloc));
            self.gone.extend_from_slice(values.as_slice())?;
        }
        Ok(())
    }

    // No batch waits for the slot any more, the newest first.
    fn part(&mut self, s: usize) -> Result<(), Refusal> {
        let Some(slot) = self.slots.get_mut(s) else {
            return Ok(());
        };
        let waiting = mem::replace(&mut slot.waiting, Vec::new(self.alloc));
        for batch in waiting.iter().rev() {
            self.release(*batch)?;
        }
        Ok(())
    }

    // The batch of the slot is retired, if it has a value, and at least as many as slots are active.
    fn attempt(&mut self, s: usize) -> Result<(), Refusal> {
        let active = self.slots.iter().filter(|slot| slot.guards > 0).count();
        let Some(slot) = self.slots.get_mut(s) else {
            return Ok(());
        };
        if slot.batch.is_empty() || slot.batch.len() < active {
            return Ok(());
        }
        let values = mem::replace(&mut slot.batch, Vec::new(self.alloc));
        let batch = self.retired.len();
        self.retired.push(values).map_err(AllocError::from)?;
        for n in 0..self.slots.len() {
            if self.slots[n].guards > 0 {
                self.slots[n].waiting.push(batch).map_err(AllocError::from)?;
            }
        }
        self.release(batch)
    }

    // The batch of the slot is attempted where it is full.
    fn attempt_if_full(&mut self, s: usize) -> Result<(), Refusal> {
        let size = max(1, self.size);
        match self.slots.get(s) {
            Some(slot) if slot.batch.len() >= size => self.attempt(s),
            _ => Ok(()),
        }
    }

    // The value joins the batch of the slot, which is attempted where it is full.
    fn put(&mut self, s: usize, value: Value) -> Result<(), Refusal> {
        let Some(slot) = self.slots.get_mut(s) else {
            return Ok(());
        };
        slot.batch.push(value).map_err(AllocError::from)?;
        self.attempt_if_full(s)
    }

    // What the value with this place among those that are gone holds, as of its kind. It is none where no value has that place.
    fn further(&self, n: usize) -> Option<Value> {
        let value = self.gone.get(n)?;
        let number = (*self.inside.get(value.number as usize)?)?;
        Some(Value { number, ..*value })
    }

    // What those hold that are gone from this place on is retired by the slot, in order. Each value is gone once.
    fn settle(&mut self, s: usize, from: usize) -> Result<(), Refusal> {
        for n in from..self.inside.len() {
            if let Some(value) = self.further(n) {
                self.put(s, value)?;
            }
        }
        Ok(())
    }

    /// As the collector's.
    pub(crate) fn register(&mut self) -> Result<usize, Refusal> {
        self.take(Use::Registered, 0)
    }

    /// As the collector's.
    pub(crate) fn enter_owned(&mut self) -> Result<usize, Refusal> {
        self.take(Use::Owned, 1)
    }

    /// As the collector's.
    pub(crate) fn enter(&mut self, s: usize) -> Result<(), Refusal> {
        let guards = self.registered(s)?;
        self.set(s, Use::Registered, guards.wrapping_add(1));
        Ok(())
    }

    /// As the collector's.
    pub(crate) fn end(&mut self, s: usize) -> Result<bool, Refusal> {
        if self.registered(s)? > 0 {
            return Ok(false);
        }
        self.give_back(s)?;
        Ok(true)
    }

    /// As the collector's.
    pub(crate) fn leave(&mut self, s: usize) -> Result<(), Refusal> {
        let (by, guards) = self.guarded(s)?;
        self.set(s, by, guards.wrapping_sub(1));
        if guards > 1 {
            return Ok(());
        }
        let from = self.gone.len();
        self.part(s)?;
        self.settle(s, from)?;
        if by == Use::Owned {
            self.give_back(s)?;
        }
        Ok(())
    }

    /// As the collector's.
    pub(crate) fn refresh(&mut self, s: usize) -> Result<(), Refusal> {
        let (_, guards) = self.guarded(s)?;
        if guards > 1 {
            return Ok(());
        }
        let from = self.gone.len();
        self.part(s)?;
        self.settle(s, from)
    }

    /// As the collector's.
    pub(crate) fn flush(&mut self, s: usize) -> Result<(), Refusal> {
        self.guarded(s)?;
        let from = self.gone.len();
        self.attempt(s)?;
        self.settle(s, from)
    }

    /// As the collector's.
    pub(crate) fn retire(&mut self, s: usize, value: Value) -> Result<(), Refusal> {
        self.known(s)?;
        let from = self.gone.len();
        self.put(s, value)?;
        self.settle(s, from)
    }

    /// What the link holds, for a slot with a guard.
    pub(crate) fn look(&self, s: usize, link: usize) -> Result<Option<u64>, Refusal> {
        self.guarded(s)?;
        Ok(self.links.get(link).copied().flatten())
    }

    /// As the collector's. It gives the number of the value that comes out.
    pub(crate) fn swap(
        &mut self,
        s: usize,
        link: usize,
        new: Option<u64>,
    ) -> Result<Option<u64>, Refusal> {
        let old = self.look(s, link)?;
        if let Some(place) = self.links.get_mut(link) {
            *place = new;
        }
        Ok(old)
    }

    /// As the collector's: each slot parts, and its number is free; then each batch is gone, and what slots left; then what the values gone
    /// hold, in turn.
    pub(crate) fn reclaim_all(&mut self) -> Result<(), Refusal> {
        let from = self.gone.len();
        for s in 0..self.slots.len() {
            self.part(s)?;
            self.set(s, Use::Nobody, 0);
        }
        for slot in self.slots.iter_mut() {
            let values = mem::replace(&mut slot.batch, Vec::new(self.alloc));
            self.gone.extend_from_slice(values.as_slice())?;
        }
        let rest = mem::replace(&mut self.rest, Vec::new(self.alloc));
        self.gone.extend_from_slice(rest.as_slice())?;
        self.retired.clear();
        self.drain(from)
    }

    // What those hold that are gone from this place on is gone, in turn.
    fn drain(&mut self, from: usize) -> Result<(), Refusal> {
        for n in from..self.inside.len() {
            if let Some(value) = self.further(n) {
                self.gone.push(value).map_err(AllocError::from)?;
            }
        }
        Ok(())
    }

    /// All is reclaimed, and then the links are empty, and what they held is gone too.
    pub(crate) fn end_all(&mut self) -> Result<(), Refusal> {
        self.reclaim_all()?;
        let from = self.gone.len();
        for n in 0..self.links.len() {
            if let Some(number) = self.links[n].take() {
                self.gone
                    .push(Value { number, kind: 0 })
                    .map_err(AllocError::from)?;
            }
        }
        self.drain(from)
    }
}
