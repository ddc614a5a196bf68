//! The state of the machine, and each event as a method.
ghost use Rattle.std.specs.Prelude.{◌≡◌, ◌<◌, ◌≤◌, ◌==◌, ◌&&◌, ◌∷◌, ◌++◌, [], not, is_some, IfOk, OnOk, OnErr, IsTrue, if◌then◌else◌, length};
ghost use Rattle.std.specs.List.{filter, list_all};
ghost use Rattle.seize_machine.specs.Machine.State as state;
ghost use Rattle.seize_machine.specs.Machine.Event as event;
ghost use Rattle.seize_machine.specs.Machine.Next.{scheme, next, has_others, is_empty, first_free, is_outside, retiring, with_named, is_none_or_fresh, swapped};
ghost use Rattle.seize_machine.specs.Machine.Laws.{is_quiet};
ghost use Rattle.seize_machine.specs.Machine.Code.{HasOutcome, CountsFit, head_view, event_of};

use super::batch::Batch;
use super::event::{Answer, Event, Exchange, Job, Try};
use super::head::Head;
use super::slot::{Place, Slot};
use seize_table::thread_id::MAX_INDEX;
use std::alloc::{AllocError, Global};
use std::collections::VecDeque;
use std::marker::Model;
use std::mem;

/// How many slot numbers there are.
const NUMBERS: usize = MAX_INDEX + 1;

#[derive(Drop)]
pub(super) struct Configuration {
    alloc: Global,
    slots: Vec<Slot>,
    heads: Vec<Head>,
    batches: Vec<Batch>,
    links: Vec<Option<u64>>,
    rest: VecDeque<u64>,
    loose: Vec<u64>,
    gone: Vec<u64>,
    named: Vec<u64>,
}

impl Model for Configuration {
    ghost Value = { state.State };

    ghost view = { λ c. record {
      slots = c.slots.items;
      heads = c.heads.items;
      batches = c.batches.items;
      links = c.links.items;
      rest = c.rest.items;
      loose = c.loose.items;
      gone = c.gone.items;
      named = c.named.items;
    } };

    ghost invariant = { λ c. length c.heads.items ≡ length c.slots.items };
}

/// The least number that is not in use.
fn first_free(slots: &[Slot]) -> usize
    ensures least { result ≡ first_free slots.now }
    ensures in_range { result ≤ length slots.now }
{
    for (n, slot) in slots.iter().enumerate() {
        if !slot.is_used() {
            return n;
        }
    }
    slots.len()
}

/// Takes a value out of a list, wherever it stands.
fn remove(values: &mut Vec<u64>, value: u64)
    ensures { values.new.items ≡ filter (λ x. not (x == value)) values.old.items }
{
    values.retain(|x| *x != value);
}

/// Whether none of these values was ever named.
fn are_new(named: &[u64], values: &[u64]) -> bool
    ensures { result ≡ list_all (λ v. not (state.has v named.now)) values.now }
{
    values.iter().all(|value| !named.contains(value))
}

/// Whether no slot has a call under way.
fn are_idle(slots: &[Slot]) -> bool
    ensures { result ≡ list_all (λ slot. not (is_some slot.call)) slots.now }
{
    slots.iter().all(|slot| !slot.has_call())
}

/// Whether no head is active.
fn are_inactive(heads: &[Head]) -> bool
    ensures { result ≡ list_all (λ head. not (state.is_active head)) heads.now }
{
    heads.iter().all(|head| !head.is_active())
}

/// Whether no value stands in the list twice.
fn are_distinct(values: &[u64]) -> bool
    ensures { result ≡ state.are_distinct values.now }
{
    for (i, value) in values.iter().enumerate() {
        if values[i + 1..].contains(value) {
            return false;
        }
    }
    true
}

impl Configuration {
    /// The opening state with no slot made and these links.
    pub(super) fn new(alloc: Global, links: Vec<Option<u64>>) -> Configuration
        requires { state.linked_values links.items ≡ [] }
        ensures { result ≡ state.opening 0 links.items }
    {
        Configuration {
            alloc,
            slots: Vec::new(alloc),
            heads: Vec::new(alloc),
            batches: Vec::new(alloc),
            links,
            rest: VecDeque::new(alloc),
            loose: Vec::new(alloc),
            gone: Vec::new(alloc),
            named: Vec::new(alloc),
        }
    }

    /// The values reclaimed, in order.
    pub(super) fn reclaimed(&self) -> &[u64]
        ensures { result.now ≡ self.now.gone }
    {
        &self.gone
    }

    /// Whether no call is under way and no slot is active.
    pub(super) fn quiet(&self) -> bool
        ensures { result ≡ is_quiet self.now }
    {
        are_idle(&self.slots) && are_inactive(&self.heads)
    }

    /// Whether the slot is active.
    pub(super) fn active(&self, s: usize) -> bool
        ensures { result ≡ state.is_active (state.head_at self.now s) }
    {
        match self.heads.get(s) {
            None => false,
            Some(head) => head.is_active(),
        }
    }

    /// Whether the slot is in use, with no call under way and not active.
    fn is_outside(&self, s: usize) -> bool
        ensures outside { result ≡ is_outside self.now s }
        ensures in_range { IsTrue result → s < length self.now.slots }
    {
        s < self.slots.len() && self.slots[s].is_idle() && !self.heads[s].is_active()
    }

    /// The number is taken.
    fn take(&mut self, size: usize, s: usize) -> Result<Answer, AllocError>
        ensures step { IfOk result (λ answer. HasOutcome (next size self.old (event.Take s)) self.old self.new answer) }
        ensures err { OnErr result (self.new ≡ self.old) }
    {
        if s != first_free(&self.slots) || s >= NUMBERS {
            return Ok(Answer::Illegal);
        }
        let made = self.slots.len();
        if s != made {
            let rest = self.take_rest();
            self.slots[s] = Slot::taking(self.alloc, size, made, rest);
            return Ok(Answer::Done);
        }
        self.slots.reserve(1)?;
        self.heads.reserve(1)?;
        let rest = mem::replace(&mut self.rest, VecDeque::new(self.alloc));
        self.slots
            .push_reserved(Slot::taking(self.alloc, size, made + 1, rest));
        self.heads.push_reserved(Head::inactive());
        Ok(Answer::Done)
    }

    /// The rest, which is empty then.
    fn take_rest(&mut self) -> VecDeque<u64>
        ensures { (result.items ≡ self.old.rest) × (self.new ≡ record self.old { rest = [] }) }
    {
        mem::replace(&mut self.rest, VecDeque::new(self.alloc))
    }

    /// Whether another slot than this one is in use.
    fn has_others(&self, s: usize) -> bool
        requires { s < length self.now.slots }
        ensures { result ≡ has_others self.now s }
    {
        for (n, slot) in self.slots.iter().enumerate() {
            if n != s && slot.is_used() {
                return true;
            }
        }
        false
    }

    /// Whether the slot has no batch and the rest is empty.
    fn has_nothing(&self, s: usize) -> bool
        requires { s < length self.now.slots }
        ensures { result ≡ (is_empty (state.slot_at self.now s).batch && is_empty self.now.rest) }
    {
        !self.slots[s].has_batch() && self.rest.is_empty()
    }

    /// The number is given back.
    fn give(&mut self, s: usize) -> Result<Answer, AllocError>
        ensures step { IfOk result (λ answer. HasOutcome (next 0 self.old (event.Give s)) self.old self.new answer) }
        ensures err { OnErr result (self.new ≡ self.old) }
    {
        if !self.is_outside(s) || !(self.has_others(s) || self.has_nothing(s)) {
            return Ok(Answer::Illegal);
        }
        self.slots[s].free(&mut self.rest)?;
        Ok(Answer::Done)
    }

    fn begin_gather(&mut self, s: usize) -> Result<Answer, AllocError>
        requires { IsTrue (state.is_idle (state.slot_at self.old s)) }
        ensures step { IfOk result (λ answer. HasOutcome (next 0 self.old (event.Begin s Job.Gather)) self.old self.new answer) }
        ensures err { OnErr result (self.new ≡ self.old) }
    {
        if !self.is_outside(s) || self.has_others(s) || self.has_nothing(s) {
            return Ok(Answer::Illegal);
        }
        let made = self.slots.len();
        self.slots[s].gather(self.alloc, made, &mut self.rest)?;
        Ok(Answer::Done)
    }

    /// The slot becomes active.
    fn enter(&mut self, s: usize) -> Answer
        ensures { HasOutcome (next 0 self.old (event.Enter s)) self.old self.new result }
    {
        if !self.is_outside(s) {
            return Answer::Illegal;
        }
        self.heads[s] = Head::empty(self.alloc);
        Answer::Done
    }

    /// The value in turn is retired.
    fn put(&mut self, size: usize, s: usize) -> Result<Answer, AllocError>
        ensures step { IfOk result (λ answer. HasOutcome (next size self.old (event.Put s)) self.old self.new answer) }
        ensures err { OnErr result (self.new ≡ self.old) }
    {
        let count = self.slots.len();
        if s >= count || !self.slots[s].put(self.alloc, size, count)? {
            return Ok(Answer::Illegal);
        }
        Ok(Answer::Done)
    }

    /// A call begins.
    fn begin(&mut self, s: usize, job: Job) -> Result<Answer, AllocError>
        ensures step { IfOk result (λ answer. HasOutcome (next 0 self.old (event.Begin s job)) self.old self.new answer) }
        ensures err { OnErr result (self.new ≡ self.old) }
    {
        if s >= self.slots.len() {
            return Ok(Answer::Illegal);
        }
        if !self.slots[s].is_idle() {
            return Ok(Answer::Illegal);
        }
        match job {
            Job::Retire(value) => self.begin_retire(s, value),
            Job::Flush => Ok(self.begin_flush(s)),
            Job::Leave => Ok(self.begin_out(s, false)),
            Job::Refresh => Ok(self.begin_out(s, true)),
            Job::Gather => self.begin_gather(s),
        }
    }

    fn begin_retire(&mut self, s: usize, value: u64) -> Result<Answer, AllocError>
        requires { IsTrue (state.is_idle (state.slot_at self.old s)) }
        ensures step { IfOk result (λ answer. HasOutcome (next 0 self.old (event.Begin s (Job.Retire value))) self.old self.new answer) }
        ensures err { OnErr result (self.new ≡ self.old) }
    {
        if self.named.contains(&value) && !self.loose.contains(&value) {
            return Ok(Answer::Illegal);
        }
        self.leave_link(value)?;
        self.slots[s].begin(self.alloc, Place::Append(value));
        Ok(Answer::Done)
    }

    /// The value is about to be retired: it is named, and no longer between a link and its retirement.
    fn leave_link(&mut self, value: u64) -> Result<(), AllocError>
        ensures ok { OnOk result (self.new ≡ retiring self.old value) }
        ensures err { OnErr result (self.new ≡ self.old) }
    {
        self.name(value)?;
        remove(&mut self.loose, value);
        Ok(())
    }

    /// The value is one that was named.
    fn name(&mut self, value: u64) -> Result<(), AllocError>
        ensures ok { OnOk result (self.new ≡ record self.old { named = with_named self.old.named value }) }
        ensures err { OnErr result (self.new ≡ self.old) }
    {
        if !self.named.contains(&value) {
            self.named.push(value)?;
        }
        Ok(())
    }

    fn begin_flush(&mut self, s: usize) -> Answer
        requires { IsTrue (state.is_idle (state.slot_at self.old s)) }
        ensures { HasOutcome (next 0 self.old (event.Begin s Job.Flush)) self.old self.new result }
    {
        if !self.active(s) {
            return Answer::Illegal;
        }
        let place = if self.slots[s].has_batch() {
            Place::marking(self.alloc, self.slots.len())
        } else {
            Place::resting(self.alloc)
        };
        self.slots[s].begin(self.alloc, place);
        Answer::Done
    }

    fn begin_out(&mut self, s: usize, stays: bool) -> Answer
        requires { IsTrue (state.is_idle (state.slot_at self.old s)) }
        ensures { HasOutcome (next 0 self.old (event.Begin s (if stays then Job.Refresh else Job.Leave))) self.old self.new result }
    {
        if !self.active(s) {
            return Answer::Illegal;
        }
        self.slots[s].begin(self.alloc, Place::Out { stays });
        Answer::Done
    }

    /// The head of slot `n` is read.
    fn read_head(&mut self, s: usize, n: usize) -> Result<Answer, AllocError>
        ensures step { IfOk result (λ answer. HasOutcome (next 0 self.old (event.ReadHead s n)) self.old self.new answer) }
        ensures err { OnErr result (self.new ≡ self.old) }
    {
        let count = self.slots.len();
        if s >= count {
            return Ok(Answer::Illegal);
        }
        let active = self.active(n);
        if self.slots[s].looking() == Some(n) {
            let saw = self.saw(n)?;
            self.slots[s].look(self.alloc, saw);
            return Ok(Answer::Head(active));
        }
        if !self.slots[s].mark(self.alloc, n, active, count)? {
            return Ok(Answer::Illegal);
        }
        Ok(Answer::Head(active))
    }

    /// A copy of the list at the head of slot `n`, or none where it is inactive.
    fn saw(&self, n: usize) -> Result<Option<VecDeque<usize>>, AllocError>
        ensures { IfOk result (λ saw. head_view saw ≡ state.head_at self.now n) }
    {
        match self.heads.get(n) {
            None => Ok(None),
            Some(head) => head.read(),
        }
    }

    /// The batch is taken from the slot.
    fn detach(&mut self, s: usize) -> Result<Answer, AllocError>
        ensures step { IfOk result (λ answer. HasOutcome (next 0 self.old (event.Detach s)) self.old self.new answer) }
        ensures err { OnErr result (self.new ≡ self.old) }
    {
        if s >= self.slots.len() || !self.slots[s].can_detach() {
            return Ok(Answer::Illegal);
        }
        self.batches.reserve(1)?;
        let number = self.batches.len();
        let values = self.slots[s].detach(self.alloc, number);
        self.batches.push_reserved(Batch::new(values));
        Ok(Answer::Done)
    }

    /// The insertion is won.
    fn insert_won(&mut self, s: usize, m: usize) -> Result<Answer, AllocError>
        requires { CountsFit self.old }
        ensures step { IfOk result (λ answer. HasOutcome (next 0 self.old (event.Insert s m Try.Won)) self.old self.new answer) }
        ensures err { OnErr result (self.new ≡ self.old) }
    {
        if s >= self.slots.len() {
            return Ok(Answer::Illegal);
        }
        if m >= self.heads.len() {
            return Ok(Answer::Illegal);
        }
        let Some((batch, slot)) = self.slots[s].trying() else {
            return Ok(Answer::Illegal);
        };
        if m != slot {
            return Ok(Answer::Illegal);
        }
        if !self.heads[m].insert(batch)? {
            return Ok(Answer::Illegal);
        }
        self.slots[s].won();
        Ok(Answer::Done)
    }

    /// The insertion is lost.
    fn insert_lost(&mut self, s: usize, m: usize) -> Answer
        ensures { HasOutcome (next 0 self.old (event.Insert s m Try.Lost)) self.old self.new result }
    {
        if s >= self.slots.len() {
            return Answer::Illegal;
        }
        let inactive = Head::inactive();
        let head = match self.heads.get(m) {
            None => &inactive,
            Some(head) => head,
        };
        if !self.slots[s].can_lose(m, head) {
            return Answer::Illegal;
        }
        self.slots[s].lost(m, head);
        Answer::Done
    }

    /// The slot's list is swapped out.
    fn swap_out(&mut self, s: usize) -> Answer
        ensures { HasOutcome (next 0 self.old (event.SwapOut s)) self.old self.new result }
    {
        if s >= self.slots.len() {
            return Answer::Illegal;
        }
        let Some(stays) = self.slots[s].leaving() else {
            return Answer::Illegal;
        };
        let head = if stays {
            Head::empty(self.alloc)
        } else {
            Head::inactive()
        };
        let walk = self.heads[s].swap(self.alloc, head);
        self.slots[s].rest(VecDeque::new(self.alloc), walk);
        Answer::Done
    }

    /// The insertions won are added to the batch's count.
    fn add_count(&mut self, s: usize) -> Answer
        requires { CountsFit self.old }
        ensures { HasOutcome (next 0 self.old (event.AddCount s)) self.old self.new result }
    {
        if s >= self.slots.len() {
            return Answer::Illegal;
        }
        let Some((b, won)) = self.slots[s].adding() else {
            return Answer::Illegal;
        };
        let count = self.batches[b].raised(won);
        let given = self.batches[b].settle(self.alloc, count);
        self.slots[s].rest(given, VecDeque::new(self.alloc));
        Answer::Count(count)
    }

    /// One batch of the walk is counted down.
    fn sub_count(&mut self, s: usize) -> Answer
        requires { CountsFit self.old }
        ensures { HasOutcome (next 0 self.old (event.SubCount s)) self.old self.new result }
    {
        if s >= self.slots.len() {
            return Answer::Illegal;
        }
        let Some(b) = self.slots[s].walking() else {
            return Answer::Illegal;
        };
        let count = self.batches[b].lowered();
        let given = self.batches[b].settle(self.alloc, count);
        self.slots[s].walked(given);
        Answer::Count(count)
    }

    /// The first given-up value goes to its reclaimer, which puts these values.
    fn hand(&mut self, s: usize, puts: &[u64]) -> Result<Answer, AllocError>
        ensures step { IfOk result (λ answer. HasOutcome (next 0 self.old (event.Hand s puts.now)) self.old self.new answer) }
        ensures err { OnErr result (self.new ≡ self.old) }
    {
        if s >= self.slots.len() {
            return Ok(Answer::Illegal);
        }
        let Some(value) = self.slots[s].handing() else {
            return Ok(Answer::Illegal);
        };
        if !are_new(&self.named, puts) || !are_distinct(puts) {
            return Ok(Answer::Illegal);
        }
        let further = VecDeque::from_vec(puts.to_vec(self.alloc)?);
        self.gone.reserve(1)?;
        self.named.reserve(puts.len())?;
        self.slots[s].hand(further)?;
        self.gone.push_reserved(value);
        self.named.extend_from_slice(puts).unwrap();
        Ok(Answer::Handed(value))
    }

    /// The call is over.
    fn finish(&mut self, s: usize) -> Answer
        ensures { HasOutcome (next 0 self.old (event.Return s)) self.old self.new result }
    {
        if s < self.slots.len() && self.slots[s].finish() {
            Answer::Done
        } else {
            Answer::Illegal
        }
    }

    /// The link is read.
    fn read_link(&self, s: usize, l: usize) -> Answer
        ensures { HasOutcome (next 0 self.now (event.ReadLink s l)) self.now self.now result }
    {
        if !self.active(s) || l >= self.links.len() {
            return Answer::Illegal;
        }
        Answer::Link(self.links[l])
    }

    /// The link is exchanged.
    fn exchange_link(
        &mut self,
        s: usize,
        l: usize,
        exchange: Exchange,
    ) -> Result<Answer, AllocError>
        ensures step { IfOk result (λ answer. HasOutcome (next 0 self.old (event.ExchangeLink s l exchange)) self.old self.new answer) }
        ensures err { OnErr result (self.new ≡ self.old) }
    {
        let new = match exchange {
            Exchange::Swap(new) => new,
            Exchange::Compare(_, new) => new,
        };
        if !self.active(s) || l >= self.links.len() || !self.may_link(new) {
            return Ok(Answer::Illegal);
        }
        let old = self.links[l];
        if let Exchange::Compare(current, _) = exchange {
            if old != current {
                return Ok(Answer::Link(old));
            }
        }
        self.swap_link(l, new)?;
        Ok(Answer::Link(old))
    }

    /// Whether a link may take this value: one that was never named, or none.
    fn may_link(&self, new: Option<u64>) -> bool
        ensures { result ≡ is_none_or_fresh self.now new }
    {
        match new {
            None => true,
            Some(value) => !self.named.contains(&value),
        }
    }

    /// The link holds the new value, and the old one is out.
    fn swap_link(&mut self, l: usize, new: Option<u64>) -> Result<(), AllocError>
        requires { l < length self.old.links }
        ensures ok { OnOk result (self.new ≡ swapped scheme self.old l new) }
        ensures err { OnErr result (self.new ≡ self.old) }
    {
        self.loose.reserve(1)?;
        if let Some(value) = new {
            self.named.push(value)?;
        }
        if let Some(value) = self.links[l] {
            self.loose.push_reserved(value);
        }
        self.links[l] = new;
        Ok(())
    }

    /// The event, at a batch size.
    pub(super) fn step(&mut self, size: usize, event: &Event) -> Result<Answer, AllocError>
        requires { CountsFit self.old }
        ensures step { IfOk result (λ answer. HasOutcome (next size self.old (event_of event.now)) self.old self.new answer) }
        ensures err { OnErr result (self.new ≡ self.old) }
    {
        match event {
            Event::Take(s) => self.take(size, *s),
            Event::Give(s) => self.give(*s),
            Event::Enter(s) => Ok(self.enter(*s)),
            Event::Begin(s, job) => self.begin(*s, *job),
            Event::Put(s) => self.put(size, *s),
            Event::ReadHead(s, n) => self.read_head(*s, *n),
            Event::Detach(s) => self.detach(*s),
            Event::Insert(s, m, Try::Won) => self.insert_won(*s, *m),
            Event::Insert(s, m, Try::Lost) => Ok(self.insert_lost(*s, *m)),
            Event::AddCount(s) => Ok(self.add_count(*s)),
            Event::SwapOut(s) => Ok(self.swap_out(*s)),
            Event::SubCount(s) => Ok(self.sub_count(*s)),
            Event::Hand(s, puts) => self.hand(*s, puts),
            Event::Return(s) => Ok(self.finish(*s)),
            Event::ReadLink(s, l) => Ok(self.read_link(*s, *l)),
            Event::ExchangeLink(s, l, exchange) => self.exchange_link(*s, *l, *exchange),
        }
    }
}
