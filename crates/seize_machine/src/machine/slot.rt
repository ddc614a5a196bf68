//! A slot: its batch and its call under way.
ghost use Rattle.std.specs.Prelude.{◌≡◌, ◌++◌, IfOk, OnOk, OnErr, [], true, false, not, is_some, unwrap_or};
ghost use Rattle.seize_machine.specs.Machine.State as state;
ghost use Rattle.seize_machine.specs.Machine.Next.{scheme, taken_slot, gathered_slot, is_empty, look, of_call, moved, begun_at, slot_put, slot_mark, looking_at, looked_on, can_detach, after_detach, detached_on, trying_at, won_on, slot_lost, can_lose_at, lost_on, adding_at, leaving_at, walking_at, walked_on, handing_at, slot_handed, slot_return};
ghost use Rattle.seize_machine.specs.Machine.Code.{slot_view, place_view, head_view, CanWin, CanWinAt, DoesSlot};

use super::head::Head;
use std::alloc::{AllocError, Global};
use std::collections::VecDeque;
use std::marker::Model;
use std::mem;

/// Where a call under way stands.
#[derive(Drop)]
pub(super) enum Place {
    /// About to append the value.
    Append(u64),
    /// Reading the heads.
    Mark {
        next: usize,
        note: usize,
        marked: VecDeque<usize>,
    },
    /// About to read the head of a marked slot.
    Look {
        batch: usize,
        won: usize,
        slot: usize,
        later: VecDeque<usize>,
    },
    /// About to insert the batch there.
    Try {
        batch: usize,
        won: usize,
        slot: usize,
        later: VecDeque<usize>,
        saw: VecDeque<usize>,
    },
    /// About to add the insertions won to the batch's count.
    Add {
        batch: usize,
        won: usize,
    },
    /// About to swap the head out.
    Out {
        stays: bool,
    },
    /// Handing given-up values, walking, retiring further values, or about to return.
    Rest {
        given: VecDeque<u64>,
        walk: VecDeque<usize>,
    },
}

/// A call under way, with the further values that it has still to retire.
#[derive(Drop)]
pub(super) struct Call {
    pub(super) place: Place,
    pub(super) queue: VecDeque<u64>,
}

impl Call {
    /// The place, which the caller puts anew.
    fn take_place(&mut self) -> Place
        ensures place { place_view result ≡ place_view self.old.place }
        ensures queue { self.new.queue ≡ self.old.queue }
    {
        mem::replace(&mut self.place, Place::Out { stays: false })
    }
}

impl Place {
    /// Reading the heads from the first on.
    pub(super) fn marking(alloc: Global, slots: usize) -> Place
        ensures { place_view result ≡ state.Mark 0 slots [] }
    {
        Place::Mark {
            next: 0,
            note: slots,
            marked: VecDeque::new(alloc),
        }
    }

    /// With nothing left to do.
    pub(super) fn resting(alloc: Global) -> Place
        ensures { place_view result ≡ state.Rest [] [] }
    {
        Place::Rest {
            given: VecDeque::new(alloc),
            walk: VecDeque::new(alloc),
        }
    }

    /// About to read the head of the next marked slot, or to add.
    fn next_marked(batch: usize, won: usize, mut marked: VecDeque<usize>) -> Place
        ensures { place_view result ≡ look batch won marked.items }
    {
        match marked.pop_front() {
            None => Place::Add { batch, won },
            Some(slot) => Place::Look {
                batch,
                won,
                slot,
                later: marked,
            },
        }
    }

    fn detached(self, number: usize) -> Place
        ensures { place_view result ≡ detached_on number (place_view self) }
    {
        match self {
            Place::Mark { marked, .. } => Place::next_marked(number, 0, marked),
            place => place,
        }
    }

    fn won(self) -> Place
        requires { CanWinAt (place_view self) }
        ensures { place_view result ≡ won_on (place_view self) }
    {
        match self {
            Place::Try {
                batch,
                won,
                later,
                ..
            } => Place::next_marked(batch, won + 1, later),
            place => place,
        }
    }

    fn lost(self) -> Place
        ensures { place_view result ≡ lost_on (place_view self) }
    {
        match self {
            Place::Try {
                batch,
                won,
                slot,
                later,
                ..
            } => Place::Look {
                batch,
                won,
                slot,
                later,
            },
            place => place,
        }
    }

    fn walked(self, given: VecDeque<u64>) -> Place
        ensures { place_view result ≡ walked_on given.items (place_view self) }
    {
        match self {
            Place::Rest { mut walk, .. } => {
                let _ = walk.pop_front();
                Place::Rest { given, walk }
            }
            place => place,
        }
    }

    fn looked(self, saw: Option<VecDeque<usize>>) -> Place
        ensures { place_view result ≡ looked_on scheme (head_view saw) (place_view self) }
    {
        match self {
            Place::Look {
                batch,
                won,
                slot,
                later,
            } => match saw {
                None => Place::next_marked(batch, won, later),
                Some(saw) => Place::Try {
                    batch,
                    won,
                    slot,
                    later,
                    saw,
                },
            },
            place => place,
        }
    }
}

#[derive(Drop)]
pub(super) struct Slot {
    used: bool,
    batch: VecDeque<u64>,
    call: Option<Call>,
}

impl Model for Slot {
    ghost Value = { state.Slot };

    ghost view = { λ s. slot_view s.used s.batch.items s.call };
}

impl Slot {
    /// A slot whose number is taken, where there are so many slots then: it has the rest as its batch, and attempts that where it is full.
    pub(super) fn taking(alloc: Global, size: usize, slots: usize, rest: VecDeque<u64>) -> Slot
        ensures { result ≡ taken_slot size slots rest.items }
    {
        let full = rest.len() >= size.max(1);
        let mut slot = Slot {
            used: true,
            batch: rest,
            call: None,
        };
        if full {
            slot.begin(alloc, Place::marking(alloc, slots));
        }
        slot
    }

    /// Its batch joins the rest, behind what is there, and its number is free.
    pub(super) fn free(&mut self, rest: &mut VecDeque<u64>) -> Result<(), AllocError>
        ensures ok { OnOk result (self.new ≡ state.no_slot) }
        ensures rest { OnOk result (rest.new.items ≡ rest.old.items ++ self.old.batch) }
        ensures err { OnErr result ((self.new ≡ self.old) × (rest.new.items ≡ rest.old.items)) }
    {
        rest.append(&mut self.batch)?;
        self.used = false;
        self.call = None;
        Ok(())
    }

    /// The rest comes before its batch, and the heads are read, where there are so many slots. It is in use.
    pub(super) fn gather(
        &mut self,
        alloc: Global,
        slots: usize,
        rest: &mut VecDeque<u64>,
    ) -> Result<(), AllocError>
        requires { self.old.used ≡ true }
        ensures ok { OnOk result (self.new ≡ gathered_slot slots (rest.old.items ++ self.old.batch)) }
        ensures rest { OnOk result (rest.new.items ≡ []) }
        ensures err { OnErr result ((self.new ≡ self.old) × (rest.new.items ≡ rest.old.items)) }
    {
        rest.append(&mut self.batch)?;
        self.batch = mem::replace(rest, VecDeque::new(alloc));
        self.begin(alloc, Place::marking(alloc, slots));
        Ok(())
    }

    pub(super) fn is_used(&self) -> bool
        ensures { result ≡ self.now.used }
    {
        self.used
    }

    pub(super) fn has_call(&self) -> bool
        ensures { result ≡ is_some self.now.call }
    {
        self.call.is_some()
    }

    /// Whether the slot is in use and has no call under way.
    pub(super) fn is_idle(&self) -> bool
        ensures { result ≡ state.is_idle self.now }
    {
        self.used && self.call.is_none()
    }

    pub(super) fn has_batch(&self) -> bool
        ensures { result ≡ not (is_empty self.now.batch) }
    {
        !self.batch.is_empty()
    }

    /// A call begins.
    pub(super) fn begin(&mut self, alloc: Global, place: Place)
        ensures { self.new ≡ begun_at self.old (place_view place) }
    {
        self.call = Some(Call {
            place,
            queue: VecDeque::new(alloc),
        });
    }

    /// Appends the value in turn to the batch, where there are so many slots.
    pub(super) fn put(
        &mut self,
        alloc: Global,
        size: usize,
        slots: usize,
    ) -> Result<bool, AllocError>
        ensures step { IfOk result (λ legal. DoesSlot (slot_put scheme size slots self.old) self.old self.new legal) }
        ensures err { OnErr result (self.new ≡ self.old) }
    {
        let Slot { batch, call, .. } = self;
        let Some(Call { place, queue }) = call else {
            return Ok(false);
        };
        let value = match place {
            Place::Append(value) => *value,
            Place::Rest { given, walk } => {
                if !given.is_empty() || !walk.is_empty() {
                    return Ok(false);
                }
                let Some(value) = queue.front() else {
                    return Ok(false);
                };
                *value
            }
            _ => return Ok(false),
        };
        batch.reserve(1)?;
        if let Place::Rest { .. } = place {
            let _ = queue.pop_front();
        }
        batch.push_back_reserved(value);
        *place = if batch.len() >= size.max(1) {
            Place::marking(alloc, slots)
        } else {
            Place::resting(alloc)
        };
        Ok(true)
    }

    /// Reads head `n`, where there are so many slots, and marks its slot if it is active.
    pub(super) fn mark(
        &mut self,
        alloc: Global,
        n: usize,
        active: bool,
        slots: usize,
    ) -> Result<bool, AllocError>
        ensures step { IfOk result (λ legal. DoesSlot (slot_mark scheme slots n active self.old) self.old self.new legal) }
        ensures err { OnErr result (self.new ≡ self.old) }
    {
        let Slot { batch, call, .. } = self;
        let Some(Call { place, .. }) = call else {
            return Ok(false);
        };
        let Place::Mark { next, note, marked } = place else {
            return Ok(false);
        };
        if n >= slots || !(n == *next || (*note <= *next && *next < n)) {
            return Ok(false);
        }
        if active && marked.len() >= batch.len() {
            *place = Place::resting(alloc);
            return Ok(true);
        }
        if active {
            marked.push_back(n)?;
        }
        *next = n + 1;
        Ok(true)
    }

    /// The marked slot whose head the call reads next.
    pub(super) fn looking(&self) -> Option<usize>
        ensures { result ≡ of_call looking_at self.now.call }
    {
        match &self.call {
            Some(
                Call {
                    place: Place::Look { slot, .. },
                    ..
                },
            ) => Some(*slot),
            _ => None,
        }
    }

    /// The head of the marked slot was read: it is inactive, or active with this list.
    pub(super) fn look(&mut self, alloc: Global, saw: Option<VecDeque<usize>>)
        ensures { self.new ≡ moved (looked_on scheme (head_view saw)) self.old }
    {
        if let Some(call) = &mut self.call {
            call.place = call.take_place().looked(saw);
        }
    }

    /// Whether the call has read every head that it must, so that the batch may be taken.
    pub(super) fn can_detach(&self) -> bool
        ensures { result ≡ can_detach self.now }
    {
        match &self.call {
            Some(
                Call {
                    place: Place::Mark { next, note, .. },
                    ..
                },
            ) => *note <= *next,
            _ => false,
        }
    }

    /// The batch is taken from the slot, as retired batch `number`.
    pub(super) fn detach(&mut self, alloc: Global, number: usize) -> VecDeque<u64>
        ensures batch { result.items ≡ self.old.batch }
        ensures rest { self.new ≡ after_detach number self.old }
    {
        if let Some(call) = &mut self.call {
            call.place = call.take_place().detached(number);
        }
        mem::replace(&mut self.batch, VecDeque::new(alloc))
    }

    /// The batch and the slot of the insertion that the call is about to try.
    pub(super) fn trying(&self) -> Option<(usize, usize)>
        ensures { result ≡ of_call trying_at self.now.call }
    {
        match &self.call {
            Some(
                Call {
                    place: Place::Try { batch, slot, .. },
                    ..
                },
            ) => Some((*batch, *slot)),
            _ => None,
        }
    }

    /// The insertion was won.
    pub(super) fn won(&mut self)
        requires { CanWin self.old.call }
        ensures { self.new ≡ moved won_on self.old }
    {
        if let Some(call) = &mut self.call {
            call.place = call.take_place().won();
        }
    }

    /// The insertion into the list of slot `n`, whose head is now this one, was lost.
    pub(super) fn lost(&mut self, n: usize, head: &Head) -> bool
        ensures { DoesSlot (slot_lost scheme n head.now self.old) self.old self.new result }
    {
        if !self.can_lose(n, head) {
            return false;
        }
        if let Some(call) = &mut self.call {
            call.place = call.take_place().lost();
        }
        true
    }

    pub(super) fn can_lose(&self, n: usize, head: &Head) -> bool
        ensures { result ≡ unwrap_or (of_call (can_lose_at scheme n head.now) self.now.call) false }
    {
        match &self.call {
            Some(
                Call {
                    place: Place::Try { slot, saw, .. },
                    ..
                },
            ) => n == *slot && !head.is(saw),
            _ => false,
        }
    }

    /// The batch whose count the call is about to raise, and by how much.
    pub(super) fn adding(&self) -> Option<(usize, usize)>
        ensures { result ≡ of_call adding_at self.now.call }
    {
        match &self.call {
            Some(
                Call {
                    place: Place::Add { batch, won },
                    ..
                },
            ) => Some((*batch, *won)),
            _ => None,
        }
    }

    /// Whether the call that is about to swap the head out stays active.
    pub(super) fn leaving(&self) -> Option<bool>
        ensures { result ≡ of_call leaving_at self.now.call }
    {
        match &self.call {
            Some(
                Call {
                    place: Place::Out { stays },
                    ..
                },
            ) => Some(*stays),
            _ => None,
        }
    }

    /// The call goes on with these given-up values and this walk.
    pub(super) fn rest(&mut self, given: VecDeque<u64>, walk: VecDeque<usize>)
        ensures { self.new ≡ moved (λ _. state.Rest given.items walk.items) self.old }
    {
        if let Some(call) = &mut self.call {
            call.place = Place::Rest { given, walk };
        }
    }

    /// The batch that the walk counts down next.
    pub(super) fn walking(&self) -> Option<usize>
        ensures { result ≡ of_call walking_at self.now.call }
    {
        match &self.call {
            Some(
                Call {
                    place: Place::Rest { given, walk },
                    ..
                },
            ) => {
                if !given.is_empty() {
                    return None;
                }
                walk.front().copied()
            }
            _ => None,
        }
    }

    /// The first batch of the walk was counted down, and these values were given up.
    pub(super) fn walked(&mut self, given: VecDeque<u64>)
        ensures { self.new ≡ moved (walked_on given.items) self.old }
    {
        if let Some(call) = &mut self.call {
            call.place = call.take_place().walked(given);
        }
    }

    /// The given-up value that goes to its reclaimer next.
    pub(super) fn handing(&self) -> Option<u64>
        ensures { result ≡ of_call handing_at self.now.call }
    {
        match &self.call {
            Some(
                Call {
                    place: Place::Rest { given, .. },
                    ..
                },
            ) => given.front().copied(),
            _ => None,
        }
    }

    /// The value went to its reclaimer, which put these further values.
    pub(super) fn hand(&mut self, mut puts: VecDeque<u64>) -> Result<(), AllocError>
        ensures ok { OnOk result (self.new ≡ slot_handed puts.items self.old) }
        ensures err { OnErr result (self.new ≡ self.old) }
    {
        if let Some(Call { place, queue }) = &mut self.call {
            queue.append(&mut puts)?;
            if let Place::Rest { given, .. } = place {
                let _ = given.pop_front();
            }
        }
        Ok(())
    }

    /// The call is over, if it has nothing left to do.
    pub(super) fn finish(&mut self) -> bool
        ensures { DoesSlot (slot_return self.old) self.old self.new result }
    {
        match &self.call {
            Some(
                Call {
                    place: Place::Rest { given, walk },
                    queue,
                },
            ) => {
                if !given.is_empty() || !walk.is_empty() || !queue.is_empty() {
                    return false;
                }
            }
            _ => return false,
        }
        self.call = None;
        true
    }
}
