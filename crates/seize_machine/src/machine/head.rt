//! A slot's head.
ghost use Rattle.std.specs.Prelude.{◌≡◌, ◌&&◌, [], IfOk, OnErr};
ghost use Rattle.seize_machine.specs.Machine.State as state;
ghost use Rattle.seize_machine.specs.Machine.Next.{same_list};
ghost use Rattle.seize_machine.specs.Machine.Code.{head_view, IsInserted};

use std::alloc::{AllocError, Global};
use std::collections::VecDeque;
use std::marker::Model;

/// Which retired batches wait for the slot, the newest insertion first, or none where the slot is inactive.
#[derive(Drop)]
pub(super) struct Head {
    waiting: Option<VecDeque<usize>>,
}

impl Model for Head {
    ghost Value = { state.Head };

    ghost view = { λ h. head_view h.waiting };
}

impl Head {
    pub(super) fn inactive() -> Head
        ensures { result ≡ state.Inactive }
    {
        Head { waiting: None }
    }

    /// Active, with nothing that waits.
    pub(super) fn empty(alloc: Global) -> Head
        ensures { result ≡ state.Active [] }
    {
        Head {
            waiting: Some(VecDeque::new(alloc)),
        }
    }

    pub(super) fn is_active(&self) -> bool
        ensures { result ≡ state.is_active self.now }
    {
        self.waiting.is_some()
    }

    /// Whether the head is active with this list.
    pub(super) fn is(&self, list: &VecDeque<usize>) -> bool
        ensures { result ≡ (state.is_active self.now && same_list (state.waiting_at self.now) list.now.items) }
    {
        match &self.waiting {
            None => false,
            Some(waiting) => waiting == list,
        }
    }

    /// What a reader sees: a copy of the list.
    pub(super) fn read(&self) -> Result<Option<VecDeque<usize>>, AllocError>
        ensures { IfOk result (λ saw. head_view saw ≡ self.now) }
    {
        match &self.waiting {
            None => Ok(None),
            Some(waiting) => Ok(Some(waiting.clone()?)),
        }
    }

    /// Puts a batch in front of the list, where the head is active.
    pub(super) fn insert(&mut self, batch: usize) -> Result<bool, AllocError>
        ensures step { IfOk result (λ done. IsInserted done batch self.old self.new) }
        ensures err { OnErr result (self.new ≡ self.old) }
    {
        match &mut self.waiting {
            None => Ok(false),
            Some(waiting) => {
                waiting.push_front(batch)?;
                Ok(true)
            }
        }
    }

    /// The list, with another head in its place.
    pub(super) fn swap(&mut self, alloc: Global, head: Head) -> VecDeque<usize>
        ensures waiting { result.items ≡ state.waiting_at self.old }
        ensures head { self.new ≡ head }
    {
        let old = std::mem::replace(self, head);
        match old.waiting {
            None => VecDeque::new(alloc),
            Some(waiting) => waiting,
        }
    }
}
