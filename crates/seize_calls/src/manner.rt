//! In what manner a call is made: beside others, or by a pass that is alone. Beside others an insertion may be lost, and is tried again.
//! Where the pass of the call is alone nobody changes a head meanwhile, so an insertion is won at once.
ghost use Rattle.std.specs.Prelude.{◌≡◌, ℕ};
ghost use Rattle.seize_calls.specs.Inserts.{InsertsAtSlot, IsAtHead};
ghost use Rattle.seize_words.specs.Chunks.{header_book};
ghost use Rattle.seize_words.specs.Reservations.{IsHeadOfBook};
ghost use Rattle.seize_book.specs.Slots.{IsKeyOfBook};
ghost use Rattle.seize_book.specs.Tokens.{IsSole};
ghost use Rattle.seize_words.specs.Walks.{Knows};

use crate::inserting::try_once;
use seize_words::book::{Pass, SlotKey};
use seize_words::chunk::Header;
use seize_words::reservation::Head;
use std::sync::Wait;

/// In what manner a call is made.
pub trait Manner {
    /// With which passes, by their numbers.
    ghost may: { Self → ℕ → Type 0 };

    /// Inserts the batch at this head, with the block of this number, unless its slot is found inactive. It says whether it was inserted.
    ///
    /// It takes no memory: a read of the head, and two stores and a compare and exchange for each try.
    fn insert(
        &self,
        head: &Head,
        header: &Header,
        block: u64,
        front: u64,
        key: &mut SlotKey,
        pass: &mut Pass,
    ) -> bool
        requires may { may self.now pass.old.id }
        requires book { IsKeyOfBook key.old pass.old × IsHeadOfBook head.now pass.old × (header_book header.now ≡ pass.old.name) }
        requires knows { Knows key.old pass.old }
        requires here { IsAtHead key.old pass.old head.now header.now block front }
        ensures knows { Knows key.new pass.new }
        ensures inserted { (here : IsAtHead key.old pass.old head.now header.now block front)
            → InsertsAtSlot here.at pass.old key.new pass.new result };
}

/// Beside others, with any pass. An insertion is tried again as often as others change the head between a look at it and the try, so a call
/// may wait for ever.
pub struct Beside<'a, W> {
    /// The runtime by whose leave it may.
    pub rt: &'a W,
}

impl<W: Wait> Manner for Beside<'_, W> {
    ghost may = { λ _ _. Unit {0} };

    fn insert(
        &self,
        head: &Head,
        header: &Header,
        block: u64,
        front: u64,
        key: &mut SlotKey,
        pass: &mut Pass,
    ) -> bool {
        for _ in self.rt.forever() {
            let seen = head.read(key, pass);
            if seen == 0 {
                return false;
            }
            if try_once(head, header, seen, block, front, key, pass) {
                return true;
            }
        }
        unreachable!()
    }
}

impl<W> Drop for Beside<'_, W> {
    fn drop(self) {
        let Beside { rt: _ } = self;
    }
}

/// By a pass that is alone. An insertion is tried once and won, so nobody is waited for.
#[derive(Drop)]
pub struct Alone {}

impl Manner for Alone {
    ghost may = { λ _ p. IsSole p };

    fn insert(
        &self,
        head: &Head,
        header: &Header,
        block: u64,
        front: u64,
        key: &mut SlotKey,
        pass: &mut Pass,
    ) -> bool {
        let seen = head.read(key, pass);
        if seen == 0 {
            return false;
        }
        try_once(head, header, seen, block, front, key, pass)
    }
}
