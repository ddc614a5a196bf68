//! The slot that comes next: it is not there yet, and its head is a word already. `slots` puts that into its place.
ghost use Rattle.std.specs.Prelude.{◌≡◌};
ghost use Rattle.crossbeam_utils.specs.Padded.{padded_value};
ghost use Rattle.seize_words.specs.Reservations.{slot};
ghost use Rattle.seize_book.specs.Slots.{slot_number};

use crate::reservation::Head;
use crate::slots::Reservation;
use seize_book::book::{Seen, SlotKey, SlotKeys};

/// The slot that comes next, with its head, which is in no place yet.
///
/// Where it is dropped, no further slot can be made in its book; those that are there stay.
#[derive(Drop)]
pub struct NextSlot {
    pub(super) number: usize,
    pub(super) key: SlotKey,
    pub(super) reservation: Reservation,
    ghost its_key: { slot_number key ≡ number },
    ghost its_head: { slot (padded_value reservation.head) ≡ number },
    ghost its_book: { reservation.book.name ≡ key.keys.name },
}

impl NextSlot {
    ghost use Rattle.seize_machine.specs.Machine.State.{Inactive};
    ghost use Rattle.seize_words.specs.Named.{next_book, next_head, slot_book};
    ghost use Rattle.seize_words.specs.Reservations.{head_known};
    ghost use Rattle.seize_words.specs.Reserved.{comes_next, next_key};

    /// The slot with these keys, by its number. Its head is made, which is inactive.
    pub fn new(keys: SlotKeys, number: usize, book: &Seen) -> NextSlot
        requires book { (slot_book keys.slot ≡ book.now.name) × (next_book keys.head ≡ book.now.name) }
        requires number { (slot_number keys.slot ≡ number) × (next_head keys.head ≡ number) }
        requires inactive { head_known keys.head ≡ Inactive }
        ensures { (comes_next result ≡ number) × (next_key result ≡ keys.slot) }
    {
        let SlotKeys { slot, head } = keys;
        NextSlot {
            number,
            key: slot,
            reservation: Reservation::new(Head::new(head), book.again()),
        }
    }

    /// The number at which the slot will be made, by which calls name it then.
    pub fn number(&self) -> usize
        ensures { result ≡ comes_next self.now }
    {
        self.number
    }
}
