//! Slots: the table where the heads of a book lie, and how many slots there are. From a slot that a pass has seen it leads to the slot's
//! head. It stands on heads, on the total and on the table.
ghost use Rattle.std.specs.Prelude.{◌≡◌, ◌≤◌, length, Some};
ghost use Rattle.crossbeam_utils.specs.Padded.{padded_value};
ghost use Rattle.seize_table.specs.Named.{name_of};
ghost use Rattle.seize_words.specs.Reservations.{slot};
ghost use Rattle.seize_book.specs.Tokens.{label_at};

mod heads;
mod next;

use crate::reservation::Head;
use crate::total::Total;
use crossbeam_utils::CachePadded;
pub use heads::Heads;
pub use next::NextSlot;
use seize_book::book::{NumbersKey, Pass, Seen, SlotKey, TotalKey};
use seize_table::thread_id::Thread;
use seize_table::tls::{AllFilled, ThreadLocal};
use seize_table::{Labelled, Refusal};

/// What a slot has in the table of its book: its head, with nothing else on its cache lines.
#[derive(Drop)]
pub struct Reservation {
    head: CachePadded<Head>,
    /// The book whose head it is.
    pub book: Seen,
    ghost of_book: { (padded_value head).word.name ≡ book.name },
}

/// It says the book, and the slot.
impl Labelled for Reservation {
    ghost label = { λ r. label_at r.book.name (slot (padded_value r.head)) };
}

impl Reservation {
    ghost use Rattle.seize_words.specs.Named.{head_book};
    ghost use Rattle.seize_words.specs.Reserved.{head_in};

    fn new(head: Head, book: Seen) -> Reservation
        requires { head_book head ≡ book.name }
        ensures { (head_in result ≡ head) × (result.book ≡ book) }
    {
        let head = CachePadded::new(head);
        Reservation { head, book }
    }

    /// The head.
    pub fn head(&self) -> &Head
        ensures { result.now ≡ head_in self.now }
    {
        &self.head
    }
}

/// The slots of a book: the table where their heads lie, and the word that says how many there are. Threads share them by `&`.
///
/// The head of each slot that there is lies in the table, in the entry with the slot's number.
#[derive(Drop)]
pub struct Slots {
    table: ThreadLocal<Reservation>,
    /// How many slots there are.
    pub total: Total,
    /// The book.
    pub book: Seen,
    ghost lies: { book.name.table ≡ name_of table },
    ghost counts: { total.word.name ≡ book.name },
}

impl Slots {
    ghost use Rattle.std.specs.Prelude.{◌<◌, IfErr, IfOk};
    ghost use Rattle.seize_table.specs.Place.{all_numbers};
    ghost use Rattle.seize_table.specs.declared.refusal.Refusal.TheVariants.{NoMemory};
    ghost use Rattle.seize_words.specs.Named.{total_key_book};
    ghost use Rattle.seize_book.specs.Passes.{LooksOn};
    ghost use Rattle.seize_words.specs.Reserved.{AreAll, HasNextSlot, IsHeadAt, IsSameNext, IsSlotCount, MakesNextSlot, comes_to, heads_book, heads_end, slots_book};
    ghost use Rattle.seize_words.specs.Totals.{slots_seen, total_known};
    ghost use Rattle.seize_book.specs.Others.{AreNumbersOf};

    /// Those of a book that has no slot yet, and whose heads lie in this table.
    pub fn of(table: ThreadLocal<Reservation>, total: TotalKey, book: Seen) -> Slots
        requires lies { book.name.table ≡ name_of table }
        requires total { (total_key_book total ≡ book.name) × (total_known total ≡ 0) }
        ensures { result.book ≡ book }
    {
        Slots {
            table,
            total: Total::new(total),
            book,
        }
    }

    /// Makes the slot that comes next: puts its head into the table, and then says that the slot is there (`Total::add`). It gives the
    /// slot's key, and the slot that comes after it.
    ///
    /// # Errors
    ///
    /// `NoMemory` where the growth of the table was refused, or the slot's entry was filled already, which no call leads to. Then nothing
    /// was changed, and the slot that comes next is given back.
    pub fn make(
        &self,
        next: NextSlot,
        numbers: &mut NumbersKey,
        pass: &mut Pass,
    ) -> Result<(SlotKey, NextSlot), (Refusal, NextSlot)>
        requires book { (slots_book self.now ≡ pass.old.name) × AreNumbersOf numbers.old pass.old }
        requires next { HasNextSlot numbers.old next }
        ensures made { IfOk result (λ made. MakesNextSlot numbers.old next pass.old numbers.new made.0 made.1 pass.new) }
        ensures refused { IfErr result (λ e. (e.0 ≡ NoMemory) × IsSameNext next e.1) }
        ensures unchanged { IfErr result (λ e. (numbers.new ≡ numbers.old) × (pass.new ≡ pass.old)) }
    {
        let NextSlot {
            number,
            mut key,
            reservation,
        } = next;
        let Some(thread) = Thread::new(number) else {
            unreachable!()
        };
        // An entry of a slot that is not there is empty, so the value comes back only for want of memory.
        let mut filled = match self.table.put(reservation, thread) {
            Ok(filled) => filled,
            Err(reservation) => {
                let next = NextSlot {
                    number,
                    key,
                    reservation,
                };
                return Err((Refusal::NoMemory, next));
            }
        };
        let token = self.table.filled_at(thread, &mut filled);
        key.place(&token);
        let keys = self.total.add(&mut key, numbers, pass);
        Ok((key, NextSlot::new(keys, number + 1, &self.book)))
    }

    /// The head of this slot, which is there, as the pass has seen. The pass looks at the list.
    ///
    /// It takes no memory: three loads, of which two depend on one before them.
    pub fn head(&self, number: usize, pass: &mut Pass) -> &Head
        requires book { slots_book self.now ≡ pass.old.name }
        requires seen { number < slots_seen pass.old }
        ensures looks { LooksOn pass.old pass.new }
        ensures head { IsHeadAt pass.new number result.now }
    {
        let all = pass.slots();
        let Some(place) = Thread::new(number) else {
            unreachable!()
        };
        let reservation = self.table.at(place, &all.get(number));
        pass.agree(&reservation.book);
        reservation.head()
    }

    /// How many slots there are, as the word says, and what shows where their heads lie. The pass looks at the list.
    ///
    /// It takes no memory and waits for nobody: one atomic load.
    pub fn load(&self, pass: &mut Pass) -> (usize, AllFilled)
        requires book { slots_book self.now ≡ pass.old.name }
        ensures looks { LooksOn pass.old pass.new }
        ensures count { IsSlotCount pass.old pass.new result.0 }
        ensures all { AreAll self.now result.1 × (result.0 ≤ length result.1.labels) × (result.0 ≤ all_numbers) }
    {
        let count = self.total.load(pass) as usize;
        (count, pass.slots())
    }

    /// The heads of the first `count` slots, by number, which are all there, as the token shows: see `Pass::slots`.
    pub fn heads<'a>(&'a self, count: usize, all: &'a AllFilled) -> Heads<'a>
        requires all { AreAll self.now all.now }
        requires count { count ≤ length all.now.labels }
        requires in_table { count ≤ all_numbers }
        ensures { (comes_to result ≡ 0) × (heads_end result ≡ count) × (heads_book result ≡ slots_book self.now) }
    {
        Heads {
            walk: self.table.first(count, all),
            book: &self.book,
        }
    }
}
