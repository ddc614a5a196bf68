//! The walk over the heads of the first slots. It stands on the walk of the table.
ghost use Rattle.std.specs.Prelude.{◌≡◌, ◌≤◌, length};
ghost use Rattle.seize_table.specs.Walk.{walk_end, walk_labels};
ghost use Rattle.seize_book.specs.Tokens.{slot_labels};

use crate::reservation::Head;
use crate::slots::Reservation;
use seize_book::book::Seen;
use seize_table::tls::First;

/// The heads of the first slots of a book, by number. It takes no memory. For each bucket of the table it looks up the bucket once; then
/// a head is one load.
#[derive(Drop)]
pub struct Heads<'a> {
    pub(super) walk: First<'a, Reservation>,
    pub(super) book: &'a Seen,
    ghost labels: { walk_labels walk ≡ slot_labels book.now.name (length (walk_labels walk)) },
    ghost within: { walk_end walk ≤ length (walk_labels walk) },
}

impl<'a> Iterator for Heads<'a> {
    ghost use Rattle.std.specs.Iterator.{at_most};
    ghost use Rattle.std.specs.Prelude.{◌-◌};
    ghost use Rattle.seize_words.specs.Reserved.{GoesOn, comes_to, heads_end};

    type Item = &'a Head;

    ghost next_gives = { GoesOn };

    ghost remaining = { λ heads. at_most (heads_end heads - comes_to heads) };

    fn next(&mut self) -> Option<&'a Head> {
        let reservation = self.walk.next()?;
        self.book.agree(&reservation.book);
        Some(reservation.head())
    }
}
