//! The key of the total. It is `Keys` with one key.
ghost use Rattle.std.specs.Prelude.{◌≡◌, true};
ghost use base.Stored.{Gv-set, gnil};
ghost use Rattle.seize_book.specs.Book.{totals};
ghost use Rattle.seize_book.specs.Private.{is_one, key_of, label_of, note_of};

use crate::book::keys::Keys;

/// The right to the step that says that one more slot is there. It knows how many there are.
#[derive(Drop)]
pub struct TotalKey {
    /// The right by itself, for crates with words.
    pub keys: Keys,
    ghost one: { is_one totals keys.held ≡ true },
    ghost zero: { key_of keys.held ≡ 0 },
    ghost unlabelled: { label_of keys.held ≡ 0 },
    ghost unnoted: { note_of keys.held ≡ gnil } by { Gv-set (note_of keys.held) gnil },
}
