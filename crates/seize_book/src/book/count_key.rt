//! The key of a count. It is `Keys` with one key.
ghost use Rattle.std.specs.Prelude.{◌≡◌, true};
ghost use base.Stored.{Gv-set, gnil};
ghost use Rattle.seize_book.specs.Book.{counts};
ghost use Rattle.seize_book.specs.Private.{is_one, label_of, note_of};

use crate::book::keys::Keys;

/// The right to count the batch whose first value lies in one block, up and down. It knows the count, which is 0 where there is no such
/// batch.
#[derive(Drop)]
pub struct CountKey {
    /// The right by itself, for crates with words.
    pub keys: Keys,
    ghost one: { is_one counts keys.held ≡ true },
    ghost unlabelled: { label_of keys.held ≡ 0 },
    ghost unnoted: { note_of keys.held ≡ gnil } by { Gv-set (note_of keys.held) gnil },
}
