//! The key of a field. It is `Keys` with one key.
ghost use Rattle.std.specs.Prelude.{◌≡◌, true};
ghost use base.Stored.{Gv-set, gnil};
ghost use Rattle.seize_book.specs.Book.{fields};
ghost use Rattle.seize_book.specs.Private.{is_one, label_of, note_of};

use crate::book::keys::Keys;

/// The right to use one field of a block's header. It knows what was last stored there, and 0 where nothing was.
#[derive(Drop)]
pub struct FieldKey {
    /// The right by itself, for crates with words.
    pub keys: Keys,
    ghost one: { is_one fields keys.held ≡ true },
    ghost unlabelled: { label_of keys.held ≡ 0 },
    ghost unnoted: { note_of keys.held ≡ gnil } by { Gv-set (note_of keys.held) gnil },
}
