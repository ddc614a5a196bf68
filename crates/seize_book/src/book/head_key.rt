//! The key of a head. It is `Keys` with one key.
ghost use Rattle.std.specs.Prelude.{◌≡◌, true};
ghost use base.Stored.{Gv-set, gnil};
ghost use Rattle.seize_book.specs.Book.{heads};
ghost use Rattle.seize_book.specs.Private.{is_one, label_of, note_of};

use crate::book::keys::Keys;

/// The right to the events on one slot's head. It knows the head, which is inactive until the slot first enters.
#[derive(Drop)]
pub struct HeadKey {
    /// The right by itself, for crates with words.
    pub keys: Keys,
    ghost one: { is_one heads keys.held ≡ true },
    ghost unlabelled: { label_of keys.held ≡ 0 },
    ghost unnoted: { note_of keys.held ≡ gnil } by { Gv-set (note_of keys.held) gnil },
}
