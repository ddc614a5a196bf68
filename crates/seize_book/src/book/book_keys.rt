//! The keys that a book begins with. It uses the kinds of keys beside it.
ghost use Rattle.std.specs.Prelude.{◌≡◌};

use crate::book::head_key::HeadKey;
use crate::book::keys::Keys;
use crate::book::link_keys::LinkKeys;
use crate::book::numbers_key::NumbersKey;
use crate::book::sizes::Sizes;
use crate::book::slot_key::SlotKey;
use crate::book::slot_keys::SlotKeys;
use crate::book::total_key::TotalKey;

/// The keys of a book that has no slot yet, and whose links are empty.
#[derive(Drop)]
pub struct BookKeys {
    /// The right to take slots' numbers and to give them back.
    pub numbers: NumbersKey,
    /// The right to say how many slots there are.
    pub total: TotalKey,
    /// The rights to the slot that comes first.
    pub next: SlotKeys,
    /// The rights to the links.
    pub links: LinkKeys,
    /// The right to set the batch size.
    pub sizes: Sizes,
}

impl BookKeys {
    ghost use Rattle.seize_book.specs.Books.{AreApart, AreFirst};

    // Each key by itself.
    pub(crate) fn apart(keys: Keys, sizes: Sizes) -> BookKeys
        requires { AreFirst keys }
        ensures { AreApart keys result × (result.sizes ≡ sizes) }
    {
        let mut numbers = keys;
        let mut total = numbers.none();
        let mut slot = numbers.none();
        let mut head = numbers.none();
        let mut links = numbers.none();
        numbers.part(&mut total);
        total.part(&mut slot);
        slot.part(&mut head);
        head.part(&mut links);
        BookKeys {
            numbers: NumbersKey { keys: numbers },
            total: TotalKey { keys: total },
            next: SlotKeys {
                slot: SlotKey { keys: slot },
                head: HeadKey { keys: head },
            },
            links: LinkKeys { keys: links },
            sizes,
        }
    }
}
