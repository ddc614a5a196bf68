//! The right to the key of a block by itself, without where the number of its value leads: what lies with a chunk of a store. It uses keys;
//! `bare_key` wraps it for callers.
ghost use Rattle.std.specs.Prelude.{◌≡◌, List};
ghost use base.Fml.{fsep};
ghost use base.Stored.{coded_list};
ghost use Rattle.seize_book.specs.Book.{blocks};
ghost use Rattle.seize_book.specs.Entry.{Entry};
ghost use Rattle.seize_book.specs.Ledger.{HeldKey};
ghost use Rattle.seize_book.specs.Private.{is_one};
ghost use Rattle.seize_book.specs.Tokens.{Name, held_coded, name_coded, notes_own, rights_own};

use crate::book::keys::Keys;
use seize_store::RowToken;
use std::marker::{Model, PhantomData};

/// As `Keys`, but for the ways. What their holder notes goes with them.
pub(crate) struct Rights {
    pub(super) marker: PhantomData<()>,
    pub(crate) ghost name: { Name } by { name_coded },
    pub(crate) ghost held: { List (HeldKey Entry) } by { coded_list held_coded },
}

impl Model for Rights {
    ghost also_owns = { λ r. fsep (rights_own r.name r.held) (notes_own r.held) };
}

impl Rights {
    ghost use Rattle.seize_book.specs.Bare.{IsWay, Places};

    /// The key of a block's values, where the number leads to the block, as the token shows. Its label is a value with this number then, of
    /// the block and of its content, which was never named.
    pub(crate) fn place(&mut self, number: u64, known: &RowToken) -> Keys
        requires { IsWay self.old number known.now }
        ensures { Places self.old number known.now result }
    {
        Keys {
            marker: PhantomData,
        }
    }
}

impl Drop for Rights {
    fn drop(self) {
        let Self { marker: _ } = self;
    }
}

unsafe impl Send for Rights {}
