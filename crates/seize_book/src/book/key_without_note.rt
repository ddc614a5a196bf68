//! The key of a block whose note is being read or written: the token of its cell is out. It uses keys; `value_key` opens and closes it.
ghost use Rattle.std.specs.Prelude.{◌≡◌, List};
ghost use base.Stored.{coded_list};
ghost use Rattle.seize_book.specs.Entry.{Entry};
ghost use Rattle.seize_book.specs.Ledger.{HeldKey};
ghost use Rattle.seize_book.specs.Tokens.{Name, held_coded, key_without_note_owns, name_coded};

use crate::book::keys::Keys;
use seize_content::CellToken;
use std::marker::{Model, PhantomData};

/// As `Keys` with one key of a block, but for what is noted.
pub(crate) struct KeyWithoutNote {
    pub(super) marker: PhantomData<()>,
    pub(crate) ghost name: { Name } by { name_coded },
    pub(crate) ghost held: { List (HeldKey Entry) } by { coded_list held_coded },
}

impl Model for KeyWithoutNote {
    ghost also_owns = { λ o. key_without_note_owns o.name o.held };
}

impl KeyWithoutNote {
    ghost use Rattle.seize_book.specs.Notes.{Closes, MayClose};

    /// The key again, with the token of its cell.
    pub(crate) fn close(self, token: CellToken) -> Keys
        requires { MayClose self token }
        ensures { Closes self token result }
    {
        let Self { marker: _ } = self;
        let CellToken { marker: _ } = token;
        Keys {
            marker: PhantomData,
        }
    }
}

impl Drop for KeyWithoutNote {
    fn drop(self) {
        let Self { marker: _ } = self;
    }
}
