//! What shows where a number leads: a token without bytes, free of the types that the store is made for, and the title of a block.
//! Blocks and spots carry a title, and `look_up` a token.
ghost use Rattle.std.specs.Prelude.{◌≡◌, ℕ, List};
ghost use base.Stored.{coded_list, coded×, coded_ℕ};
ghost use denote.RawPtr.{Ptr, coded_ptr};
ghost use denote.Sharing.{said};
ghost use Rattle.seize_store.specs.RowTokens.{IsInRow, IsRowIn, known_row};

mod tells;

use std::alloc::Global;
use std::marker::{Model, PhantomData};

/// What shows which chunks one row of one store has, for good. It takes no bytes.
///
/// A crate above that keeps the lasting fact of a row makes one of that (`known_row`, and what `made` says): a proof by hand has to show
/// both.
pub struct RowToken {
    /// Nothing.
    pub marker: PhantomData<()>,
    /// The store: its own name and those of its rows.
    pub ghost store: { List ℕ },
    /// Which row it is.
    pub ghost row: { ℕ },
    /// Where its chunks lie, and their tags: which label the header has, and which content the chunk has.
    pub ghost chunks: { List (Ptr × ℕ) } by { coded_list (coded× coded_ptr coded_ℕ) },
    /// The row has these chunks and no others, and they are of the store's family.
    pub ghost made: { IsRowIn store row chunks },
}

impl Model for RowToken {
    ghost also_owns = { λ k. known_row k.store k.row k.chunks };

    ghost also_shares = { λ k _ κ. said (known_row k.store k.row k.chunks) κ };
}

impl Drop for RowToken {
    fn drop(self) {
        let Self { marker: _ } = self;
    }
}

unsafe impl Send for RowToken {}

unsafe impl Sync for RowToken {}

/// The number of a chunk, with what shows which chunk that is.
#[derive(Drop)]
pub struct Title {
    pub(crate) number: usize,
    pub(crate) alloc: Global,
    pub(crate) known: RowToken,
    ghost placed: { IsInRow number known.row },
}
