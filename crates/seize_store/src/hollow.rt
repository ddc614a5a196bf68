//! A chunk in hand with neither value nor owner's part. It wraps a shell of `block`; `bare` makes it, and with its part it is a spot of
//! `spot`.
ghost use Rattle.std.specs.Prelude.{◌≡◌};
ghost use Rattle.seize_store.specs.Titled.{chunk_of};

use crate::block::Shell;
use crate::row_token::Title;
use crate::spot::{Spot, Spots};
use seize_table::Labelled;

/// A chunk that is out, with neither value nor the owner's part: what is left of a bare block when its value was taken out.
///
/// Its chunk is in again only with its part, by `put_into`. Where this is dropped instead, the chunk stays out for good, and
/// its row's memory is never given back, also when the store and the other blocks of the row have ended.
#[derive(Drop)]
pub struct Hollow<H, P: Labelled + Drop, T> {
    pub(crate) shell: Shell<H, P, T>,
    pub(crate) title: Title,
    pub(crate) ghost titled: { chunk_of title ≡ (shell.at, shell.tag) },
}

impl<H, P: Labelled + Drop, T> Hollow<H, P, T> {
    ghost use Rattle.seize_store.specs.Named.{AreOfStore, count_of, count_with, hollow_label, hollow_store, hollow_title, titles_of, titles_with};
    ghost use Rattle.seize_store.specs.Parts.{spot_title};

    // The chunk as a spot, with its owner's part, which may be another one of the same label. It takes no memory and no atomic step.
    pub(crate) fn with(self, part: P) -> Spot<H, P, T>
        requires { P.label part ≡ hollow_label self }
        ensures { spot_title result ≡ hollow_title self }
    {
        let Hollow { shell, title } = self;
        let out = shell.with(part);
        Spot { out, title }
    }

    /// The chunk stays claimed with this part, and its spot goes to the list; where that is full, half of it goes back first. No atomic
    /// step else.
    pub fn put_into(self, part: P, spots: &mut Spots<H, P, T>)
        requires part { P.label part ≡ hollow_label self }
        requires spots { AreOfStore spots.old (hollow_store self) }
        ensures spots { AreOfStore spots.new (hollow_store self) }
        ensures count { count_of spots.new ≡ count_with (count_of spots.old) }
        ensures last { titles_of spots.new ≡ titles_with (titles_of spots.old) (hollow_title self) }
    {
        spots.put(self.with(part));
    }
}
