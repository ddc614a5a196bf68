//! What a list of spots does. The list is that of `spot`; `owned` puts spots into it, and `store` takes them out.
ghost use Rattle.std.specs.Prelude.{◌≡◌, IfOk};
ghost use Rattle.seize_store.specs.Named.{AreOfStore, count_of, count_with, is_empty_list, titles_of, titles_with};
ghost use Rattle.seize_store.specs.Parts.{spot_store, spot_title};

use super::{SPOTS, Spot, Spots};
use seize_table::Labelled;
use std::alloc::{AllocError, Global};

impl<H, P: Labelled + Drop, T> Spots<H, P, T> {
    /// An empty list, with all the room that it ever takes.
    ///
    /// # Errors
    ///
    /// Where that memory is refused.
    pub fn new(alloc: Global) -> Result<Spots<H, P, T>, AllocError>
        ensures { IfOk result (λ spots. is_empty_list spots) }
    {
        Ok(Spots {
            list: Vec::with_capacity(alloc, SPOTS)?,
        })
    }

    // One more spot. Where the list is full, half of it goes back first.
    pub(crate) fn put(&mut self, spot: Spot<H, P, T>)
        requires { AreOfStore self.old (spot_store spot) }
        ensures store { AreOfStore self.new (spot_store spot) }
        ensures count { count_of self.new ≡ count_with (count_of self.old) }
        ensures last { titles_of self.new ≡ titles_with (titles_of self.old) (spot_title spot) }
    {
        if self.list.len() == SPOTS {
            self.list.truncate(SPOTS / 2);
        }
        self.list.push_reserved(spot);
    }
}
