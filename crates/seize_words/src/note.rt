//! Notes: what the holder of the key of a block's values keeps beside the block, in plain memory of its chunk, while others may see the
//! value.
ghost use Rattle.std.specs.Prelude.{◌≡◌};

/// What is noted of a block by its owner of the moment. Who retires a value notes what comes next in its batch, and so whoever is given the
/// batch finds its blocks one after the other; a batch takes no memory.
#[derive(Clone, Copy, PartialEq, Eq, Debug)]
pub struct Note {
    /// The block whose value comes next in the batch, as a link's word shows it: its number and one more, or 0 where none comes.
    pub next: u64,
    /// The number of the slot at which the batch is to be inserted with the block.
    pub slot: usize,
    /// What the owner adds: which reclaimer the value is for.
    pub kept: u64,
}

impl Note {
    /// Nothing is noted.
    pub fn new() -> Note
        ensures { (result.next ≡ 0) × (result.slot ≡ 0) × (result.kept ≡ 0) }
    {
        Note {
            next: 0,
            slot: 0,
            kept: 0,
        }
    }
}
