//! What makes the parts of a chunk: its header and its owner's part. It uses no other module; `row` makes the chunks by it.
ghost use Rattle.std.specs.Prelude.{◌≡◌, ℕ};
ghost use Rattle.seize_table.specs.Pairs.{of_family};

use seize_table::Labelled;

/// Makes what a chunk has from the beginning on: its header, and its owner's part, which has the header's label. All labels that a maker
/// makes are of one family.
pub trait Maker<H: Labelled, P: Labelled> {
    ghost family: { Self → ℕ };

    /// Both for the chunk of this number.
    fn make(&self, number: usize) -> (H, P)
        ensures same { P.label result.1 ≡ H.label result.0 }
        ensures kin { of_family (family self.now) (H.label result.0) };
}

/// Makes the chunks of a store in which neither headers nor owners' parts are wanted. They are of the family 0.
#[derive(Drop, Clone, Copy)]
pub struct Empty;

impl Maker<(), ()> for Empty {
    ghost family = { λ _. 0 };

    fn make(&self, _number: usize) -> ((), ()) {
        ((), ())
    }
}
