//! The right to change a content's stage, and what a content begins with. Nothing here has bytes.
ghost use Rattle.std.specs.Prelude.{◌≡◌, ℕ};
ghost use denote.Sharing.{nothing};
ghost use Rattle.seize_content.specs.Contents.{named, ticket_owns};
ghost use Rattle.seize_content.specs.Stages.{Stage, held, stage_coded};

use std::marker::{Model, PhantomData};

/// Who has it changes the stage of one content, and knows it. It knows nothing of the value's type.
#[derive(Drop)]
pub struct Ticket {
    /// It has no bytes, as that of a sight.
    pub marker: PhantomData<()>,
    /// Which content it is of.
    pub ghost name: { ℕ },
    /// The stage that the content is at.
    pub ghost says: { Stage } by { stage_coded },
}

impl Model for Ticket {
    ghost also_owns = { λ t. ticket_owns t.name t.says };

    ghost also_shares = { λ _ _ κ. nothing κ };
}

/// What a content begins with beside its ticket. Whoever has it shows what is lent there, as a store does for each of its chunks.
#[derive(Drop)]
pub struct Start {
    /// It has no bytes, as a ticket.
    pub marker: PhantomData<()>,
    /// Which content will begin with it.
    pub ghost name: { ℕ },
}

impl Model for Start {
    ghost also_owns = { λ s. named s.name held };
}

impl Start {
    /// One of a name that nothing else has, and its ticket, which says that what is lent there is in its owner's hands.
    pub fn new() -> (Start, Ticket)
        ensures { (result.1.name ≡ result.0.name) × (result.1.says ≡ held) }
    {
        let ticket = Ticket {
            marker: PhantomData,
        };
        let start = Start {
            marker: PhantomData,
        };
        (start, ticket)
    }
}

unsafe impl Send for Ticket {}

unsafe impl Sync for Ticket {}

unsafe impl Send for Start {}

unsafe impl Sync for Start {}
