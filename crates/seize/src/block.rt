//! Blocks: each holds one value, from its making until it ends. These types say who may read the value and who may end it: an `Owned` block
//! is in its owner's hands, a `Shared` one was found in a link, and an `Unlinked` one is in no link, and is to be retired. A `Taken` one is
//! so too, and borrows nothing, while its collector is in one caller's hands.
mod taken;

pub use seize_guards::block::{Failed, Owned, Shared, Unlinked};
pub(crate) use taken::Content;
pub use taken::Taken;
