//! A numbered store of blocks. Words can hold a block's number in place of a pointer, a look-up leads from the number to the block,
//! and memory is asked for only where the store grows. It knows nothing of slots and events; the collector stands on it.
#![tactic(auto)]

mod bare;
mod block;
mod chunk;
mod family;
mod hollow;
mod identity;
mod kin;
mod lender;
mod loans;
mod look_up;
mod maker;
mod once_of;
mod owned;
mod row;
mod row_token;
mod spot;
mod store;
mod strip;

pub use bare::Bare;
pub use family::Family;
pub use hollow::Hollow;
pub use look_up::{Place, TypedRowToken};
pub use maker::{Empty, Maker};
pub use owned::{Owned, apart};
pub use row_token::RowToken;
pub use seize_table::Labelled;
pub use spot::{SPOTS, Spots};
pub use store::Store;
