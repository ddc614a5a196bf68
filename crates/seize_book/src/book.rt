//! The book: one list of entries, which all threads share, and the rights to add to it. Nothing here has bytes.
//!
//! An entry is an event of the machine, or a use of a field of a block, which is none. `FutureBook` begins the list, and a `Seen` shows
//! that there is one. A `Pass` has seen a beginning of it, and its holder adds entries under its id. A key lets its holder make the
//! entries of what it is the key of, and know what the list says of it, whatever others add: a `SlotKey` those of a slot. An entry by a
//! step on a word is added in that very step; a private event, which no word shows, by a call that does nothing else.

mod bare_key;
mod book_keys;
mod chunk_keys;
mod count_key;
mod field_key;
mod future_book;
mod head_key;
mod key_without_note;
mod keys;
mod link_keys;
mod numbers_key;
mod pass;
mod permit;
mod porter;
mod rights;
mod seen;
mod sizes;
mod slot_key;
mod slot_keys;
mod total_key;
mod value_key;
mod value_keys;

pub use bare_key::BareKey;
pub use book_keys::BookKeys;
pub use chunk_keys::ChunkKeys;
pub use count_key::CountKey;
pub use field_key::FieldKey;
pub use future_book::FutureBook;
pub use head_key::HeadKey;
pub use keys::Keys;
pub use link_keys::LinkKeys;
pub use numbers_key::NumbersKey;
pub use pass::Pass;
pub use permit::{Chosen, Condition, Permit, Permits, Permitted};
pub use porter::{Porter, Stay};
pub use seen::{Seen, Storage};
pub use sizes::Sizes;
pub use slot_key::SlotKey;
pub use slot_keys::SlotKeys;
pub use total_key::TotalKey;
pub use value_key::ValueKey;
pub use value_keys::ValueKeys;
