//! The keys of a book's links, before the links are made. They are `Keys` in the order of the links.
use crate::book::keys::Keys;

/// The rights to the links of a book that were not made yet, from some link on.
#[derive(Drop)]
pub struct LinkKeys {
    /// The rights by themselves, for crates with words.
    pub keys: Keys,
}
