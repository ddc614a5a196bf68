//! A list whose nodes lie in a store: a value that holds a block of its own type.
use crate::values::Counted;
use seize_store::Owned;

/// A node that counts its end, with the rest of its list.
#[derive(Drop)]
pub(crate) struct Node<'a> {
    pub(crate) counted: Counted<'a>,
    pub(crate) next: Option<Owned<u64, (), Node<'a>>>,
}
