//! The list that threads share, of the machine's events and of uses of blocks' fields, and what their holders know of it.
//!
//! `book` is the list with its keys and passes. Nothing here has bytes: the words by which threads add to the list are those of a crate
//! above, which has the same list.
#![tactic(auto)]

pub mod book;
