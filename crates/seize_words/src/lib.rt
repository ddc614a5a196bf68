//! The words that threads change by atomic steps, each of which is an entry in the list of the crate below.
//!
//! They are those of `reservation`, `link`, `batch`, `header` and `total`. `chunk` and `blocks` have them in a store, by the numbers of
//! blocks, and `slots` in a table, by the numbers of slots; `words` joins these and the links in a row, all of one book. What the holder of
//! a block's key notes beside it is a `note`, in plain memory. Activations and what readers see (`glimpse`) have no bytes, as has nothing
//! of the list itself (`book`).
#![tactic(auto)]

pub mod activation;
pub mod batch;
pub mod blocks;
pub mod chunk;
pub mod glimpse;
pub mod header;
pub mod lasting;
pub mod link;
pub mod note;
pub mod permits;
pub mod reservation;
pub mod slots;
pub mod total;
mod word;
pub mod words;

pub use seize_book::book;
