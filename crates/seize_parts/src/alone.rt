//! A collector in one caller's hands: calls on what lies in the place of a slot, what is laid on shelves and taken from there, and what
//! reclaiming all does with what reclaimers put.
pub(crate) mod apart;
pub(crate) mod aside;
pub mod calls;
pub(crate) mod draining;
pub mod place;
pub mod shelving;
mod tells;
