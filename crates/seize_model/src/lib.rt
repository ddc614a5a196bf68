//! The model of waiting sets, which says what each call of `seize` does when calls are made one after another, and how the event
//! machine agrees with it: definitions and laws, with no code but what a slot's number is used for. `seize` passes its modules on
//! under their own names.
#![tactic(auto)]

pub mod agreement;
mod kind;
pub mod waiting;

pub use kind::Kind;
