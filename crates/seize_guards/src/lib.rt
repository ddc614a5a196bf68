//! Registrations and guards: how a thread comes to a slot, what it reads and exchanges links with, and how it retires what came out. They
//! stand on the parts of a collector (`seize_parts`), which a collector lends them; `seize` passes them on to users.
#![tactic(auto)]

pub mod block;
pub mod guard;
pub mod holders;
pub mod parts;
pub mod registration;
pub mod taking;
pub mod works;
