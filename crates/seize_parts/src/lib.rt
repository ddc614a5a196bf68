//! The parts of a collector, each in a place of its own: blocks in one owner's hands, reclaimers, the numbers of slots, what lies in the
//! place of a slot, and the shelves of what was forgotten. They stand on the calls of a slot (`seize_calls`). Registrations and guards
//! (`seize_guards`) work on them; `seize` puts all together, and passes on what its users need.
#![tactic(auto)]

pub mod alone;
pub mod block;
pub mod ender;
pub mod ending;
pub mod ends;
pub mod numbers;
pub mod reclaim;
pub mod reservation;
pub mod shelf;
