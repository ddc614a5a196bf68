//! Callers of `seize`, as README.md and CALLING.md show them. Each says by its contract what a caller may count on.
#![tactic(auto)]

pub mod auditing;
pub mod cache;
pub mod counters;
pub mod links;
pub mod machine;
pub mod moved;
pub mod nest;
pub mod one_caller;
pub mod reclaimers;
pub mod reclaiming;
pub mod replacing;
pub mod shared;
pub mod table;
pub mod versions;
pub mod watched;
