//! Tests of the parts below the collector: how many bytes words and tokens have, and how many guards a slot may have.
#![tactic(auto)]

#[cfg(test)]
mod guards;
pub mod place;
#[cfg(test)]
mod sizes;
