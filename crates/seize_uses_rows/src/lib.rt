//! Tests of the callers in `seize_uses`. They stand in a crate of their own, since a crate with tests is proved twice.
#![tactic(auto)]

#[cfg(test)]
mod further;
#[cfg(test)]
mod ruled;
#[cfg(test)]
mod tests;
