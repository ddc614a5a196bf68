//! Tests of registrations, guards and passes that were forgotten or lost: what comes back, and what never does. They stand in a crate of
//! their own, so that they are proved beside the other tests of the collector.
#![tactic(auto)]

#[cfg(test)]
mod forgotten;
#[cfg(test)]
mod lost;
#[cfg(test)]
mod taken_over;
