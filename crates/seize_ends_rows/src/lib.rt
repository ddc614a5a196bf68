//! Tests of what ends, and of what a reclaimer has: as a collector is dropped, in `reclaim_all`, as slots end, and where threads forget or
//! lose what they have. They stand in a crate of their own, so that they are proved beside the other tests of the collector.
#![tactic(auto)]

#[cfg(test)]
mod crowd;
#[cfg(test)]
mod ending;
#[cfg(test)]
mod handed;
#[cfg(test)]
mod kinds;
#[cfg(test)]
mod left;
#[cfg(test)]
mod reclaiming;
#[cfg(test)]
mod ways;
