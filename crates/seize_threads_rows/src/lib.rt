//! Tests of guards on threads: what readers see while others swap, exchange, retire and refresh; and of threads that register while a
//! reclaimer runs. They stand in a crate of their own, so that they are proved beside the other tests of the collector.
#![tactic(auto)]

#[cfg(test)]
mod any;
#[cfg(test)]
mod exchanging;
#[cfg(test)]
mod own_guards;
#[cfg(test)]
mod refreshing;
#[cfg(test)]
mod shared_guard;
#[cfg(test)]
mod sharing;
#[cfg(test)]
mod signs;
#[cfg(test)]
mod staying;
#[cfg(test)]
mod sums;
#[cfg(test)]
mod swapping;
#[cfg(test)]
mod taking;
#[cfg(test)]
mod turned;
#[cfg(test)]
mod turns;
#[cfg(test)]
mod winning;
