//! Tests of the collector that threads share: whatever no contract says. They stand in a crate of their own, since a crate with tests is
//! proved twice.
#![tactic(auto)]

#[cfg(test)]
mod guards;
#[cfg(test)]
mod ids;
#[cfg(test)]
mod meeting;
#[cfg(test)]
mod memory;
#[cfg(test)]
mod nested;
#[cfg(test)]
mod numbers;
#[cfg(test)]
mod owned;
#[cfg(test)]
mod owners;
#[cfg(test)]
mod passed_on;
#[cfg(test)]
mod places;
#[cfg(test)]
mod refused;
mod threads;
#[cfg(test)]
mod worked;
