//! Tests of the store: what no contract says, above all of threads and of memory. They stand in a crate of their own, since a crate
//! with tests is proved twice.
#![tactic(auto)]

#[cfg(test)]
mod hollow;
#[cfg(test)]
mod lent;
mod loans;
#[cfg(test)]
mod lookups;
mod node;
#[cfg(test)]
mod parts;
#[cfg(test)]
mod store;
mod taken;
#[cfg(test)]
mod threads;
mod values;
