//! Tests of cells of versions: what one thread finds, the last number, what readers see while others publish, refused memory, and that each
//! value ends once.
#![tactic(auto)]

#[cfg(test)]
mod alone;
#[cfg(test)]
mod ends;
#[cfg(test)]
mod last;
#[cfg(test)]
mod refused;
#[cfg(test)]
mod threads;
