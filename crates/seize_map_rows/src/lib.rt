//! Tests of the map: what one thread finds, what several threads put in, and that each entry ends once.
#![tactic(auto)]

#[cfg(test)]
mod alone;
#[cfg(test)]
mod ends;
#[cfg(test)]
mod refused;
#[cfg(test)]
mod sessions;
#[cfg(test)]
mod threads;
