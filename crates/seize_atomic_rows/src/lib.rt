//! Tests of the atomic cells: what one thread finds, what several threads add up, and that what came out ends once.
#![tactic(auto)]

#[cfg(test)]
mod alone;
#[cfg(test)]
mod ends;
#[cfg(test)]
mod threads;
