//! Tests of the numbers and of the table: worked rows, and whatever no contract says, above all of threads. They stand in a crate
//! of their own, since a crate with tests is proved twice.
#![tactic(auto)]

#[cfg(test)]
mod table;
#[cfg(test)]
mod tokens;
