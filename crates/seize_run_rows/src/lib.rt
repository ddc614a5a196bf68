//! Tests of the program: what it prints for each row and script, what it says on errors, and its status. They stand in a crate of
//! their own, since a crate with tests is proved twice.
#![tactic(auto)]

#[cfg(test)]
mod program;
