//! Tests of the event machine: the worked runs through its calls, and its facts as a crate that builds on it uses them. They stand in
//! a crate of their own, since a crate with tests is proved twice.
#![tactic(auto)]

#[cfg(test)]
mod interface;
#[cfg(test)]
mod machine;
#[cfg(test)]
mod refused;
