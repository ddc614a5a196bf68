//! What tests of several crates use: values that count, mark or tell their ends, a collector of such values, and the sign that a test is
//! set up.
#![tactic(auto)]

pub mod marked;
pub mod sign;
pub mod telling;
pub mod values;
