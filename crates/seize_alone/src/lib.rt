//! Whole calls of a slot, made where the slot's pass is alone, are exactly the steps of the model of waiting sets: definitions and laws,
//! with no code. The collector in one caller's hands stands on them.
#![tactic(auto)]

pub mod exactly;
