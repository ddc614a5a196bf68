//! The calls of a slot, as what its holder does on the words: how it retires a batch, and how it walks what waited for it. Each is safe
//! code over the calls of `seize_words`, and holds beside whatever others add meanwhile.
//!
//! `holder` is what a slot has for its calls, and these, each from its begin to its return. `batch` is what it keeps of the slot's batch,
//! and `round` goes through that, from block to block. `marking` and `inserting` are the two halves of an attempt, which `attempt` joins.
//! `walking` counts down what waited for the slot, `handing` gives values to reclaimers, and `further` is what these put. `settling` and
//! `draining` are what a call does with its batch and with its queue, and `limit` is how many values may come to a queue. `short` is a
//! retirement with nothing to attempt. `manner` is how a call is made, beside others or by a pass that is alone. `slot` has a holder beside
//! what the slot's passes have seen.
#![tactic(auto)]

mod attempt;
pub mod batch;
mod chain;
pub mod draining;
pub mod further;
pub mod handing;
mod holder;
mod inserting;
mod limit;
pub mod manner;
mod marking;
mod round;
mod settling;
mod short;
pub mod slot;
mod walking;
