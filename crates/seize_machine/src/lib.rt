//! The scheme as a machine of atomic steps, with its laws: the layer of `seize` that says what is right in every interleaving. `seize`
//! passes its module on under its own name.
#![tactic(auto)]

pub mod machine;
