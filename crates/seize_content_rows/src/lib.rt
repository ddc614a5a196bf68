//! Callers of cells, whose token goes from owner to owner, or is forgotten.
#![tactic(auto)]

#[cfg(test)]
mod cells;
#[cfg(test)]
mod tests;
#[cfg(test)]
mod values;
