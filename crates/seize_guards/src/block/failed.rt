//! What a lost exchange leaves.
use crate::block::{Owned, Shared};

/// What is had when a link did not hold what an exchange compared.
#[derive(Drop)]
pub struct Failed<'g, T: Drop> {
    /// What the link held.
    pub found: Option<Shared<'g, T>>,
    /// The block that was to go in, with its content.
    pub new: Option<Owned<T>>,
}
