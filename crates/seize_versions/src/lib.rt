//! A cell of versions that never goes back, on a link of a collector: each change puts a version there whose number is greater. Readers
//! wait for nobody. What a reader finds is by contract no older than what it found before.
#![tactic(auto)]

pub mod reader;
mod version;
pub mod versions;

pub use reader::Reader;
use seize::Collector;
pub use version::{ByNumber, Named, NotPublished, Version};

/// A cell of versions on a link of a collector. Code over any `G: Guard<Version<T>>` takes `versions::Versions<'_, T, G::At>`.
pub type Versions<'c, T, R = ByNumber> = versions::Versions<'c, T, Collector<Version<T>, R>>;
