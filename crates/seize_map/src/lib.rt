//! A hash map that threads share, on the cells of a collector. Each call that returns an answer has by contract one moment of the list
//! of all events: a read of a bucket, or an exchange of it.
#![tactic(auto)]

mod bucket;
pub mod map;
pub mod session;
mod settled;

pub use bucket::{Bucket, Entry};
use seize::{Boxed, Collector};
pub use settled::NotChanged;

/// A map that threads share, on the links of a collector. Code over any `G: Guard<Bucket<K, V>>` takes `map::HashMap<'_, K, V, S, G::At>`.
pub type HashMap<'c, K, V, S, R = Boxed> = map::HashMap<'c, K, V, S, Collector<Bucket<K, V>, R>>;

/// A thread's registration with the collector of a map.
pub type Handle<'m, 'c, K, V, S, R = Boxed> = session::Handle<
    'm,
    'c,
    K,
    V,
    S,
    R,
    Collector<Bucket<K, V>, R>,
>;

/// A guard for the calls of a map, with a pass.
pub type Session<'h, 'c, K, V, S, R = Boxed> = session::Session<
    'h,
    'c,
    K,
    V,
    S,
    R,
    Collector<Bucket<K, V>, R>,
>;
