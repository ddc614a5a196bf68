//! Registrations with a `Collector`: a thread has its slot by one.
use crate::collector::Collector;
use seize_parts::reclaim::Boxed;

/// A slot of a collector, in the hands of one thread.
pub type Registration<'c, T, R = Boxed> = seize_guards::registration::Registration<
    'c,
    T,
    R,
    Collector<T, R>,
>;
