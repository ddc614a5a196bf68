//! Guards of a `Collector`: with one, a thread reads links, exchanges what they hold, and retires what came out.
use crate::collector::Collector;
pub use seize_guards::guard::Guard;
use seize_parts::reclaim::Boxed;

/// What guards of both kinds have in common. Code over any `G: Guard<T>` takes one with `C: Home<T>`, which is `G::At`.
pub type GuardCore<'c, T, R = Boxed, C = Collector<T, R>> = seize_guards::guard::GuardCore<
    'c,
    T,
    R,
    C,
>;

/// A guard of a registration.
pub type LocalGuard<'r, 'c, T, R = Boxed> = seize_guards::guard::LocalGuard<
    'r,
    'c,
    T,
    R,
    Collector<T, R>,
>;

/// A guard with a slot of its own, which threads share.
pub type OwnedGuard<'c, T, R = Boxed> = seize_guards::guard::OwnedGuard<'c, T, R, Collector<T, R>>;
