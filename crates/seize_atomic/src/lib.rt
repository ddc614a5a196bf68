//! Atomic cells that many threads read, replace and alter, on the guards of a collector of `seize`. Cell i is link i of the collector.
//! What comes out of a cell is retired by the call that takes it out.
#![tactic(auto)]

mod attempt;
pub mod cells;

pub use cells::NotAltered;
use seize::{Boxed, Collector};

/// The links of a collector, as cells. Code over any `G: Guard<T>` takes `cells::Cells<'_, T, G::At>`.
pub type Cells<'c, T, R = Boxed> = cells::Cells<'c, T, Collector<T, R>>;
