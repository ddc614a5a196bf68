//! Memory reclamation for concurrent data structures by the Hyaline-1 scheme: a collector that threads share, with registrations, guards,
//! and blocks that come into links and out of them. It puts the parts of a collector together (`seize_parts`), and nothing above it knows
//! of words, keys or numbers of blocks. Reclaimers, numbers of slots (`thread_id`), the table (`tls`) and the machine of atomic steps are
//! passed on.
//!
//! A `Collector` has links, and slots that it hands out as `Registration`s, one for each thread. A registration enters, and gives a
//! `LocalGuard`; with that its thread reads links, exchanges what they hold, and retires what came out. `block` has the types that say who
//! may read a value, and who may end it. An `OwnedGuard` needs no registration, and threads share it.
#![tactic(auto)]

mod alone;
pub mod block;
pub mod collector;
pub mod guard;
pub mod registration;

pub use alone::{Alone, Call, Codes, Reply};
pub use block::{Failed, Owned, Shared, Taken, Unlinked};
pub use collector::{Collector, IdSource};
pub use guard::{Guard, GuardCore, LocalGuard, OwnedGuard};
pub use registration::Registration;
pub use seize_guards::parts::Home;
pub use seize_machine::machine;
pub use seize_model::{agreement, waiting};
pub use seize_parts::reclaim::{Boxed, Further, Puts, Reclaim, Watch};
pub use seize_table::{Labelled, Refusal, thread_id, tls};
pub use seize_words::book::{Pass, Seen};
