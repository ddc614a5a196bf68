//! Two places for a value that is known to keep its label and to stay sound, also behind a `&`. A label is a number that proofs alone see,
//! by which a caller tells one value from all others.
//!
//! Only a work has the value: `lent_work` has it done, where the value lies. `lock` is shared by threads, one of which at a time has work
//! done. It is made of a steady cell, whose token lies beside a word in `latch`; `token_lock` waits for the token. `local_lock` is of one
//! thread: its token lies in a `token_place`, which is a `local_cell` whose value a `tag` names.
#![tactic(auto)]

mod latch;
mod lent_work;
mod local_cell;
mod local_lock;
mod lock;
mod tag;
mod token_lock;
mod token_place;

pub use lent_work::LockWork;
pub use local_lock::LocalLock;
pub use lock::Lock;
