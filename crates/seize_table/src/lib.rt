//! Numbers of slots and the table that slots stand in, the lowest layer of `seize`, which passes these modules on under their own
//! names. The refusals stand here too, since every layer answers them.
#![tactic(auto)]

mod labelled;
mod refusal;
pub mod thread_id;
pub mod tls;

pub use labelled::Labelled;
pub use refusal::Refusal;
