//! Loans of values that are not copied, and cells that threads share. What is lent lies in its place while its owner has it in hand, while
//! readers see it, and until it comes back. The place is a *content*, which a crate above keeps, as a store does for each of its chunks.
//!
//! What the holders of a content have has no bytes: `ticket` is the right to change the content's stage, and `loan` what is left with the
//! lender and what a reader has.
//! `token_cell` is a place of another kind: its value lies in it and is never lent, and belongs to whoever has its token. `steady_cell`
//! is such a place whose value stays what it is known for, also where its token was forgotten.
#![tactic(auto)]

mod loan;
mod steady_cell;
mod ticket;
mod token_cell;

pub use loan::{Pool, Sight};
pub use steady_cell::{Steady, SteadyCell};
pub use ticket::{Start, Ticket};
pub use token_cell::{CellToken, TokenCell};
