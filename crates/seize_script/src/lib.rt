//! Scripts of calls on a collector in one caller's hands, and the program between its arguments and its status. `parser` reads a
//! script by `line` and `call`, `row` has the built-in ones, and `program` runs one. The program's `main` and the tests stand in
//! crates above.
#![tactic(auto)]

mod call;
mod failure;
mod line;
mod name;
mod names;
mod parser;
mod program;
mod row;
mod script;
mod value;

pub use failure::Failure;
pub use program::{LONGEST_SCRIPT, report, run_program};
pub use value::PutInside;
