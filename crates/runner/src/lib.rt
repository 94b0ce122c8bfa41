// Runs a command file over a book: bytes in, lines out.

#![tactic(auto)]

mod answers;
mod calls;
mod files;
mod outcomes;
mod running;

pub use files::{run, run_file};
pub use outcomes::{Outcome, Ran, Refused};
pub use running::{MOST_INPUT, run_one};
