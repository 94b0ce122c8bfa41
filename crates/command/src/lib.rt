// The command file: what a command says, and how it is read off bytes.

#![tactic(auto)]

mod commands;
mod letter;
mod reader;
mod unreadable;

pub use commands::{Command, HOURS_CUT, LIMIT_BYTES, LONGEST_COMMAND, limit};
pub use letter::Letter;
pub use reader::{Found, read};
pub use unreadable::Unreadable;
