// Commands as lines of text: a letter and its operands in decimal, such as `D 1 1 100000 9999`.

#![tactic(auto)]

mod line;
mod packet;
mod usage;
mod widths;
mod words;

pub use line::{Expected, encode_line};
pub use packet::Packet;
