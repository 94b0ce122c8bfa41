// The line that answers a command, written into a lent part of the page.

#![tactic(auto)]

mod page;
mod text;
mod writer;

pub use page::put_text;
pub use text::append;
pub use writer::{Line, Numbers};
