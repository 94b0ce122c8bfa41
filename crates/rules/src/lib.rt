// The rules of the book: what each call answers and leaves, and the law over all histories of calls (specs/).

#![tactic(auto)]

mod answers;
mod refusals;
mod worked;

pub use answers::{Clearing, Cut, Netting, Receipt};
pub use refusals::{Layer, Refusal};
pub use worked::worked_by_hand;
