// The book: a ledger over any kind of collateral.

#![tactic(auto)]

mod asking;
mod auctioning;
mod books;
mod covering;
mod moving;
mod opening;
mod paying;

pub use books::Book;
pub use rules::{Clearing, Cut, Layer, Netting, Receipt, Refusal, worked_by_hand};
