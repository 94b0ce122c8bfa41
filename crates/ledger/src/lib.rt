// The ledger: auctions with their stages and sheets, rights and accounts, put together.

#![tactic(auto)]

mod auctions;
mod awarding;
mod bidding;
mod closing;
mod crediting;
mod curtailing;
mod ledgers;
mod limits;
mod moving;
mod settling;
mod stages;
mod views;

pub use auctions::{Auction, Direction, Stage};
pub use ledgers::Ledger;
pub use numbering::{AuctionNumber, Participant, Span};
pub use stages::{Turn, WrongStage};
