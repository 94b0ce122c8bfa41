// What the book numbers: participants, auctions and the hours of delivery.

#![tactic(auto)]

mod hours;
mod numbers;

pub use hours::{HOURS, Span};
pub use numbers::{
    AUCTIONS, AuctionNumber, NoAuction, NoParticipant, NoSuchNumber, Number, PARTICIPANTS,
    Participant,
};
