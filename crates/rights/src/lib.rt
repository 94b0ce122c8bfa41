// Rights to transmit, by hour, auction and participant: functions over the hours, which a ledger keeps as a plain array.
// Those over a span are one loop each, and differ in what its line does with an hour.

#![tactic(auto)]

mod awards;
mod cancels;
mod cuts;
mod hours;
mod returns;
mod transfers;

pub use awards::hold_awarded;
pub use cancels::give_back;
pub use cuts::{CUT_HOURS, LIMIT_BYTES, curtail, cut_hour, worked_by_hand};
pub use hours::Hour;
pub use numbering::{AUCTIONS, AuctionNumber, HOURS, PARTICIPANTS, Participant, Span};
pub use returns::{return_out, waits};
pub use transfers::{holds_through, transfer};

#[cfg(test)]
mod tests;
