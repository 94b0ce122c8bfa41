// Rolls: records of any kind that stand by an order of their own, in places that their owner lends.

#![tactic(auto)]

mod changing;
mod places;
mod record;
mod rolls;
mod spend;

pub use changing::change_each;
pub use places::{insert_in, place_behind, place_of};
pub use record::{Ranked, Spendable};
pub use rolls::{Full, Roll};
pub use spend::{left_over, spend_in};

#[cfg(test)]
mod tests;
