// One auction from bids to dues: the worst charge, the cut at the seal, the price, the awards.

#![tactic(auto)]

mod awards;
mod bids;
mod charges;
mod prices;
mod products;
mod shares;
mod sheets;

pub use awards::{Outcome, award, worked_by_hand};
pub use bids::{Bid, MOST_BIDS};
pub use numbering::PARTICIPANTS;
pub use prices::marginal_price;
pub use products::Product;
pub use roll::Full;
pub use sheets::{Sheet, seal_all};
