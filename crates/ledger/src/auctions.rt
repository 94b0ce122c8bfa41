// An auction, from its opening to its award.
ghost use Rattle.std.specs.Prelude.{◌≡◌};
ghost use Rattle.ledger.specs.Auctions.{new_auction};
ghost use Rattle.ledger.specs.Sound.{SoundAuction};

use auction::{Product, Sheet};
use numbering::{PARTICIPANTS, Span};
use rights::Hour;

// From one zone to another: 1 to 2 and 2 to 1 are two directions.
#[derive(Clone, Copy, PartialEq, Eq, Debug)]
pub struct Direction {
    pub from: u8,
    pub to: u8,
}

#[derive(Clone, Copy, PartialEq, Eq, Debug)]
pub enum Stage {
    Open,
    Sealed,
    Awarded { price: u32 },
    Cancelled,
}

// Delivery begins with the hour `first`. `returned` has what waits returned into the auction, by the auction left and
// the participant.
#[derive(Clone, Copy, PartialEq, Eq, Debug)]
pub struct Auction {
    pub direction: Direction,
    pub first: u8,
    pub product: Product,
    pub capacity: u16,
    pub stage: Stage,
    pub sheets: [Sheet; PARTICIPANTS],
    pub returned: Hour,
}

impl Auction {
    // An auction that is just opened: no bids, and nothing returned into it.
    pub fn new(direction: Direction, first: u8, product: Product, capacity: u16) -> Auction
        ensures { result ≡ new_auction direction first product capacity }
    {
        Auction {
            direction,
            first,
            product,
            capacity,
            stage: Stage::Open,
            sheets: [Sheet::empty(); PARTICIPANTS],
            returned: Hour::empty(),
        }
    }

    // Its hours of delivery.
    pub fn span(&self) -> Span
        requires { SoundAuction self.now }
        ensures first { result.first ≡ self.now.first }
        ensures hours { result.hours ≡ self.now.product.hours }
    {
        Span {
            first: usize::from(self.first),
            hours: usize::from(self.product.hours),
        }
    }
}
