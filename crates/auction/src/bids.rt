// A bid, its order, and how many a participant may place in an auction.
ghost use Rattle.std.specs.Prelude.{◌≡◌, ◌≤◌, length, take};
ghost use Rattle.auction.specs.Bids.{dearer};
ghost use Rattle.std.proofs.Common.{rules};

use roll::Ranked;

// The most bids that a participant may place in one auction.
pub const MOST_BIDS: usize = 4;

// MW at a price, in cents per MW and hour.
#[derive(Clone, Copy, PartialEq, Eq, Debug)]
pub struct Bid {
    pub price: u32,
    pub mw: u16,
}

// Bids stand by higher price.
impl Ranked for Bid {
    ghost first = { dearer };

    ghost either = { Prim.search rules };

    ghost carries = { Prim.search rules };

    fn comes_first(&self, other: &Bid) -> bool {
        self.price >= other.price
    }
}

// The bids that a participant placed in one auction, or a front of them.
#[derive(Clone, Copy)]
pub(crate) struct Bids<'a> {
    pub list: &'a [Bid],
    ghost few: { length list.now ≤ 4 },
}

impl<'a> Bids<'a> {
    // The first of these bids, so many as there are up to a number.
    pub(crate) fn first(self, number: usize) -> Bids<'a>
        ensures { result.list.now ≡ take number self.entry.list.now }
    {
        Bids {
            list: &self.list[..number.min(self.list.len())],
        }
    }
}
