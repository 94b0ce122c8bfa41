// What stands in an auction, by its number and a participant's.
ghost use Rattle.std.specs.Prelude.{◌≡◌, ◌≤◌, not, ◌||◌};
ghost use Rattle.auction.specs.Bids.{bids_of, mw_all};
ghost use Rattle.auction.specs.Charge.{worst_charge};
ghost use Rattle.ledger.specs.Auctions.{is_awarded, is_open, is_sealed, outside, same_way};
ghost use Rattle.ledger.specs.Ledgers.{auction_at, sheet_at};

use super::auctions::Stage;
use super::ledgers::Ledger;
use numbering::{AuctionNumber, Participant};

impl Ledger {
    // Whether it takes bids. (Each stage is asked for by a name of its own, as the rules ask.)
    pub fn is_open(&self, a: AuctionNumber) -> bool
        ensures { result ≡ is_open (auction_at self.now a.number).stage }
    {
        matches!(self.auction(a).stage, Stage::Open)
    }

    // Whether it waits for its award.
    pub fn is_sealed(&self, a: AuctionNumber) -> bool
        ensures { result ≡ is_sealed (auction_at self.now a.number).stage }
    {
        matches!(self.auction(a).stage, Stage::Sealed)
    }

    // Whether it may still be cancelled.
    pub fn is_pending(&self, a: AuctionNumber) -> bool
        ensures { result ≡ (is_open (auction_at self.now a.number).stage || is_sealed (auction_at self.now a.number).stage) }
    {
        matches!(self.auction(a).stage, Stage::Open | Stage::Sealed)
    }

    // Whether it has its price.
    pub fn is_awarded(&self, a: AuctionNumber) -> bool
        ensures { result ≡ is_awarded (auction_at self.now a.number).stage }
    {
        matches!(self.auction(a).stage, Stage::Awarded { .. })
    }

    // The MW that a participant bids in an auction.
    pub fn mw_bid(&self, p: Participant, a: AuctionNumber) -> u32
        ensures value { result ≡ mw_all (bids_of (sheet_at self.now a.number p.number)) }
        ensures within { result ≤ 262140 }
    {
        self.sheet(p, a).mw()
    }

    // The worst charge of a participant's bids in an auction.
    pub fn worst_charge(&self, p: Participant, a: AuctionNumber) -> u64
        ensures { result ≡ worst_charge (auction_at self.now a.number).product (bids_of (sheet_at self.now a.number p.number)) }
    {
        let product = self.auction(a).product;
        self.sheet(p, a).worst_charge(product)
    }

    // Whether an auction delivers in all these hours. (Two numbers: a span would ask that they lie within the 192.)
    pub fn delivers(&self, a: AuctionNumber, first: u8, hours: u8) -> bool
        ensures { result ≡ not (outside first hours (auction_at self.now a.number).first (auction_at self.now a.number).product.hours) }
    {
        let auction = self.auction(a);
        let from = usize::from(auction.first);
        let end = from + usize::from(auction.product.hours);
        usize::from(first) >= from && usize::from(first) + usize::from(hours) <= end
    }

    // Whether two auctions are of one direction.
    pub fn same_way(&self, a: AuctionNumber, b: AuctionNumber) -> bool
        ensures { result ≡ same_way (auction_at self.now a.number).direction (auction_at self.now b.number).direction }
    {
        self.auction(a).direction == self.auction(b).direction
    }
}
