// A participant's bids in one auction, and what the seal made of them.
ghost use Rattle.std.specs.Prelude.{◌≡◌, ◌≤◌, length, if◌then◌else◌, is_ok};
ghost use Rattle.roll.specs.Rolls.{Ordered};
ghost use Rattle.auction.specs.Bids.{bids_of, kept_of, dearer, has_place, mw_all, with_bid, no_bids};
ghost use Rattle.auction.specs.Charge.{worst_charge};
ghost use Rattle.auction.specs.Seal.{sealed, all_sealed, LongestFront};
ghost use Rattle.auction.specs.Rivals.{PaysAtMost, MadeToPay, RightlyLeftOut};

use super::bids::{Bid, Bids, MOST_BIDS};
use super::products::Product;
use numbering::PARTICIPANTS;
use roll::{Full, Roll, change_each};

// The first `count` places hold bids, in their order; the seal kept the first `kept` of these at the credit limit that
// it found, and holds a sum for them. (Places and a count, since a sheet is copied with the auction that has it: a list
// of the library's is not `Copy`.)
#[derive(Clone, Copy, PartialEq, Eq, Debug)]
pub struct Sheet {
    pub bids: [Bid; MOST_BIDS],
    pub count: usize,
    pub kept: usize,
    pub held: u64,
    pub limit: u64,
}

impl Sheet {
    // A sheet without bids.
    pub fn empty() -> Sheet
        ensures { result ≡ no_bids }
    {
        Sheet {
            bids: [Bid { price: 0, mw: 0 }; MOST_BIDS],
            count: 0,
            kept: 0,
            held: 0,
            limit: 0,
        }
    }

    // Puts a bid behind those level with it, unless four stand there already.
    pub fn place(&mut self, bid: Bid) -> Result<(), Full>
        ensures value { is_ok result ≡ has_place self.old }
        ensures after { self.new ≡ (if is_ok result then with_bid bid self.old else self.old) }
        ensures order { Ordered dearer (bids_of self.old) → Ordered dearer (bids_of self.new) }
    {
        if self.count >= MOST_BIDS {
            return Err(Full);
        }
        let mut roll = Roll::over(&mut self.bids, self.count);
        roll.insert(bid)?;
        self.count = roll.len();
        Ok(())
    }

    // The bids that were placed, with their bound.
    fn all(&self) -> Bids<'_>
        ensures { result.list.now ≡ bids_of self.now }
    {
        Bids {
            list: &self.bids[..self.count.min(MOST_BIDS)],
        }
    }

    // The bids that take part in the award, with their bound.
    pub(crate) fn front(&self) -> Bids<'_>
        ensures { result.list.now ≡ kept_of self.now }
    {
        self.all().first(self.kept)
    }

    // The bids that were placed.
    pub fn placed(&self) -> &[Bid]
        ensures value { result.now ≡ bids_of self.now }
        ensures within { length result.now ≤ 4 }
    {
        self.all().list
    }

    // The bids that take part in the award.
    pub fn kept_bids(&self) -> &[Bid]
        ensures value { result.now ≡ kept_of self.now }
        ensures within { length result.now ≤ 4 }
    {
        self.front().list
    }

    // The MW of all bids.
    pub fn mw(&self) -> u32
        ensures value { result ≡ mw_all (bids_of self.now) }
        ensures within { result ≤ 262140 }
    {
        self.all().mw_from(0)
    }

    // The most that the bids can cost, whatever the others bid.
    pub fn worst_charge(&self, product: Product) -> u64
        ensures value { result ≡ worst_charge product (bids_of self.now) }
        ensures enough { PaysAtMost product (bids_of self.now) result }
        ensures exact { MadeToPay product (bids_of self.now) result }
    {
        self.all().worst_charge(product)
    }

    // Keeps the longest front of the bids within the credit limit, and holds the worst charge of these.
    pub fn seal(&mut self, product: Product, limit: u64)
        ensures after { self.new ≡ sealed limit product self.old }
        ensures longest { LongestFront limit product (bids_of self.old) self.new.kept }
        ensures enough { PaysAtMost product (kept_of self.new) self.new.held }
        ensures exact { MadeToPay product (kept_of self.new) self.new.held }
        ensures rightly { RightlyLeftOut limit product (bids_of self.old) }
    {
        self.kept = self.all().kept_count(product, limit);
        self.held = self.front().worst_charge(product);
        self.limit = limit;
    }
}

// Seals the sheet of every participant at its own credit limit.
pub fn seal_all(sheets: &mut [Sheet; PARTICIPANTS], product: Product, limits: &[u64; PARTICIPANTS])
    ensures { sheets.new ≡ all_sealed product limits.now sheets.old }
{
    change_each(sheets, limits, |mut sheet, limit| {
        sheet.seal(product, limit);
        sheet
    });
}
