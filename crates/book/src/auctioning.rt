// Auctions opened, bid in and sealed.
ghost use Rattle.std.specs.Prelude.{◌≡◌, ◌+◌, ◌<◌, true, false, IfOk, IfErr};
ghost use Rattle.ledger.specs.Limits.{all_limits};
ghost use Rattle.rules.specs.Calls.{award_auction, cancel_auction, open_auction, place_bid, seal_auction};
ghost use Rattle.book.specs.Books.{moment};
ghost use Rattle.rules.specs.declared.refusals.Refusal.TheVariants.{Zone};
ghost use Rattle.rules.specs.Steps.{Step, bad_zones, direction_of};

use super::books::Book;
use auction::{Bid, MOST_BIDS, Product};
use collateral::kind::Collateral;
use ledger::{Auction, Direction};
use numbering::{AUCTIONS, HOURS, PARTICIPANTS, Participant};
use rules::{Clearing, Cut, Receipt, Refusal};
use std::array;

// The most MW of a bid, a transfer, a return or a capacity. (Tested in a line wherever it stands in the order of a
// call's refusals.)
pub(crate) const MOST_MW: u16 = 5_000;

// The highest price of a bid, in cents per MW and hour.
const MOST_PRICE: u32 = 1_000_000;

// Zones are numbered from 1 to 3.
const ZONES: u8 = 3;

// The direction from one zone to another.
pub(crate) fn direction(from: u8, to: u8) -> Result<Direction, Refusal>
    ensures ok { IfOk result (λ d. (d ≡ direction_of from to) × (bad_zones from to ≡ false)) }
    ensures err { IfErr result (λ e. (e ≡ Zone) × (bad_zones from to ≡ true)) }
{
    if from < 1 || from > ZONES || to < 1 || to > ZONES || from == to {
        return Err(Refusal::Zone);
    }
    Ok(Direction { from, to })
}

// The participant that stands at a place in a list of all. (Here, since a number with another bound may not fit a byte.)
fn participant_at(place: usize) -> Participant
    requires { place < 12 }
    ensures { result.number ≡ place + 1 }
{
    Participant {
        number: place as u8 + 1,
    }
}

impl<C: Collateral> Book<C> {
    // Opens an auction; answers its number.
    pub fn open(
        &mut self,
        from: u8,
        to: u8,
        first: u8,
        hours: u8,
        capacity: u16,
    ) -> Result<u64, Refusal>
        ensures { Step (open_auction from to first hours capacity) (moment C.cover C.verdict self.old) result (moment C.cover C.verdict self.new) }
    {
        let direction = direction(from, to)?;
        if hours < 1 || usize::from(first) + usize::from(hours) > HOURS {
            return Err(Refusal::Hours);
        }
        if capacity < 1 || capacity > MOST_MW {
            return Err(Refusal::Amount);
        }
        if self.ledger.opened >= AUCTIONS {
            return Err(Refusal::Full);
        }
        self.ledger.open(Auction::new(direction, first, Product { hours }, capacity));
        Ok(self.ledger.opened as u64)
    }

    // Places a bid; answers its receipt, the worst charge of the participant's bids there, and its credit limit.
    pub fn bid(&mut self, p: u8, a: u8, price: u32, mw: u16) -> Result<Receipt, Refusal>
        ensures { Step (place_bid p a price mw) (moment C.cover C.verdict self.old) result (moment C.cover C.verdict self.new) }
    {
        let p = Participant::try_from(p)?;
        let a = self.opened(a)?;
        if !self.ledger.is_open(a) {
            return Err(Refusal::Stage);
        }
        if mw < 1 || mw > MOST_MW || price > MOST_PRICE {
            return Err(Refusal::Amount);
        }
        if self.ledger.sheet(p, a).count >= MOST_BIDS {
            return Err(Refusal::Full);
        }
        let capacity = self.ledger.auction(a).capacity;
        if self.ledger.mw_bid(p, a) + u32::from(mw) > u32::from(capacity) {
            return Err(Refusal::Capacity);
        }
        let limit = self.limit_of(p);
        self.ledger.bid(p, a, Bid { price, mw });
        Ok(Receipt {
            number: self.ledger.receipts,
            worst: self.ledger.worst_charge(p, a),
            limit,
        })
    }

    // The credit limits of all participants, from participant 1 on.
    fn limits(&self) -> [u64; PARTICIPANTS]
        ensures { result ≡ all_limits self.now.ledger (C.cover self.now.collateral) }
    {
        array::from_fn(|place| self.limit_of(participant_at(place)))
    }

    // Seals an auction: the limits of all twelve are found before any sum is held.
    pub fn seal(&mut self, a: u8) -> Result<Cut, Refusal>
        ensures { Step (seal_auction a) (moment C.cover C.verdict self.old) result (moment C.cover C.verdict self.new) }
    {
        let a = self.opened(a)?;
        if !self.ledger.is_open(a) {
            return Err(Refusal::Stage);
        }
        let limits = self.limits();
        self.ledger.seal(a, &limits);
        Ok(Cut {
            kept: self.ledger.bids_kept(a),
            left: self.ledger.bids_left_out(a),
        })
    }

    // Awards a sealed auction at the marginal price of what was kept; answers that price and the MW awarded.
    pub fn award(&mut self, a: u8) -> Result<Clearing, Refusal>
        ensures { Step (award_auction a) (moment C.cover C.verdict self.old) result (moment C.cover C.verdict self.new) }
    {
        let a = self.opened(a)?;
        if !self.ledger.is_sealed(a) {
            return Err(Refusal::Stage);
        }
        let outcome = self.ledger.award(a);
        Ok(Clearing {
            price: outcome.price,
            mw: outcome.total_mw(),
        })
    }

    // Cancels an open or sealed auction.
    pub fn cancel(&mut self, a: u8) -> Result<(), Refusal>
        ensures { Step (cancel_auction a) (moment C.cover C.verdict self.old) result (moment C.cover C.verdict self.new) }
    {
        let a = self.opened(a)?;
        if !self.ledger.is_pending(a) {
            return Err(Refusal::Stage);
        }
        self.ledger.cancel(a);
        Ok(())
    }
}
