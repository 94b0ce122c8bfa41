// Rights transferred, returned and curtailed.
ghost use Rattle.rules.specs.Calls.{curtail_rights, return_rights, transfer_rights};
ghost use Rattle.book.specs.Books.{moment};
ghost use Rattle.rules.specs.Steps.{Step};

use super::auctioning::{MOST_MW, direction};
use super::books::Book;
use collateral::kind::Collateral;
use numbering::{HOURS, Participant, Span};
use rights::{CUT_HOURS, LIMIT_BYTES};
use rules::Refusal;

impl<C: Collateral> Book<C> {
    // Moves MW of an awarded auction from a giver to a taker in each named hour; the debt stays.
    pub fn transfer(
        &mut self,
        giver: u8,
        taker: u8,
        a: u8,
        first: u8,
        hours: u8,
        mw: u16,
    ) -> Result<(), Refusal>
        ensures { Step (transfer_rights giver taker a first hours mw) (moment C.cover C.verdict self.old) result (moment C.cover C.verdict self.new) }
    {
        let giver = Participant::try_from(giver)?;
        let taker = Participant::try_from(taker)?;
        if giver == taker {
            return Err(Refusal::Parties);
        }
        let a = self.opened(a)?;
        if !self.ledger.is_awarded(a) {
            return Err(Refusal::Stage);
        }
        let end = usize::from(first) + usize::from(hours);
        if hours < 1 || end > HOURS || !self.ledger.delivers(a, first, hours) {
            return Err(Refusal::Hours);
        }
        if mw < 1 || mw > MOST_MW {
            return Err(Refusal::Amount);
        }
        let span = Span {
            first: usize::from(first),
            hours: usize::from(hours),
        };
        if !self.ledger.holds_through(giver, a, span, mw) {
            return Err(Refusal::Holding);
        }
        self.ledger.transfer(giver, taker, a, span, mw);
        Ok(())
    }

    // Returns MW of an awarded auction into an open one of the same direction; answers that one's capacity after it.
    pub fn return_rights(&mut self, p: u8, out: u8, into: u8, mw: u16) -> Result<u16, Refusal>
        ensures { Step (return_rights p out into mw) (moment C.cover C.verdict self.old) result (moment C.cover C.verdict self.new) }
    {
        let p = Participant::try_from(p)?;
        let out = self.opened(out)?;
        let into = self.opened(into)?;
        if !self.ledger.is_awarded(out) || !self.ledger.is_open(into) {
            return Err(Refusal::Stage);
        }
        if !self.ledger.same_way(out, into) {
            return Err(Refusal::Parties);
        }
        let entered = self.ledger.auction(into);
        if !self
            .ledger
            .delivers(out, entered.first, entered.product.hours)
        {
            return Err(Refusal::Hours);
        }
        if mw < 1 || mw > MOST_MW {
            return Err(Refusal::Amount);
        }
        if !self.ledger.holds_through(p, out, entered.span(), mw) {
            return Err(Refusal::Holding);
        }
        let capacity = entered.capacity;
        if u32::from(capacity) + u32::from(mw) > u32::from(MOST_MW) {
            return Err(Refusal::Capacity);
        }
        self.ledger.return_rights(p, out, into, mw);
        Ok(capacity + mw)
    }

    // Cuts the rights of a direction to a limit in each of 24 hours; answers the MW lost.
    pub fn curtail(
        &mut self,
        from: u8,
        to: u8,
        first: u8,
        limits: &[u8; LIMIT_BYTES],
    ) -> Result<u32, Refusal>
        ensures { Step (curtail_rights from to first limits.now) (moment C.cover C.verdict self.old) result (moment C.cover C.verdict self.new) }
    {
        let direction = direction(from, to)?;
        if usize::from(first) + CUT_HOURS > HOURS {
            return Err(Refusal::Hours);
        }
        Ok(self.ledger.curtail(direction, first, limits))
    }
}
