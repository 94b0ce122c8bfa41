// Collateral brought in, taken out and drawn on.
ghost use Rattle.rules.specs.Calls.{add_collateral, draw_overdue, withdraw};
ghost use Rattle.book.specs.Books.{moment};
ghost use Rattle.rules.specs.Steps.{Step};

use super::books::Book;
use collateral::bounds::MOST;
use collateral::kind::Collateral;
use numbering::Participant;
use rules::Refusal;

impl<C: Collateral> Book<C> {
    // Brings in collateral; answers the credit limit after it.
    pub fn add(&mut self, p: u8, kind: u8, sum: u64, last: u16) -> Result<u64, Refusal>
        ensures { Step (add_collateral p kind sum last) (moment C.cover C.verdict self.old) result (moment C.cover C.verdict self.new) }
    {
        let p = Participant::try_from(p)?;
        self.collateral
            .add(p.number, kind, sum, last, self.ledger.day)?;
        Ok(self.limit_of(p))
    }

    // Takes a sum out of the collateral, up to the credit limit; answers the limit after it.
    pub fn withdraw(&mut self, p: u8, sum: u64) -> Result<u64, Refusal>
        ensures { Step (withdraw p sum) (moment C.cover C.verdict self.old) result (moment C.cover C.verdict self.new) }
    {
        let p = Participant::try_from(p)?;
        if sum < 1 || sum > MOST {
            return Err(Refusal::Amount);
        }
        if sum > self.limit_of(p) {
            return Err(Refusal::AboveLimit);
        }
        self.collateral
            .take(p.number, self.ledger.day, sum)
            .unwrap();
        Ok(self.limit_of(p))
    }

    // Takes what is overdue out of the collateral, as far as today's cover goes, and spends it along the open invoices.
    pub fn draw(&mut self, p: u8) -> Result<u64, Refusal>
        ensures { Step (draw_overdue p) (moment C.cover C.verdict self.old) result (moment C.cover C.verdict self.new) }
    {
        let p = Participant::try_from(p)?;
        let overdue = self.ledger.overdue(p);
        if overdue == 0 {
            return Err(Refusal::Nothing);
        }
        let drawn = self.collateral.counted(p.number, self.ledger.day, overdue);
        if drawn == 0 {
            return Err(Refusal::NoCover);
        }
        self.collateral
            .take(p.number, self.ledger.day, drawn)
            .unwrap();
        self.ledger.pay(p, drawn);
        Ok(drawn)
    }
}
