// Invoices, payments and payouts, and moves of the day.
ghost use Rattle.rules.specs.Calls.{move_day, pay_balance, pay_invoices, send_invoice};
ghost use Rattle.book.specs.Books.{moment};
ghost use Rattle.rules.specs.Steps.{Step};

use super::books::Book;
use account::MOST_INVOICES;
use collateral::bounds::MOST;
use collateral::kind::Collateral;
use numbering::Participant;
use rules::{Netting, Refusal};

// The last day to which the book moves.
const LAST_DAY: u16 = 9_900;

impl<C: Collateral> Book<C> {
    // Nets a participant's dues against its claims.
    pub fn invoice(&mut self, p: u8) -> Result<Netting, Refusal>
        ensures { Step (send_invoice p) (moment C.cover C.verdict self.old) result (moment C.cover C.verdict self.new) }
    {
        let p = Participant::try_from(p)?;
        let account = self.ledger.account(p);
        if account.dues == 0 && account.claims == 0 {
            return Err(Refusal::Nothing);
        }
        if account.dues > account.claims && account.unpaid >= MOST_INVOICES {
            return Err(Refusal::Full);
        }
        let (pay, credit) = self.ledger.invoice(p);
        Ok(Netting { pay, credit })
    }

    // Spends a payment along a participant's open invoices; answers what is open afterwards.
    pub fn payment(&mut self, p: u8, sum: u64) -> Result<u64, Refusal>
        ensures { Step (pay_invoices p sum) (moment C.cover C.verdict self.old) result (moment C.cover C.verdict self.new) }
    {
        let p = Participant::try_from(p)?;
        if sum < 1 || sum > MOST {
            return Err(Refusal::Amount);
        }
        if sum > self.ledger.still_open(p) {
            return Err(Refusal::TooMuch);
        }
        Ok(self.ledger.pay(p, sum))
    }

    // Pays out a participant's whole balance.
    pub fn payout(&mut self, p: u8) -> Result<u64, Refusal>
        ensures { Step (pay_balance p) (moment C.cover C.verdict self.old) result (moment C.cover C.verdict self.new) }
    {
        let p = Participant::try_from(p)?;
        if self.ledger.account(p).payout == 0 {
            return Err(Refusal::Nothing);
        }
        Ok(self.ledger.pay_out(p))
    }

    // Moves to today or a later day.
    pub fn day(&mut self, day: u16) -> Result<u16, Refusal>
        ensures { Step (move_day day) (moment C.cover C.verdict self.old) result (moment C.cover C.verdict self.new) }
    {
        if day < self.ledger.day || day > LAST_DAY {
            return Err(Refusal::Day);
        }
        self.ledger.day = day;
        Ok(day)
    }
}
