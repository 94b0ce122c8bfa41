// Invoices, payments and payouts of a participant.
ghost use Rattle.std.specs.Prelude.{◌≡◌, ◌<◌, ◌≤◌};
ghost use Rattle.account.specs.Invoices.{still_open};
ghost use Rattle.account.specs.Settling.{credited, paid, to_pay};
ghost use Rattle.ledger.specs.Ledgers.{account_at};
ghost use Rattle.ledger.specs.Moves.{account_invoiced, account_paid, account_paid_out};
ghost use Rattle.ledger.specs.Sound.{Sound};

use super::ledgers::Ledger;
use numbering::Participant;

impl Ledger {
    // Nets a participant's dues against its claims: the sum to pay and the sum credited. (A pair: the book, which shows
    // them to its callers, has the record that names the two.)
    #[tactic(auto, using(crate::proofs::Within::earned_few))]
    pub fn invoice(&mut self, p: Participant) -> (u64, u64)
        requires place { 0 < to_pay (account_at self.old p.number) → (account_at self.old p.number).unpaid < 4 }
        requires sound { Sound self.old }
        ensures value { result ≡ (to_pay (account_at self.old p.number), credited (account_at self.old p.number)) }
        ensures after { self.new ≡ account_invoiced p.number self.old }
    {
        self.accounts[p.index()].invoice(self.day)
    }

    // Spends a sum along a participant's open invoices; answers what is open afterwards.
    #[tactic(auto, using(crate::proofs::Within::owes_few))]
    pub fn pay(&mut self, p: Participant, sum: u64) -> u64
        requires { Sound self.old }
        ensures value { result ≡ still_open (paid sum (account_at self.old p.number)) }
        ensures after { self.new ≡ account_paid p.number sum self.old }
    {
        self.accounts[p.index()].pay(sum)
    }

    // Empties a participant's payout balance; answers it.
    pub fn pay_out(&mut self, p: Participant) -> u64
        ensures value { result ≡ (account_at self.old p.number).payout }
        ensures after { self.new ≡ account_paid_out p.number self.old }
    {
        self.accounts[p.index()].pay_out()
    }
}
