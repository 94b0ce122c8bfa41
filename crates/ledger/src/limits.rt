// What a participant owes and has held.
ghost use Rattle.std.specs.Prelude.{◌≡◌, ◌≤◌};
ghost use Rattle.account.specs.Invoices.{still_open};
ghost use Rattle.ledger.specs.Ledgers.{account_at};
ghost use Rattle.ledger.specs.Limits.{held_sums, overdue_by, owes};
ghost use Rattle.ledger.specs.Sound.{Sound};

use super::ledgers::Ledger;
use numbering::Participant;

impl Ledger {
    // The dues not yet invoiced and the open invoices of a participant.
    #[tactic(auto, using(crate::proofs::Within::owes_few))]
    pub fn owes(&self, p: Participant) -> u64
        requires { Sound self.now }
        ensures value { result ≡ owes self.now p.number }
        ensures within { result ≤ 7680000000000 }
    {
        self.account(p).owed()
    }

    // What is open of a participant's invoices.
    #[tactic(auto, using(crate::proofs::Within::owes_few))]
    pub fn still_open(&self, p: Participant) -> u64
        requires { Sound self.now }
        ensures { result ≡ still_open (account_at self.now p.number) }
    {
        self.account(p).still_open()
    }

    // What is overdue of a participant today.
    #[tactic(auto, using(crate::proofs::Within::owes_few))]
    pub fn overdue(&self, p: Participant) -> u64
        requires { Sound self.now }
        ensures { result ≡ overdue_by self.now p.number }
    {
        self.account(p).overdue(self.day)
    }

    // All sums held for a participant.
    pub fn held_sums(&self, p: Participant) -> u64
        requires { Sound self.now }
        ensures value { result ≡ held_sums self.now p.number }
        ensures within { result ≤ 7680000000000 }
    {
        let place = p.index();
        self.auctions
            .iter()
            .map(|auction| auction.sheets[place].held)
            .sum()
    }
}
