// Cash, kind 1: a balance for each participant, which covers every day.
ghost use Rattle.std.specs.Prelude.{◌≡◌, ◌==◌};
ghost use Rattle.collateral.specs.Cash.{cash_added, cash_cover, cash_taken, cash_verdict, no_cash};
ghost use Rattle.std.proofs.Common.{rules};

use super::bounds::{LAST_DAY, MOST, PARTICIPANTS, participant_on};
use super::kind::{Cause, Collateral, Short, nothing_there};
use numbering::Participant;

const CASH: u8 = 1;

#[derive(Clone, Copy, PartialEq, Eq, Debug)]
pub struct Cash {
    balances: [u64; PARTICIPANTS],
}

impl Cash {
    pub fn new() -> Cash
        ensures { result ≡ no_cash }
    {
        Cash {
            balances: [0; PARTICIPANTS],
        }
    }
}

impl Collateral for Cash {
    ghost cover = { cash_cover };

    ghost known = { λ k. (k == 1) };

    ghost verdict = { cash_verdict };

    ghost taken = { cash_taken };

    ghost added = { cash_added };

    ghost monotone = { Prim.search rules };

    ghost outside = { Prim.search rules };

    fn knows(&self, kind: u8) -> bool {
        kind == CASH
    }

    fn counted(&self, p: u8, day: u16, wanted: u64) -> u64 {
        let Some(p) = participant_on(p, day) else {
            return 0;
        };
        wanted.min(self.balances[p.index()])
    }

    fn take(&mut self, p: u8, day: u16, sum: u64) -> Result<(), Short> {
        let Some(p) = participant_on(p, day) else {
            return nothing_there(sum);
        };
        let i = p.index();
        let balance = self.balances[i];
        if sum > balance {
            return Err(Short);
        }
        self.balances[i] = balance - sum;
        Ok(())
    }

    fn add(&mut self, p: u8, kind: u8, sum: u64, last: u16, _today: u16) -> Result<(), Cause> {
        let p = Participant::try_from(p)?;
        if kind != CASH {
            return Err(Cause::UnknownKind);
        }
        let i = p.index();
        let balance = self.balances[i];
        if sum == 0 || sum > MOST || sum > MOST.saturating_sub(balance) {
            return Err(Cause::BadSum);
        }
        if last != LAST_DAY {
            return Err(Cause::LastDay);
        }
        self.balances[i] = balance + sum;
        Ok(())
    }
}
