// Invoices in a roll: they stand by earlier due day, and payments are spent along them.
ghost use Rattle.account.specs.Invoices.{sooner, sum_in, with_sum};
ghost use Rattle.std.proofs.Common.{rules};

use super::accounts::Invoice;
use roll::{Ranked, Spendable};

impl Ranked for Invoice {
    ghost first = { sooner };

    ghost either = { Prim.search rules };

    ghost carries = { Prim.search rules };

    fn comes_first(&self, other: &Invoice) -> bool {
        self.due <= other.due
    }
}

impl Spendable for Invoice {
    ghost amount = { sum_in };

    ghost lowered = { with_sum };

    ghost lowers = { Prim.search rules };

    ghost stands = { Prim.search rules };

    ghost stood = { Prim.search rules };

    fn amount_of(&self) -> u64 {
        self.sum
    }

    fn lower(&self, n: u64) -> Invoice {
        Invoice {
            due: self.due,
            sum: n,
        }
    }
}
