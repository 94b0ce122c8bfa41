// Making a new book, on which the promises over all histories stand.
ghost use Rattle.std.specs.Prelude.{◌≡◌};
ghost use Rattle.ledger.specs.Ledgers.{new_ledger};
ghost use Rattle.rules.specs.Law.{AlwaysSound, CreditLaw, DirectionsApart, RefusalsChangeNothing};

use super::books::Book;
use collateral::kind::Collateral;
use ledger::Ledger;

impl<C: Collateral> Book<C> {
    // A new book over the collateral: day 0, no auction, no debt. Whatever calls it is then given, the credit law
    // holds.
    pub fn new(collateral: C) -> Book<C>
        ensures ledger { result.ledger ≡ new_ledger }
        ensures collateral { result.collateral ≡ collateral }
        ensures law { CreditLaw }
        ensures sound { AlwaysSound }
        ensures refusals { RefusalsChangeNothing }
        ensures directions { DirectionsApart }
    {
        Book {
            ledger: Ledger::new(),
            collateral,
        }
    }
}
