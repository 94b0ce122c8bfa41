// Two kinds joined, which are a kind again.
ghost use Rattle.std.specs.Prelude.{◌≡◌, ℕ, ◌+◌, ◌||◌};
ghost use Rattle.collateral.specs.Cash.{no_cash};
ghost use Rattle.collateral.specs.Guarantees.{no_guarantees};
ghost use Rattle.collateral.specs.Joined.{joined_added, joined_taken, joined_verdict};
ghost use Rattle.std.proofs.Common.{arith, rules};

use super::bounds::is_participant;
use super::cash::Cash;
use super::guarantees::Guarantees;
use super::kind::{Cause, Collateral, Short};

// A take empties the first kind before the second, an add goes to the first that knows its number.
#[derive(Clone, Copy, PartialEq, Eq, Debug)]
pub struct Joined<F, S> {
    pub first: F,
    pub second: S,
}

impl Joined<Cash, Guarantees> {
    // Cash before guarantees, as an office holds them; none of either yet.
    pub fn new() -> Joined<Cash, Guarantees>
        ensures first { result.first ≡ no_cash }
        ensures second { result.second ≡ no_guarantees }
    {
        Joined {
            first: Cash::new(),
            second: Guarantees::new(),
        }
    }
}

impl<F: Collateral, S: Collateral> Collateral for Joined<F, S> {
    ghost cover = { λ j p d. F.Collateral.cover j.first p d + S.Collateral.cover j.second p d };

    ghost known = { λ k. F.Collateral.known k || S.Collateral.known k };

    ghost verdict = { joined_verdict F.Collateral.known S.Collateral.known F.Collateral.verdict S.Collateral.verdict };

    ghost taken = { joined_taken F.Collateral.cover S.Collateral.cover F.Collateral.taken S.Collateral.taken };

    ghost added = { joined_added F.Collateral.known S.Collateral.known F.Collateral.added S.Collateral.added };

    ghost monotone = { λ x p d e h. omega (arith, F.Collateral.monotone x.first p d e h, S.Collateral.monotone x.second p d e h) };

    ghost outside = { Prim.search rules };

    fn knows(&self, kind: u8) -> bool {
        self.first.knows(kind) || self.second.knows(kind)
    }

    fn counted(&self, p: u8, day: u16, wanted: u64) -> u64 {
        let first = self.first.counted(p, day, wanted);
        first + self.second.counted(p, day, wanted - first)
    }

    fn take(&mut self, p: u8, day: u16, sum: u64) -> Result<(), Short> {
        let first = self.first.counted(p, day, sum);
        let rest = sum - first;
        if self.second.counted(p, day, rest) < rest {
            return Err(Short);
        }
        self.first.take(p, day, first)?;
        self.second.take(p, day, rest)
    }

    fn add(&mut self, p: u8, kind: u8, sum: u64, last: u16, today: u16) -> Result<(), Cause> {
        if self.first.knows(kind) {
            return self.first.add(p, kind, sum, last, today);
        }
        if self.second.knows(kind) {
            return self.second.add(p, kind, sum, last, today);
        }
        if !is_participant(p) {
            return Err(Cause::Stranger);
        }
        Err(Cause::UnknownKind)
    }
}
