// The book itself: a ledger, and the collateral that stands behind it.
ghost use Rattle.ledger.specs.Sound.{Sound};

use ledger::Ledger;

// The book owns its collateral, so nothing else touches it.
#[derive(Drop)]
pub struct Book<C> {
    pub(crate) ledger: Ledger,
    pub(crate) collateral: C,
    ghost sound: { ∥ Sound ledger ∥₁ },
}
