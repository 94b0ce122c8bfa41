// Why a call of the book is refused.
ghost use Rattle.std.specs.Prelude.{◌≡◌};
ghost use Rattle.rules.specs.declared.refusals.Refusal.TheVariants.{Collateral, Participant};
ghost use Rattle.rules.specs.Refusals.{cause_of, layer_of, number_of};

use collateral::kind::Cause;
use numbering::NoParticipant;

// Which part of the system refuses.
#[derive(Clone, Copy, PartialEq, Eq, Debug)]
pub enum Layer {
    Reader,
    Book,
    Collateral,
}

#[derive(Clone, Copy, PartialEq, Eq, Debug)]
pub enum Refusal {
    Participant,
    Zone,
    Unopened,
    Stage,
    Hours,
    Amount,
    Full,
    Capacity,
    Holding,
    AboveLimit,
    Day,
    Collateral(Cause),
    Nothing,
    TooMuch,
    Parties,
    NoCover,
}

impl Refusal {
    // The number of the table of refusals. (A match: a refusal that carries a cause has no plain discriminant.)
    pub fn number(&self) -> u8
        ensures { result ≡ number_of self.now }
    {
        match self {
            Refusal::Participant => 1,
            Refusal::Zone => 2,
            Refusal::Unopened => 3,
            Refusal::Stage => 4,
            Refusal::Hours => 5,
            Refusal::Amount => 6,
            Refusal::Full => 7,
            Refusal::Capacity => 8,
            Refusal::Holding => 9,
            Refusal::AboveLimit => 10,
            Refusal::Day => 11,
            Refusal::Collateral(_) => 12,
            Refusal::Nothing => 13,
            Refusal::TooMuch => 14,
            Refusal::Parties => 15,
            Refusal::NoCover => 16,
        }
    }

    // The collateral's own number where it refused, else 0, as the table of refusals has it.
    pub fn cause(&self) -> u8
        ensures { result ≡ cause_of self.now }
    {
        match self {
            Refusal::Collateral(cause) => cause.number(),
            _ => 0,
        }
    }

    // Who refuses: the book, or the collateral whose refusal it passes on.
    pub fn layer(&self) -> Layer
        ensures { result ≡ layer_of self.now }
    {
        match self {
            Refusal::Collateral(_) => Layer::Collateral,
            _ => Layer::Book,
        }
    }
}

// A refusal of the collateral is the book's refusal 12, with its cause. (By hand: what a derived `From` gives is not
// known to a contract.)
impl From<Cause> for Refusal {
    ghost from_gives = { λ e r. r ≡ Collateral e };

    fn from(cause: Cause) -> Refusal {
        Refusal::Collateral(cause)
    }
}

// A number that no participant has is the book's refusal 1. (By hand for the same reason.)
impl From<NoParticipant> for Refusal {
    ghost from_gives = { λ _ r. r ≡ Participant };

    fn from(_stranger: NoParticipant) -> Refusal {
        Refusal::Participant
    }
}
