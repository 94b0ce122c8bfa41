// A kind of collateral, known by its cover alone.
ghost use Rattle.std.specs.Prelude.{◌≡◌, ◌==◌, ℕ, ◌≤◌, min, Bool, true, false, Result, is_ok, nat_le};
ghost use Rattle.collateral.specs.declared.kind.Cause.{Cause};
ghost use Rattle.collateral.specs.declared.kind.Cause.TheVariants.{Stranger};
ghost use Rattle.collateral.specs.Causes.{granted, number_of};
ghost use Rattle.collateral.specs.Cover.{Added, Took, in_range};

use numbering::NoParticipant;

// Why an add is refused.
#[derive(Clone, Copy, PartialEq, Eq, Debug)]
pub enum Cause {
    Stranger = 30,
    UnknownKind = 31,
    LastDay = 32,
    NoPlace = 33,
    BadSum = 34,
}

impl Cause {
    // The number that a refusal shows as its cause.
    pub fn number(&self) -> u8
        ensures { result ≡ number_of self.now }
    {
        *self as u8
    }
}

// A number that no participant has is refused as a stranger's.
impl From<NoParticipant> for Cause {
    ghost from_gives = { λ _ r. r ≡ Stranger };

    fn from(_stranger: NoParticipant) -> Cause {
        Cause::Stranger
    }
}

// The day's cover does not reach the sum of a take.
#[derive(Clone, Copy, PartialEq, Eq, Debug)]
pub struct Short;

// A take where there is no cover: of nothing it is granted.
pub(crate) fn nothing_there(sum: u64) -> Result<(), Short>
    ensures { is_ok result ≡ (sum == 0) }
{
    if sum == 0 { Ok(()) } else { Err(Short) }
}

// What stands behind a participant's debts: a sum for each participant and day.
pub trait Collateral {
    // By participant and day.
    ghost cover: { Self → ℕ → ℕ → ℕ };

    // The kind numbers it takes, the same at all times.
    ghost known: { ℕ → Bool };

    // Whether an add (participant, kind, sum, last day, today) is granted, and else why not.
    ghost verdict: { Self → ℕ → ℕ → ℕ → ℕ → ℕ → Result (Unit {0}) Cause };

    // What it is after a take (participant, day, sum).
    ghost taken: { Self → ℕ → ℕ → ℕ → Self };

    // What it is after an add (participant, kind, sum, last day, today).
    ghost added: { Self → ℕ → ℕ → ℕ → ℕ → ℕ → Self };

    // Kinds go by number: an office may add one of its own, which an enum would rule out.
    fn knows(&self, kind: u8) -> bool
        ensures { result ≡ known kind };

    // The lesser of the wanted sum and the day's cover.
    fn counted(&self, p: u8, day: u16, wanted: u64) -> u64
        ensures { result ≡ min wanted (cover self.now p day) };

    // Pays a sum out of the day's cover, if it reaches.
    fn take(&mut self, p: u8, day: u16, sum: u64) -> Result<(), Short>
        ensures value { is_ok result ≡ nat_le sum (cover self.old p day) }
        ensures after { self.new ≡ taken self.old p day sum }
        ensures cover { is_ok result ≡ true → Took (cover self.old) (cover self.new) p day sum }
        ensures refused { is_ok result ≡ false → self.new ≡ self.old };

    // Takes a sum in, which counts from today to its last day.
    fn add(&mut self, p: u8, kind: u8, sum: u64, last: u16, today: u16) -> Result<(), Cause>
        ensures value { result ≡ verdict self.old p kind sum last today }
        ensures after { self.new ≡ added self.old p kind sum last today }
        ensures cover { granted result ≡ true → Added (cover self.old) (cover self.new) p sum last today }
        ensures refused { granted result ≡ false → self.new ≡ self.old };

    // Of two days the later never has more cover.
    ghost monotone: { (x : Self) (p d e : ℕ) → d ≤ e → cover x p e ≤ cover x p d };

    // Nobody but the participants has cover, and no day after the last.
    ghost outside: { (x : Self) (p d : ℕ) → in_range p d ≡ false → cover x p d ≡ 0 };
}
