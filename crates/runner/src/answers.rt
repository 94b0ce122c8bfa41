// The answers of the book as the numbers of a line.
ghost use Rattle.std.specs.Prelude.{◌≡◌, ℕ, ◌≤◌, List, [], ◌∷◌, length, Result};
ghost use Rattle.lines.specs.Lines.{numbers_in};
ghost use Rattle.lines.specs.Page.{spaced};
ghost use Rattle.runner.specs.Answers.{FitInLine, Fitting, reply_shown, shown_of};

use crate::outcomes::Refused;
use lines::Numbers;
use rules::{Clearing, Cut, Netting, Receipt, Refusal};

// An answer of the book. (The three numbers differ only in their type; but an `impl` for all that convert to `u64` would
// bar those of the records.)
pub(crate) trait Answer: Sized {
    // The numbers that a line shows of it.
    ghost shows: { Self → List ℕ };

    // What it takes to fit a line, beyond the type.
    ghost fits: { Self → Type 0 } = { λ _. Unit {0} };

    fn numbers(self) -> Numbers
        ensures value { numbers_in result ≡ shows self }
        ensures room { fits self → length (spaced (numbers_in result)) ≤ 59 };
}

impl Answer for u64 {
    ghost shows = { λ n. n ∷ [] };

    fn numbers(self) -> Numbers {
        Numbers::One(self)
    }
}

impl Answer for u32 {
    ghost shows = { λ n. n ∷ [] };

    fn numbers(self) -> Numbers {
        Numbers::One(u64::from(self))
    }
}

impl Answer for u16 {
    ghost shows = { λ n. n ∷ [] };

    fn numbers(self) -> Numbers {
        Numbers::One(u64::from(self))
    }
}

impl Answer for () {
    ghost shows = { λ _. [] };

    fn numbers(self) -> Numbers {
        Numbers::Empty
    }
}

impl Answer for Receipt {
    ghost shows = { λ r. r.number ∷ (r.worst ∷ (r.limit ∷ [])) };

    // Three numbers of 20 digits would not fit.
    ghost fits = { λ r. r.limit ≤ 1000000000000000 };

    fn numbers(self) -> Numbers {
        Numbers::Three(self.number, self.worst, self.limit)
    }
}

impl Answer for Cut {
    ghost shows = { λ r. r.kept ∷ (r.left ∷ []) };

    fn numbers(self) -> Numbers {
        Numbers::Two(self.kept, self.left)
    }
}

impl Answer for Clearing {
    ghost shows = { λ r. r.price ∷ (r.mw ∷ []) };

    fn numbers(self) -> Numbers {
        Numbers::Two(u64::from(self.price), u64::from(self.mw))
    }
}

impl Answer for Netting {
    ghost shows = { λ r. r.pay ∷ (r.credit ∷ []) };

    fn numbers(self) -> Numbers {
        Numbers::Two(self.pay, self.credit)
    }
}

// The numbers of an answer; a refusal passes on with its cause and layer.
pub(crate) fn shown<A: Answer>(reply: Result<A, Refusal>) -> Result<Numbers, Refused>
    ensures value { shown_of result ≡ reply_shown A.shows reply }
    ensures room { Fitting A.fits reply → FitInLine result }
{
    Ok(reply?.numbers())
}
