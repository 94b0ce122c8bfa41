// What running a command comes to.
ghost use Rattle.std.specs.Prelude.{◌≡◌};
ghost use Rattle.runner.specs.Outcomes.{cause_of, goes_on, layer_of, number_of, page_full};
ghost use Rattle.runner.specs.declared.outcomes.Refused.TheVariants.{Book, Reader};

use command::Unreadable;
use rules::{Layer, Refusal};

// Who refused, and why: the reader, or the book, which may pass on a refusal of its collateral.
#[derive(Clone, Copy, PartialEq, Eq, Debug)]
pub enum Refused {
    Reader(Unreadable),
    Book(Refusal),
}

impl Refused {
    // The number of the table of refusals. (A match: a case that carries another has no plain discriminant.)
    pub fn number(self) -> u8
        ensures { result ≡ number_of self }
    {
        match self {
            Refused::Reader(why) => why.number(),
            Refused::Book(why) => why.number(),
        }
    }

    // The collateral's own number where it refused, else 0, as the table of refusals has it.
    pub fn cause(self) -> u8
        ensures { result ≡ cause_of self }
    {
        match self {
            Refused::Reader(_) => 0,
            Refused::Book(why) => why.cause(),
        }
    }

    // Who refuses: the reader, the book, or the collateral.
    pub fn layer(self) -> Layer
        ensures { result ≡ layer_of self }
    {
        match self {
            Refused::Reader(_) => Layer::Reader,
            Refused::Book(why) => why.layer(),
        }
    }
}

// (By hand: what a derived `From` gives is not known to a contract.)
impl From<Unreadable> for Refused {
    ghost from_gives = { λ e r. r ≡ Reader e };

    fn from(why: Unreadable) -> Refused {
        Refused::Reader(why)
    }
}

// (By hand for the same reason.)
impl From<Refusal> for Refused {
    ghost from_gives = { λ e r. r ≡ Book e };

    fn from(why: Refusal) -> Refused {
        Refused::Book(why)
    }
}

// How a command was answered; nothing at the end of the input, where there is no command.
pub type Outcome = Option<Result<(), Refused>>;

// What a command came to, and the next places in the input and in the page.
#[derive(Clone, Copy, PartialEq, Eq, Debug)]
pub struct Ran {
    pub outcome: Outcome,
    pub place: usize,
    pub at: usize,
}

impl Ran {
    // Whether a next command is to be tried: not at the end, nor where the reader refused.
    pub fn goes_on(self) -> bool
        ensures { result ≡ goes_on self.outcome }
    {
        !matches!(self.outcome, None | Some(Err(Refused::Reader(_))))
    }

    // Whether the run stopped only because the page had no room for another line.
    pub fn page_is_full(self) -> bool
        ensures { result ≡ page_full self.outcome }
    {
        matches!(
            self.outcome,
            Some(Err(Refused::Reader(Unreadable::PageEnd)))
        )
    }
}
