// The numbers of participants and auctions, which count from 1.
ghost use Rattle.std.specs.Prelude.{◌≡◌, ◌-◌, ◌<◌, ◌≤◌};

// Participants have the numbers 1 to 12; lists of them go from participant 1 on.
pub const PARTICIPANTS: usize = 12;

// Auctions have the numbers 1 to 8; lists of them go from auction 1 on.
pub const AUCTIONS: usize = 8;

// A number from 1 to `MOST`.
#[derive(Clone, Copy, PartialEq, Eq, Debug)]
pub struct Number<const MOST: usize> {
    pub number: u8,
    ghost low: { 1 ≤ number },
    ghost high: { number ≤ MOST },
}

// A number that is not from 1 to `MOST`.
#[derive(Clone, Copy, PartialEq, Eq, Debug)]
pub struct NoSuchNumber<const MOST: usize>;

// A number that is a participant's. (An auction's number is of another type: neither can be taken for the other.)
pub type Participant = Number<PARTICIPANTS>;

// A number that no participant has.
pub type NoParticipant = NoSuchNumber<PARTICIPANTS>;

// A number that an auction may have.
pub type AuctionNumber = Number<AUCTIONS>;

// A number that no auction can have.
pub type NoAuction = NoSuchNumber<AUCTIONS>;

impl<const MOST: usize> Number<MOST> {
    // Its place in a list of all that have such a number.
    pub fn index(self) -> usize
        ensures value { result ≡ self.entry.number - 1 }
        ensures within { result < MOST }
    {
        usize::from(self.number) - 1
    }
}

impl<const MOST: usize> TryFrom<u8> for Number<MOST> {
    type Error = NoSuchNumber<MOST>;

    ghost use Rattle.numbering.specs.Numbers.{Names};

    ghost try_from_gives = { Names MOST };

    fn try_from(number: u8) -> Result<Number<MOST>, NoSuchNumber<MOST>> {
        if number < 1 || usize::from(number) > MOST {
            return Err(NoSuchNumber);
        }
        Ok(Number { number })
    }
}
