// The letters that commands begin with.
ghost use Rattle.std.specs.Prelude.{◌≡◌};
ghost use Rattle.command.specs.Letters.{Names, byte_of};

use crate::unreadable::Unreadable;

// The letter of each command, with its byte.
#[derive(Clone, Copy, PartialEq, Eq, Debug)]
pub enum Letter {
    Add = b'D' as isize,
    Withdraw = b'W' as isize,
    Open = b'O' as isize,
    Bid = b'B' as isize,
    Seal = b'S' as isize,
    Award = b'A' as isize,
    Cancel = b'X' as isize,
    Transfer = b'T' as isize,
    Return = b'R' as isize,
    Curtail = b'C' as isize,
    Invoice = b'I' as isize,
    Payment = b'M' as isize,
    Draw = b'K' as isize,
    Payout = b'Q' as isize,
    Day = b'N' as isize,
}

// The byte that stands in the input, and in a line.
impl From<Letter> for u8 {
    ghost from_gives = { λ letter b. b ≡ byte_of letter };

    fn from(letter: Letter) -> u8 {
        letter as u8
    }
}

// The letter of a byte; any other byte is refused.
impl TryFrom<u8> for Letter {
    type Error = Unreadable;

    ghost try_from_gives = { Names };

    fn try_from(byte: u8) -> Result<Letter, Unreadable> {
        match byte {
            b'D' => Ok(Letter::Add),
            b'W' => Ok(Letter::Withdraw),
            b'O' => Ok(Letter::Open),
            b'B' => Ok(Letter::Bid),
            b'S' => Ok(Letter::Seal),
            b'A' => Ok(Letter::Award),
            b'X' => Ok(Letter::Cancel),
            b'T' => Ok(Letter::Transfer),
            b'R' => Ok(Letter::Return),
            b'C' => Ok(Letter::Curtail),
            b'I' => Ok(Letter::Invoice),
            b'M' => Ok(Letter::Payment),
            b'K' => Ok(Letter::Draw),
            b'Q' => Ok(Letter::Payout),
            b'N' => Ok(Letter::Day),
            _ => Err(Unreadable::UnknownLetter),
        }
    }
}
