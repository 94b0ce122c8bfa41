// The fifteen commands and their operands.
ghost use Rattle.std.specs.Prelude.{◌≡◌};
ghost use Rattle.command.specs.Meaning.{limit_named, meaning_of};
ghost use Rattle.command.specs.Letters.{byte_of};
ghost use Rattle.command.specs.Table.{letter_of};

use crate::letter::Letter;

// A curtailment has a limit of two bytes for each of 24 hours. (As rights cut them, of which commands know nothing.)
pub const HOURS_CUT: usize = 24;

pub const LIMIT_BYTES: usize = 2 * HOURS_CUT;

// A curtailment is the longest command: its letter, two zones, an hour and the limits.
pub const LONGEST_COMMAND: usize = 4 + LIMIT_BYTES;

// Money is in euro cents, a price in cents per MW and hour, power in MW.
#[derive(Clone, Copy, PartialEq, Eq, Debug)]
pub enum Command<'a> {
    Add {
        participant: u8,
        kind: u8,
        sum: u64,
        last_day: u16,
    },
    Withdraw {
        participant: u8,
        sum: u64,
    },
    Open {
        from: u8,
        to: u8,
        first_hour: u8,
        hours: u8,
        capacity: u16,
    },
    Bid {
        participant: u8,
        auction: u8,
        price: u32,
        mw: u16,
    },
    Seal {
        auction: u8,
    },
    Award {
        auction: u8,
    },
    Cancel {
        auction: u8,
    },
    Transfer {
        giver: u8,
        taker: u8,
        auction: u8,
        first_hour: u8,
        hours: u8,
        mw: u16,
    },
    Return {
        participant: u8,
        out_of: u8,
        into: u8,
        mw: u16,
    },
    // The limits stay a part of the input.
    Curtail {
        from: u8,
        to: u8,
        first_hour: u8,
        limits: &'a [u8; LIMIT_BYTES],
    },
    Invoice {
        participant: u8,
    },
    Payment {
        participant: u8,
        sum: u64,
    },
    Draw {
        participant: u8,
    },
    Payout {
        participant: u8,
    },
    Day {
        day: u16,
    },
}

impl Command<'_> {
    // The letter that the command begins with, and that its line shows.
    pub fn letter(self) -> Letter
        ensures { byte_of result ≡ letter_of (meaning_of self.entry) }
    {
        match self {
            Command::Add { .. } => Letter::Add,
            Command::Withdraw { .. } => Letter::Withdraw,
            Command::Open { .. } => Letter::Open,
            Command::Bid { .. } => Letter::Bid,
            Command::Seal { .. } => Letter::Seal,
            Command::Award { .. } => Letter::Award,
            Command::Cancel { .. } => Letter::Cancel,
            Command::Transfer { .. } => Letter::Transfer,
            Command::Return { .. } => Letter::Return,
            Command::Curtail { .. } => Letter::Curtail,
            Command::Invoice { .. } => Letter::Invoice,
            Command::Payment { .. } => Letter::Payment,
            Command::Draw { .. } => Letter::Draw,
            Command::Payout { .. } => Letter::Payout,
            Command::Day { .. } => Letter::Day,
        }
    }
}

// The limit in MW of the hour that stands `hour` hours behind the first one of a curtailment; none past the last.
pub fn limit(limits: &[u8; LIMIT_BYTES], hour: usize) -> Option<u16>
    ensures { result ≡ limit_named hour limits.now }
{
    if hour >= HOURS_CUT {
        return None;
    }
    Some(u16::from_be_bytes([limits[2 * hour], limits[2 * hour + 1]]))
}
