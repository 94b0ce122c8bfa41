// Reads one command off the bytes of the input: a letter, and the operands that it names.
ghost use Rattle.std.specs.Prelude.{◌≡◌, ◌<◌, ◌≤◌, length, [], ◌∷◌, Some};
ghost use Rattle.command.specs.Letters.{byte_of};
ghost use Rattle.command.specs.Reading.{Onward, TakenBy, by_letter, reading, taken_as, understood};
ghost use Rattle.command.specs.Table.{byte};

use crate::commands::{Command, LIMIT_BYTES};
use crate::letter::Letter;
use crate::unreadable::Unreadable;

// A command and the place behind it in the input.
#[derive(Clone, Copy, PartialEq, Eq, Debug)]
pub struct Found<'a> {
    pub command: Command<'a>,
    pub next: usize,
}

// The command at a place of the input, or why there is none to be read; nothing at the end of the input or past it.
pub fn read<'a>(input: &'a [u8], place: usize) -> Option<Result<Found<'a>, Unreadable>>
    ensures value { understood result ≡ reading input.now place }
    ensures within { Onward place (length input.now) (understood result) }
{
    if place >= input.len() {
        return None;
    }
    Some(read_within(input, place))
}

// The command at a place within the input.
fn read_within<'a>(input: &'a [u8], place: usize) -> Result<Found<'a>, Unreadable>
    requires { place < length input.now }
    ensures { understood (Some result) ≡ reading input.now place }
{
    let letter = Letter::try_from(input[place])?;
    let taken = by_letter(letter, &input[place..])?;
    Ok(Found {
        command: taken.command,
        next: input.len() - taken.rest.len(),
    })
}

// A command, and what stands behind it.
#[derive(Clone, Copy, PartialEq, Eq, Debug)]
struct Taken<'a> {
    command: Command<'a>,
    rest: &'a [u8],
}

// Reads the operands that stand behind this letter, which is the first byte.
fn by_letter<'a>(letter: Letter, input: &'a [u8]) -> Result<Taken<'a>, Unreadable>
    ensures { taken_as input.now result ≡ by_letter (byte_of letter) input.now }
{
    match letter {
        Letter::Add => add(input),
        Letter::Withdraw => of_sum(
            input,
            |participant, sum| Command::Withdraw { participant, sum },
        ),
        Letter::Open => open(input),
        Letter::Bid => bid(input),
        Letter::Seal => of_one_byte(input, |auction| Command::Seal { auction }),
        Letter::Award => of_one_byte(input, |auction| Command::Award { auction }),
        Letter::Cancel => of_one_byte(input, |auction| Command::Cancel { auction }),
        Letter::Transfer => transfer(input),
        Letter::Return => give_back(input),
        Letter::Curtail => curtail(input),
        Letter::Invoice => of_one_byte(input, |participant| Command::Invoice { participant }),
        Letter::Payment => of_sum(
            input,
            |participant, sum| Command::Payment { participant, sum },
        ),
        Letter::Draw => of_one_byte(input, |participant| Command::Draw { participant }),
        Letter::Payout => of_one_byte(input, |participant| Command::Payout { participant }),
        Letter::Day => day(input),
    }
}

// A command whose only operand is one byte, an auction or a participant.
fn of_one_byte<'a, F: FnOnce(u8) -> Command<'a>>(
    input: &'a [u8],
    command: F,
) -> Result<Taken<'a>, Unreadable>
    requires { F.IsAlwaysCallable command }
    ensures { TakenBy (1 ∷ []) (λ n. F.post command (n 0)) input.now result }
{
    let [_, operand, rest @ ..] = input else {
        return Err(Unreadable::CutShort);
    };
    let command = command(*operand);
    Ok(Taken { command, rest })
}

// A command whose operands are a participant and a sum.
fn of_sum<'a, F: FnOnce(u8, u64) -> Command<'a>>(
    input: &'a [u8],
    command: F,
) -> Result<Taken<'a>, Unreadable>
    requires { F.IsAlwaysCallable command }
    ensures { TakenBy (1 ∷ 8 ∷ []) (λ n. F.post command (n 0) (n 1)) input.now result }
{
    let [_, participant, s0, s1, s2, s3, s4, s5, s6, s7, rest @ ..] = input else {
        return Err(Unreadable::CutShort);
    };
    let sum = u64::from_be_bytes([*s0, *s1, *s2, *s3, *s4, *s5, *s6, *s7]);
    let command = command(*participant, sum);
    Ok(Taken { command, rest })
}

// A participant brings collateral.
fn add<'a>(input: &'a [u8]) -> Result<Taken<'a>, Unreadable>
    ensures { taken_as input.now result ≡ by_letter (byte "D") input.now }
{
    let [
        _,
        participant,
        kind,
        s0,
        s1,
        s2,
        s3,
        s4,
        s5,
        s6,
        s7,
        l0,
        l1,
        rest @ ..,
    ] = input
    else {
        return Err(Unreadable::CutShort);
    };
    let command = Command::Add {
        participant: *participant,
        kind: *kind,
        sum: u64::from_be_bytes([*s0, *s1, *s2, *s3, *s4, *s5, *s6, *s7]),
        last_day: u16::from_be_bytes([*l0, *l1]),
    };
    Ok(Taken { command, rest })
}

// An auction opens between two zones, for hours and a capacity.
fn open<'a>(input: &'a [u8]) -> Result<Taken<'a>, Unreadable>
    ensures { taken_as input.now result ≡ by_letter (byte "O") input.now }
{
    let [_, from, to, first_hour, hours, c0, c1, rest @ ..] = input else {
        return Err(Unreadable::CutShort);
    };
    let command = Command::Open {
        from: *from,
        to: *to,
        first_hour: *first_hour,
        hours: *hours,
        capacity: u16::from_be_bytes([*c0, *c1]),
    };
    Ok(Taken { command, rest })
}

// A participant bids a price for power in an auction.
fn bid<'a>(input: &'a [u8]) -> Result<Taken<'a>, Unreadable>
    ensures { taken_as input.now result ≡ by_letter (byte "B") input.now }
{
    let [_, participant, auction, p0, p1, p2, p3, m0, m1, rest @ ..] = input else {
        return Err(Unreadable::CutShort);
    };
    let command = Command::Bid {
        participant: *participant,
        auction: *auction,
        price: u32::from_be_bytes([*p0, *p1, *p2, *p3]),
        mw: u16::from_be_bytes([*m0, *m1]),
    };
    Ok(Taken { command, rest })
}

// A participant hands rights of an auction on to another.
fn transfer<'a>(input: &'a [u8]) -> Result<Taken<'a>, Unreadable>
    ensures { taken_as input.now result ≡ by_letter (byte "T") input.now }
{
    let [
        _,
        giver,
        taker,
        auction,
        first_hour,
        hours,
        m0,
        m1,
        rest @ ..,
    ] = input
    else {
        return Err(Unreadable::CutShort);
    };
    let command = Command::Transfer {
        giver: *giver,
        taker: *taker,
        auction: *auction,
        first_hour: *first_hour,
        hours: *hours,
        mw: u16::from_be_bytes([*m0, *m1]),
    };
    Ok(Taken { command, rest })
}

// A participant gives rights of one auction back into another.
fn give_back<'a>(input: &'a [u8]) -> Result<Taken<'a>, Unreadable>
    ensures { taken_as input.now result ≡ by_letter (byte "R") input.now }
{
    let [_, participant, out_of, into, m0, m1, rest @ ..] = input else {
        return Err(Unreadable::CutShort);
    };
    let command = Command::Return {
        participant: *participant,
        out_of: *out_of,
        into: *into,
        mw: u16::from_be_bytes([*m0, *m1]),
    };
    Ok(Taken { command, rest })
}

// The day moves on.
fn day<'a>(input: &'a [u8]) -> Result<Taken<'a>, Unreadable>
    ensures { taken_as input.now result ≡ by_letter (byte "N") input.now }
{
    let [_, d0, d1, rest @ ..] = input else {
        return Err(Unreadable::CutShort);
    };
    let command = Command::Day {
        day: u16::from_be_bytes([*d0, *d1]),
    };
    Ok(Taken { command, rest })
}

// The limits stay a part of the input.
fn curtail<'a>(input: &'a [u8]) -> Result<Taken<'a>, Unreadable>
    ensures { taken_as input.now result ≡ by_letter (byte "C") input.now }
{
    let [_, from, to, first_hour, behind @ ..] = input else {
        return Err(Unreadable::CutShort);
    };
    let Some((limits, rest)) = behind.split_first_chunk::<LIMIT_BYTES>() else {
        return Err(Unreadable::CutShort);
    };
    let command = Command::Curtail {
        from: *from,
        to: *to,
        first_hour: *first_hour,
        limits,
    };
    Ok(Taken { command, rest })
}
