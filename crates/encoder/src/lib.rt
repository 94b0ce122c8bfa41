// Writes a command as bytes, so that reading gives it back.

#![tactic(auto)]

ghost use Rattle.std.specs.Prelude.{◌≡◌, ◌+◌, ◌≤◌, ◌++◌, length};
ghost use Rattle.encoder.specs.Encoding.{Encoded, one_byte_each};
ghost use Rattle.command.specs.Meaning.{meaning_of};

use arrayvec::ArrayVec;
use command::{Command, LONGEST_COMMAND};
use lines::append;

// The bytes of a command: its letter, its operands of one byte, and the wider ones. (An arm for each, since a proof
// would name those of an or-pattern by names that are not in the source.)
pub fn encode(command: Command) -> ArrayVec<u8, LONGEST_COMMAND>
    ensures { Encoded (meaning_of command.entry) result.items }
{
    let letter = u8::from(command.letter());
    match command {
        Command::Add {
            participant,
            kind,
            sum,
            last_day,
        } => joined(
            &[letter, participant, kind],
            &sum.to_be_bytes(),
            &last_day.to_be_bytes(),
        ),
        Command::Withdraw { participant, sum } => joined(
            &[letter, participant],
            &sum.to_be_bytes(),
            &[],
        ),
        Command::Open {
            from,
            to,
            first_hour,
            hours,
            capacity,
        } => joined(
            &[letter, from, to, first_hour, hours],
            &capacity.to_be_bytes(),
            &[],
        ),
        Command::Bid {
            participant,
            auction,
            price,
            mw,
        } => joined(
            &[letter, participant, auction],
            &price.to_be_bytes(),
            &mw.to_be_bytes(),
        ),
        Command::Seal { auction } => joined(&[letter, auction], &[], &[]),
        Command::Award { auction } => joined(&[letter, auction], &[], &[]),
        Command::Cancel { auction } => joined(&[letter, auction], &[], &[]),
        Command::Transfer {
            giver,
            taker,
            auction,
            first_hour,
            hours,
            mw,
        } => joined(
            &[letter, giver, taker, auction, first_hour, hours],
            &mw.to_be_bytes(),
            &[],
        ),
        Command::Return {
            participant,
            out_of,
            into,
            mw,
        } => joined(&[letter, participant, out_of, into], &mw.to_be_bytes(), &[]),
        Command::Curtail {
            from,
            to,
            first_hour,
            limits,
        } => joined(&[letter, from, to, first_hour], limits, &[]),
        Command::Invoice { participant } => joined(&[letter, participant], &[], &[]),
        Command::Payment { participant, sum } => joined(
            &[letter, participant],
            &sum.to_be_bytes(),
            &[],
        ),
        Command::Draw { participant } => joined(&[letter, participant], &[], &[]),
        Command::Payout { participant } => joined(&[letter, participant], &[], &[]),
        Command::Day { day } => joined(&[letter], &day.to_be_bytes(), &[]),
    }
}

// The letter with the operands of one byte, which stand before all others, and behind them at most two wider ones.
fn joined(front: &[u8], first: &[u8], last: &[u8]) -> ArrayVec<u8, LONGEST_COMMAND>
    requires { length front.now + length first.now + length last.now ≤ 52 }
    ensures { result.items ≡ one_byte_each front.now ++ first.now ++ last.now }
{
    let mut bytes = ArrayVec::new();
    append(&mut bytes, front);
    append(&mut bytes, first);
    append(&mut bytes, last);
    bytes
}
