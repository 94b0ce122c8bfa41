// Hands a command to the book.
ghost use Rattle.book.specs.Books.{moment};
ghost use Rattle.command.specs.Meaning.{meaning_of};
ghost use Rattle.runner.specs.Answers.{FitInLine};
ghost use Rattle.runner.specs.Calls.{Performed, call_of};

use crate::answers::shown;
use crate::outcomes::Refused;
use book::Book;
use collateral::kind::Collateral;
use command::Command;
use lines::Numbers;

// The call that a command asks for, an arm for each of the fifteen, and what is shown of its answer.
pub(crate) fn perform<C: Collateral>(
    book: &mut Book<C>,
    command: Command,
) -> Result<Numbers, Refused>
    ensures value { Performed (call_of (meaning_of command.entry)) (moment C.cover C.verdict book.old) result (moment C.cover C.verdict book.new) }
    ensures room { FitInLine result }
{
    match command {
        Command::Add {
            participant,
            kind,
            sum,
            last_day,
        } => shown(book.add(participant, kind, sum, last_day)),
        Command::Withdraw { participant, sum } => shown(book.withdraw(participant, sum)),
        Command::Open {
            from,
            to,
            first_hour,
            hours,
            capacity,
        } => shown(book.open(from, to, first_hour, hours, capacity)),
        Command::Bid {
            participant,
            auction,
            price,
            mw,
        } => shown(book.bid(participant, auction, price, mw)),
        Command::Seal { auction } => shown(book.seal(auction)),
        Command::Award { auction } => shown(book.award(auction)),
        Command::Cancel { auction } => shown(book.cancel(auction)),
        Command::Transfer {
            giver,
            taker,
            auction,
            first_hour,
            hours,
            mw,
        } => shown(book.transfer(giver, taker, auction, first_hour, hours, mw)),
        Command::Return {
            participant,
            out_of,
            into,
            mw,
        } => shown(book.return_rights(participant, out_of, into, mw)),
        Command::Curtail {
            from,
            to,
            first_hour,
            limits,
        } => shown(book.curtail(from, to, first_hour, limits)),
        Command::Invoice { participant } => shown(book.invoice(participant)),
        Command::Payment { participant, sum } => shown(book.payment(participant, sum)),
        Command::Draw { participant } => shown(book.draw(participant)),
        Command::Payout { participant } => shown(book.payout(participant)),
        Command::Day { day } => shown(book.day(day)),
    }
}
