// Runs one command of the input, and writes its line into the page.
ghost use Rattle.std.specs.Prelude.{◌≡◌, ◌+◌, ◌<◌, ◌≤◌, true, length};
ghost use Rattle.book.specs.Books.{moment};
ghost use Rattle.lines.specs.Lines.{text_of};
ghost use Rattle.lines.specs.Page.{laid};
ghost use Rattle.runner.specs.Answers.{FitInLine};
ghost use Rattle.runner.specs.Found.{line_shown, outcome_shown, task_of};
ghost use Rattle.runner.specs.Outcomes.{goes_on};
ghost use Rattle.runner.specs.Running.{OnwardTo, Runs, is_refused, reader_line, task, to_read};

use crate::calls::perform;
use crate::outcomes::{Outcome, Ran, Refused};
use book::Book;
use collateral::kind::Collateral;
use command::{Found, Unreadable};
use lines::{Line, Numbers};
use rules::Layer;

// The most bytes of an input.
pub const MOST_INPUT: usize = 60_000;

// Room for the longest line that a call of the book can have.
const LINE_ROOM: usize = 64;

// Writes a line into the page from `at`, and answers the place behind it.
fn say(page: &mut [u8], at: usize, line: Line) -> usize
    requires { at + length (text_of line) ≤ length page.old }
    ensures after { page.new ≡ laid at (text_of line) page.old }
    ensures value { result ≡ at + length (text_of line) }
    ensures within { result ≤ length page.old }
{
    at + line.write(&mut page[at..])
}

// The next command, none at the end of the input or past it, or the reader's refusal.
fn next<'a>(input: &'a [u8], place: usize) -> Result<Option<Found<'a>>, Unreadable>
    ensures value { task_of result ≡ to_read input.now place }
    ensures within { OnwardTo (task_of result) place input.now }
{
    if input.len() > MOST_INPUT {
        return Err(Unreadable::LongFile);
    }
    command::read(input, place).transpose()
}

// The line of a call: `ok` and its numbers, or `no` and those of the refusal, with the cause where the collateral
// refused.
fn answer_line(letter: u8, answer: Result<Numbers, Refused>) -> Line
    ensures value { result ≡ line_shown letter answer }
    ensures room { FitInLine answer → length (text_of result) ≤ 64 }
{
    match answer {
        Ok(answer) => Line::Granted { letter, answer },
        Err(refused) => Line::Refused {
            letter,
            number: refused.number(),
            cause: match refused.layer() {
                Layer::Collateral => Some(refused.cause()),
                Layer::Book | Layer::Reader => None,
            },
        },
    }
}

// The answer without its numbers.
fn outcome(answer: Result<Numbers, Refused>) -> Outcome
    ensures { result ≡ outcome_shown answer }
{
    Some(answer.map(|_| ()))
}

// Says why the reader refused: a `?` line with the place of the letter; nothing where the page ends.
fn refuse(page: &mut [u8], at: usize, why: Unreadable, place: usize) -> usize
    requires { at + 64 ≤ length page.old }
    ensures after { page.new ≡ laid at (reader_line why place) page.old }
    ensures value { result ≡ at + length (reader_line why place) }
    ensures within { result ≤ length page.old }
{
    let place = match why {
        Unreadable::PageEnd => return at,
        Unreadable::LongFile => MOST_INPUT,
        Unreadable::UnknownLetter | Unreadable::CutShort => place,
    };
    say(
        page,
        at,
        Line::Unread {
            refusal: why,
            place,
        },
    )
}

// Runs the command at a place of the input over the book, and writes its line into the page from `at`. (The places are
// operands, as the rules state them: they come in as the call before answered them.)
pub fn run_one<C: Collateral>(
    book: &mut Book<C>,
    input: &[u8],
    place: usize,
    page: &mut [u8],
    at: usize,
) -> Ran
    ensures value { Runs (task input.now place page.old at) place page.old at (moment C.cover C.verdict book.old) result page.new (moment C.cover C.verdict book.new) }
    ensures refused { is_refused result.outcome ≡ true → moment C.cover C.verdict book.new ≡ moment C.cover C.verdict book.old }
    ensures within { at ≤ length page.old → result.at ≤ length page.old }
    ensures onward { goes_on result.outcome ≡ true → (place < result.place) × (result.place ≤ length input.now) }
{
    if page.len().saturating_sub(at) < LINE_ROOM {
        let outcome = Some(Err(Refused::Reader(Unreadable::PageEnd)));
        return Ran { outcome, place, at };
    }
    let next = match next(input, place) {
        Ok(next) => next,
        Err(why) => {
            return Ran {
                outcome: Some(Err(Refused::Reader(why))),
                place,
                at: refuse(page, at, why, place),
            };
        }
    };
    let Some(found) = next else {
        return Ran {
            outcome: None,
            place,
            at,
        };
    };
    let answer = perform(book, found.command);
    let line = answer_line(u8::from(found.command.letter()), answer);
    Ran {
        outcome: outcome(answer),
        place: found.next,
        at: say(page, at, line),
    }
}
