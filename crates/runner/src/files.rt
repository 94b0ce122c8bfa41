// Runs the commands of an input, page by page.
ghost use Rattle.std.specs.Prelude.{◌≡◌, ◌≤◌, false, length};
ghost use Rattle.book.specs.Books.{moment};
ghost use Rattle.runner.specs.Files.{LawAfterFiles, LawAfterRuns, RanOn, RanPages};
ghost use Rattle.runner.specs.Outcomes.{goes_on};

use crate::outcomes::Ran;
use crate::running::{MOST_INPUT, run_one};
use book::Book;
use collateral::kind::Collateral;
use std::io;
use std::io::Write;

// Runs commands from a place of the input on and fills the page with their lines, until the input ends, the reader
// refuses, or the page has no room for another line: then the run goes on at the place answered, with a new page.
pub fn run<C: Collateral>(book: &mut Book<C>, input: &[u8], place: usize, page: &mut [u8]) -> Ran
    ensures value { RanOn input.now place page.old (moment C.cover C.verdict book.old) result page.new (moment C.cover C.verdict book.new) }
    ensures ended { goes_on result.outcome ≡ false }
    ensures within { result.at ≤ length page.old }
    ensures law { LawAfterRuns }
{
    let mut ran = Ran {
        outcome: Some(Ok(())),
        place,
        at: 0,
    };
    while ran.goes_on() {
        ran = run_one(book, input, ran.place, page, ran.at);
    }
    ran
}

// The bytes of lines that are written at once.
const PAGE: usize = 4096;

// Runs a whole input over a book, and writes the lines as their pages fill.
pub fn run_file<C: Collateral, W: Write>(
    book: &mut Book<C>,
    input: &[u8],
    out: &mut W,
) -> io::Result<()>
    ensures value { RanPages input.now (moment C.cover C.verdict book.old) (moment C.cover C.verdict book.new) }
    ensures law { LawAfterFiles }
{
    let mut page = [0; PAGE];
    let mut place = 0;
    // Each full page has at least one command, of at least two bytes.
    for _ in 0..MOST_INPUT {
        let ran = run(book, input, place, &mut page);
        let end = ran.at;
        out.write_all(&page[0..end])?;
        if !ran.page_is_full() {
            break;
        }
        place = ran.place;
    }
    Ok(())
}
