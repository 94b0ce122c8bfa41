// Lines in the page: a page of exactly the length that is needed, with a byte before and a byte behind that stay.
ghost use Rattle.std.specs.Prelude.{◌+◌, ◌≤◌, length};
ghost use Rattle.lines.specs.Lines.{text_of};

use command::Unreadable;
use lines::{Line, Numbers};
use std::process::Abort;
use std::test::Fail;

// Lends the part of the page behind its first byte and before `end`.
fn lend(line: Line, page: &mut [u8], end: usize) -> usize
    requires { (1 + length (text_of line) ≤ end) × (end ≤ length page.old) }
{
    line.write(&mut page[1..end])
}

// The line is written as this text, into a part of the page that has just its length.
fn says(rt: &impl Abort, line: Line, text: &[u8]) -> Result<(), Fail>
    requires { (length (text_of line) ≤ length text.now) × (length text.now ≤ 62) }
{
    let mut page = [b'.'; 64];
    let end = 1 + text.len();
    let size = lend(line, &mut page, end);
    assert_eq!(rt; size, text.len());
    assert!(rt; &page[1..end] == text);
    assert!(rt; page[0] == b'.' && page[end] == b'.');
    Ok(())
}

#[test]
fn numbers(rt: HostRuntime) -> Result<(), Fail> {
    says(
        &rt,
        Line::Granted {
            letter: b'W',
            answer: Numbers::One(0),
        },
        b"W ok 0\n",
    )?;
    says(
        &rt,
        Line::Granted {
            letter: b'I',
            answer: Numbers::Two(9, 10),
        },
        b"I ok 9 10\n",
    )?;
    says(
        &rt,
        Line::Granted {
            letter: b'B',
            answer: Numbers::Three(1, 1_000_000_000_000, 999_999_999_999_999_999),
        },
        b"B ok 1 1000000000000 999999999999999999\n",
    )?;
    says(
        &rt,
        Line::Granted {
            letter: b'X',
            answer: Numbers::Empty,
        },
        b"X ok\n",
    )
}

#[test]
fn refusals(rt: HostRuntime) -> Result<(), Fail> {
    says(
        &rt,
        Line::Refused {
            letter: b'W',
            number: 10,
            cause: None,
        },
        b"W no 10\n",
    )?;
    says(
        &rt,
        Line::Refused {
            letter: b'D',
            number: 12,
            cause: Some(34),
        },
        b"D no 12 34\n",
    )?;
    says(
        &rt,
        Line::Unread {
            refusal: Unreadable::LongFile,
            place: 60_000,
        },
        b"? 43 60000\n",
    )
}
