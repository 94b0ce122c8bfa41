// The line that answers a command.
ghost use Rattle.std.specs.Prelude.{◌≡◌, ◌≤◌, length, codes};
ghost use Rattle.lines.specs.Lines.{Modest, line, numbers_in, text_of};
ghost use Rattle.lines.specs.Page.{laid};

use crate::page::{put_numbers, put_text};
use command::Unreadable;

// The numbers of an answer: at most three. (An enum, since an answer is copied; a list of the library's is not `Copy`.)
#[derive(Clone, Copy, PartialEq, Eq, Debug)]
pub enum Numbers {
    Empty,
    One(u64),
    Two(u64, u64),
    Three(u64, u64, u64),
}

// What a line says of a command. (A letter and a number are any byte, as the page takes any: types of their own would
// ask more of whoever writes a line.)
#[derive(Clone, Copy, PartialEq, Eq, Debug)]
pub enum Line {
    // It was granted, with this answer.
    Granted {
        letter: u8,
        answer: Numbers,
    },
    // It was refused; a cause stands behind the number of the refusal.
    Refused {
        letter: u8,
        number: u8,
        cause: Option<u8>,
    },
    // It could not be read; its letter stands, or would stand, at this place of the input.
    Unread {
        refusal: Unreadable,
        place: usize,
    },
}

impl Line {
    // Writes the line at the front of a part of the page, and answers its length.
    pub fn write(self, part: &mut [u8]) -> usize
        requires { length (text_of self) ≤ length part.old }
        ensures after { part.new ≡ laid 0 (text_of self) part.old }
        ensures value { result ≡ length (text_of self) }
        ensures within { result ≤ length part.old }
        ensures bound { Modest self → result ≤ 62 }
    {
        match self {
            Line::Granted { letter, answer } => write_answer(part, letter, answer),
            Line::Refused {
                letter,
                number,
                cause: None,
            } => write_line(part, letter, b" no", &[u64::from(number)]),
            Line::Refused {
                letter,
                number,
                cause: Some(cause),
            } => write_line(part, letter, b" no", &[u64::from(number), u64::from(cause)]),
            Line::Unread { refusal, place } => write_line(
                part,
                b'?',
                b"",
                &[u64::from(refusal.number()), place as u64],
            ),
        }
    }
}

// The letter, `ok`, and the numbers of the answer.
fn write_answer(part: &mut [u8], letter: u8, answer: Numbers) -> usize
    requires { length (line letter (codes " ok") (numbers_in answer)) ≤ length part.old }
    ensures after { part.new ≡ laid 0 (line letter (codes " ok") (numbers_in answer)) part.old }
    ensures value { result ≡ length (line letter (codes " ok") (numbers_in answer)) }
{
    match answer {
        Numbers::Empty => write_line(part, letter, b" ok", &[]),
        Numbers::One(a) => write_line(part, letter, b" ok", &[a]),
        Numbers::Two(a, b) => write_line(part, letter, b" ok", &[a, b]),
        Numbers::Three(a, b, c) => write_line(part, letter, b" ok", &[a, b, c]),
    }
}

// The letter, a word and the numbers, each after one space, and a line feed.
fn write_line(part: &mut [u8], letter: u8, word: &[u8], numbers: &[u64]) -> usize
    requires { length (line letter word.now numbers.now) ≤ length part.old }
    ensures after { part.new ≡ laid 0 (line letter word.now numbers.now) part.old }
    ensures value { result ≡ length (line letter word.now numbers.now) }
{
    let at = put_text(part, 0, &[letter]);
    let at = put_text(part, at, word);
    let at = put_numbers(part, at, numbers);
    put_text(part, at, b"\n")
}
