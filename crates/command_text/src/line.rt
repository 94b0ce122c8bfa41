// One line of text as the bytes of its command.
ghost use Rattle.std.specs.Prelude.{◌≡◌, ◌+◌, ◌≤◌, map};
ghost use Rattle.arrayvec.specs.ArrayVec.{array_vec_len};
ghost use Rattle.command.specs.Table.{total};
ghost use Rattle.command_text.specs.Lines.{OneCommand, Scanned, bytes_in, ends, line_bytes, operand_bytes, packet_of, size_of};

use crate::packet::Packet;
use crate::widths::{Unsaid, Width, pack, widths};
use crate::words::{number, skip_blanks};
use arrayvec::ArrayVec;
use command::{LONGEST_COMMAND, Letter};
use lines::append;

// What should have stood in a line that cannot be read. (A letter is any byte, for which `text` has an answer: a type of
// its own would ask more of whoever makes the value.)
#[derive(Clone, Copy, PartialEq, Eq, Debug)]
pub enum Expected {
    Letter,
    Operands { letter: u8 },
}

// The bytes of the command that a line says, none for a line that says nothing: a blank one, or a comment behind `#`.
pub fn encode_line(text: &[u8]) -> Result<Packet, Expected>
    ensures value { packet_of result ≡ line_bytes text.now }
    ensures within { size_of result ≤ 52 }
    ensures back { OneCommand (packet_of result) }
{
    let mut bytes = ArrayVec::new();
    let [first, rest @ ..] = skip_blanks(text) else {
        return Ok(Packet::of(&bytes));
    };
    if *first == b'#' {
        return Ok(Packet::of(&bytes));
    }
    let Ok(letter) = Letter::try_from(*first) else {
        return Err(Expected::Letter);
    };
    append(&mut bytes, &[*first]);
    match operands(rest, widths(letter), &mut bytes) {
        Ok(()) => Ok(Packet::of(&bytes)),
        Err(Unsaid) => Err(Expected::Operands { letter: *first }),
    }
}

// Appends the operands that a text says, in these widths.
fn operands(
    text: &[u8],
    widths: &[Width],
    out: &mut ArrayVec<u8, LONGEST_COMMAND>,
) -> Result<(), Unsaid>
    requires { array_vec_len out.old + total (map bytes_in widths.now) ≤ 52 }
    ensures { Scanned (operand_bytes (map bytes_in widths.now) text.now) out.old.items result out.new.items }
{
    let text = skip_blanks(text);
    let [width, rest @ ..] = widths else {
        return says_no_more(text).then_some(()).ok_or(Unsaid);
    };
    let (value, text) = number(text).ok_or(Unsaid)?;
    pack(out, *width, value)?;
    operands(text, rest, out)
}

// The line ends here, or a comment begins.
fn says_no_more(text: &[u8]) -> bool
    ensures { result ≡ ends text.now }
{
    matches!(text, [] | [b'#', ..])
}
