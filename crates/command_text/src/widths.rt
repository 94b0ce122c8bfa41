// The operands that a line says behind each letter, and how a number is packed into its width.
ghost use Rattle.std.specs.Prelude.{◌≡◌, ◌+◌, ◌≤◌, map, Some};
ghost use Rattle.arrayvec.specs.ArrayVec.{array_vec_len};
ghost use Rattle.command.specs.Letters.{byte_of};
ghost use Rattle.command.specs.Table.{total};
ghost use Rattle.command_text.specs.Lines.{Packed, bytes_in, said};

use Width::{Byte, Pair, Quad, Sum};
use arrayvec::ArrayVec;
use command::{LONGEST_COMMAND, Letter};
use lines::append;
use std::num::TryFromIntError;

// The bytes of an operand: one, two, four or eight.
#[derive(Clone, Copy, PartialEq, Eq, Debug)]
pub(crate) enum Width {
    Byte,
    Pair,
    Quad,
    Sum,
}

// The widths of the operands behind a letter; the limits of a curtailment are said one by one.
pub(crate) fn widths(letter: Letter) -> &'static [Width]
    ensures value { Some (map bytes_in result.now) ≡ said (byte_of letter) }
    ensures room { total (map bytes_in result.now) ≤ 51 }
{
    match letter {
        Letter::Add => &[Byte, Byte, Sum, Pair],
        Letter::Withdraw | Letter::Payment => &[Byte, Sum],
        Letter::Open => &[Byte, Byte, Byte, Byte, Pair],
        Letter::Bid => &[Byte, Byte, Quad, Pair],
        Letter::Seal
        | Letter::Award
        | Letter::Cancel
        | Letter::Invoice
        | Letter::Draw
        | Letter::Payout => &[Byte],
        Letter::Transfer => &[Byte, Byte, Byte, Byte, Byte, Pair],
        Letter::Return => &[Byte, Byte, Byte, Pair],
        Letter::Curtail => &CURTAIL,
        Letter::Day => &[Pair],
    }
}

// From, to and first hour, and a limit for each of 24 hours, written out: a static is not computed by a call or a loop.
static CURTAIL: [Width; 27] = [
    Byte, Byte, Byte, Pair, Pair, Pair, Pair, Pair, Pair, Pair, Pair, Pair, Pair, Pair, Pair, Pair,
    Pair, Pair, Pair, Pair, Pair, Pair, Pair, Pair, Pair, Pair, Pair,
];

// The operands are not said as they should be.
#[derive(Clone, Copy, PartialEq, Eq, Debug)]
pub(crate) struct Unsaid;

// A number does not fit its width.
impl From<TryFromIntError> for Unsaid {
    fn from(_too_large: TryFromIntError) -> Unsaid {
        Unsaid
    }
}

// Appends a number that fits its width.
pub(crate) fn pack(
    out: &mut ArrayVec<u8, LONGEST_COMMAND>,
    width: Width,
    value: u64,
) -> Result<(), Unsaid>
    requires { array_vec_len out.old + bytes_in width ≤ 52 }
    ensures { Packed (bytes_in width) value out.old.items result out.new.items }
{
    match width {
        Byte => append(out, &u8::try_from(value)?.to_be_bytes()),
        Pair => append(out, &u16::try_from(value)?.to_be_bytes()),
        Quad => append(out, &u32::try_from(value)?.to_be_bytes()),
        Sum => append(out, &value.to_be_bytes()),
    }
    Ok(())
}
