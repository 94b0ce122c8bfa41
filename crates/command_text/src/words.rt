// Blanks and numbers at the front of a text.
ghost use Rattle.std.specs.Prelude.{◌≡◌, ◌+◌, ◌-◌, ◌*◌, ◌^◌, ◌<◌, true};
ghost use Rattle.std.specs.Option.{SomeIff};
ghost use Rattle.command_text.specs.Words.{Number, digit, past_blanks};

// What stands behind the blanks at the front.
pub(crate) fn skip_blanks(text: &[u8]) -> &[u8]
    ensures { result.now ≡ past_blanks text.now }
{
    let mut rest = text;
    while let [b' ' | b'\t' | b'\r', behind @ ..] = rest {
        rest = behind;
    }
    rest
}

// A number with one digit more; none past 64 bits.
fn append_digit(value: u64, b: u8) -> Option<u64>
    requires { digit b ≡ true }
    ensures { SomeIff result (value * 10 + (b - 48) < 2 ^ 64) (value * 10 + (b - 48)) }
{
    value.checked_mul(10)?.checked_add(u64::from(b - b'0'))
}

// The number in decimal at the front, and what stands behind its digits; none without a digit or past 64 bits. (Digit by
// digit: the library reads a text that is a number as a whole.)
pub(crate) fn number(text: &[u8]) -> Option<(u64, &[u8])>
    ensures { Number text.now result }
{
    let [b'0'..=b'9', ..] = text else {
        return None;
    };
    let mut value = 0;
    let mut rest = text;
    while let [b @ b'0'..=b'9', behind @ ..] = rest {
        value = append_digit(value, *b)?;
        rest = behind;
    }
    Some((value, rest))
}
