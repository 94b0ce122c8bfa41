// Lays texts and numbers into the page, and leaves all its other bytes as they were.
ghost use Rattle.std.specs.Prelude.{◌≡◌, ◌+◌, ◌≤◌, length, decimal};
ghost use Rattle.lines.specs.Page.{laid, spaced, spaced_one};

use itoa::Buffer;

// Writes a text from `at`, and answers the place behind it.
pub fn put_text(page: &mut [u8], at: usize, text: &[u8]) -> usize
    requires { at + length text.now ≤ length page.old }
    ensures after { page.new ≡ laid at text.now page.old }
    ensures value { result ≡ at + length text.now }
{
    let end = at + text.len();
    page[at..end].copy_from_slice(text);
    end
}

// Writes the digits of a long number, as the library has them. (Never inlined: its buffer would burden the lines that
// have short ones.)
#[inline(never)]
fn put_long(page: &mut [u8], at: usize, n: u64) -> usize
    requires { at + length (decimal n) ≤ length page.old }
    ensures after { page.new ≡ laid at (decimal n) page.old }
    ensures value { result ≡ at + length (decimal n) }
{
    put_text(page, at, Buffer::new().format(n).as_bytes())
}

// From here on a number is long: the library's buffer takes as long as some six digits.
const LONG: u64 = 1_000_000;

// Writes a number in decimal, with no leading zeros: a short one digit by digit, straight into the page.
fn put_number(page: &mut [u8], at: usize, n: u64) -> usize
    requires { at + length (decimal n) ≤ length page.old }
    ensures after { page.new ≡ laid at (decimal n) page.old }
    ensures value { result ≡ at + length (decimal n) }
{
    if n < 10 {
        return put_text(page, at, &[b'0' + n as u8]);
    }
    if n >= LONG {
        return put_long(page, at, n);
    }
    let last = put_number(page, at, n / 10);
    put_text(page, last, &[b'0' + (n % 10) as u8])
}

// Writes a number after one space.
fn put_spaced(page: &mut [u8], at: usize, n: u64) -> usize
    requires { at + length (spaced_one n) ≤ length page.old }
    ensures after { page.new ≡ laid at (spaced_one n) page.old }
    ensures value { result ≡ at + length (spaced_one n) }
{
    let at = put_text(page, at, b" ");
    put_number(page, at, n)
}

// Writes each number after one space.
pub(crate) fn put_numbers(page: &mut [u8], at: usize, numbers: &[u64]) -> usize
    requires { at + length (spaced numbers.now) ≤ length page.old }
    ensures after { page.new ≡ laid at (spaced numbers.now) page.old }
    ensures value { result ≡ at + length (spaced numbers.now) }
{
    let mut end = at;
    for n in numbers {
        end = put_spaced(page, end, *n);
    }
    end
}
