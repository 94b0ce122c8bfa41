// What is said of a line that cannot be read.
ghost use Rattle.std.specs.Prelude.{◌≡◌, Some};
ghost use Rattle.command_text.specs.Usage.{usage_of, wanted};

use crate::line::Expected;
use std::fmt;

impl Expected {
    // What should have stood there, in words.
    pub fn text(self) -> &'static str
        ensures { result.now ≡ wanted self }
    {
        match self {
            Expected::Letter => "one of the letters D W O B S A X T R C I M K Q N",
            Expected::Operands { letter } => usage(letter),
        }
    }
}

impl fmt::Display for Expected {
    ghost output = { λ expected. Some (wanted expected) };

    fn fmt<W: fmt::Write>(&self, f: &mut fmt::Formatter<W>) -> fmt::Result {
        f.write_str(self.text())
    }
}

// The operands behind a letter, and their widths.
fn usage(letter: u8) -> &'static str
    ensures { result.now ≡ usage_of letter }
{
    match letter {
        b'D' => "D participant kind sum last-day, in bytes 1 1 8 2",
        b'W' => "W participant sum, in bytes 1 8",
        b'O' => "O from to first-hour hours capacity, in bytes 1 1 1 1 2",
        b'B' => "B participant auction price MW, in bytes 1 1 4 2",
        b'S' => "S auction, in bytes 1",
        b'A' => "A auction, in bytes 1",
        b'X' => "X auction, in bytes 1",
        b'T' => "T giver taker auction first-hour hours MW, in bytes 1 1 1 1 1 2",
        b'R' => "R participant out-of-auction into-auction MW, in bytes 1 1 1 2",
        b'C' => "C from to first-hour, in bytes 1 1 1, and 24 limits of 2",
        b'I' => "I participant, in bytes 1",
        b'M' => "M participant sum, in bytes 1 8",
        b'K' => "K participant, in bytes 1",
        b'Q' => "Q participant, in bytes 1",
        b'N' => "N day, in bytes 2",
        _ => "",
    }
}
