// Why the reader refuses, with the number that its line shows.
ghost use Rattle.std.specs.Prelude.{◌≡◌};
ghost use Rattle.command.specs.Unreadable.{number_of};

#[derive(Clone, Copy, PartialEq, Eq, Debug)]
pub enum Unreadable {
    UnknownLetter = 41,
    CutShort = 42,
    LongFile = 43,
    PageEnd = 44,
}

impl Unreadable {
    // The number that a line shows of it.
    pub fn number(self) -> u8
        ensures { result ≡ number_of self }
    {
        self as u8
    }
}
