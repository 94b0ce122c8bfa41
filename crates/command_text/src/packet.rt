// The bytes of one command in a record of their own, which is copied as it is.
ghost use Rattle.std.specs.Prelude.{◌≡◌, ◌≤◌, length, take};

use command::LONGEST_COMMAND;
use lines::put_text;

// The bytes of a command, at the front of the array; none for a line that says nothing. (An array and a size, since the
// answer of a line is `Copy`, which a list of the library's is not.)
#[derive(Clone, Copy, PartialEq, Eq, Debug)]
pub struct Packet {
    pub bytes: [u8; LONGEST_COMMAND],
    pub size: usize,
}

impl Packet {
    // A packet of bytes that have room.
    pub(crate) fn of(text: &[u8]) -> Packet
        requires { length text.now ≤ 52 }
        ensures size { result.size ≡ length text.now }
        ensures value { take result.size result.bytes ≡ text.now }
    {
        let mut bytes = [0; LONGEST_COMMAND];
        let size = put_text(&mut bytes, 0, text);
        Packet { bytes, size }
    }

    // The bytes of the command alone.
    pub fn as_slice(&self) -> &[u8]
        ensures { result.now ≡ take self.now.size self.now.bytes }
    {
        &self.bytes[..self.size.min(LONGEST_COMMAND)]
    }
}
