// The hours of delivery.
ghost use Rattle.std.specs.Prelude.{◌≡◌, ◌+◌, ◌≤◌};

// Delivery hours go from 0 to 191.
pub const HOURS: usize = 192;

// Hours of delivery, one after another.
#[derive(Clone, Copy, PartialEq, Eq, Debug)]
pub struct Span {
    pub first: usize,
    pub hours: usize,
    ghost inside: { first + hours ≤ 192 },
}

impl Span {
    // The hour behind its last one.
    pub fn end(self) -> usize
        ensures value { result ≡ self.first + self.hours }
        ensures within { result ≤ 192 }
    {
        self.hours + self.first
    }
}
