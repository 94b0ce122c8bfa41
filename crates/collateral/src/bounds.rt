// The bounds of collateral, and who and which days lie within them.
ghost use Rattle.std.specs.Prelude.{◌≡◌, ℕ, ◌≤◌, true, IfSome, is_some};
ghost use Rattle.collateral.specs.Cover.{in_range, participant};

pub use numbering::PARTICIPANTS;
use numbering::Participant;

// The last day that can have cover.
pub const LAST_DAY: u16 = 9_999;

// The largest sum of a call, and the largest balance of cash after an add, in cents.
pub const MOST: u64 = 1_000_000_000_000;

// The places for guarantees that each participant has.
pub const PLACES: usize = 4;

// Whether the number is a participant's.
pub fn is_participant(p: u8) -> bool
    ensures value { result ≡ participant p }
    ensures within { result ≡ true → (1 ≤ p) × (p ≤ 12) }
{
    Participant::try_from(p).is_ok()
}

// Whether there can be cover for the participant on the day.
pub fn is_in_range(p: u8, day: u16) -> bool
    ensures value { result ≡ in_range p day }
    ensures within { result ≡ true → (1 ≤ p) × (p ≤ 12) × (day ≤ 9999) }
{
    participant_on(p, day).is_some()
}

// The participant of a number, where it can have cover on the day.
pub(crate) fn participant_on(p: u8, day: u16) -> Option<Participant>
    ensures value { is_some result ≡ in_range p day }
    ensures names { IfSome result (λ who. who.number ≡ p) }
{
    if day > LAST_DAY {
        return None;
    }
    Participant::try_from(p).ok()
}
