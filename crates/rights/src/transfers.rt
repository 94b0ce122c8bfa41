// Transfers of MW from one participant to another, in each hour of a span.
ghost use Rattle.std.specs.Prelude.{◌≡◌, ◌+◌, ◌-◌, ◌≤◌, true, slice_index};
ghost use Rattle.rights.specs.Bounds.{NotFull};
ghost use Rattle.rights.specs.Holdings.{holds_through, fewer, more, transferred};

use super::hours::Hour;
use numbering::{AuctionNumber, HOURS, PARTICIPANTS, Participant, Span};

// Whether the participant holds as many MW of the auction in each hour. (Never inlined: within a call of the book its
// loop over the hours came out twice as long.)
#[inline(never)]
pub fn holds_through(
    rights: &[Hour; HOURS],
    auction: AuctionNumber,
    holder: Participant,
    mw: u16,
    span: Span,
) -> bool
    ensures { result ≡ holds_through (auction.number - 1) (holder.number - 1) mw span.first span.hours rights.now }
{
    rights[span.first..span.end()]
        .iter()
        .all(|hour| hour.holds(auction, holder, mw))
}

// Moves MW of one auction in one hour.
fn hand(row: &mut [u16; PARTICIPANTS], giver: Participant, taker: Participant, mw: u16)
    requires held { mw ≤ slice_index row.old (giver.number - 1) }
    requires room { slice_index row.old (taker.number - 1) + mw ≤ 65535 }
    ensures { row.new ≡ more (taker.number - 1) mw (fewer (giver.number - 1) mw row.old) }
{
    row[giver.index()] -= mw;
    row[taker.index()] += mw;
}

// Moves MW of one auction from the giver to the taker in each hour.
pub fn transfer(
    rights: &mut [Hour; HOURS],
    auction: AuctionNumber,
    giver: Participant,
    taker: Participant,
    mw: u16,
    span: Span,
)
    requires held { holds_through (auction.number - 1) (giver.number - 1) mw span.first span.hours rights.old ≡ true }
    requires room { NotFull (auction.number - 1) span.first span.hours rights.old }
    ensures { rights.new ≡ transferred (auction.number - 1) (giver.number - 1) (taker.number - 1) mw span.first span.hours rights.old }
{
    for hour in &mut rights[span.first..span.end()] {
        hand(&mut hour.rows[auction.index()], giver, taker, mw);
    }
}
