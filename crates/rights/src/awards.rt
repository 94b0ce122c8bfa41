// What an award brings to the holdings.
ghost use Rattle.std.specs.Prelude.{◌≡◌, ◌-◌};
ghost use Rattle.rights.specs.Holdings.{awarded};

use super::hours::Hour;
use numbering::{AuctionNumber, HOURS, PARTICIPANTS, Span};

// The MW that an award gives to each participant are held in each hour.
pub fn hold_awarded(
    rights: &mut [Hour; HOURS],
    auction: AuctionNumber,
    mw: &[u16; PARTICIPANTS],
    span: Span,
)
    ensures { rights.new ≡ awarded (auction.number - 1) mw.now span.first span.hours rights.old }
{
    for hour in &mut rights[span.first..span.end()] {
        hour.hold(auction, mw);
    }
}
