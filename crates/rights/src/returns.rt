// Rights that are returned: they leave the holdings and wait in the auction that they enter.
ghost use Rattle.std.specs.Prelude.{◌≡◌, ℕ, ◌+◌, ◌-◌, true, replicate};
ghost use Rattle.roll.specs.Rows.{each_with};
ghost use Rattle.rights.specs.Bounds.{AtMost};
ghost use Rattle.rights.specs.Holdings.{holds_through};
ghost use Rattle.rights.specs.Returns.{returned, waits_of};

use super::hours::Hour;
use numbering::{AuctionNumber, HOURS, PARTICIPANTS, Participant, Span};
use roll::change_each;

// Takes a participant's MW of one auction out of its holdings in each hour.
pub fn return_out(
    rights: &mut [Hour; HOURS],
    auction: AuctionNumber,
    holder: Participant,
    mw: u16,
    span: Span,
)
    requires held { holds_through (auction.number - 1) (holder.number - 1) mw span.first span.hours rights.old ≡ true }
    ensures { rights.new ≡ returned (auction.number - 1) (holder.number - 1) mw span.first span.hours rights.old }
{
    for hour in &mut rights[span.first..span.end()] {
        hour.take(auction, holder, mw);
    }
}

// Adds what left one auction to what each participant has waiting. (Sums over auctions are wider than the holdings.)
fn add_row(sums: &mut [u32; PARTICIPANTS], row: &[u16; PARTICIPANTS])
    requires { AtMost 4294000000 sums.old }
    ensures value { sums.new ≡ each_with (λ mw sum. sum + mw) row.now sums.old }
    ensures within { (m : ℕ) → AtMost m sums.old → AtMost (m + 65535) sums.new }
{
    change_each(sums, row, |sum, mw| sum + u32::from(mw));
}

// What each participant has waiting, over all auctions left.
pub fn waits(waiting: &Hour) -> [u32; PARTICIPANTS]
    ensures { result ≡ waits_of waiting.now.rows (replicate 12 0) }
{
    let mut sums = [0; PARTICIPANTS];
    for row in &waiting.rows {
        add_row(&mut sums, row);
    }
    sums
}
