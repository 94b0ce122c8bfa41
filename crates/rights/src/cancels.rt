// Rights that were returned come back where the auction that they entered is cancelled.
ghost use Rattle.std.specs.Prelude.{◌≡◌, ◌+◌, ◌≤◌};
ghost use Rattle.roll.specs.Rows.{each_with};
ghost use Rattle.rights.specs.Bounds.{Fits, RoomFor};
ghost use Rattle.rights.specs.Holdings.{mw_of};
ghost use Rattle.rights.specs.Returns.{restored, given_back};

use super::hours::Hour;
use numbering::{HOURS, PARTICIPANTS, Span};
use roll::change_each;

// Adds what left one auction's holdings to them again, in one hour.
fn restore_row(row: &mut [u16; PARTICIPANTS], back: &[u16; PARTICIPANTS])
    requires { mw_of row.old + mw_of back.now ≤ 5000 }
    ensures { row.new ≡ each_with (λ more mw. mw + more) back.now row.old }
{
    change_each(row, back, |mw, more| mw + more);
}

// The same for all auctions.
fn restore_hour(hour: &mut Hour, waiting: &Hour)
    requires { Fits waiting.now hour.old }
    ensures { hour.new ≡ restored waiting.now hour.old }
{
    change_each(
        &mut hour.rows,
        &waiting.rows,
        |mut row, back|
            requires { mw_of row + mw_of back ≤ 5000 }
            ensures { result ≡ each_with (λ more mw. mw + more) back row }
        {
            restore_row(&mut row, &back);
            row
        },
    );
}

// Gives all that waits back to the holdings that it left, in each hour.
pub fn give_back(rights: &mut [Hour; HOURS], waiting: &Hour, span: Span)
    requires room { RoomFor waiting.now span.first span.hours rights.old }
    ensures { rights.new ≡ given_back waiting.now span.first span.hours rights.old }
{
    for hour in &mut rights[span.first..span.end()] {
        restore_hour(hour, waiting);
    }
}
