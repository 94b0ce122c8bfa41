// The marginal price: the highest at which the kept bids reach the capacity.
ghost use Rattle.std.specs.Prelude.{◌≡◌, ◌≤◌};
ghost use Rattle.auction.specs.Award.{kept_lists, total_from, price_of, Clears};

use super::sheets::Sheet;
use numbering::PARTICIPANTS;

// The MW of all kept bids at the price or above.
fn total_from(sheets: &[Sheet; PARTICIPANTS], price: u32) -> u32
    ensures value { result ≡ total_from price (kept_lists sheets.now) }
    ensures within { result ≤ 3145680 }
{
    sheets.iter().map(|s| s.front().mw_from(price)).sum()
}

// The price of the auction: 0 where there is enough for all.
pub fn marginal_price(sheets: &[Sheet; PARTICIPANTS], capacity: u16) -> u32
    ensures value { result ≡ price_of capacity (kept_lists sheets.now) }
    ensures clears { Clears capacity (kept_lists sheets.now) result }
{
    if total_from(sheets, 0) <= u32::from(capacity) {
        return 0;
    }
    sheets
        .iter()
        .flat_map(|s| s.front().list)
        .map(|b| b.price)
        .filter(|price| total_from(sheets, *price) >= u32::from(capacity))
        .max()
        .unwrap_or(0)
}
