// The round that is worked through: 121 MW from zone 1 to zone 2 over 24 hours, five bidders.
use auction::{Bid, Full, PARTICIPANTS, Product, Sheet};

pub(crate) const CAPACITY: u16 = 121;

pub(crate) const PRODUCT: Product = Product { hours: 24 };

// Each participant's credit limit at the seal, in cents: participant 2's keeps one of its two bids, participant 3's
// is just enough.
pub(crate) const LIMITS: [u64; PARTICIPANTS] = [
    1_500_000, 600_000, 600_000, 50_000, 1_000_000, 0, 0, 0, 0, 0, 0, 0,
];

// A sheet with these bids; the order of arrival does not matter where the prices differ.
fn sheet_of(bids: &[Bid]) -> Result<Sheet, Full> {
    let mut sheet = Sheet::empty();
    for bid in bids {
        sheet.place(*bid)?;
    }
    Ok(sheet)
}

// The bids: participants 1, 3 and 4 are level at 500, participant 5 bids too low to win.
pub(crate) fn sheets() -> Result<[Sheet; PARTICIPANTS], Full> {
    let mut sheets = [Sheet::empty(); PARTICIPANTS];
    sheets[0] = sheet_of(&[Bid { price: 500, mw: 40 }, Bid { price: 900, mw: 60 }])?;
    sheets[1] = sheet_of(&[Bid { price: 700, mw: 30 }, Bid { price: 500, mw: 30 }])?;
    sheets[2] = sheet_of(&[Bid { price: 500, mw: 50 }])?;
    sheets[3] = sheet_of(&[Bid { price: 500, mw: 4 }])?;
    sheets[4] = sheet_of(&[Bid { price: 300, mw: 80 }])?;
    Ok(sheets)
}
