// Auctions cancelled.
ghost use Rattle.std.specs.Prelude.{◌≡◌, ◌≤◌, true, ◌||◌, map};
ghost use Rattle.ledger.specs.Auctions.{is_open, is_sealed};
ghost use Rattle.ledger.specs.Ledgers.{auction_at};
ghost use Rattle.ledger.specs.Sound.{Sound};
ghost use Rattle.ledger.specs.Stages.{auction_cancelled, cancelled, freed};

use super::auctions::Auction;
use super::ledgers::Ledger;
use super::stages::Turn;
use auction::Sheet;
use numbering::{AuctionNumber, PARTICIPANTS};
use rights::Hour;

// Frees the sums that are held.
pub(crate) fn free_all(sheets: &mut [Sheet; PARTICIPANTS])
    ensures { sheets.new ≡ map freed sheets.old }
{
    for sheet in sheets.iter_mut() {
        sheet.held = 0;
    }
}

impl Auction {
    // Frees held sums, and keeps nothing that was returned.
    fn cancel(&mut self)
        requires { (is_open self.old.stage || is_sealed self.old.stage) ≡ true }
        ensures { self.new ≡ cancelled self.old }
    {
        free_all(&mut self.sheets);
        self.stage.turn(Turn::Cancel).unwrap();
        self.returned = Hour::empty();
    }
}

impl Ledger {
    // Cancels an auction: held sums are freed, returned rights go back to the holdings that they left.
    pub fn cancel(&mut self, a: AuctionNumber)
        requires stage { (is_open (auction_at self.old a.number).stage || is_sealed (auction_at self.old a.number).stage) ≡ true }
        requires sound { Sound self.old }
        ensures { self.new ≡ auction_cancelled a.number self.old }
    {
        let auction = &self.auctions[a.index()];
        rights::give_back(&mut self.rights, &auction.returned, auction.span());
        self.auctions[a.index()].cancel();
    }
}
