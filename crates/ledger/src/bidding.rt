// Opening auctions, bidding in them and sealing them.
ghost use Rattle.std.specs.Prelude.{◌≡◌, ◌<◌, ◌≤◌};
ghost use Rattle.ledger.specs.Auctions.{sheet_of};
ghost use Rattle.ledger.specs.Ledgers.{auction_at, sheet_at};
ghost use Rattle.ledger.specs.Sound.{SoundAuction};
ghost use Rattle.ledger.specs.Stages.{auction_sealed, bid_placed, bids_kept, bids_left_out, opened_with, sealed_at, with_sheet};
ghost use Rattle.ledger.specs.declared.auctions.Stage.TheVariants.{Open, Sealed};
ghost use Rattle.auction.specs.Bids.{with_bid};

use super::auctions::Auction;
use super::ledgers::Ledger;
use super::stages::Turn;
use auction::{Bid, seal_all};
use numbering::{AuctionNumber, PARTICIPANTS, Participant};

impl Auction {
    // Puts a participant's bid onto its sheet.
    fn place(&mut self, p: Participant, bid: Bid)
        requires { (sheet_of p.number self.old).count < 4 }
        ensures { self.new ≡ with_sheet p.number (with_bid bid (sheet_of p.number self.old)) self.old }
    {
        self.sheets[p.index()].place(bid).unwrap();
    }

    // How many bids the seal kept, of all participants.
    pub fn bids_kept(&self) -> u64
        requires { (SoundAuction self.now) × (self.now.stage ≡ Sealed) }
        ensures { result ≡ bids_kept self.now }
    {
        self.sheets.iter().map(|sheet| sheet.kept as u64).sum()
    }

    // How many bids the seal left out, of all participants.
    pub fn bids_left_out(&self) -> u64
        requires { SoundAuction self.now }
        ensures { result ≡ bids_left_out self.now }
    {
        self.sheets
            .iter()
            .map(|sheet| sheet.count.saturating_sub(sheet.kept) as u64)
            .sum()
    }

    // Cuts every participant's bids at its credit limit, and closes the auction for bids.
    fn seal(&mut self, limits: &[u64; PARTICIPANTS])
        requires { self.old.stage ≡ Open }
        ensures { self.new ≡ sealed_at limits.now self.old }
    {
        seal_all(&mut self.sheets, self.product, limits);
        self.stage.turn(Turn::Seal).unwrap();
    }
}

impl Ledger {
    // Opens the next auction.
    pub fn open(&mut self, auction: Auction)
        requires { self.old.opened < 8 }
        ensures { self.new ≡ opened_with auction self.old }
    {
        self.auctions[self.opened] = auction;
        self.opened += 1;
    }

    // Places a bid, and counts its receipt.
    pub fn bid(&mut self, p: Participant, a: AuctionNumber, bid: Bid)
        requires place { (sheet_at self.old a.number p.number).count < 4 }
        requires receipts { self.old.receipts < 1000 }
        ensures { self.new ≡ bid_placed p.number a.number bid self.old }
    {
        self.auctions[a.index()].place(p, bid);
        self.receipts += 1;
    }

    // Seals an auction at the credit limits of its bidders.
    pub fn seal(&mut self, a: AuctionNumber, limits: &[u64; PARTICIPANTS])
        requires { (auction_at self.old a.number).stage ≡ Open }
        ensures { self.new ≡ auction_sealed a.number limits.now self.old }
    {
        self.auctions[a.index()].seal(limits);
    }

    // How many bids the seal of an auction kept.
    pub fn bids_kept(&self, a: AuctionNumber) -> u64
        requires sound { SoundAuction (auction_at self.now a.number) }
        requires stage { (auction_at self.now a.number).stage ≡ Sealed }
        ensures { result ≡ bids_kept (auction_at self.now a.number) }
    {
        self.auction(a).bids_kept()
    }

    // How many bids it left out.
    pub fn bids_left_out(&self, a: AuctionNumber) -> u64
        requires { SoundAuction (auction_at self.now a.number) }
        ensures { result ≡ bids_left_out (auction_at self.now a.number) }
    {
        self.auction(a).bids_left_out()
    }
}
