// All that the book itself records.
ghost use Rattle.std.specs.Prelude.{◌≡◌};
ghost use Rattle.ledger.specs.Ledgers.{account_at, auction_at, new_ledger, sheet_at};
ghost use Rattle.ledger.specs.Sound.{Sound};

use super::auctions::{Auction, Direction};
use account::Account;
use auction::{Product, Sheet};
use numbering::{AUCTIONS, AuctionNumber, HOURS, PARTICIPANTS, Participant};
use rights::Hour;

// `receipts` bids were granted, and the first `opened` auctions are there: a count beside an array of plain records, as
// everywhere where the rules bound a number. `Sound` is asked by calls and is no ghost field: the rules build ledgers
// as plain records, and each of these would have to carry a proof.
#[derive(Clone, Copy, PartialEq, Eq, Debug)]
pub struct Ledger {
    pub day: u16,
    pub receipts: u64,
    pub opened: usize,
    pub auctions: [Auction; AUCTIONS],
    pub rights: [Hour; HOURS],
    pub accounts: [Account; PARTICIPANTS],
}

impl Ledger {
    // Day 0, no auction, no debt.
    pub fn new() -> Ledger
        ensures value { result ≡ new_ledger }
        ensures sound { Sound result }
    {
        let unopened = Auction::new(Direction { from: 0, to: 0 }, 0, Product { hours: 0 }, 0);
        Ledger {
            day: 0,
            receipts: 0,
            opened: 0,
            auctions: [unopened; AUCTIONS],
            rights: [Hour::empty(); HOURS],
            accounts: [Account::empty(); PARTICIPANTS],
        }
    }

    // The auction of a number.
    pub fn auction(&self, a: AuctionNumber) -> &Auction
        ensures { result.now ≡ auction_at self.now a.number }
    {
        &self.auctions[a.index()]
    }

    // A participant's sheet in an auction.
    pub fn sheet(&self, p: Participant, a: AuctionNumber) -> &Sheet
        ensures { result.now ≡ sheet_at self.now a.number p.number }
    {
        &self.auction(a).sheets[p.index()]
    }

    // A participant's account.
    pub fn account(&self, p: Participant) -> &Account
        ensures { result.now ≡ account_at self.now p.number }
    {
        &self.accounts[p.index()]
    }
}
