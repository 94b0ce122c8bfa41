// Rights transferred and returned.
ghost use Rattle.std.specs.Prelude.{◌≡◌, ◌+◌, ◌-◌, ◌≤◌, true};
ghost use Rattle.rights.specs.Holdings.{holding, holds_through};
ghost use Rattle.rights.specs.Returns.{waiting_more};
ghost use Rattle.ledger.specs.Auctions.{with_returned};
ghost use Rattle.ledger.specs.Ledgers.{auction_at};
ghost use Rattle.ledger.specs.Moves.{rights_returned, rights_transferred};
ghost use Rattle.ledger.specs.Sound.{Sound};

use super::auctions::Auction;
use super::ledgers::Ledger;
use numbering::{AuctionNumber, Participant, Span};

impl Auction {
    // Takes in MW that a participant returns out of another auction: they wait, and raise the capacity.
    fn take_in(&mut self, p: Participant, out: AuctionNumber, mw: u16)
        requires room { self.old.capacity + mw ≤ 5000 }
        requires waiting { holding (out.number - 1) (p.number - 1) self.old.returned + mw ≤ 65535 }
        ensures { self.new ≡ with_returned (waiting_more (out.number - 1) (p.number - 1) mw self.old.returned) (self.old.capacity + mw) self.old }
    {
        self.returned.wait_more(out, p, mw);
        self.capacity += mw;
    }
}

impl Ledger {
    // Whether a participant holds so many MW of an auction in each hour of a span.
    pub fn holds_through(&self, p: Participant, a: AuctionNumber, span: Span, mw: u16) -> bool
        ensures { result ≡ holds_through (a.number - 1) (p.number - 1) mw span.first span.hours self.now.rights }
    {
        rights::holds_through(&self.rights, a, p, mw, span)
    }

    // Moves MW of an auction from the giver to the taker in each hour of a span.
    pub fn transfer(
        &mut self,
        giver: Participant,
        taker: Participant,
        a: AuctionNumber,
        span: Span,
        mw: u16,
    )
        requires held { holds_through (a.number - 1) (giver.number - 1) mw span.first span.hours self.old.rights ≡ true }
        requires sound { Sound self.old }
        ensures { self.new ≡ rights_transferred giver.number taker.number a.number span.first span.hours mw self.old }
    {
        rights::transfer(&mut self.rights, a, giver, taker, mw, span);
    }

    // Moves MW of one auction, in all hours of an open one, into that one's capacity.
    pub fn return_rights(
        &mut self,
        p: Participant,
        out: AuctionNumber,
        into: AuctionNumber,
        mw: u16,
    )
        requires room { (auction_at self.old into.number).capacity + mw ≤ 5000 }
        requires held { holds_through (out.number - 1) (p.number - 1) mw (auction_at self.old into.number).first (auction_at self.old into.number).product.hours self.old.rights ≡ true }
        requires sound { Sound self.old }
        ensures { self.new ≡ rights_returned p.number out.number into.number mw self.old }
    {
        let span = self.auction(into).span();
        rights::return_out(&mut self.rights, out, p, mw, span);
        self.auctions[into.index()].take_in(p, out, mw);
    }
}
