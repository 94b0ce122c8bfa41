// The MW held in one hour.
ghost use Rattle.std.specs.Prelude.{◌≡◌, ◌+◌, ◌-◌, ◌≤◌};
ghost use Rattle.rights.specs.Holdings.{nothing, holding, holds, with_row};
ghost use Rattle.rights.specs.Returns.{taken, waiting_more};

use numbering::{AUCTIONS, AuctionNumber, PARTICIPANTS, Participant};

// By auction and participant. (An array of arrays of arrays cannot be built: the inner two stand in this record.
// An auction and a holder are two parameters, since most callers have them apart.)
#[derive(Clone, Copy, PartialEq, Eq, Debug)]
pub struct Hour {
    pub rows: [[u16; PARTICIPANTS]; AUCTIONS],
}

impl Hour {
    // An hour in which nothing is held.
    pub fn empty() -> Hour
        ensures { result ≡ nothing }
    {
        Hour {
            rows: [[0; PARTICIPANTS]; AUCTIONS],
        }
    }

    // What a participant holds of an auction.
    pub fn holding(&self, auction: AuctionNumber, holder: Participant) -> u16
        ensures { result ≡ holding (auction.number - 1) (holder.number - 1) self.now }
    {
        let row = &self.rows[auction.index()];
        row[holder.index()]
    }

    // Whether it holds as many MW.
    pub(crate) fn holds(&self, auction: AuctionNumber, holder: Participant, mw: u16) -> bool
        ensures { result ≡ holds (auction.number - 1) (holder.number - 1) mw self.now }
    {
        self.holding(auction, holder) >= mw
    }

    // Holds what an award gives to each participant.
    pub(crate) fn hold(&mut self, auction: AuctionNumber, mw: &[u16; PARTICIPANTS])
        ensures { self.new ≡ with_row (auction.number - 1) mw.now self.old }
    {
        self.rows[auction.index()] = *mw;
    }

    // Takes MW out of a participant's holding.
    pub(crate) fn take(&mut self, auction: AuctionNumber, holder: Participant, mw: u16)
        requires { mw ≤ holding (auction.number - 1) (holder.number - 1) self.old }
        ensures { self.new ≡ taken (auction.number - 1) (holder.number - 1) mw self.old }
    {
        self.rows[auction.index()][holder.index()] -= mw;
    }

    // Lets MW that a participant returned out of an auction wait, where this is what waits in the auction entered.
    pub fn wait_more(&mut self, auction: AuctionNumber, holder: Participant, mw: u16)
        requires { holding (auction.number - 1) (holder.number - 1) self.old + mw ≤ 65535 }
        ensures { self.new ≡ waiting_more (auction.number - 1) (holder.number - 1) mw self.old }
    {
        self.rows[auction.index()][holder.index()] += mw;
    }
}
