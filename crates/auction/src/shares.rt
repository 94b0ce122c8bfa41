// What the bids above the price and at it ask for, and how the MW at the price are shared.
ghost use Rattle.std.specs.Prelude.{◌≡◌, map};
ghost use Rattle.auction.specs.Award.{total_shares, share_level, sharing_of, LargestLevel};
ghost use Rattle.auction.specs.Demands.{demand_of, at_of, granted_mw};

use super::bids::Bids;
use numbering::PARTICIPANTS;

// A participant's MW above the price and at it.
#[derive(Clone, Copy, PartialEq, Eq, Debug)]
pub struct Demand {
    pub above: u32,
    pub at: u32,
}

impl Demand {
    // What bids ask for above the price and at it; below it they get nothing. (One match of each bid with the price.)
    pub(crate) fn of(bids: Bids, price: u32) -> Demand
        ensures { result ≡ demand_of price bids.entry.list.now }
    {
        let mut above = 0;
        let mut at = 0;
        for b in bids.list {
            match b.price {
                p if p > price => above += u32::from(b.mw),
                p if p == price => at += u32::from(b.mw),
                _ => {}
            }
        }
        Demand { above, at }
    }

    // What the participant gets: all that it asks for above the price, and its share at it.
    pub(crate) fn granted(self, sharing: Option<u64>) -> u64
        ensures { result ≡ granted_mw sharing self }
    {
        let at = u64::from(self.at);
        u64::from(self.above) + sharing.map_or(at, |most| at.min(most))
    }
}

// What all get at the price if none gets more than `most`.
fn total_shares(demands: &[Demand; PARTICIPANTS], most: u64) -> u64
    ensures { result ≡ total_shares (map at_of demands.now) most }
{
    demands.iter().map(|d| u64::from(d.at).min(most)).sum()
}

// The largest number that each may get so that all get at most `remaining`, found by halving.
fn share_level(demands: &[Demand; PARTICIPANTS], remaining: u64) -> u64
    ensures value { result ≡ share_level remaining (map at_of demands.now) }
    ensures largest { LargestLevel remaining (map at_of demands.now) result }
{
    let mut fits = 0;
    let mut most = remaining;
    while fits < most {
        let middle = most - (most - fits) / 2;
        if total_shares(demands, middle) <= remaining {
            fits = middle;
        } else {
            most = middle - 1;
        }
    }
    fits
}

// The most that each gets of what remains for the bids at the price; none where there is enough for all.
pub(crate) fn sharing(demands: &[Demand; PARTICIPANTS], remaining: u64) -> Option<u64>
    ensures { result ≡ sharing_of remaining (map at_of demands.now) }
{
    let asked: u64 = demands.iter().map(|d| u64::from(d.at)).sum();
    if asked <= remaining {
        None
    } else {
        Some(share_level(demands, remaining))
    }
}
