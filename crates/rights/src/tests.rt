// Examples of rights.
use super::*;
use numbering::{AuctionNumber, Participant, Span};

// Holdings of 30 and 40 MW, priced 100, after a cut to the limit: the MW lost, the holdings and the claims.
fn cut_two(limit: u16) -> (u32, [u16; 2], [u64; 2]) {
    let mut hour = Hour::empty();
    hour.rows[0][0] = 30;
    hour.rows[0][1] = 40;
    let mut claims = [0; PARTICIPANTS];
    let mut prices = [None; AUCTIONS];
    prices[0] = Some(100);
    let lost = cut_hour(&mut hour, &mut claims, &prices, limit);
    let auction = AuctionNumber { number: 1 };
    let holders = [Participant { number: 1 }, Participant { number: 2 }];
    let held = holders.map(|holder| hour.holding(auction, holder));
    (lost, held, [claims[0], claims[1]])
}

fn nothing_held() -> [Hour; HOURS] {
    [Hour::empty(); HOURS]
}

#[test]
fn a_cut_shares_the_limit(rt: HostRuntime) {
    assert_eq!(rt; cut_two(70), (0, [30, 40], [0, 0]));
    assert_eq!(rt; cut_two(50), (21, [21, 28], [900, 1200]));
}

#[test]
fn an_award_is_held_in_its_hours(rt: HostRuntime) {
    let mut rights = nothing_held();
    let mut mw = [0; PARTICIPANTS];
    mw[4] = 30;
    let auction = AuctionNumber { number: 3 };
    let holder = Participant { number: 5 };
    let span = Span { first: 3, hours: 2 };
    hold_awarded(&mut rights, auction, &mw, span);
    assert!(rt; holds_through(&rights, auction, holder, 30, span));
    assert!(rt; !holds_through(&rights, auction, holder, 31, span));
    assert!(rt; !holds_through(&rights, auction, holder, 30, Span { first: 3, hours: 3 }));
    assert!(rt; !holds_through(&rights, AuctionNumber { number: 2 }, holder, 30, span));
}

#[test]
fn returned_rights_leave_and_wait(rt: HostRuntime) {
    let mut rights = nothing_held();
    let mut mw = [0; PARTICIPANTS];
    mw[4] = 30;
    let auction = AuctionNumber { number: 3 };
    let holder = Participant { number: 5 };
    hold_awarded(&mut rights, auction, &mw, Span { first: 3, hours: 2 });
    let mut waiting = Hour::empty();
    let last = Span { first: 4, hours: 1 };
    if holds_through(&rights, auction, holder, 12, last) {
        return_out(&mut rights, auction, holder, 12, last);
        waiting.wait_more(auction, holder, 12);
    }
    assert_eq!(rt;
        [
            rights[3].holding(auction, holder),
            rights[4].holding(auction, holder)
        ],
        [30, 18]
    );
    assert_eq!(rt; waits(&waiting), [0, 0, 0, 0, 12, 0, 0, 0, 0, 0, 0, 0]);
}
