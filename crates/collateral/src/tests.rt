// Examples of collateral: cash, guarantees, and the two joined as an office holds them.
use super::cash::Cash;
use super::guarantees::Guarantees;
use super::joined::Joined;
use super::kind::{Cause, Collateral, Short};

const ALL: u64 = u64::MAX;

const TRILLION: u64 = 1_000_000_000_000;

#[test]
fn a_guarantee_counts_on_its_last_day(rt: HostRuntime) {
    let mut held = Guarantees::new();
    assert_eq!(rt; held.add(2, 2, 500_000, 60, 0), Ok(()));
    assert_eq!(rt; held.counted(2, 0, ALL), 500_000);
    assert_eq!(rt; held.counted(2, 60, ALL), 500_000);
    assert_eq!(rt; held.counted(2, 60, 499_999), 499_999);
    assert_eq!(rt; held.counted(2, 61, ALL), 0);
    assert_eq!(rt; held.counted(3, 60, ALL), 0);
}

#[test]
fn cash_is_held_up_to_its_bound(rt: HostRuntime) {
    let mut cash = Cash::new();
    assert_eq!(rt; cash.add(1, 1, TRILLION - 1, 9_999, 7), Ok(()));
    assert_eq!(rt; cash.add(1, 1, 2, 9_999, 7), Err(Cause::BadSum));
    assert_eq!(rt; cash.add(1, 1, 1, 9_999, 7), Ok(()));
    assert_eq!(rt; cash.add(1, 1, 1, 9_999, 7), Err(Cause::BadSum));
    assert_eq!(rt; cash.counted(1, 0, ALL), TRILLION);
    assert_eq!(rt; cash.counted(1, 9_999, ALL), TRILLION);
    assert_eq!(rt; cash.counted(1, 10_000, ALL), 0);
    assert_eq!(rt; cash.take(1, 5, TRILLION + 1), Err(Short));
    assert_eq!(rt; cash.take(1, 5, TRILLION), Ok(()));
    assert_eq!(rt; cash.counted(1, 0, ALL), 0);
}

#[test]
fn a_past_guarantee_frees_its_place(rt: HostRuntime) {
    let mut held = Guarantees::new();
    assert_eq!(rt; held.add(5, 2, 1, 40, 0), Ok(()));
    assert_eq!(rt; held.add(5, 2, 2, 10, 0), Ok(()));
    assert_eq!(rt; held.add(5, 2, 4, 30, 0), Ok(()));
    assert_eq!(rt; held.add(5, 2, 8, 10, 0), Ok(()));
    assert_eq!(rt; held.add(5, 2, 16, 50, 10), Err(Cause::NoPlace));
    assert_eq!(rt; held.counted(5, 10, ALL), 15);
    assert_eq!(rt; held.add(5, 2, 16, 50, 11), Ok(()));
    assert_eq!(rt; held.add(5, 2, 32, 11, 11), Ok(()));
    assert_eq!(rt; held.add(5, 2, 64, 11, 11), Err(Cause::NoPlace));
    assert_eq!(rt; held.counted(5, 11, ALL), 53);
    assert_eq!(rt; held.counted(5, 31, ALL), 17);
}

#[test]
fn the_guarantee_that_runs_out_first_pays(rt: HostRuntime) {
    let mut held = Guarantees::new();
    assert_eq!(rt; held.add(1, 2, 30, 7, 0), Ok(()));
    assert_eq!(rt; held.add(1, 2, 10, 5, 0), Ok(()));
    assert_eq!(rt; held.add(1, 2, 20, 6, 0), Ok(()));
    assert_eq!(rt; held.add(1, 2, 40, 3, 0), Ok(()));
    assert_eq!(rt; held.take(1, 4, 25), Ok(()));
    assert_eq!(rt; held.counted(1, 3, ALL), 75);
    assert_eq!(rt; held.counted(1, 5, ALL), 35);
    assert_eq!(rt; held.counted(1, 6, ALL), 35);
    assert_eq!(rt; held.counted(1, 7, ALL), 30);
    assert_eq!(rt; held.add(1, 2, 1, 6, 0), Ok(()));
    assert_eq!(rt; held.take(1, 5, 37), Err(Short));
    assert_eq!(rt; held.take(1, 5, 36), Ok(()));
    assert_eq!(rt; held.counted(1, 3, ALL), 40);
}

#[test]
fn a_take_empties_cash_first(rt: HostRuntime) {
    let mut held = Joined::new();
    assert_eq!(rt; held.add(1, 1, 100, 9_999, 0), Ok(()));
    assert_eq!(rt; held.add(1, 2, 50, 60, 0), Ok(()));
    assert_eq!(rt; held.counted(1, 61, ALL), 100);
    assert_eq!(rt; held.take(1, 10, 151), Err(Short));
    assert_eq!(rt; held.counted(1, 10, ALL), 150);
    assert_eq!(rt; held.take(1, 10, 120), Ok(()));
    assert_eq!(rt; held.first.counted(1, 10, ALL), 0);
    assert_eq!(rt; held.second.counted(1, 60, ALL), 30);
    assert_eq!(rt; held.take(1, 60, 30), Ok(()));
    assert_eq!(rt; held.counted(1, 0, ALL), 0);
}

// An add on day 20, and the number of its cause if it is refused.
#[derive(Clone, Copy, PartialEq, Eq, Debug)]
struct Tried {
    p: u8,
    kind: u8,
    sum: u64,
    last: u16,
    answer: Result<(), u8>,
}

fn on_day_20(p: u8, kind: u8, sum: u64, last: u16, answer: Result<(), u8>) -> Tried {
    Tried {
        p,
        kind,
        sum,
        last,
        answer,
    }
}

// Participant 1 has all the cash that it may have, and four guarantees.
#[test]
fn causes_are_tried_in_order(rt: HostRuntime) {
    let mut held = Joined::new();
    assert_eq!(rt; held.add(1, 1, TRILLION, 9_999, 20), Ok(()));
    for _ in 0..4 {
        assert_eq!(rt; held.add(1, 2, 1, 20, 20), Ok(()));
    }
    let adds = [
        on_day_20(0, 3, 0, 19, Err(30)),
        on_day_20(13, 2, 0, 19, Err(30)),
        on_day_20(1, 3, 0, 19, Err(31)),
        on_day_20(1, 2, 0, 19, Err(34)),
        on_day_20(1, 2, TRILLION + 1, 19, Err(34)),
        on_day_20(1, 2, TRILLION, 19, Err(32)),
        on_day_20(1, 2, 1, 9_999, Err(32)),
        on_day_20(1, 2, 1, 9_998, Err(33)),
        on_day_20(1, 1, 0, 9_998, Err(34)),
        on_day_20(1, 1, 1, 9_998, Err(34)),
        on_day_20(2, 1, 1, 9_998, Err(32)),
        on_day_20(2, 1, 1, 9_999, Ok(())),
        on_day_20(2, 2, TRILLION, 20, Ok(())),
    ];
    for add in adds {
        let mut once = held;
        let answer = once.add(add.p, add.kind, add.sum, add.last, 20);
        assert_eq!(rt; answer.map_err(|cause| cause.number()), add.answer);
    }
}

#[test]
fn strangers_and_far_days_have_no_cover(rt: HostRuntime) {
    let mut held = Joined::new();
    assert_eq!(rt; held.add(12, 1, 7, 9_999, 0), Ok(()));
    assert_eq!(rt; held.take(0, 5, 1), Err(Short));
    assert_eq!(rt; held.take(0, 5, 0), Ok(()));
    assert_eq!(rt; held.take(13, 5, 1), Err(Short));
    assert_eq!(rt; held.counted(13, 5, ALL), 0);
    assert_eq!(rt; held.counted(255, u16::MAX, ALL), 0);
    assert_eq!(rt; held.take(12, 10_000, 1), Err(Short));
    assert_eq!(rt; held.take(12, 10_000, 0), Ok(()));
    assert_eq!(rt; held.take(12, 9_999, 7), Ok(()));
    assert!(rt; held.knows(1) && held.knows(2));
    assert!(rt; !held.knows(0) && !held.knows(3));
}
