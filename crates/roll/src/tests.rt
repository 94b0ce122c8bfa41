// Examples of rolls, with slips of paper that stand by their number.
ghost use Rattle.std.specs.Prelude.{nat_le};
ghost use Rattle.std.proofs.Common.{rules};

use super::*;

#[derive(Clone, Copy, PartialEq, Eq, Debug)]
struct Slip {
    number: u8,
    cents: u64,
}

impl Ranked for Slip {
    ghost first = { λ x y. nat_le x.number y.number };

    ghost either = { Prim.search rules };

    ghost carries = { Prim.search rules };

    fn comes_first(&self, other: &Slip) -> bool {
        self.number <= other.number
    }
}

impl Spendable for Slip {
    ghost amount = { λ x. x.cents };

    ghost lowered = { λ n x. record { number = x.number; cents = n } };

    ghost lowers = { Prim.search rules };

    ghost stands = { Prim.search rules };

    ghost stood = { Prim.search rules };

    fn amount_of(&self) -> u64 {
        self.cents
    }

    fn lower(&self, n: u64) -> Slip {
        Slip {
            number: self.number,
            cents: n,
        }
    }
}

fn numbered(number: u8, cents: u64) -> Slip {
    Slip { number, cents }
}

#[test]
fn level_records_stand_in_order_of_arrival(rt: HostRuntime) {
    let mut places = [numbered(0, 0); 4];
    let mut roll = Roll::over(&mut places, 0);
    assert_eq!(rt; roll.insert(numbered(5, 1)), Ok(()));
    assert_eq!(rt; roll.insert(numbered(3, 2)), Ok(()));
    assert_eq!(rt; roll.insert(numbered(5, 3)), Ok(()));
    assert_eq!(rt; roll.insert(numbered(4, 4)), Ok(()));
    assert_eq!(rt; roll.insert(numbered(1, 5)), Err(Full));
    assert_eq!(rt; roll.len(), 4);
    assert_eq!(rt;
        [
            places[0].cents,
            places[1].cents,
            places[2].cents,
            places[3].cents,
        ],
        [2, 4, 1, 3]
    );
}

#[test]
fn a_sum_empties_the_first_then_the_next(rt: HostRuntime) {
    let mut places = [numbered(1, 10), numbered(2, 20), numbered(3, 30)];
    assert_eq!(rt; left_over(&places, 45), 0);
    assert_eq!(rt; left_over(&places, 75), 15);
    let mut roll = Roll::over(&mut places, 3);
    assert_eq!(rt; roll.spend(25), (25, 0));
    assert_eq!(rt; roll.len(), 2);
    assert_eq!(rt; roll.insert(numbered(2, 7)), Ok(()));
    assert_eq!(rt; roll.spend(100), (42, 58));
    assert_eq!(rt; roll.len(), 0);
}

#[test]
fn what_stands_before_a_part_stays(rt: HostRuntime) {
    let mut places = [numbered(1, 10), numbered(2, 20), numbered(3, 30)];
    let mut roll = Roll::over(&mut places[1..3], 2);
    assert_eq!(rt; roll.spend(20), (20, 0));
    assert_eq!(rt; roll.len(), 1);
    assert_eq!(rt; [places[0].cents, places[1].cents], [10, 30]);
}

#[test]
fn each_is_changed_by_what_stands_at_its_place(rt: HostRuntime) {
    let mut slips = [numbered(1, 10), numbered(2, 20), numbered(3, 30)];
    change_each(
        &mut slips,
        &[5, 6, 7],
        |slip, cents| numbered(slip.number, cents),
    );
    assert_eq!(rt; [slips[0].cents, slips[1].cents, slips[2].cents], [5, 6, 7]);
    assert_eq!(rt; slips[2].number, 3);
}
