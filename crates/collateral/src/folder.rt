// The guarantees of one participant: a roll in four places, the one that runs out first in front.
ghost use Rattle.std.specs.Prelude.{◌≡◌, ℕ, ◌-◌, ◌≤◌, min, length, take, if◌then◌else◌, nat_le, Ok, Err, is_ok};
ghost use Rattle.collateral.specs.declared.kind.Cause.TheVariants.{NoPlace};
ghost use Rattle.roll.specs.Rolls.{behind, laid};
ghost use Rattle.roll.specs.Spending.{spent};
ghost use Rattle.collateral.specs.Guarantees.{at_sum, earlier, filed, folder_cover, has_free, paid_from, past_on, sum_in, used_from};
ghost use Rattle.std.proofs.Common.{rules};

use super::bounds::PLACES;
use super::kind::{Cause, Short};
use roll::{Ranked, Roll, Spendable, left_over, place_behind};

// A sum that a bank stands in for, up to its last day. (An invoice has a day and a sum too, of another meaning each.)
#[derive(Clone, Copy, PartialEq, Eq, Debug)]
pub struct Guarantee {
    pub last: u16,
    pub sum: u64,
}

impl Ranked for Guarantee {
    ghost first = { earlier };

    ghost either = { Prim.search rules };

    ghost carries = { Prim.search rules };

    fn comes_first(&self, other: &Guarantee) -> bool {
        self.last <= other.last
    }
}

impl Spendable for Guarantee {
    ghost amount = { sum_in };

    ghost lowered = { at_sum };

    ghost lowers = { Prim.search rules };

    ghost stands = { Prim.search rules };

    ghost stood = { Prim.search rules };

    fn amount_of(&self) -> u64 {
        self.sum
    }

    fn lower(&self, n: u64) -> Guarantee {
        Guarantee {
            last: self.last,
            sum: n,
        }
    }
}

// The first `count` places, lent to a roll where it works on them, hold guarantees.
// (Places and a count, as records of all participants are copied whole; a list of the library's is not `Copy`.)
#[derive(Clone, Copy, PartialEq, Eq, Debug)]
pub struct Folder {
    pub(crate) places: [Guarantee; PLACES],
    pub(crate) count: usize,
}

// The place behind the guarantees that are past on a day.
fn past_of(guarantees: &[Guarantee], day: u16) -> usize
    ensures value { result ≡ behind (past_on day) guarantees.now }
    ensures within { result ≤ length guarantees.now }
{
    place_behind(guarantees, |g| g.last < day)
}

// Spends a sum along the first `n` guarantees: how many are left.
fn spend_along(places: &mut [Guarantee], n: usize, sum: u64) -> usize
    requires { n ≤ length places.old }
    ensures value { result ≡ length (spent sum_in at_sum sum (take n places.old)) }
    ensures within { result ≤ n }
    ensures after { places.new ≡ laid (spent sum_in at_sum sum (take n places.old)) places.old }
{
    let mut roll = Roll::over(places, n);
    let (_spent, _left) = roll.spend(sum);
    roll.len()
}

// Spends a sum along the guarantees behind the first `gone`, which stay: how many are held then.
fn spend_behind(places: &mut [Guarantee], n: usize, gone: usize, sum: u64) -> usize
    requires { (gone ≤ n) × (n ≤ length places.old) }
    ensures value { result ≡ length (used_from gone sum (take n places.old)) }
    ensures after { places.new ≡ laid (used_from gone sum (take n places.old)) places.old }
{
    gone + spend_along(&mut places[gone..], n - gone, sum)
}

impl Folder {
    // How many guarantees it holds, past ones too.
    fn held(&self) -> usize
        ensures { result ≡ min self.now.count 4 }
    {
        self.count.min(PLACES)
    }

    // The lesser of the wanted sum and what is valid on the day.
    pub fn counted(&self, day: u16, wanted: u64) -> u64
        ensures { result ≡ min wanted (folder_cover self.now day) }
    {
        let n = self.held();
        let gone = past_of(&self.places[0..n], day);
        wanted - left_over(&self.places[gone..n], wanted)
    }

    // Pays a sum out of what is valid on the day, the one that runs out first in front.
    pub fn take(&mut self, day: u16, sum: u64) -> Result<(), Short>
        ensures value { is_ok result ≡ nat_le sum (folder_cover self.old day) }
        ensures after { self.new ≡ (if is_ok result then paid_from day sum self.old else self.old) }
    {
        let n = self.held();
        let gone = past_of(&self.places[0..n], day);
        if left_over(&self.places[gone..n], sum) > 0 {
            return Err(Short);
        }
        self.count = spend_behind(&mut self.places, n, gone, sum);
        Ok(())
    }

    // Puts a guarantee in its order, if a place is empty or past.
    pub fn put(&mut self, today: u16, g: Guarantee) -> Result<(), Cause>
        ensures value { result ≡ (if has_free today self.old then Ok tt else Err NoPlace) }
        ensures after { self.new ≡ (if has_free today self.old then filed today g self.old else self.old) }
    {
        let n = self.held();
        let gone = past_of(&self.places[0..n], today);
        if n - gone >= PLACES {
            return Err(Cause::NoPlace);
        }
        let mut roll = Roll::over(&mut self.places, n);
        roll.remove_front(gone);
        roll.insert(g).unwrap();
        self.count = roll.len();
        Ok(())
    }
}
