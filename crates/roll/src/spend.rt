// A sum spent along records: the first is emptied, then the next.
ghost use Rattle.std.specs.Prelude.{◌≡◌, ℕ, ◌+◌, ◌-◌, ◌≤◌, min, length, take};
ghost use Rattle.roll.specs.Rolls.{Ordered, laid};
ghost use Rattle.roll.specs.Spending.{Emptied, spent};
ghost use Rattle.roll.specs.Sums.{sum_of};
ghost use Rattle.roll.specs.Views.{list_of, row_of};

use super::places::close_up;
use super::record::Spendable;
use super::rolls::Roll;

// What a sum would leave over along the records.
pub fn left_over<T: Spendable>(records: &[T], sum: u64) -> u64
    ensures { result ≡ sum - sum_of T.amount records.now }
{
    records
        .iter()
        .fold(sum, |left, x| left.saturating_sub(x.amount_of()))
}

// How many records a sum empties, and what is left of it then. (A loop, since it answers from within where the sum
// gives out.)
fn emptied<T: Spendable>(records: &[T], sum: u64) -> (usize, u64)
    ensures { Emptied T.amount T.lowered sum records.now result.0 result.1 }
{
    let mut rest = sum;
    for (i, x) in records.iter().enumerate() {
        let amount = x.amount_of();
        if rest < amount {
            return (i, rest);
        }
        rest -= amount;
    }
    (records.len(), rest)
}

// Spends a sum along the first `n` places: how many still hold records, and what is left of the sum.
pub fn spend_in<T: Spendable>(places: &mut [T], n: usize, sum: u64) -> (usize, u64)
    requires { n ≤ length places.old }
    ensures after { places.new ≡ laid (spent T.amount T.lowered sum (take n places.old)) places.old }
    ensures len { result.0 ≡ length (spent T.amount T.lowered sum (take n places.old)) }
    ensures left { result.1 ≡ sum - sum_of T.amount (take n places.old) }
{
    let (gone, left) = emptied(&places[0..n], sum);
    close_up(places, n, gone);
    if gone < n {
        let x = places[0];
        places[0] = x.lower(x.amount_of() - left);
        return (n - gone, 0);
    }
    (0, left)
}

impl<T: Spendable> Roll<'_, T> {
    // Spends a sum along the roll: the sum spent and the sum left over.
    pub fn spend(&mut self, sum: u64) -> (u64, u64)
        requires { self.old.len ≤ length (row_of self.old) }
        ensures value { result ≡ (min sum (sum_of T.amount (list_of self.old)), sum - sum_of T.amount (list_of self.old)) }
        ensures list { list_of self.new ≡ spent T.amount T.lowered sum (list_of self.old) }
        ensures row { row_of self.new ≡ laid (spent T.amount T.lowered sum (list_of self.old)) (row_of self.old) }
        ensures len { self.new.len ≡ length (spent T.amount T.lowered sum (list_of self.old)) }
        ensures parts { result.0 + result.1 ≡ sum }
        ensures balance { sum_of T.amount (list_of self.old) ≡ sum_of T.amount (list_of self.new) + result.0 }
        ensures size { length (row_of self.new) ≡ length (row_of self.old) }
        ensures room { self.new.len ≤ length (row_of self.new) }
        ensures order { Ordered T.Ranked.first (list_of self.old) → Ordered T.Ranked.first (list_of self.new) }
        ensures lender { self.new.places.ghost_name ≡ self.old.places.ghost_name }
    {
        let n = self.len;
        let (len, left) = spend_in(self.places, n, sum);
        self.len = len;
        (sum - left, left)
    }
}
