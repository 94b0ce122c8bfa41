// Where a record stands among others, and how records come into a roll and leave it.
ghost use Rattle.std.specs.Prelude.{◌≡◌, ℕ, ◌+◌, ◌-◌, ◌<◌, ◌≤◌, Bool, true, length, take, drop, if◌then◌else◌, is_ok};
ghost use Rattle.roll.specs.Tests.{Computes};
ghost use Rattle.roll.specs.Rolls.{Arrived, Ordered, behind, inserted, laid};
ghost use Rattle.roll.specs.Views.{has_room, list_of, row_of};

use super::record::Ranked;
use super::rolls::{Full, Roll};

// The place behind the last record that passes a test: 0 if none does.
pub fn place_behind<T, F: Fn(&T) -> bool>(records: &[T], passes: F) -> usize
    requires { F.IsAlwaysCallable passes }
    ensures value { (test : T → Bool) → Computes F.Fn passes test → result ≡ behind test records.now }
    ensures within { result ≤ length records.now }
{
    records.iter().rposition(passes).map_or(0, |i| i + 1)
}

// The place behind all records that come first or are level with `x`.
pub fn place_of<T: Ranked>(records: &[T], x: &T) -> usize
    ensures value { result ≡ behind (λ y. T.first y x.now) records.now }
    ensures within { result ≤ length records.now }
{
    place_behind(records, |y| y.comes_first(x))
}

// Puts `x` among the records in the first `n` places, behind those level with it. (The plain work on places and their
// count lies in functions; a roll, which has both, hands them on.)
pub fn insert_in<T: Ranked>(places: &mut [T], n: usize, x: T)
    requires { n < length places.old }
    ensures { places.new ≡ laid (inserted T.first x (take n places.old)) places.old }
{
    let at = place_of(&places[0..n], &x);
    places[n] = x;
    places[at..n + 1].rotate_right(1);
}

impl<T: Ranked> Roll<'_, T> {
    // Puts `x` behind those level with it, unless no place is free.
    pub fn insert(&mut self, x: T) -> Result<(), Full>
        requires { self.old.len ≤ length (row_of self.old) }
        ensures value { is_ok result ≡ has_room self.old }
        ensures list { list_of self.new ≡ (if is_ok result then inserted T.first x (list_of self.old) else list_of self.old) }
        ensures row { row_of self.new ≡ (if is_ok result then laid (inserted T.first x (list_of self.old)) (row_of self.old) else row_of self.old) }
        ensures len { self.new.len ≡ (if is_ok result then self.old.len + 1 else self.old.len) }
        ensures size { length (row_of self.new) ≡ length (row_of self.old) }
        ensures room { self.new.len ≤ length (row_of self.new) }
        ensures order { Ordered T.first (list_of self.old) → Ordered T.first (list_of self.new) }
        ensures level { is_ok result ≡ true → Arrived T.first x (list_of self.old) (list_of self.new) }
        ensures lender { self.new.places.ghost_name ≡ self.old.places.ghost_name }
    {
        let n = self.len;
        if n >= self.places.len() {
            return Err(Full);
        }
        insert_in(self.places, n, x);
        self.len = n + 1;
        Ok(())
    }
}

// Moves what stands behind the first `gone` of `n` places to the front.
pub(crate) fn close_up<T: Copy>(places: &mut [T], n: usize, gone: usize)
    requires { (gone ≤ n) × (n ≤ length places.old) }
    ensures { places.new ≡ laid (drop gone (take n places.old)) places.old }
{
    places.copy_within(gone..n, 0);
}

impl<T: Copy> Roll<'_, T> {
    // Takes the first `gone` records out.
    pub fn remove_front(&mut self, gone: usize)
        requires { (gone ≤ self.old.len) × (self.old.len ≤ length (row_of self.old)) }
        ensures list { list_of self.new ≡ drop gone (list_of self.old) }
        ensures row { row_of self.new ≡ laid (drop gone (list_of self.old)) (row_of self.old) }
        ensures len { self.new.len ≡ self.old.len - gone }
        ensures size { length (row_of self.new) ≡ length (row_of self.old) }
        ensures room { self.new.len ≤ length (row_of self.new) }
        ensures lender { self.new.places.ghost_name ≡ self.old.places.ghost_name }
    {
        let n = self.len;
        close_up(self.places, n, gone);
        self.len = n - gone;
    }
}
