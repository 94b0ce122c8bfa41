// What a record brings to stand in a roll: an order, and, where sums are spent along it, an amount.
ghost use Rattle.std.specs.Prelude.{◌≡◌, ℕ, ◌≤◌, Bool, true, false};

// A record with an order: of two, one comes first or they are level. (Not `Ord`, in which only equal records are level:
// bids of one price stand as they arrived, whatever their MW.)
pub trait Ranked: Copy {
    // The one comes first or is level with the other.
    ghost first: { Self → Self → Bool };

    // Whether it comes first or is level with the other.
    fn comes_first(&self, other: &Self) -> bool
        ensures { result ≡ first self.now other.now };

    ghost either: { (x y : Self) → first x y ≡ false → first y x ≡ true };

    ghost carries: { (x y z : Self) → first x y ≡ true → first y z ≡ true → first x z ≡ true };
}

// A record with an amount that can be spent in part.
pub trait Spendable: Ranked {
    ghost amount: { Self → ℕ };

    // The record with another amount, which keeps its place in the order.
    ghost lowered: { ℕ → Self → Self };

    fn amount_of(&self) -> u64
        ensures { result ≡ amount self.now };

    // The record with less of its amount.
    fn lower(&self, n: u64) -> Self
        requires { n ≤ amount self.now }
        ensures { result ≡ lowered n self.now };

    ghost lowers: { (x : Self) (n : ℕ) → amount (lowered n x) ≡ n };

    ghost stands: { (x y : Self) (n : ℕ) → Self.Ranked.first (lowered n x) y ≡ Self.Ranked.first x y };

    ghost stood: { (x y : Self) (n : ℕ) → Self.Ranked.first y (lowered n x) ≡ Self.Ranked.first y x };
}
