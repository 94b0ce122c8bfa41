// Rows of records, changed one by one by what stands at the same places in another row.
ghost use Rattle.std.specs.Prelude.{◌≡◌, ℕ, ◌<◌, ◌≤◌, length, slice_index_or};
ghost use Rattle.roll.specs.Rows.{Changes, each_with};

// Changes each record of a row by the value at its place in another row.
pub fn change_each<X: Copy, V: Copy, F: Fn(X, V) -> X>(xs: &mut [X], vs: &[V], change: F)
    requires long { length xs.old ≤ length vs.now }
    requires may { (i : ℕ) (d : X) (e : V) → i < length xs.old → F.pre change (slice_index_or xs.old i d) (slice_index_or vs.now i e) }
    ensures { (changed : V → X → X) → Changes (F.post change) changed → xs.new ≡ each_with changed vs.now xs.old }
{
    // (By place: what stands in a list after `zip` with `iter_mut` is not known to a proof.)
    for (i, x) in xs.iter_mut().enumerate() {
        *x = change(*x, vs[i]);
    }
}
