// The roll itself: records in the front of the places that an owner lends.
ghost use Rattle.std.specs.Prelude.{◌≡◌, ℕ};

// The first `len` places hold records, the others are free. (Lent places and a count, since the records that own a roll
// are plain and copied: a list of the library's is not `Copy`.) That `len` fits the places is asked by the calls that
// need it: as a fact of the type, `over` would ask it of every lender.
#[derive(Drop)]
pub struct Roll<'a, T> {
    pub(crate) places: &'a mut [T],
    pub(crate) len: usize,
}

// No place of a roll is free.
#[derive(Clone, Copy, PartialEq, Eq, Debug)]
pub struct Full;

impl<'a, T> Roll<'a, T> {
    // A roll in lent places, of which the first `len` hold records.
    pub fn over(places: &'a mut [T], len: usize) -> Roll<'a, T>
        ensures len { result.len ≡ len }
        ensures row { result.places.now ≡ places.old }
        ensures lender { result.places.ghost_name ≡ places.entry.ghost_name }
    {
        Roll { places, len }
    }

    // How many records it holds.
    pub fn len(&self) -> usize
        ensures { result ≡ self.now.len }
    {
        self.len
    }
}
