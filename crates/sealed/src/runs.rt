//! Runs: bytes of a blob that lie one behind another in memory.
ghost use Rattle.std.specs.Prelude.{◌≡◌, ◌+◌, ◌<◌, ◌≤◌, ◌⊎◌, ℕ, List, [], false, true, length, min};
ghost use Rattle.std.specs.Prelude.{slice_range};
ghost use Rattle.sealed.specs.Layout.{place_of};
ghost use Rattle.sealed.specs.Blob.{Lost};
ghost use Rattle.sealed.specs.Sealed.{StandsFor};
ghost use Rattle.sealed.specs.Runs.{IsDataFrom, is_absent_at, rest_at};

use crate::{Sealed, bytes_per_stripe};

impl Sealed {
    /// The bytes of the blob from the byte `start` on that lie one behind another in memory, at
    /// most `len`. They end with the range or where a fragment ends. They are empty if `len` is 0
    /// or the byte `start` lies in a lost fragment. Does not allocate.
    ///
    /// The run goes over stripes that lack no fragment and have no patch; in other stripes it ends
    /// with the fragment.
    pub fn run(&self, start: u64, len: u64) -> &[u8]
        requires { start + len ≤ self.now.len }
        ensures bytes { (b : List ℕ) (lost : Lost) → StandsFor self.now b lost
            → result.now ≡ slice_range b start (start + length result.now) }
        ensures few { length result.now ≤ len }
        ensures present { (i : ℕ) → i < length result.now
            → is_absent_at self.now (start + i) ≡ false }
        ensures none { is_absent_at self.now start ≡ true → result.now ≡ [] }
        ensures reach { is_absent_at self.now start ≡ false
            → min len (rest_at self.now.width start) ≤ length result.now }
        ensures ends { (result.now ≡ []) ⊎ (length result.now ≡ len)
            ⊎ (place_of self.now.width (start + length result.now) ≡ 0) }
    {
        if len == 0 {
            return &[];
        }
        let (begin, end) = (start as usize, (start + len) as usize);
        let run = self.stripes.run(self.code, self.width, begin, end);
        if !run.is_empty() {
            return run;
        }
        self.rest_of_fragment(start, len)
    }

    /// The bytes from the byte `start` on to the end of its fragment, at most `len`. They are empty
    /// if the fragment is lost.
    fn rest_of_fragment(&self, start: u64, len: u64) -> &[u8]
        requires some { 0 < len }
        requires inside { start + len ≤ self.now.len }
        ensures bytes { IsDataFrom self.now.code self.now.width self.now.stripes start result.now }
        ensures few { length result.now ≤ len }
        ensures long { is_absent_at self.now start ≡ false
            → length result.now ≡ min len (rest_at self.now.width start) }
    {
        let size = bytes_per_stripe(self.code, self.width);
        let width = u64::from(self.width.get());
        let place = start % width;
        match self.fragment(start / size, (start % size / width) as u8) {
            Some(bytes) => &bytes[place as usize..width.min(place + len) as usize],
            None => &[],
        }
    }
}
