//! Runs of lent ranges: bytes that lie one behind another in memory, as one slice.
ghost use Rattle.std.specs.Prelude.{◌≡◌, ◌+◌, ◌<◌, ◌≤◌, ℕ, List, true, take, drop, length};
ghost use Rattle.sealed.specs.Blob.{Lost};
ghost use Rattle.sealed.specs.Sealed.{StandsFor};
ghost use Rattle.sealed.specs.Runs.{is_absent_at};
ghost use Rattle.session.specs.LentFrom.{HasRebuilt, lists_of};
ghost use Rattle.session.specs.Runs.{AreRunsFrom, IsRunFrom};

use crate::{Lending, LentSlice};
use lent::Grant;
use sealed::Sealed;

impl Lending {
    /// Lends runs of the range from its byte `from` on, in order, as many as there are and `target`
    /// takes. Returns their number, which is 0 if the range ends at `from` or before.
    ///
    /// A run has as many bytes as lie one behind another in memory. A rebuilt piece is a run of its
    /// own. A blob from which nothing was ever lost is one run, or two if its last stripe has
    /// memory of its own.
    pub fn lend_runs<'a>(&'a self, from: u64, target: &mut [LentSlice<'a>]) -> usize
        ensures count { result ≤ length target.old }
        ensures runs { AreRunsFrom self.now from (length target.old) (take result target.new) }
        ensures unchanged { drop result target.new ≡ drop result target.old }
    {
        let mut from = from;
        let mut count = 0;
        while count < target.len() && from < self.grant.len {
            let bytes = run_at(&self.grant, self.rebuilt.as_slice(), from);
            from += bytes.len() as u64;
            target[count] = LentSlice { bytes };
            count += 1;
        }
        count
    }
}

/// The run of the range that begins at its byte `from`.
fn run_at<'a>(grant: &'a Grant, rebuilt: &'a [Vec<u8>], from: u64) -> &'a [u8]
    requires inside { from < grant.now.len }
    requires rebuilt { HasRebuilt grant.now (lists_of rebuilt.now) }
    requires stands { (b : List ℕ) × (lost : Lost) × StandsFor grant.now.sealed.value b lost }
    ensures run { IsRunFrom grant.now from result.now }
{
    let sealed: &Sealed = &grant.sealed;
    prove!(grant.len <= sealed.len);
    let run = sealed.run(grant.start + from, grant.len - from);
    if run.is_empty() {
        return rebuilt_at(grant, rebuilt, from);
    }
    run
}

/// The rebuilt bytes of the range from its byte `from` on, up to the end of its piece.
fn rebuilt_at<'a>(grant: &Grant, rebuilt: &'a [Vec<u8>], from: u64) -> &'a [u8]
    requires inside { from < grant.now.len }
    requires rebuilt { HasRebuilt grant.now (lists_of rebuilt.now) }
    requires stands { (b : List ℕ) × (lost : Lost) × StandsFor grant.now.sealed.value b lost }
    requires absent { is_absent_at grant.now.sealed.value (grant.now.start + from) ≡ true }
    ensures run { IsRunFrom grant.now from result.now }
{
    let width = u64::from(grant.sealed.width.get());
    let at = grant.start + from;
    let begin = grant.start.max(at / width * width);
    let piece = (at / width - grant.start / width) as usize;
    &rebuilt[piece].as_slice()[(at - begin) as usize..]
}
