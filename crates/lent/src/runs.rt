//! Runs: pieces of a range that lie one behind another in memory, as one piece.
ghost use Rattle.std.specs.Prelude.{◌≡◌, ◌+◌, ◌/◌, ◌%◌, ◌<◌, ◌≤◌, ℕ, List, [], false};
ghost use Rattle.std.specs.Prelude.{IfOk, IfSome, IfNone, OnErr, slice_range};
ghost use Rattle.lrc_code.specs.Code.{data_count};
ghost use Rattle.sealed.specs.Blob.{Lost};
ghost use Rattle.sealed.specs.Sealed.{StandsFor, absent_in};
ghost use Rattle.sealed.specs.Range.{cut_end};
ghost use Rattle.lent.specs.Runs.{IsRunStep, begin_at};
ghost use Rattle.lent.specs.Walk.{IsAbsent, Joins, bytes_ahead};

use crate::{Grant, Piece, Walk};
use lrc_code::NoMemory;
use sealed::Sealed;
use std::alloc::Global;

impl<'a> Walk<'a> {
    /// The next piece, as `next_piece` returns it, joined with the pieces behind it that are lent
    /// and follow it in memory. `None` behind the last part. It allocates only for a lost fragment,
    /// whose piece stays alone. `NoMemory` if memory runs out; the walk then stays where it was.
    ///
    /// A blob from which nothing was ever lost lies in memory as one run, or as two if its last
    /// stripe has memory of its own.
    pub fn next_run(&mut self, alloc: Global) -> Result<Option<Piece<'a>>, NoMemory>
        ensures ok { IfOk result (IsRunStep self.old self.new) }
        ensures joins { IfOk result (λ r. IfSome r (Joins self.old self.new)) }
        ensures end { IfOk result (λ r. IfNone r ((b : List ℕ) → bytes_ahead self.old b ≡ [])) }
        ensures err { OnErr result (self.new ≡ self.old) }
        ensures refused { OnErr result (IsAbsent self.old.sealed self.old.parts) }
    {
        if self.at < self.end {
            let grant: &'a Grant = self.grant;
            if let Some((run, behind)) = run_at(grant, self.at) {
                self.at = behind;
                return Ok(Some(Piece::Lent(run)));
            }
        }
        self.next_piece(alloc)
    }
}

/// The run of the range that begins at its part of the `k`-th data fragment, and the number of the
/// data fragment behind the run. `None` if the `k`-th one is lost.
fn run_at(grant: &Grant, k: u64) -> Option<(&[u8], u64)>
    requires first { grant.now.start / grant.now.sealed.value.width ≤ k }
    requires last { k < cut_end grant.now.sealed.value.width grant.now.start grant.now.len }
    ensures present { IfSome result (λ r. absent_in grant.now.sealed.value
        (k / data_count grant.now.sealed.value.code) (k % data_count grant.now.sealed.value.code)
        ≡ false) }
    ensures more { IfSome result (λ r. k < r.1) }
    ensures inside { IfSome result (λ r.
        r.1 ≤ cut_end grant.now.sealed.value.width grant.now.start grant.now.len) }
    ensures bytes { IfSome result (λ r. (b : List ℕ) (lost : Lost)
        → StandsFor grant.now.sealed.value b lost → r.0.now ≡ slice_range b
        (begin_at grant.now.sealed.value.width grant.now.start (grant.now.start + grant.now.len) k)
        (begin_at grant.now.sealed.value.width grant.now.start (grant.now.start + grant.now.len)
        r.1)) }
{
    let sealed: &Sealed = &grant.sealed;
    let width = u64::from(sealed.width.get());
    let from = grant.start.max(k * width);
    let run = sealed.run(from, grant.start + grant.len - from);
    if run.is_empty() {
        return None;
    }
    Some((run, (from + run.len() as u64).div_ceil(width)))
}
