//! Requests for a range.
ghost use Rattle.std.specs.Prelude.{◌≡◌, ◌+◌, ◌/◌, ◌<◌, ◌≤◌, ℕ, false, IfOk, OnErr, MatchBool};
ghost use Rattle.lrc_code.specs.Code.{data_count, Open};
ghost use Rattle.sealed.specs.Layout.{stripe_count};
ghost use Rattle.sealed.specs.Sealed.{absent_in};
ghost use Rattle.sealed.specs.Range.{is_outside, IsReadable, IsUnreadable, cut_end};
ghost use Rattle.lent.specs.Asked.{IsAnswer};

use crate::cut::{met_by, place_of};
use crate::{Asked, Grant};
use lrc_code::{LostSet, NoMemory, is_alone_in};
use sealed::Sealed;
use std::ops::Range;
use std::sync::Arc;

impl Grant {
    /// The version of the blob.
    pub fn version(&self) -> u64
        ensures { result ≡ self.now.sealed.value.version }
    {
        self.sealed.version
    }

    /// Asks for `len` bytes from the byte `start` on. `NoMemory` comes only in place of a grant, if
    /// the count of the blob's owners can't grow.
    pub fn ask(sealed: &Arc<Sealed>, start: u64, len: u64) -> Result<Asked, NoMemory>
        ensures ok { IfOk result (IsAnswer sealed.now.value start len) }
        ensures err { OnErr result ((is_outside sealed.now.value.len start len ≡ false)
            × IsReadable sealed.now.value start len) }
    {
        let blob: &Sealed = sealed;
        if start > blob.len || len > blob.len - start {
            return Ok(Asked::OutOfRange);
        }
        let met = met_by(blob, start, len);
        if !is_readable(blob, start, len, &met) {
            return Ok(Asked::Unrecoverable);
        }
        match Arc::try_clone(sealed) {
            Ok(sealed) => Ok(Asked::Granted(Grant {
                sealed,
                start,
                len,
                met,
            })),
            Err(error) => Err(error),
        }
    }
}

/// Whether no byte of the range lies in an unrecoverable fragment. It decides this stripe by
/// stripe.
#[tactic(auto, using(sealed::proofs::Counting::some_data, sealed::proofs::Counting::few_data))]
fn is_readable(sealed: &Sealed, start: u64, len: u64, met: &Range<u64>) -> bool
    requires inside { start + len ≤ sealed.now.len }
    requires first { met.now.start ≡ start / sealed.now.width }
    requires last { met.now.end ≡ cut_end sealed.now.width start len }
    ensures { MatchBool result (IsReadable sealed.now start len)
        (IsUnreadable sealed.now start len) }
{
    let mut k = met.start;
    while k < met.end {
        let (stripe, from) = place_of(sealed.code, k);
        let count = u64::from(sealed.code.data_fragments() - from).min(met.end - k);
        if has_open(sealed, stripe, from, from + count as u8) {
            return false;
        }
        k += count;
    }
    true
}

/// Whether one of the data fragments `from..to` of a stripe is unrecoverable. The first of them
/// that is lost together with another of its group decides. It is unrecoverable if the excess is
/// above 2; otherwise no fragment of the stripe is.
fn has_open(sealed: &Sealed, stripe: u64, from: u8, to: u8) -> bool
    requires stripe_below { stripe < stripe_count sealed.now.code sealed.now.width sealed.now.len }
    requires to_below { to ≤ data_count sealed.now.code }
    ensures { MatchBool result ((f : ℕ) × (from ≤ f) × (f < to)
        × Open sealed.now.code (absent_in sealed.now stripe) f)
        ((f : ℕ) → from ≤ f → f < to → Open sealed.now.code (absent_in sealed.now stripe) f → ⊥) }
{
    let lost = sealed.lost(stripe);
    if lost == LostSet::empty() {
        return false;
    }
    for f in from..to {
        if !lost.left(f) && !is_alone_in(sealed.code, lost, f) {
            return lost.excess_in(sealed.code) > 2;
        }
    }
    false
}
