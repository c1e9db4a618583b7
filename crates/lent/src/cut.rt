//! The data fragments that a range overlaps, numbered through the blob.
ghost use Rattle.std.specs.Prelude.{◌≡◌, ◌+◌, ◌/◌, ◌%◌, ◌≤◌, ◌<◌};
ghost use Rattle.lrc_code.specs.Code.{data_count, Open};
ghost use Rattle.sealed.specs.Layout.{stripe_count};
ghost use Rattle.sealed.specs.Sealed.{absent_in};
ghost use Rattle.sealed.specs.Range.{cut_end};
ghost use Rattle.lent.specs.Cut.{cut_part};

use crate::{Grant, Part};
use lrc_code::Code;
use sealed::Sealed;
use std::ops::Range;

/// The data fragments that overlap a range inside the blob.
pub(crate) fn met_by(sealed: &Sealed, start: u64, len: u64) -> Range<u64>
    requires { start + len ≤ sealed.now.len }
    ensures start { result.start ≡ start / sealed.now.width }
    ensures end { result.end ≡ cut_end sealed.now.width start len }
{
    let width = u64::from(sealed.width.get());
    let first = start / width;
    if len == 0 {
        return first..first;
    }
    first..(start + len - 1) / width + 1
}

/// The stripe of the `k`-th data fragment of a blob, and its number there. The match gives each
/// code a constant divisor, which is faster than one from a variable.
pub(crate) fn place_of(code: Code, k: u64) -> (u64, u8)
    ensures stripe { result.0 ≡ k / data_count code }
    ensures fragment { result.1 ≡ k % data_count code }
{
    match code {
        Code::Wide => (k / 12, (k % 12) as u8),
        Code::Small => (k / 6, (k % 6) as u8),
    }
}

/// The part of the `k`-th data fragment of the blob that lies in the range.
#[tactic(auto, using(sealed::proofs::Counting::some_data))]
pub(crate) fn part_at(grant: &Grant, k: u64) -> Part
    requires first { grant.now.start / grant.now.sealed.value.width ≤ k }
    requires last { k < cut_end grant.now.sealed.value.width grant.now.start grant.now.len }
    ensures value { result ≡ cut_part grant.now.sealed.value.code grant.now.sealed.value.width
        grant.now.start (grant.now.start + grant.now.len) k }
    ensures stripe { result.stripe < stripe_count grant.now.sealed.value.code
        grant.now.sealed.value.width grant.now.sealed.value.len }
    ensures fragment { result.fragment < data_count grant.now.sealed.value.code }
    ensures closed { Open grant.now.sealed.value.code
        (absent_in grant.now.sealed.value result.stripe) result.fragment → ⊥ }
    ensures range { (result.from ≤ result.to) × (result.to ≤ grant.now.sealed.value.width) }
{
    let sealed: &Sealed = &grant.sealed;
    let width = u64::from(sealed.width.get());
    let begin = k * width;
    let end = grant.start + grant.len;
    let (from, to) = (grant.start.saturating_sub(begin), width.min(end - begin));
    let (stripe, fragment) = place_of(sealed.code, k);
    Part {
        stripe,
        fragment,
        from: from as usize,
        to: to as usize,
    }
}
