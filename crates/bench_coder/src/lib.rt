//! The coder's calls, each made `reps` times, for the harness to time.
//!
//! A slice is passed as an address and a length, and a slice of slices as an array of such pairs
//! and their number.
#![tactic(auto)]

ghost use Rattle.std.specs.Prelude.{◌≡◌, ◌<◌, ◌≤◌, ◌↔◌, true, false, Err, All, IfOk, IfSome};
ghost use Rattle.std.specs.Prelude.{IsTrue, EachIndex, length, map, slice_index};
ghost use Rattle.kernels.specs.Lists.{combined, bytes_at};
ghost use Rattle.lrc_code.specs.Code.{Open};
ghost use Rattle.lrc_code.specs.Stripe.{Rebuilds, is_absent};
ghost use Rattle.sealed.specs.Blob.{fragment, nothing};
ghost use Rattle.sealed.specs.Layout.{HasFragment};
ghost use Rattle.sealed.specs.Sealed.{StandsFor};
ghost use Rattle.bench_coder.specs.Timed.{HaveTargets, AreStripe, fragment_left, IsLeft};
ghost use Rattle.bench_coder.specs.Timed.{IsRebuildRequest};
ghost use Rattle.bench_coder.specs.Timed.{ComesOf};

use bytes::Bytes;
use kernels::combine_lists;
use lrc_code::{
    Code, Left, LostSet, Plans, Rebuild, encode_in, encode_joined, encode_to, rebuild, rebuild_to,
};
use sealed::{Sealed, Width, seal};
use std::alloc::Global;

/// `encode_to` of twelve data fragments.
#[unsafe(no_mangle)]
pub extern "C" fn timed_encode_to(
    sources: &[&[u8]],
    first: &mut [u8],
    second: &mut [u8],
    third: &mut [u8],
    fourth: &mut [u8],
    reps: u32,
)
    requires { HaveTargets sources.now first.old second.old third.old fourth.old }
    ensures { AreStripe sources.now first.new second.new third.new fourth.new }
{
    for _ in 1..reps {
        encode_to(Code::Wide, sources, first, second, third, fourth);
    }
    encode_to(Code::Wide, sources, first, second, third, fourth);
}

/// `encode_in` of twelve data fragments, each turn's parities into memory of their own. The targets
/// get those of the last turn. False if memory ran out, and then the targets are unchanged.
#[unsafe(no_mangle)]
#[tactic(auto, using(crate::proofs::Made::parity_length))]
pub extern "C" fn timed_encode(
    alloc: Global,
    sources: &[&[u8]],
    first: &mut [u8],
    second: &mut [u8],
    third: &mut [u8],
    fourth: &mut [u8],
    reps: u32,
) -> bool
    requires { HaveTargets sources.now first.old second.old third.old fourth.old }
    ensures stripe { result ≡ true → AreStripe sources.now first.new second.new third.new
        fourth.new }
    ensures unchanged { result ≡ false → (first.new ≡ first.old) × (second.new ≡ second.old)
        × (third.new ≡ third.old) × (fourth.new ≡ fourth.old) }
{
    let w = first.len();
    for _ in 1..reps {
        if encode_in(alloc, Code::Wide, sources, w).is_err() {
            return false;
        }
    }
    let Ok(parities) = encode_in(alloc, Code::Wide, sources, w) else {
        return false;
    };
    first.copy_from_slice(&parities[0]);
    second.copy_from_slice(&parities[1]);
    third.copy_from_slice(&parities[2]);
    fourth.copy_from_slice(&parities[3]);
    true
}

/// As `timed_encode`, by `encode_joined`. A closure for the call that is timed would be timed with
/// it.
#[unsafe(no_mangle)]
pub extern "C" fn timed_encode_joined(
    alloc: Global,
    sources: &[&[u8]],
    first: &mut [u8],
    second: &mut [u8],
    third: &mut [u8],
    fourth: &mut [u8],
    reps: u32,
) -> bool
    requires { HaveTargets sources.now first.old second.old third.old fourth.old }
    ensures stripe { result ≡ true → AreStripe sources.now first.new second.new third.new
        fourth.new }
    ensures unchanged { result ≡ false → (first.new ≡ first.old) × (second.new ≡ second.old)
        × (third.new ≡ third.old) × (fourth.new ≡ fourth.old) }
{
    let w = first.len();
    for _ in 1..reps {
        if encode_joined(alloc, Code::Wide, sources, w).is_err() {
            return false;
        }
    }
    let Ok(parities) = encode_joined(alloc, Code::Wide, sources, w) else {
        return false;
    };
    first.copy_from_slice(&parities[..w]);
    second.copy_from_slice(&parities[w..2 * w]);
    third.copy_from_slice(&parities[2 * w..3 * w]);
    fourth.copy_from_slice(&parities[3 * w..]);
    true
}

/// `combine_lists` of the slices.
#[unsafe(no_mangle)]
pub extern "C" fn timed_combine(
    target: &mut [u8],
    coefficients: &[u8],
    sources: &[&[u8]],
    reps: u32,
)
    requires count { length sources.now ≡ length coefficients.now }
    requires few { length coefficients.now ≤ 15 }
    requires same { All (λ s. length s.now ≡ length target.old) sources.now }
    ensures { EachIndex target.new (λ k. slice_index target.new k
        ≡ combined coefficients.now (bytes_at (map (λ s. s.now) sources.now) k)) }
{
    for _ in 1..reps {
        combine_lists(target, coefficients, sources);
    }
    combine_lists(target, coefficients, sources);
}

/// Fragment `i`, or None if it is lost or there is none.
fn left_at<'a>(fragments: &[&'a [u8]], lost: LostSet, i: u8) -> Option<&'a [u8]>
    requires { i < 16 }
    ensures { result ≡ fragment_left fragments.now lost i }
{
    if lost.left(i) {
        fragments.get(usize::from(i)).copied()
    } else {
        None
    }
}

/// The remaining fragments of a stripe of the wide code.
fn left_of<'a>(fragments: &[&'a [u8]], lost: LostSet) -> Left<'a>
    ensures { IsLeft fragments.now lost result }
{
    let mut left = Left {
        code: Code::Wide,
        fragments: [None; 16],
    };
    for i in 0..16u8 {
        left.fragments[usize::from(i)] = left_at(fragments, lost, i);
    }
    left
}

/// Whether a fragment can be asked for: it is absent, and those that are present have `w` bytes or
/// more.
fn is_asked(left: &Left, f: usize, w: usize) -> bool
    ensures { IsTrue result ↔ IsRebuildRequest left.now f w }
{
    f < usize::from(left.code.fragments()) && left.fragments[f].is_none() && left.reaches(w)
}

/// `rebuild_to` of fragment `f`, if the fragments whose bits are set are lost. True if the fragment
/// is absent and recoverable, and the others are as long as `bytes`; otherwise `bytes` is
/// unchanged.
#[unsafe(no_mangle)]
pub extern "C" fn timed_rebuild_to(
    bytes: &mut [u8],
    fragments: &[&[u8]],
    lost: u16,
    f: usize,
    reps: u32,
) -> bool
    ensures long { length bytes.new ≡ length bytes.old }
    ensures rebuilt { (left : Left) × IsLeft fragments.now lost left
        × ComesOf left f (length bytes.old) result bytes.old bytes.new }
{
    let left = left_of(fragments, LostSet::of_bits(lost));
    let w = bytes.len();
    if !is_asked(&left, f, w) {
        return false;
    }
    for _ in 1..reps {
        if !rebuild_to(&left, f, 0, w, bytes) {
            return false;
        }
    }
    rebuild_to(&left, f, 0, w, bytes)
}

/// `rebuild` of fragment `f`, or `Plans::rebuild` with kept plans, each turn into memory of its
/// own. `bytes` gets the last turn's. True if `timed_rebuild_to` could do it and memory sufficed;
/// otherwise `bytes` is unchanged.
#[unsafe(no_mangle)]
pub extern "C" fn timed_rebuild(
    alloc: Global,
    bytes: &mut [u8],
    fragments: &[&[u8]],
    lost: u16,
    f: usize,
    are_kept: bool,
    reps: u32,
) -> bool
    ensures long { length bytes.new ≡ length bytes.old }
    ensures rebuilt { result ≡ true → (left : Left) × IsLeft fragments.now lost left
        × ComesOf left f (length bytes.old) true bytes.old bytes.new }
    ensures unchanged { result ≡ false → bytes.new ≡ bytes.old }
{
    let left = left_of(fragments, LostSet::of_bits(lost));
    let w = bytes.len();
    if !is_asked(&left, f, w) {
        return false;
    }
    let mut plans = Plans::new(alloc);
    for _ in 1..reps {
        if rebuild_in(alloc, &mut plans, &left, f, w, are_kept).is_err() {
            return false;
        }
    }
    let Ok(rebuilt) = rebuild_in(alloc, &mut plans, &left, f, w, are_kept) else {
        return false;
    };
    bytes.copy_from_slice(&rebuilt);
    true
}

/// `rebuild` of the first `w` bytes of fragment `f`, or `Plans::rebuild` if the plans are kept.
fn rebuild_in(
    alloc: Global,
    plans: &mut Plans,
    left: &Left,
    f: usize,
    w: usize,
    are_kept: bool,
) -> Result<Vec<u8>, Rebuild>
    requires { IsRebuildRequest left.now f w }
    ensures open { (result ≡ Err Rebuild.Open) ↔ Open left.now.code (is_absent left.now.fragments)
        f }
    ensures long { IfOk result (λ v. length v.items ≡ w) }
    ensures built { IfOk result (λ v. Rebuilds left.now.code left.now.fragments f 0 w v.items) }
{
    if are_kept {
        plans.rebuild(alloc, left, f, 0, w)
    } else {
        rebuild(alloc, left, f, 0, w)
    }
}

/// The width of fragments of so many bytes, or None if there is none.
fn width_of(bytes: usize) -> Option<Width>
    ensures { IfSome result (λ w. w ≡ bytes) }
{
    Width::new(u32::try_from(bytes).ok()?)
}

/// `seal` of the blob, whose bytes the value shares, or None if it is too long or memory ran out.
fn seal_again(alloc: Global, blob: &Bytes, width: Width) -> Option<Sealed>
    ensures stands { IfSome result (λ s. StandsFor s blob.now nothing) }
    ensures shape { IfSome result (λ s. (s.width ≡ width) × (s.code ≡ Code.Wide)) }
{
    let shared = blob.slice(..blob.len()).ok()?;
    match seal(alloc, shared, width) {
        Ok(sealed) => Some(sealed),
        Err(_) => None,
    }
}

/// `seal` of a copy of the blob, in stripes of fragments as long as `bytes`, which gets a fragment
/// of the last turn's value. True if that is a width, the blob has at most 4,096 stripes and this
/// fragment, and memory sufficed; otherwise `bytes` is unchanged.
#[unsafe(no_mangle)]
#[tactic(auto, using(crate::proofs::Made::all_there))]
pub extern "C" fn timed_seal(
    alloc: Global,
    blob: &[u8],
    bytes: &mut [u8],
    stripe: u64,
    f: u8,
    reps: u32,
) -> bool
    ensures long { length bytes.new ≡ length bytes.old }
    ensures sealed { result ≡ true → HasFragment Code.Wide (length bytes.old) (length blob.now)
        stripe f × (bytes.new ≡ fragment Code.Wide (length bytes.old) blob.now stripe f) }
    ensures unchanged { result ≡ false → bytes.new ≡ bytes.old }
{
    let Some(width) = width_of(bytes.len()) else {
        return false;
    };
    let Ok(copy) = Bytes::copy_from_slice(alloc, blob) else {
        return false;
    };
    for _ in 1..reps {
        if seal_again(alloc, &copy, width).is_none() {
            return false;
        }
    }
    let Some(sealed) = seal_again(alloc, &copy, width) else {
        return false;
    };
    if !sealed.has_fragment(stripe, u64::from(f)) {
        return false;
    }
    match sealed.fragment(stripe, f) {
        Some(made) => bytes.copy_from_slice(made),
        None => unreachable!(),
    }
    true
}
