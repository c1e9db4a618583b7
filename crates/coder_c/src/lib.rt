//! The coder for C: `include/lrc_coder.h` declares these functions.
//!
//! A slice is passed as an address and a length, and an array of slices as an array of such pairs.
//! Each call tests its arguments and answers `BAD_ARGUMENT` if one is invalid. On any status but
//! `DONE`, the targets are unchanged. No call allocates or keeps anything, so any number of threads
//! may call them.
#![tactic(auto)]

mod plans;
mod remaining;
mod wanted;
mod wide;

ghost use Rattle.std.specs.Prelude.{◌≡◌, ◌≢◌, ℕ, ◌+◌, ◌-◌, ◌<◌, ◌≤◌, ◌^◌, ◌↔◌, ◌⊎◌, IsTrue, All};
ghost use Rattle.std.specs.Prelude.{IfSome, IsSomeAnd, MatchOption, EachIndex, length, map};
ghost use Rattle.std.specs.Prelude.{slice_index, slice_index_or, bit_xor, None, true, false, []};
ghost use Rattle.std.specs.Prelude.{◌∷◌, ◌==◌, if◌then◌else◌, Some, count_by};
ghost use Rattle.gf256.specs.Field.{product};
ghost use Rattle.lrc_code.specs.Code.{fragment_count, data_count, weight, is_lost, is_alone};
ghost use Rattle.lrc_code.specs.Code.{is_only_lost_of, first_group, second_group, Open};
ghost use Rattle.lrc_code.specs.Code.{all_fragments};
ghost use Rattle.lrc_code.specs.Stripe.{IsStripe, list_at};
ghost use Rattle.lrc_code.specs.Recipe.{IsRecipe, IsLeast, local_recipe};
ghost use Rattle.decode.specs.Decoding.{HasOpen};
ghost use Rattle.coder_c.specs.Call.{code_with, with_parities, FourHave, AddsData, IsLostIn};
ghost use Rattle.coder_c.specs.Call.{LeftReach, RebuildsLost, AreLostIn, HasRoomFor, HaveRoomFor};
ghost use Rattle.coder_c.specs.Call.{DecodesLost, chosen_by, chosen_of, terms_of};
ghost use Rattle.coder_c.specs.PlanBytes.{format_in, code_in, missing_in, chosen_in, plan_in};
ghost use Rattle.decode.specs.DecodePlan.{IsDecodePlan, HasAllOf, IsRest};
ghost use Rattle.decode.specs.FewReads.{AreAlone, HasMate};

use decode::plan_for;
use gf256::add_scaled;
use lrc_code::{Code, LostSet, Term, encode_to, is_open_in, recipe_in};
use plans::{decode_planned, plan_bytes, plan_from};
use remaining::{decode_lost, left_reach, rebuild_lost};

/// The call was done; or the answer is no.
const DONE: u32 = 0;

/// The fragment is unrecoverable; or the answer is yes.
const OPEN: u32 = 1;

/// An argument is invalid.
const BAD_ARGUMENT: u32 = 2;

/// The first byte of a plan. Another layout of its bytes gets another number.
const PLAN_FORMAT: u8 = 1;

/// The code whose stripes have so many data fragments.
fn code_of(data_fragments: usize) -> Option<Code>
    ensures { result ≡ code_with data_fragments }
{
    [Code::Wide, Code::Small].iter().copied().find(|code| usize::from(code.data_fragments())
        == data_fragments)
}

/// Whether all four parities have `w` bytes.
fn four_have(w: usize, first: &[u8], second: &[u8], third: &[u8], fourth: &[u8]) -> bool
    ensures { IsTrue result ↔ FourHave w first.now second.now third.now fourth.now }
{
    first.len() == w && second.len() == w && third.len() == w && fourth.len() == w
}

/// Writes the four parities of the data fragments: together they are a stripe of the code with so
/// many data fragments.
///
/// `BAD_ARGUMENT` if and only if no code has so many, or the data and the parities differ in
/// length.
#[unsafe(no_mangle)]
pub extern "C" fn lrc_encode(
    sources: &[&[u8]],
    first: &mut [u8],
    second: &mut [u8],
    third: &mut [u8],
    fourth: &mut [u8],
) -> u32
    ensures stripe { result ≡ DONE → IfSome (code_with (length sources.now)) (λ code.
        IsStripe code (length first.new) (with_parities (map (λ s. s.now) sources.now) first.new
        second.new third.new fourth.new)) }
    ensures taken { (result ≢ BAD_ARGUMENT) ↔ IsSomeAnd (code_with (length sources.now)) (λ _.
        All (λ s. length s.now ≡ length first.old) sources.now
        × FourHave (length first.old) first.old second.old third.old fourth.old) }
    ensures answers { (result ≡ DONE) ⊎ (result ≡ BAD_ARGUMENT) }
    ensures unchanged { result ≢ DONE → (first.new ≡ first.old) × (second.new ≡ second.old)
        × (third.new ≡ third.old) × (fourth.new ≡ fourth.old) }
{
    let w = first.len();
    let Some(code) = code_of(sources.len()) else {
        return BAD_ARGUMENT;
    };
    if !four_have(w, first, second, third, fourth)
        || !sources.iter().all(|source| source.len() == w)
    {
        return BAD_ARGUMENT;
    }
    encode_to(code, sources, first, second, third, fourth);
    DONE
}

/// A fragment of one byte, 0.
const ZERO: &[u8] = &[0];

/// A fragment of one byte, 1.
const ONE: &[u8] = &[1];

/// Data of a byte each: 1 at a fragment, and 0 at the others.
fn unit_data(fragment: usize) -> [&'static [u8]; 12]
    requires { fragment < 12 }
    ensures count { length result ≡ 12 }
    ensures at { (i : ℕ) → i < 12 → list_at (map (λ s. s.now) result) i
        ≡ (if i == fragment then 1 else 0) ∷ [] }
{
    let mut data = [ZERO; 12];
    data[fragment] = ONE;
    data
}

/// The weights of a data fragment in the four equations: the parities of data that are 1 there, and
/// 0 elsewhere.
fn weights_of(code: Code, fragment: usize) -> [u8; 4]
    requires { fragment < data_count code }
    ensures { (e : ℕ) → e < 4 → slice_index result e ≡ weight code e fragment }
{
    let data = unit_data(fragment);
    let mut first = [0];
    let mut second = [0];
    let mut third = [0];
    let mut fourth = [0];
    encode_to(
        code,
        &data[..usize::from(code.data_fragments())],
        &mut first,
        &mut second,
        &mut third,
        &mut fourth,
    );
    [first[0], second[0], third[0], fourth[0]]
}

/// Adds one data fragment to the four parities: to each, the fragment's bytes times the fragment's
/// weight in its equation. One call for each data fragment, in any order, on parities of zeros
/// gives those of `lrc_encode`. To overwrite a data fragment, add the sum of its old and new bytes.
///
/// `BAD_ARGUMENT` if and only if there is no such code, the fragment is not one of its data
/// fragments, or the lengths differ.
#[unsafe(no_mangle)]
pub extern "C" fn lrc_encode_add(
    data_fragments: usize,
    fragment: u8,
    source: &[u8],
    first: &mut [u8],
    second: &mut [u8],
    third: &mut [u8],
    fourth: &mut [u8],
) -> u32
    ensures first { result ≡ DONE → IfSome (code_with data_fragments)
        (λ code. AddsData code 0 fragment source.now first.old first.new) }
    ensures second { result ≡ DONE → IfSome (code_with data_fragments)
        (λ code. AddsData code 1 fragment source.now second.old second.new) }
    ensures third { result ≡ DONE → IfSome (code_with data_fragments)
        (λ code. AddsData code 2 fragment source.now third.old third.new) }
    ensures fourth { result ≡ DONE → IfSome (code_with data_fragments)
        (λ code. AddsData code 3 fragment source.now fourth.old fourth.new) }
    ensures taken { (result ≢ BAD_ARGUMENT) ↔ IsSomeAnd (code_with data_fragments) (λ code.
        (fragment < data_count code) × FourHave (length source.now) first.old second.old third.old
        fourth.old) }
    ensures answers { (result ≡ DONE) ⊎ (result ≡ BAD_ARGUMENT) }
    ensures unchanged { result ≢ DONE → (first.new ≡ first.old) × (second.new ≡ second.old)
        × (third.new ≡ third.old) × (fourth.new ≡ fourth.old) }
{
    let Some(code) = code_of(data_fragments) else {
        return BAD_ARGUMENT;
    };
    if fragment >= code.data_fragments() || !four_have(source.len(), first, second, third, fourth) {
        return BAD_ARGUMENT;
    }
    let weights = weights_of(code, usize::from(fragment));
    add_scaled(first, weights[0], source);
    add_scaled(second, weights[1], source);
    add_scaled(third, weights[2], source);
    add_scaled(fourth, weights[3], source);
    DONE
}

/// Whether a fragment is unrecoverable if the fragments of the bits of `lost` are lost: `OPEN` if
/// it is, `DONE` if it remains or can be rebuilt.
///
/// `BAD_ARGUMENT` if and only if there is no such code or fragment.
#[unsafe(no_mangle)]
pub extern "C" fn lrc_is_open(data_fragments: usize, lost: u16, fragment: u8) -> u32
    ensures open { (result ≡ OPEN) ↔ IsSomeAnd (code_with data_fragments)
        (λ code. Open code (is_lost lost) fragment) }
    ensures taken { (result ≢ BAD_ARGUMENT) ↔ IsSomeAnd (code_with data_fragments)
        (λ code. fragment < fragment_count code) }
    ensures answers { (result ≡ DONE) ⊎ (result ≡ OPEN) ⊎ (result ≡ BAD_ARGUMENT) }
{
    let Some(code) = code_of(data_fragments) else {
        return BAD_ARGUMENT;
    };
    if fragment >= code.fragments() {
        return BAD_ARGUMENT;
    }
    if is_open_in(code, LostSet::of_bits(lost), fragment) {
        OPEN
    } else {
        DONE
    }
}

/// A lost fragment of a stripe.
#[derive(Clone, Copy, Drop)]
struct LostFragment {
    code: Code,
    lost: LostSet,
    number: u8,
    ghost inside: { number < fragment_count code },
    ghost is_lost: { is_lost lost number ≡ true },
}

/// The lost fragment that the arguments name.
fn lost_fragment(data_fragments: usize, lost: u16, number: u8) -> Option<LostFragment>
    ensures { MatchOption result
        (IsSomeAnd (code_with data_fragments) (λ code. IsLostIn code lost number) → ⊥)
        (λ found. (code_with data_fragments ≡ Some found.code)
        × ((i : ℕ) → is_lost found.lost i ≡ is_lost lost i) × (found.number ≡ number)) }
{
    let code = code_of(data_fragments)?;
    let lost = LostSet::of_bits(lost);
    if number >= code.fragments() || lost.left(number) {
        return None;
    }
    Some(LostFragment { code, lost, number })
}

/// Writes the bytes of a lost fragment from index `from` on, as many as `target` has: those of
/// every stripe that agrees with the remaining fragments. What is passed for a lost fragment is
/// never read.
///
/// `OPEN` if and only if the fragment is unrecoverable and no argument is invalid. `BAD_ARGUMENT`
/// if and only if there is no such code or fragment, the fragment is not lost, a remaining one is
/// too short, or the last index is more than 2^64 - 1.
#[unsafe(no_mangle)]
pub extern "C" fn lrc_rebuild(
    data_fragments: usize,
    fragments: &[&[u8]; 16],
    lost: u16,
    fragment: u8,
    from: usize,
    target: &mut [u8],
) -> u32
    ensures rebuilt { result ≡ DONE → IfSome (code_with data_fragments) (λ code.
        RebuildsLost code (map (λ f. f.now) fragments.now) lost fragment from
        (from + length target.new) target.new) }
    ensures open { (result ≡ OPEN) ↔ ((result ≢ BAD_ARGUMENT)
        × IsSomeAnd (code_with data_fragments) (λ code. Open code (is_lost lost) fragment)) }
    ensures taken { (result ≢ BAD_ARGUMENT) ↔ IsSomeAnd (code_with data_fragments)
        (λ code. IsLostIn code lost fragment
        × LeftReach code (map (λ f. f.now) fragments.now) lost (from + length target.old)
        × (from + length target.old < 2 ^ 64)) }
    ensures answers { (result ≡ DONE) ⊎ (result ≡ OPEN) ⊎ (result ≡ BAD_ARGUMENT) }
    ensures unchanged { result ≢ DONE → target.new ≡ target.old }
{
    let Some(asked) = lost_fragment(data_fragments, lost, fragment) else {
        return BAD_ARGUMENT;
    };
    let Some(to) = from.checked_add(target.len()) else {
        return BAD_ARGUMENT;
    };
    let LostFragment { code, lost, number } = asked;
    if !left_reach(code, fragments, lost, to) {
        return BAD_ARGUMENT;
    }
    if rebuild_lost(code, fragments, lost, number, from, to, target) {
        DONE
    } else {
        OPEN
    }
}

/// The number that chooses no fragment.
const NONE: u8 = 255;

/// The fragment that a number chooses.
fn chosen_by(number: u8) -> Option<u8>
    ensures { result ≡ chosen_by number }
{
    if number == NONE { None } else { Some(number) }
}

/// The fragments that are chosen for the four targets.
fn chosen_of(numbers: &[u8; 4]) -> [Option<u8>; 4]
    ensures { result ≡ chosen_of numbers.now }
{
    [
        chosen_by(numbers[0]),
        chosen_by(numbers[1]),
        chosen_by(numbers[2]),
        chosen_by(numbers[3]),
    ]
}

/// Whether each fragment that is chosen is one of the code's, and lost.
fn are_lost(code: Code, lost: LostSet, chosen: &[Option<u8>; 4]) -> bool
    ensures { IsTrue result ↔ AreLostIn code lost chosen.now }
{
    for i in 0..4 {
        if let Some(f) = chosen[i] {
            if f >= code.fragments() || lost.left(f) {
                return false;
            }
        }
    }
    true
}

/// Whether a target is for no fragment, or has `w` bytes.
fn has_room(chosen: Option<u8>, w: usize, target: &[u8]) -> bool
    ensures { IsTrue result ↔ HasRoomFor chosen w target.now }
{
    chosen.is_none() || target.len() == w
}

/// Whether each fragment that is chosen is one of the code's, and lost, and its target has `w`
/// bytes.
fn are_taken(
    code: Code,
    lost: LostSet,
    chosen: &[Option<u8>; 4],
    w: usize,
    first: &[u8],
    second: &[u8],
    third: &[u8],
    fourth: &[u8],
) -> bool
    ensures { IsTrue result ↔ (AreLostIn code lost chosen.now
        × HaveRoomFor chosen.now w first.now second.now third.now fourth.now) }
{
    are_lost(code, lost, chosen)
        && has_room(chosen[0], w, first)
        && has_room(chosen[1], w, second)
        && has_room(chosen[2], w, third)
        && has_room(chosen[3], w, fourth)
}

/// `decode_lost`, if the remaining fragments are long enough.
fn decode_left(
    code: Code,
    fragments: &[&[u8]; 16],
    lost: LostSet,
    chosen: [Option<u8>; 4],
    from: usize,
    end: usize,
    first: &mut [u8],
    second: &mut [u8],
    third: &mut [u8],
    fourth: &mut [u8],
) -> u32
    requires are_lost { AreLostIn code lost chosen }
    requires range { from ≤ end }
    requires room { HaveRoomFor chosen (end - from) first.old second.old third.old fourth.old }
    ensures first { result ≡ DONE → DecodesLost code (map (λ f. f.now) fragments.now) lost
        (slice_index_or chosen 0 None) from end first.old first.new }
    ensures second { result ≡ DONE → DecodesLost code (map (λ f. f.now) fragments.now) lost
        (slice_index_or chosen 1 None) from end second.old second.new }
    ensures third { result ≡ DONE → DecodesLost code (map (λ f. f.now) fragments.now) lost
        (slice_index_or chosen 2 None) from end third.old third.new }
    ensures fourth { result ≡ DONE → DecodesLost code (map (λ f. f.now) fragments.now) lost
        (slice_index_or chosen 3 None) from end fourth.old fourth.new }
    ensures open { (result ≡ OPEN) ↔ ((result ≢ BAD_ARGUMENT)
        × HasOpen code (is_lost lost) chosen) }
    ensures taken { (result ≢ BAD_ARGUMENT) ↔ LeftReach code (map (λ f. f.now) fragments.now) lost
        end }
    ensures answers { (result ≡ DONE) ⊎ (result ≡ OPEN) ⊎ (result ≡ BAD_ARGUMENT) }
    ensures unchanged { result ≢ DONE → (first.new ≡ first.old) × (second.new ≡ second.old)
        × (third.new ≡ third.old) × (fourth.new ≡ fourth.old) }
{
    if !left_reach(code, fragments, lost, end) {
        return BAD_ARGUMENT;
    }
    if decode_lost(
        code, fragments, lost, chosen, from, end, first, second, third, fourth,
    ) {
        DONE
    } else {
        OPEN
    }
}

/// Writes the bytes `from..from + w` of up to four lost fragments: those of every stripe that
/// agrees with the remaining fragments. `numbers` chooses the fragment for each of the four
/// targets; for 255 the target is not accessed. What is passed for a lost fragment is never read.
///
/// `OPEN` if and only if a chosen fragment is unrecoverable and no argument is invalid.
/// `BAD_ARGUMENT` if and only if there is no such code, a chosen fragment is not one of the code's
/// or not lost, its target does not have `w` bytes, a remaining fragment is too short, or the last
/// index is more than 2^64 - 1.
#[unsafe(no_mangle)]
pub extern "C" fn lrc_decode(
    data_fragments: usize,
    fragments: &[&[u8]; 16],
    lost: u16,
    numbers: &[u8; 4],
    from: usize,
    w: usize,
    first: &mut [u8],
    second: &mut [u8],
    third: &mut [u8],
    fourth: &mut [u8],
) -> u32
    ensures first { result ≡ DONE → IfSome (code_with data_fragments)
        (λ code. DecodesLost code (map (λ f. f.now) fragments.now) lost
        (chosen_by (slice_index numbers.now 0)) from (from + w) first.old first.new) }
    ensures second { result ≡ DONE → IfSome (code_with data_fragments)
        (λ code. DecodesLost code (map (λ f. f.now) fragments.now) lost
        (chosen_by (slice_index numbers.now 1)) from (from + w) second.old second.new) }
    ensures third { result ≡ DONE → IfSome (code_with data_fragments)
        (λ code. DecodesLost code (map (λ f. f.now) fragments.now) lost
        (chosen_by (slice_index numbers.now 2)) from (from + w) third.old third.new) }
    ensures fourth { result ≡ DONE → IfSome (code_with data_fragments)
        (λ code. DecodesLost code (map (λ f. f.now) fragments.now) lost
        (chosen_by (slice_index numbers.now 3)) from (from + w) fourth.old fourth.new) }
    ensures open { (result ≡ OPEN) ↔ ((result ≢ BAD_ARGUMENT)
        × IsSomeAnd (code_with data_fragments) (λ code. HasOpen code (is_lost lost)
        (chosen_of numbers.now))) }
    ensures taken { (result ≢ BAD_ARGUMENT) ↔ IsSomeAnd (code_with data_fragments)
        (λ code. AreLostIn code lost (chosen_of numbers.now)
        × HaveRoomFor (chosen_of numbers.now) w first.old second.old third.old fourth.old
        × LeftReach code (map (λ f. f.now) fragments.now) lost (from + w) × (from + w < 2 ^ 64)) }
    ensures answers { (result ≡ DONE) ⊎ (result ≡ OPEN) ⊎ (result ≡ BAD_ARGUMENT) }
    ensures unchanged { result ≢ DONE → (first.new ≡ first.old) × (second.new ≡ second.old)
        × (third.new ≡ third.old) × (fourth.new ≡ fourth.old) }
{
    let Some(code) = code_of(data_fragments) else {
        return BAD_ARGUMENT;
    };
    let lost = LostSet::of_bits(lost);
    let chosen = chosen_of(numbers);
    let Some(to) = from.checked_add(w) else {
        return BAD_ARGUMENT;
    };
    if !are_taken(code, lost, &chosen, w, first, second, third, fourth) {
        return BAD_ARGUMENT;
    }
    decode_left(
        code, fragments, lost, chosen, from, to, first, second, third, fourth,
    )
}

/// Makes a plan for up to four lost fragments, of which `numbers` has one for each target, and 255
/// for a target that is not wanted. `reads` gets the fragments that `lrc_plan_decode` reads by it,
/// as bits: none that is lost. They are others of the groups in which the chosen fragments are, if
/// each of these is alone lost there. For one fragment they are no more than the data fragments.
///
/// `OPEN` if and only if a chosen fragment is unrecoverable and no argument is invalid.
/// `BAD_ARGUMENT` if and only if there is no such code, or a chosen fragment is not one of the
/// code's or not lost.
#[unsafe(no_mangle)]
pub extern "C" fn lrc_plan(
    data_fragments: usize,
    lost: u16,
    numbers: &[u8; 4],
    plan: &mut [u8; 24],
    reads: &mut u16,
) -> u32
    ensures format { result ≡ DONE → format_in plan.new ≡ PLAN_FORMAT }
    ensures code { result ≡ DONE → code_in plan.new ≡ code_with data_fragments }
    ensures chosen { result ≡ DONE → chosen_in plan.new ≡ chosen_of numbers.now }
    ensures plan { result ≡ DONE → IfSome (code_with data_fragments)
        (λ code. IsDecodePlan (plan_in code plan.new)) }
    ensures lost { result ≡ DONE → IfSome (code_with data_fragments)
        (λ code. HasAllOf code lost (missing_in plan.new)) }
    ensures reads { result ≡ DONE → IfSome (code_with data_fragments)
        (λ code. IsRest code (missing_in plan.new) reads.new) }
    ensures near { result ≡ DONE → IfSome (code_with data_fragments) (λ code.
        AreAlone code (is_lost lost) (chosen_of numbers.now) → (i : ℕ) → is_lost reads.new i ≡ true
        → HasMate code (chosen_of numbers.now) i) }
    ensures few { result ≡ DONE → IfSome (code_with data_fragments) (λ code. (f : ℕ)
        → chosen_of numbers.now ≡ Some f ∷ None ∷ None ∷ None ∷ []
        → count_by (is_lost reads.new) (all_fragments code) ≤ data_count code) }
    ensures open { (result ≡ OPEN) ↔ ((result ≢ BAD_ARGUMENT)
        × IsSomeAnd (code_with data_fragments) (λ code. HasOpen code (is_lost lost)
        (chosen_of numbers.now))) }
    ensures taken { (result ≢ BAD_ARGUMENT) ↔ IsSomeAnd (code_with data_fragments)
        (λ code. AreLostIn code lost (chosen_of numbers.now)) }
    ensures answers { (result ≡ DONE) ⊎ (result ≡ OPEN) ⊎ (result ≡ BAD_ARGUMENT) }
    ensures unchanged { result ≢ DONE → (plan.new ≡ plan.old) × (reads.new ≡ reads.old) }
{
    let Some(code) = code_of(data_fragments) else {
        return BAD_ARGUMENT;
    };
    let lost = LostSet::of_bits(lost);
    let chosen = chosen_of(numbers);
    if !are_lost(code, lost, &chosen) {
        return BAD_ARGUMENT;
    }
    let Some(made) = plan_for(code, lost, chosen) else {
        return OPEN;
    };
    *plan = plan_bytes(&made, numbers);
    *reads = made.reads();
    DONE
}

/// Writes the bytes `from..from + w` of the fragments that a plan of `lrc_plan` is for: those of
/// every stripe that agrees with the fragments that it reads. A target for none is not accessed.
/// What is passed for a fragment that the plan does not read is never read. Any bytes are safe as a
/// plan; by bytes that `lrc_plan` did not make the targets get any bytes.
///
/// `BAD_ARGUMENT` if and only if the plan has another format, no code, or a chosen fragment that is
/// not one of the code's or that it reads; or a target does not have `w` bytes, a fragment that is
/// read is too short, or the last index is more than 2^64 - 1.
#[unsafe(no_mangle)]
pub extern "C" fn lrc_plan_decode(
    plan: &[u8; 24],
    fragments: &[&[u8]; 16],
    from: usize,
    w: usize,
    first: &mut [u8],
    second: &mut [u8],
    third: &mut [u8],
    fourth: &mut [u8],
) -> u32
    ensures first { result ≡ DONE → IfSome (code_in plan.now) (λ code.
        IsDecodePlan (plan_in code plan.now) → DecodesLost code (map (λ f. f.now) fragments.now)
        (missing_in plan.now) (slice_index_or (chosen_in plan.now) 0 None) from (from + w)
        first.old first.new) }
    ensures second { result ≡ DONE → IfSome (code_in plan.now) (λ code.
        IsDecodePlan (plan_in code plan.now) → DecodesLost code (map (λ f. f.now) fragments.now)
        (missing_in plan.now) (slice_index_or (chosen_in plan.now) 1 None) from (from + w)
        second.old second.new) }
    ensures third { result ≡ DONE → IfSome (code_in plan.now) (λ code.
        IsDecodePlan (plan_in code plan.now) → DecodesLost code (map (λ f. f.now) fragments.now)
        (missing_in plan.now) (slice_index_or (chosen_in plan.now) 2 None) from (from + w)
        third.old third.new) }
    ensures fourth { result ≡ DONE → IfSome (code_in plan.now) (λ code.
        IsDecodePlan (plan_in code plan.now) → DecodesLost code (map (λ f. f.now) fragments.now)
        (missing_in plan.now) (slice_index_or (chosen_in plan.now) 3 None) from (from + w)
        fourth.old fourth.new) }
    ensures taken { (result ≢ BAD_ARGUMENT) ↔ IsSomeAnd (code_in plan.now) (λ code.
        (format_in plan.now ≡ PLAN_FORMAT)
        × AreLostIn code (missing_in plan.now) (chosen_in plan.now)
        × HaveRoomFor (chosen_in plan.now) w first.old second.old third.old fourth.old
        × LeftReach code (map (λ f. f.now) fragments.now) (missing_in plan.now) (from + w)
        × (from + w < 2 ^ 64)) }
    ensures answers { (result ≡ DONE) ⊎ (result ≡ BAD_ARGUMENT) }
    ensures unchanged { result ≢ DONE → (first.new ≡ first.old) × (second.new ≡ second.old)
        × (third.new ≡ third.old) × (fourth.new ≡ fourth.old) }
{
    let Some(planned) = plan_from(plan) else {
        return BAD_ARGUMENT;
    };
    let Some(to) = from.checked_add(w) else {
        return BAD_ARGUMENT;
    };
    let missing = LostSet::of_bits(planned.missing);
    if !are_taken(
        planned.code,
        missing,
        &planned.chosen,
        w,
        first,
        second,
        third,
        fourth,
    ) {
        return BAD_ARGUMENT;
    }
    if decode_planned(&planned, fragments, from, to, first, second, third, fourth) {
        DONE
    } else {
        BAD_ARGUMENT
    }
}

/// Writes the terms into two slices, one of their fragments and one of their coefficients.
fn write_terms(terms: &[Term], fragments: &mut [u8; 16], coefficients: &mut [u8; 16])
    requires { length terms.now ≤ 16 }
    ensures { terms_of fragments.new coefficients.new (length terms.now) ≡ terms.now }
{
    for (i, term) in terms.iter().enumerate() {
        fragments[i] = term.fragment;
        coefficients[i] = term.coefficient;
    }
}

/// The recipe of a lost fragment: writes which remaining fragments it is made of, each with a
/// coefficient, and their `count`, at most 15. At each index of every stripe the fragment is their
/// sum, each times its coefficient. A fragment that alone is lost in its group is the sum of the
/// others of that group, and no recipe has fewer terms.
///
/// `OPEN` if and only if the fragment is unrecoverable and no argument is invalid. `BAD_ARGUMENT`
/// if and only if there is no such code or fragment, or the fragment is not lost.
#[unsafe(no_mangle)]
pub extern "C" fn lrc_recipe(
    data_fragments: usize,
    lost: u16,
    fragment: u8,
    fragments: &mut [u8; 16],
    coefficients: &mut [u8; 16],
    count: &mut u32,
) -> u32
    ensures recipe { result ≡ DONE → IfSome (code_with data_fragments) (λ code.
        IsRecipe code (is_lost lost) fragment (terms_of fragments.new coefficients.new count.new)) }
    ensures first { result ≡ DONE → IfSome (code_with data_fragments)
        (λ code. is_only_lost_of (is_lost lost) (first_group code) fragment ≡ true
        → terms_of fragments.new coefficients.new count.new
        ≡ local_recipe (first_group code) fragment) }
    ensures second { result ≡ DONE → IfSome (code_with data_fragments)
        (λ code. is_only_lost_of (is_lost lost) (second_group code) fragment ≡ true
        → terms_of fragments.new coefficients.new count.new
        ≡ local_recipe (second_group code) fragment) }
    ensures least { result ≡ DONE → IfSome (code_with data_fragments) (λ code.
        is_alone code (is_lost lost) fragment ≡ true
        → IsLeast code fragment (terms_of fragments.new coefficients.new count.new)) }
    ensures few { result ≡ DONE → count.new ≤ 15 }
    ensures open { (result ≡ OPEN) ↔ ((result ≢ BAD_ARGUMENT)
        × IsSomeAnd (code_with data_fragments) (λ code. Open code (is_lost lost) fragment)) }
    ensures taken { (result ≢ BAD_ARGUMENT) ↔ IsSomeAnd (code_with data_fragments)
        (λ code. IsLostIn code lost fragment) }
    ensures answers { (result ≡ DONE) ⊎ (result ≡ OPEN) ⊎ (result ≡ BAD_ARGUMENT) }
    ensures unchanged { result ≢ DONE → (fragments.new ≡ fragments.old)
        × (coefficients.new ≡ coefficients.old) × (count.new ≡ count.old) }
{
    let Some(asked) = lost_fragment(data_fragments, lost, fragment) else {
        return BAD_ARGUMENT;
    };
    let Some(recipe) = recipe_in(asked.code, asked.lost, asked.number) else {
        return OPEN;
    };
    write_terms(recipe.as_slice(), fragments, coefficients);
    *count = recipe.len() as u32;
    DONE
}

/// Adds a source times a coefficient to the target, index by index. One call for each term of a
/// recipe, in any order and for any cut of the bytes, makes a lost fragment of zeros.
///
/// `BAD_ARGUMENT` if and only if the lengths differ.
#[unsafe(no_mangle)]
pub extern "C" fn lrc_add(target: &mut [u8], coefficient: u8, source: &[u8]) -> u32
    ensures added { result ≡ DONE → EachIndex target.new (λ k.
        slice_index target.new k ≡ bit_xor (slice_index target.old k)
        (product coefficient (slice_index source.now k))) }
    ensures taken { (result ≢ BAD_ARGUMENT) ↔ (length source.now ≡ length target.old) }
    ensures answers { (result ≡ DONE) ⊎ (result ≡ BAD_ARGUMENT) }
    ensures unchanged { result ≢ DONE → target.new ≡ target.old }
{
    if source.len() != target.len() {
        return BAD_ARGUMENT;
    }
    add_scaled(target, coefficient, source);
    DONE
}
