//! The remaining fragments, as they are passed from C: how long they are, and what is rebuilt from
//! them. Fragments that are alone lost in their groups are sums of what is passed. All others are
//! rebuilt by `decode`.
ghost use Rattle.std.specs.Prelude.{◌≡◌, ℕ, ◌-◌, ◌<◌, ◌≤◌, ◌↔◌, IsTrue, IfSome, true, false, None};
ghost use Rattle.std.specs.Prelude.{length, map, slice_index_or};
ghost use Rattle.lrc_code.specs.Code.{is_lost, is_alone, Open};
ghost use Rattle.lrc_code.specs.Stripe.{list_at, is_absent, slot, bytes_of};
ghost use Rattle.decode.specs.Decoding.{HasOpen};
ghost use Rattle.coder_c.specs.Call.{IsLostIn, LeftReach, RebuildsLost, AreLostIn, HasRoomFor};
ghost use Rattle.coder_c.specs.Call.{HaveRoomFor, DecodesLost};

use crate::wide::{are_shares_faster, decode_by_shares};
use decode::{decode_to, rebuild_to};
use lrc_code::{Code, Left, LostSet, is_alone_in, rebuild_local_in};

/// Whether each of the first `count` fragments that remains has at least `to` bytes.
#[inline(always)]
fn first_reach(fragments: &[&[u8]; 16], count: usize, lost: LostSet, to: usize) -> bool
    requires { count ≤ 16 }
    ensures { IsTrue result ↔ ((i : ℕ) → i < count → is_lost lost i ≡ false
        → to ≤ length (list_at (map (λ f. f.now) fragments.now) i)) }
{
    for i in 0..count {
        if lost.left(i as u8) && fragments[i].len() < to {
            return false;
        }
    }
    true
}

/// Whether each remaining fragment has at least `to` bytes.
pub(crate) fn left_reach(code: Code, fragments: &[&[u8]; 16], lost: LostSet, to: usize) -> bool
    ensures { IsTrue result ↔ LeftReach code (map (λ f. f.now) fragments.now) lost to }
{
    // one call for each code: up to a known count the loop is unrolled
    match code {
        Code::Wide => first_reach(fragments, 16, lost, to),
        Code::Small => first_reach(fragments, 10, lost, to),
    }
}

/// The remaining fragments of a stripe of which these are lost.
pub(crate) fn left_of<'a>(code: Code, fragments: &[&'a [u8]; 16], lost: LostSet) -> Left<'a>
    ensures code { result.code ≡ code }
    ensures absent { (i : ℕ) → i < 16 → is_absent result.fragments i ≡ is_lost lost i }
    ensures bytes { (i : ℕ) → i < 16 → is_lost lost i ≡ false
        → bytes_of (slot result.fragments i) ≡ list_at (map (λ f. f.now) fragments.now) i }
{
    let mut slots: [Option<&'a [u8]>; 16] = [None; 16];
    for i in 0..16 {
        if lost.left(i as u8) {
            slots[i] = Some(fragments[i]);
        }
    }
    Left {
        code,
        fragments: slots,
    }
}

/// `rebuild_to` of the remaining fragments. It is a function of its own so that the slots of the
/// fragments are cleared only if they are used.
#[inline(never)]
fn rebuild_from_slots(
    code: Code,
    fragments: &[&[u8]; 16],
    lost: LostSet,
    f: u8,
    from: usize,
    to: usize,
    target: &mut [u8],
) -> bool
    requires lost { IsLostIn code lost f }
    requires reach { LeftReach code (map (λ f. f.now) fragments.now) lost to }
    requires range { from ≤ to }
    requires room { length target.old ≡ to - from }
    ensures rebuilt { result ≡ true → RebuildsLost code (map (λ f. f.now) fragments.now) lost f from
        to target.new }
    ensures open { (result ≡ false) ↔ Open code (is_lost lost) f }
    ensures unchanged { result ≡ false → target.new ≡ target.old }
{
    let left = left_of(code, fragments, lost);
    rebuild_to(&left, f, from, to, target)
}

/// Writes the bytes `from..to` of a lost fragment. Returns false if and only if it is
/// unrecoverable; then `target` is unchanged.
pub(crate) fn rebuild_lost(
    code: Code,
    fragments: &[&[u8]; 16],
    lost: LostSet,
    f: u8,
    from: usize,
    to: usize,
    target: &mut [u8],
) -> bool
    requires lost { IsLostIn code lost f }
    requires reach { LeftReach code (map (λ f. f.now) fragments.now) lost to }
    requires range { from ≤ to }
    requires room { length target.old ≡ to - from }
    ensures rebuilt { result ≡ true → RebuildsLost code (map (λ f. f.now) fragments.now) lost f from
        to target.new }
    ensures open { (result ≡ false) ↔ Open code (is_lost lost) f }
    ensures unchanged { result ≡ false → target.new ≡ target.old }
{
    if is_alone_in(code, lost, f) {
        rebuild_local_in(code, lost, fragments, f, from, to, target);
        return true;
    }
    rebuild_from_slots(code, fragments, lost, f, from, to, target)
}

/// Whether each fragment that is chosen is alone lost in its group.
pub(crate) fn are_alone(code: Code, lost: LostSet, chosen: &[Option<u8>; 4]) -> bool
    requires { AreLostIn code lost chosen.now }
    ensures { IsTrue result → (i : ℕ) → i < 4 → IfSome (slice_index_or chosen.now i None)
        (λ f. is_alone code (is_lost lost) f ≡ true) }
{
    for i in 0..4 {
        if let Some(f) = chosen[i] {
            if !is_alone_in(code, lost, f) {
                return false;
            }
        }
    }
    true
}

/// Writes the bytes `from..to` of a fragment that is chosen, and alone lost in its group.
pub(crate) fn rebuild_alone(
    code: Code,
    fragments: &[&[u8]; 16],
    lost: LostSet,
    chosen: Option<u8>,
    from: usize,
    to: usize,
    target: &mut [u8],
)
    requires alone { IfSome chosen (λ f. is_alone code (is_lost lost) f ≡ true) }
    requires reach { LeftReach code (map (λ f. f.now) fragments.now) lost to }
    requires range { from ≤ to }
    requires room { HasRoomFor chosen (to - from) target.old }
    ensures { DecodesLost code (map (λ f. f.now) fragments.now) lost chosen from to target.old
        target.new }
{
    if let Some(number) = chosen {
        rebuild_local_in(code, lost, fragments, number, from, to, target);
    }
}

/// `decode_to` of the remaining fragments.
#[inline(never)]
fn decode_from_slots(
    code: Code,
    fragments: &[&[u8]; 16],
    lost: LostSet,
    chosen: [Option<u8>; 4],
    from: usize,
    to: usize,
    first: &mut [u8],
    second: &mut [u8],
    third: &mut [u8],
    fourth: &mut [u8],
) -> bool
    requires lost { AreLostIn code lost chosen }
    requires reach { LeftReach code (map (λ f. f.now) fragments.now) lost to }
    requires range { from ≤ to }
    requires room { HaveRoomFor chosen (to - from) first.old second.old third.old fourth.old }
    ensures first { result ≡ true → DecodesLost code (map (λ f. f.now) fragments.now) lost
        (slice_index_or chosen 0 None) from to first.old first.new }
    ensures second { result ≡ true → DecodesLost code (map (λ f. f.now) fragments.now) lost
        (slice_index_or chosen 1 None) from to second.old second.new }
    ensures third { result ≡ true → DecodesLost code (map (λ f. f.now) fragments.now) lost
        (slice_index_or chosen 2 None) from to third.old third.new }
    ensures fourth { result ≡ true → DecodesLost code (map (λ f. f.now) fragments.now) lost
        (slice_index_or chosen 3 None) from to fourth.old fourth.new }
    ensures open { (result ≡ false) ↔ HasOpen code (is_lost lost) chosen }
    ensures unchanged { result ≡ false → (first.new ≡ first.old) × (second.new ≡ second.old)
        × (third.new ≡ third.old) × (fourth.new ≡ fourth.old) }
{
    let left = left_of(code, fragments, lost);
    decode_to(&left, chosen, from, to, first, second, third, fourth)
}

/// Writes the bytes `from..to` of the lost fragments that are chosen. Returns false if and only if
/// one of them is unrecoverable; then the targets are unchanged.
pub(crate) fn decode_lost(
    code: Code,
    fragments: &[&[u8]; 16],
    lost: LostSet,
    chosen: [Option<u8>; 4],
    from: usize,
    to: usize,
    first: &mut [u8],
    second: &mut [u8],
    third: &mut [u8],
    fourth: &mut [u8],
) -> bool
    requires lost { AreLostIn code lost chosen }
    requires reach { LeftReach code (map (λ f. f.now) fragments.now) lost to }
    requires range { from ≤ to }
    requires room { HaveRoomFor chosen (to - from) first.old second.old third.old fourth.old }
    ensures first { result ≡ true → DecodesLost code (map (λ f. f.now) fragments.now) lost
        (slice_index_or chosen 0 None) from to first.old first.new }
    ensures second { result ≡ true → DecodesLost code (map (λ f. f.now) fragments.now) lost
        (slice_index_or chosen 1 None) from to second.old second.new }
    ensures third { result ≡ true → DecodesLost code (map (λ f. f.now) fragments.now) lost
        (slice_index_or chosen 2 None) from to third.old third.new }
    ensures fourth { result ≡ true → DecodesLost code (map (λ f. f.now) fragments.now) lost
        (slice_index_or chosen 3 None) from to fourth.old fourth.new }
    ensures open { (result ≡ false) ↔ HasOpen code (is_lost lost) chosen }
    ensures unchanged { result ≡ false → (first.new ≡ first.old) × (second.new ≡ second.old)
        × (third.new ≡ third.old) × (fourth.new ≡ fourth.old) }
{
    if are_alone(code, lost, &chosen) {
        rebuild_alone(code, fragments, lost, chosen[0], from, to, first);
        rebuild_alone(code, fragments, lost, chosen[1], from, to, second);
        rebuild_alone(code, fragments, lost, chosen[2], from, to, third);
        rebuild_alone(code, fragments, lost, chosen[3], from, to, fourth);
        return true;
    }
    match code {
        Code::Wide if are_shares_faster(&chosen, to - from) => decode_by_shares(
            fragments, lost, &chosen, from, to, first, second, third, fourth,
        ),
        _ => decode_from_slots(
            code, fragments, lost, chosen, from, to, first, second, third, fourth,
        ),
    }
}
