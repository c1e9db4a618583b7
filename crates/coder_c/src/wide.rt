//! LRC(12,2,2): fragments that are decoded by shares, straight from what is passed from C. Those
//! that are alone lost in their groups are rebuilt first, and the others from them too, so that a
//! shape of `one_pass` decodes the rest.
//!
//! The functions that only choose how targets are decoded have one contract, which is written out
//! for each: a clause cannot stand for several clauses of a function.
ghost use Rattle.std.specs.Prelude.{◌≡◌, ℕ, ◌+◌, ◌-◌, ◌<◌, ◌≤◌, ◌↔◌, IfSome, None, Some, map, true};
ghost use Rattle.std.specs.Prelude.{IsSomeAnd, MatchOption};
ghost use Rattle.std.specs.Prelude.{slice_index, slice_index_or, length, false};
ghost use Rattle.lrc_code.specs.declared.Code.TheVariants.{Wide};
ghost use Rattle.lrc_code.specs.Code.{is_lost, is_alone, Open};
ghost use Rattle.lrc_code.specs.Stripe.{list_at};
ghost use Rattle.syndromes.specs.Syndromes.{list_byte, column_at, HaveBytes};
ghost use Rattle.decode.specs.DecodePlan.{IsDecodePlan};
ghost use Rattle.decode.specs.Decoding.{HasOpen};
ghost use Rattle.coder_c.specs.Call.{AreLostIn, IsLostIn, LeftReach, DecodesLost, HasRoomFor};
ghost use Rattle.coder_c.specs.Call.{HaveRoomFor, RebuildsLost};
ghost use Rattle.coder_c.specs.Wanted.{DecodesWanted, GivesLost};

use crate::wanted::{NOT_ALONE, Wanted, alone_of, given, place_of, wanted_for, without_group};
use decode::{DecodePlan, shares_of};
use lrc_code::{Code, LostSet, rebuild_local_in};
use syndromes::combine_syndromes;

/// The bytes `from..to` of a fragment, or None if it is missing.
#[inline(always)]
fn wide_part<'a>(
    fragments: &'a [&[u8]; 16],
    missing: LostSet,
    i: usize,
    from: usize,
    to: usize,
) -> Option<&'a [u8]>
    requires inside { i < 16 }
    requires reach { LeftReach Wide (map (λ f. f.now) fragments.now) missing to }
    requires range { from ≤ to }
    ensures long { IfSome result (λ part. length part.now ≡ to - from) }
    ensures lost { is_lost missing i ≡ true → result ≡ None }
    ensures bytes { is_lost missing i ≡ false → (k : ℕ) → k < to - from → list_byte result k
        ≡ slice_index (list_at (map (λ f. f.now) fragments.now) i) (from + k) }
{
    if missing.left(i as u8) {
        Some(&fragments[i][from..to])
    } else {
        None
    }
}

/// Fills the parts with the bytes `from..to` of the fragments that are not missing. They are not
/// returned, since that would copy them.
#[inline(always)]
fn fill_parts<'a>(
    parts: &mut [Option<&'a [u8]>; 16],
    fragments: &'a [&[u8]; 16],
    missing: LostSet,
    from: usize,
    to: usize,
)
    requires reach { LeftReach Wide (map (λ f. f.now) fragments.now) missing to }
    requires range { from ≤ to }
    ensures count { length parts.new ≡ 16 }
    ensures long { HaveBytes parts.new (to - from) }
    ensures lost { (p k : ℕ) → p < 16 → is_lost missing p ≡ true → column_at parts.new k p ≡ 0 }
    ensures bytes { (p k : ℕ) → p < 16 → k < to - from → is_lost missing p ≡ false
        → column_at parts.new k p
        ≡ slice_index (list_at (map (λ f. f.now) fragments.now) p) (from + k) }
{
    for i in 0..16 {
        parts[i] = wide_part(fragments, missing, i, from, to);
    }
}

/// Decodes all four targets from the fragments that are not missing.
#[inline(always)]
fn decode_together(
    fragments: &[&[u8]; 16],
    missing: LostSet,
    from: usize,
    to: usize,
    a: Wanted,
    b: Wanted,
    c: Wanted,
    d: Wanted,
    first: &mut [u8],
    second: &mut [u8],
    third: &mut [u8],
    fourth: &mut [u8],
)
    requires reach { LeftReach Wide (map (λ f. f.now) fragments.now) missing to }
    requires range { from ≤ to }
    requires room { HasRoomFor a.chosen (to - from) first.old }
    requires room_second { HasRoomFor b.chosen (to - from) second.old }
    requires room_third { HasRoomFor c.chosen (to - from) third.old }
    requires room_fourth { HasRoomFor d.chosen (to - from) fourth.old }
    ensures first { DecodesWanted (map (λ f. f.now) fragments.now) missing a from to first.old
        first.new }
    ensures second { DecodesWanted (map (λ f. f.now) fragments.now) missing b from to second.old
        second.new }
    ensures third { DecodesWanted (map (λ f. f.now) fragments.now) missing c from to third.old
        third.new }
    ensures fourth { DecodesWanted (map (λ f. f.now) fragments.now) missing d from to fourth.old
        fourth.new }
{
    let mut parts: [Option<&[u8]>; 16] = [None; 16];
    fill_parts(&mut parts, fragments, missing, from, to);
    let one = given(a.chosen, a.shares);
    let two = given(b.chosen, b.shares);
    let three = given(c.chosen, c.shares);
    let four = given(d.chosen, d.shares);
    combine_syndromes(
        &parts,
        to - from,
        one,
        two,
        three,
        four,
        first,
        second,
        third,
        fourth,
    );
}

/// Decodes targets from the fragments that are not missing and from `f`, of which `made` has the
/// bytes `from..to`.
fn decode_with_one<'a>(
    fragments: &'a [&[u8]; 16],
    missing: LostSet,
    from: usize,
    to: usize,
    f: u8,
    made: &'a [u8],
    b: Wanted,
    c: Wanted,
    d: Wanted,
    second: &mut [u8],
    third: &mut [u8],
    fourth: &mut [u8],
)
    requires reach { LeftReach Wide (map (λ f. f.now) fragments.now) missing to }
    requires range { from ≤ to }
    requires f { (f < 16) × (is_alone Wide (is_lost missing) f ≡ true) }
    requires made_long { length made.now ≡ to - from }
    requires made { RebuildsLost Wide (map (λ f. f.now) fragments.now) missing f from to made.now }
    requires other { IfSome b.chosen (λ h. is_alone Wide (is_lost missing) h ≡ false) }
    requires other_third { IfSome c.chosen (λ h. is_alone Wide (is_lost missing) h ≡ false) }
    requires other_fourth { IfSome d.chosen (λ h. is_alone Wide (is_lost missing) h ≡ false) }
    requires room_second { HasRoomFor b.chosen (to - from) second.old }
    requires room_third { HasRoomFor c.chosen (to - from) third.old }
    requires room_fourth { HasRoomFor d.chosen (to - from) fourth.old }
    ensures second { DecodesWanted (map (λ f. f.now) fragments.now) missing b from to second.old
        second.new }
    ensures third { DecodesWanted (map (λ f. f.now) fragments.now) missing c from to third.old
        third.new }
    ensures fourth { DecodesWanted (map (λ f. f.now) fragments.now) missing d from to fourth.old
        fourth.new }
{
    let mut parts: [Option<&'a [u8]>; 16] = [None; 16];
    fill_parts(&mut parts, fragments, missing, from, to);
    parts[usize::from(f)] = Some(made);
    let two = given(b.chosen, without_group(b.shares, f));
    let three = given(c.chosen, without_group(c.shares, f));
    let four = given(d.chosen, without_group(d.shares, f));
    combine_syndromes(
        &parts,
        to - from,
        two,
        three,
        four,
        None,
        second,
        third,
        fourth,
        &mut [],
    );
}

/// As `decode_with_one`, but with two that are made.
fn decode_with_two<'a>(
    fragments: &'a [&[u8]; 16],
    missing: LostSet,
    from: usize,
    to: usize,
    f: u8,
    made: &'a [u8],
    g: u8,
    also: &'a [u8],
    c: Wanted,
    d: Wanted,
    third: &mut [u8],
    fourth: &mut [u8],
)
    requires reach { LeftReach Wide (map (λ f. f.now) fragments.now) missing to }
    requires range { from ≤ to }
    requires f { (f < 16) × (is_alone Wide (is_lost missing) f ≡ true) }
    requires made_long { length made.now ≡ to - from }
    requires made { RebuildsLost Wide (map (λ f. f.now) fragments.now) missing f from to made.now }
    requires g { (g < 16) × (is_alone Wide (is_lost missing) g ≡ true) }
    requires also_long { length also.now ≡ to - from }
    requires also { RebuildsLost Wide (map (λ f. f.now) fragments.now) missing g from to also.now }
    requires other { IfSome c.chosen (λ h. is_alone Wide (is_lost missing) h ≡ false) }
    requires other_fourth { IfSome d.chosen (λ h. is_alone Wide (is_lost missing) h ≡ false) }
    requires room_third { HasRoomFor c.chosen (to - from) third.old }
    requires room_fourth { HasRoomFor d.chosen (to - from) fourth.old }
    ensures third { DecodesWanted (map (λ f. f.now) fragments.now) missing c from to third.old
        third.new }
    ensures fourth { DecodesWanted (map (λ f. f.now) fragments.now) missing d from to fourth.old
        fourth.new }
{
    let mut parts: [Option<&'a [u8]>; 16] = [None; 16];
    fill_parts(&mut parts, fragments, missing, from, to);
    parts[usize::from(f)] = Some(made);
    parts[usize::from(g)] = Some(also);
    let three = given(c.chosen, without_group(without_group(c.shares, f), g));
    let four = given(d.chosen, without_group(without_group(d.shares, f), g));
    combine_syndromes(
        &parts,
        to - from,
        three,
        four,
        None,
        None,
        third,
        fourth,
        &mut [],
        &mut [],
    );
}

/// Rebuilds the first fragment, `f`, by the sum of its group, and decodes the others from it too.
fn decode_after_one(
    fragments: &[&[u8]; 16],
    missing: LostSet,
    from: usize,
    to: usize,
    f: u8,
    a: Wanted,
    b: Wanted,
    c: Wanted,
    d: Wanted,
    first: &mut [u8],
    second: &mut [u8],
    third: &mut [u8],
    fourth: &mut [u8],
)
    requires reach { LeftReach Wide (map (λ f. f.now) fragments.now) missing to }
    requires range { from ≤ to }
    requires f { (a.chosen ≡ Some f) × (f < 16) × (is_alone Wide (is_lost missing) f ≡ true) }
    requires other { IfSome b.chosen (λ h. is_alone Wide (is_lost missing) h ≡ false) }
    requires other_third { IfSome c.chosen (λ h. is_alone Wide (is_lost missing) h ≡ false) }
    requires other_fourth { IfSome d.chosen (λ h. is_alone Wide (is_lost missing) h ≡ false) }
    requires room { HasRoomFor a.chosen (to - from) first.old }
    requires room_second { HasRoomFor b.chosen (to - from) second.old }
    requires room_third { HasRoomFor c.chosen (to - from) third.old }
    requires room_fourth { HasRoomFor d.chosen (to - from) fourth.old }
    ensures first { DecodesWanted (map (λ f. f.now) fragments.now) missing a from to first.old
        first.new }
    ensures second { DecodesWanted (map (λ f. f.now) fragments.now) missing b from to second.old
        second.new }
    ensures third { DecodesWanted (map (λ f. f.now) fragments.now) missing c from to third.old
        third.new }
    ensures fourth { DecodesWanted (map (λ f. f.now) fragments.now) missing d from to fourth.old
        fourth.new }
{
    rebuild_local_in(Code::Wide, missing, fragments, f, from, to, first);
    decode_with_one(
        fragments, missing, from, to, f, first, b, c, d, second, third, fourth,
    );
}

/// Rebuilds the first two fragments, `f` and `g`, by the sums of their groups, and decodes the
/// others from them too.
fn decode_after_two(
    fragments: &[&[u8]; 16],
    missing: LostSet,
    from: usize,
    to: usize,
    f: u8,
    g: u8,
    a: Wanted,
    b: Wanted,
    c: Wanted,
    d: Wanted,
    first: &mut [u8],
    second: &mut [u8],
    third: &mut [u8],
    fourth: &mut [u8],
)
    requires reach { LeftReach Wide (map (λ f. f.now) fragments.now) missing to }
    requires range { from ≤ to }
    requires f { (a.chosen ≡ Some f) × (f < 16) × (is_alone Wide (is_lost missing) f ≡ true) }
    requires g { (b.chosen ≡ Some g) × (g < 16) × (is_alone Wide (is_lost missing) g ≡ true) }
    requires other { IfSome c.chosen (λ h. is_alone Wide (is_lost missing) h ≡ false) }
    requires other_fourth { IfSome d.chosen (λ h. is_alone Wide (is_lost missing) h ≡ false) }
    requires room { HasRoomFor a.chosen (to - from) first.old }
    requires room_second { HasRoomFor b.chosen (to - from) second.old }
    requires room_third { HasRoomFor c.chosen (to - from) third.old }
    requires room_fourth { HasRoomFor d.chosen (to - from) fourth.old }
    ensures first { DecodesWanted (map (λ f. f.now) fragments.now) missing a from to first.old
        first.new }
    ensures second { DecodesWanted (map (λ f. f.now) fragments.now) missing b from to second.old
        second.new }
    ensures third { DecodesWanted (map (λ f. f.now) fragments.now) missing c from to third.old
        third.new }
    ensures fourth { DecodesWanted (map (λ f. f.now) fragments.now) missing d from to fourth.old
        fourth.new }
{
    rebuild_local_in(Code::Wide, missing, fragments, f, from, to, first);
    rebuild_local_in(Code::Wide, missing, fragments, g, from, to, second);
    decode_with_two(
        fragments, missing, from, to, f, first, g, second, c, d, third, fourth,
    );
}

/// Decodes targets that are in order: the fragments that are alone lost in their groups first, and
/// the others from these too, if that can be.
#[inline(always)]
fn decode_in_order(
    fragments: &[&[u8]; 16],
    missing: LostSet,
    from: usize,
    to: usize,
    a: Wanted,
    b: Wanted,
    c: Wanted,
    d: Wanted,
    first: &mut [u8],
    second: &mut [u8],
    third: &mut [u8],
    fourth: &mut [u8],
)
    requires reach { LeftReach Wide (map (λ f. f.now) fragments.now) missing to }
    requires range { from ≤ to }
    requires room { HasRoomFor a.chosen (to - from) first.old }
    requires room_second { HasRoomFor b.chosen (to - from) second.old }
    requires room_third { HasRoomFor c.chosen (to - from) third.old }
    requires room_fourth { HasRoomFor d.chosen (to - from) fourth.old }
    ensures first { DecodesWanted (map (λ f. f.now) fragments.now) missing a from to first.old
        first.new }
    ensures second { DecodesWanted (map (λ f. f.now) fragments.now) missing b from to second.old
        second.new }
    ensures third { DecodesWanted (map (λ f. f.now) fragments.now) missing c from to third.old
        third.new }
    ensures fourth { DecodesWanted (map (λ f. f.now) fragments.now) missing d from to fourth.old
        fourth.new }
{
    let alone = (
        alone_of(missing, a),
        alone_of(missing, b),
        alone_of(missing, c),
        alone_of(missing, d),
    );
    match alone {
        (Some(f), None, None, None) => decode_after_one(
            fragments, missing, from, to, f, a, b, c, d, first, second, third, fourth,
        ),
        (Some(f), Some(g), None, None) => decode_after_two(
            fragments, missing, from, to, f, g, a, b, c, d, first, second, third, fourth,
        ),
        _ => decode_together(
            fragments, missing, from, to, a, b, c, d, first, second, third, fourth,
        ),
    }
}

/// Decodes the targets in the order of their places. Each of at most `steps` calls lets two
/// neighbours change places.
#[inline(never)]
fn decode_sorted(
    steps: u8,
    fragments: &[&[u8]; 16],
    missing: LostSet,
    from: usize,
    to: usize,
    a: Wanted,
    b: Wanted,
    c: Wanted,
    d: Wanted,
    first: &mut [u8],
    second: &mut [u8],
    third: &mut [u8],
    fourth: &mut [u8],
)
    requires reach { LeftReach Wide (map (λ f. f.now) fragments.now) missing to }
    requires range { from ≤ to }
    requires room { HasRoomFor a.chosen (to - from) first.old }
    requires room_second { HasRoomFor b.chosen (to - from) second.old }
    requires room_third { HasRoomFor c.chosen (to - from) third.old }
    requires room_fourth { HasRoomFor d.chosen (to - from) fourth.old }
    ensures first { DecodesWanted (map (λ f. f.now) fragments.now) missing a from to first.old
        first.new }
    ensures second { DecodesWanted (map (λ f. f.now) fragments.now) missing b from to second.old
        second.new }
    ensures third { DecodesWanted (map (λ f. f.now) fragments.now) missing c from to third.old
        third.new }
    ensures fourth { DecodesWanted (map (λ f. f.now) fragments.now) missing d from to fourth.old
        fourth.new }
{
    let one = place_of(missing, a);
    let two = place_of(missing, b);
    let three = place_of(missing, c);
    let four = place_of(missing, d);
    let rest = steps.saturating_sub(1);
    if steps > 0 && one > two {
        decode_sorted(
            rest, fragments, missing, from, to, b, a, c, d, second, first, third, fourth,
        );
    } else if steps > 0 && two > three {
        decode_sorted(
            rest, fragments, missing, from, to, a, c, b, d, first, third, second, fourth,
        );
    } else if steps > 0 && three > four {
        decode_sorted(
            rest, fragments, missing, from, to, a, b, d, c, first, second, fourth, third,
        );
    } else {
        decode_in_order(
            fragments, missing, from, to, a, b, c, d, first, second, third, fourth,
        );
    }
}

/// The steps in which any four targets get into order.
const STEPS: u8 = 6;

/// The width from which more than two fragments take less time in the order of their places, as
/// measured.
const SORTED_WIDTH: usize = 256;

/// Whether the targets are in the order of their places, and none is for a fragment that is alone
/// lost in its group.
#[inline(always)]
fn are_settled(missing: LostSet, a: Wanted, b: Wanted, c: Wanted, d: Wanted) -> bool {
    let one = place_of(missing, a);
    let two = place_of(missing, b);
    let three = place_of(missing, c);
    let four = place_of(missing, d);
    one >= NOT_ALONE && one <= two && two <= three && three <= four
}

/// Decodes the targets, those of more than two fragments in the order of their places.
#[inline(always)]
fn decode_wanted(
    fragments: &[&[u8]; 16],
    missing: LostSet,
    from: usize,
    to: usize,
    a: Wanted,
    b: Wanted,
    c: Wanted,
    d: Wanted,
    first: &mut [u8],
    second: &mut [u8],
    third: &mut [u8],
    fourth: &mut [u8],
)
    requires reach { LeftReach Wide (map (λ f. f.now) fragments.now) missing to }
    requires range { from ≤ to }
    requires room { HasRoomFor a.chosen (to - from) first.old }
    requires room_second { HasRoomFor b.chosen (to - from) second.old }
    requires room_third { HasRoomFor c.chosen (to - from) third.old }
    requires room_fourth { HasRoomFor d.chosen (to - from) fourth.old }
    ensures first { DecodesWanted (map (λ f. f.now) fragments.now) missing a from to first.old
        first.new }
    ensures second { DecodesWanted (map (λ f. f.now) fragments.now) missing b from to second.old
        second.new }
    ensures third { DecodesWanted (map (λ f. f.now) fragments.now) missing c from to third.old
        third.new }
    ensures fourth { DecodesWanted (map (λ f. f.now) fragments.now) missing d from to fourth.old
        fourth.new }
{
    if c.chosen.is_none() || to - from < SORTED_WIDTH || are_settled(missing, a, b, c, d) {
        decode_together(
            fragments, missing, from, to, a, b, c, d, first, second, third, fourth,
        );
    } else {
        decode_sorted(
            STEPS, fragments, missing, from, to, a, b, c, d, first, second, third, fourth,
        );
    }
}

/// What a target gets for a lost fragment. None if and only if the fragment is open.
fn wanted_if(lost: LostSet, chosen: Option<u8>) -> Option<Wanted>
    requires { IfSome chosen (IsLostIn Wide lost) }
    ensures { MatchOption result (IsSomeAnd chosen (Open Wide (is_lost lost)))
        (GivesLost lost chosen) }
{
    match chosen {
        None => Some(wanted_for(None, [0; 4])),
        Some(f) => Some(wanted_for(chosen, shares_of(Code::Wide, lost, f)?)),
    }
}

/// What the four targets get. None if and only if a chosen fragment is open.
fn wanted_of(lost: LostSet, chosen: &[Option<u8>; 4]) -> Option<(Wanted, Wanted, Wanted, Wanted)>
    requires { AreLostIn Wide lost chosen.now }
    ensures open { (result ≡ None) ↔ HasOpen Wide (is_lost lost) chosen.now }
    ensures first { IfSome result (λ all. GivesLost lost (slice_index_or chosen.now 0 None) all.0) }
    ensures second { IfSome result
        (λ all. GivesLost lost (slice_index_or chosen.now 1 None) all.1) }
    ensures third { IfSome result (λ all. GivesLost lost (slice_index_or chosen.now 2 None) all.2) }
    ensures fourth { IfSome result
        (λ all. GivesLost lost (slice_index_or chosen.now 3 None) all.3) }
{
    Some((
        wanted_if(lost, chosen[0])?,
        wanted_if(lost, chosen[1])?,
        wanted_if(lost, chosen[2])?,
        wanted_if(lost, chosen[3])?,
    ))
}

/// Whether lost fragments are decoded faster by `decode_by_shares` than by `decode`, as measured.
pub(crate) fn are_shares_faster(chosen: &[Option<u8>; 4], width: usize) -> bool {
    chosen[2].is_some() && width >= SORTED_WIDTH
}

/// Writes the bytes `from..to` of the lost fragments that are chosen. Returns false if and only if
/// one of them is unrecoverable; then the targets are unchanged.
#[inline(never)]
pub(crate) fn decode_by_shares(
    fragments: &[&[u8]; 16],
    lost: LostSet,
    chosen: &[Option<u8>; 4],
    from: usize,
    to: usize,
    first: &mut [u8],
    second: &mut [u8],
    third: &mut [u8],
    fourth: &mut [u8],
) -> bool
    requires lost { AreLostIn Wide lost chosen.now }
    requires reach { LeftReach Wide (map (λ f. f.now) fragments.now) lost to }
    requires range { from ≤ to }
    requires room { HaveRoomFor chosen.now (to - from) first.old second.old third.old fourth.old }
    ensures first { result ≡ true → DecodesLost Wide (map (λ f. f.now) fragments.now) lost
        (slice_index_or chosen.now 0 None) from to first.old first.new }
    ensures second { result ≡ true → DecodesLost Wide (map (λ f. f.now) fragments.now) lost
        (slice_index_or chosen.now 1 None) from to second.old second.new }
    ensures third { result ≡ true → DecodesLost Wide (map (λ f. f.now) fragments.now) lost
        (slice_index_or chosen.now 2 None) from to third.old third.new }
    ensures fourth { result ≡ true → DecodesLost Wide (map (λ f. f.now) fragments.now) lost
        (slice_index_or chosen.now 3 None) from to fourth.old fourth.new }
    ensures open { (result ≡ false) ↔ HasOpen Wide (is_lost lost) chosen.now }
    ensures unchanged { result ≡ false → (first.new ≡ first.old) × (second.new ≡ second.old)
        × (third.new ≡ third.old) × (fourth.new ≡ fourth.old) }
{
    let Some((a, b, c, d)) = wanted_of(lost, chosen) else {
        return false;
    };
    decode_sorted(
        STEPS, fragments, lost, from, to, a, b, c, d, first, second, third, fourth,
    );
    true
}

/// `decode_by_plan` for LRC(12,2,2), straight from what is passed, by the shares of the plan.
#[inline(never)]
pub(crate) fn decode_wide(
    plan: &DecodePlan,
    fragments: &[&[u8]; 16],
    from: usize,
    to: usize,
    first: &mut [u8],
    second: &mut [u8],
    third: &mut [u8],
    fourth: &mut [u8],
)
    requires code { plan.now.code ≡ Wide }
    requires reach { LeftReach Wide (map (λ f. f.now) fragments.now) plan.now.missing to }
    requires range { from ≤ to }
    requires lost { AreLostIn Wide plan.now.missing plan.now.chosen }
    requires room { HasRoomFor (slice_index_or plan.now.chosen 0 None) (to - from) first.old }
    requires room_second { HasRoomFor (slice_index_or plan.now.chosen 1 None) (to - from)
        second.old }
    requires room_third { HasRoomFor (slice_index_or plan.now.chosen 2 None) (to - from)
        third.old }
    requires room_fourth { HasRoomFor (slice_index_or plan.now.chosen 3 None) (to - from)
        fourth.old }
    ensures first { IsDecodePlan plan.now → DecodesLost plan.now.code
        (map (λ f. f.now) fragments.now) plan.now.missing (slice_index_or plan.now.chosen 0 None)
        from to first.old first.new }
    ensures second { IsDecodePlan plan.now → DecodesLost plan.now.code
        (map (λ f. f.now) fragments.now) plan.now.missing (slice_index_or plan.now.chosen 1 None)
        from to second.old second.new }
    ensures third { IsDecodePlan plan.now → DecodesLost plan.now.code
        (map (λ f. f.now) fragments.now) plan.now.missing (slice_index_or plan.now.chosen 2 None)
        from to third.old third.new }
    ensures fourth { IsDecodePlan plan.now → DecodesLost plan.now.code
        (map (λ f. f.now) fragments.now) plan.now.missing (slice_index_or plan.now.chosen 3 None)
        from to fourth.old fourth.new }
{
    let missing = LostSet::of_bits(plan.missing);
    let a = wanted_for(plan.chosen[0], plan.shares[0]);
    let b = wanted_for(plan.chosen[1], plan.shares[1]);
    let c = wanted_for(plan.chosen[2], plan.shares[2]);
    let d = wanted_for(plan.chosen[3], plan.shares[3]);
    decode_wanted(
        fragments, missing, from, to, a, b, c, d, first, second, third, fourth,
    );
}
