//! Decoding: the bytes of any lost fragments at once.
ghost use Rattle.std.specs.Prelude.{◌≡◌, ℕ, ◌+◌, ◌-◌, ◌<◌, ◌≤◌, ◌↔◌, IsTrue, true, false, None};
ghost use Rattle.std.specs.Prelude.{IfSome, IsSomeAnd, MatchOption, length, slice_index};
ghost use Rattle.std.specs.Prelude.{slice_index_or};
ghost use Rattle.lrc_code.specs.Code.{fragment_count, is_lost, Open};
ghost use Rattle.lrc_code.specs.Stripe.{is_absent, byte_at, Reaches, HasRange, Rebuilds};
ghost use Rattle.syndromes.specs.Syndromes.{column_at, list_byte, HaveBytes};
ghost use Rattle.decode.specs.Syndrome.{AreShares};
ghost use Rattle.decode.specs.FewReads.{HasFewReads};
ghost use Rattle.decode.specs.Decoding.{AreAbsent, HasOpen, IsDecodable, IsDecoded};
ghost use Rattle.decode.specs.Decoding.{byte_in_place, fragment_in_place};

use lrc_code::{
    Code, Left, LostSet, factors_in, is_alone_in, is_open_in, rebuild_to as rebuild_by_recipe,
};
use syndromes::combine_syndromes;

/// The shares of a lost fragment: in every column it is the sum of the four syndromes of the
/// remaining fragments, each times its share. They depend on the lost set alone. Returns None if
/// and only if the fragment is open. What the shares give weight to has to be read: the others of
/// its group, if the fragment is alone lost there, else no more than the code has data fragments.
pub fn shares_of(code: Code, lost: LostSet, f: u8) -> Option<[u8; 4]>
    requires f_below { f < fragment_count code }
    requires f_lost { is_lost lost f ≡ true }
    ensures shares { MatchOption result (Open code (is_lost lost) f)
        (λ shares. AreShares code (is_lost lost) f shares) }
    ensures reads { MatchOption result (Unit {0})
        (λ shares. HasFewReads code (is_lost lost) f shares) }
{
    // A column's sums are 0, so in the sum of the four equations, each times its factor, the
    // remaining bytes come to what the lost ones do: to the one lost byte that weighs anything.
    let factors = factors_in(code, lost, f)?;
    fit(&factors);
    Some(factors)
}

/// States for the prover that each of four bytes is below 256.
fn fit(bytes: &[u8; 4])
    ensures { (i : ℕ) → i < 4 → slice_index bytes.now i < 256 }
{
    let [_first, _second, _third, _fourth] = *bytes;
}

/// The fragment at one of the sixteen places: the groups of LRC(6,2,2) leave the last three of each
/// six free.
fn fragment_in_place(code: Code, place: usize) -> Option<usize>
    requires { place < 16 }
    ensures value { result ≡ fragment_in_place code place }
    ensures inside { IfSome result (λ f. f < fragment_count code) }
{
    match code {
        Code::Wide => Some(place),
        Code::Small => match place {
            0..3 => Some(place),
            6..9 => Some(place - 3),
            12..16 => Some(place - 6),
            _ => None,
        },
    }
}

/// The bytes `from..to` of the fragment at a place, or None where there is none or it is absent.
fn part_at<'a>(left: &Left<'a>, place: usize, from: usize, to: usize) -> Option<&'a [u8]>
    requires inside { place < 16 }
    requires reach { (i : ℕ) → i < fragment_count left.now.code
        → is_absent left.now.fragments i ≡ false → Reaches left.now.fragments to i }
    requires range { from ≤ to }
    ensures long { IfSome result (λ part. length part.now ≡ to - from) }
    ensures bytes { (k : ℕ) → k < to - from → list_byte result k
        ≡ byte_in_place (fragment_in_place left.now.code place)
        (byte_at left.now.fragments (from + k)) }
{
    let f = fragment_in_place(left.code, place)?;
    let bytes = left.fragments[f]?;
    Some(&bytes[from..to])
}

/// The bytes `from..to` of the fragments that are present, at their places.
pub(crate) fn parts_of<'a>(left: &Left<'a>, from: usize, to: usize) -> [Option<&'a [u8]>; 16]
    requires reach { (i : ℕ) → i < fragment_count left.now.code
        → is_absent left.now.fragments i ≡ false → Reaches left.now.fragments to i }
    requires range { from ≤ to }
    ensures long { HaveBytes result (to - from) }
    ensures bytes { (place k : ℕ) → place < 16 → k < to - from
        → column_at result k place ≡ byte_in_place (fragment_in_place left.now.code place)
        (byte_at left.now.fragments (from + k)) }
{
    let mut parts: [Option<&'a [u8]>; 16] = [None; 16];
    for place in 0..16 {
        parts[place] = part_at(left, place, from, to);
    }
    parts
}

/// Whether a fragment is chosen, and open.
fn is_chosen_open(left: &Left, lost: LostSet, chosen: Option<u8>) -> bool
    requires inside { IfSome chosen (λ f. f < fragment_count left.now.code) }
    requires absent { AreAbsent left.now.code left.now.fragments lost }
    ensures { IsTrue result ↔ IsSomeAnd chosen (Open left.now.code (is_absent left.now.fragments)) }
{
    match chosen {
        None => false,
        Some(f) => is_open_in(left.code, lost, f),
    }
}

/// Whether a chosen fragment is open. At an excess of at most 2 none is.
fn has_open(left: &Left, lost: LostSet, chosen: &[Option<u8>; 4]) -> bool
    requires inside { (i : ℕ) → i < 4 → IfSome (slice_index_or chosen.now i None)
        (λ f. f < fragment_count left.now.code) }
    requires absent { AreAbsent left.now.code left.now.fragments lost }
    ensures { IsTrue result ↔ HasOpen left.now.code (is_absent left.now.fragments) chosen.now }
{
    if lost.excess_in(left.code) <= 2 {
        return false;
    }
    is_chosen_open(left, lost, chosen[0])
        || is_chosen_open(left, lost, chosen[1])
        || is_chosen_open(left, lost, chosen[2])
        || is_chosen_open(left, lost, chosen[3])
}

/// The shares of a fragment that is chosen.
fn shares_for(left: &Left, lost: LostSet, chosen: Option<u8>) -> Option<[u8; 4]>
    requires decodable { IsDecodable left.now.code left.now.fragments chosen }
    requires absent { AreAbsent left.now.code left.now.fragments lost }
    ensures { MatchOption chosen (result ≡ None)
        (λ f. IsSomeAnd result (λ a. AreShares left.now.code (is_absent left.now.fragments) f a)) }
{
    shares_of(left.code, lost, chosen?)
}

/// Writes the bytes of the fragments that are chosen, all of them by the syndromes.
fn decode_by_syndromes(
    left: &Left,
    lost: LostSet,
    chosen: [Option<u8>; 4],
    from: usize,
    to: usize,
    first: &mut [u8],
    second: &mut [u8],
    third: &mut [u8],
    fourth: &mut [u8],
)
    requires absent { AreAbsent left.now.code left.now.fragments lost }
    requires decodable { (i : ℕ) → i < 4 → IsDecodable left.now.code left.now.fragments
        (slice_index_or chosen i None) }
    requires reach { (i : ℕ) → i < fragment_count left.now.code
        → is_absent left.now.fragments i ≡ false → Reaches left.now.fragments to i }
    requires range { from ≤ to }
    requires room { IfSome (slice_index_or chosen 0 None) (λ _. length first.old ≡ to - from) }
    requires room_second { IfSome (slice_index_or chosen 1 None)
        (λ _. length second.old ≡ to - from) }
    requires room_third { IfSome (slice_index_or chosen 2 None)
        (λ _. length third.old ≡ to - from) }
    requires room_fourth { IfSome (slice_index_or chosen 3 None)
        (λ _. length fourth.old ≡ to - from) }
    ensures first { IsDecoded left.now.code left.now.fragments (slice_index_or chosen 0 None) from
        to first.old first.new }
    ensures second { IsDecoded left.now.code left.now.fragments (slice_index_or chosen 1 None) from
        to second.old second.new }
    ensures third { IsDecoded left.now.code left.now.fragments (slice_index_or chosen 2 None) from
        to third.old third.new }
    ensures fourth { IsDecoded left.now.code left.now.fragments (slice_index_or chosen 3 None) from
        to fourth.old fourth.new }
{
    let a = shares_for(left, lost, chosen[0]);
    let b = shares_for(left, lost, chosen[1]);
    let c = shares_for(left, lost, chosen[2]);
    let d = shares_for(left, lost, chosen[3]);
    let parts = parts_of(left, from, to);
    combine_syndromes(&parts, to - from, a, b, c, d, first, second, third, fourth);
}

/// Writes the bytes of a fragment that is chosen by its recipe, if it has one.
pub(crate) fn rebuild_chosen(
    left: &Left,
    chosen: Option<u8>,
    from: usize,
    to: usize,
    target: &mut [u8],
)
    requires absent { IfSome chosen (λ f. (f < fragment_count left.now.code)
        × (is_absent left.now.fragments f ≡ true)) }
    requires reach { (i : ℕ) → i < fragment_count left.now.code
        → is_absent left.now.fragments i ≡ false → Reaches left.now.fragments to i }
    requires range { from ≤ to }
    requires room { IfSome chosen (λ _. length target.old ≡ to - from) }
    ensures { IsDecodable left.now.code left.now.fragments chosen
        → IsDecoded left.now.code left.now.fragments chosen from to target.old target.new }
{
    if let Some(f) = chosen {
        let _ = rebuild_by_recipe(left, usize::from(f), from, to, target);
    }
}

/// 1 if a fragment is chosen that is not alone lost in its group, so that its recipe has up to
/// twelve terms.
fn is_far(code: Code, lost: LostSet, chosen: Option<u8>) -> u32
    requires { IfSome chosen (λ f. f < fragment_count code) }
    ensures { result ≤ 1 }
{
    match chosen {
        Some(f) if !is_alone_in(code, lost, f) => 1,
        _ => 0,
    }
}

/// How many fragments are chosen that are not alone lost in their groups.
pub(crate) fn far_count(code: Code, lost: LostSet, chosen: &[Option<u8>; 4]) -> u32
    requires { (i : ℕ) → i < 4 → IfSome (slice_index_or chosen.now i None)
        (λ f. f < fragment_count code) }
{
    is_far(code, lost, chosen[0])
        + is_far(code, lost, chosen[1])
        + is_far(code, lost, chosen[2])
        + is_far(code, lost, chosen[3])
}

/// The width from which the syndromes rebuild one fragment faster than a recipe with as many terms
/// as the code has data fragments, as measured.
const SYNDROME_WIDTH: usize = 512;

/// Whether `width` bytes of one lost fragment are rebuilt faster by its recipe than by the
/// syndromes, as measured: if they are few, or the fragment is alone lost in its group.
pub fn is_recipe_faster(code: Code, lost: LostSet, f: u8, width: usize) -> bool
    requires { f < fragment_count code }
{
    width < SYNDROME_WIDTH || is_alone_in(code, lost, f)
}

/// Whether the syndromes are faster than recipes, as measured: the wider the fragments are, and the
/// more of them are not alone lost in their groups.
fn are_syndromes_faster(code: Code, lost: LostSet, chosen: &[Option<u8>; 4], width: usize) -> bool
    requires { (i : ℕ) → i < 4 → IfSome (slice_index_or chosen.now i None)
        (λ f. f < fragment_count code) }
{
    if width < 64 {
        return false;
    }
    let last = code.fragments() - 1;
    let are_globals_lost = !lost.left(last) && !lost.left(last - 1);
    match far_count(code, lost, chosen) {
        0 => false,
        1 => width >= SYNDROME_WIDTH,
        2 if are_globals_lost => width >= 512,
        2 => width >= 64,
        _ => true,
    }
}

/// Writes the bytes `from..to` of up to four absent fragments, as every stripe has them that agrees
/// with what is present. `chosen` has the number of the fragment for each of the four targets. A
/// target for None is unchanged. Of more than four absent fragments at least one is open.
///
/// Returns false if and only if a chosen fragment is open; then every target is unchanged.
///
/// The fragments are made in one pass over those that are present, or each by its recipe, whichever
/// is faster. Does not allocate.
pub fn decode_to(
    left: &Left,
    chosen: [Option<u8>; 4],
    from: usize,
    to: usize,
    first: &mut [u8],
    second: &mut [u8],
    third: &mut [u8],
    fourth: &mut [u8],
) -> bool
    requires absent { (i : ℕ) → i < 4 → IfSome (slice_index_or chosen i None)
        (λ f. (f < fragment_count left.now.code) × (is_absent left.now.fragments f ≡ true)) }
    requires reach { (i : ℕ) → i < fragment_count left.now.code
        → is_absent left.now.fragments i ≡ false → Reaches left.now.fragments to i }
    requires range { from ≤ to }
    requires room { IfSome (slice_index_or chosen 0 None) (λ _. length first.old ≡ to - from) }
    requires room_second { IfSome (slice_index_or chosen 1 None)
        (λ _. length second.old ≡ to - from) }
    requires room_third { IfSome (slice_index_or chosen 2 None)
        (λ _. length third.old ≡ to - from) }
    requires room_fourth { IfSome (slice_index_or chosen 3 None)
        (λ _. length fourth.old ≡ to - from) }
    ensures open { (result ≡ false) ↔ HasOpen left.now.code (is_absent left.now.fragments) chosen }
    ensures unchanged { result ≡ false → (first.new ≡ first.old) × (second.new ≡ second.old)
        × (third.new ≡ third.old) × (fourth.new ≡ fourth.old) }
    ensures first { result ≡ true → IsDecoded left.now.code left.now.fragments
        (slice_index_or chosen 0 None) from to first.old first.new }
    ensures second { result ≡ true → IsDecoded left.now.code left.now.fragments
        (slice_index_or chosen 1 None) from to second.old second.new }
    ensures third { result ≡ true → IsDecoded left.now.code left.now.fragments
        (slice_index_or chosen 2 None) from to third.old third.new }
    ensures fourth { result ≡ true → IsDecoded left.now.code left.now.fragments
        (slice_index_or chosen 3 None) from to fourth.old fourth.new }
{
    let lost = left.lost();
    if has_open(left, lost, &chosen) {
        return false;
    }
    if are_syndromes_faster(left.code, lost, &chosen, to - from) {
        decode_by_syndromes(left, lost, chosen, from, to, first, second, third, fourth);
    } else {
        rebuild_chosen(left, chosen[0], from, to, first);
        rebuild_chosen(left, chosen[1], from, to, second);
        rebuild_chosen(left, chosen[2], from, to, third);
        rebuild_chosen(left, chosen[3], from, to, fourth);
    }
    true
}

/// Writes the bytes `from..to` of an absent fragment, as every stripe has them that agrees with
/// what is present: by its recipe or by the syndromes, whichever is faster. Returns false if and
/// only if the fragment is open; then `target` is unchanged. Does not allocate.
pub fn rebuild_to(left: &Left, f: u8, from: usize, to: usize, target: &mut [u8]) -> bool
    requires absent { is_absent left.now.fragments f ≡ true }
    requires inside { HasRange left.now.code left.now.fragments f from to }
    requires room { length target.old ≡ to - from }
    ensures open { (result ≡ false) ↔ Open left.now.code (is_absent left.now.fragments) f }
    ensures unchanged { result ≡ false → target.new ≡ target.old }
    ensures ok { result ≡ true → Rebuilds left.now.code left.now.fragments f from to target.new }
{
    if is_recipe_faster(left.code, left.lost(), f, target.len()) {
        return rebuild_by_recipe(left, usize::from(f), from, to, target);
    }
    let chosen = [Some(f), None, None, None];
    decode_to(left, chosen, from, to, target, &mut [], &mut [], &mut [])
}
