//! Plans: what decoding needs to know of a lost set, made once for many stripes.
ghost use Rattle.std.specs.Prelude.{◌≡◌, ℕ, ◌-◌, ◌<◌, ◌≤◌, ◌↔◌, true, false, None, IfSome};
ghost use Rattle.std.specs.Prelude.{IsSomeAnd, MatchOption, length, slice_index_or, ◌==◌, ◌||◌};
ghost use Rattle.std.specs.Prelude.{slice_index, ◌≢◌, ◌∷◌, [], Some};
ghost use Rattle.lrc_code.specs.Code.{fragment_count, data_count, is_lost, Open};
ghost use Rattle.lrc_code.specs.Stripe.{is_absent, Reaches};
ghost use Rattle.lrc_code.specs.Factors.{factored_weight};
ghost use Rattle.decode.specs.Syndrome.{AreShares};
ghost use Rattle.decode.specs.Decoding.{AreAbsent, HasOpen, IsDecoded};
ghost use Rattle.decode.specs.DecodePlan.{IsDecodePlan, HasAllOf, IsRest, WeighsNothing, at_target};
ghost use Rattle.decode.specs.DecodePlan.{WeighSomething};
ghost use Rattle.decode.specs.FewReads.{HasFewReads, AreAlone, HasMate, read_count};

use crate::decoding::{far_count, parts_of, rebuild_chosen, shares_of};
use lrc_code::{Code, Left, LostSet, factored_weight_of};
use syndromes::combine_syndromes;

/// How up to four fragments of a stripe are decoded: by which shares of the four syndromes, and
/// from which fragments.
#[derive(Clone, Copy, Drop)]
pub struct DecodePlan {
    pub code: Code,
    /// The fragments that are not read, as bits: those that are lost, and those that weigh nothing.
    pub missing: u16,
    /// The fragment for each of the four targets.
    pub chosen: [Option<u8>; 4],
    /// The shares for each of the four targets. Where none is chosen they are not read.
    pub shares: [[u8; 4]; 4],
}

/// The shares of a fragment that is chosen, or zeros where none is.
fn shares_if(code: Code, lost: LostSet, chosen: Option<u8>) -> Option<[u8; 4]>
    requires { IfSome chosen (λ f. (f < fragment_count code) × (is_lost lost f ≡ true)) }
    ensures shares { MatchOption result (IsSomeAnd chosen (Open code (is_lost lost)))
        (λ a. IfSome chosen (λ f. AreShares code (is_lost lost) f a)) }
    ensures bytes { IfSome result (λ a. (e : ℕ) → e < 4 → slice_index a e < 256) }
    ensures reads { IfSome result (λ a. MatchOption chosen (a ≡ 0 ∷ 0 ∷ 0 ∷ 0 ∷ [])
        (λ f. HasFewReads code (is_lost lost) f a)) }
{
    match chosen {
        None => Some([0; 4]),
        Some(f) => shares_of(code, lost, f),
    }
}

/// The bits with that of `f` set.
fn with_bit(bits: u16, f: u8) -> u16
    requires { f < 16 }
    ensures { (i : ℕ) → is_lost result i ≡ (i == f || is_lost bits i) }
{
    bits | 1 << f
}

/// Whether a fragment weighs something for one of the targets.
fn weighs_any(code: Code, shares: &[[u8; 4]; 4], i: u8) -> bool
    requires { i < fragment_count code }
    ensures nothing { result ≡ false → (k : ℕ) → k < 4
        → factored_weight code (at_target shares.now k) i ≡ 0 }
    ensures any { result ≡ true → (k : ℕ) × (k < 4)
        × (factored_weight code (at_target shares.now k) i ≢ 0) }
{
    let i = usize::from(i);
    factored_weight_of(code, &shares[0], i) != 0
        || factored_weight_of(code, &shares[1], i) != 0
        || factored_weight_of(code, &shares[2], i) != 0
        || factored_weight_of(code, &shares[3], i) != 0
}

/// The fragments that need not be read: those that are lost, and those that weigh nothing.
fn missing_of(code: Code, lost: LostSet, shares: &[[u8; 4]; 4]) -> u16
    ensures lost { HasAllOf code lost result }
    ensures rest { WeighsNothing code lost result shares.now }
    ensures read { WeighSomething code lost result shares.now }
{
    let mut missing = 0;
    for i in 0..code.fragments() {
        if !lost.left(i) || !weighs_any(code, shares, i) {
            missing = with_bit(missing, i);
        }
    }
    missing
}

impl DecodePlan {
    /// The fragments that are read, as bits.
    pub fn reads(&self) -> u16
        ensures { IsRest self.now.code self.now.missing result }
    {
        let missing = LostSet::of_bits(self.missing);
        let mut reads = 0;
        for i in 0..self.code.fragments() {
            if missing.left(i) {
                reads = with_bit(reads, i);
            }
        }
        reads
    }
}

/// A plan for up to four lost fragments. It reads no lost fragment. For fragments that are alone
/// lost in their groups it reads the others of these groups, and for one fragment no more than the
/// code has data fragments.
///
/// None if and only if a chosen fragment is open.
pub fn plan_for(code: Code, lost: LostSet, chosen: [Option<u8>; 4]) -> Option<DecodePlan>
    requires { (k : ℕ) → k < 4 → IfSome (slice_index_or chosen k None)
        (λ f. (f < fragment_count code) × (is_lost lost f ≡ true)) }
    ensures open { (result ≡ None) ↔ HasOpen code (is_lost lost) chosen }
    ensures plan { IfSome result IsDecodePlan }
    ensures code { IfSome result (λ p. p.code ≡ code) }
    ensures chosen { IfSome result (λ p. p.chosen ≡ chosen) }
    ensures lost { IfSome result (λ p. HasAllOf code lost p.missing) }
    ensures near { IfSome result (λ p. AreAlone code (is_lost lost) chosen → (i : ℕ)
        → i < fragment_count code → is_lost p.missing i ≡ false → HasMate code chosen i) }
    ensures few { IfSome result (λ p. (f : ℕ) → chosen ≡ Some f ∷ None ∷ None ∷ None ∷ []
        → read_count code (is_lost p.missing) ≤ data_count code) }
{
    let shares = [
        shares_if(code, lost, chosen[0])?,
        shares_if(code, lost, chosen[1])?,
        shares_if(code, lost, chosen[2])?,
        shares_if(code, lost, chosen[3])?,
    ];
    let missing = missing_of(code, lost, &shares);
    Some(DecodePlan {
        code,
        missing,
        chosen,
        shares,
    })
}

/// The shares where a fragment is chosen.
fn given(chosen: Option<u8>, shares: [u8; 4]) -> Option<[u8; 4]>
    ensures { MatchOption chosen (result ≡ None) (λ f. result ≡ Some shares) }
{
    match chosen {
        None => None,
        Some(_) => Some(shares),
    }
}

/// `decode_by_plan` by the shares of the plan, in one pass over the fragments that are read.
fn decode_by_shares(
    plan: &DecodePlan,
    left: &Left,
    from: usize,
    to: usize,
    first: &mut [u8],
    second: &mut [u8],
    third: &mut [u8],
    fourth: &mut [u8],
)
    requires code { left.now.code ≡ plan.now.code }
    requires absent { AreAbsent left.now.code left.now.fragments plan.now.missing }
    requires reach { (i : ℕ) → i < fragment_count left.now.code
        → is_absent left.now.fragments i ≡ false → Reaches left.now.fragments to i }
    requires range { from ≤ to }
    requires room { IfSome (slice_index_or plan.now.chosen 0 None)
        (λ _. length first.old ≡ to - from) }
    requires room_second { IfSome (slice_index_or plan.now.chosen 1 None)
        (λ _. length second.old ≡ to - from) }
    requires room_third { IfSome (slice_index_or plan.now.chosen 2 None)
        (λ _. length third.old ≡ to - from) }
    requires room_fourth { IfSome (slice_index_or plan.now.chosen 3 None)
        (λ _. length fourth.old ≡ to - from) }
    ensures first { IsDecodePlan plan.now → IsDecoded left.now.code left.now.fragments
        (slice_index_or plan.now.chosen 0 None) from to first.old first.new }
    ensures second { IsDecodePlan plan.now → IsDecoded left.now.code left.now.fragments
        (slice_index_or plan.now.chosen 1 None) from to second.old second.new }
    ensures third { IsDecodePlan plan.now → IsDecoded left.now.code left.now.fragments
        (slice_index_or plan.now.chosen 2 None) from to third.old third.new }
    ensures fourth { IsDecodePlan plan.now → IsDecoded left.now.code left.now.fragments
        (slice_index_or plan.now.chosen 3 None) from to fourth.old fourth.new }
{
    let a = given(plan.chosen[0], plan.shares[0]);
    let b = given(plan.chosen[1], plan.shares[1]);
    let c = given(plan.chosen[2], plan.shares[2]);
    let d = given(plan.chosen[3], plan.shares[3]);
    let parts = parts_of(left, from, to);
    combine_syndromes(&parts, to - from, a, b, c, d, first, second, third, fourth);
}

/// Writes the bytes `from..to` of the fragments that a plan is for, as every stripe has them that
/// agrees with the fragments that it reads. A target for None is unchanged. `plan_for` makes such
/// plans; by any other plan the targets have any bytes.
///
/// The fragments are made in one pass over those that are read, or each by its recipe if all are
/// alone lost in their groups. Does not allocate.
pub fn decode_by_plan(
    plan: &DecodePlan,
    left: &Left,
    from: usize,
    to: usize,
    first: &mut [u8],
    second: &mut [u8],
    third: &mut [u8],
    fourth: &mut [u8],
)
    requires code { left.now.code ≡ plan.now.code }
    requires absent { AreAbsent left.now.code left.now.fragments plan.now.missing }
    requires chosen { (k : ℕ) → k < 4 → IfSome (slice_index_or plan.now.chosen k None)
        (λ f. (f < fragment_count plan.now.code) × (is_lost plan.now.missing f ≡ true)) }
    requires reach { (i : ℕ) → i < fragment_count left.now.code
        → is_absent left.now.fragments i ≡ false → Reaches left.now.fragments to i }
    requires range { from ≤ to }
    requires room { IfSome (slice_index_or plan.now.chosen 0 None)
        (λ _. length first.old ≡ to - from) }
    requires room_second { IfSome (slice_index_or plan.now.chosen 1 None)
        (λ _. length second.old ≡ to - from) }
    requires room_third { IfSome (slice_index_or plan.now.chosen 2 None)
        (λ _. length third.old ≡ to - from) }
    requires room_fourth { IfSome (slice_index_or plan.now.chosen 3 None)
        (λ _. length fourth.old ≡ to - from) }
    ensures first { IsDecodePlan plan.now → IsDecoded left.now.code left.now.fragments
        (slice_index_or plan.now.chosen 0 None) from to first.old first.new }
    ensures second { IsDecodePlan plan.now → IsDecoded left.now.code left.now.fragments
        (slice_index_or plan.now.chosen 1 None) from to second.old second.new }
    ensures third { IsDecodePlan plan.now → IsDecoded left.now.code left.now.fragments
        (slice_index_or plan.now.chosen 2 None) from to third.old third.new }
    ensures fourth { IsDecodePlan plan.now → IsDecoded left.now.code left.now.fragments
        (slice_index_or plan.now.chosen 3 None) from to fourth.old fourth.new }
{
    let missing = LostSet::of_bits(plan.missing);
    if far_count(plan.code, missing, &plan.chosen) > 0 {
        decode_by_shares(plan, left, from, to, first, second, third, fourth);
    } else {
        rebuild_chosen(left, plan.chosen[0], from, to, first);
        rebuild_chosen(left, plan.chosen[1], from, to, second);
        rebuild_chosen(left, plan.chosen[2], from, to, third);
        rebuild_chosen(left, plan.chosen[3], from, to, fourth);
    }
}
