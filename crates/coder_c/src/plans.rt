//! Plans: a lost set's shares as plain bytes, made once and used for any number of stripes.
ghost use Rattle.std.specs.Prelude.{◌≡◌, ℕ, ◌-◌, ◌≤◌, ◌↔◌, IsSomeAnd, MatchOption, None, Some, map};
ghost use Rattle.std.specs.Prelude.{slice_index, slice_index_or, length, true, false, ◌+◌, ◌<◌};
ghost use Rattle.std.specs.Prelude.{IfSome};
ghost use Rattle.lrc_code.specs.declared.Code.TheVariants.{Wide};
ghost use Rattle.lrc_code.specs.Code.{is_lost};
ghost use Rattle.lrc_code.specs.Stripe.{list_at};
ghost use Rattle.syndromes.specs.Syndromes.{list_byte};
ghost use Rattle.decode.specs.DecodePlan.{IsDecodePlan};
ghost use Rattle.coder_c.specs.Call.{chosen_of, AreLostIn, HaveRoomFor, LeftReach};
ghost use Rattle.coder_c.specs.Call.{DecodesLost, HasRoomFor};
ghost use Rattle.coder_c.specs.PlanBytes.{format_in, code_in, missing_in, chosen_in, shares_in};
ghost use Rattle.coder_c.specs.PlanBytes.{plan_in, AreSameShares};

use crate::remaining::{are_alone, left_of, left_reach, rebuild_alone};
use crate::wide::decode_wide;
use crate::{PLAN_FORMAT, chosen_of, code_of};
use decode::{DecodePlan, decode_by_plan};
use lrc_code::{Code, LostSet};

/// The bytes of a plan with these numbers.
pub(crate) fn plan_bytes(plan: &DecodePlan, numbers: &[u8; 4]) -> [u8; 24]
    requires { plan.now.chosen ≡ chosen_of numbers.now }
    ensures format { format_in result ≡ PLAN_FORMAT }
    ensures code { code_in result ≡ Some plan.now.code }
    ensures missing { missing_in result ≡ plan.now.missing }
    ensures chosen { chosen_in result ≡ plan.now.chosen }
    ensures shares { AreSameShares (shares_in result) plan.now.shares }
{
    let [a, b, c, d] = plan.shares;
    [
        PLAN_FORMAT,
        plan.code.data_fragments(),
        (plan.missing % 256) as u8,
        (plan.missing / 256) as u8,
        numbers[0],
        numbers[1],
        numbers[2],
        numbers[3],
        a[0],
        a[1],
        a[2],
        a[3],
        b[0],
        b[1],
        b[2],
        b[3],
        c[0],
        c[1],
        c[2],
        c[3],
        d[0],
        d[1],
        d[2],
        d[3],
    ]
}

/// The plan that bytes are, if they have its format and the number of a code's data fragments.
pub(crate) fn plan_from(bytes: &[u8; 24]) -> Option<DecodePlan>
    ensures { MatchOption result
        ((format_in bytes.now ≡ PLAN_FORMAT) × IsSomeAnd (code_in bytes.now) (λ _. Unit {0}) → ⊥)
        (λ p. (format_in bytes.now ≡ PLAN_FORMAT) × (code_in bytes.now ≡ Some p.code)
        × (p ≡ plan_in p.code bytes.now)) }
{
    if bytes[0] != PLAN_FORMAT {
        return None;
    }
    let code = code_of(usize::from(bytes[1]))?;
    Some(DecodePlan {
        code,
        missing: u16::from(bytes[2]) + 256 * u16::from(bytes[3]),
        chosen: chosen_of(&[bytes[4], bytes[5], bytes[6], bytes[7]]),
        shares: [
            [bytes[8], bytes[9], bytes[10], bytes[11]],
            [bytes[12], bytes[13], bytes[14], bytes[15]],
            [bytes[16], bytes[17], bytes[18], bytes[19]],
            [bytes[20], bytes[21], bytes[22], bytes[23]],
        ],
    })
}

/// `decode_by_plan` of the fragments that a plan reads.
#[inline(never)]
fn decode_from_slots(
    plan: &DecodePlan,
    fragments: &[&[u8]; 16],
    from: usize,
    to: usize,
    first: &mut [u8],
    second: &mut [u8],
    third: &mut [u8],
    fourth: &mut [u8],
)
    requires reach { LeftReach plan.now.code (map (λ f. f.now) fragments.now) plan.now.missing to }
    requires range { from ≤ to }
    requires lost { AreLostIn plan.now.code plan.now.missing plan.now.chosen }
    requires room { HaveRoomFor plan.now.chosen (to - from) first.old second.old third.old
        fourth.old }
    ensures first { IsDecodePlan plan.now → DecodesLost plan.now.code
        (map (λ f. f.now) fragments.now) plan.now.missing (slice_index_or plan.now.chosen 0 None)
        from to first.old first.new }
    ensures second { IsDecodePlan plan.now → DecodesLost plan.now.code
        (map (λ f. f.now) fragments.now) plan.now.missing (slice_index_or plan.now.chosen 1 None)
        from to second.old second.new }
    ensures third { IsDecodePlan plan.now → DecodesLost plan.now.code
        (map (λ f. f.now) fragments.now) plan.now.missing (slice_index_or plan.now.chosen 2 None)
        from to third.old third.new }
    ensures fourth { IsDecodePlan plan.now → DecodesLost plan.now.code
        (map (λ f. f.now) fragments.now) plan.now.missing (slice_index_or plan.now.chosen 3 None)
        from to fourth.old fourth.new }
{
    let left = left_of(plan.code, fragments, LostSet::of_bits(plan.missing));
    decode_by_plan(plan, &left, from, to, first, second, third, fourth);
}

/// `decode_by_plan` of the fragments that a plan reads, if they are long enough. Returns whether
/// they are; if not, the targets are unchanged.
pub(crate) fn decode_planned(
    plan: &DecodePlan,
    fragments: &[&[u8]; 16],
    from: usize,
    to: usize,
    first: &mut [u8],
    second: &mut [u8],
    third: &mut [u8],
    fourth: &mut [u8],
) -> bool
    requires range { from ≤ to }
    requires lost { AreLostIn plan.now.code plan.now.missing plan.now.chosen }
    requires room { HaveRoomFor plan.now.chosen (to - from) first.old second.old third.old
        fourth.old }
    ensures first { result ≡ true → IsDecodePlan plan.now → DecodesLost plan.now.code
        (map (λ f. f.now) fragments.now) plan.now.missing (slice_index_or plan.now.chosen 0 None)
        from to first.old first.new }
    ensures second { result ≡ true → IsDecodePlan plan.now → DecodesLost plan.now.code
        (map (λ f. f.now) fragments.now) plan.now.missing (slice_index_or plan.now.chosen 1 None)
        from to second.old second.new }
    ensures third { result ≡ true → IsDecodePlan plan.now → DecodesLost plan.now.code
        (map (λ f. f.now) fragments.now) plan.now.missing (slice_index_or plan.now.chosen 2 None)
        from to third.old third.new }
    ensures fourth { result ≡ true → IsDecodePlan plan.now → DecodesLost plan.now.code
        (map (λ f. f.now) fragments.now) plan.now.missing (slice_index_or plan.now.chosen 3 None)
        from to fourth.old fourth.new }
    ensures taken { (result ≡ true) ↔ LeftReach plan.now.code (map (λ f. f.now) fragments.now)
        plan.now.missing to }
    ensures unchanged { result ≡ false → (first.new ≡ first.old) × (second.new ≡ second.old)
        × (third.new ≡ third.old) × (fourth.new ≡ fourth.old) }
{
    let missing = LostSet::of_bits(plan.missing);
    if !left_reach(plan.code, fragments, missing, to) {
        return false;
    }
    if are_alone(plan.code, missing, &plan.chosen) {
        rebuild_alone(
            plan.code,
            fragments,
            missing,
            plan.chosen[0],
            from,
            to,
            first,
        );
        rebuild_alone(
            plan.code,
            fragments,
            missing,
            plan.chosen[1],
            from,
            to,
            second,
        );
        rebuild_alone(
            plan.code,
            fragments,
            missing,
            plan.chosen[2],
            from,
            to,
            third,
        );
        rebuild_alone(
            plan.code,
            fragments,
            missing,
            plan.chosen[3],
            from,
            to,
            fourth,
        );
    } else {
        match plan.code {
            Code::Wide => decode_wide(plan, fragments, from, to, first, second, third, fourth),
            Code::Small => {
                decode_from_slots(plan, fragments, from, to, first, second, third, fourth);
            }
        }
    }
    true
}
