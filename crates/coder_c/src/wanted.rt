//! What a target gets: a fragment of LRC(12,2,2), and its shares of the syndromes. The shapes of
//! `one_pass` take fragments in the order of their places.
ghost use Rattle.std.specs.Prelude.{◌≡◌, ℕ, ◌<◌, IfSome, MatchOption, true, false, Some, None};
ghost use Rattle.std.specs.Prelude.{slice_index};
ghost use Rattle.std.proofs.Props.{props};
ghost use Rattle.lrc_code.specs.declared.Code.TheVariants.{Wide};
ghost use Rattle.lrc_code.specs.Code.{is_lost, is_alone};
ghost use Rattle.coder_c.specs.Groups.{less_group};

use lrc_code::{Code, LostSet, is_alone_in, weight_of};

/// What a target gets.
#[derive(Clone, Copy, Drop)]
pub(crate) struct Wanted {
    pub(crate) chosen: Option<u8>,
    pub(crate) shares: [u8; 4],
    ghost inside: { IfSome chosen (λ f. f < 16) } by { Prim.hlevel props },
    ghost bytes: { (e : ℕ) → e < 4 → slice_index shares e < 256 },
}

/// The places of the fragments: each local parity stands behind the data of its group.
const PLACES: [u8; 16] = [0, 1, 2, 3, 4, 5, 7, 8, 9, 10, 11, 12, 6, 13, 14, 15];

/// The least place of a fragment that is not alone lost in its group.
pub(crate) const NOT_ALONE: u8 = 16;

/// The place of a target. Before all others are the fragments that are alone lost in their groups,
/// and behind all others are targets for none.
#[inline(always)]
pub(crate) fn place_of(missing: LostSet, wanted: Wanted) -> u8 {
    match wanted.chosen {
        None => 2 * NOT_ALONE,
        Some(f) if is_alone_in(Code::Wide, missing, f) => PLACES[usize::from(f)],
        Some(f) => PLACES[usize::from(f)] | NOT_ALONE,
    }
}

/// What a target gets that is for this fragment, with these shares.
#[inline(always)]
pub(crate) fn wanted_for(chosen: Option<u8>, shares: [u8; 4]) -> Wanted
    requires { IfSome chosen (λ f. f < 16) }
    ensures chosen { result.chosen ≡ chosen }
    ensures shares { result.shares ≡ shares }
{
    let [_first, _second, _third, _fourth] = shares;
    Wanted { chosen, shares }
}

/// The fragment that a target is for, if it is alone lost in its group.
#[inline(always)]
pub(crate) fn alone_of(missing: LostSet, wanted: Wanted) -> Option<u8>
    ensures alone { IfSome result (λ f. (wanted.chosen ≡ Some f) × (f < 16)
        × (is_alone Wide (is_lost missing) f ≡ true)) }
    ensures none { result ≡ None → IfSome wanted.chosen
        (λ f. is_alone Wide (is_lost missing) f ≡ false) }
{
    match wanted.chosen {
        Some(f) if is_alone_in(Code::Wide, missing, f) => Some(f),
        _ => None,
    }
}

/// The shares once the group of `f` is complete: its syndrome is then 0, and is not taken.
pub(crate) fn without_group(shares: [u8; 4], f: u8) -> [u8; 4]
    requires { f < 16 }
    ensures { result ≡ less_group shares f }
{
    let i = usize::from(f);
    if weight_of(Code::Wide, 0, i) == 1 {
        [0, shares[1], shares[2], shares[3]]
    } else if weight_of(Code::Wide, 1, i) == 1 {
        [shares[0], 0, shares[2], shares[3]]
    } else {
        shares
    }
}

/// The shares where a fragment is chosen.
#[inline(always)]
pub(crate) fn given(chosen: Option<u8>, shares: [u8; 4]) -> Option<[u8; 4]>
    ensures { MatchOption chosen (result ≡ None) (λ f. result ≡ Some shares) }
{
    match chosen {
        None => None,
        Some(_) => Some(shares),
    }
}
