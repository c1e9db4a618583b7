//! The bytes of lost fragments, decoded several at once.
ghost use Rattle.std.specs.Prelude.{◌≡◌, ◌/◌, ◌<◌, ◌≤◌, ◌↔◌, ℕ, true, IfOk, IfSome, IsTrue};
ghost use Rattle.lrc_code.specs.Code.{data_count};
ghost use Rattle.sealed.specs.Layout.{stripe_count};
ghost use Rattle.sealed.specs.Sealed.{absent_in};
ghost use Rattle.sealed.specs.Rebuilding.{IsPartOf, IsRebuildable};
ghost use Rattle.sealed.specs.Range.{cut_end};
ghost use Rattle.lent.specs.Stash.{IsStashOf, IsWholeFragment};

use crate::cut::part_at;
use crate::stash::Stash;
use crate::{Grant, Part};
use lrc_code::{LostSet, NoMemory};
use sealed::Sealed;
use std::alloc::Global;

/// Whether a part is a whole fragment of a sealed value.
fn is_whole(sealed: &Sealed, part: Part) -> bool
    ensures { IsTrue result ↔ ((part.from ≡ 0) × (part.to ≡ sealed.now.width)) }
{
    part.from == 0 && part.to == sealed.width.get() as usize
}

/// The width from which several fragments are decoded faster together than one by one.
const TOGETHER_WIDTH: usize = 64;

/// Whether the lost fragment of a part is decoded together with others: it is whole, wide enough,
/// and not alone lost in its stripe.
fn is_decoded_together(sealed: &Sealed, part: Part) -> bool
    requires stripe { part.stripe < stripe_count sealed.now.code sealed.now.width sealed.now.len }
    requires fragment { part.fragment < 16 }
    ensures { result ≡ true → (part.from ≡ 0) × (part.to ≡ sealed.now.width) }
{
    is_whole(sealed, part)
        && part.to >= TOGETHER_WIDTH
        && sealed.lost(part.stripe) != LostSet::empty().with(part.fragment)
}

/// Whether the fragment of a part is lost.
fn is_lost(sealed: &Sealed, part: Part) -> bool
    requires stripe { part.stripe < stripe_count sealed.now.code sealed.now.width sealed.now.len }
    requires fragment { part.fragment < data_count sealed.now.code }
    ensures { IsTrue result ↔ (absent_in sealed.now part.stripe part.fragment ≡ true) }
{
    sealed.fragment(part.stripe, part.fragment).is_none()
}

/// The first data fragment of a stripe that is lost and lies whole in the range, from the one with
/// the number `from` in the blob on. The second result is the number from which the next one is
/// sought.
fn next_lost(grant: &Grant, stripe: u64, from: u64) -> (Option<u8>, u64)
    requires { grant.now.start / grant.now.sealed.value.width ≤ from }
    ensures lost { IfSome result.0 (IsRebuildable grant.now.sealed.value stripe) }
    ensures next { from ≤ result.1 }
{
    let sealed: &Sealed = &grant.sealed;
    let mut k = from;
    while k < grant.met.end {
        let part = part_at(grant, k);
        if part.stripe != stripe {
            break;
        }
        k += 1;
        if is_whole(sealed, part) && is_lost(sealed, part) {
            return (Some(part.fragment), k);
        }
    }
    (None, k)
}

/// Decodes a lost fragment together with the next lost ones of its stripe that lie whole in the
/// range. `next` is the number in the blob from which those are sought. The stash then has them.
/// `NoMemory` if memory runs out; the stash is then unchanged.
fn decode_from(
    alloc: Global,
    grant: &Grant,
    part: Part,
    next: u64,
    stash: &mut Stash,
) -> Result<Vec<u8>, NoMemory>
    requires lost { IsRebuildable grant.now.sealed.value part.stripe part.fragment }
    requires next { grant.now.start / grant.now.sealed.value.width ≤ next }
    requires stash { IsStashOf grant.now.sealed.value stash.old }
    ensures ok { IfOk result (λ bytes. IsWholeFragment grant.now.sealed.value part.stripe
        part.fragment bytes.items) }
    ensures stash { IsStashOf grant.now.sealed.value stash.new }
{
    let sealed: &Sealed = &grant.sealed;
    let (second, next) = next_lost(grant, part.stripe, next);
    let (third, next) = next_lost(grant, part.stripe, next);
    let (fourth, _) = next_lost(grant, part.stripe, next);
    let chosen = [Some(part.fragment), second, third, fourth];
    let width = sealed.width.get() as usize;
    match sealed.rebuild_together(alloc, part.stripe, chosen, 0, width) {
        Ok(parts) => {
            *stash = Stash {
                stripe: part.stripe,
                chosen,
                parts,
            };
        }
        Err(error) => return Err(error),
    }
    match stash.parts[0].take() {
        Some(bytes) => Ok(bytes),
        None => unreachable!(),
    }
}

/// The bytes of the part of a lost fragment: from the stash if it has them. A whole fragment that
/// is not alone lost is decoded together with the next lost ones of its stripe, which the stash
/// then has. `next` is the number in the blob of the data fragment behind it. `NoMemory` if memory
/// runs out.
pub(crate) fn built(
    alloc: Global,
    grant: &Grant,
    part: Part,
    next: u64,
    stash: &mut Stash,
) -> Result<Vec<u8>, NoMemory>
    requires lost { IsRebuildable grant.now.sealed.value part.stripe part.fragment }
    requires range { (part.from ≤ part.to) × (part.to ≤ grant.now.sealed.value.width) }
    requires next { grant.now.start / grant.now.sealed.value.width ≤ next }
    requires stash { IsStashOf grant.now.sealed.value stash.old }
    ensures ok { IfOk result (λ bytes. IsPartOf grant.now.sealed.value part.stripe part.fragment
        part.from part.to bytes.items) }
    ensures stash { IsStashOf grant.now.sealed.value stash.new }
{
    let sealed: &Sealed = &grant.sealed;
    if !is_decoded_together(sealed, part) {
        return sealed.rebuild(alloc, part.stripe, part.fragment, part.from, part.to);
    }
    if let Some(bytes) = stash.take(part.stripe, part.fragment) {
        return Ok(bytes);
    }
    decode_from(alloc, grant, part, next, stash)
}
