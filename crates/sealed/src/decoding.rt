//! The bytes of lost fragments of a stripe, decoded from the remaining ones.
ghost use Rattle.std.specs.Prelude.{◌≡◌, ◌-◌, ◌<◌, ◌≤◌, ℕ, None, Some, length, slice_index_or};
ghost use Rattle.std.specs.Prelude.{IfOk, IfSome, MatchOption};
ghost use Rattle.std.specs.Option.{option_map};
ghost use Rattle.lrc_code.specs.Stripe.{slot};
ghost use Rattle.sealed.specs.Layout.{stripe_count};
ghost use Rattle.sealed.specs.Stripes.{fragment_at};
ghost use Rattle.sealed.specs.Rebuilding.{IsChosenPart, IsPartOf, IsRebuildable};

use crate::Sealed;
use decode::{decode_to, is_recipe_faster, rebuild_to};
use lrc_code::{Left, NoMemory};
use std::alloc::Global;

impl Sealed {
    /// The remaining fragments of a stripe.
    fn left_of(&self, stripe: u64) -> Left<'_>
        requires { stripe < stripe_count self.now.code self.now.width self.now.len }
        ensures code { result.code ≡ self.now.code }
        ensures slots { (f : ℕ) → f < 16 → option_map (λ x. x.now) (slot result.fragments f)
            ≡ fragment_at self.now.stripes stripe f }
    {
        let mut fragments: [Option<&[u8]>; 16] = [None; 16];
        for f in 0..16u8 {
            fragments[usize::from(f)] = self.fragment(stripe, f);
        }
        Left {
            code: self.code,
            fragments,
        }
    }

    /// The bytes `from..to` of up to four lost fragments of a stripe. `chosen` has the number of
    /// the fragment for each of the four results. A result for `None` is `None`, and takes no
    /// memory. `from..to` lies inside the width. `NoMemory` if memory runs out.
    ///
    /// The remaining fragments are read once, however many are chosen.
    pub fn rebuild_together(
        &self,
        alloc: Global,
        stripe: u64,
        chosen: [Option<u8>; 4],
        from: usize,
        to: usize,
    ) -> Result<[Option<Vec<u8>>; 4], NoMemory>
        requires stripe { stripe < stripe_count self.now.code self.now.width self.now.len }
        requires lost { (i : ℕ) → i < 4 → IfSome (slice_index_or chosen i None)
            (IsRebuildable self.now stripe) }
        requires range { (from ≤ to) × (to ≤ self.now.width) }
        ensures { IfOk result (λ parts. (i : ℕ) → i < 4 → IsChosenPart self.now stripe from to
            (slice_index_or chosen i None)
            (option_map (λ v. v.items) (slice_index_or parts i None))) }
    {
        let left = self.left_of(stripe);
        let mut first = zeros_for(alloc, chosen[0], to - from)?;
        let mut second = zeros_for(alloc, chosen[1], to - from)?;
        let mut third = zeros_for(alloc, chosen[2], to - from)?;
        let mut fourth = zeros_for(alloc, chosen[3], to - from)?;
        decode_to(
            &left,
            chosen,
            from,
            to,
            &mut first,
            &mut second,
            &mut third,
            &mut fourth,
        );
        Ok([
            if_chosen(chosen[0], first),
            if_chosen(chosen[1], second),
            if_chosen(chosen[2], third),
            if_chosen(chosen[3], fourth),
        ])
    }

    /// The bytes `from..to` of a lost fragment, rebuilt from the remaining ones of its stripe.
    /// `from..to` lies inside the width. `NoMemory` if memory runs out.
    pub fn rebuild(
        &self,
        alloc: Global,
        stripe: u64,
        f: u8,
        from: usize,
        to: usize,
    ) -> Result<Vec<u8>, NoMemory>
        requires lost { IsRebuildable self.now stripe f }
        requires range { (from ≤ to) × (to ≤ self.now.width) }
        ensures long { IfOk result (λ bytes. length bytes.items ≡ to - from) }
        ensures ok { IfOk result (λ bytes. IsPartOf self.now stripe f from to bytes.items) }
    {
        // the recipe reads few fragments, or few bytes: the others are not collected
        if is_recipe_faster(self.code, self.lost(stripe), f, to - from) {
            return self.rebuild_by_recipe(alloc, stripe, f, from, to);
        }
        let left = self.left_of(stripe);
        let mut bytes = vec![in alloc; 0; to - from]?;
        rebuild_to(&left, f, from, to, &mut bytes);
        Ok(bytes)
    }
}

/// Zeros for the bytes of a fragment, if one is chosen. It allocates only then.
fn zeros_for(alloc: Global, chosen: Option<u8>, len: usize) -> Result<Vec<u8>, NoMemory>
    ensures { IfOk result (λ zeros. IfSome chosen (λ _. length zeros.items ≡ len)) }
{
    match chosen {
        Some(_) => vec![in alloc; 0; len],
        None => Ok(Vec::new(alloc)),
    }
}

/// The bytes, if a fragment is chosen.
fn if_chosen(chosen: Option<u8>, bytes: Vec<u8>) -> Option<Vec<u8>>
    ensures { MatchOption chosen (result ≡ None) (λ _. result ≡ Some bytes) }
{
    match chosen {
        Some(_) => Some(bytes),
        None => None,
    }
}
