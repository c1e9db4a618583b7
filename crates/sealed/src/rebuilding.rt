//! Whether a lost fragment can be rebuilt from the remaining ones, and its bytes.
ghost use Rattle.std.specs.Prelude.{◌≡◌, ◌↔◌, ◌+◌, ◌-◌, ◌<◌, ◌≤◌, false, length, slice_range};
ghost use Rattle.std.specs.Prelude.{IsTrue, IfSome, IfOk, IfErr};
ghost use Rattle.lrc_code.specs.Code.{fragment_count};
ghost use Rattle.lrc_code.specs.Recipe.{IsRecipe};
ghost use Rattle.sealed.specs.Layout.{HasFragment, stripe_count};
ghost use Rattle.sealed.specs.Stripes.{fragment_at};
ghost use Rattle.sealed.specs.Sealed.{absent_in};
ghost use Rattle.sealed.specs.Rebuilding.{IsFragmentOf, IsPartOf, IsRebuildable};

use crate::layout::has_fragment;
use crate::{Fault, Sealed};
use bytes::Bytes;
use lrc_code::{NoMemory, Plans, Recipe, combine, is_open_in, recipe_in};
use std::alloc::Global;

impl Sealed {
    /// Whether the blob has this fragment of this stripe, lost or not. Both are numbered from 0.
    pub fn has_fragment(&self, stripe: u64, fragment: u64) -> bool
        ensures { IsTrue result ↔ HasFragment self.now.code self.now.width self.now.len stripe
            fragment }
    {
        has_fragment(self.code, self.width, self.len, stripe, fragment)
    }

    /// Whether the blob has this fragment, the value lacks it, and the remaining fragments of its
    /// stripe determine it.
    pub fn is_rebuildable(&self, stripe: u64, fragment: u64) -> bool
        ensures { IsTrue result ↔ IsRebuildable self.now stripe fragment }
    {
        if !self.has_fragment(stripe, fragment) {
            return false;
        }
        let f = fragment as u8;
        if self.fragment(stripe, f).is_some() {
            return false;
        }
        !is_open_in(self.code, self.lost(stripe), f)
    }

    /// The bytes `from..to` of a fragment that is present.
    fn part(&self, stripe: u64, f: u8, from: usize, to: usize) -> &[u8]
        requires stripe_below { stripe < stripe_count self.now.code self.now.width self.now.len }
        requires f_below { f < fragment_count self.now.code }
        requires there { absent_in self.now stripe f ≡ false }
        requires range { (from ≤ to) × (to ≤ self.now.width) }
        ensures bytes { IfSome (fragment_at self.now.stripes stripe f)
            (λ x. result.now ≡ slice_range x from to) }
        ensures long { length result.now ≡ to - from }
    {
        match self.fragment(stripe, f) {
            Some(bytes) => &bytes[from..to],
            None => &[],
        }
    }

    /// The bytes `from..to` of a lost fragment, computed by a recipe for it.
    fn rebuild_by(
        &self,
        alloc: Global,
        stripe: u64,
        f: u8,
        recipe: &Recipe,
        from: usize,
        to: usize,
    ) -> Result<Vec<u8>, NoMemory>
        requires lost { IsRebuildable self.now stripe f }
        requires recipe { IsRecipe self.now.code (absent_in self.now stripe) f recipe.now.items }
        requires range { (from ≤ to) × (to ≤ self.now.width) }
        ensures long { IfOk result (λ bytes. length bytes.items ≡ to - from) }
        ensures ok { IfOk result (λ bytes. IsPartOf self.now stripe f from to bytes.items) }
    {
        let terms = recipe.as_slice();
        let mut sources: [&[u8]; 15] = [&[]; 15];
        for i in 0..terms.len() {
            sources[i] = self.part(stripe, terms[i].fragment, from, to);
        }
        combine(alloc, recipe, &sources[..terms.len()], to - from)
    }

    /// The bytes `from..to` of a lost fragment, computed by its recipe.
    pub(crate) fn rebuild_by_recipe(
        &self,
        alloc: Global,
        stripe: u64,
        f: u8,
        from: usize,
        to: usize,
    ) -> Result<Vec<u8>, NoMemory>
        requires lost { IsRebuildable self.now stripe f }
        requires range { (from ≤ to) × (to ≤ self.now.width) }
        ensures long { IfOk result (λ bytes. length bytes.items ≡ to - from) }
        ensures ok { IfOk result (λ bytes. IsPartOf self.now stripe f from to bytes.items) }
    {
        match recipe_in(self.code, self.lost(stripe), f) {
            Some(recipe) => self.rebuild_by(alloc, stripe, f, &recipe, from, to),
            None => unreachable!(),
        }
    }

    /// Does the same as `rebuild` by the recipe that `plans` has, or by a new one. It adds a new
    /// recipe to `plans` and removes none. If only the memory to add it runs out, the bytes are
    /// returned all the same.
    pub fn rebuild_with(
        &self,
        alloc: Global,
        plans: &mut Plans,
        stripe: u64,
        f: u8,
        from: usize,
        to: usize,
    ) -> Result<Vec<u8>, NoMemory>
        requires lost { IsRebuildable self.now stripe f }
        requires range { (from ≤ to) × (to ≤ self.now.width) }
        ensures long { IfOk result (λ bytes. length bytes.items ≡ to - from) }
        ensures ok { IfOk result (λ bytes. IsPartOf self.now stripe f from to bytes.items) }
        ensures more { plans.old ≤ plans.new }
        ensures one { plans.new ≤ plans.old + 1 }
    {
        let lost = self.lost(stripe);
        if let Some(recipe) = plans.find(self.code, lost, f) {
            return self.rebuild_by(alloc, stripe, f, recipe, from, to);
        }
        match recipe_in(self.code, lost, f) {
            Some(recipe) => {
                let rebuilt = self.rebuild_by(alloc, stripe, f, &recipe, from, to);
                plans.keep(self.code, lost, f, recipe);
                rebuilt
            }
            None => unreachable!(),
        }
    }

    /// All bytes of a lost fragment, as many as the width, rebuilt from the remaining ones of its
    /// stripe. The only error is `NoMemory`.
    pub fn rebuild_fragment(
        &self,
        alloc: Global,
        stripe: u64,
        fragment: u64,
    ) -> Result<Bytes, Fault>
        requires { IsRebuildable self.now stripe fragment }
        ensures ok { IfOk result (IsFragmentOf self.now stripe fragment) }
        ensures long { IfOk result (λ bytes. length bytes ≡ self.now.width) }
        ensures err { IfErr result (λ e. e ≡ Fault.NoMemory) }
    {
        let width = self.width.get() as usize;
        let bytes = self.rebuild(alloc, stripe, fragment as u8, 0, width)?;
        match Bytes::from_vec(bytes) {
            Ok(bytes) => Ok(bytes),
            Err(_) => Err(Fault::NoMemory),
        }
    }
}
