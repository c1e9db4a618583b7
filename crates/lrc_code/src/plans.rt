//! Recipes that are kept from their first use.

ghost use Rattle.std.specs.Prelude.{◌≡◌, ℕ, ◌+◌, ◌-◌, ◌^◌, ◌<◌, ◌≤◌, ◌↔◌, true, false, min, IsTrue};
ghost use Rattle.std.specs.Prelude.{IfOk, IfSome, MatchResult, length};
ghost use Rattle.lrc_code.specs.Code.{fragment_count, is_lost, Open};
ghost use Rattle.lrc_code.specs.Recipe.{IsRecipe};
ghost use Rattle.lrc_code.specs.Stripe.{is_absent, HasRange, Rebuilds};

use crate::left::{Left, Rebuild};
use crate::rebuilding::rebuild_by;
use crate::recipes::{Recipe, recipe_in};
use crate::{Code, LostSet};
use std::alloc::Global;
use std::marker::Model;

/// A recipe, and what it is for: a fragment of a code, where a set of fragments is lost.
#[derive(Drop)]
struct Plan {
    code: Code,
    lost: LostSet,
    fragment: u8,
    recipe: Recipe,
    ghost right: { IsRecipe code (is_lost lost) fragment recipe.items },
}

impl Plan {
    /// What the recipe is for.
    fn key(&self) -> (Code, LostSet, u8)
        ensures { result ≡ (self.now.code, self.now.lost, self.now.fragment) }
    {
        (self.code, self.lost, self.fragment)
    }

    /// Whether the recipe is for this fragment.
    fn is_for(&self, code: Code, lost: LostSet, f: u8) -> bool
        ensures exact { IsTrue result ↔ (self.now.code ≡ code) × (self.now.lost ≡ lost)
            × (self.now.fragment ≡ f) }
        ensures right { result ≡ true → IsRecipe code (is_lost lost) f self.now.recipe.items }
    {
        self.code == code && self.lost == lost && self.fragment == f
    }
}

/// Recipes by what they are for: the code, the set of lost fragments, and the fragment. Each is
/// made at its first use, and kept. A contract sees the number of those that are kept.
#[derive(Drop)]
pub struct Plans {
    // in the order of what they are for
    plans: Vec<Plan>,
}

impl Model for Plans {
    ghost Value = { ℕ };

    ghost view = { λ p. length p.plans.items };
}

impl Plans {
    /// No recipe is kept yet. Does not allocate.
    pub fn new(alloc: Global) -> Plans
        ensures { result ≡ 0 }
    {
        Plans {
            plans: Vec::new(alloc),
        }
    }

    /// How many recipes are kept, or 4,294,967,295 if there are more.
    pub fn known(&self) -> u32
        ensures { result ≡ min self.now (2 ^ 32 - 1) }
    {
        u32::try_from(self.plans.len()).unwrap_or(u32::MAX)
    }

    /// Where the recipe for this fragment stands, or should stand.
    fn search(&self, code: Code, lost: LostSet, f: u8) -> Result<usize, usize>
        ensures { MatchResult result (λ i. i < self.now) (λ i. i ≤ self.now) }
    {
        self.plans
            .as_slice()
            .binary_search_by_key(&(code, lost, f), |plan| plan.key())
    }

    /// The recipe that is kept for this fragment where these are lost, if there is one.
    pub fn find(&self, code: Code, lost: LostSet, f: u8) -> Option<&Recipe>
        ensures { IfSome result (λ r. IsRecipe code (is_lost lost) f r.now.items) }
    {
        let i = self.search(code, lost, f).ok()?;
        let plan = self.plans.get(i)?;
        if plan.is_for(code, lost, f) {
            Some(&plan.recipe)
        } else {
            None
        }
    }

    /// Keeps a recipe if none is kept for this fragment and there is memory for it.
    pub fn keep(&mut self, code: Code, lost: LostSet, f: u8, recipe: Recipe)
        requires { IsRecipe code (is_lost lost) f recipe.items }
        ensures more { self.old ≤ self.new }
        ensures one { self.new ≤ self.old + 1 }
    {
        if let Err(i) = self.search(code, lost, f) {
            let plan = Plan {
                code,
                lost,
                fragment: f,
                recipe,
            };
            let _ = self.plans.insert(i, plan);
        }
    }

    /// The bytes `from..to` of an absent fragment, as `rebuild` gives them: with its conditions,
    /// its answers and its refusals. The recipe is kept if there is memory for it, and used in any
    /// case.
    pub fn rebuild(
        &mut self,
        alloc: Global,
        left: &Left,
        f: usize,
        from: usize,
        to: usize,
    ) -> Result<Vec<u8>, Rebuild>
        requires absent { is_absent left.now.fragments f ≡ true }
        requires inside { HasRange left.now.code left.now.fragments f from to }
        ensures open { (result ≡ Err Rebuild.Open)
            ↔ Open left.now.code (is_absent left.now.fragments) f }
        ensures length_of { IfOk result (λ v. length v.items ≡ to - from) }
        ensures ok { IfOk result
            (λ v. Rebuilds left.now.code left.now.fragments f from to v.items) }
        ensures more { self.old ≤ self.new }
        ensures one { self.new ≤ self.old + 1 }
    {
        let lost = left.lost();
        if let Some(recipe) = self.find(left.code, lost, f as u8) {
            return rebuild_by(alloc, left, recipe, f, from, to);
        }
        match recipe_in(left.code, lost, f as u8) {
            None => Err(Rebuild::Open),
            Some(recipe) => {
                let rebuilt = rebuild_by(alloc, left, &recipe, f, from, to);
                self.keep(left.code, lost, f as u8, recipe);
                rebuilt
            }
        }
    }
}
