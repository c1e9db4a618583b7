//! Sets of lost fragments.
ghost use Rattle.std.specs.Prelude.{◌≡◌, ℕ, ◌<◌, ◌≤◌, ◌↔◌, IsTrue, All, MatchOption, count_by};
ghost use Rattle.std.specs.Prelude.{length, false, not, ◌&&◌, ◌||◌, ◌==◌};
ghost use Rattle.std.specs.List.{filter};
ghost use Rattle.lrc_code.specs.Code.{fragment_count, all_fragments, is_lost, excess_of, Open};
ghost use Rattle.lrc_code.specs.Form.{IsOfForm, LeavesTwo};
ghost use Rattle.lrc_code.specs.ParityCheck.{FirstOf, found_place};

use crate::Code;
use arrayvec::ArrayVec;
use std::marker::Model;

/// A set of lost fragments: numbers below 16. A fragment that is not lost remains. The calls for
/// LRC(6,2,2) never read the numbers above 9.
#[derive(Clone, Copy, Debug, PartialEq, Eq, PartialOrd, Ord, Hash, Drop)]
pub struct LostSet {
    bits: u16,
}

impl Model for LostSet {
    ghost Value = { ℕ };

    ghost view = { λ set. set.bits };

    ghost inverse = { λ bits. record { bits = bits } };
}

impl LostSet {
    /// The empty set: nothing is lost.
    pub fn empty() -> LostSet
        ensures { (i : ℕ) → is_lost result i ≡ false }
    {
        LostSet { bits: 0 }
    }

    /// The set of the numbers whose bits are set.
    pub fn of_bits(bits: u16) -> LostSet
        ensures { (i : ℕ) → is_lost result i ≡ is_lost bits i }
    {
        LostSet { bits }
    }

    /// The set with `f` added, where it may be already.
    pub fn with(self, f: u8) -> LostSet
        requires { f < 16 }
        ensures { (i : ℕ) → is_lost result i ≡ (i == f || is_lost self i) }
    {
        LostSet {
            bits: self.bits | 1 << f,
        }
    }

    /// The set with `f` taken out, where it may be missing already.
    pub fn without(self, f: u8) -> LostSet
        requires { f < 16 }
        ensures { (i : ℕ) → is_lost result i ≡ (not (i == f) && is_lost self i) }
    {
        LostSet {
            bits: self.bits & !(1 << f),
        }
    }

    /// Whether `f` remains: it is not in the set.
    pub fn left(&self, f: u8) -> bool
        requires { f < 16 }
        ensures { IsTrue result ↔ (is_lost self.now f ≡ false) }
    {
        self.bits >> f & 1 == 0
    }

    /// Whether `f` is lost, and the only lost one of the fragments whose bits are set in `group`.
    pub(crate) fn has_only(self, group: u16, f: u8) -> bool
        requires { f < 16 }
        ensures { IsTrue result ↔ ((i : ℕ) → i < 16 → (is_lost self i && is_lost group i)
            ≡ (i == f)) }
    {
        self.bits & group == 1 << f
    }

    /// The first of `fragments` that is lost.
    pub(crate) fn first_of(self, fragments: &[u8]) -> Option<u8>
        requires { All (λ f. f < 16) fragments.now }
        ensures found { FirstOf (is_lost self) fragments.now result }
        ensures inside { MatchOption result (Unit {0}) (λ i. i < 16) }
    {
        fragments.iter().copied().find(|f| !self.left(*f))
    }

    /// The set with `found` taken out, where something was found.
    pub(crate) fn without_found(self, found: Option<u8>) -> LostSet
        requires { MatchOption found (Unit {0}) (λ i. i < 16) }
        ensures { (code : Code) (i : ℕ) → i < fragment_count code → is_lost result i
            ≡ (not (i == found_place code found) && is_lost self i) }
    {
        match found {
            None => self,
            Some(f) => self.without(f),
        }
    }

    /// How many of `fragments` are lost.
    pub(crate) fn count(self, fragments: &[u8]) -> usize
        requires { All (λ f. f < 16) fragments.now }
        ensures value { result ≡ count_by (is_lost self) fragments.now }
        ensures bound { result ≤ length fragments.now }
    {
        fragments.iter().filter(|f| !self.left(**f)).count()
    }

    /// How many fragments of a code are lost.
    pub fn count_in(&self, code: Code) -> u8
        ensures { result ≡ count_by (is_lost self.now) (all_fragments code) }
    {
        self.count(code.all()) as u8
    }

    /// The fragments of a code that are lost, in rising order.
    pub fn list_in(&self, code: Code) -> ArrayVec<u8, 16>
        ensures { result.items ≡ filter (is_lost self.now) (all_fragments code) }
    {
        let mut lost = ArrayVec::new();
        for f in code.all() {
            if !self.left(*f) {
                lost.push(*f);
            }
        }
        lost
    }

    /// How many lost fragments of a code the two global parities have to make up for: each group
    /// makes up for one of its own by its local parity. Up to 2 every lost fragment can be rebuilt.
    /// Above 2 some fragment can't, whatever the coefficients of a code of this form are.
    pub fn excess_in(&self, code: Code) -> u8
        ensures value { result ≡ excess_of code (is_lost self.now) }
        ensures unique { (result ≤ 2) ↔ ((f : ℕ) → f < fragment_count code
            → Open code (is_lost self.now) f → ⊥) }
        ensures maximal { 2 < result → (w : ℕ → ℕ → ℕ) → IsOfForm code w
            → LeavesTwo code w (is_lost self.now) }
    {
        let first = self.count(code.first_group()).saturating_sub(1);
        let second = self.count(code.second_group()).saturating_sub(1);
        (first + second + self.count(code.globals())) as u8
    }

    /// The excess in LRC(12,2,2), as `excess_in` says it.
    pub fn excess(&self) -> u8
        ensures value { result ≡ excess_of Code.Wide (is_lost self.now) }
        ensures unique { (result ≤ 2) ↔ ((f : ℕ) → f < 16 → Open Code.Wide (is_lost self.now) f
            → ⊥) }
        ensures maximal { 2 < result → (w : ℕ → ℕ → ℕ) → IsOfForm Code.Wide w
            → LeavesTwo Code.Wide w (is_lost self.now) }
    {
        self.excess_in(Code::Wide)
    }
}
