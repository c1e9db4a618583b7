//! Sums of the syndromes at the places of a block, each times its weight.
ghost use Rattle.std.specs.Prelude.{◌≡◌, ◌<◌, ℕ, false, IfSome, slice_index};
ghost use Rattle.one_pass.specs.Weights.{AreWeights, lane, weighed, unit};

use crate::columns::Columns;
use kernels::{Block, Factor, LANES};

/// What the syndromes are multiplied by for a target, with the tables of the products.
#[derive(Clone, Copy, Drop)]
pub struct Weights {
    /// The factor of the first syndrome.
    pub first: Factor,
    /// The factor of the second syndrome.
    pub second: Factor,
    /// The factor of the third syndrome.
    pub third: Factor,
    /// The factor of the fourth syndrome.
    pub fourth: Factor,
}

impl Weights {
    /// The weights of four factors.
    #[inline(always)]
    pub fn new(factors: &[u8; 4]) -> Weights
        ensures { AreWeights result factors.now }
    {
        Weights {
            first: Factor::new(factors[0]),
            second: Factor::new(factors[1]),
            third: Factor::new(factors[2]),
            fourth: Factor::new(factors[3]),
        }
    }

    /// The sums. The second and the fourth factor are left out if they are not taken.
    #[inline(always)]
    pub fn sums_at(&self, s: Columns, takes_second: bool, takes_fourth: bool) -> Block
        requires second { takes_second ≡ false → self.now.second.scale ≡ 0 }
        requires fourth { takes_fourth ≡ false → self.now.fourth.scale ≡ 0 }
        ensures { (k : ℕ) → k < LANES → slice_index result k ≡ weighed self.now (lane s k) }
    {
        let one = self.first.plus_times(Block::splat(0), s.first);
        let two = self.second.plus_times_if(takes_second, one, s.second);
        let three = self.third.plus_times(two, s.third);
        self.fourth.plus_times_if(takes_fourth, three, s.fourth)
    }
}

/// The one syndrome that counts, if it counts once.
pub fn plain_of(factors: &[u8; 4]) -> Option<usize>
    ensures { IfSome result (λ e. (e < 4) × (factors.now ≡ unit e)) }
{
    if *factors == [1, 0, 0, 0] {
        return Some(0);
    }
    if *factors == [0, 1, 0, 0] {
        return Some(1);
    }
    if *factors == [0, 0, 1, 0] {
        return Some(2);
    }
    if *factors == [0, 0, 0, 1] {
        return Some(3);
    }
    None
}
