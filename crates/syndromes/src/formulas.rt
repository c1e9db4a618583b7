//! How each target is made with few products: from the syndromes, and from the targets before it.
ghost use Rattle.std.specs.Prelude.{◌≡◌, ℕ, ◌<◌, None, length, slice_index, bit_xor};
ghost use Rattle.syndromes.specs.Formulas.{IsFormula, IsNoneOr, AddsOnly, AreFormulas, share_of};
ghost use Rattle.syndromes.specs.Formulas.{shares_for};

/// A target is the sum of the syndromes, each times its factor, and of those targets before it
/// whose shares are given.
#[derive(Clone, Copy, Drop)]
pub(crate) struct Formula {
    /// What the syndromes are multiplied by where no other target is added.
    pub(crate) shares: [u8; 4],
    pub(crate) factors: [u8; 4],
    pub(crate) first: Option<[u8; 4]>,
    pub(crate) second: Option<[u8; 4]>,
    pub(crate) third: Option<[u8; 4]>,
}

/// The shares less those of a target that is added.
pub(crate) fn less(shares: [u8; 4], added: Option<[u8; 4]>) -> [u8; 4]
    ensures four { length result ≡ 4 }
    ensures each { (e : ℕ) → e < 4 → slice_index result e
        ≡ bit_xor (slice_index shares e) (share_of added e) }
{
    match added {
        None => shares,
        Some(added) => [
            shares[0] ^ added[0],
            shares[1] ^ added[1],
            shares[2] ^ added[2],
            shares[3] ^ added[3],
        ],
    }
}

/// The formula that adds these targets.
fn formula_with(
    shares: [u8; 4],
    first: Option<[u8; 4]>,
    second: Option<[u8; 4]>,
    third: Option<[u8; 4]>,
) -> Formula
    ensures formula { IsFormula result }
    ensures shares { result.shares ≡ shares }
    ensures first { result.first ≡ first }
    ensures second { result.second ≡ second }
    ensures third { result.third ≡ third }
{
    let factors = less(less(less(shares, first), second), third);
    Formula {
        shares,
        factors,
        first,
        second,
        third,
    }
}

/// The shares of a target where it is chosen.
fn chosen(is_chosen: bool, made: Option<[u8; 4]>) -> Option<[u8; 4]>
    ensures { IsNoneOr result made }
{
    if is_chosen { made } else { None }
}

/// How many sums take about as long as a product: more than the factors of a formula without
/// products.
const PRODUCT: u32 = 8;

/// About how long a factor takes, in sums.
fn cost_of(factor: u8) -> u32 {
    match factor {
        0 => 0,
        1 => 1,
        _ => PRODUCT,
    }
}

/// About how long a formula with these factors takes, in sums, without the targets that it adds.
fn cost(factors: [u8; 4]) -> u32 {
    cost_of(factors[0])
        .wrapping_add(cost_of(factors[1]))
        .wrapping_add(cost_of(factors[2]))
        .wrapping_add(cost_of(factors[3]))
}

/// The cheapest formula, where targets with these shares are made before.
fn cheapest(
    shares: [u8; 4],
    first: Option<[u8; 4]>,
    second: Option<[u8; 4]>,
    third: Option<[u8; 4]>,
) -> Formula
    ensures formula { IsFormula result }
    ensures shares { result.shares ≡ shares }
    ensures first { IsNoneOr result.first first }
    ensures second { IsNoneOr result.second second }
    ensures third { IsNoneOr result.third third }
{
    let count: u8 = match (first, second, third) {
        (_, _, Some(_)) => 8,
        (_, Some(_), _) => 4,
        (Some(_), _, _) => 2,
        _ => 1,
    };
    let mut best = 0;
    let mut least = cost(shares);
    for targets in 1..count {
        if least >= PRODUCT {
            let with_first = less(shares, chosen(targets & 1 != 0, first));
            let with_second = less(with_first, chosen(targets & 2 != 0, second));
            let tried = cost(less(with_second, chosen(targets & 4 != 0, third)));
            if tried < least {
                best = targets;
                least = tried;
            }
        }
    }
    formula_with(
        shares,
        chosen(best & 1 != 0, first),
        chosen(best & 2 != 0, second),
        chosen(best & 4 != 0, third),
    )
}

/// The cheapest formula for shares that are given.
fn formula_for(
    shares: Option<[u8; 4]>,
    first: Option<[u8; 4]>,
    second: Option<[u8; 4]>,
    third: Option<[u8; 4]>,
) -> Option<Formula>
    ensures shares { shares_for result ≡ shares }
    ensures adds { AddsOnly result first second third }
{
    match shares {
        None => None,
        Some(shares) => Some(cheapest(shares, first, second, third)),
    }
}

/// The formulas of four targets; None for one that is not wanted.
#[derive(Clone, Copy, Drop)]
pub(crate) struct Formulas {
    pub(crate) first: Option<Formula>,
    pub(crate) second: Option<Formula>,
    pub(crate) third: Option<Formula>,
    pub(crate) fourth: Option<Formula>,
}

/// The formulas of targets with these shares, which are made one after the other.
pub(crate) fn formulas_for(
    first: Option<[u8; 4]>,
    second: Option<[u8; 4]>,
    third: Option<[u8; 4]>,
    fourth: Option<[u8; 4]>,
) -> Formulas
    ensures are { AreFormulas result }
    ensures first { shares_for result.first ≡ first }
    ensures second { shares_for result.second ≡ second }
    ensures third { shares_for result.third ≡ third }
    ensures fourth { shares_for result.fourth ≡ fourth }
{
    Formulas {
        first: formula_for(first, None, None, None),
        second: formula_for(second, first, None, None),
        third: formula_for(third, first, second, None),
        fourth: formula_for(fourth, first, second, third),
    }
}
