//! The sums of the syndromes, block by block, so that each list is read once.
ghost use Rattle.std.specs.Prelude.{◌≡◌, ℕ, ◌+◌, ◌-◌, ◌<◌, ◌≤◌, None, [], ◌∷◌, All, EachIndex};
ghost use Rattle.std.specs.Prelude.{IfSome, length, map, slice_index, bit_xor};
ghost use Rattle.kernels.specs.Lists.{combined, bytes_at, list_at};
ghost use Rattle.syndromes.specs.Syndromes.{column_at, HaveBytes, HasSums, HasRoom};
ghost use Rattle.syndromes.specs.Formulas.{IsFormula, AreFormulas, addend, shares_for};
ghost use Rattle.syndromes.specs.Plans.{IsPlan, TakesOnly, AreSyndromes};

use crate::blocks::{BLOCK, write_syndromes};
use crate::dispatch::combine_in_one_pass;
use crate::formulas::{Formula, formulas_for};
use crate::pass::{Plan, add_list, plan_for, weigh, write_sum, write_taken};
use kernels::LANES;
use one_pass::{plain_of, sources_of};

/// Adds the places `at..end` of a target that was made before, where it is to be added.
fn add_made(part: &mut [u8], shares: Option<[u8; 4]>, made: &[u8], at: usize, end: usize)
    requires order { at ≤ end }
    requires long { length part.old ≡ end - at }
    requires room { HasRoom shares end made.now }
    ensures { EachIndex part.new (λ k. slice_index part.new k
        ≡ bit_xor (slice_index part.old k) (addend shares made.now (at + k))) }
{
    if shares.is_some() {
        add_list(part, &made[at..end]);
    }
}

/// Writes the sum of a list and the places `at..end` of a target that was made before, where it is
/// to be added.
fn write_with(
    part: &mut [u8],
    list: &[u8],
    shares: Option<[u8; 4]>,
    made: &[u8],
    at: usize,
    end: usize,
)
    requires order { at ≤ end }
    requires long { length part.old ≡ end - at }
    requires same { length list.now ≡ end - at }
    requires room { HasRoom shares end made.now }
    ensures { EachIndex part.new (λ k. slice_index part.new k
        ≡ bit_xor (slice_index list.now k) (addend shares made.now (at + k))) }
{
    if shares.is_some() {
        write_sum(part, list, &made[at..end]);
    } else {
        part.copy_from_slice(list);
    }
}

/// Makes the places `at..end` of a target by a formula without products: a syndrome, and the
/// targets that are added.
fn make_plainly(
    part: &mut [u8],
    at: usize,
    end: usize,
    formula: &Formula,
    syndrome: &[u8],
    first: &[u8],
    second: &[u8],
    third: &[u8],
)
    requires order { at ≤ end }
    requires long { length part.old ≡ end - at }
    requires same { length syndrome.now ≡ end - at }
    requires first_room { HasRoom formula.now.first end first.now }
    requires second_room { HasRoom formula.now.second end second.now }
    requires third_room { HasRoom formula.now.third end third.now }
    ensures bytes { (k : ℕ) → slice_index syndrome.now k < 256 }
    ensures made { EachIndex part.new (λ k. slice_index part.new k
        ≡ bit_xor (bit_xor (bit_xor (slice_index syndrome.now k)
        (addend formula.now.third third.now (at + k)))
        (addend formula.now.second second.now (at + k)))
        (addend formula.now.first first.now (at + k))) }
{
    if formula.third.is_some() {
        write_with(part, syndrome, formula.third, third, at, end);
        add_made(part, formula.second, second, at, end);
        add_made(part, formula.first, first, at, end);
    } else if formula.second.is_some() {
        write_with(part, syndrome, formula.second, second, at, end);
        add_made(part, formula.first, first, at, end);
    } else {
        write_with(part, syndrome, formula.first, first, at, end);
    }
}

/// Makes the places `at..end` of a target by its formula.
fn make_part(
    part: &mut [u8],
    at: usize,
    end: usize,
    formula: &Formula,
    syndromes: &[&[u8]; 4],
    first: &[u8],
    second: &[u8],
    third: &[u8],
)
    requires order { at ≤ end }
    requires long { length part.old ≡ end - at }
    requires same { All (λ s. length s.now ≡ end - at) syndromes.now }
    requires first_room { HasRoom formula.now.first end first.now }
    requires second_room { HasRoom formula.now.second end second.now }
    requires third_room { HasRoom formula.now.third end third.now }
    ensures { EachIndex part.new (λ k. slice_index part.new k
        ≡ bit_xor (bit_xor (bit_xor (combined formula.now.factors
        (bytes_at (map (λ s. s.now) syndromes.now) k))
        (addend formula.now.third third.now (at + k)))
        (addend formula.now.second second.now (at + k)))
        (addend formula.now.first first.now (at + k))) }
{
    if let Some(e) = plain_of(&formula.factors) {
        make_plainly(part, at, end, formula, syndromes[e], first, second, third);
        return;
    }
    weigh(part, &formula.factors, syndromes);
    add_made(part, formula.third, third, at, end);
    add_made(part, formula.second, second, at, end);
    add_made(part, formula.first, first, at, end);
}

/// Some places of the lists with their syndromes.
#[derive(Clone, Copy, Drop)]
struct Block<'a, 'b, 'c> {
    lists: &'a [Option<&'b [u8]>; 16],
    at: usize,
    end: usize,
    syndromes: [&'c [u8]; 4],
    has_second: bool,
    has_third: bool,
    has_fourth: bool,
}

/// Where a formula is given, makes the places of a block of its target, which has those before
/// already.
fn make_target(
    block: &Block,
    target: &mut [u8],
    formula: &Option<Formula>,
    first: &[u8],
    second: &[u8],
    third: &[u8],
)
    requires formula { IfSome formula.now (λ f. IsFormula f
        × HasRoom f.first block.now.end first.now
        × HasRoom f.second block.now.end second.now × HasRoom f.third block.now.end third.now
        × HasSums block.now.lists.now f.first block.now.end first.now
        × HasSums block.now.lists.now f.second block.now.end second.now
        × HasSums block.now.lists.now f.third block.now.end third.now) }
    requires order { block.now.at ≤ block.now.end }
    requires room { HasRoom (shares_for formula.now) block.now.end target.old }
    requires before { HasSums block.now.lists.now (shares_for formula.now) block.now.at target.old }
    requires same { All (λ s. length s.now ≡ block.now.end - block.now.at) block.now.syndromes }
    requires takes { TakesOnly formula.now block.now.has_second block.now.has_third
        block.now.has_fourth }
    requires are { AreSyndromes block.now.lists.now block.now.at block.now.end block.now.has_second
        block.now.has_third block.now.has_fourth (map (λ s. s.now) block.now.syndromes) }
    ensures made { HasSums block.now.lists.now (shares_for formula.now) block.now.end target.new }
    ensures unchanged { formula.now ≡ None → target.new ≡ target.old }
{
    if let Some(formula) = formula {
        make_part(
            &mut target[block.at..block.end],
            block.at,
            block.end,
            formula,
            &block.syndromes,
            first,
            second,
            third,
        );
    }
}

/// As `write_syndromes`, with its conditions, but all syndromes except the first only if they are
/// taken.
fn write_block(
    lists: &[Option<&[u8]>; 16],
    at: usize,
    end: usize,
    has_second: bool,
    has_third: bool,
    has_fourth: bool,
    first: &mut [u8],
    second: &mut [u8],
    third: &mut [u8],
    fourth: &mut [u8],
)
    requires long { HaveBytes lists.now end }
    requires order { at ≤ end }
    requires few { end ≤ at + BLOCK }
    requires same { length first.old ≡ end - at }
    requires same_second { length second.old ≡ end - at }
    requires same_third { length third.old ≡ end - at }
    requires same_fourth { length fourth.old ≡ end - at }
    ensures { AreSyndromes lists.now at end has_second has_third has_fourth
        (first.new ∷ second.new ∷ third.new ∷ fourth.new ∷ []) }
{
    if end - at < LANES {
        write_syndromes(lists, at, end, first, second, third, fourth);
        return;
    }
    let sources = sources_of(lists, at, end);
    write_taken(
        &sources, has_second, has_third, has_fourth, first, second, third, fourth,
    );
}

/// Makes the places `at..end` of each target by its formula, where it has those before already. The
/// syndromes are written into four lists of their own.
fn make_block(
    lists: &[Option<&[u8]>; 16],
    at: usize,
    end: usize,
    plan: &Plan,
    one: &mut [u8],
    two: &mut [u8],
    three: &mut [u8],
    four: &mut [u8],
    first: &mut [u8],
    second: &mut [u8],
    third: &mut [u8],
    fourth: &mut [u8],
)
    requires long { HaveBytes lists.now end }
    requires order { at ≤ end }
    requires few { end ≤ at + BLOCK }
    requires formulas { AreFormulas plan.now.formulas }
    requires plan { IsPlan plan.now }
    requires one_long { length one.old ≡ end - at }
    requires two_long { length two.old ≡ end - at }
    requires three_long { length three.old ≡ end - at }
    requires four_long { length four.old ≡ end - at }
    requires first_room { HasRoom (shares_for plan.now.formulas.first) end first.old }
    requires second_room { HasRoom (shares_for plan.now.formulas.second) end second.old }
    requires third_room { HasRoom (shares_for plan.now.formulas.third) end third.old }
    requires fourth_room { HasRoom (shares_for plan.now.formulas.fourth) end fourth.old }
    requires first_made { HasSums lists.now (shares_for plan.now.formulas.first) at first.old }
    requires second_made { HasSums lists.now (shares_for plan.now.formulas.second) at second.old }
    requires third_made { HasSums lists.now (shares_for plan.now.formulas.third) at third.old }
    requires fourth_made { HasSums lists.now (shares_for plan.now.formulas.fourth) at fourth.old }
    ensures first { HasSums lists.now (shares_for plan.now.formulas.first) end first.new }
    ensures second { HasSums lists.now (shares_for plan.now.formulas.second) end second.new }
    ensures third { HasSums lists.now (shares_for plan.now.formulas.third) end third.new }
    ensures fourth { HasSums lists.now (shares_for plan.now.formulas.fourth) end fourth.new }
    ensures first_unchanged { plan.now.formulas.first ≡ None → first.new ≡ first.old }
    ensures second_unchanged { plan.now.formulas.second ≡ None → second.new ≡ second.old }
    ensures third_unchanged { plan.now.formulas.third ≡ None → third.new ≡ third.old }
    ensures fourth_unchanged { plan.now.formulas.fourth ≡ None → fourth.new ≡ fourth.old }
{
    let has_second = plan.takes_second;
    let has_third = plan.takes_third;
    let has_fourth = plan.takes_fourth;
    write_block(
        lists, at, end, has_second, has_third, has_fourth, one, two, three, four,
    );
    let syndromes: [&[u8]; 4] = [one, two, three, four];
    let block = Block {
        lists,
        at,
        end,
        syndromes,
        has_second,
        has_third,
        has_fourth,
    };
    let f = &plan.formulas;
    make_target(&block, first, &f.first, &[], &[], &[]);
    make_target(&block, second, &f.second, first, &[], &[]);
    make_target(&block, third, &f.third, first, second, &[]);
    make_target(&block, fourth, &f.fourth, first, second, third);
}

/// Makes each target by its formula, block by block, by lists of the syndromes.
fn combine_by_blocks(
    lists: &[Option<&[u8]>; 16],
    width: usize,
    plan: &Plan,
    first: &mut [u8],
    second: &mut [u8],
    third: &mut [u8],
    fourth: &mut [u8],
)
    requires long { HaveBytes lists.now width }
    requires formulas { AreFormulas plan.now.formulas }
    requires plan { IsPlan plan.now }
    requires first_room { HasRoom (shares_for plan.now.formulas.first) width first.old }
    requires second_room { HasRoom (shares_for plan.now.formulas.second) width second.old }
    requires third_room { HasRoom (shares_for plan.now.formulas.third) width third.old }
    requires fourth_room { HasRoom (shares_for plan.now.formulas.fourth) width fourth.old }
    ensures first { HasSums lists.now (shares_for plan.now.formulas.first) width first.new }
    ensures second { HasSums lists.now (shares_for plan.now.formulas.second) width second.new }
    ensures third { HasSums lists.now (shares_for plan.now.formulas.third) width third.new }
    ensures fourth { HasSums lists.now (shares_for plan.now.formulas.fourth) width fourth.new }
    ensures first_unchanged { plan.now.formulas.first ≡ None → first.new ≡ first.old }
    ensures second_unchanged { plan.now.formulas.second ≡ None → second.new ≡ second.old }
    ensures third_unchanged { plan.now.formulas.third ≡ None → third.new ≡ third.old }
    ensures fourth_unchanged { plan.now.formulas.fourth ≡ None → fourth.new ≡ fourth.old }
{
    let mut one = [0; BLOCK];
    let mut two = [0; BLOCK];
    let mut three = [0; BLOCK];
    let mut four = [0; BLOCK];
    let mut at = 0;
    'each: while at < width {
        let count = if width - at > BLOCK {
            BLOCK
        } else {
            width - at
        };
        make_block(
            lists,
            at,
            at + count,
            plan,
            &mut one[..count],
            &mut two[..count],
            &mut three[..count],
            &mut four[..count],
            first,
            second,
            third,
            fourth,
        );
        at += count;
    }
}

/// Makes each of four targets the sum of the four syndromes of the lists, each times its share, at
/// each of `width` places. A target for which no shares are given is unchanged.
///
/// Of the sixteen lists the last four are the parities of the first twelve; None is a list of
/// zeros. Each list is read once.
pub fn combine_syndromes(
    lists: &[Option<&[u8]>; 16],
    width: usize,
    a: Option<[u8; 4]>,
    b: Option<[u8; 4]>,
    c: Option<[u8; 4]>,
    d: Option<[u8; 4]>,
    first: &mut [u8],
    second: &mut [u8],
    third: &mut [u8],
    fourth: &mut [u8],
)
    requires long { HaveBytes lists.now width }
    requires first_room { HasRoom a width first.old }
    requires second_room { HasRoom b width second.old }
    requires third_room { HasRoom c width third.old }
    requires fourth_room { HasRoom d width fourth.old }
    ensures first { HasSums lists.now a width first.new }
    ensures second { HasSums lists.now b width second.new }
    ensures third { HasSums lists.now c width third.new }
    ensures fourth { HasSums lists.now d width fourth.new }
    ensures first_unchanged { a ≡ None → first.new ≡ first.old }
    ensures second_unchanged { b ≡ None → second.new ≡ second.old }
    ensures third_unchanged { c ≡ None → third.new ≡ third.old }
    ensures fourth_unchanged { d ≡ None → fourth.new ≡ fourth.old }
{
    if width < LANES
        || !combine_in_one_pass(lists, width, a, b, c, d, first, second, third, fourth)
    {
        let plan = plan_for(formulas_for(a, b, c, d));
        combine_by_blocks(lists, width, &plan, first, second, third, fourth);
    }
}
