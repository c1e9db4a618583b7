//! Which targets are computed in one pass over the lists: those whose shares have one of a few
//! patterns.
ghost use Rattle.std.specs.Prelude.{◌≡◌, ◌≤◌, true, false, None, Some, length};
ghost use Rattle.syndromes.specs.Syndromes.{HaveBytes, HasSums, HasRoom};
ghost use Rattle.one_pass.specs.Weights.{UsesOnly, unit};
ghost use Rattle.one_pass.specs.Patterns.{group, ArePair, AreTriple, AreTwoPairs, AreGlobals};
ghost use Rattle.one_pass.specs.Patterns.{ArePlainAndWeighed, AreGroups};

use crate::formulas::less;
use kernels::LANES;
use one_pass::{
    combine_globals, combine_pair, combine_plain_and_weighed, combine_single, combine_triple,
    combine_two_of_each, combine_two_pairs,
};

/// The shares of a target that is the syndrome of the first group, or of the second.
fn group_shares(is_second: bool) -> [u8; 4]
    ensures { result ≡ unit (group is_second) }
{
    if is_second {
        [0, 1, 0, 0]
    } else {
        [1, 0, 0, 0]
    }
}

/// Whether the shares take none but these syndromes.
fn takes_only(shares: &[u8; 4], second: bool, fourth: bool) -> bool
    ensures { result ≡ true → UsesOnly shares.now second true fourth }
{
    (second || shares[1] == 0) && (fourth || shares[3] == 0)
}

/// Whether the second target is the sum of a group's syndrome and the first target.
fn are_pair(one: &[u8; 4], two: &[u8; 4], is_second: bool) -> bool
    ensures { result ≡ true → ArePair one.now two.now is_second }
{
    takes_only(one, is_second, false) && *two == less(group_shares(is_second), Some(*one))
}

/// Whether the third target is the sum of a group's syndrome and the first two targets.
fn are_triple(one: &[u8; 4], two: &[u8; 4], three: &[u8; 4], is_second: bool) -> bool
    ensures { result ≡ true → AreTriple one.now two.now three.now is_second }
{
    takes_only(one, is_second, true)
        && takes_only(two, is_second, true)
        && *three == less(less(group_shares(is_second), Some(*two)), Some(*one))
}

/// Whether the second target is the sum of the first syndrome and the first target, and the fourth
/// that of the second syndrome and the third target.
fn are_two_pairs(one: &[u8; 4], two: &[u8; 4], three: &[u8; 4], four: &[u8; 4]) -> bool
    ensures { result ≡ true → AreTwoPairs one.now two.now three.now four.now }
{
    *two == less(group_shares(false), Some(*one)) && *four == less(group_shares(true), Some(*three))
}

/// Whether the targets are the third and the fourth syndrome.
fn are_globals(one: &[u8; 4], two: &[u8; 4]) -> bool
    ensures { result ≡ true → AreGlobals one.now two.now }
{
    *one == [0, 0, 1, 0] && *two == [0, 0, 0, 1]
}

/// Whether the first target is a group's syndrome, and the second does not take that of the other
/// group, and the fourth only if it may.
fn are_plain_and_weighed(one: &[u8; 4], two: &[u8; 4], is_second: bool, fourth: bool) -> bool
    ensures { result ≡ true → ArePlainAndWeighed one.now two.now is_second fourth }
{
    *one == group_shares(is_second) && takes_only(two, is_second, fourth)
}

/// Whether the targets are the syndromes of the two groups.
fn are_groups(one: &[u8; 4], two: &[u8; 4]) -> bool
    ensures { result ≡ true → AreGroups one.now two.now }
{
    *one == group_shares(false) && *two == group_shares(true)
}

/// Computes two targets in one pass if their shares allow it. Returns false, and changes nothing,
/// if they do not.
fn dispatch_two(
    lists: &[Option<&[u8]>; 16],
    width: usize,
    one: &[u8; 4],
    two: &[u8; 4],
    first: &mut [u8],
    second: &mut [u8],
) -> bool
    requires long { HaveBytes lists.now width }
    requires wide { LANES ≤ width }
    requires first_room { width ≤ length first.old }
    requires second_room { width ≤ length second.old }
    ensures first { result ≡ true → HasSums lists.now (Some one.now) width first.new }
    ensures second { result ≡ true → HasSums lists.now (Some two.now) width second.new }
    ensures refused { result ≡ false → (first.new ≡ first.old) × (second.new ≡ second.old) }
{
    if are_pair(one, two, false) {
        combine_pair::<false>(lists, width, one, two, first, second);
    } else if are_pair(one, two, true) {
        combine_pair::<true>(lists, width, one, two, first, second);
    } else if are_globals(one, two) {
        combine_globals(lists, width, one, two, first, second);
    } else if are_plain_and_weighed(one, two, false, false) {
        combine_plain_and_weighed::<false, false>(lists, width, one, two, first, second);
    } else if are_plain_and_weighed(one, two, true, false) {
        combine_plain_and_weighed::<true, false>(lists, width, one, two, first, second);
    } else if are_plain_and_weighed(one, two, false, true) {
        combine_plain_and_weighed::<false, true>(lists, width, one, two, first, second);
    } else if are_plain_and_weighed(one, two, true, true) {
        combine_plain_and_weighed::<true, true>(lists, width, one, two, first, second);
    } else {
        return false;
    }
    true
}

/// As `dispatch_two` for three targets.
fn dispatch_three(
    lists: &[Option<&[u8]>; 16],
    width: usize,
    one: &[u8; 4],
    two: &[u8; 4],
    three: &[u8; 4],
    first: &mut [u8],
    second: &mut [u8],
    third: &mut [u8],
) -> bool
    requires long { HaveBytes lists.now width }
    requires wide { LANES ≤ width }
    requires first_room { width ≤ length first.old }
    requires second_room { width ≤ length second.old }
    requires third_room { width ≤ length third.old }
    ensures first { result ≡ true → HasSums lists.now (Some one.now) width first.new }
    ensures second { result ≡ true → HasSums lists.now (Some two.now) width second.new }
    ensures third { result ≡ true → HasSums lists.now (Some three.now) width third.new }
    ensures refused { result ≡ false → (first.new ≡ first.old) × (second.new ≡ second.old)
        × (third.new ≡ third.old) }
{
    if are_triple(one, two, three, false) {
        combine_triple::<false>(lists, width, one, two, three, first, second, third);
    } else if are_triple(one, two, three, true) {
        combine_triple::<true>(lists, width, one, two, three, first, second, third);
    } else {
        return false;
    }
    true
}

/// As `dispatch_two` for four targets.
fn dispatch_four(
    lists: &[Option<&[u8]>; 16],
    width: usize,
    one: &[u8; 4],
    two: &[u8; 4],
    three: &[u8; 4],
    four: &[u8; 4],
    first: &mut [u8],
    second: &mut [u8],
    third: &mut [u8],
    fourth: &mut [u8],
) -> bool
    requires long { HaveBytes lists.now width }
    requires wide { LANES ≤ width }
    requires first_room { width ≤ length first.old }
    requires second_room { width ≤ length second.old }
    requires third_room { width ≤ length third.old }
    requires fourth_room { width ≤ length fourth.old }
    ensures first { result ≡ true → HasSums lists.now (Some one.now) width first.new }
    ensures second { result ≡ true → HasSums lists.now (Some two.now) width second.new }
    ensures third { result ≡ true → HasSums lists.now (Some three.now) width third.new }
    ensures fourth { result ≡ true → HasSums lists.now (Some four.now) width fourth.new }
    ensures refused { result ≡ false → (first.new ≡ first.old) × (second.new ≡ second.old)
        × (third.new ≡ third.old) × (fourth.new ≡ fourth.old) }
{
    if are_two_pairs(one, two, three, four) {
        combine_two_pairs(
            lists, width, one, two, three, four, first, second, third, fourth,
        );
    } else if are_groups(one, two) {
        combine_two_of_each(
            lists, width, one, two, three, four, first, second, third, fourth,
        );
    } else {
        return false;
    }
    true
}

/// As `dispatch_two` for all targets for which shares are given.
pub(crate) fn combine_in_one_pass(
    lists: &[Option<&[u8]>; 16],
    width: usize,
    a: Option<[u8; 4]>,
    b: Option<[u8; 4]>,
    c: Option<[u8; 4]>,
    d: Option<[u8; 4]>,
    first: &mut [u8],
    second: &mut [u8],
    third: &mut [u8],
    fourth: &mut [u8],
) -> bool
    requires long { HaveBytes lists.now width }
    requires wide { LANES ≤ width }
    requires first_room { HasRoom a width first.old }
    requires second_room { HasRoom b width second.old }
    requires third_room { HasRoom c width third.old }
    requires fourth_room { HasRoom d width fourth.old }
    ensures first { result ≡ true → HasSums lists.now a width first.new }
    ensures second { result ≡ true → HasSums lists.now b width second.new }
    ensures third { result ≡ true → HasSums lists.now c width third.new }
    ensures fourth { result ≡ true → HasSums lists.now d width fourth.new }
    ensures first_unchanged { a ≡ None → first.new ≡ first.old }
    ensures second_unchanged { b ≡ None → second.new ≡ second.old }
    ensures third_unchanged { c ≡ None → third.new ≡ third.old }
    ensures fourth_unchanged { d ≡ None → fourth.new ≡ fourth.old }
    ensures refused { result ≡ false → (first.new ≡ first.old) × (second.new ≡ second.old)
        × (third.new ≡ third.old) × (fourth.new ≡ fourth.old) }
{
    match (&a, &b, &c, &d) {
        (Some(one), None, None, None) => {
            combine_single(lists, width, one, first);
            true
        }
        (Some(one), Some(two), None, None) => dispatch_two(lists, width, one, two, first, second),
        (Some(one), Some(two), Some(three), None) => {
            dispatch_three(lists, width, one, two, three, first, second, third)
        }
        (Some(one), Some(two), Some(three), Some(four)) => dispatch_four(
            lists, width, one, two, three, four, first, second, third, fourth,
        ),
        _ => false,
    }
}
