//! Computes targets in one pass over the lists, block by block.
ghost use Rattle.std.specs.Prelude.{◌≡◌, ◌≤◌, ◌+◌, Some, length};
ghost use Rattle.one_pass.specs.Syndromes.{HaveBytes, HasSums};
ghost use Rattle.one_pass.specs.Patterns.{ArePair, AreTriple, AreTwoPairs, AreGlobals};
ghost use Rattle.one_pass.specs.Patterns.{ArePlainAndWeighed, AreGroups};

use crate::blocks::{LONG_BLOCK, next_block, sources_of};
use crate::loops::{
    write_globals, write_pair, write_plain_and_weighed, write_single, write_triple,
    write_two_of_each, write_two_pairs,
};
use crate::weights::Weights;
use kernels::LANES;

/// Where the block that begins at `at` ends.
fn block_end(at: usize, width: usize) -> usize
    requires { at + LANES ≤ width }
    ensures inside { result ≤ width }
    ensures wide { at + LANES ≤ result }
    ensures few { result ≤ at + LONG_BLOCK }
{
    if width - at > LONG_BLOCK {
        at + LONG_BLOCK
    } else {
        width
    }
}

/// Computes `width` places of a target with these shares, block by block. The last block ends with
/// the lists, and may overlap the one before.
pub fn combine_single(lists: &[Option<&[u8]>; 16], width: usize, one: &[u8; 4], first: &mut [u8])
    requires long { HaveBytes lists.now width }
    requires wide { LANES ≤ width }
    requires first_room { width ≤ length first.old }
    ensures first { HasSums lists.now (Some one.now) width first.new }
{
    let weights = Weights::new(one);
    let mut done = 0;
    'each: while done < width {
        let at = next_block(done, width);
        let end = block_end(at, width);
        let sources = sources_of(lists, at, end);
        write_single(&sources, one, &weights, &mut first[at..end]);
        done = end;
    }
}

/// As `combine_single` for two targets whose shares are a pair.
pub fn combine_pair<const SECOND: bool>(
    lists: &[Option<&[u8]>; 16],
    width: usize,
    one: &[u8; 4],
    two: &[u8; 4],
    first: &mut [u8],
    second: &mut [u8],
)
    requires long { HaveBytes lists.now width }
    requires wide { LANES ≤ width }
    requires first_room { width ≤ length first.old }
    requires second_room { width ≤ length second.old }
    requires pair { ArePair one.now two.now SECOND }
    ensures first { HasSums lists.now (Some one.now) width first.new }
    ensures second { HasSums lists.now (Some two.now) width second.new }
{
    let weights = Weights::new(one);
    let mut done = 0;
    'each: while done < width {
        let at = next_block(done, width);
        let end = block_end(at, width);
        let sources = sources_of(lists, at, end);
        let x = &mut first[at..end];
        let y = &mut second[at..end];
        write_pair::<SECOND>(&sources, &weights, x, y);
        done = end;
    }
}

/// As `combine_single` for three targets whose shares are a triple.
pub fn combine_triple<const SECOND: bool>(
    lists: &[Option<&[u8]>; 16],
    width: usize,
    one: &[u8; 4],
    two: &[u8; 4],
    three: &[u8; 4],
    first: &mut [u8],
    second: &mut [u8],
    third: &mut [u8],
)
    requires long { HaveBytes lists.now width }
    requires wide { LANES ≤ width }
    requires first_room { width ≤ length first.old }
    requires second_room { width ≤ length second.old }
    requires third_room { width ≤ length third.old }
    requires triple { AreTriple one.now two.now three.now SECOND }
    ensures first { HasSums lists.now (Some one.now) width first.new }
    ensures second { HasSums lists.now (Some two.now) width second.new }
    ensures third { HasSums lists.now (Some three.now) width third.new }
{
    let weights = Weights::new(one);
    let others = Weights::new(two);
    let mut done = 0;
    'each: while done < width {
        let at = next_block(done, width);
        let end = block_end(at, width);
        let sources = sources_of(lists, at, end);
        let x = &mut first[at..end];
        let y = &mut second[at..end];
        let z = &mut third[at..end];
        write_triple::<SECOND>(&sources, &weights, &others, x, y, z);
        done = end;
    }
}

/// As `combine_single` for four targets whose shares are two pairs.
pub fn combine_two_pairs(
    lists: &[Option<&[u8]>; 16],
    width: usize,
    one: &[u8; 4],
    two: &[u8; 4],
    three: &[u8; 4],
    four: &[u8; 4],
    first: &mut [u8],
    second: &mut [u8],
    third: &mut [u8],
    fourth: &mut [u8],
)
    requires long { HaveBytes lists.now width }
    requires wide { LANES ≤ width }
    requires first_room { width ≤ length first.old }
    requires second_room { width ≤ length second.old }
    requires third_room { width ≤ length third.old }
    requires fourth_room { width ≤ length fourth.old }
    requires pairs { AreTwoPairs one.now two.now three.now four.now }
    ensures first { HasSums lists.now (Some one.now) width first.new }
    ensures second { HasSums lists.now (Some two.now) width second.new }
    ensures third { HasSums lists.now (Some three.now) width third.new }
    ensures fourth { HasSums lists.now (Some four.now) width fourth.new }
{
    let weights = Weights::new(one);
    let others = Weights::new(three);
    let mut done = 0;
    'each: while done < width {
        let at = next_block(done, width);
        let end = block_end(at, width);
        let sources = sources_of(lists, at, end);
        let x = &mut first[at..end];
        let y = &mut second[at..end];
        let z = &mut third[at..end];
        let w = &mut fourth[at..end];
        write_two_pairs(&sources, &weights, &others, x, y, z, w);
        done = end;
    }
}

/// As `combine_single` for the two global parities, where all data is there.
pub fn combine_globals(
    lists: &[Option<&[u8]>; 16],
    width: usize,
    one: &[u8; 4],
    two: &[u8; 4],
    first: &mut [u8],
    second: &mut [u8],
)
    requires long { HaveBytes lists.now width }
    requires wide { LANES ≤ width }
    requires first_room { width ≤ length first.old }
    requires second_room { width ≤ length second.old }
    requires globals { AreGlobals one.now two.now }
    ensures first { HasSums lists.now (Some one.now) width first.new }
    ensures second { HasSums lists.now (Some two.now) width second.new }
{
    let mut done = 0;
    'each: while done < width {
        let at = next_block(done, width);
        let end = block_end(at, width);
        let sources = sources_of(lists, at, end);
        let x = &mut first[at..end];
        let y = &mut second[at..end];
        write_globals(&sources, x, y);
        done = end;
    }
}

/// As `combine_single` for the syndrome of a group and another target.
pub fn combine_plain_and_weighed<const SECOND: bool, const FOURTH: bool>(
    lists: &[Option<&[u8]>; 16],
    width: usize,
    one: &[u8; 4],
    two: &[u8; 4],
    first: &mut [u8],
    second: &mut [u8],
)
    requires long { HaveBytes lists.now width }
    requires wide { LANES ≤ width }
    requires first_room { width ≤ length first.old }
    requires second_room { width ≤ length second.old }
    requires shares { ArePlainAndWeighed one.now two.now SECOND FOURTH }
    ensures first { HasSums lists.now (Some one.now) width first.new }
    ensures second { HasSums lists.now (Some two.now) width second.new }
{
    let weights = Weights::new(two);
    let mut done = 0;
    'each: while done < width {
        let at = next_block(done, width);
        let end = block_end(at, width);
        let sources = sources_of(lists, at, end);
        let x = &mut first[at..end];
        let y = &mut second[at..end];
        write_plain_and_weighed::<SECOND, FOURTH>(&sources, &weights, x, y);
        done = end;
    }
}

/// As `combine_single` for the syndromes of both groups and two other targets.
pub fn combine_two_of_each(
    lists: &[Option<&[u8]>; 16],
    width: usize,
    one: &[u8; 4],
    two: &[u8; 4],
    three: &[u8; 4],
    four: &[u8; 4],
    first: &mut [u8],
    second: &mut [u8],
    third: &mut [u8],
    fourth: &mut [u8],
)
    requires long { HaveBytes lists.now width }
    requires wide { LANES ≤ width }
    requires first_room { width ≤ length first.old }
    requires second_room { width ≤ length second.old }
    requires third_room { width ≤ length third.old }
    requires fourth_room { width ≤ length fourth.old }
    requires plain { AreGroups one.now two.now }
    ensures first { HasSums lists.now (Some one.now) width first.new }
    ensures second { HasSums lists.now (Some two.now) width second.new }
    ensures third { HasSums lists.now (Some three.now) width third.new }
    ensures fourth { HasSums lists.now (Some four.now) width fourth.new }
{
    let weights = Weights::new(three);
    let others = Weights::new(four);
    let mut done = 0;
    'each: while done < width {
        let at = next_block(done, width);
        let end = block_end(at, width);
        let sources = sources_of(lists, at, end);
        let x = &mut first[at..end];
        let y = &mut second[at..end];
        let z = &mut third[at..end];
        let w = &mut fourth[at..end];
        write_two_of_each(&sources, &weights, &others, x, y, z, w);
        done = end;
    }
}
