//! Reads of several fragments at once.

ghost use Rattle.std.specs.Prelude.{◌≡◌, ◌↔◌, ◌<◌, ◌≤◌, ℕ, true};
ghost use Rattle.lrc_code.specs.Code.{data_count, fragment_count};
ghost use Rattle.fragment_files.specs.Needed.{is_marked};

use fragment_files::{Lane, Set};
use std::thread;
use std::thread::Threads;

/// Reads the records of some stripes of the fragments that are needed, each fragment's in one of
/// several threads.
pub fn read_lanes<R: Threads + Sync>(
    rt: &R,
    set: &Set,
    first: u64,
    count: usize,
    needed: &[bool; 16],
    lanes: &mut [Lane],
    threads: usize,
) {
    thread::for_each_mut(
        rt,
        lanes,
        threads.max(1),
        &|_i: usize, lane: &mut Lane| {
            lane.clear(set);
            if is_needed(needed, lane.fragment) {
                lane.read_all(set, first, count);
            }
        },
    );
}

/// Whether a fragment is needed.
fn is_needed(needed: &[bool; 16], fragment: u8) -> bool {
    fragment < 16 && needed[usize::from(fragment)]
}

/// The fragments before this one.
fn all_below(count: u8) -> [bool; 16]
    requires { count ≤ 16 }
    ensures { (i : ℕ) → (is_marked result i ≡ true) ↔ (i < count) }
{
    let mut below = [false; 16];
    for f in 0..count {
        below[usize::from(f)] = true;
    }
    below
}

/// The data fragments of a code.
pub fn data_of(set: &Set) -> [bool; 16]
    ensures { (i : ℕ) → (is_marked result i ≡ true) ↔ (i < data_count set.now.header.code) }
{
    all_below(set.header.code.data_fragments())
}

/// All fragments of a code.
pub fn all_of(set: &Set) -> [bool; 16]
    ensures { (i : ℕ) → (is_marked result i ≡ true) ↔ (i < fragment_count set.now.header.code) }
{
    all_below(set.header.code.fragments())
}

/// How many records were read.
pub fn reads_of(lanes: &[Lane]) -> u64 {
    let mut reads = 0u64;
    for lane in lanes {
        reads = reads.saturating_add(lane.reads);
    }
    reads
}
