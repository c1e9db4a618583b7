//! `lrc join`: the file of fragments, or a part of it.

ghost use Rattle.std.specs.Prelude.{◌≡◌, ◌-◌, length, min, slice_range};

use crate::lanes::{data_of, read_lanes, reads_of};
use crate::status::Status;
use fragment_files::{
    Draft, Failure, Lane, Set, batch_of, begin_draft, check_free, file_failure, gather, left_of,
    lost_of, needed_for, new_lanes, stripe_count, stripe_size,
};
use fragments::join_stripe;
use lrc_code::LostSet;
use std::fs::File;
use std::io;
use std::io::Write;
use std::rt::Files;
use std::thread::Threads;

/// Which bytes of a file: from the first up to, and without, the second.
#[derive(Clone, Copy, Debug, PartialEq, Eq, Drop)]
pub struct Range {
    /// The first byte.
    pub from: u64,
    /// The byte behind the last.
    pub to: u64,
}

/// A stripe with an unrecoverable fragment.
#[derive(Clone, Copy, Debug, Drop)]
pub struct Unrecoverable {
    /// The number of the stripe.
    pub stripe: u64,
    /// The fragments that are lost there.
    pub lost: LostSet,
}

/// What a join did.
#[derive(Drop)]
pub struct Joined {
    /// How many bytes were written.
    pub written: u64,
    /// How many records were read.
    pub reads: u64,
    /// How many stripes had a lost fragment among those that were read.
    pub degraded: u64,
    /// The stripe that ended the join, if it could not be had.
    pub stopped: Option<Unrecoverable>,
}

impl Joined {
    /// How the join ended.
    pub fn status(&self) -> Status {
        if self.stopped.is_some() {
            Status::Unrecoverable
        } else if self.degraded > 0 {
            Status::Recoverable
        } else {
            Status::Whole
        }
    }
}

/// Reads and writes the data of stripe j of a batch. Returns false if it is unrecoverable.
fn join_one(set: &Set, first: u64, j: usize, lanes: &mut [Lane], out: &mut [u8]) -> bool
    ensures { length out.new ≡ length out.old }
{
    if !gather(set, first, j, &data_of(set), lanes) || out.len() != stripe_size(&set.header) {
        return false;
    }
    let left = left_of(&set.header, lanes, j);
    join_stripe(&left, set.header.width as usize, out)
}

/// The bytes of a stripe that are in a range, if the stripe's first is byte `start` of the file.
pub fn part_of<'a>(out: &'a [u8], start: u64, range: &Range) -> &'a [u8]
    ensures { result.now ≡ slice_range out.now (range.now.from - start)
        (min (range.now.to - start) (length out.now)) }
{
    let to = range.to.saturating_sub(start).min(out.len() as u64) as usize;
    let from = range.from.saturating_sub(start).min(to as u64) as usize;
    &out[from..to]
}

/// Whether a data fragment is lost.
fn has_lost_data(set: &Set, lost: LostSet) -> bool {
    for f in 0..set.header.code.data_fragments() {
        if f < 16 && !lost.left(f) {
            return true;
        }
    }
    false
}

/// What a join reads, and where it is.
#[derive(Drop)]
struct Joining<'a> {
    set: &'a Set,
    range: Range,
    first: u64,
    count: usize,
}

/// Writes the bytes of a batch of stripes whose records were read. On an `Err` a write failed.
fn write_stripes<W: Write>(
    joining: &Joining,
    lanes: &mut [Lane],
    out: &mut [u8],
    target: &mut W,
    joined: &mut Joined,
) -> io::Result<()> {
    for j in 0..joining.count {
        let stripe = joining.first.saturating_add(j as u64);
        let is_had = join_one(joining.set, joining.first, j, lanes, out);
        let lost = lost_of(lanes, j);
        if !is_had {
            joined.stopped = Some(Unrecoverable { stripe, lost });
            return Ok(());
        }
        if has_lost_data(joining.set, lost) {
            joined.degraded = joined.degraded.saturating_add(1);
        }
        let start = stripe.saturating_mul(out.len() as u64);
        let part = part_of(out, start, &joining.range);
        target.write_all(part)?;
        joined.written = joined.written.saturating_add(part.len() as u64);
    }
    Ok(())
}

/// The stripes that a range lies in: the first, and the one behind the last.
fn stripes_of(set: &Set, range: &Range) -> (u64, u64) {
    let size = stripe_size(&set.header) as u64;
    if size == 0 || range.from >= range.to {
        return (0, 0);
    }
    let end = range.to.div_ceil(size).min(stripe_count(&set.header));
    (range.from / size, end)
}

/// Which fragments a join reads at first: the data, or what the missing ones of it are made of.
fn first_needed(set: &Set) -> [bool; 16] {
    let data = data_of(set);
    match needed_for(set.header.code, set.missing(), &data) {
        Some(needed) => needed,
        None => data,
    }
}

/// Reads and writes the stripes of a range, a batch at a time.
fn join_batches<R: Threads + Sync + AllocGlobal, W: Write>(
    rt: &R,
    set: &Set,
    range: Range,
    target: &mut W,
    threads: usize,
    lanes: &mut [Lane],
    out: &mut [u8],
    joined: &mut Joined,
) -> io::Result<()> {
    let needed = first_needed(set);
    let (mut first, end) = stripes_of(set, &range);
    for _ in 0..u64::MAX {
        if first >= end || joined.stopped.is_some() {
            break;
        }
        let count = (batch_of(&set.header) as u64).min(end - first) as usize;
        read_lanes(rt, set, first, count, &needed, lanes, threads);
        let joining = Joining {
            set,
            range,
            first,
            count,
        };
        write_stripes(&joining, lanes, out, target, joined)?;
        first = first.saturating_add(count as u64);
    }
    joined.reads = reads_of(lanes);
    Ok(())
}

/// Writes a range of the file's bytes. An `Err` is of a write.
pub fn join_to<R: Threads + Sync + AllocGlobal, W: Write>(
    rt: &R,
    set: &Set,
    range: Range,
    target: &mut W,
    path: &str,
    threads: usize,
) -> Result<Joined, Failure> {
    let alloc = rt.alloc();
    let mut lanes = new_lanes(alloc, &set.header)?;
    let mut out = vec![in alloc; 0u8; stripe_size(&set.header)]?;
    let mut joined = Joined {
        written: 0,
        reads: 0,
        degraded: 0,
        stopped: None,
    };
    let ran = join_batches(
        rt,
        set,
        range,
        target,
        threads,
        lanes.as_mut_slice(),
        out.as_mut_slice(),
        &mut joined,
    );
    match ran {
        Ok(()) => Ok(joined),
        Err(error) => Err(file_failure(alloc, "can't write", path, error)),
    }
}

/// Writes a range of the file's bytes to a file that was begun, and gives it its name if all of
/// them can be had.
fn join_and_publish<R: Files<File = File> + AllocGlobal + Threads + Sync>(
    rt: &R,
    set: &Set,
    range: Range,
    draft: &mut Draft,
    path: &str,
    may_replace: bool,
    threads: usize,
) -> Result<Joined, Failure> {
    let joined = join_to(rt, set, range, &mut draft.file, path, threads)?;
    if joined.stopped.is_none() {
        draft.publish(rt, may_replace)?;
    }
    Ok(joined)
}

/// Whether all bytes were joined.
fn is_done(joined: &Result<Joined, Failure>) -> bool {
    match joined {
        Ok(joined) => joined.stopped.is_none(),
        Err(_) => false,
    }
}

/// Writes a range of the file's bytes to a file of this path. If a stripe is unrecoverable, no file
/// is there.
pub fn join<R: Files<File = File> + AllocGlobal + Threads + Sync>(
    rt: &R,
    set: &Set,
    range: Range,
    path: &str,
    may_replace: bool,
    threads: usize,
) -> Result<Joined, Failure> {
    check_free(rt, path, may_replace)?;
    let mut draft = begin_draft(rt, path)?;
    let joined = join_and_publish(rt, set, range, &mut draft, path, may_replace, threads);
    if !is_done(&joined) {
        draft.discard(rt);
    }
    joined
}
