//! `lrc repair`: missing and damaged fragments, written again.

use crate::joining::Unrecoverable;
use crate::lanes::read_lanes;
use crate::splitting::{discard_all, publish_all};
use crate::survey::bits_of;
use crate::target::{Target, failure_of, has_digest};
use fragment_files::{
    Failure, Lane, Set, batch_of, begin_draft, gather, left_of, lost_of, needed_for, new_lanes,
    stripe_count,
};
use fragments::block_to;
use std::fs::File;
use std::rt::Files;
use std::thread;
use std::thread::Threads;

/// A fragment to write again, and where.
#[derive(Drop)]
pub struct Wanted {
    /// The number of the fragment.
    pub fragment: u8,
    /// The path of its file.
    pub path: String,
}

/// What a repair did.
#[derive(Drop)]
pub struct Repaired {
    /// How many records of each of sixteen fragments were read.
    pub reads: [u64; 16],
    /// The fragments with a record that was read and is damaged, as bits.
    pub damaged: u16,
    /// The stripe that ended the repair, if a fragment that was wanted could not be had.
    pub stopped: Option<Unrecoverable>,
    /// A rebuilt fragment whose records are not those of the table in the header.
    pub altered: Option<u8>,
}

/// The numbers of the fragments that are wanted.
fn numbers_of(targets: &[Target]) -> [bool; 16] {
    let mut wanted = [false; 16];
    for target in targets {
        if target.fragment < 16 {
            wanted[usize::from(target.fragment)] = true;
        }
    }
    wanted
}

/// Writes the block of stripe j of a batch into a target's room. Returns false if it can't be had.
fn rebuild_one(set: &Set, lanes: &[Lane], j: usize, target: &mut Target) -> bool {
    let fragment = target.fragment;
    let left = left_of(&set.header, lanes, j);
    let Some(room) = target.block_mut(&set.header, j) else {
        return false;
    };
    if fragment >= set.header.code.fragments() || room.len() != set.header.width as usize {
        return false;
    }
    block_to(&left, fragment, room)
}

/// Writes the blocks of stripe j of a batch into the targets' rooms. Returns false if one can't be
/// had.
fn rebuild_all(
    set: &Set,
    first: u64,
    j: usize,
    wanted: &[bool; 16],
    lanes: &mut [Lane],
    targets: &mut [Target],
) -> bool {
    if !gather(set, first, j, wanted, lanes) {
        return false;
    }
    for target in targets {
        if !rebuild_one(set, lanes, j, target) {
            return false;
        }
    }
    true
}

/// Rebuilds a batch of stripes whose records were read.
fn rebuild_batch(
    set: &Set,
    first: u64,
    count: usize,
    lanes: &mut [Lane],
    targets: &mut [Target],
    repaired: &mut Repaired,
) {
    let wanted = numbers_of(targets);
    for j in 0..count {
        let is_had = rebuild_all(set, first, j, &wanted, lanes, targets);
        let lost = lost_of(lanes, j);
        repaired.damaged |= bits_of(set.header.code, lost);
        if !is_had {
            let stripe = first.saturating_add(j as u64);
            repaired.stopped = Some(Unrecoverable { stripe, lost });
            return;
        }
    }
}

/// Rebuilds all stripes, and writes their records.
fn rebuild_stripes<R: Threads + Sync + AllocGlobal>(
    rt: &R,
    set: &Set,
    lanes: &mut [Lane],
    targets: &mut [Target],
    repaired: &mut Repaired,
    threads: usize,
) -> Result<(), Failure> {
    let alloc = rt.alloc();
    let header = &set.header;
    let wanted = numbers_of(targets);
    let needed = needed_for(header.code, set.missing(), &wanted).unwrap_or(wanted);
    let stripes = stripe_count(header);
    let mut first = 0u64;
    for _ in 0..u64::MAX {
        if first >= stripes || repaired.stopped.is_some() {
            break;
        }
        let count = (batch_of(header) as u64).min(stripes - first) as usize;
        read_lanes(rt, set, first, count, &needed, lanes, threads);
        rebuild_batch(set, first, count, lanes, targets, repaired);
        if repaired.stopped.is_none() {
            thread::for_each_mut(
                rt,
                targets,
                threads.max(1),
                &|_i: usize, target: &mut Target| { target.write(alloc, header, first, count) },
            );
            failure_of(targets)?;
        }
        first = first.saturating_add(count as u64);
    }
    Ok(())
}

/// The first target whose records are not those of the table.
fn altered_of(set: &Set, targets: &mut [Target]) -> Option<u8> {
    for target in targets {
        let digest = target.digest();
        if !has_digest(&set.header.digests, target.fragment, &digest) {
            return Some(target.fragment);
        }
    }
    None
}

/// Writes fragments again, in place of what is there. If one can't be had, none is changed.
pub fn repair<R: Files<File = File> + AllocGlobal + Threads + Sync>(
    rt: &R,
    set: &Set,
    wanted: &[Wanted],
    threads: usize,
) -> Result<Repaired, Failure> {
    let mut targets = Vec::new(rt.alloc());
    let repaired = repair_to(rt, set, wanted, threads, &mut targets);
    let is_done = match &repaired {
        Ok(repaired) => repaired.stopped.is_none() && repaired.altered.is_none(),
        Err(_) => false,
    };
    if !is_done {
        discard_all(rt, targets.as_slice());
    }
    repaired
}

/// Begins the files of fragments.
fn begin_wanted<R: Files<File = File> + AllocGlobal>(
    rt: &R,
    set: &Set,
    wanted: &[Wanted],
    targets: &mut Vec<Target>,
) -> Result<(), Failure> {
    for one in wanted {
        let draft = begin_draft(rt, one.path.as_str())?;
        targets.push(Target::new(rt.alloc(), &set.header, one.fragment, draft)?)?;
    }
    Ok(())
}

/// Rebuilds the fragments, and compares their records with the table in the header.
fn rebuild<R: Threads + Sync + AllocGlobal>(
    rt: &R,
    set: &Set,
    targets: &mut [Target],
    threads: usize,
) -> Result<Repaired, Failure> {
    let mut repaired = Repaired {
        reads: [0; 16],
        damaged: 0,
        stopped: None,
        altered: None,
    };
    let mut lanes = new_lanes(rt.alloc(), &set.header)?;
    rebuild_stripes(
        rt,
        set,
        lanes.as_mut_slice(),
        targets,
        &mut repaired,
        threads,
    )?;
    count_reads(lanes.as_slice(), &mut repaired.reads);
    if repaired.stopped.is_none() {
        repaired.altered = altered_of(set, targets);
    }
    Ok(repaired)
}

/// Begins, writes and names the fragments.
fn repair_to<R: Files<File = File> + AllocGlobal + Threads + Sync>(
    rt: &R,
    set: &Set,
    wanted: &[Wanted],
    threads: usize,
    targets: &mut Vec<Target>,
) -> Result<Repaired, Failure> {
    begin_wanted(rt, set, wanted, targets)?;
    let repaired = rebuild(rt, set, targets.as_mut_slice(), threads)?;
    if repaired.stopped.is_none() && repaired.altered.is_none() {
        publish_all(rt, &set.header, targets.as_slice(), true)?;
    }
    Ok(repaired)
}

/// How many records of each fragment were read.
fn count_reads(lanes: &[Lane], reads: &mut [u64; 16]) {
    for lane in lanes {
        if lane.fragment < 16 {
            reads[usize::from(lane.fragment)] = lane.reads;
        }
    }
}
