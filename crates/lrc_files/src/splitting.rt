//! `lrc split`: the fragments of a file.

ghost use Rattle.std.specs.Prelude.{◌≡◌, length};

use crate::target::{Target, failure_of};
use fragment_files::{
    Failure, batch_of, begin_draft, check_free, file_failure, fragment_path, stripe_size, usage,
};
use fragment_header::{Header, MAX_LEN, header_of};
use fragments::seal_stripe;
use lrc_code::Code;
use std::alloc::Global;
use std::fs::File;
use std::io::{ErrorKind, Read};
use std::rt::Files;
use std::thread::Threads;
use std::{io, thread};

/// How to split a file.
#[derive(Drop)]
pub struct SplitPlan {
    /// The code of the stripes.
    pub code: Code,
    /// How many bytes a block has.
    pub width: u32,
    /// The identifier of the set.
    pub id: [u8; 16],
    /// Whether files of these names may be replaced.
    pub may_replace: bool,
    /// How many threads work.
    pub threads: usize,
}

/// The header of the set, without what is known at its end.
fn first_header(alloc: Global, split: &SplitPlan) -> Result<Header, Failure> {
    let id = split.id;
    match header_of(split.code, 0, split.width, 0, id, [0; 512]) {
        Some(header) => Ok(header),
        None => Err(usage(format!(in alloc; "the width is no multiple of 64 from 64 to 1048576"))),
    }
}

/// Reads until the buffer is full or the input ends. Returns how many bytes were read.
fn read_full<I: Read>(input: &mut I, buffer: &mut [u8]) -> io::Result<usize>
    ensures { length buffer.new ≡ length buffer.old }
{
    let mut filled = 0;
    for _ in 0..u64::MAX {
        if filled >= buffer.len() {
            break;
        }
        match input.read(&mut buffer[filled..]) {
            Ok(0) => break,
            Ok(count) => filled = filled.saturating_add(count),
            Err(error) if error.kind() == ErrorKind::Interrupted => {}
            Err(error) => return Err(error),
        }
    }
    Ok(filled)
}

/// Removes the files that were begun.
pub(crate) fn discard_all<R: Files<File = File>>(rt: &R, targets: &[Target]) {
    for target in targets {
        target.draft.discard(rt);
    }
}

/// Begins the file of a fragment.
fn begin_target<R: Files<File = File> + AllocGlobal>(
    rt: &R,
    header: &Header,
    path: &str,
    fragment: u8,
    may_replace: bool,
) -> Result<Target, Failure> {
    check_free(rt, path, may_replace)?;
    let draft = begin_draft(rt, path)?;
    Target::new(rt.alloc(), header, fragment, draft)
}

/// The folder of a fragment, of several in turn. None if there is no folder.
pub fn folder_of<'a>(folders: &[&'a str], fragment: u8) -> Option<&'a str> {
    let count = folders.len();
    if count == 0 {
        return None;
    }
    folders.get(usize::from(fragment) % count).copied()
}

/// Begins the files of all fragments, in the folders in turn.
fn begin_targets<R: Files<File = File> + AllocGlobal>(
    rt: &R,
    header: &Header,
    name: &str,
    folders: &[&str],
    may_replace: bool,
    targets: &mut Vec<Target>,
) -> Result<(), Failure> {
    let alloc = rt.alloc();
    for fragment in 0..header.code.fragments() {
        let Some(folder) = folder_of(folders, fragment) else {
            return Err(usage(format!(in alloc; "no folder is named: --to FOLDER..")));
        };
        let path = fragment_path(alloc, folder, name, fragment)?;
        targets.push(begin_target(rt, header, path.as_str(), fragment, may_replace)?)?;
    }
    Ok(())
}

/// Encodes one stripe.
fn encode_stripe(header: &Header, data: &[u8], parities: &mut [u8]) {
    let width = header.width as usize;
    if data.len() == stripe_size(header) && parities.len() == 4 * width {
        seal_stripe(header.code, width, data, parities);
    }
}

/// Encodes the first `count` stripes of a batch.
fn encode_batch(header: &Header, data: &[u8], parities: &mut [u8], count: usize) {
    let size = stripe_size(header);
    let four = 4 * header.width as usize;
    for j in 0..count {
        let from = size.saturating_mul(j);
        let to = from.saturating_add(size);
        let first = four.saturating_mul(j);
        let last = first.saturating_add(four);
        if from <= to && to <= data.len() && first <= last && last <= parities.len() {
            encode_stripe(header, &data[from..to], &mut parities[first..last]);
        }
    }
}

/// The block of a fragment in a stripe's data and parities.
fn block_in<'a>(
    header: &Header,
    data: &'a [u8],
    parities: &'a [u8],
    fragment: u8,
    j: usize,
) -> Option<&'a [u8]> {
    let width = header.width as usize;
    let f = usize::from(fragment);
    let count = usize::from(header.code.data_fragments());
    let from = if f < count {
        stripe_size(header)
            .saturating_mul(j)
            .saturating_add(f.saturating_mul(width))
    } else {
        width
            .saturating_mul(4)
            .saturating_mul(j)
            .saturating_add((f - count).saturating_mul(width))
    };
    let to = from.saturating_add(width);
    let all = if f < count { data } else { parities };
    if from <= to && to <= all.len() {
        Some(&all[from..to])
    } else {
        None
    }
}

/// One batch of stripes of the file.
#[derive(Clone, Copy, Drop)]
struct Batch<'a> {
    data: &'a [u8],
    parities: &'a [u8],
    first: u64,
    count: usize,
}

/// Writes the records of a batch to the file of one fragment.
fn write_target(alloc: Global, header: &Header, batch: &Batch, target: &mut Target) {
    let fragment = target.fragment;
    for j in 0..batch.count {
        let from = block_in(header, batch.data, batch.parities, fragment, j);
        if let (Some(block), Some(room)) = (from, target.block_mut(header, j)) {
            if block.len() == room.len() {
                room.copy_from_slice(block);
            }
        }
    }
    target.write(alloc, header, batch.first, batch.count);
}

/// Writes the records of a batch, each fragment's in one of several threads.
fn write_batch<R: Threads + Sync + AllocGlobal>(
    rt: &R,
    header: &Header,
    batch: &Batch,
    targets: &mut [Target],
    threads: usize,
) -> Result<(), Failure> {
    let alloc = rt.alloc();
    thread::for_each_mut(
        rt,
        targets,
        threads.max(1),
        &|_i: usize, target: &mut Target| { write_target(alloc, header, batch, target) },
    );
    failure_of(targets)
}

/// Room for a batch of stripes.
#[derive(Drop)]
struct Room {
    data: Vec<u8>,
    parities: Vec<u8>,
}

/// Room for a batch of stripes: their data and their parities.
fn new_room(alloc: Global, header: &Header) -> Result<Room, Failure> {
    let batch = batch_of(header);
    let four = 4 * header.width as usize;
    let data = vec![in alloc; 0u8; stripe_size(header).saturating_mul(batch)]?;
    let parities = vec![in alloc; 0u8; four.saturating_mul(batch)]?;
    Ok(Room { data, parities })
}

/// Reads the input's next stripes, with zeros behind its end, and makes their parities. Returns how
/// many bytes were read.
fn read_batch<I: Read>(header: &Header, input: &mut I, room: &mut Room) -> io::Result<usize> {
    let filled = read_full(input, room.data.as_mut_slice())?;
    if filled < room.data.len() {
        room.data[filled..].fill(0);
    }
    let count = stripes_in(header, filled);
    encode_batch(
        header,
        room.data.as_slice(),
        room.parities.as_mut_slice(),
        count,
    );
    Ok(filled)
}

/// How many stripes hold so many bytes.
fn stripes_in(header: &Header, bytes: usize) -> usize {
    match stripe_size(header) {
        0 => 0,
        size => bytes.div_ceil(size),
    }
}

/// Writes the records of the stripes that the room has.
fn write_room<R: Threads + Sync + AllocGlobal>(
    rt: &R,
    header: &Header,
    room: &Room,
    first: u64,
    count: usize,
    targets: &mut [Target],
    threads: usize,
) -> Result<(), Failure> {
    let batch = Batch {
        data: room.data.as_slice(),
        parities: room.parities.as_slice(),
        first,
        count,
    };
    write_batch(rt, header, &batch, targets, threads)
}

/// Writes the records of all stripes of the input. Returns how many bytes it has.
fn write_stripes<R: Threads + Sync + AllocGlobal, I: Read>(
    rt: &R,
    header: &Header,
    input: &mut I,
    path: &str,
    targets: &mut [Target],
    threads: usize,
) -> Result<u64, Failure> {
    let mut room = new_room(rt.alloc(), header)?;
    let mut len = 0u64;
    let mut first = 0u64;
    for _ in 0..u64::MAX {
        let filled = match read_batch(header, input, &mut room) {
            Ok(filled) => filled,
            Err(error) => return Err(file_failure(rt.alloc(), "can't read", path, error)),
        };
        let count = stripes_in(header, filled);
        write_room(rt, header, &room, first, count, targets, threads)?;
        len = len.saturating_add(filled as u64);
        first = first.saturating_add(count as u64);
        if filled < room.data.len() || len > MAX_LEN {
            break;
        }
    }
    Ok(len)
}

/// Writes a fragment's digest into the table of a header.
fn put_digest(digests: &mut [u8; 512], fragment: u8, digest: &[u8; 32]) {
    if fragment < 16 {
        let at = usize::from(fragment) * 32;
        digests[at..at + 32].copy_from_slice(digest);
    }
}

/// The header of the set, with its length and the digests of its fragments.
fn last_header(
    alloc: Global,
    header: &Header,
    len: u64,
    targets: &mut [Target],
) -> Result<Header, Failure> {
    let mut digests = [0u8; 512];
    for target in targets {
        let digest = target.digest();
        put_digest(&mut digests, target.fragment, &digest);
    }
    let set = header.set;
    match header_of(header.code, 0, header.width, len, set, digests) {
        Some(header) => Ok(header),
        None => Err(usage(format!(in alloc; "the file is longer than {MAX_LEN} bytes"))),
    }
}

/// Writes the headers, and gives all files their names.
pub(crate) fn publish_all<R: Files<File = File> + AllocGlobal>(
    rt: &R,
    header: &Header,
    targets: &[Target],
    may_replace: bool,
) -> Result<(), Failure> {
    for target in targets {
        target.finish(rt.alloc(), header)?;
    }
    for target in targets {
        target.draft.publish(rt, may_replace)?;
    }
    Ok(())
}

/// Writes the fragments of what the input has. Returns the header of the set. On a failure no
/// fragment is there under its name, unless giving the names failed.
pub fn split<R: Files<File = File> + AllocGlobal + Threads + Sync, I: Read>(
    rt: &R,
    how: &SplitPlan,
    input: &mut I,
    path: &str,
    name: &str,
    folders: &[&str],
) -> Result<Header, Failure> {
    let header = first_header(rt.alloc(), how)?;
    let mut targets = Vec::new(rt.alloc());
    let made = split_to(rt, how, &header, input, path, name, folders, &mut targets);
    if made.is_err() {
        discard_all(rt, targets.as_slice());
    }
    made
}

/// Begins, writes and names the fragments.
fn split_to<R: Files<File = File> + AllocGlobal + Threads + Sync, I: Read>(
    rt: &R,
    how: &SplitPlan,
    header: &Header,
    input: &mut I,
    path: &str,
    name: &str,
    folders: &[&str],
    targets: &mut Vec<Target>,
) -> Result<Header, Failure> {
    begin_targets(rt, header, name, folders, how.may_replace, targets)?;
    let len = write_stripes(rt, header, input, path, targets.as_mut_slice(), how.threads)?;
    let full = last_header(rt.alloc(), header, len, targets.as_mut_slice())?;
    publish_all(rt, &full, targets.as_slice(), how.may_replace)?;
    Ok(full)
}
