//! `lrc join`.

use crate::check::set_of;
use crate::folders::check_folder;
use fragment_files::{Failure, Set, Stray, parent_of, record_len, stripe_size, usage};
use lrc_files::{Joined, Range, Status, Unrecoverable, bits_of, join, join_to};
use lrc_json::{JoinObject, StopObject, push_object};
use lrc_line::JoinLine;
use lrc_report::{add_others, numbers_in, plural, push_hex, push_numbers, push_strays};
use std::alloc::Global;
use std::fmt::Write;
use std::fs::File;
use std::io;
use std::rt::Files;
use std::thread::Threads;

/// The bytes that a command line asks for.
fn range_of(alloc: Global, set: &Set, range: Option<(u64, Option<u64>)>) -> Result<Range, Failure> {
    let len = set.header.len;
    let Some((from, end)) = range else {
        return Ok(Range { from: 0, to: len });
    };
    let to = end.unwrap_or(len);
    if from > to || to > len {
        return Err(usage(format!(in alloc;
            "the range {from}-{to} is not in a file of {len} bytes"
        )));
    }
    Ok(Range { from, to })
}

/// Whether a fragment is missing, or a file of one is cut short or has lost a header.
fn is_incomplete(set: &Set) -> bool {
    if bits_of(set.header.code, set.missing()) != 0 {
        return true;
    }
    for source in set.sources.iter() {
        if !source.is_complete() {
            return true;
        }
    }
    false
}

/// How many bytes of records a join read.
fn bytes_read(set: &Set, joined: &Joined) -> u64 {
    joined.reads.saturating_mul(record_len(&set.header) as u64)
}

/// The first byte of a stripe in the file.
fn first_byte(set: &Set, stripe: u64) -> u64 {
    stripe.saturating_mul(stripe_size(&set.header) as u64)
}

/// The object of the stripe that ended a join.
fn stop_object(
    alloc: Global,
    set: &Set,
    stopped: Option<Unrecoverable>,
) -> Result<Option<StopObject>, Failure> {
    let Some(stopped) = stopped else {
        return Ok(None);
    };
    let lost = numbers_in(alloc, bits_of(set.header.code, stopped.lost))?;
    Ok(Some(StopObject {
        stripe: stopped.stripe,
        byte: first_byte(set, stopped.stripe),
        lost,
    }))
}

/// The object of a join, without its texts and lists.
fn bare_object(
    alloc: Global,
    set: &Set,
    joined: &Joined,
    status: Status,
    stopped: Option<StopObject>,
) -> JoinObject {
    JoinObject {
        command: "join",
        status: status.code(),
        set: String::new(alloc),
        path: String::new(alloc),
        bytes: joined.written,
        bytes_read: bytes_read(set, joined),
        rebuilt_stripes: joined.degraded,
        stopped,
        others: Vec::new(alloc),
    }
}

/// Fills in the texts and lists.
fn fill(
    alloc: Global,
    object: &mut JoinObject,
    to: &str,
    set: &Set,
    strays: &[Stray],
) -> Result<(), Failure> {
    push_hex(&mut object.set, &set.header.set)?;
    object.path.push_str(to)?;
    add_others(alloc, &mut object.others, strays)
}

/// Appends the object of a join.
fn push_join_object(
    alloc: Global,
    text: &mut String,
    line: &JoinLine,
    set: &Set,
    strays: &[Stray],
    joined: &Joined,
    status: Status,
) -> Result<(), Failure> {
    let stopped = stop_object(alloc, set, joined.stopped)?;
    let mut object = bare_object(alloc, set, joined, status, stopped);
    fill(alloc, &mut object, line.to, set, strays)?;
    push_object(text, alloc, &object)?;
    Ok(())
}

/// Appends what was joined.
fn push_joined(text: &mut String, set: &Set, to: &str, joined: &Joined) -> Result<(), Failure> {
    let read = bytes_read(set, joined);
    if let Some(stopped) = joined.stopped {
        let stripe = stopped.stripe;
        let from = first_byte(set, stripe);
        write!(
            text,
            "unrecoverable: stripe {stripe}, from byte {from} on: fragments "
        )?;
        push_numbers(text, bits_of(set.header.code, stopped.lost))?;
        text.push_str(" are lost\n")?;
        return Ok(());
    }
    let written = joined.written;
    let ending = plural(written);
    writeln!(text, "{to}: {written} byte{ending}, {read} bytes read")?;
    if joined.degraded > 0 {
        let degraded = joined.degraded;
        let ending = plural(degraded);
        writeln!(
            text,
            "lost fragments were rebuilt in {degraded} stripe{ending}"
        )?;
    }
    Ok(())
}

/// Joins a set.
fn join_set<R: Files<File = File> + AllocGlobal + Threads + Sync + Print>(
    rt: &R,
    line: &JoinLine,
    set: &Set,
) -> Result<Joined, Failure> {
    let range = range_of(rt.alloc(), set, line.range)?;
    if line.to == "-" {
        let mut output = io::writer(rt);
        return join_to(rt, set, range, &mut output, "standard output", line.threads);
    }
    check_folder(rt, parent_of(line.to))?;
    join(rt, set, range, line.to, line.force, line.threads)
}

/// How a join ended.
fn status_of(set: &Set, joined: &Joined) -> Status {
    if is_incomplete(set) {
        joined.status().or(Status::Recoverable)
    } else {
        joined.status()
    }
}

/// Runs `lrc join`, and appends what was joined.
pub(crate) fn join_file<
    R: Files<File = File> + AllocGlobal + Threads + Sync + Print + Clone + Drop,
>(rt: &R, line: &JoinLine, text: &mut String) -> Result<Status, Failure> {
    let (set, strays) = set_of(rt, line.fragments.as_slice(), line.id)?;
    let joined = join_set(rt, line, &set)?;
    let status = status_of(&set, &joined);
    if line.json {
        push_join_object(
            rt.alloc(),
            text,
            line,
            &set,
            strays.as_slice(),
            &joined,
            status,
        )?;
    } else {
        push_strays(text, strays.as_slice())?;
        push_joined(text, &set, line.to, &joined)?;
    }
    Ok(status)
}
