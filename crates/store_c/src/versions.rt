//! Versions of blobs that a slot holds.
ghost use Rattle.std.specs.Prelude.{◌≡◌, None, Some};
ghost use Rattle.store_c.specs.Hold.{IsHold, IsHoldTo, IsHoldCall};
ghost use Rattle.store_c.specs.Restore.{CanRestore, MayRestore, IsRestore, IsRestoreCall};
ghost use Rattle.store_c.specs.Versions.{IsShapeOf, IsLostOf, IsFragmentTo};
ghost use Rattle.store_c.specs.Versions.{IsRange, IsRangeCopy, IsRangeTo};

use crate::answers::{name_of, number_of, write_version};
use crate::places::{fill, make_room};
use crate::status::{
    ALREADY_LOST, BAD_ARGUMENT, BAD_NAME, DONE, EMPTY, NO_FRAGMENT, NO_MEMORY, NO_NAME,
    NOT_REBUILT, OCCUPIED, OUT_OF_RANGE, UNRECOVERABLE,
};
use session::{Asked, Bytes, Code, Held, Lending, LentSlice, Session, Slot, Version, copy_out};
use std::alloc::Global;

/// The shape of a version in C's layout: its number, its length in bytes, the numbers of stripes
/// and of lost fragments, the bytes of a fragment, and the data fragments of a stripe.
#[repr(C)]
#[derive(Clone, Copy, Drop)]
pub struct VersionShape {
    pub version: u64,
    pub len: u64,
    pub stripes: u64,
    pub lost: u64,
    pub width: u32,
    pub data_fragments: u32,
}

fn hold(
    alloc: Global,
    session: &mut Session,
    number: u64,
    name: &[u8],
    other: &mut Slot,
    version: &mut u64,
    len: &mut u64,
) -> u32
    requires { other.old.held ≡ None }
    ensures { IsHold session.old number name.now result (version.old, len.old)
        (version.new, len.new) session.new other.new.held }
{
    let Some(name) = name_of(name) else {
        return BAD_NAME;
    };
    let Some(room) = make_room(alloc) else {
        return NO_MEMORY;
    };
    match session.hold(name) {
        Ok(Some(held)) => {
            *version = held.snapshot().version();
            *len = held.snapshot().len();
            fill(
                room,
                Held::Version {
                    version: held,
                    number,
                },
                other,
            );
            DONE
        }
        Ok(None) => {
            drop(room);
            NO_NAME
        }
        Err(fault) => {
            drop(room);
            number_of(fault)
        }
    }
}

/// Does the same if the other slot is empty.
fn hold_to(
    alloc: Global,
    session: &mut Session,
    number: u64,
    name: &[u8],
    other: &mut Slot,
    version: &mut u64,
    len: &mut u64,
) -> u32
    ensures { IsHoldTo session.old number other.old.held name.now result (version.old, len.old)
        (version.new, len.new) session.new other.new.held }
{
    if !other.is_vacant(alloc) {
        return OCCUPIED;
    }
    hold(alloc, session, number, name, other, version, len)
}

/// Does the same by the session that the slot holds.
pub(crate) fn hold_by(
    alloc: Global,
    held: &mut Option<Held>,
    name: &[u8],
    other: &mut Slot,
    version: &mut u64,
    len: &mut u64,
) -> u32
    ensures { IsHoldCall held.old other.old.held name.now result (version.old, len.old)
        (version.new, len.new) held.new other.new.held }
{
    match held {
        Some(held) => match held {
            Held::Session { session, number } => {
                hold_to(alloc, session, *number, name, other, version, len)
            }
            _ => EMPTY,
        },
        None => EMPTY,
    }
}

/// The shape of a version.
pub(crate) fn shape_of(version: &Version) -> VersionShape
    ensures { IsShapeOf version.now.sealed result }
{
    let blob = version.snapshot();
    let data_fragments = match blob.code() {
        Code::Wide => 12,
        Code::Small => 6,
    };
    VersionShape {
        version: blob.version(),
        len: blob.len(),
        stripes: blob.stripes(),
        lost: version.count_lost(),
        width: blob.width().get(),
        data_fragments,
    }
}

/// Writes the lost fragments of a stripe, and returns the status.
pub(crate) fn lost_of(version: &Version, stripe: u64, lost: &mut u16) -> u32
    ensures { IsLostOf version.now.sealed stripe result lost.old lost.new }
{
    match version.lost_bits(stripe) {
        Some(bits) => {
            *lost = bits;
            DONE
        }
        None => NO_FRAGMENT,
    }
}

/// Lends a fragment of a stripe, and returns the status.
pub(crate) fn fragment_to<'a>(
    version: &'a Version,
    stripe: u64,
    fragment: u64,
    target: &mut LentSlice<'a>,
) -> u32
    ensures { IsFragmentTo version.now stripe fragment result target.old.bytes.now
        target.new.bytes.now }
{
    if !version.has_fragment(stripe, fragment) {
        return NO_FRAGMENT;
    }
    match version.snapshot().fragment(stripe, fragment) {
        Some(bytes) => {
            target.bytes = bytes;
            DONE
        }
        None => ALREADY_LOST,
    }
}

pub(crate) fn lend(
    alloc: Global,
    version: &Version,
    start: u64,
    len: u64,
    other: &mut Slot,
    pieces: &mut u64,
) -> u32
    requires { other.old.held ≡ None }
    ensures { IsRange version.now start len result (pieces.old, pieces.new) other.new.held }
{
    let Some(room) = make_room(alloc) else {
        return NO_MEMORY;
    };
    let grant = match version.snapshot().read(start, len) {
        Ok(Asked::Granted(grant)) => grant,
        Ok(Asked::OutOfRange) => {
            drop(room);
            return OUT_OF_RANGE;
        }
        Ok(Asked::Unrecoverable) => {
            drop(room);
            return UNRECOVERABLE;
        }
        Err(_) => {
            drop(room);
            return NO_MEMORY;
        }
    };
    match Lending::of_read(alloc, grant) {
        Ok(lending) => {
            *pieces = lending.len();
            fill(room, Held::Lending(lending), other);
            DONE
        }
        Err(_) => {
            drop(room);
            NO_MEMORY
        }
    }
}

/// Does the same if the other slot is empty.
pub(crate) fn lend_to(
    alloc: Global,
    version: &Version,
    start: u64,
    len: u64,
    other: &mut Slot,
    pieces: &mut u64,
) -> u32
    ensures { IsRangeTo version.now other.old.held start len result (pieces.old, pieces.new)
        other.new.held }
{
    if !other.is_vacant(alloc) {
        return OCCUPIED;
    }
    lend(alloc, version, start, len, other, pieces)
}

/// Copies a range of a version to `target`, and returns the status.
pub(crate) fn copy_to(alloc: Global, version: &Version, start: u64, target: &mut [u8]) -> u32
    ensures { IsRangeCopy version.now start result target.old target.new }
{
    let grant = match version.snapshot().read(start, target.len() as u64) {
        Ok(Asked::Granted(grant)) => grant,
        Ok(Asked::OutOfRange) => return OUT_OF_RANGE,
        Ok(Asked::Unrecoverable) => return UNRECOVERABLE,
        Err(_) => return NO_MEMORY,
    };
    match copy_out(alloc, &grant, target) {
        Ok(_) => DONE,
        Err(_) => NOT_REBUILT,
    }
}

/// Restores a fragment with bytes from outside, by the session and the version that the slots
/// hold.
pub(crate) fn restore_by(
    alloc: Global,
    held: &mut Option<Held>,
    given: &mut Option<Held>,
    stripe: u64,
    fragment: u64,
    bytes: &[u8],
    written: &mut u64,
) -> u32
    requires { MayRestore held.old given.old stripe fragment bytes.now }
    ensures { IsRestoreCall held.old given.old stripe fragment bytes.now result
        (written.old, written.new) held.new given.new }
{
    match held {
        Some(held) => match held {
            Held::Session { session, number } => {
                restore_of(
                    alloc, session, *number, given, stripe, fragment, bytes, written,
                )
            }
            _ => EMPTY,
        },
        None => EMPTY,
    }
}

/// Does the same by the session that the first slot holds.
fn restore_of(
    alloc: Global,
    session: &mut Session,
    number: u64,
    given: &mut Option<Held>,
    stripe: u64,
    fragment: u64,
    bytes: &[u8],
    written: &mut u64,
) -> u32
    requires { MayRestore (Some (Held.Session session.old number)) given.old stripe fragment
        bytes.now }
    ensures { IsRestoreCall (Some (Held.Session session.old number)) given.old stripe fragment
        bytes.now result (written.old, written.new) (Some (Held.Session session.new number))
        given.new }
{
    match given {
        Some(given) => match given {
            Held::Version {
                version,
                number: theirs,
            } => restore(
                alloc, session, number, version, *theirs, stripe, fragment, bytes, written,
            ),
            _ => EMPTY,
        },
        None => EMPTY,
    }
}

/// Restores a fragment with bytes from outside, if these may be a fragment of the version.
fn restore(
    alloc: Global,
    session: &mut Session,
    number: u64,
    version: &mut Version,
    theirs: u64,
    stripe: u64,
    fragment: u64,
    bytes: &[u8],
    written: &mut u64,
) -> u32
    requires { CanRestore session.old number version.old theirs stripe fragment bytes.now }
    ensures call { IsRestore session.old number version.old theirs stripe fragment bytes.now result
        (written.old, written.new) session.new }
    ensures unchanged { version.new ≡ version.old }
{
    if theirs != number {
        return BAD_ARGUMENT;
    }
    if !version.has_fragment(stripe, fragment) {
        return NO_FRAGMENT;
    }
    if bytes.len() != version.snapshot().width().get() as usize {
        return BAD_ARGUMENT;
    }
    let Ok(bytes) = Bytes::copy_from_slice(alloc, bytes) else {
        return NO_MEMORY;
    };
    let reply = session.restore(alloc, version, stripe, fragment, bytes);
    write_version(&reply, written)
}
