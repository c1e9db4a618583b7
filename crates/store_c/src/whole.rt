//! Whole blobs, lent in one call.
ghost use Rattle.std.specs.Prelude.{◌≡◌, None};
ghost use Rattle.store_c.specs.Get.{IsGet, IsGetTo};

use crate::answers::{name_of, number_of};
use crate::status::{BAD_NAME, NO_MEMORY, NO_NAME, NOT_REBUILT, OCCUPIED};
use crate::versions::lend;
use session::{Session, Slot};
use std::alloc::Global;

/// Lends all bytes of the version that the name's blob has, and returns the status.
fn get(
    alloc: Global,
    session: &mut Session,
    name: &[u8],
    other: &mut Slot,
    version: &mut u64,
    len: &mut u64,
    pieces: &mut u64,
) -> u32
    requires { other.old.held ≡ None }
    ensures { IsGet session.old name.now result (version.old, len.old, pieces.old)
        (version.new, len.new, pieces.new) session.new other.new.held }
{
    let Some(name) = name_of(name) else {
        return BAD_NAME;
    };
    match session.hold(name) {
        Ok(Some(held)) => {
            let whole = held.snapshot().len();
            *version = held.snapshot().version();
            *len = whole;
            let status = lend(alloc, &held, 0, whole, other, pieces);
            // The history has the read by now.
            if status == NO_MEMORY {
                NOT_REBUILT
            } else {
                status
            }
        }
        Ok(None) => NO_NAME,
        Err(fault) => number_of(fault),
    }
}

/// Does the same if the other slot is empty.
pub(crate) fn get_to(
    alloc: Global,
    session: &mut Session,
    name: &[u8],
    other: &mut Slot,
    version: &mut u64,
    len: &mut u64,
    pieces: &mut u64,
) -> u32
    ensures { IsGetTo session.old other.old.held name.now result
        (version.old, len.old, pieces.old) (version.new, len.new, pieces.new) session.new
        other.new.held }
{
    if !other.is_vacant(alloc) {
        return OCCUPIED;
    }
    get(alloc, session, name, other, version, len, pieces)
}
