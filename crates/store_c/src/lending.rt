//! Lent ranges.
ghost use Rattle.std.specs.Prelude.{◌≡◌, None};
ghost use Rattle.store_c.specs.Lend.{IsLend, IsLendTo};

use crate::answers::{name_of, write_version};
use crate::places::{fill, make_room};
use crate::status::{BAD_NAME, DONE, NO_MEMORY, NOT_REBUILT, OCCUPIED};
use session::{Answer, Held, Lending, Session, Slot};
use std::alloc::Global;

fn lend(
    alloc: Global,
    session: &mut Session,
    name: &[u8],
    start: u64,
    len: u64,
    other: &mut Slot,
    version: &mut u64,
    pieces: &mut u64,
) -> u32
    requires { other.old.held ≡ None }
    ensures { IsLend session.old name.now start len result version.old version.new
        (pieces.old, pieces.new) session.new other.new.held }
{
    let Some(name) = name_of(name) else {
        return BAD_NAME;
    };
    let Some(room) = make_room(alloc) else {
        return NO_MEMORY;
    };
    let reply = session.read(name, start, len);
    let status = write_version(&reply, version);
    let Ok(Answer::Granted(grant)) = reply else {
        drop(room);
        return status;
    };
    match Lending::of_read(alloc, grant) {
        Ok(lending) => {
            *pieces = lending.len();
            fill(room, Held::Lending(lending), other);
            DONE
        }
        Err(_) => {
            drop(room);
            NOT_REBUILT
        }
    }
}

/// Does the same if the other slot is empty.
pub(crate) fn lend_to(
    alloc: Global,
    session: &mut Session,
    name: &[u8],
    start: u64,
    len: u64,
    other: &mut Slot,
    version: &mut u64,
    pieces: &mut u64,
) -> u32
    ensures { IsLendTo session.old other.old.held name.now start len result
        (version.old, version.new) (pieces.old, pieces.new) session.new other.new.held }
{
    if !other.is_vacant(alloc) {
        return OCCUPIED;
    }
    lend(alloc, session, name, start, len, other, version, pieces)
}
