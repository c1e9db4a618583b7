//! Buffers: bytes that C fills, and that are put without a copy.
ghost use Rattle.std.specs.Prelude.{◌≡◌, ◌≢◌, None, Some};
ghost use Rattle.store_c.specs.Status.{done};
ghost use Rattle.history.specs.Step.{put as put_of};
ghost use Rattle.store_c.specs.OnSession.{IsPutCall, HasSomeReply};
ghost use Rattle.store_c.specs.Buffers.{IsReserve, IsPutFrom, IsSpent};

use crate::answers::{put_arguments, write_version};
use crate::places::{fill, make_room, put_in};
use crate::status::{DONE, EMPTY, NO_MEMORY};
use session::{Bytes, Code, Held, Name, Refused, Session, Slot};
use std::alloc::Global;
use std::boxed::Box;

pub(crate) fn reserve(alloc: Global, len: usize, slot: &mut Slot) -> u32
    requires { slot.old.held ≡ None }
    ensures { IsReserve len result slot.new.held }
{
    let Some(room) = make_room(alloc) else {
        return NO_MEMORY;
    };
    match Vec::from_elem(alloc, 0u8, len) {
        Ok(bytes) => {
            fill(room, Held::Buffer(bytes), slot);
            DONE
        }
        Err(_) => {
            drop(room);
            NO_MEMORY
        }
    }
}

/// Puts the bytes of the other slot. The slot is empty afterwards, or still has them if the put was
/// refused.
pub(crate) fn put_from(
    alloc: Global,
    session: &mut Session,
    name: &[u8],
    other: &mut Slot,
    data_fragments: u32,
    version: &mut u64,
) -> u32
    ensures { IsPutFrom session.old other.old.held name.now data_fragments result
        (version.old, version.new) session.new other.new.held }
{
    let Some(mut given) = other.take(alloc) else {
        return EMPTY;
    };
    let status = put_held(alloc, session, name, &mut given, data_fragments, version);
    if given.is_some() {
        other.put(given);
    }
    status
}

fn put_held(
    alloc: Global,
    session: &mut Session,
    name: &[u8],
    given: &mut Option<Held>,
    data_fragments: u32,
    version: &mut u64,
) -> u32
    ensures { IsPutFrom session.old given.old name.now data_fragments result
        (version.old, version.new) session.new given.new }
{
    match given.take() {
        Some(Held::Buffer(bytes)) => {
            put_buffer(alloc, session, name, bytes, given, data_fragments, version)
        }
        Some(Held::Refused(refused)) => {
            put_refused(
                alloc,
                session,
                name,
                refused,
                given,
                data_fragments,
                version,
            )
        }
        kept => {
            put_in(given, kept);
            EMPTY
        }
    }
}

/// Puts the bytes of a buffer. It is still a buffer if the arguments are refused.
fn put_buffer(
    alloc: Global,
    session: &mut Session,
    name: &[u8],
    bytes: Vec<u8>,
    given: &mut Option<Held>,
    data_fragments: u32,
    version: &mut u64,
) -> u32
    requires { given.old ≡ None }
    ensures put { IsPutCall session.old name.now bytes.items data_fragments result version.old
        version.new session.new }
    ensures spent { IsSpent bytes.items result given.new }
{
    let (name, code) = match put_arguments(name, data_fragments) {
        Ok(arguments) => arguments,
        Err(status) => {
            put_in(given, Some(Held::Buffer(bytes)));
            return status;
        }
    };
    match Bytes::from_vec(bytes) {
        Ok(blob) => {
            let unsealed = Refused::of(blob);
            put_blob(alloc, session, name, unsealed, code, given, version)
        }
        Err(refused) => {
            put_in(given, Some(Held::Buffer(refused.value)));
            NO_MEMORY
        }
    }
}

/// Puts the bytes of a put that was refused. They are still sealed if the arguments are refused.
fn put_refused(
    alloc: Global,
    session: &mut Session,
    name: &[u8],
    refused: Refused,
    given: &mut Option<Held>,
    data_fragments: u32,
    version: &mut u64,
) -> u32
    requires { given.old ≡ None }
    ensures put { IsPutCall session.old name.now refused data_fragments result version.old
        version.new session.new }
    ensures spent { IsSpent refused result given.new }
{
    let (name, code) = match put_arguments(name, data_fragments) {
        Ok(arguments) => arguments,
        Err(status) => {
            put_in(given, Some(Held::Refused(refused)));
            return status;
        }
    };
    put_blob(alloc, session, name, refused, code, given, version)
}

/// Puts these bytes, and keeps them if the put is refused: sealed, if another thread was in the
/// critical section.
fn put_blob(
    alloc: Global,
    session: &mut Session,
    name: Name,
    mut refused: Refused,
    code: Code,
    given: &mut Option<Held>,
    version: &mut u64,
) -> u32
    requires { given.old ≡ None }
    ensures put { HasSomeReply session.old (put_of name code refused) result version.old
        version.new session.new }
    ensures spent { IsSpent refused result given.new }
{
    let reply = session.put_again(alloc, name, &mut refused, code);
    let status = write_version(&reply, version);
    if status != DONE {
        put_in(given, Some(Held::Refused(refused)));
    }
    status
}
