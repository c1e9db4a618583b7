//! The calls on a session, with the arguments that C passed. Each is a function of its own, with
//! the contract that the function for C hands on.
ghost use Rattle.std.specs.Prelude.{◌≡◌};
ghost use Rattle.history.specs.Step.{put as put_of, lose as lose_of, repair as repair_of};
ghost use Rattle.history.specs.Step.{delete as delete_of};
ghost use Rattle.store_c.specs.OnSession.{IsNamedCall, IsPutCall, IsReadCall, IsStatCall};
ghost use Rattle.store_c.specs.OnSession.{IsTrimCall, IsTrimPartCall, HasSomeReply};

use crate::answers::{name_of, number_of, put_arguments, write_shape, write_version};
use crate::status::{BAD_NAME, DONE, NOT_REBUILT};
use session::{Answer, Code, Name, Session, copy_out};
use std::alloc::Global;

pub(crate) fn put(
    alloc: Global,
    session: &mut Session,
    name: &[u8],
    blob: &[u8],
    data_fragments: u32,
    version: &mut u64,
) -> u32
    ensures { IsPutCall session.old name.now blob.now data_fragments result version.old version.new
        session.new }
{
    let (name, code) = match put_arguments(name, data_fragments) {
        Ok(arguments) => arguments,
        Err(status) => return status,
    };
    put_copy(alloc, session, name, blob, code, version)
}

/// Puts a copy of a blob with a name in a code.
fn put_copy(
    alloc: Global,
    session: &mut Session,
    name: Name,
    blob: &[u8],
    code: Code,
    version: &mut u64,
) -> u32
    ensures { HasSomeReply session.old (put_of name code blob.now) result version.old version.new
        session.new }
{
    let reply = session.put_copy(alloc, name, blob, code);
    write_version(&reply, version)
}

pub(crate) fn read(
    alloc: Global,
    session: &mut Session,
    name: &[u8],
    start: u64,
    target: &mut [u8],
    version: &mut u64,
    lent: &mut u64,
    built: &mut u64,
) -> u32
    ensures { IsReadCall session.old name.now start target.old target.new result version.old
        version.new (lent.old, built.old) (lent.new, built.new) session.new }
{
    let Some(name) = name_of(name) else {
        return BAD_NAME;
    };
    let reply = session.read(name, start, target.len() as u64);
    let status = write_version(&reply, version);
    let Ok(Answer::Granted(grant)) = reply else {
        return status;
    };
    match copy_out(alloc, &grant, target) {
        Ok(copied) => {
            *lent = copied.lent;
            *built = copied.built;
            DONE
        }
        Err(_) => NOT_REBUILT,
    }
}

pub(crate) fn lose(
    alloc: Global,
    session: &mut Session,
    name: &[u8],
    stripe: u64,
    fragment: u64,
    version: &mut u64,
) -> u32
    ensures { IsNamedCall session.old name.now (λ n. lose_of n stripe fragment) result version.old
        version.new session.new }
{
    let Some(name) = name_of(name) else {
        return BAD_NAME;
    };
    let reply = session.lose(alloc, name, stripe, fragment);
    write_version(&reply, version)
}

pub(crate) fn repair(
    alloc: Global,
    session: &mut Session,
    name: &[u8],
    stripe: u64,
    fragment: u64,
    version: &mut u64,
) -> u32
    ensures { IsNamedCall session.old name.now (λ n. repair_of n stripe fragment) result version.old
        version.new session.new }
{
    let Some(name) = name_of(name) else {
        return BAD_NAME;
    };
    let reply = session.repair(alloc, name, stripe, fragment);
    write_version(&reply, version)
}

pub(crate) fn delete(session: &mut Session, name: &[u8], version: &mut u64) -> u32
    ensures { IsNamedCall session.old name.now (λ n. delete_of n) result version.old version.new
        session.new }
{
    let Some(name) = name_of(name) else {
        return BAD_NAME;
    };
    let reply = session.delete(name);
    write_version(&reply, version)
}

pub(crate) fn stat(
    session: &mut Session,
    name: &[u8],
    version: &mut u64,
    len: &mut u64,
    stripes: &mut u64,
    lost: &mut u64,
) -> u32
    ensures { IsStatCall session.old name.now result version.old version.new
        (len.old, stripes.old, lost.old) (len.new, stripes.new, lost.new) session.new }
{
    let Some(name) = name_of(name) else {
        return BAD_NAME;
    };
    let reply = session.stat(name);
    write_shape(&reply, len, stripes, lost);
    write_version(&reply, version)
}

pub(crate) fn trim(alloc: Global, session: &mut Session, keep: u64, discarded: &mut u64) -> u32
    ensures { IsTrimCall session.old keep result discarded.old discarded.new session.new }
{
    match session.trim(alloc, keep) {
        Ok(count) => {
            *discarded = count;
            DONE
        }
        Err(fault) => number_of(fault),
    }
}

pub(crate) fn trim_part(
    alloc: Global,
    session: &mut Session,
    keep: u64,
    most: u64,
    discarded: &mut u64,
) -> u32
    ensures { IsTrimPartCall session.old keep most result discarded.old discarded.new session.new }
{
    match session.trim_part(alloc, keep, most) {
        Ok(count) => {
            *discarded = count;
            DONE
        }
        Err(fault) => number_of(fault),
    }
}
