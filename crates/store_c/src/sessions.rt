//! Opening, splitting, joining and closing.
ghost use Rattle.std.specs.Prelude.{◌≡◌, ◌⊎◌, None, Some};
ghost use Rattle.store_c.specs.Journal.{IsCloseTo, IsCloseToCall};
ghost use Rattle.history.specs.Log.{call_limit};
ghost use Rattle.store_c.specs.Sessions.{IsOpening, IsOpeningWith, IsSplitTo, IsSplitCall};
ghost use Rattle.store_c.specs.Sessions.{IsJoinCall, AreOfOneStore, IsLearn, IsLearnCall};
ghost use Rattle.store_c.specs.Sessions.{IsCloseCall, HasHistory};

use crate::answers::number_of;
use crate::places::{fill, make_room, put_in};
use crate::status::{BAD_ARGUMENT, DONE, EMPTY, NO_MEMORY, NOT_ALONE, OCCUPIED};
use session::{Book, Held, Limit, Session, Slot, is_lawful_from};
use std::alloc::Global;

pub(crate) fn open(alloc: Global, width: u32, limit: u32, number: u64, slot: &mut Slot) -> u32
    requires { slot.old.held ≡ None }
    ensures { IsOpening width limit number result slot.new.held }
{
    let Some(limit) = Limit::new(limit) else {
        return BAD_ARGUMENT;
    };
    open_with(alloc, width, Some(limit), number, slot)
}

/// Does the same with a limit that is in range, or without a journal.
pub(crate) fn open_with(
    alloc: Global,
    width: u32,
    limit: Option<Limit>,
    number: u64,
    slot: &mut Slot,
) -> u32
    requires { slot.old.held ≡ None }
    ensures { IsOpeningWith width (call_limit limit) number result slot.new.held }
{
    let Some(room) = make_room(alloc) else {
        return NO_MEMORY;
    };
    match Session::open(alloc, width, limit) {
        Ok(session) => {
            fill(room, Held::Session { session, number }, slot);
            DONE
        }
        Err(fault) => {
            drop(room);
            number_of(fault)
        }
    }
}

pub(crate) fn split(alloc: Global, held: &mut Option<Held>, who: u32, other: &mut Slot) -> u32
    ensures { IsSplitCall held.old other.old.held who result held.new other.new.held }
{
    match held {
        Some(held) => match held {
            Held::Session { session, number } => split_to(alloc, session, *number, who, other),
            _ => EMPTY,
        },
        None => EMPTY,
    }
}

fn split_to(alloc: Global, session: &mut Session, number: u64, who: u32, other: &mut Slot) -> u32
    ensures { IsSplitTo session.old number other.old.held who result session.new other.new.held }
{
    if !other.is_vacant(alloc) {
        return OCCUPIED;
    }
    let Some(room) = make_room(alloc) else {
        return NO_MEMORY;
    };
    match session.split(who) {
        Ok(session) => {
            fill(room, Held::Session { session, number }, other);
            DONE
        }
        Err(fault) => {
            drop(room);
            number_of(fault)
        }
    }
}

pub(crate) fn join(held: &mut Option<Held>, given: &mut Option<Held>) -> u32
    requires { AreOfOneStore held.old given.old }
    ensures { IsJoinCall held.old given.old result held.new given.new }
{
    match held {
        Some(held) => match held {
            Held::Session { session, number } => join_at(session, *number, given),
            _ => EMPTY,
        },
        None => EMPTY,
    }
}

/// Does the same with the session that the first slot holds.
fn join_at(session: &mut Session, number: u64, given: &mut Option<Held>) -> u32
    requires { AreOfOneStore (Some (Held.Session session.old number)) given.old }
    ensures { IsJoinCall (Some (Held.Session session.old number)) given.old result
        (Some (Held.Session session.new number)) given.new }
{
    match given.take() {
        Some(
            Held::Session {
                session: other,
                number: theirs,
            },
        ) => {
            if theirs != number {
                put_in(
                    given,
                    Some(Held::Session {
                        session: other,
                        number: theirs,
                    }),
                );
                return BAD_ARGUMENT;
            }
            session.join(other);
            DONE
        }
        kept => {
            put_in(given, kept);
            EMPTY
        }
    }
}

pub(crate) fn learn(held: &mut Option<Held>, given: &mut Option<Held>) -> u32
    requires { AreOfOneStore held.old given.old }
    ensures { IsLearnCall held.old given.old result held.new given.new }
{
    match held {
        Some(held) => match held {
            Held::Session { session, number } => learn_from(session, *number, given),
            _ => EMPTY,
        },
        None => EMPTY,
    }
}

/// Does the same with the session that the first slot holds.
fn learn_from(session: &mut Session, number: u64, given: &mut Option<Held>) -> u32
    requires { AreOfOneStore (Some (Held.Session session.old number)) given.old }
    ensures { IsLearnCall (Some (Held.Session session.old number)) given.old result
        (Some (Held.Session session.new number)) given.new }
{
    match given {
        Some(given) => match given {
            Held::Session {
                session: other,
                number: theirs,
            } => learn_if(session, number, other, *theirs),
            _ => EMPTY,
        },
        None => EMPTY,
    }
}

/// Has the first session learn of the second, if they are of one store.
fn learn_if(session: &mut Session, number: u64, other: &mut Session, theirs: u64) -> u32
    requires { theirs ≡ number → other.old.store ≡ session.old.store }
    ensures call { IsLearn session.old number other.old theirs result session.new }
    ensures unchanged { other.new ≡ other.old }
{
    if theirs != number {
        return BAD_ARGUMENT;
    }
    session.learn(other);
    DONE
}

pub(crate) fn close(
    alloc: Global,
    held: &mut Option<Held>,
    entries: &mut u64,
    lawful: &mut u32,
) -> u32
    ensures { IsCloseCall held.old result (entries.old, lawful.old) (entries.new, lawful.new)
        held.new }
{
    let mut journal = None;
    let mut discarded = 0;
    close_to(alloc, held, &mut journal, &mut discarded, entries, lawful)
}

/// Does the same and returns the journal.
pub(crate) fn close_to(
    alloc: Global,
    held: &mut Option<Held>,
    given: &mut Option<Held>,
    discarded: &mut u64,
    entries: &mut u64,
    lawful: &mut u32,
) -> u32
    requires { given.old ≡ None }
    ensures { IsCloseTo held.old result (discarded.old, entries.old, lawful.old)
        (discarded.new, entries.new, lawful.new) held.new given.new }
{
    match held.take() {
        Some(Held::Session { session, number }) => match session.close() {
            Ok(book) => {
                *entries = book.entries().len() as u64;
                *discarded = book.calls() - *entries;
                *lawful = lawful_number(alloc, &book);
                put_in(given, Some(Held::Journal(book)));
                DONE
            }
            Err(session) => {
                put_in(held, Some(Held::Session { session, number }));
                NOT_ALONE
            }
        },
        kept => {
            put_in(held, kept);
            EMPTY
        }
    }
}

/// Closes the store of the slot's session, and puts its journal into the other slot.
pub(crate) fn close_slot(
    alloc: Global,
    slot: &mut Slot,
    other: &mut Slot,
    discarded: &mut u64,
    entries: &mut u64,
    lawful: &mut u32,
) -> u32
    requires { other.old.held ≡ None }
    ensures { IsCloseToCall slot.old.held None result (discarded.old, entries.old, lawful.old)
        (discarded.new, entries.new, lawful.new) slot.new.held other.new.held }
{
    let Some(mut given) = make_room(alloc) else {
        return NO_MEMORY;
    };
    let Some(mut held) = slot.take(alloc) else {
        drop(given);
        return EMPTY;
    };
    let status = close_to(alloc, &mut held, &mut given, discarded, entries, lawful);
    if held.is_some() {
        slot.put(held);
    }
    if given.is_some() {
        other.put(given);
    }
    status
}

/// Whether the entries of a book are lawful: 1, or 2 if there was no memory to check it, or no
/// journal.
fn lawful_number(alloc: Global, book: &Book) -> u32
    requires { HasHistory book.now }
    ensures { (result ≡ 1) ⊎ (result ≡ 2) }
{
    if book.limit().is_none() {
        return 2;
    }
    match is_lawful_from(alloc, book.base(), book.entries(), book.width()) {
        Ok(true) => 1,
        Ok(false) => 0,
        Err(_) => 2,
    }
}
