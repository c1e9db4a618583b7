//! Runs of jobs.
ghost use Rattle.std.specs.Prelude.{◌≡◌};

use super::{answers, beginning, is_lawful_book, letters, lose, put, trim};
use crate::tests::compare;
use book::{Book, Fault, Name, Note};
use bytes::Bytes;
use lrc_code::Code;
use named_calls::WaitingCalls;
use shared::{Ask, Cause, Job, Pace, Pass, Reply, RowReply, Store};
use std::alloc::Global;
use std::process::Abort;
use std::sync::Wait;
use std::sync::atomic::{AtomicU64, Ordering};

/// Goes on up to a row, and counts the rows that were done.
#[derive(Drop)]
struct UpTo {
    last: u32,
    done: AtomicU64,
}

impl Pace for UpTo {
    fn before(&self, row: u32) -> bool {
        row <= self.last
    }

    fn after(&self, _row: u32) {
        self.done.fetch_add(1, Ordering::SeqCst);
    }
}

fn up_to(last: u32) -> UpTo {
    UpTo {
        last,
        done: AtomicU64::new(0),
    }
}

/// A reply, with what is noted of its answer in place of the answer.
#[derive(Clone, Copy, Debug, PartialEq, Eq)]
enum Noted {
    Made(Note),
    Refused(Fault),
    Trimmed(u64),
}

fn note_reply(reply: &Reply) -> Noted {
    match reply {
        Reply::Made(answer) => Noted::Made(answer.note()),
        Reply::Refused(fault) => Noted::Refused(*fault),
        Reply::Trimmed(count) => Noted::Trimmed(*count),
    }
}

/// That these replies came.
fn come(rt: &impl Abort, replies: &[RowReply], wanted: &[Noted]) {
    compare(rt, replies.len(), wanted.len());
    for (reply, want) in replies.iter().zip(wanted) {
        compare(rt, note_reply(&reply.reply), *want);
    }
}

/// Adds a job in this row.
fn add(rt: &impl Abort, jobs: &mut Vec<Job>, row: u32, ask: Ask) {
    jobs.push(Job { row, ask }).expect(rt, "memory");
}

fn put_of(name: &Name, code: Code, bytes: Bytes) -> Ask {
    let name = name.duplicate();
    Ask::Put { name, code, bytes }
}

fn stat_of(name: &Name) -> Ask {
    let name = name.duplicate();
    Ask::Stat { name }
}

fn repair_of(name: &Name, stripe: u64, fragment: u64) -> Ask {
    let name = name.duplicate();
    Ask::Repair {
        name,
        stripe,
        fragment,
    }
}

/// A byte more than 4,096 stripes of LRC(6,2,2) hold.
fn too_many(rt: &impl Abort, alloc: Global) -> Bytes {
    let zeros = vec![in alloc; 0; 24577].expect(rt, "memory");
    Bytes::from_vec(zeros).expect(rt, "memory")
}

/// A put, a read and a `stat`.
fn first_three(rt: &impl Abort, alloc: Global, a: &Name) -> Vec<Job> {
    let mut jobs = Vec::new(alloc);
    add(rt, &mut jobs, 1, put_of(a, Code::Wide, letters()));
    let read = Ask::Read {
        name: a.duplicate(),
        start: 3,
        len: 4,
    };
    add(rt, &mut jobs, 2, read);
    add(rt, &mut jobs, 3, stat_of(a));
    jobs
}

/// A put, a read, a `stat`, a put of a byte more than 4,096 stripes hold, a trim, and a `stat`
/// again.
fn with_a_trim(rt: &impl Abort, alloc: Global, a: &Name) -> Vec<Job> {
    let mut jobs = first_three(rt, alloc, a);
    let long = put_of(a, Code::Small, too_many(rt, alloc));
    add(rt, &mut jobs, 4, long);
    add(rt, &mut jobs, 5, Ask::Trim { keep: 0 });
    add(rt, &mut jobs, 6, stat_of(a));
    jobs
}

const ONE_STRIPE: Note = Note::Shape {
    version: 1,
    len: 12,
    stripes: 1,
    lost: 0,
};

const WITH_A_TRIM: [Noted; 6] = [
    Noted::Made(Note::Stored(1)),
    Noted::Made(Note::Granted(1)),
    Noted::Refused(Fault::JournalFull),
    Noted::Refused(Fault::TooLong),
    Noted::Trimmed(2),
    Noted::Made(ONE_STRIPE),
];

/// That a pace counted so many rows.
fn counted(rt: &impl Abort, pace: &UpTo, rows: u64) {
    compare(rt, pace.done.load(Ordering::SeqCst), rows);
}

/// Runs all jobs, with these replies.
fn run_all<R: Wait + Abort>(
    rt: &R,
    alloc: Global,
    store: &Store,
    pass: &mut Pass,
    jobs: Vec<Job>,
    wanted: &[Noted],
)
    requires { pass.old.store ≡ store.now }
    ensures { (pass.new.store ≡ store.now) × (pass.new.room ≡ pass.old.room) }
{
    let pace = up_to(6);
    let Ok(replies) = store.run(rt, alloc, pass, jobs, &pace) else {
        panic!(rt; "the run stopped");
    };
    come(rt, &replies, wanted);
    counted(rt, &pace, wanted.len() as u64);
}

/// That so many calls of a book were discarded and so many are entries, which are lawful.
fn ends_with(rt: &impl Abort, alloc: Global, book: &Book, calls: (u64, usize)) {
    compare(rt, (book.base().trimmed, book.entries().len()), calls);
    assert!(rt; is_lawful_book(rt, alloc, book));
}

#[test]
fn a_run_passes_over_what_is_refused(rt: HostRuntime) {
    let alloc = rt.alloc();
    let (store, mut p, a) = beginning(&rt, alloc, 2);
    let jobs = with_a_trim(&rt, alloc, &a);
    run_all(&rt, alloc, &store, &mut p, jobs, &WITH_A_TRIM);
    ends_with(&rt, alloc, &store.close(p), (2, 1));
}

#[test]
fn a_run_stops_where_it_is_told_to(rt: HostRuntime) {
    let alloc = rt.alloc();
    let (store, mut p, a) = beginning(&rt, alloc, 2);
    let pace = up_to(3);
    let Err(stopped) = store.run(&rt, alloc, &mut p, with_a_trim(&rt, alloc, &a), &pace) else {
        panic!(rt; "the run went on");
    };
    come(&rt, &stopped.done, &WITH_A_TRIM[..3]);
    compare(&rt, stopped.cause, Cause::Paused);
    counted(&rt, &pace, 3);
}

/// The loss of a fragment of the second stripe, its repair twice, and a deletion.
fn with_a_repair(rt: &impl Abort, alloc: Global, a: &Name) -> Vec<Job> {
    let mut jobs = Vec::new(alloc);
    let lose = Ask::Lose {
        name: a.duplicate(),
        stripe: 1,
        fragment: 9,
    };
    add(rt, &mut jobs, 1, lose);
    add(rt, &mut jobs, 2, repair_of(a, 1, 9));
    add(rt, &mut jobs, 3, repair_of(a, 1, 9));
    let delete = Ask::Delete {
        name: a.duplicate(),
    };
    add(rt, &mut jobs, 4, delete);
    jobs
}

const WITH_A_REPAIR: [Noted; 4] = [
    Noted::Made(Note::Lost(1)),
    Noted::Made(Note::Repaired(1)),
    Noted::Made(Note::NotLost),
    Noted::Made(Note::Deleted(1)),
];

#[test]
fn a_run_loses_and_repairs(rt: HostRuntime) {
    let alloc = rt.alloc();
    let (store, mut p, a) = beginning(&rt, alloc, 8);
    let stored = store.put_as(&rt, alloc, &mut p, a.duplicate(), letters(), Code::Small);
    answers(&rt, stored, Note::Stored(1));
    let jobs = with_a_repair(&rt, alloc, &a);
    run_all(&rt, alloc, &store, &mut p, jobs, &WITH_A_REPAIR);
}

/// Plans a mend of this fragment of the first stripe alone.
fn plan_one<R: Wait + Abort>(rt: &R, alloc: Global, store: &Store, pass: &mut Pass, f: u8)
    requires { pass.old.store ≡ store.now }
    ensures { pass.new.store ≡ store.now }
{
    let plan = store.plan(rt, alloc, pass).expect(rt, "memory");
    compare(rt, plan.items.len(), 1);
    let item = plan.items.first().expect(rt, "an item");
    compare(rt, (item.version, item.stripe, item.f), (1, 0, f));
}

#[test]
fn a_plan_after_a_trim(rt: HostRuntime) {
    let alloc = rt.alloc();
    let (store, mut p, a) = beginning(&rt, alloc, 8);
    put(&rt, alloc, &store, &mut p, &a, letters(), 1);
    lose(&rt, alloc, &store, &mut p, &a, 5);
    trim(&rt, alloc, &store, &mut p, 1, 1);
    plan_one(&rt, alloc, &store, &mut p, 5);
    assert!(rt; p.room() == 64);
    let book = store.close(p);
    compare(&rt, (book.base().trimmed, book.entries().len()), (1, 1));
}
