//! Workers who mend a store.
ghost use Rattle.std.specs.Prelude.{◌≡◌, ◌<◌};
ghost use Rattle.std.specs.List.{All};

use super::{Call, closed, compare, fragment, make, name_of, opened};
use book::{Answer, Book, Fault, Name, Note, Plan, is_lawful};
use bytes::Bytes;
use mender::{Done, Drawer, Gather, Report, Tickets, WorkFault, gather, scrub, work};
use sealed::{Sealed, seal};
use shared::{Pass, Store};
use std::alloc::Global;
use std::process::Abort;
use std::sync::Wait;
use std::thread::{Threads, map_vec};

/// A worker with a pass and a drawer. A worker that puts does not draw: it puts each name anew
/// meanwhile.
#[derive(Drop)]
struct Worker {
    pass: Pass,
    drawer: Drawer,
    puts: bool,
}

/// What came of it.
#[derive(Drop)]
struct Worked {
    worker: Worker,
    result: Result<Vec<Done>, WorkFault>,
}

impl Worker {
    fn work<R: Wait>(
        self,
        rt: &R,
        alloc: Global,
        store: &Store,
        plan: &Plan,
        tickets: &Tickets,
    ) -> Worked
        requires { (self.pass.store ≡ store.now) × (self.drawer.tickets ≡ tickets.now) }
        ensures { (result.worker.pass.store ≡ store.now)
            × (result.worker.drawer.tickets ≡ tickets.now) }
    {
        let Worker {
            mut pass,
            mut drawer,
            puts,
        } = self;
        let result = if puts {
            put_often(rt, alloc, store, &mut pass)
        } else {
            work(rt, alloc, store, &mut pass, plan, tickets, &mut drawer)
        };
        Worked {
            worker: Worker { pass, drawer, puts },
            result,
        }
    }
}

/// A worker with this label, whose pass and drawer are split from the first ones.
fn split_worker(
    rt: &impl Abort,
    who: u32,
    puts: bool,
    store: &Store,
    pass: &mut Pass,
    tickets: &Tickets,
    drawer: &mut Drawer,
) -> Worker
    requires { (pass.old.store ≡ store.now) × (drawer.old.tickets ≡ tickets.now) }
    ensures first { (pass.new.store ≡ store.now) × (drawer.new.tickets ≡ tickets.now) }
    ensures worker { (result.pass.store ≡ store.now) × (result.drawer.tickets ≡ tickets.now) }
{
    let pass = pass.split(store, who).expect(rt, "memory");
    let drawer = drawer.split(tickets).expect(rt, "memory");
    Worker { pass, drawer, puts }
}

/// So many workers, and perhaps one more who puts.
fn crew(
    rt: &impl Abort,
    alloc: Global,
    count: u32,
    beside_puts: bool,
    store: &Store,
    pass: &mut Pass,
    tickets: &Tickets,
    drawer: &mut Drawer,
) -> Vec<Worker>
    requires first { (pass.old.store ≡ store.now) × (drawer.old.tickets ≡ tickets.now) }
    requires few { count < 64 }
    ensures first { (pass.new.store ≡ store.now) × (drawer.new.tickets ≡ tickets.now) }
    ensures crew { All (λ w. (w.pass.store ≡ store.now)
        × (w.drawer.tickets ≡ tickets.now)) result.items }
{
    let mut crew = Vec::new(alloc);
    for who in 0..count + u32::from(beside_puts) {
        let worker = split_worker(rt, who, who == count, store, pass, tickets, drawer);
        crew.push(worker).expect(rt, "memory");
    }
    crew
}

/// Adds the results of a worker that was not stopped.
fn add_results(rt: &impl Abort, all: &mut Vec<Done>, ended: Result<Vec<Done>, WorkFault>) {
    let mut done = ended.expect(rt, "a worker that ends");
    all.append(&mut done).expect(rt, "memory");
}

/// Joins the passes and drawers to the first ones. All results are given back.
fn disband(
    rt: &impl Abort,
    alloc: Global,
    crew: Vec<Worked>,
    store: &Store,
    pass: &mut Pass,
    tickets: &Tickets,
    drawer: &mut Drawer,
) -> Vec<Done>
    requires first { (pass.old.store ≡ store.now) × (drawer.old.tickets ≡ tickets.now) }
    requires crew { All (λ w. (w.worker.pass.store ≡ store.now)
        × (w.worker.drawer.tickets ≡ tickets.now)) crew.items }
    ensures { pass.new.store ≡ store.now }
{
    let mut all = Vec::new(alloc);
    for Worked { worker, result } in crew {
        pass.join(store, worker.pass);
        drawer.join(tickets, worker.drawer);
        add_results(rt, &mut all, result);
    }
    all
}

/// The results of so many workers for a plan, perhaps beside one more who puts.
fn work_together<R: Threads + Wait + Sync + Abort>(
    rt: &R,
    alloc: Global,
    count: u32,
    beside_puts: bool,
    store: &Store,
    pass: &mut Pass,
    plan: &Plan,
    tickets: &Tickets,
    drawer: &mut Drawer,
) -> Vec<Done>
    requires first { (pass.old.store ≡ store.now) × (drawer.old.tickets ≡ tickets.now) }
    requires few { count < 64 }
    ensures { pass.new.store ≡ store.now }
{
    let crew = crew(rt, alloc, count, beside_puts, store, pass, tickets, drawer);
    let crew = map_vec(
        rt,
        crew,
        &|worker: Worker| -> Worked
            requires { (worker.pass.store ≡ store.now) × (worker.drawer.tickets ≡ tickets.now) }
            ensures { (result.worker.pass.store ≡ store.entry.now)
                × (result.worker.drawer.tickets ≡ tickets.entry.now) }
        { worker.work(rt, alloc, store, plan, tickets) },
    )
    .expect(rt, "memory");
    disband(rt, alloc, crew, store, pass, tickets, drawer)
}

/// Mends what is lost by so many workers, perhaps beside one more who puts.
fn mend<R: Threads + Wait + Sync + Abort>(
    rt: &R,
    alloc: Global,
    count: u32,
    beside_puts: bool,
    store: &Store,
    pass: &mut Pass,
) -> Result<Report, Gather>
    requires store { pass.old.store ≡ store.now }
    requires few { count < 64 }
    ensures { pass.new.store ≡ store.now }
{
    let (plan, tickets, mut drawer) = scrub(rt, alloc, store, pass).expect(rt, "memory");
    let done = work_together(
        rt,
        alloc,
        count,
        beside_puts,
        store,
        pass,
        &plan,
        &tickets,
        &mut drawer,
    );
    gather(alloc, &plan, done)
}

/// Puts these bytes under a name, and loses fragments 0 and 6.
fn put_and_lose_two<R: Wait>(
    rt: &R,
    alloc: Global,
    store: &Store,
    pass: &mut Pass,
    name: &Name,
    bytes: &'static [u8],
) -> Result<(), Fault>
    requires { pass.old.store ≡ store.now }
    ensures { pass.new.store ≡ store.now }
{
    for call in &[Call::Put(bytes), Call::Lose(0), Call::Lose(6)] {
        make(rt, alloc, store, pass, name, *call)?;
    }
    Ok(())
}

/// A store with a blob `a` of twelve bytes, of which two fragments are lost.
fn two_lost<R: Wait + Abort>(rt: &R, alloc: Global, limit: u32) -> (Store, Pass, Name)
    ensures { result.1.store ≡ result.0 }
{
    let (store, mut pass) = opened(rt, alloc, limit);
    let name = name_of(rt, "a");
    put_and_lose_two(rt, alloc, &store, &mut pass, &name, b"ABCDEFGHIJKL").expect(rt, "memory");
    (store, pass, name)
}

/// The book of a store, whose journal is lawful.
fn lawful_book(rt: &impl Abort, alloc: Global, store: Store, pass: Pass) -> Book
    requires { pass.store ≡ store }
{
    let book = closed(rt, store, pass);
    assert!(rt; is_lawful(alloc, book.entries(), book.width()).expect(rt, "memory"));
    book
}

const TWO_REPAIRED: Report = Report {
    repaired: 2,
    not_lost: 0,
    gone: 0,
    unrecoverable: 0,
};

const NONE_LOST: Note = Note::Shape {
    version: 1,
    len: 12,
    stripes: 1,
    lost: 0,
};

/// The book of a store in which so many workers mended two lost fragments.
fn mended<R: Threads + Wait + Sync + Abort>(rt: &R, alloc: Global, count: u32) -> Book
    requires { count < 64 }
{
    let (store, mut pass, name) = two_lost(rt, alloc, 100);
    let report = mend(rt, alloc, count, false, &store, &mut pass);
    compare(rt, report, Ok(TWO_REPAIRED));
    let stat = make(rt, alloc, &store, &mut pass, &name, Call::Stat);
    compare(rt, stat, Ok(NONE_LOST));
    lawful_book(rt, alloc, store, pass)
}

#[test]
fn any_number_of_workers_mends_all(rt: HostRuntime) {
    let alloc = rt.alloc();
    for count in &[1, 2, 16] {
        let book = mended(&rt, alloc, *count);
        compare(&rt, book.entries().len(), 6);
    }
}

/// The one result of a worker that met a full journal.
fn done_till_full(rt: &impl Abort, ended: Result<Vec<Done>, WorkFault>) -> Vec<Done> {
    let Err(WorkFault { fault, done }) = ended else {
        panic!(rt; "the journal was not full")
    };
    compare(rt, fault, Fault::JournalFull);
    assert!(rt; is_first(&done));
    done
}

/// Whether the first ticket has the only result: a fragment of the first version is repaired.
fn is_first(done: &[Done]) -> bool {
    match done {
        [one] => one.ticket == 0 && matches!(one.answer, Answer::Repaired(1)),
        _ => false,
    }
}

/// Mends in vain: the journal has room for one repair.
fn mend_one<R: Wait + Abort>(rt: &R, alloc: Global, store: &Store, pass: &mut Pass)
    requires { pass.old.store ≡ store.now }
{
    let (plan, tickets, mut drawer) = scrub(rt, alloc, store, pass).expect(rt, "memory");
    let result = work(rt, alloc, store, pass, &plan, &tickets, &mut drawer);
    let done = done_till_full(rt, result);
    compare(rt, gather(alloc, &plan, done), Err(Gather::Missing));
}

#[test]
fn a_full_journal_stops_a_worker(rt: HostRuntime) {
    let (store, mut pass, _) = two_lost(&rt, rt.alloc(), 4);
    mend_one(&rt, rt.alloc(), &store, &mut pass);
}

const NAMES: [&str; 8] = ["a", "b", "c", "d", "e", "f", "g", "h"];

/// The bytes that are put as this version.
fn bytes_of(version: u64) -> &'static [u8] {
    match version % 3 {
        0 => b"ABCDEFGHIJKL",
        1 => b"MNOPQRSTUVWX",
        _ => b"abcdefghijkl",
    }
}

/// Puts each name anew, and loses two fragments of it. The first of these puts has the given
/// version.
fn put_all<R: Wait>(
    rt: &R,
    alloc: Global,
    store: &Store,
    pass: &mut Pass,
    first: u64,
) -> Result<(), Fault>
    requires { pass.old.store ≡ store.now }
    ensures { pass.new.store ≡ store.now }
{
    for (place, text) in NAMES.iter().enumerate() {
        let bytes = bytes_of(first.wrapping_add(place as u64));
        put_and_lose_two(rt, alloc, store, pass, &Name::new(text)?, bytes)?;
    }
    Ok(())
}

/// Puts all names four times. The first of these puts is the ninth of all.
fn put_often<R: Wait>(
    rt: &R,
    alloc: Global,
    store: &Store,
    pass: &mut Pass,
) -> Result<Vec<Done>, WorkFault>
    requires { pass.old.store ≡ store.now }
    ensures { pass.new.store ≡ store.now }
{
    let done = Vec::new(alloc);
    for first in &[9, 17, 25, 33] {
        if let Err(fault) = put_all(rt, alloc, store, pass, *first) {
            return Err(WorkFault { fault, done });
        }
    }
    Ok(done)
}

/// Whether each fragment that is there is that of the version's own bytes.
fn is_its_own(rt: &impl Abort, alloc: Global, found: &Sealed) -> bool {
    let bytes = Bytes::from_static(bytes_of(found.version));
    let whole = seal(alloc, bytes, found.width).expect(rt, "memory");
    has_those_of(rt, found, &whole)
}

/// Whether each fragment that is there is that of the whole blob.
fn has_those_of(rt: &impl Abort, found: &Sealed, whole: &Sealed) -> bool {
    for f in 0..16u8 {
        let there = fragment(rt, found, f);
        if there.is_some() && there != fragment(rt, whole, f) {
            return false;
        }
    }
    true
}

/// Whether each name has a blob, whose fragments are its own.
fn are_their_own(rt: &impl Abort, alloc: Global, book: &Book) -> bool {
    for text in &NAMES {
        let found = book.find(&name_of(rt, text)).expect(rt, "a blob");
        if !is_its_own(rt, alloc, found) {
            return false;
        }
    }
    true
}

/// Mends by two workers beside one more who puts.
fn mend_beside_puts<R: Threads + Wait + Sync + Abort>(
    rt: &R,
    alloc: Global,
    store: &Store,
    pass: &mut Pass,
)
    requires { pass.old.store ≡ store.now }
    ensures { pass.new.store ≡ store.now }
{
    put_all(rt, alloc, store, pass, 1).expect(rt, "memory");
    let report = mend(rt, alloc, 2, true, store, pass).expect(rt, "all results");
    compare(rt, (report.gone, report.unrecoverable), (0, 0));
}

#[test]
fn work_beside_puts(rt: HostRuntime) {
    let alloc = rt.alloc();
    let (store, mut pass) = opened(&rt, alloc, 200);
    mend_beside_puts(&rt, alloc, &store, &mut pass);
    let book = lawful_book(&rt, alloc, store, pass);
    assert!(rt; are_their_own(&rt, alloc, &book));
}
