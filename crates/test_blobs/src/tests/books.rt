ghost use Rattle.std.specs.Prelude.{◌≡◌, ◌∷◌, ◌++◌, []};
ghost use Rattle.history.specs.History.{History};
ghost use Rattle.history.specs.Step.{put as put_of};
ghost use Rattle.book.specs.Known.{IsFragmentIn};
ghost use Rattle.book.specs.Holds.{HoldsHistory};

use book::{Answer, Book, Fault, Limit, Name, Note, Plan, is_lawful, is_lawful_from};
use bytes::Bytes;
use lrc_code::Code;
use sealed::{Width, seal};
use std::alloc::{AllocError, Global};
use std::process::Abort;

/// A book of width 1, and the name `a`.
fn beginning(rt: &impl Abort, alloc: Global, entries: u32) -> (Book, Name)
    ensures width { result.0.width ≡ 1 }
    ensures holds { HoldsHistory result.0 [] }
{
    let width = Width::new(1).expect(rt, "a width");
    let limit = Limit::new(entries).expect(rt, "a limit");
    let book = Book::new(alloc, width, limit).expect(rt, "memory");
    (book, Name::new("a").expect(rt, "a name"))
}

/// Stores bytes under a name.
fn store(rt: &impl Abort, alloc: Global, book: &mut Book, name: &Name, bytes: &'static [u8]) -> Note
    ensures width { book.new.width ≡ book.old.width }
    ensures holds { (h : History) → HoldsHistory book.old h
        → HoldsHistory book.new (h ++ record {
          who = 1;
          operation = put_of name.now Code.Wide bytes.now;
          note = result;
        } ∷ []) }
{
    let sealed = seal(alloc, Bytes::from_static(bytes), book.width()).expect(rt, "a blob");
    book.put(alloc, 1, name.duplicate(), sealed)
        .expect(rt, "memory")
        .note()
}

/// The version, start and length of a grant of three bytes, read by the second caller.
fn read_three(rt: &impl Abort, book: &mut Book, name: &Name) -> (u64, u64, u64) {
    match book.read(2, name.duplicate(), 1, 3).expect(rt, "room") {
        Answer::Granted(grant) => (grant.version(), grant.start, grant.len),
        _ => panic!(rt; "not granted"),
    }
}

/// Whether the book finds a blob of this version and length.
fn finds(book: &Book, name: &Name, version: u64, len: u64) -> bool {
    match book.find(name) {
        Some(found) => found.version == version && found.len == len,
        None => false,
    }
}

/// The callers of a lawful journal.
fn callers(rt: &impl Abort, alloc: Global, book: &Book) -> Vec<u32> {
    let mut callers = Vec::new(alloc);
    for entry in book.entries() {
        callers.push(entry.who).expect(rt, "memory");
    }
    let lawful = is_lawful(alloc, book.entries(), book.width());
    assert!(rt; lawful.expect(rt, "memory"));
    callers
}

#[test]
fn put_and_read(rt: HostRuntime) {
    let alloc = rt.alloc();
    let (mut book, name) = beginning(&rt, alloc, 2);
    assert_eq!(rt;
        store(&rt, alloc, &mut book, &name, b"HELLO"),
        Note::Stored(1)
    );
    assert_eq!(rt; read_three(&rt, &mut book, &name), (1, 1, 3));
    assert!(rt; finds(&book, &name, 1, 5));
    assert!(rt; book.is_full());
    assert!(rt; matches!(book.read(2, name, 0, 1), Err(Fault::JournalFull)));
    assert_eq!(rt; (book.limit(), book.base().trimmed), (Limit::new(2), 0));
    assert!(rt; callers(&rt, alloc, &book).as_slice() == [1, 2].as_slice());
}

#[test]
fn without_a_journal(rt: HostRuntime) {
    let alloc = rt.alloc();
    let width = Width::new(1).expect(&rt, "a width");
    let mut book = Book::with_limit(alloc, width, None).expect(&rt, "memory");
    let name = Name::new("a").expect(&rt, "a name");
    assert_eq!(rt;
        store(&rt, alloc, &mut book, &name, b"HELLO"),
        Note::Stored(1)
    );
    assert_eq!(rt; read_three(&rt, &mut book, &name), (1, 1, 3));
    assert_eq!(rt; book.trim(alloc, 0), Ok(0));
    assert!(rt; book.limit().is_none());
    assert!(rt; book.entries().is_empty());
    assert_eq!(rt; (book.calls(), book.base().trimmed), (2, 0));
}

/// A call for the name `a`.
#[derive(Clone, Copy)]
enum Step {
    /// Stores the letters from M on.
    Store,
    /// Loses a fragment of the first stripe.
    Lose(u64),
    /// Rebuilds it.
    Repair(u64),
    /// Installs an A as the first fragment, rebuilt from version 1.
    Install,
    /// Restores the first fragment of version 1: an A.
    Restore,
    /// Asks for the shape.
    Stat,
    /// Deletes the name.
    Delete,
}

/// A book that stored the letters from A on as version 1 of `a`.
fn stored_a(rt: &impl Abort, alloc: Global) -> (Book, Name)
    ensures { (h : History) × HoldsHistory result.0 h × IsFragmentIn h result.0.width result.1 1 0 0
        (65 ∷ []) }
{
    let (mut book, name) = beginning(rt, alloc, 9);
    match store(rt, alloc, &mut book, &name, b"ABCDEFGHIJKL") {
        Note::Stored(1) => (book, name),
        _ => panic!(rt; "another version"),
    }
}

/// Makes the call. What is known of version 1 stays known.
fn make(rt: &impl Abort, alloc: Global, book: &mut Book, name: &Name, step: Step) -> Note
    requires { (h : History) × HoldsHistory book.old h
        × IsFragmentIn h book.old.width name.now 1 0 0
        (65 ∷ []) }
    ensures { (h : History) × HoldsHistory book.new h × IsFragmentIn h book.new.width name.now 1 0 0
        (65 ∷ []) }
{
    let copy = name.duplicate();
    match step {
        Step::Store => store(rt, alloc, book, name, b"MNOPQRSTUVWX"),
        Step::Lose(f) => book.lose(alloc, 1, copy, 0, f).expect(rt, "memory").note(),
        Step::Repair(f) => book.repair(alloc, 1, copy, 0, f).expect(rt, "room").note(),
        Step::Install => {
            let bytes = Bytes::from_static(b"A");
            book.install(alloc, 1, copy, 1, 0, 0, bytes)
                .expect(rt, "memory")
                .note()
        }
        Step::Restore => {
            let bytes = Bytes::from_static(b"A");
            book.restore(alloc, 1, copy, 1, 0, 0, bytes)
                .expect(rt, "memory")
                .note()
        }
        Step::Stat => book.stat(1, copy).expect(rt, "room").note(),
        Step::Delete => book.delete(1, copy).expect(rt, "room").note(),
    }
}

/// The first byte, or None where its fragment is lost or the name has no blob.
fn first_byte(book: &Book, name: &Name) -> Option<u8> {
    let stripes = &book.find(name)?.stripes;
    if stripes.len() == 0 {
        return None;
    }
    stripes.fragment(0, 0)?.first().copied()
}

/// Makes the calls on the book in which version 1 was stored. Each has this note, and leaves this
/// first byte.
fn play(rt: &impl Abort, alloc: Global, rows: &[(Step, Note, Option<u8>)]) {
    let (mut book, name) = stored_a(rt, alloc);
    for (step, note, first) in rows {
        let made = make(rt, alloc, &mut book, &name, *step);
        assert_eq!(rt; (made, first_byte(&book, &name)), (*note, *first));
    }
    let lawful = is_lawful(alloc, book.entries(), book.width());
    assert!(rt; lawful.expect(rt, "memory"));
}

#[test]
fn each_call(rt: HostRuntime) {
    let shape = Note::Shape {
        version: 1,
        len: 12,
        stripes: 1,
        lost: 1,
    };
    let rows = [
        (Step::Lose(0), Note::Lost(1), None),
        (Step::Stat, shape, None),
        (Step::Repair(0), Note::Repaired(1), Some(b'A')),
        (Step::Lose(0), Note::Lost(1), None),
        (Step::Install, Note::Repaired(1), Some(b'A')),
        (Step::Delete, Note::Deleted(1), None),
    ];
    play(&rt, rt.alloc(), &rows);
}

#[test]
fn installs_by_the_state(rt: HostRuntime) {
    let rows = [
        (Step::Store, Note::Stored(2), Some(b'M')),
        (Step::Lose(0), Note::Lost(2), None),
        (Step::Install, Note::Repaired(2), Some(b'M')),
        (Step::Install, Note::NotLost, Some(b'M')),
        (Step::Delete, Note::Deleted(2), None),
        (Step::Install, Note::NoName, None),
    ];
    play(&rt, rt.alloc(), &rows);
}

#[test]
fn installs_nothing_that_is_open(rt: HostRuntime) {
    let shape = Note::Shape {
        version: 2,
        len: 12,
        stripes: 1,
        lost: 4,
    };
    let rows = [
        (Step::Store, Note::Stored(2), Some(b'M')),
        (Step::Lose(0), Note::Lost(2), None),
        (Step::Lose(1), Note::Lost(2), None),
        (Step::Lose(2), Note::Lost(2), None),
        (Step::Lose(3), Note::Lost(2), None),
        (Step::Install, Note::Unrecoverable(2), None),
        (Step::Stat, shape, None),
    ];
    play(&rt, rt.alloc(), &rows);
}

#[test]
fn restores_what_is_open(rt: HostRuntime) {
    let rows = [
        (Step::Lose(0), Note::Lost(1), None),
        (Step::Lose(1), Note::Lost(1), None),
        (Step::Lose(2), Note::Lost(1), None),
        (Step::Lose(3), Note::Lost(1), None),
        (Step::Repair(0), Note::Unrecoverable(1), None),
        (Step::Restore, Note::Repaired(1), Some(b'A')),
        (Step::Restore, Note::NotLost, Some(b'A')),
    ];
    play(&rt, rt.alloc(), &rows);
}

#[test]
fn restores_one_version(rt: HostRuntime) {
    let rows = [
        (Step::Store, Note::Stored(2), Some(b'M')),
        (Step::Lose(0), Note::Lost(2), None),
        (Step::Restore, Note::Replaced(2), None),
        (Step::Delete, Note::Deleted(2), None),
        (Step::Restore, Note::NoName, None),
    ];
    play(&rt, rt.alloc(), &rows);
}

/// Loses a fragment.
fn lose(
    rt: &impl Abort,
    alloc: Global,
    book: &mut Book,
    name: &Name,
    stripe: u64,
    fragment: u64,
) -> Note {
    let answer = book.lose(alloc, 1, name.duplicate(), stripe, fragment);
    answer.expect(rt, "room and memory").note()
}

/// The items of a plan, one a line.
fn lines_of(alloc: Global, plan: &Plan) -> Result<String, AllocError> {
    let mut lines = String::new(alloc);
    for item in &plan.items {
        let line = format!(in alloc;
            "{} {} {} {}\n",
            item.name.as_str(),
            item.version,
            item.stripe,
            item.f
        )?;
        lines.push_str(line.as_str())?;
    }
    Ok(lines)
}

#[test]
fn plan_is_in_order(rt: HostRuntime) {
    let alloc = rt.alloc();
    let (mut book, a) = beginning(&rt, alloc, 9);
    let b = Name::new("b").expect(&rt, "a name");
    store(&rt, alloc, &mut book, &b, b"ABCDEFGHIJKLMNOPQRSTUVWX");
    store(&rt, alloc, &mut book, &a, b"ABCDEFGHIJKL");
    lose(&rt, alloc, &mut book, &b, 1, 3);
    lose(&rt, alloc, &mut book, &a, 0, 7);
    lose(&rt, alloc, &mut book, &a, 0, 1);
    let plan = book.plan(alloc).expect(&rt, "memory");
    let lines = lines_of(alloc, &plan).expect(&rt, "memory");
    assert_eq!(rt; lines.as_str(), "a 2 0 1\na 2 0 7\nb 1 1 3\n");
    for most in 1..4 {
        let parts = lines_in_parts(alloc, &book, most).expect(&rt, "memory");
        assert_eq!(rt; parts.as_str(), lines.as_str());
    }
}

/// The items of a plan that is made in parts of so many, one a line.
fn lines_in_parts(alloc: Global, book: &Book, most: usize) -> Result<String, AllocError> {
    let mut lines = String::new(alloc);
    let mut part = book.plan_part(alloc, None, most)?;
    for _ in 0..9 {
        lines.push_str(lines_of(alloc, &part)?.as_str())?;
        part = match part.items.last() {
            Some(last) => book.plan_part(alloc, Some(last), most)?,
            None => return Ok(lines),
        };
    }
    Ok(lines)
}

#[test]
fn trim_gives_up_the_beginning(rt: HostRuntime) {
    let alloc = rt.alloc();
    let (mut book, name) = beginning(&rt, alloc, 2);
    store(&rt, alloc, &mut book, &name, b"ABCDEFGHIJKL");
    lose(&rt, alloc, &mut book, &name, 0, 0);
    let trimmed = book.trim(alloc, 0).expect(&rt, "memory");
    let base = (book.base().trimmed, book.base().puts);
    assert_eq!(rt; (trimmed, book.entries().len(), base), (2, 0, (2, 1)));
    assert_eq!(rt; lose(&rt, alloc, &mut book, &name, 0, 0), Note::AlreadyLost);
    let lawful = is_lawful_from(alloc, book.base(), book.entries(), book.width());
    assert!(rt; lawful.expect(&rt, "memory"));
}
