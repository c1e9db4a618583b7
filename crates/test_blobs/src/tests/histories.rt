use history::{Base, Call, Entry, Fault, Journal, Limit, Name, Note, is_lawful, is_lawful_from};
use lrc_code::Code;
use sealed::Width;
use std::alloc::{AllocError, Global};
use std::process::Abort;
use std::test::Fail;

#[test]
fn another_version_is_not_lawful(rt: HostRuntime) -> Result<(), Fail> {
    let alloc = rt.alloc();
    let (width, name) = (Width::new(1).expect(&rt, "a width"), Name::new("a")?);
    for (version, lawful) in &[(1, true), (2, false)] {
        let mut entries = Vec::new(alloc);
        let put = Call::Put {
            name: name.duplicate(),
            code: Code::Wide,
            len: 5,
        };
        note(&mut entries, put, Note::Stored(*version))?;
        assert_eq!(rt; is_lawful(alloc, &entries, width)?, *lawful);
    }
    Ok(())
}

/// Adds a call of the first caller with its note.
fn note(entries: &mut Vec<Entry>, call: Call, note: Note) -> Result<(), Fault> {
    match entries.push(Entry { who: 1, call, note }) {
        Ok(()) => Ok(()),
        Err(_) => Err(Fault::NoMemory),
    }
}

/// Adds the put of a blob of twelve letters as the first version.
fn note_put(entries: &mut Vec<Entry>, name: &Name) -> Result<(), Fault> {
    let put = Call::Put {
        name: name.duplicate(),
        code: Code::Wide,
        len: 12,
    };
    note(entries, put, Note::Stored(1))
}

/// Adds the loss of a fragment of the first version.
fn note_loss(
    entries: &mut Vec<Entry>,
    name: &Name,
    fragment: u64,
    noted: Note,
) -> Result<(), Fault> {
    let lose = Call::Lose {
        name: name.duplicate(),
        stripe: 0,
        fragment,
    };
    note(entries, lose, noted)
}

/// Adds a read of one byte.
fn note_read(entries: &mut Vec<Entry>, name: &Name, start: u64, noted: Note) -> Result<(), Fault> {
    let read = Call::Read {
        name: name.duplicate(),
        start,
        len: 1,
    };
    note(entries, read, noted)
}

/// Adds the repair of the seventh fragment.
fn note_repair(entries: &mut Vec<Entry>, name: &Name) -> Result<(), Fault> {
    let repair = Call::Repair {
        name: name.duplicate(),
        stripe: 0,
        fragment: 6,
    };
    note(entries, repair, Note::Repaired(1))
}

/// Adds a stat that finds four lost fragments, and the delete of the blob.
fn note_end(entries: &mut Vec<Entry>, name: &Name) -> Result<(), Fault> {
    let shape = Note::Shape {
        version: 1,
        len: 12,
        stripes: 1,
        lost: 4,
    };
    let stat = Call::Stat {
        name: name.duplicate(),
    };
    note(entries, stat, shape)?;
    note_delete(entries, name)
}

/// Adds the delete of the first version.
fn note_delete(entries: &mut Vec<Entry>, name: &Name) -> Result<(), Fault> {
    let delete = Call::Delete {
        name: name.duplicate(),
    };
    note(entries, delete, Note::Deleted(1))
}

/// Five fragments of twelve letters are lost. The sixth data fragment is alone lost in its group,
/// and the first is not.
fn note_all(entries: &mut Vec<Entry>, name: &Name) -> Result<(), Fault> {
    note_put(entries, name)?;
    for fragment in &[0, 1, 6, 14, 15] {
        note_loss(entries, name, *fragment, Note::Lost(1))?;
    }
    note_read(entries, name, 6, Note::Granted(1))?;
    note_read(entries, name, 0, Note::Unrecoverable(1))?;
    note_repair(entries, name)?;
    note_end(entries, name)
}

/// Whether entries are lawful, and stay so with a stat that finds no blob.
fn is_lawful_to_the_end(
    alloc: Global,
    entries: &mut Vec<Entry>,
    name: Name,
    width: Width,
) -> Result<bool, Fail> {
    if !is_lawful(alloc, entries, width)? {
        return Ok(false);
    }
    note(entries, Call::Stat { name }, Note::NoName)?;
    Ok(is_lawful(alloc, entries, width)?)
}

#[test]
fn all_six_calls_are_judged(rt: HostRuntime) -> Result<(), Fail> {
    let alloc = rt.alloc();
    let (width, name) = (Width::new(1).expect(&rt, "a width"), Name::new("a")?);
    let mut entries = Vec::new(alloc);
    note_all(&mut entries, &name)?;
    let is_lawful_first = is_lawful_to_the_end(alloc, &mut entries, name.duplicate(), width)?;
    note_delete(&mut entries, &name)?;
    let is_lawful_then = is_lawful(alloc, &entries, width)?;
    assert_eq!(rt; (is_lawful_first, is_lawful_then), (true, false));
    Ok(())
}

#[test]
fn the_longest_put_is_not_lawful(rt: HostRuntime) -> Result<(), Fail> {
    let alloc = rt.alloc();
    let (width, name) = (Width::new(1).expect(&rt, "a width"), Name::new("a")?);
    let mut entries = Vec::new(alloc);
    let put = Call::Put {
        name,
        code: Code::Wide,
        len: u64::MAX,
    };
    note(&mut entries, put, Note::Stored(1))?;
    assert!(rt; !is_lawful(alloc, &entries, width)?);
    Ok(())
}

/// A journal of these entries.
fn journal_of(rt: &impl Abort, alloc: Global, entries: Vec<Entry>) -> Result<Journal, AllocError> {
    let limit = Limit::new(9).expect(rt, "a limit");
    let mut journal = Journal::new(alloc, limit)?;
    for entry in entries {
        assert!(rt; journal.entries().len() < journal.limit().get() as usize);
        journal.push(entry);
    }
    Ok(journal)
}

/// Takes the entries of a journal into a base.
fn advance(
    rt: &impl Abort,
    alloc: Global,
    base: &mut Base,
    journal: &Journal,
    width: Width,
) -> Result<(), AllocError> {
    let entries = journal.entries();
    assert!(rt; base.puts <= base.trimmed && base.trimmed < 9 && entries.len() < 9);
    let changes = journal.changes(alloc, entries.len())?;
    base.advance(alloc, entries, &changes, width)
}

/// What stands in a base: how many entries it took, how many puts, and how many names.
fn counts(base: &Base) -> (u64, u64, usize) {
    (base.trimmed, base.puts, base.names.len())
}

/// Takes the put of a blob into a base.
fn take_put(
    rt: &impl Abort,
    alloc: Global,
    base: &mut Base,
    name: &Name,
    width: Width,
) -> Result<(), Fail> {
    let mut entries = Vec::new(alloc);
    note_put(&mut entries, name)?;
    Ok(advance(rt, alloc, base, &journal_of(rt, alloc, entries)?, width)?)
}

/// Takes the loss of the blob's first fragment into a base.
fn take_loss(
    rt: &impl Abort,
    alloc: Global,
    base: &mut Base,
    name: &Name,
    width: Width,
) -> Result<(), Fail> {
    let mut entries = Vec::new(alloc);
    note_loss(&mut entries, name, 0, Note::Lost(1))?;
    Ok(advance(rt, alloc, base, &journal_of(rt, alloc, entries)?, width)?)
}

/// Takes the delete of the blob into a base.
fn take_delete(
    rt: &impl Abort,
    alloc: Global,
    base: &mut Base,
    name: &Name,
    width: Width,
) -> Result<(), Fail> {
    let mut entries = Vec::new(alloc);
    note_delete(&mut entries, name)?;
    Ok(advance(rt, alloc, base, &journal_of(rt, alloc, entries)?, width)?)
}

/// Whether the loss of the blob's first fragment with this note is lawful behind a base.
fn is_lawful_loss(
    alloc: Global,
    base: &Base,
    name: &Name,
    noted: Note,
    width: Width,
) -> Result<bool, Fail> {
    let mut entries = Vec::new(alloc);
    note_loss(&mut entries, name, 0, noted)?;
    Ok(is_lawful_from(alloc, base, &entries, width)?)
}

/// Whether a loss of the blob's first fragment, and one that finds it lost, are lawful.
fn judge_losses(
    alloc: Global,
    base: &Base,
    name: &Name,
    width: Width,
) -> Result<(bool, bool), Fail> {
    let first = is_lawful_loss(alloc, base, name, Note::Lost(1), width)?;
    let again = is_lawful_loss(alloc, base, name, Note::AlreadyLost, width)?;
    Ok((first, again))
}

#[test]
fn a_base_knows_what_was_lost(rt: HostRuntime) -> Result<(), Fail> {
    let alloc = rt.alloc();
    let (width, name) = (Width::new(1).expect(&rt, "a width"), Name::new("a")?);
    let mut base = Base::empty(alloc);
    take_put(&rt, alloc, &mut base, &name, width)?;
    assert_eq!(rt; judge_losses(alloc, &base, &name, width)?, (true, false));
    take_loss(&rt, alloc, &mut base, &name, width)?;
    assert_eq!(rt; counts(&base), (2, 1, 1));
    assert_eq!(rt; judge_losses(alloc, &base, &name, width)?, (false, true));
    Ok(())
}

#[test]
fn a_base_forgets_a_deleted_name(rt: HostRuntime) -> Result<(), Fail> {
    let alloc = rt.alloc();
    let (width, name) = (Width::new(1).expect(&rt, "a width"), Name::new("a")?);
    let mut base = Base::empty(alloc);
    take_put(&rt, alloc, &mut base, &name, width)?;
    assert_eq!(rt; counts(&base), (1, 1, 1));
    take_delete(&rt, alloc, &mut base, &name, width)?;
    assert_eq!(rt; counts(&base), (2, 1, 0));
    Ok(())
}
