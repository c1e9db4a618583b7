//! Reads without a copy, and without the lock.

// Each example stands alone, so that a reader can copy it: its set-up repeats that of others.

ghost use Rattle.std.specs.Prelude.{◌≡◌};
ghost use Rattle.shared.specs.Passes.{Stays};

use anyhow::{Context, Result, bail};
use named_calls::WaitingCalls;
use shared::{Answer, Asked, Bytes, Grant, Limit, Name, Pass, Piece, Plans, Snapshot, Store};
use std::alloc::Global;
use std::sync::Wait;

/// Prints the pieces of a grant one by one. Only a piece of a lost fragment is built and allocates.
fn show<R: Print>(rt: &R, alloc: Global, grant: &Grant) -> Result<()> {
    let mut walk = grant.walk();
    while let Some(piece) = walk.next_piece(alloc)? {
        let kind = match &piece {
            Piece::Lent(_) => "lent",
            Piece::Built(_) => "built",
        };
        println!(rt; "{kind} {}", str::from_utf8(piece.bytes())?)?;
    }
    Ok(())
}

/// Stores a blob, and loses the second of its fragments.
fn put_and_lose<R: Wait>(
    rt: &R,
    alloc: Global,
    store: &Store,
    pass: &mut Pass,
    name: &Name,
) -> Result<()>
    requires { pass.old.store ≡ store.now }
    ensures { Stays pass.old pass.new }
{
    let blob = Bytes::from_static(b"ABCDEFGHIJKL");
    store.put(rt, alloc, pass, name.duplicate(), blob)?;
    store.lose(rt, alloc, pass, name.duplicate(), 0, 1)?;
    Ok(())
}

/// Reads four bytes from the beginning of the blob, by a call of the store.
fn beginning<R: Wait>(rt: &R, store: &Store, pass: &mut Pass, name: Name) -> Result<Grant>
    requires { pass.old.store ≡ store.now }
    ensures { Stays pass.old pass.new }
{
    match store.read(rt, pass, name, 0, 4)? {
        Answer::Granted(grant) => Ok(grant),
        Answer::NoName => bail!("no blob has this name"),
        Answer::OutOfRange => bail!("the blob is shorter"),
        Answer::Unrecoverable(version) => bail!("version {version} has lost too much"),
        _ => bail!("another answer"),
    }
}

/// Reads eight bytes more of a version. It is no call of the store: it does not wait, and the
/// journal gets no entry.
fn more(snapshot: &Snapshot) -> Result<Grant> {
    match snapshot.read(4, 8)? {
        Asked::Granted(grant) => Ok(grant),
        Asked::OutOfRange => bail!("the blob is shorter"),
        Asked::Unrecoverable => bail!("this version has lost too much"),
    }
}

/// Walks a grant with kept recipes, and returns how many pieces were built.
fn count_built(alloc: Global, grant: &Grant, plans: &mut Plans) -> Result<u64> {
    let mut built = 0u64;
    let mut walk = grant.walk_with(plans);
    while let Some(piece) = walk.next_piece(alloc)? {
        built = built.saturating_add(u64::from(matches!(piece, Piece::Built(_))));
    }
    Ok(built)
}

/// Prints the bytes of a grant, more of the same version, and how many pieces its walks built.
fn show_version<R: Print>(rt: &R, alloc: Global, grant: &Grant) -> Result<()> {
    show(rt, alloc, grant)?;
    let snapshot = grant.snapshot()?;
    show(rt, alloc, &more(&snapshot)?)?;
    let mut plans = Plans::new(alloc);
    let first = count_built(alloc, grant, &mut plans)?;
    let second = count_built(alloc, grant, &mut plans)?;
    println!(rt; "{first} and {second} built by one recipe")?;
    Ok(())
}

/// Reads a blob in parts. The second part is of the first part's version, although the name has no
/// blob by then.
pub(crate) fn read_on<R: Print + Wait>(rt: &R, alloc: Global) -> Result<()> {
    let name = Name::new("a")?;
    let limit = Limit::new(1_000).context("a limit")?;
    let (store, mut pass) = Store::open(alloc, 2, limit)?;
    put_and_lose(rt, alloc, &store, &mut pass, &name)?;
    let grant = beginning(rt, &store, &mut pass, name.duplicate())?;
    store.delete(rt, &mut pass, name)?;
    show_version(rt, alloc, &grant)
}
