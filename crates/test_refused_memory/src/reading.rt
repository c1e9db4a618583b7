//! A read whose grant is walked, with each step repeated if it runs out of memory.
ghost use Rattle.std.specs.Prelude.{◌≡◌};
ghost use Rattle.shared.specs.Passes.{Stays};

use crate::calls::Case;
use anyhow::{Result, bail, ensure};
use book::{Answer, Fault, Name};
use lent::{Grant, Piece};
use named_calls::WaitingCalls;
use shared::{Pass, Store};
use std::alloc::Global;
use std::sync::Wait;

/// Reads all bytes of the blob, and walks them twice.
pub(crate) fn read<R: Wait>(
    rt: &R,
    alloc: Global,
    store: &Store,
    pass: &mut Pass,
    case: &Case,
) -> Result<()>
    requires { pass.old.store ≡ store.now }
    ensures { Stays pass.old pass.new }
{
    let name = Name::new("a")?;
    let len = case.bytes.len() as u64;
    let answer = match store.read(rt, pass, name.duplicate(), 0, len) {
        Err(Fault::NoMemory) => store.read(rt, pass, name, 0, len),
        answer => answer,
    };
    let Ok(Answer::Granted(grant)) = answer else {
        bail!("not granted");
    };
    walk(alloc, &grant, case)?;
    collect(alloc, &grant, case)
}

/// Walks a grant. Each byte is a piece of its own, and those of lost fragments are built. A walk
/// that ran out of memory continues with the same piece.
fn walk(alloc: Global, grant: &Grant, case: &Case) -> Result<()> {
    let mut walk = grant.walk();
    let mut place: u8 = 0;
    for byte in case.bytes {
        let piece = match walk.next_piece(alloc) {
            Err(_) => walk.next_piece(alloc),
            piece => piece,
        };
        let Ok(Some(piece)) = piece else {
            bail!("a piece is missing");
        };
        let is_built = matches!(piece, Piece::Built(_));
        ensure!(
            piece.bytes().first() == Some(byte) && is_built == case.lost.contains(&place),
            "another piece"
        );
        place = place.saturating_add(1);
    }
    ensure!(
        matches!(walk.next_piece(alloc), Ok(None)),
        "a piece too many"
    );
    Ok(())
}

/// All pieces of a grant at once.
fn collect(alloc: Global, grant: &Grant, case: &Case) -> Result<()> {
    let pieces = match grant.collect(alloc) {
        Err(_) => grant.collect(alloc),
        pieces => pieces,
    };
    match pieces {
        Ok(pieces) if pieces.len() == case.bytes.len() => Ok(()),
        _ => bail!("other pieces"),
    }
}
