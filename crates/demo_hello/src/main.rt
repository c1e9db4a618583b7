//! The store in a dozen lines: it reads a blob while one of its fragments is lost.
#![tactic(auto)]

use anyhow::{Context, Result, bail};
use named_calls::WaitingCalls;
use shared::{Answer, Bytes, Limit, Name, Piece, Store};

/// Prints each piece on a line of its own.
fn print_each<R: Print>(rt: &R, pieces: &[Piece]) -> Result<()> {
    for piece in pieces {
        let text = str::from_utf8(piece.bytes())?;
        println!(rt; "{text}")?;
    }
    Ok(())
}

fn main(rt: HostRuntime) -> Result<()> {
    let (alloc, name) = (rt.alloc(), Name::new("greeting")?);
    let limit = Limit::new(1_000).context("a limit")?;
    let (store, mut pass) = Store::open(alloc, 4, limit)?;
    let blob = Bytes::from_static(b"HELLO, WORLD");
    store.put(&rt, alloc, &mut pass, name.duplicate(), blob)?;
    store.lose(&rt, alloc, &mut pass, name.duplicate(), 0, 0)?;
    let Answer::Granted(grant) = store.read(&rt, &mut pass, name, 0, 12)? else {
        bail!("it can't be told from what is left");
    };
    let pieces = grant.collect(alloc)?;
    print_each(&rt, pieces.as_slice())
}
