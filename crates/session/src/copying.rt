//! Copies of granted ranges.
ghost use Rattle.std.specs.Prelude.{◌≡◌, ℕ, List, length, IfOk, IfSome, OnErr};
ghost use Rattle.sealed.specs.Blob.{Lost};
ghost use Rattle.sealed.specs.Sealed.{StandsFor};
ghost use Rattle.lent.specs.Granted.{cut_of};
ghost use Rattle.lent.specs.Walk.{HasAbsent};
ghost use Rattle.session.specs.CopyOf.{IsCopy};

use lrc_code::NoMemory;
use sealed::Sealed;
use shared::{Grant, Piece};
use std::alloc::Global;

/// How many bytes were copied from present fragments, and how many were rebuilt.
#[derive(Clone, Copy, Drop)]
pub struct Copied {
    pub lent: u64,
    pub built: u64,
}

/// All bytes of a grant, if they lie one behind another in memory. `None` if not, as when a
/// fragment of the range is lost.
fn whole_run(grant: &Grant) -> Option<&[u8]>
    requires stands { (b : List ℕ) × (lost : Lost) × StandsFor grant.now.sealed.value b lost }
    ensures copy { IfSome result (λ r. IsCopy grant.now r.now grant.now.len 0) }
    ensures long { IfSome result (λ r. length r.now ≡ grant.now.len) }
{
    let sealed: &Sealed = &grant.sealed;
    let run = sealed.run(grant.start, grant.len);
    if run.len() as u64 == grant.len {
        Some(run)
    } else {
        None
    }
}

/// Copies the bytes of a grant to `target`, which is as long as the grant: all at once if they lie
/// one behind another in memory, else piece by piece. `NoMemory` comes only if a fragment of the
/// range is lost; any byte of `target` may then have been written.
pub fn copy_out(alloc: Global, grant: &Grant, target: &mut [u8]) -> Result<Copied, NoMemory>
    requires length { length target.old ≡ grant.now.len }
    requires stands { (b : List ℕ) × (lost : Lost) × StandsFor grant.now.sealed.value b lost }
    ensures copy { IfOk result (λ k. IsCopy grant.now target.new k.lent k.built) }
    ensures err { OnErr result (HasAbsent grant.now.sealed.value (cut_of grant.now)) }
{
    if let Some(run) = whole_run(grant) {
        target.copy_from_slice(run);
        return Ok(Copied {
            lent: grant.len,
            built: 0,
        });
    }
    copy_pieces(alloc, grant, target)
}

/// `copy_out`, piece by piece.
fn copy_pieces(alloc: Global, grant: &Grant, target: &mut [u8]) -> Result<Copied, NoMemory>
    requires length { length target.old ≡ grant.now.len }
    requires stands { (b : List ℕ) × (lost : Lost) × StandsFor grant.now.sealed.value b lost }
    ensures copy { IfOk result (λ k. IsCopy grant.now target.new k.lent k.built) }
    ensures err { OnErr result (HasAbsent grant.now.sealed.value (cut_of grant.now)) }
{
    let mut walk = grant.walk();
    let mut at = 0;
    let mut copied = Copied { lent: 0, built: 0 };
    while let Some(piece) = walk.next_piece(alloc)? {
        let bytes = piece.bytes();
        let len = bytes.len();
        target[at..at + len].copy_from_slice(bytes);
        at += len;
        match piece {
            Piece::Lent(_) => copied.lent += len as u64,
            Piece::Built(_) => copied.built += len as u64,
        }
    }
    Ok(copied)
}
