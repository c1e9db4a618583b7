//! Granted ranges that stay lent from call to call.
ghost use Rattle.std.specs.Prelude.{◌≡◌, ◌++◌, ℕ, List, length, map, min, take, drop, IfOk};
ghost use Rattle.sealed.specs.Blob.{Lost};
ghost use Rattle.sealed.specs.Sealed.{StandsFor};
ghost use Rattle.session.specs.LentFrom.{IsLentFrom, HasRebuilt, lists_of, needed, chosen};
ghost use Rattle.lent.specs.Spans.{seen};

use lent::{Grant, Piece, Span};
use lrc_code::NoMemory;
use std::alloc::Global;
use std::marker::Model;

/// Lent bytes in C's layout: an address and a length.
#[repr(C)]
#[derive(Clone, Copy, Drop)]
pub struct LentSlice<'a> {
    pub bytes: &'a [u8],
}

/// Writable lent bytes in C's layout: an address and a length.
#[repr(C)]
#[derive(Drop)]
pub struct LentBuffer<'a> {
    pub bytes: &'a mut [u8],
}

/// A granted range, with the rebuilt bytes of each piece. A piece of a present fragment has none. A
/// clause sees the bytes of each piece.
#[derive(Drop)]
pub struct Lending {
    pub(crate) grant: Grant,
    pub(crate) rebuilt: Vec<Vec<u8>>,
}

impl Model for Lending {
    ghost use Rattle.std.specs.Prelude.{ℕ, List};
    ghost use Rattle.sealed.specs.Blob.{Lost};
    ghost use Rattle.sealed.specs.Sealed.{StandsFor};
    ghost use Rattle.lent.specs.Granted.{cut_of};
    ghost use Rattle.lent.specs.Spans.{spans_of};
    ghost use Rattle.session.specs.LentFrom.{HasRebuilt, lists_of, pieces_of};

    ghost Value = { List (List ℕ) };

    ghost view = { λ l. pieces_of (spans_of l.grant.sealed.value (cut_of l.grant))
        (lists_of l.rebuilt.items) };

    ghost invariant = { λ l. HasRebuilt l.grant (lists_of l.rebuilt.items)
        × ((b : List ℕ) × (lost : Lost) × StandsFor l.grant.sealed.value b lost) };
}

impl Lending {
    /// Lends the range that a read granted, and rebuilds its lost fragments at once. `NoMemory` if
    /// memory runs out.
    pub fn of_read(alloc: Global, grant: Grant) -> Result<Lending, NoMemory>
        requires stands { (b : List ℕ) × (lost : Lost) × StandsFor grant.sealed.value b lost }
        ensures { IfOk result (IsLentFrom grant) }
    {
        let rebuilt = rebuilt_of(alloc, &grant)?;
        Ok(Lending { grant, rebuilt })
    }

    /// The number of pieces in the range.
    pub fn len(&self) -> u64
        ensures { result ≡ length self.now }
    {
        self.rebuilt.len() as u64
    }

    /// Lends the first pieces, in order, as many as there are and `target` takes. Returns their
    /// number.
    pub fn lend<'a>(&'a self, target: &mut [LentSlice<'a>]) -> usize
        ensures count { result ≡ min (length target.old) (length self.now) }
        ensures bytes { map (λ s. s.bytes.now) (take result target.new) ≡ take result self.now }
        ensures unchanged { drop result target.new ≡ drop result target.old }
    {
        let mut spans = self.grant.spans();
        let mut at = 0;
        while at < target.len() {
            let Some(span) = spans.next() else {
                break;
            };
            target[at] = LentSlice {
                bytes: choose(span, self.rebuilt[at].as_slice()),
            };
            at += 1;
        }
        at
    }
}

/// The rebuilt bytes of each piece of a granted range.
fn rebuilt_of(alloc: Global, grant: &Grant) -> Result<Vec<Vec<u8>>, NoMemory>
    ensures { IfOk result (λ rebuilt. HasRebuilt grant.now (lists_of rebuilt.items)) }
{
    let mut rebuilt = Vec::new(alloc);
    let mut walk = grant.walk();
    while let Some(piece) = walk.next_piece(alloc)? {
        rebuilt.push(needed_of(alloc, piece))?;
    }
    Ok(rebuilt)
}

/// The rebuilt bytes of a piece, none if its fragment is present.
fn needed_of(alloc: Global, piece: Piece<'_>) -> Vec<u8>
    ensures { result.items ≡ needed piece.entry }
{
    match piece {
        Piece::Lent(_) => Vec::new(alloc),
        Piece::Built(bytes) => bytes,
    }
}

/// The bytes of a span, or the ones rebuilt for it.
fn choose<'a>(span: Span<'a>, rebuilt: &'a [u8]) -> &'a [u8]
    ensures { result.now ≡ chosen (seen span.entry) rebuilt.now }
{
    match span.bytes {
        Some(bytes) => bytes,
        None => rebuilt,
    }
}
