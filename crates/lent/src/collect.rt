//! Collection of all pieces of a range.
ghost use Rattle.std.specs.Prelude.{◌≡◌, ◌<◌, ◌⊎◌, ℕ, List, IfOk, OnErr, length};
ghost use Rattle.sealed.specs.Blob.{Lost};
ghost use Rattle.sealed.specs.Sealed.{StandsFor};
ghost use Rattle.lent.specs.Granted.{cut_of, range_of};
ghost use Rattle.lent.specs.Pieces.{joined};
ghost use Rattle.lent.specs.Walk.{ArePieces, HasAbsent};

use crate::{Grant, Piece};
use lrc_code::NoMemory;
use smallvec::SmallVec;
use std::alloc::Global;

impl Grant {
    /// All pieces of the range, in order. Up to twelve present fragments are collected without an
    /// allocation. `NoMemory` comes only if there are more than twelve pieces, or if one is of a
    /// lost fragment.
    pub fn collect(&self, alloc: Global) -> Result<SmallVec<Piece<'_>, 12>, NoMemory>
        ensures pieces { IfOk result (λ pieces. ArePieces self.now.sealed.value (cut_of self.now)
            pieces.items) }
        ensures joined { IfOk result (λ pieces. (b : List ℕ) (lost : Lost)
            → StandsFor self.now.sealed.value b lost → joined pieces.items ≡ range_of self.now b) }
        ensures err { OnErr result (HasAbsent self.now.sealed.value (cut_of self.now)
            ⊎ (12 < length (cut_of self.now))) }
    {
        let mut pieces = SmallVec::new(alloc);
        let mut walk = self.walk();
        while let Some(piece) = walk.next_piece(alloc)? {
            pieces.push(piece)?;
        }
        Ok(pieces)
    }
}
