//! The bytes of the blobs, which exist in proofs alone.
ghost use Rattle.std.specs.Prelude.{◌≡◌, ◌∷◌, List, ℕ, []};
ghost use Rattle.book.specs.BlobBytes.{blob_bytes};
ghost use base.Fml.{ftrue};

use crate::{Name, Sealed};
use std::marker::{Model, Send, Sync};

/// The bytes of each name's blob, lost or not. It takes no memory: code can set them, and clauses
/// alone read them.
#[derive(Drop)]
pub(crate) struct Truth {
    pub ghost of: { List (List ℕ × List ℕ) },
}

impl Model for Truth {
    ghost also_owns = { λ _. ftrue };
}

impl Truth {
    /// Of no name.
    pub fn new() -> Truth
        ensures { result.of ≡ [] }
    {
        Truth {}
    }

    /// The same with the bytes of a whole blob for a name.
    pub fn with(before: &Truth, name: &Name, sealed: &Sealed) -> Truth
        ensures { result.of ≡ (name.now, blob_bytes sealed.now) ∷ before.now.of }
    {
        let _ = before;
        let _ = name;
        let _ = sealed;
        Truth {}
    }
}

unsafe impl Send for Truth {}

unsafe impl Sync for Truth {}
