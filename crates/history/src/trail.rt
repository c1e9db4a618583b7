//! A list of entries that exists in proofs alone.
ghost use Rattle.std.specs.Prelude.{◌≡◌, List, [], ◌∷◌, ◌++◌};
ghost use Rattle.history.specs.declared.note.Entry.{Entry};
ghost use base.Fml.{ftrue};

use crate::Entry;
use std::marker::{Model, Send, Sync};

/// A list of entries. It has no bytes: code can append to it, and clauses alone read it.
#[derive(Drop)]
pub struct Trail {
    pub ghost entries: { List Entry },
}

impl Model for Trail {
    ghost also_owns = { λ _. ftrue };
}

impl Trail {
    /// A list without entries.
    pub fn new() -> Trail
        ensures { result.entries ≡ [] }
    {
        Trail {}
    }

    /// The list with one more entry.
    fn with(before: &Trail, last: &Entry) -> Trail
        ensures { result.entries ≡ before.now.entries ++ last.now ∷ [] }
    {
        let _ = before;
        let _ = last;
        Trail {}
    }

    /// Appends an entry.
    pub fn push(&mut self, entry: &Entry)
        ensures { self.new.entries ≡ self.old.entries ++ entry.now ∷ [] }
    {
        *self = Trail::with(self, entry);
    }
}

unsafe impl Send for Trail {}

unsafe impl Sync for Trail {}
