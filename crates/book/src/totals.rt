//! Totals of the blobs in a catalogue.
ghost use Rattle.std.specs.Prelude.{◌≡◌};
ghost use Rattle.std.specs.Option.{option_map};
ghost use Rattle.book.specs.Totals.{AreTotals, DifferBy, IsShare, share_at};
ghost use Rattle.book.specs.Losing.{Catalogue as Blobs};

use crate::Name;
use crate::stored_blob::StoredBlob;
use std::collections::BTreeMap;

/// What blobs have in all: bytes, lost fragments, and stripes with an unrecoverable fragment.
#[derive(Clone, Copy, Default)]
pub(crate) struct Totals {
    pub bytes: u128,
    pub lost: u128,
    pub unrecoverable: u128,
}

impl Totals {
    /// The share of what a name has.
    pub fn of(found: Option<&StoredBlob>) -> Totals
        ensures value { result ≡ share_at (option_map (λ s. s.now) found.entry) }
        ensures share { IsShare result }
    {
        match found {
            Some(stored) => stored.share(),
            None => Totals::default(),
        }
    }

    /// Replaces the share of one blob, after it was replaced among the blobs.
    pub fn replace(&mut self, blobs: &BTreeMap<Name, StoredBlob>, before: Totals, after: Totals)
        requires share { IsShare before }
        requires differ { (old : Blobs) × AreTotals self.old old
            × DifferBy old blobs.now.entries before after }
        ensures { AreTotals self.new blobs.now.entries }
    {
        // fewer than 2^63 blobs, so that no sum overflows
        let _count = blobs.len();
        self.bytes = self.bytes + after.bytes - before.bytes;
        self.lost = self.lost + after.lost - before.lost;
        self.unrecoverable = self.unrecoverable + after.unrecoverable - before.unrecoverable;
    }
}
