//! The numbers of a store.
ghost use Rattle.std.specs.Prelude.{◌≡◌, length};
ghost use Rattle.history.specs.History.{History};
ghost use Rattle.book.specs.Contents.{journal_of};
ghost use Rattle.book.specs.Numbers.{AreNumbersOf, capped};
ghost use Rattle.book.specs.Holds.{HoldsHistory};

use crate::book::Book;

/// Totals of a store. A total above `u64::MAX` is given as `u64::MAX`.
#[derive(Clone, Copy, Debug, PartialEq, Eq)]
pub struct Numbers {
    /// The names that have a blob.
    pub blobs: u64,
    /// The bytes of these blobs.
    pub bytes: u64,
    /// Their lost fragments.
    pub lost: u64,
    /// Their stripes that have an unrecoverable fragment.
    pub unrecoverable: u64,
    /// The calls so far, with those whose entries were discarded.
    pub calls: u64,
    /// The entries that the journal keeps.
    pub entries: u64,
}

impl Book {
    /// The numbers of the store, held beside its blobs: it takes the same time for each store. Does
    /// not allocate, and the journal gets no entry of it.
    pub fn numbers(&self) -> Numbers
        ensures holds { (h : History) → HoldsHistory self.now h
            → AreNumbersOf self.now.width h result }
        ensures entries { result.entries ≡ length (journal_of self.now) }
    {
        let totals = self.catalogue.totals();
        Numbers {
            blobs: self.catalogue.len(),
            bytes: cap(totals.bytes),
            lost: cap(totals.lost),
            unrecoverable: cap(totals.unrecoverable),
            calls: self.calls(),
            entries: self.entries().len() as u64,
        }
    }
}

/// A total as a `u64`: `u64::MAX` if it is larger.
fn cap(total: u128) -> u64
    ensures { result ≡ capped total }
{
    total.min(u128::from(u64::MAX)) as u64
}
