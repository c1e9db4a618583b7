//! Discarding the oldest entries of the journal.
ghost use Rattle.std.specs.Prelude.{◌≡◌, ◌≤◌, ◌+◌, ◌-◌, drop, length, max, IsOk, IfOk, IfErr};
ghost use Rattle.std.specs.Prelude.{OnErr};
ghost use Rattle.history.specs.History.{History};
ghost use Rattle.book.specs.Holds.{HoldsHistory};
ghost use Rattle.book.specs.Contents.{journal_of};
ghost use Rattle.book.specs.Trimming.{given_up};

use crate::Fault;
use crate::book::Book;
use std::alloc::Global;

impl Book {
    /// Discards all journal entries except the last `keep`, and returns how many it discarded. The
    /// base then outlines the state after the discarded calls, and the journal has room for as many
    /// entries more.
    ///
    /// It discards nothing and returns 0, without an allocation, in three cases: there is no
    /// journal, it has at most `keep` entries, or more than 2^63 calls would be discarded in all. A
    /// trim is no call of the history, and the history stays what it was.
    ///
    /// `NoMemory` if memory for the new base runs out; the book is then unchanged.
    pub fn trim(&mut self, alloc: Global, keep: u64) -> Result<u64, Fault>
        ensures holds { (h : History) → HoldsHistory self.old h → HoldsHistory self.new h }
        ensures answer { IfOk result (λ n. n ≡ given_up self.old.base.trimmed
            (length (journal_of self.old)) keep) }
        ensures few { IfOk result (λ n. n ≤ 1048576) }
        ensures trimmed { IfOk result (λ n. self.new.base.trimmed ≡ self.old.base.trimmed + n) }
        ensures entries { IfOk result (λ n. self.new.entries ≡ drop n self.old.entries) }
        ensures unchanged { (self.new.width ≡ self.old.width) × (self.new.limit ≡ self.old.limit)
            × (self.new.catalogue ≡ self.old.catalogue) }
        ensures free { given_up self.old.base.trimmed (length (journal_of self.old)) keep ≡ 0
            → IsOk result }
        ensures faults { IfErr result (λ e. e ≡ Fault.NoMemory) }
        ensures err { OnErr result (self.new ≡ self.old) }
    {
        let count = self.entries().len() as u64;
        if count <= keep || self.base.trimmed + (count - keep) > 1 << 63 {
            return Ok(0);
        }
        let n = count - keep;
        let log = &self.log;
        let given_up = &log.entries()[..n as usize];
        let changes = log.changes(alloc, n as usize)?;
        self.base
            .advance(alloc, given_up, changes.as_slice(), self.width)?;
        drop(changes);
        self.log.give_up(n as usize);
        Ok(n)
    }

    /// As `trim`, but it discards at most `most` entries: the oldest of those that `trim` would
    /// discard. So a long journal can be trimmed in steps.
    pub fn trim_part(&mut self, alloc: Global, keep: u64, most: u64) -> Result<u64, Fault>
        ensures holds { (h : History) → HoldsHistory self.old h → HoldsHistory self.new h }
        ensures answer { IfOk result (λ n. n ≡ given_up self.old.base.trimmed
            (length (journal_of self.old)) (max keep (length (journal_of self.old) - most))) }
        ensures few { IfOk result (λ n. n ≤ 1048576) }
        ensures trimmed { IfOk result (λ n. self.new.base.trimmed ≡ self.old.base.trimmed + n) }
        ensures entries { IfOk result (λ n. self.new.entries ≡ drop n self.old.entries) }
        ensures unchanged { (self.new.width ≡ self.old.width) × (self.new.limit ≡ self.old.limit)
            × (self.new.catalogue ≡ self.old.catalogue) }
        ensures faults { IfErr result (λ e. e ≡ Fault.NoMemory) }
        ensures err { OnErr result (self.new ≡ self.old) }
    {
        let count = self.entries().len() as u64;
        self.trim(alloc, keep.max(count.saturating_sub(most)))
    }
}
