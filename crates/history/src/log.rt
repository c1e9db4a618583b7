//! What a book records of its calls: a journal, or their number alone.
ghost use Rattle.std.specs.Prelude.{◌≡◌, ◌<◌, ◌≤◌, ◌^◌, ◌↔◌, [], ◌∷◌, ◌++◌, ◌==◌, drop, take, map};
ghost use Rattle.std.specs.Prelude.{length, IfOk, IfSome, IsSome};
ghost use Rattle.history.specs.Parts.{changes_of};
ghost use Rattle.history.specs.Log.{call_limit, kept_of};

use crate::count::Count;
use crate::{Entry, Journal, Limit};
use std::alloc::{AllocError, Global};
use std::marker::Model;

/// Which of the two.
#[derive(Drop)]
pub enum Form {
    /// A journal.
    Journaled(Journal),
    /// The number of calls.
    Counted(Count),
}

/// A journal, or the number of calls alone. A clause sees the entries of all calls in either case,
/// and a limit of 2^62 if there is no journal.
#[derive(Drop)]
pub struct Log {
    form: Form,
}

impl Model for Log {
    ghost use Rattle.history.specs.Stretch.{Stretch};
    ghost use Rattle.history.specs.Log.{logged};

    ghost Value = { Stretch };

    ghost view = { λ l. logged l.form };
}

impl Log {
    /// A log without entries: a journal of at most so many, or without a limit the number of calls
    /// alone. `AllocError` if there is no memory for the journal.
    pub fn new(alloc: Global, limit: Option<Limit>) -> Result<Log, AllocError>
        ensures entries { IfOk result (λ l. l.entries ≡ []) }
        ensures limit { IfOk result (λ l. l.limit ≡ call_limit limit) }
    {
        let form = match limit {
            Some(limit) => Form::Journaled(Journal::new(alloc, limit)?),
            None => Form::Counted(Count::new()),
        };
        Ok(Log { form })
    }

    /// Whether as many calls as the limit are recorded.
    pub fn is_full(&self) -> bool
        ensures value { result ≡ (length self.now.entries == self.now.limit) }
        ensures few { length self.now.entries ≤ self.now.limit }
        ensures small { self.now.limit ≤ 2 ^ 62 }
    {
        match &self.form {
            Form::Journaled(journal) => journal.is_full(),
            Form::Counted(count) => count.is_full(),
        }
    }

    /// Records a call. Does not allocate.
    pub fn push(&mut self, entry: Entry)
        requires { length self.old.entries < self.old.limit }
        ensures entries { self.new.entries ≡ self.old.entries ++ entry ∷ [] }
        ensures limit { self.new.limit ≡ self.old.limit }
    {
        match &mut self.form {
            Form::Journaled(journal) => journal.push(entry),
            Form::Counted(count) => count.push(entry),
        }
    }

    /// The entries of the journal. None if there is no journal.
    pub fn entries(&self) -> &[Entry]
        ensures value { result.now ≡ kept_of self.now.limit self.now.entries }
        ensures few { length result.now ≤ 1048576 }
    {
        match &self.form {
            Form::Journaled(journal) => journal.entries(),
            Form::Counted(_) => &[],
        }
    }

    /// The limit of the journal. `None` if there is no journal.
    pub fn limit(&self) -> Option<Limit>
        ensures variant { IsSome result ↔ (self.now.limit ≤ 1048576) }
        ensures value { IfSome result (λ l. l ≡ self.now.limit) }
    {
        match &self.form {
            Form::Journaled(journal) => Some(journal.limit()),
            Form::Counted(_) => None,
        }
    }

    /// How many calls there may be between two trims: the limit of the journal, or 2^62 without
    /// one.
    pub fn call_limit(&self) -> u64
        ensures { result ≡ self.now.limit }
    {
        match &self.form {
            Form::Journaled(journal) => u64::from(journal.limit().get()),
            Form::Counted(_) => 1 << 62,
        }
    }

    /// The number of entries that a clause sees.
    pub fn calls(&self) -> u64
        ensures value { result ≡ length self.now.entries }
        ensures few { result ≤ 2 ^ 62 }
    {
        match &self.form {
            Form::Journaled(journal) => journal.entries().len() as u64,
            Form::Counted(count) => count.calls(),
        }
    }

    /// The entries among the first `n` whose calls can change a state. `AllocError` if memory runs
    /// out.
    pub fn changes(&self, alloc: Global, n: usize) -> Result<Vec<&Entry>, AllocError>
        requires kept { self.now.limit ≤ 1048576 }
        requires n { n ≤ length self.now.entries }
        ensures { IfOk result (λ changes. map (λ e. e.now) changes.items
            ≡ changes_of (take n self.now.entries)) }
    {
        match &self.form {
            Form::Journaled(journal) => journal.changes(alloc, n),
            Form::Counted(_) => unreachable!(),
        }
    }

    /// Discards the first `n` entries. Does not allocate.
    pub fn give_up(&mut self, n: usize)
        requires kept { self.old.limit ≤ 1048576 }
        requires n { n ≤ length self.old.entries }
        ensures entries { self.new.entries ≡ drop n self.old.entries }
        ensures limit { self.new.limit ≡ self.old.limit }
    {
        match &mut self.form {
            Form::Journaled(journal) => journal.give_up(n),
            Form::Counted(_) => unreachable!(),
        }
    }
}
