//! The constructor of a book, and its accessors.
ghost use Rattle.std.specs.Prelude.{◌≡◌, ◌≤◌, ◌+◌, ◌^◌, ◌↔◌, [], length, IsTrue, IfOk};
ghost use Rattle.std.specs.Prelude.{IfErr, IsSome, IfSome};
ghost use Rattle.std.specs.Option.{option_map};
ghost use Rattle.history.specs.Base.{empty_base};
ghost use Rattle.history.specs.Log.{call_limit};
ghost use Rattle.book.specs.Contents.{journal_of, sealed_at};
ghost use Rattle.book.specs.Holds.{HoldsHistory};

use crate::book::Book;
use crate::catalogue::Catalogue;
use crate::truth::Truth;
use crate::{Base, Entry, Fault, Limit, Name};
use history::Log;
use sealed::{Sealed, Width};
use std::alloc::Global;
use std::sync::Arc;

impl Book {
    /// An empty book, whose blobs have this width and whose journal holds at most `limit` entries.
    /// It allocates the whole journal, so that no later call allocates for its entry.
    ///
    /// `NoMemory` if memory for the journal runs out.
    pub fn new(alloc: Global, width: Width, limit: Limit) -> Result<Book, Fault>
        ensures ok { IfOk result (λ b. b ≡ record {
          width = width;
          limit = limit;
          base = empty_base;
          entries = [];
          catalogue = [];
          truth = [];
        }) }
        ensures holds { IfOk result (λ b. HoldsHistory b []) }
        ensures err { IfErr result (λ e. e ≡ Fault.NoMemory) }
    {
        Book::with_limit(alloc, width, Some(limit))
    }

    /// As `new`. Without a limit the book has no journal: it counts its calls, 2^62 at most, whose
    /// entries clauses alone see, and takes no memory for them.
    pub fn with_limit(alloc: Global, width: Width, limit: Option<Limit>) -> Result<Book, Fault>
        ensures ok { IfOk result (λ b. b ≡ record {
          width = width;
          limit = call_limit limit;
          base = empty_base;
          entries = [];
          catalogue = [];
          truth = [];
        }) }
        ensures holds { IfOk result (λ b. HoldsHistory b []) }
        ensures err { IfErr result (λ e. e ≡ Fault.NoMemory) }
    {
        Ok(Book {
            log: Log::new(alloc, limit)?,
            catalogue: Catalogue::new(alloc),
            base: Base::empty(alloc),
            width,
            puts: 0,
            truth: Truth::new(),
        })
    }

    /// Whether the journal holds as many entries as its limit. Without a journal: whether 2^62
    /// calls were made.
    pub fn is_full(&self) -> bool
        ensures value { IsTrue result ↔ (length self.now.entries ≡ self.now.limit) }
        ensures few { length self.now.entries ≤ self.now.limit }
        ensures small { self.now.limit ≤ 2 ^ 62 }
    {
        self.log.is_full()
    }

    /// The sealed blob of a name, or `None` if it has none.
    pub fn find(&self, name: &Name) -> Option<&Arc<Sealed>>
        ensures { option_map (λ a. a.now.value) result ≡ sealed_at self.now name.now }
    {
        match self.catalogue.get(name) {
            Some(stored) => Some(stored.sealed()),
            None => None,
        }
    }

    /// The entries of the journal: the calls since the base, in order, each with its note. None if
    /// there is no journal.
    pub fn entries(&self) -> &[Entry]
        ensures value { result.now ≡ journal_of self.now }
        ensures few { length result.now ≤ 1048576 }
    {
        self.log.entries()
    }

    /// What remains of the discarded calls: how many they were, and an outline of the state after
    /// them.
    pub fn base(&self) -> &Base
        ensures { result.now ≡ self.now.base }
    {
        &self.base
    }

    /// The width of all blobs: the bytes of a fragment.
    pub fn width(&self) -> Width
        ensures { result ≡ self.now.width }
    {
        self.width
    }

    /// How many entries the journal may hold. `None` if there is no journal.
    pub fn limit(&self) -> Option<Limit>
        ensures variant { IsSome result ↔ (self.now.limit ≤ 1048576) }
        ensures value { IfSome result (λ l. l ≡ self.now.limit) }
    {
        self.log.limit()
    }

    /// How many calls there may be between two trims: the limit of the journal, or 2^62 without
    /// one.
    pub fn call_limit(&self) -> u64
        ensures { result ≡ self.now.limit }
    {
        self.log.call_limit()
    }

    /// The number of calls so far, with the discarded ones. Without a journal there is no other
    /// account of them.
    pub fn calls(&self) -> u64
        ensures { result ≡ self.now.base.trimmed + length self.now.entries }
    {
        self.base.trimmed + self.log.calls()
    }
}
