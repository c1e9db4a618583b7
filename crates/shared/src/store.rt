//! The book behind the gate.
ghost use Rattle.std.specs.Prelude.{◌≡◌, ◌⊎◌, ◌↔◌, ◌+◌, ◌≤◌, ◌<◌, ℕ, [], length, IfOk, IfErr};
ghost use Rattle.gate.specs.Places.{times};
ghost use Rattle.history.specs.Log.{call_limit};
ghost use Rattle.book.specs.Holds.{HoldsHistory};
ghost use Rattle.shared.specs.Passes.{IsConsistent};

use crate::Pass;
use book::{Book, Fault, Limit};
use gate::Gate;
use requests::BoxedBook;
use sealed::Width;
use std::alloc::Global;
use std::marker::Model;

/// A store. A clause sees which store it is, the width of its blobs, and the limit of its journal,
/// which is 2^62 if it has none. Dropping it drops its blobs.
#[derive(Drop)]
pub struct Store {
    pub(crate) gate: Gate<BoxedBook>,
    pub(crate) width: Width,
    limit: u64,
}

impl Model for Store {
    ghost use Rattle.shared.specs.Passes.{Which};

    ghost Value = { Which };

    ghost view = { λ s. record { table = s.gate; width = s.width; limit = s.limit } };
}

impl Store {
    /// An empty store. Its fragments have `width` bytes, and its journal holds at most `limit`
    /// entries. The one pass to it has the label 0 and a room of 64, and has seen and made no call.
    ///
    /// `BadWidth` if the width is not in 1..=65,536; else `NoMemory` if out of memory.
    pub fn open(alloc: Global, width: u32, limit: Limit) -> Result<(Store, Pass), Fault>
        ensures store { IfOk result (λ r. (r.0.width ≡ width) × (r.0.limit ≡ limit)) }
        ensures pass { IfOk result (λ r. r.1 ≡ record {
          store = r.0;
          who = 0;
          room = 64;
          seen = [];
          trimmed = 0;
          made = [];
          acts = [];
          did = [];
          visits = 0;
          seen_visits = 1;
          expected_visits = 0;
        }) }
        ensures bad_width { (result ≡ Err Fault.BadWidth) ↔ ((1 ≤ width) × (width ≤ 65536) → ⊥) }
        ensures faults { IfErr result (λ e. (e ≡ Fault.NoMemory) ⊎ (e ≡ Fault.BadWidth)) }
    {
        Store::open_with(alloc, width, Some(limit))
    }

    /// As `open`. Without a limit the store has no journal: it counts its calls, of which it takes
    /// 2^62, and takes no memory for them. A clause sees them all. A trim then discards nothing.
    pub fn open_with(
        alloc: Global,
        width: u32,
        limit: Option<Limit>,
    ) -> Result<(Store, Pass), Fault>
        ensures store { IfOk result (λ r. (r.0.width ≡ width) × (r.0.limit ≡ call_limit limit)) }
        ensures pass { IfOk result (λ r. r.1 ≡ record {
          store = r.0;
          who = 0;
          room = 64;
          seen = [];
          trimmed = 0;
          made = [];
          acts = [];
          did = [];
          visits = 0;
          seen_visits = 1;
          expected_visits = 0;
        }) }
        ensures bad_width { (result ≡ Err Fault.BadWidth) ↔ ((1 ≤ width) × (width ≤ 65536) → ⊥) }
        ensures faults { IfErr result (λ e. (e ≡ Fault.NoMemory) ⊎ (e ≡ Fault.BadWidth)) }
    {
        let Some(width) = Width::new(width) else {
            return Err(Fault::BadWidth);
        };
        let Ok(book) = Book::with_limit(alloc, width, limit) else {
            return Err(Fault::NoMemory);
        };
        let limit = book.call_limit();
        let Ok(kept) = BoxedBook::boxed(alloc, book) else {
            return Err(Fault::NoMemory);
        };
        let Ok((gate, seat)) = Gate::new(alloc, kept) else {
            return Err(Fault::NoMemory);
        };
        let store = Store { gate, width, limit };
        Ok((store, Pass { seat, who: 0 }))
    }

    /// Gives the book, once all passes are joined. The book records the history that the pass has
    /// seen. This pass, or one that it joined, made each call of it and each trim among them. It
    /// does not allocate.
    pub fn close(self, pass: Pass) -> Book
        requires store { pass.store ≡ self }
        requires lone { pass.room ≡ 64 }
        ensures holds { HoldsHistory result pass.seen }
        ensures made { (k : ℕ) → k < length pass.seen → times k pass.made ≡ 1 }
        ensures count { length pass.made ≡ length pass.seen }
        ensures trimmed { result.base.trimmed ≡ pass.trimmed }
        ensures agrees { IsConsistent pass }
        ensures did { (k : ℕ) → k < length pass.acts → times k pass.did ≡ 1 }
        ensures did_count { length pass.did ≡ length pass.acts }
        ensures entries { result.base.trimmed + length result.entries ≡ length pass.made }
        ensures unchanged { (result.width ≡ self.width) × (result.limit ≡ self.limit) }
    {
        self.take_book(pass)
    }

    /// As `close`, for a store that is shared. No other pass is left, so nobody calls it again.
    pub fn take_book(&self, pass: Pass) -> Book
        requires store { pass.store ≡ self.now }
        requires lone { pass.room ≡ 64 }
        ensures holds { HoldsHistory result pass.seen }
        ensures made { (k : ℕ) → k < length pass.seen → times k pass.made ≡ 1 }
        ensures count { length pass.made ≡ length pass.seen }
        ensures trimmed { result.base.trimmed ≡ pass.trimmed }
        ensures agrees { IsConsistent pass }
        ensures did { (k : ℕ) → k < length pass.acts → times k pass.did ≡ 1 }
        ensures did_count { length pass.did ≡ length pass.acts }
        ensures entries { result.base.trimmed + length result.entries ≡ length pass.made }
        ensures unchanged { (result.width ≡ self.now.width) × (result.limit ≡ self.now.limit) }
    {
        let Pass { seat, who: _ } = pass;
        let BoxedBook(book) = self.gate.take(seat);
        Box::into_inner(book)
    }
}
