//! The memory of a journal, in which no entry ever moves.
//!
//! It has `2 * limit` slots, and the entries are those from `start` up to `end`. An entry at an
//! index of `limit` or more is written a second time, `limit` slots earlier. As soon as no entry
//! has a smaller index, both numbers fall by `limit`, so that the entries are those copies.
ghost use Rattle.std.specs.Prelude.{◌≡◌, ◌<◌, ◌≤◌, ◌+◌, ◌-◌, ◌*◌, [], ◌∷◌, ◌++◌, drop, take};
ghost use Rattle.std.specs.Prelude.{length, IfOk, slice_set};
ghost use Rattle.std.specs.Vec.{vec_capacity};

use crate::{Entry, Limit};
use std::alloc::{AllocError, Global};
use std::marker::Model;

/// At most `limit` entries, with their memory.
#[derive(Drop)]
pub(crate) struct Window {
    slots: Vec<Entry>,
    limit: Limit,
    start: usize,
    end: usize,
}

impl Model for Window {
    ghost use Rattle.history.specs.Stretch.{Stretch};

    ghost Value = { Stretch };

    ghost use Rattle.std.specs.Prelude.{◌≤◌, ◌*◌, drop, take};
    ghost use Rattle.std.specs.Vec.{vec_capacity};
    ghost use Rattle.history.specs.Stretch.{IsStretch};

    ghost view = { λ w. record {
      limit = w.limit;
      entries = drop w.start (take w.end w.slots.items);
    } };

    ghost invariant = { λ w. IsStretch w.slots.items w.limit w.start w.end
        × (2 * w.limit ≤ vec_capacity w.slots) × (w.limit ≤ 1048576) };
}

impl Window {
    /// No entries. `AllocError` if there is no memory for `2 * limit` entries.
    pub(crate) fn new(alloc: Global, limit: Limit) -> Result<Window, AllocError>
        ensures { IfOk result (λ w. w ≡ record { limit = limit; entries = [] }) }
    {
        let slots = Vec::with_capacity(alloc, 2 * limit.get() as usize)?;
        Ok(Window {
            slots,
            limit,
            start: 0,
            end: 0,
        })
    }

    /// How many entries there may be.
    pub(crate) fn limit(&self) -> Limit
        ensures { result ≡ self.now.limit }
    {
        self.limit
    }

    /// The entries, in order.
    pub(crate) fn entries(&self) -> &[Entry]
        ensures value { result.now ≡ self.now.entries }
        ensures fits { length self.now.entries ≤ self.now.limit }
        ensures small { self.now.limit ≤ 1048576 }
    {
        &self.slots[self.start..self.end]
    }

    /// Appends an entry, which is written at most twice. Does not allocate.
    pub(crate) fn push(&mut self, entry: Entry)
        requires { length self.old.entries < self.old.limit }
        ensures { self.new ≡ record self.old { entries = self.old.entries ++ entry ∷ [] } }
    {
        let limit = self.limit.get() as usize;
        let end = self.end;
        copy_before(&mut self.slots, limit, end, &entry);
        write(&mut self.slots, end, entry);
        self.end = end + 1;
    }

    /// Discards the first `n` entries. It reads and writes no entry. Does not allocate.
    pub(crate) fn discard(&mut self, n: usize)
        requires { n ≤ length self.old.entries }
        ensures { self.new ≡ record self.old { entries = drop n self.old.entries } }
    {
        let limit = self.limit.get() as usize;
        self.start += n;
        if self.start >= limit {
            self.start -= limit;
            self.end -= limit;
        }
    }
}

/// Writes an entry at `at`, which may be the vector's end. Does not allocate.
fn write(slots: &mut Vec<Entry>, at: usize, entry: Entry)
    requires reached { at ≤ length slots.old.items }
    requires room { at < vec_capacity slots.old }
    ensures items { take (at + 1) slots.new.items ≡ take at slots.old.items ++ entry ∷ [] }
    ensures capacity { vec_capacity slots.old ≤ vec_capacity slots.new }
{
    if at < slots.len() {
        slots[at] = entry;
    } else {
        let Ok(()) = slots.push(entry) else {
            unreachable!();
        };
    }
}

/// Writes a copy of the entry `limit` slots before `at`, if there are so many.
fn copy_before(slots: &mut Vec<Entry>, limit: usize, at: usize, entry: &Entry)
    requires reached { at ≤ length slots.old.items }
    requires begins { 1 ≤ limit }
    ensures copied { limit ≤ at
        → slots.new.items ≡ slice_set slots.old.items (at - limit) entry.now }
    ensures unchanged { at < limit → slots.new.items ≡ slots.old.items }
    ensures capacity { vec_capacity slots.old ≤ vec_capacity slots.new }
{
    if at >= limit {
        slots[at - limit] = entry.duplicate();
    }
}
