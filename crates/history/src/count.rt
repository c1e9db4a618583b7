//! The number of calls, without a journal.
ghost use Rattle.std.specs.Prelude.{◌≡◌, ◌<◌, ◌≤◌, ◌^◌, [], ◌∷◌, ◌++◌, ◌==◌, length};

use crate::Entry;
use crate::trail::Trail;

/// How many calls were recorded, at most 2^62. Their entries exist in proofs alone.
#[derive(Drop)]
pub struct Count {
    calls: u64,
    pub trail: Trail,
    ghost counted: { calls ≡ length trail.entries },
    ghost few: { calls ≤ 2 ^ 62 },
}

impl Count {
    /// Of no call.
    pub fn new() -> Count
        ensures { result.trail.entries ≡ [] }
    {
        Count {
            calls: 0,
            trail: Trail::new(),
        }
    }

    /// Whether 2^62 calls were recorded.
    pub fn is_full(&self) -> bool
        ensures { result ≡ (length self.now.trail.entries == 2 ^ 62) }
    {
        self.calls == 1 << 62
    }

    /// Counts a call. Does not allocate.
    pub fn push(&mut self, entry: Entry)
        requires { length self.old.trail.entries < 2 ^ 62 }
        ensures { self.new.trail.entries ≡ self.old.trail.entries ++ entry ∷ [] }
    {
        self.trail.push(&entry);
        self.calls += 1;
    }

    /// The number of calls.
    pub fn calls(&self) -> u64
        ensures { result ≡ length self.now.trail.entries }
    {
        self.calls
    }
}
