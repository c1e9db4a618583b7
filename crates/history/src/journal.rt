//! The journal, whose memory is allocated at once.
ghost use Rattle.std.specs.Prelude.{◌≡◌, ◌<◌, ◌≤◌, [], ◌∷◌, ◌++◌, ◌==◌, drop, take, map, length};
ghost use Rattle.std.specs.Prelude.{IfOk};
ghost use Rattle.history.specs.Parts.{changes_of};

use crate::note::changes_in;
use crate::window::Window;
use crate::{Entry, Limit};
use std::alloc::{AllocError, Global};
use std::marker::Model;

/// The entries, at most as many as the limit.
#[derive(Drop)]
pub struct Journal {
    window: Window,
    /// The number of entries up to the last one whose call can change a state, that one included.
    changing: usize,
}

impl Model for Journal {
    ghost use Rattle.history.specs.Stretch.{Stretch};

    ghost Value = { Stretch };

    ghost use Rattle.std.specs.Prelude.{◌≡◌, [], drop};
    ghost use Rattle.history.specs.Parts.{changes_of};

    ghost view = { λ j. j.window };

    ghost invariant = { λ j. changes_of (drop j.changing j.window.entries) ≡ [] };
}

impl Journal {
    /// An empty journal. `AllocError` if there is no memory for `2 * limit` entries.
    pub fn new(alloc: Global, limit: Limit) -> Result<Journal, AllocError>
        ensures { IfOk result (λ j. (j.entries ≡ []) × (j.limit ≡ limit)) }
    {
        let window = Window::new(alloc, limit)?;
        Ok(Journal {
            window,
            changing: 0,
        })
    }

    /// How many entries there may be.
    pub fn limit(&self) -> Limit
        ensures { result ≡ self.now.limit }
    {
        self.window.limit()
    }

    /// The entries, in order.
    pub fn entries(&self) -> &[Entry]
        ensures value { result.now ≡ self.now.entries }
        ensures few { length self.now.entries ≤ 1048576 }
        ensures small { self.now.limit ≤ 1048576 }
    {
        self.window.entries()
    }

    /// Whether there are as many entries as the limit. There are never more.
    pub fn is_full(&self) -> bool
        ensures value { result ≡ (length self.now.entries == self.now.limit) }
        ensures fits { length self.now.entries ≤ self.now.limit }
        ensures small { self.now.limit ≤ 1048576 }
    {
        self.window.entries().len() == self.window.limit().get() as usize
    }

    /// Appends an entry. Does not allocate.
    pub fn push(&mut self, entry: Entry)
        requires { length self.old.entries < self.old.limit }
        ensures entries { self.new.entries ≡ self.old.entries ++ entry ∷ [] }
        ensures limit { self.new.limit ≡ self.old.limit }
    {
        let can_change = entry.call.can_change();
        self.window.push(entry);
        if can_change {
            self.changing = self.window.entries().len();
        }
    }

    /// The entries among the first `n` whose calls can change a state. It reads none behind the
    /// journal's last such entry. `AllocError` if memory runs out.
    pub fn changes(&self, alloc: Global, n: usize) -> Result<Vec<&Entry>, AllocError>
        requires { n ≤ length self.now.entries }
        ensures { IfOk result (λ changes. map (λ e. e.now) changes.items
            ≡ changes_of (take n self.now.entries)) }
    {
        changes_in(alloc, &self.entries()[..n.min(self.changing)])
    }

    /// Discards the first `n` entries, in the same time for any number of entries. The journal
    /// keeps its memory. Does not allocate.
    pub fn give_up(&mut self, n: usize)
        requires { n ≤ length self.old.entries }
        ensures entries { self.new.entries ≡ drop n self.old.entries }
        ensures limit { self.new.limit ≡ self.old.limit }
    {
        self.window.discard(n);
        self.changing = self.changing.saturating_sub(n);
    }
}
