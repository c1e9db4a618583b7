//! What remains of discarded journal entries.
ghost use Rattle.std.specs.Prelude.{◌≡◌, ◌≤◌, ◌+◌, ◌^◌, map, length, count_by, OnOk, OnErr};
ghost use Rattle.history.specs.Base.{Outlines, empty_base};
ghost use Rattle.history.specs.History.{History, IsLegalFrom, after_all, entry_of, is_put};
ghost use Rattle.history.specs.Parts.{changes_of};
ghost use Rattle.history.specs.State.{State};

use crate::note::count_puts;
use crate::replay::Replay;
use crate::settle::{fill, make_room, take_out};
use crate::{BlobMetadata, Entry, Name};
use sealed::Width;
use std::alloc::{AllocError, Global};
use std::collections::BTreeMap;
use std::marker::Model;

/// How many calls were discarded, at most 2^63, and an outline of the state after them.
#[derive(Drop)]
pub struct Base {
    /// How many calls were discarded.
    pub trimmed: u64,
    /// How many of them were puts.
    pub puts: u64,
    /// The names in the state after them, each with its blob's outline.
    pub names: BTreeMap<Name, BlobMetadata>,
}

impl Model for Base {
    ghost use Rattle.history.specs.Base.{Checkpoint};

    ghost Value = { Checkpoint };

    ghost use Rattle.std.specs.Prelude.{◌≤◌, ◌^◌, map};
    ghost use Rattle.history.specs.Base.{IsRising};

    ghost view = { λ b. record {
      trimmed = b.trimmed;
      puts = b.puts;
      names = map (λ e. record {
        name = e.0;
        version = e.1.version;
        len = e.1.len;
        code = e.1.code;
        lost = e.1.lost.keys;
      }) b.names.entries;
    } };

    ghost invariant = { λ b. (b.trimmed ≤ 2 ^ 63) × IsRising (map (λ e. record {
      name = e.0;
      version = e.1.version;
      len = e.1.len;
      code = e.1.code;
      lost = e.1.lost.keys;
    }) b.names.entries) };
}

impl Base {
    /// The base of a journal that has discarded nothing. Does not allocate.
    pub fn empty(alloc: Global) -> Base
        ensures { result ≡ empty_base }
    {
        Base {
            trimmed: 0,
            puts: 0,
            names: BTreeMap::new(alloc),
        }
    }

    /// Adds the calls of these entries, which a book of this width answered. For each state that
    /// the base outlined and from which they are legal, it then outlines the state after them.
    ///
    /// `changes` are the entries whose calls can change a state. The function reads no other entry
    /// and no other name, and copies only the lost fragments of blobs that they can change.
    ///
    /// `AllocError` if memory runs out; the base is then unchanged.
    pub fn advance(
        &mut self,
        alloc: Global,
        entries: &[Entry],
        changes: &[&Entry],
        width: Width,
    ) -> Result<(), AllocError>
        requires changes { map (λ e. e.now) changes.now ≡ changes_of entries.now }
        requires room { self.old.trimmed + length entries.now ≤ 2 ^ 63 }
        requires puts { self.old.puts ≤ self.old.trimmed }
        ensures trimmed { OnOk result (self.new.trimmed ≡ self.old.trimmed + length entries.now) }
        ensures puts { OnOk result (self.new.puts ≡ self.old.puts + count_by is_put entries.now) }
        ensures outlines { OnOk result ((s : State) (h : History) → Outlines self.old s
            → IsLegalFrom width s h → map entry_of h ≡ entries.now
            → Outlines self.new (after_all s h)) }
        ensures err { OnErr result (self.new ≡ self.old) }
    {
        let mut part = Replay::part(alloc, &self.names, self.puts, changes, width)?;
        part.take_in(alloc, changes)?;
        make_room(alloc, &mut self.names, &part.names)?;
        take_out(&mut self.names, &part.names, changes);
        fill(&mut self.names, part.names);
        self.trimmed += entries.len() as u64;
        self.puts += count_puts(changes);
        Ok(())
    }
}
