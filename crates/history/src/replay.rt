//! The sequential specification without bytes: its reply to each call, and its state afterwards.
//!
//! Each reply is a function of its own, because its clause names the specification's reply.
ghost use Rattle.std.specs.Prelude.{◌≡◌, ◌≤◌, ◌+◌, ◌↔◌, IsTrue, IfOk, OnOk, None, cond, map};
ghost use Rattle.std.specs.Prelude.{replicate};
ghost use Rattle.std.specs.Option.{option_map};
ghost use Rattle.std.specs.BTreeMap.{get};
ghost use Rattle.sealed.specs.Layout.{stripe_count};
ghost use Rattle.history.specs.Metadata.{seen_as, views_of, outlines_of, PairsRise};
ghost use Rattle.history.specs.Base.{IsRising};
ghost use Rattle.history.specs.Names.{name_cmp};
ghost use Rattle.history.specs.Parts.{changes_of, is_changed};
ghost use Rattle.history.specs.Views.{read_reply, lose_reply, repair_reply, restore_reply};
ghost use Rattle.history.specs.Views.{delete_reply};
ghost use Rattle.history.specs.Views.{stat_reply, view_after, added, taken, changed, IsNoted};
ghost use Rattle.history.specs.Views.{AreNoted, next_views, all_next};
ghost use Rattle.history.specs.Step.{put};

use crate::metadata::BlobMetadata;
use crate::{Base, Call, Entry, Name, Note};
use lrc_code::Code;
use sealed::{Width, count_stripes};
use std::alloc::{AllocError, Global};
use std::collections::{BTreeMap, BTreeSet};

/// The names with their blobs' outlines, and the number of puts so far.
#[derive(Drop)]
pub struct Replay {
    pub names: BTreeMap<Name, BlobMetadata>,
    pub puts: u64,
    pub width: Width,
}

impl Replay {
    /// The state that a base outlines. `AllocError` if memory runs out.
    pub fn from_base(alloc: Global, base: &Base, width: Width) -> Result<Replay, AllocError>
        ensures names { IfOk result (λ replay. outlines_of replay ≡ base.now.names) }
        ensures rising { IfOk result (λ replay. IsRising (outlines_of replay)) }
        ensures puts { IfOk result (λ replay. replay.puts ≡ base.now.puts) }
        ensures width { IfOk result (λ replay. replay.width ≡ width) }
    {
        let mut names = BTreeMap::new(alloc);
        for (name, kept) in &base.names {
            let kept = kept.duplicate(alloc)?;
            let Ok(_) = names.insert(name.duplicate(), kept) else {
                return Err(AllocError);
            };
        }
        Ok(Replay {
            names,
            puts: base.puts,
            width,
        })
    }

    /// The part of the names that the entries can change, after this many puts. It copies no other
    /// name's blob. `AllocError` if memory runs out.
    pub fn part(
        alloc: Global,
        all: &BTreeMap<Name, BlobMetadata>,
        puts: u64,
        entries: &[&Entry],
        width: Width,
    ) -> Result<Replay, AllocError>
        ensures names { IfOk result (λ replay. (q : _)
            → get name_cmp replay.names q ≡ cond (is_changed (map (λ e. e.now) entries.now) q)
            (get name_cmp all.now q) None) }
        ensures rising { IfOk result (λ replay. PairsRise replay.names) }
        ensures puts { IfOk result (λ replay. replay.puts ≡ puts) }
        ensures width { IfOk result (λ replay. replay.width ≡ width) }
    {
        let mut names = BTreeMap::new(alloc);
        for entry in entries {
            let name = entry.call.name();
            if !entry.call.can_change() || names.contains_key(name) {
                continue;
            }
            let Some(kept) = all.get(name) else {
                continue;
            };
            let kept = kept.duplicate(alloc)?;
            let Ok(_) = names.insert(name.duplicate(), kept) else {
                return Err(AllocError);
            };
        }
        Ok(Replay { names, puts, width })
    }

    /// Applies the entries whose calls can change a state, up to the first whose note is not the
    /// reply. It reads no other entry. `AllocError` if memory runs out.
    pub fn take_in(&mut self, alloc: Global, entries: &[&Entry]) -> Result<(), AllocError>
        ensures views { OnOk result (AreNoted self.old.width (views_of self.old)
            (changes_of (map (λ e. e.now) entries.now))
            → views_of self.new ≡ all_next (views_of self.old)
            (changes_of (map (λ e. e.now) entries.now))) }
        ensures rising { OnOk result (PairsRise self.old.names → PairsRise self.new.names) }
    {
        for entry in entries {
            if entry.call.can_change() {
                if !self.expects(entry) {
                    return Ok(());
                }
                self.apply(alloc, entry)?;
            }
        }
        Ok(())
    }

    /// Applies the entries up to the first whose note is not the reply, and returns whether there
    /// was none. `AllocError` if memory runs out.
    pub fn follow(&mut self, alloc: Global, entries: &[Entry]) -> Result<bool, AllocError>
        ensures variant { IfOk result (λ followed. IsTrue followed
            ↔ AreNoted self.old.width (views_of self.old) entries.now) }
        ensures views { IfOk result (λ followed. IsTrue followed
            → views_of self.new ≡ all_next (views_of self.old) entries.now) }
    {
        for entry in entries {
            if !self.expects(entry) {
                return Ok(false);
            }
            self.apply(alloc, entry)?;
        }
        Ok(true)
    }

    /// Whether the note of an entry is the reply to its call.
    pub fn expects(&self, entry: &Entry) -> bool
        ensures { IsTrue result ↔ IsNoted self.now.width (views_of self.now) entry.now }
    {
        match &entry.call {
            Call::Put { code, len, .. } => self.expects_put(*code, *len, entry.note),
            Call::Read { name, start, len } => entry.note == self.read(name, *start, *len),
            Call::Lose {
                name,
                stripe,
                fragment,
            } => entry.note == self.lose(name, *stripe, *fragment),
            Call::Repair {
                name,
                stripe,
                fragment,
            } => entry.note == self.repair(name, *stripe, *fragment),
            Call::Restore {
                name,
                version,
                stripe,
                fragment,
            } => entry.note == self.restore(name, *version, *stripe, *fragment),
            Call::Delete { name } => entry.note == self.delete(name),
            Call::Stat { name } => entry.note == self.stat(name),
        }
    }

    /// Whether this many bytes can be stored, and the note is the reply to the put.
    fn expects_put(&self, code: Code, len: u64, note: Note) -> bool
        ensures { IsTrue result ↔ ((stripe_count code self.now.width len ≤ 4096)
            × (note ≡ Note.Stored (self.now.puts + 1))) }
    {
        match note {
            Note::Stored(version) => {
                version > 0
                    && version - 1 == self.puts
                    && count_stripes(code, self.width, len) <= 4096
            }
            _ => false,
        }
    }

    /// The outline of a name's blob.
    fn find(&self, name: &Name) -> Option<&BlobMetadata>
        ensures { option_map (λ k. seen_as k.now) result ≡ (views_of self.now).names name.now }
    {
        self.names.get(name)
    }

    /// The reply to a read.
    fn read(&self, name: &Name, start: u64, len: u64) -> Note
        ensures { result ≡ read_reply self.now.width ((views_of self.now).names name.now) start
            len }
    {
        match self.find(name) {
            Some(kept) => kept.read(self.width, start, len),
            None => Note::NoName,
        }
    }

    /// The reply to a loss.
    fn lose(&self, name: &Name, stripe: u64, fragment: u64) -> Note
        ensures { result ≡ lose_reply self.now.width ((views_of self.now).names name.now) stripe
            fragment }
    {
        match self.find(name) {
            Some(kept) => kept.lose(self.width, stripe, fragment),
            None => Note::NoName,
        }
    }

    /// The reply to a repair.
    fn repair(&self, name: &Name, stripe: u64, fragment: u64) -> Note
        ensures { result ≡ repair_reply self.now.width ((views_of self.now).names name.now) stripe
            fragment }
    {
        match self.find(name) {
            Some(kept) => kept.repair(self.width, stripe, fragment),
            None => Note::NoName,
        }
    }

    /// The reply to a restoration.
    fn restore(&self, name: &Name, version: u64, stripe: u64, fragment: u64) -> Note
        ensures { result ≡ restore_reply self.now.width ((views_of self.now).names name.now)
            version stripe fragment }
    {
        match self.find(name) {
            Some(kept) => kept.restore(self.width, version, stripe, fragment),
            None => Note::NoName,
        }
    }

    /// The reply to a deletion.
    fn delete(&self, name: &Name) -> Note
        ensures { result ≡ delete_reply self.now.width ((views_of self.now).names name.now) }
    {
        match self.find(name) {
            Some(kept) => Note::Deleted(kept.version),
            None => Note::NoName,
        }
    }

    /// The reply to a stat.
    fn stat(&self, name: &Name) -> Note
        ensures { result ≡ stat_reply self.now.width ((views_of self.now).names name.now) }
    {
        match self.find(name) {
            Some(kept) => kept.stat(self.width),
            None => Note::NoName,
        }
    }

    /// Applies an entry whose note is the reply to its call. `AllocError` if memory runs out.
    pub fn apply(&mut self, alloc: Global, entry: &Entry) -> Result<(), AllocError>
        requires { IsNoted self.old.width (views_of self.old) entry.now }
        ensures views { OnOk result (views_of self.new ≡ next_views (views_of self.old) entry.now) }
        ensures rising { OnOk result (PairsRise self.old.names → PairsRise self.new.names) }
        ensures width { self.new.width ≡ self.old.width }
    {
        match &entry.call {
            Call::Put { name, code, len } => match entry.note {
                Note::Stored(version) => self.apply_put(alloc, name, *code, *len, version),
                _ => Ok(()),
            },
            Call::Lose {
                name,
                stripe,
                fragment,
            } => match entry.note {
                Note::Lost(_) => self.add_lost(name, *stripe, *fragment as u8),
                _ => Ok(()),
            },
            Call::Repair {
                name,
                stripe,
                fragment,
            }
            | Call::Restore {
                name,
                stripe,
                fragment,
                ..
            } => {
                if let Note::Repaired(_) = entry.note {
                    self.take_lost(name, *stripe, *fragment as u8);
                }
                Ok(())
            }
            Call::Delete { name } => {
                if let Note::Deleted(_) = entry.note {
                    self.names.remove(name);
                }
                Ok(())
            }
            Call::Read { .. } | Call::Stat { .. } => Ok(()),
        }
    }

    /// Gives the name a new blob with the next version.
    fn apply_put(
        &mut self,
        alloc: Global,
        name: &Name,
        code: Code,
        len: u64,
        version: u64,
    ) -> Result<(), AllocError>
        requires { version ≡ self.old.puts + 1 }
        ensures views { OnOk result (views_of self.new
            ≡ view_after (views_of self.old) (put name.now code (replicate len 0))
            (Note.Stored version)) }
        ensures rising { OnOk result (PairsRise self.old.names → PairsRise self.new.names) }
        ensures width { self.new.width ≡ self.old.width }
    {
        let kept = BlobMetadata {
            version,
            len,
            code,
            lost: BTreeSet::new(alloc),
        };
        let Ok(_) = self.names.insert(name.duplicate(), kept) else {
            return Err(AllocError);
        };
        self.puts = version;
        Ok(())
    }

    /// Adds a lost fragment to the name's blob.
    fn add_lost(&mut self, name: &Name, stripe: u64, f: u8) -> Result<(), AllocError>
        ensures views { OnOk result (views_of self.new
            ≡ changed (views_of self.old) name.now ((views_of self.old).names name.now)
            (added stripe f)) }
        ensures rising { OnOk result (PairsRise self.old.names → PairsRise self.new.names) }
        ensures width { self.new.width ≡ self.old.width }
    {
        let Some(kept) = self.names.get_mut(name) else {
            return Ok(());
        };
        let Ok(_) = kept.lost.insert((stripe, f)) else {
            return Err(AllocError);
        };
        Ok(())
    }

    /// Removes a lost fragment from the name's blob.
    fn take_lost(&mut self, name: &Name, stripe: u64, f: u8)
        ensures views { views_of self.new ≡ changed (views_of self.old) name.now
            ((views_of self.old).names name.now) (taken stripe f) }
        ensures rising { PairsRise self.old.names → PairsRise self.new.names }
        ensures width { self.new.width ≡ self.old.width }
    {
        if let Some(kept) = self.names.get_mut(name) {
            kept.lost.remove(&(stripe, f));
        }
    }
}
