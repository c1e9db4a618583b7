//! The sealed blobs by name.
ghost use Rattle.std.specs.Prelude.{◌≡◌, List, ℕ, [], None, Some, true, false, cond, take, IfOk};
ghost use Rattle.std.specs.Prelude.{length, IfErr, IfSome, OnOk, OnErr};
ghost use Rattle.std.specs.BTreeMap.{is_at};
ghost use Rattle.std.specs.BTreeSet.{contains};
ghost use Rattle.std.specs.List.{flat_map};
ghost use Rattle.std.specs.List.Sorted.{IsStrictlySortedBy};
ghost use Rattle.std.specs.Map.{keys_of};
ghost use Rattle.std.specs.Option.{option_map};
ghost use Rattle.sealed.specs.Blob.{nothing};
ghost use Rattle.sealed.specs.Sealed.{StandsFor};
ghost use Rattle.history.specs.Names.{name_cmp};
ghost use Rattle.history.specs.Views.{lose_reply, repair_reply, restore_reply};
ghost use Rattle.book.specs.Catalogue.{lacks_at, bound_from};
ghost use Rattle.book.specs.Known.{IsRepairFor};
ghost use Rattle.book.specs.Losing.{Loses, Mends, Restores, Replaces, value_at};
ghost use Rattle.book.specs.Notes.{note_of};
ghost use Rattle.book.specs.Plan.{items_lacked, items_after};
ghost use Rattle.book.specs.Totals.{totals_of};

use crate::lose::lose_in;
use crate::plan::Item;
use crate::repair::{Rebuilt, repair_in};
use crate::restore::restore_in;
use crate::stored_blob::StoredBlob;
use crate::totals::Totals;
use crate::{Answer, Bytes, Fault, Name, Sealed};
use std::alloc::{AllocError, Global};
use std::collections::{BTreeMap, BTreeSet};
use std::marker::Model;
use std::ops::Bound;
use std::sync::Arc;

/// The sealed blobs by name, and the names of those that lack a fragment. So the lost fragments are
/// listed without a look at the other blobs. The totals of all blobs stand beside them.
#[derive(Drop)]
pub(crate) struct Catalogue {
    blobs: BTreeMap<Name, StoredBlob>,
    lacking: BTreeSet<Name>,
    totals: Totals,
}

impl Model for Catalogue {
    ghost use Rattle.book.specs.Losing.{Catalogue as Blobs};

    ghost Value = { Blobs };

    ghost use Rattle.std.specs.Prelude.{◌≡◌, List, ℕ};
    ghost use Rattle.std.specs.BTreeSet.{contains};
    ghost use Rattle.history.specs.Names.{name_cmp};
    ghost use Rattle.book.specs.Catalogue.{lacks_at};
    ghost use Rattle.book.specs.Totals.{AreTotals};

    ghost view = { λ c. c.blobs.entries };

    ghost invariant = { λ c. ((n : List ℕ) → contains name_cmp c.lacking n
        ≡ lacks_at c.blobs.entries n) × AreTotals c.totals c.blobs.entries };
}

impl Catalogue {
    /// A catalogue without names.
    pub fn new(alloc: Global) -> Catalogue
        ensures { result ≡ [] }
    {
        Catalogue {
            blobs: BTreeMap::new(alloc),
            lacking: BTreeSet::new(alloc),
            totals: Totals::of(None),
        }
    }

    /// How many names there are.
    pub fn len(&self) -> u64
        ensures value { result ≡ length self.now }
        ensures rising { IsStrictlySortedBy name_cmp (keys_of self.now) }
    {
        self.blobs.len() as u64
    }

    /// The totals of all blobs.
    pub fn totals(&self) -> Totals
        ensures { result ≡ totals_of self.now }
    {
        self.totals
    }

    /// The blob of a name.
    pub fn get(&self, name: &Name) -> Option<&StoredBlob>
        ensures { option_map (λ s. s.now) result ≡ value_at self.now name.now }
    {
        self.blobs.get(name)
    }

    /// Gives a name a blob without lost fragments, and drops the blob that it had. `AllocError` if
    /// memory runs out; the catalogue is then unchanged.
    pub fn insert(&mut self, name: &Name, sealed: Arc<Sealed>) -> Result<(), AllocError>
        requires { (b : List ℕ) × StandsFor sealed.value b nothing }
        ensures ok { OnOk result ((q : List ℕ) → value_at self.new q
            ≡ cond (is_at (name_cmp name.now) q) (Some sealed.value) (value_at self.old q)) }
        ensures err { OnErr result (self.new ≡ self.old) }
    {
        let stored = StoredBlob::whole(sealed);
        let after = stored.share();
        let replaced = self.blobs.insert(name.duplicate(), stored)?;
        let before = Totals::of(replaced.as_ref());
        self.totals.replace(&self.blobs, before, after);
        self.lacking.remove(name);
        Ok(())
    }

    /// Removes a name, and returns its blob.
    pub fn remove(&mut self, name: &Name) -> Option<StoredBlob>
        ensures value { result ≡ value_at self.old name.now }
        ensures updates { (q : List ℕ) → value_at self.new q
            ≡ cond (is_at (name_cmp name.now) q) None (value_at self.old q) }
    {
        self.lacking.remove(name);
        let removed = self.blobs.remove(name);
        let before = Totals::of(removed.as_ref());
        self.totals.replace(&self.blobs, before, Totals::of(None));
        removed
    }

    /// Loses a fragment of a name's blob. The only error is `NoMemory`; the catalogue is then
    /// unchanged.
    pub fn lose(
        &mut self,
        alloc: Global,
        name: &Name,
        stripe: u64,
        fragment: u64,
    ) -> Result<Answer, Fault>
        ensures ok { IfOk result (λ a. Replaces (λ w x. lose_reply w x stripe fragment)
            (Loses stripe fragment (note_of a)) self.old self.new name.now (note_of a)) }
        ensures faults { IfErr result (λ e. e ≡ Fault.NoMemory) }
        ensures err { OnErr result (self.new ≡ self.old) }
    {
        if self.lacking.insert(name.duplicate()).is_err() {
            return Err(Fault::NoMemory);
        }
        let before = Totals::of(self.blobs.get(name));
        let answer = lose_in(&mut self.blobs, alloc, name, stripe, fragment);
        settle(&mut self.lacking, &self.blobs, name);
        let after = Totals::of(self.blobs.get(name));
        self.totals.replace(&self.blobs, before, after);
        answer
    }

    /// Rebuilds a lost fragment of a name's blob, or installs the bytes that were rebuilt if the
    /// blob has their version. The only error is `NoMemory`; the catalogue is then unchanged.
    pub fn repair(
        &mut self,
        alloc: Global,
        name: &Name,
        stripe: u64,
        fragment: u64,
        rebuilt: Option<Rebuilt>,
    ) -> Result<Answer, Fault>
        requires { IfSome rebuilt (λ r. IfSome (value_at self.old name.now)
            (IsRepairFor r.version stripe fragment r.bytes)) }
        ensures ok { IfOk result (λ a. Replaces (λ w x. repair_reply w x stripe fragment)
            (Mends stripe fragment (note_of a)) self.old self.new name.now (note_of a)) }
        ensures faults { IfErr result (λ e. e ≡ Fault.NoMemory) }
        ensures err { OnErr result (self.new ≡ self.old) }
    {
        let before = Totals::of(self.blobs.get(name));
        let answer = repair_in(&mut self.blobs, alloc, name, stripe, fragment, rebuilt);
        settle(&mut self.lacking, &self.blobs, name);
        let after = Totals::of(self.blobs.get(name));
        self.totals.replace(&self.blobs, before, after);
        answer
    }

    /// Restores a lost fragment of a name's blob. The only error is `NoMemory`; the catalogue is
    /// then unchanged.
    pub fn restore(
        &mut self,
        alloc: Global,
        name: &Name,
        version: u64,
        stripe: u64,
        fragment: u64,
        bytes: Bytes,
    ) -> Result<Answer, Fault>
        requires { IfSome (value_at self.old name.now) (λ s. length bytes ≡ s.width) }
        ensures ok { IfOk result (λ a. Replaces
            (λ w x. restore_reply w x version stripe fragment)
            (Restores version stripe fragment bytes (note_of a)) self.old self.new name.now
            (note_of a)) }
        ensures faults { IfErr result (λ e. e ≡ Fault.NoMemory) }
        ensures err { OnErr result (self.new ≡ self.old) }
    {
        let before = Totals::of(self.blobs.get(name));
        let answer = restore_in(
            &mut self.blobs,
            alloc,
            name,
            version,
            stripe,
            fragment,
            bytes,
        );
        settle(&mut self.lacking, &self.blobs, name);
        let after = Totals::of(self.blobs.get(name));
        self.totals.replace(&self.blobs, before, after);
        answer
    }

    /// The first `most` of the lost fragments that come behind `after`, by name, then stripe, then
    /// fragment. It reads only the blobs that it lists, and that of `after`. `AllocError` if memory
    /// runs out.
    pub fn list_lost(
        &self,
        alloc: Global,
        after: Option<&Item>,
        most: usize,
    ) -> Result<Vec<Item>, AllocError>
        ensures value { IfOk result (λ items. items.items ≡ take most
            (items_after (option_map (λ i. i.now) after.entry) (flat_map items_lacked self.now))) }
        ensures rising { IsStrictlySortedBy name_cmp (keys_of self.now) }
    {
        list_lacking(&self.blobs, &self.lacking, alloc, after, most)
    }
}

/// The first `most` of the lost fragments of these names that come behind `after`.
fn list_lacking(
    blobs: &BTreeMap<Name, StoredBlob>,
    lacking: &BTreeSet<Name>,
    alloc: Global,
    after: Option<&Item>,
    most: usize,
) -> Result<Vec<Item>, AllocError>
    requires { (q : List ℕ) → contains name_cmp lacking.now q ≡ lacks_at blobs.now.entries q }
    ensures value { IfOk result (λ items. items.items ≡ take most
        (items_after (option_map (λ i. i.now) after.entry)
        (flat_map items_lacked blobs.now.entries))) }
    ensures rising { IsStrictlySortedBy name_cmp (keys_of blobs.now.entries) }
{
    let mut items = Vec::new(alloc);
    if blobs.len() == 0 {
        return Ok(items);
    }
    for name in lacking.range((first_name(after), Bound::Unbounded)) {
        if items.len() >= most {
            return Ok(items);
        }
        if let Some(stored) = blobs.get(name) {
            stored.list_lost(name, after, most, &mut items)?;
        }
    }
    Ok(items)
}

/// The names from that of the item on, or all.
fn first_name(after: Option<&Item>) -> Bound<Name>
    ensures { result ≡ bound_from (option_map (λ i. i.now) after.entry) }
{
    match after {
        Some(item) => Bound::Included(item.name.duplicate()),
        None => Bound::Unbounded,
    }
}

/// Removes a name from the set of lacking names, unless its blob lacks a fragment.
fn settle(lacking: &mut BTreeSet<Name>, blobs: &BTreeMap<Name, StoredBlob>, name: &Name)
    requires own { lacks_at blobs.now.entries name.now ≡ true
        → contains name_cmp lacking.old name.now ≡ true }
    requires others { (q : List ℕ) → is_at (name_cmp name.now) q ≡ false
        → contains name_cmp lacking.old q ≡ lacks_at blobs.now.entries q }
    ensures { (q : List ℕ) → contains name_cmp lacking.new q ≡ lacks_at blobs.now.entries q }
{
    if !is_lacking(blobs, name) {
        lacking.remove(name);
    }
}

/// Whether the blob of a name lacks a fragment.
fn is_lacking(blobs: &BTreeMap<Name, StoredBlob>, name: &Name) -> bool
    ensures { result ≡ lacks_at blobs.now.entries name.now }
{
    match blobs.get(name) {
        Some(stored) => stored.lacks_some(),
        None => false,
    }
}
