//! The changes of a blob of several stripes, or with patches.
ghost use Rattle.std.specs.Prelude.{◌≡◌, ◌==◌, ◌&&◌, ◌||◌, ◌<◌, ◌≤◌, ℕ, false, not, None, Some};
ghost use Rattle.std.specs.Prelude.{length, slice_index_or, if◌then◌else◌, IfOk, OnOk, OnErr};
ghost use Rattle.std.specs.Bool.{OnTrue};
ghost use Rattle.std.specs.Option.{option_map};
ghost use Rattle.lrc_code.specs.Code.{is_lost};
ghost use Rattle.sealed.specs.Changes.{table_lost, table_patch};

use crate::patches::{Patches, set_slot};
use bytes::Bytes;
use lrc_code::{LostSet, NoMemory};
use std::alloc::Global;
use std::sync::Arc;

/// The lost fragments and the patches of each stripe. A list that ends early has none behind its
/// end.
#[derive(Drop)]
pub(crate) struct ChangeTable {
    pub(crate) lost: Vec<LostSet>,
    pub(crate) patches: Vec<Option<Arc<Patches>>>,
}

impl ChangeTable {
    /// These lost fragments of the first stripe, and no patches.
    pub(crate) fn of_first(alloc: Global, first: LostSet) -> Result<ChangeTable, NoMemory>
        ensures lost { IfOk result (λ t. (j f : ℕ) → table_lost t j f
            ≡ is_lost (if j == 0 then first else 0) f) }
        ensures patches { IfOk result (λ t. (j f : ℕ) → table_patch t j f ≡ None) }
    {
        let mut lost = Vec::new(alloc);
        lost.push(first)?;
        Ok(ChangeTable {
            lost,
            patches: Vec::new(alloc),
        })
    }

    /// The lost fragments of a stripe.
    pub(crate) fn lost(&self, j: usize) -> LostSet
        ensures { (f : ℕ) → is_lost result f ≡ table_lost self.now j f }
    {
        if j < self.lost.len() {
            self.lost[j]
        } else {
            empty_set()
        }
    }

    /// The patch of a fragment.
    pub(crate) fn patch(&self, j: usize, f: usize) -> Option<&[u8]>
        requires { f < 16 }
        ensures { option_map (λ x. x.now) result ≡ table_patch self.now j f }
    {
        match patches_at(self.patches.as_slice(), j) {
            Some(patches) => patches.fragment(f),
            None => None,
        }
    }

    /// Whether a stripe has patches.
    pub(crate) fn has_patches(&self, j: usize) -> bool
        ensures { result ≡ false → (f : ℕ) → table_patch self.now j f ≡ None }
    {
        patches_at(self.patches.as_slice(), j).is_some()
    }

    /// Whether nothing is lost, and nothing has a patch.
    pub(crate) fn is_empty(&self) -> bool
        ensures lost { OnTrue result ((j f : ℕ) → table_lost self.now j f ≡ is_lost 0 f) }
        ensures patches { OnTrue result ((j f : ℕ) → table_patch self.now j f ≡ None) }
    {
        self.lost.is_empty() && self.patches.is_empty()
    }

    /// Adds a lost fragment. On an error the table has the same changes.
    pub(crate) fn lose(&mut self, j: usize, f: usize) -> Result<(), NoMemory>
        requires { f < 16 }
        ensures ok { OnOk result ((i g : ℕ) → table_lost self.new i g
            ≡ ((i == j && g == f) || table_lost self.old i g)) }
        ensures err { OnErr result ((i g : ℕ) → table_lost self.new i g
            ≡ table_lost self.old i g) }
        ensures patches { (i g : ℕ) → table_patch self.new i g ≡ table_patch self.old i g }
    {
        reach_set(&mut self.lost, j)?;
        self.lost[j] = self.lost[j].with(f as u8);
        Ok(())
    }

    /// Removes a fragment from the lost ones.
    pub(crate) fn restore(&mut self, j: usize, f: usize)
        requires { f < 16 }
        ensures lost { (i g : ℕ) → table_lost self.new i g
            ≡ (not (i == j && g == f) && table_lost self.old i g) }
        ensures patches { (i g : ℕ) → table_patch self.new i g ≡ table_patch self.old i g }
    {
        if j < self.lost.len() {
            self.lost[j] = self.lost[j].without(f as u8);
        }
        trim(&mut self.lost);
    }

    /// Sets the patch of a fragment. On an error the table has the same changes.
    pub(crate) fn set_patch(
        &mut self,
        alloc: Global,
        j: usize,
        f: usize,
        bytes: Bytes,
    ) -> Result<(), NoMemory>
        requires { f < 16 }
        ensures ok { OnOk result ((i g : ℕ) → table_patch self.new i g
            ≡ (if (i == j && g == f) then Some bytes else table_patch self.old i g)) }
        ensures err { OnErr result ((i g : ℕ) → table_patch self.new i g
            ≡ table_patch self.old i g) }
        ensures lost { (i g : ℕ) → table_lost self.new i g ≡ table_lost self.old i g }
    {
        reach(&mut self.patches, j)?;
        if let Some(patches) = &mut self.patches[j] {
            return set_slot(patches, alloc, f, Some(bytes));
        }
        let mut patches = Patches::none();
        patches.put(f, Some(bytes));
        self.patches[j] = Some(Arc::new(alloc, patches)?);
        Ok(())
    }

    /// A copy that shares the patches.
    pub(crate) fn share(&self, alloc: Global) -> Result<ChangeTable, NoMemory>
        ensures lost { IfOk result (λ t. (j f : ℕ) → table_lost t j f ≡ table_lost self.now j f) }
        ensures patches { IfOk result (λ t. (j f : ℕ) → table_patch t j f
            ≡ table_patch self.now j f) }
    {
        Ok(ChangeTable {
            lost: Vec::from_slice(alloc, self.lost.as_slice())?,
            patches: all_shared(alloc, self.patches.as_slice())?,
        })
    }
}

/// The empty set, whose number is 0.
pub(crate) fn empty_set() -> LostSet
    ensures { (i : ℕ) → is_lost result i ≡ is_lost 0 i }
{
    LostSet::of_bits(0)
}

/// Lengthens the list of sets up to the stripe `j`, with nothing lost.
fn reach_set(lost: &mut Vec<LostSet>, j: usize) -> Result<(), NoMemory>
    ensures same { (i g : ℕ) → is_lost (slice_index_or lost.new.items i 0) g
        ≡ is_lost (slice_index_or lost.old.items i 0) g }
    ensures upto { OnOk result (j < length lost.new.items) }
{
    while lost.len() <= j {
        lost.push(empty_set())?;
    }
    Ok(())
}

/// Cuts off the empty sets at the end of the list.
fn trim(lost: &mut Vec<LostSet>)
    ensures { (i g : ℕ) → is_lost (slice_index_or lost.new.items i 0) g
        ≡ is_lost (slice_index_or lost.old.items i 0) g }
{
    while !lost.is_empty() && lost[lost.len() - 1] == empty_set() {
        lost.pop();
    }
}

/// The patches of a stripe, if it has some.
fn patches_at(patches: &[Option<Arc<Patches>>], j: usize) -> Option<&Arc<Patches>>
    ensures { option_map (λ x. x.now) result ≡ slice_index_or patches.now j None }
{
    if j < patches.len() {
        patches[j].as_ref()
    } else {
        None
    }
}

/// Lengthens the list of patches up to the stripe `j`, with none.
fn reach(patches: &mut Vec<Option<Arc<Patches>>>, j: usize) -> Result<(), NoMemory>
    ensures same { (i : ℕ) → slice_index_or patches.new.items i None
        ≡ slice_index_or patches.old.items i None }
    ensures upto { OnOk result (j < length patches.new.items) }
{
    while patches.len() <= j {
        patches.push(None)?;
    }
    Ok(())
}

/// One more owner of the patches of each stripe.
fn all_shared(
    alloc: Global,
    patches: &[Option<Arc<Patches>>],
) -> Result<Vec<Option<Arc<Patches>>>, NoMemory>
    ensures { IfOk result (λ all. (j : ℕ) → option_map (λ a. a.value.fragments)
        (slice_index_or all.items j None) ≡ option_map (λ a. a.value.fragments)
        (slice_index_or patches.now j None)) }
{
    let mut all = Vec::with_capacity(alloc, patches.len())?;
    for j in 0..patches.len() {
        all.push(shared_patches(&patches[j])?)?;
    }
    Ok(all)
}

/// One more owner of the patches, if there are any.
fn shared_patches(patches: &Option<Arc<Patches>>) -> Result<Option<Arc<Patches>>, NoMemory>
    ensures { IfOk result (λ p. option_map (λ a. a.value.fragments) p ≡ option_map
        (λ a. a.value.fragments) patches.now) }
{
    match patches {
        Some(patches) => Ok(Some(Arc::try_clone(patches)?)),
        None => Ok(None),
    }
}
