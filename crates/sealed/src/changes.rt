//! What differs in the stripes of a blob from the bytes that were sealed.
ghost use Rattle.std.specs.Prelude.{◌≡◌, ◌==◌, ◌&&◌, ◌||◌, ◌<◌, ◌≤◌, ℕ, false, not, None, Some};
ghost use Rattle.std.specs.Prelude.{if◌then◌else◌, IfOk, OnOk, OnErr};
ghost use Rattle.std.specs.Bool.{OnTrue};
ghost use Rattle.std.specs.Option.{option_map};
ghost use Rattle.lrc_code.specs.Code.{is_lost};
ghost use Rattle.sealed.specs.Changes.{lost_at, patch_at};

use crate::table::{ChangeTable, empty_set};
use bytes::Bytes;
use lrc_code::{LostSet, NoMemory};
use std::alloc::Global;

/// The fragments that are lost, and those that have a patch: bytes that stand in the place of the
/// sealed ones, since these have other owners. A lost fragment is a bit. The bits of a single
/// stripe take no memory of their own.
#[derive(Drop)]
pub(crate) enum Changes {
    /// Fragments of the first stripe are lost, and nothing has a patch.
    First(LostSet),
    /// Each stripe may have changes.
    Each(Box<ChangeTable>),
}

impl Changes {
    /// No changes.
    pub(crate) fn none() -> Changes
        ensures lost { (j f : ℕ) → lost_at result j f ≡ false }
        ensures patches { (j f : ℕ) → patch_at result j f ≡ None }
    {
        Changes::First(LostSet::empty())
    }

    /// The lost fragments of a stripe.
    fn lost(&self, j: usize) -> LostSet
        ensures { (f : ℕ) → is_lost result f ≡ lost_at self.now j f }
    {
        match self {
            Changes::First(first) => if j == 0 { *first } else { empty_set() },
            Changes::Each(table) => table.lost(j),
        }
    }

    /// Whether a fragment is lost.
    pub(crate) fn is_lost(&self, j: usize, f: usize) -> bool
        requires { f < 16 }
        ensures { result ≡ lost_at self.now j f }
    {
        !self.lost(j).left(f as u8)
    }

    /// The patch of a fragment.
    pub(crate) fn patch(&self, j: usize, f: usize) -> Option<&[u8]>
        requires { f < 16 }
        ensures { option_map (λ x. x.now) result ≡ patch_at self.now j f }
    {
        match self {
            Changes::First(_) => None,
            Changes::Each(table) => table.patch(j, f),
        }
    }

    /// Whether a stripe has patches.
    fn has_patches(&self, j: usize) -> bool
        ensures { result ≡ false → (f : ℕ) → patch_at self.now j f ≡ None }
    {
        match self {
            Changes::First(_) => false,
            Changes::Each(table) => table.has_patches(j),
        }
    }

    /// Whether no fragment of a stripe is lost or has a patch.
    pub(crate) fn is_whole(&self, j: usize) -> bool
        ensures lost { OnTrue result ((f : ℕ) → lost_at self.now j f ≡ false) }
        ensures patches { OnTrue result ((f : ℕ) → patch_at self.now j f ≡ None) }
    {
        self.lost(j) == empty_set() && !self.has_patches(j)
    }

    /// The first of the stripes `from..to` that has changes, or `to` if none has.
    pub(crate) fn first_in(&self, from: usize, to: usize) -> usize
        requires { from ≤ to }
        ensures range { (from ≤ result) × (result ≤ to) }
        ensures lost { (j f : ℕ) → from ≤ j → j < result → lost_at self.now j f ≡ false }
        ensures patches { (j f : ℕ) → from ≤ j → j < result → patch_at self.now j f ≡ None }
    {
        for j in from..to {
            if !self.is_whole(j) {
                return j;
            }
        }
        to
    }

    /// Adds a lost fragment. On an error the changes are the same.
    pub(crate) fn lose(&mut self, alloc: Global, j: usize, f: usize) -> Result<(), NoMemory>
        requires { f < 16 }
        ensures ok { OnOk result ((i g : ℕ) → lost_at self.new i g
            ≡ ((i == j && g == f) || lost_at self.old i g)) }
        ensures err { OnErr result ((i g : ℕ) → lost_at self.new i g ≡ lost_at self.old i g) }
        ensures patches { (i g : ℕ) → patch_at self.new i g ≡ patch_at self.old i g }
    {
        match self {
            Changes::First(first) => {
                if j == 0 {
                    *first = first.with(f as u8);
                    return Ok(());
                }
                let mut table = ChangeTable::of_first(alloc, *first)?;
                table.lose(j, f)?;
                *self = Changes::Each(Box::new(alloc, table)?);
                Ok(())
            }
            Changes::Each(table) => table.lose(j, f),
        }
    }

    /// Removes a fragment from the lost ones. Releases the memory of changes that there are no
    /// longer.
    pub(crate) fn restore(&mut self, j: usize, f: usize)
        requires { f < 16 }
        ensures lost { (i g : ℕ) → lost_at self.new i g
            ≡ (not (i == j && g == f) && lost_at self.old i g) }
        ensures patches { (i g : ℕ) → patch_at self.new i g ≡ patch_at self.old i g }
    {
        match self {
            Changes::First(first) => {
                if j == 0 {
                    *first = first.without(f as u8);
                }
            }
            Changes::Each(table) => {
                table.restore(j, f);
                if table.is_empty() {
                    *self = Changes::none();
                }
            }
        }
    }

    /// Sets the patch of a fragment. On an error the changes are the same.
    pub(crate) fn set_patch(
        &mut self,
        alloc: Global,
        j: usize,
        f: usize,
        bytes: Bytes,
    ) -> Result<(), NoMemory>
        requires { f < 16 }
        ensures ok { OnOk result ((i g : ℕ) → patch_at self.new i g
            ≡ (if (i == j && g == f) then Some bytes else patch_at self.old i g)) }
        ensures err { OnErr result ((i g : ℕ) → patch_at self.new i g ≡ patch_at self.old i g) }
        ensures lost { (i g : ℕ) → lost_at self.new i g ≡ lost_at self.old i g }
    {
        match self {
            Changes::First(first) => {
                let mut table = ChangeTable::of_first(alloc, *first)?;
                table.set_patch(alloc, j, f, bytes)?;
                *self = Changes::Each(Box::new(alloc, table)?);
                Ok(())
            }
            Changes::Each(table) => table.set_patch(alloc, j, f, bytes),
        }
    }

    /// A copy that shares the patches.
    pub(crate) fn share(&self, alloc: Global) -> Result<Changes, NoMemory>
        ensures lost { IfOk result (λ c. (j f : ℕ) → lost_at c j f ≡ lost_at self.now j f) }
        ensures patches { IfOk result (λ c. (j f : ℕ) → patch_at c j f ≡ patch_at self.now j f) }
    {
        match self {
            Changes::First(first) => Ok(Changes::First(*first)),
            Changes::Each(table) => Ok(Changes::Each(Box::new(alloc, table.share(alloc)?)?)),
        }
    }
}
