//! A sealed blob in the catalogue.
ghost use Rattle.std.specs.Prelude.{◌≡◌, ◌<◌, ◌≤◌, ◌&&◌, ◌++◌, true, List, ℕ, Some};
ghost use Rattle.std.specs.Prelude.{length, take, IfSome, IfOk, IfErr, OnOk, OnErr};
ghost use Rattle.std.specs.Option.{option_map};
ghost use Rattle.lrc_code.specs.Code.{fragment_count};
ghost use Rattle.sealed.specs.Layout.{HasFragment, stripe_count};
ghost use Rattle.sealed.specs.Blob.{nothing};
ghost use Rattle.sealed.specs.Change.{IsChanged};
ghost use Rattle.sealed.specs.Sealed.{StandsFor, absent_in};
ghost use Rattle.sealed.specs.Rebuilding.{IsFragmentOf, IsRebuildable};
ghost use Rattle.book.specs.Known.{IsRepairFor};
ghost use Rattle.book.specs.Catalogue.{lacks_some};
ghost use Rattle.book.specs.Lacking.{reply_for, lacks, lacked_count, view_in};
ghost use Rattle.book.specs.Losing.{Loses, Mends, Restores};
ghost use Rattle.book.specs.Notes.{note_of};
ghost use Rattle.book.specs.Plan.{items_lacked, is_behind as is_behind_in, items_after};
ghost use Rattle.book.specs.Totals.{open_at, totals_of_blob, IsShare};
ghost use Rattle.history.specs.Views.{no_such, lose_reply, repair_reply, restore_reply};
ghost use Rattle.history.specs.Views.{stat_reply};

use crate::plan::{Item, first_stripe, is_behind};
use crate::repair::Rebuilt;
use crate::totals::Totals;
use crate::{Answer, Bytes, Fault, Name, Sealed};
use std::alloc::{AllocError, Global};
use std::marker::Model;
use std::sync::Arc;

/// A sealed blob with the numbers of its lost fragments and of its stripes that have an
/// unrecoverable one, so that a stat takes the same time for each blob.
#[derive(Drop)]
pub struct StoredBlob {
    sealed: Arc<Sealed>,
    lost: u64,
    unrecoverable: u64,
}

impl Model for StoredBlob {
    ghost use Rattle.sealed.specs.declared.value.Sealed.{Sealed as SealedValue};

    ghost Value = { SealedValue };

    ghost use Rattle.std.specs.Prelude.{◌≡◌};
    ghost use Rattle.book.specs.Lacking.{lacked_count};
    ghost use Rattle.book.specs.Totals.{open_count};

    ghost view = { λ s. s.sealed.value };

    ghost invariant = { λ s. (s.lost ≡ lacked_count s.sealed.value)
        × (s.unrecoverable ≡ open_count s.sealed.value) };
}

impl StoredBlob {
    /// A blob without lost fragments.
    pub fn whole(sealed: Arc<Sealed>) -> StoredBlob
        requires { (b : List ℕ) × StandsFor sealed.value b nothing }
        ensures { result ≡ sealed.value }
    {
        StoredBlob {
            sealed,
            lost: 0,
            unrecoverable: 0,
        }
    }

    /// Its share of the totals.
    pub fn share(&self) -> Totals
        ensures value { result ≡ totals_of_blob self.now }
        ensures share { IsShare result }
    {
        Totals {
            bytes: u128::from(self.sealed.len),
            lost: u128::from(self.lost),
            unrecoverable: u128::from(self.unrecoverable),
        }
    }

    /// The sealed blob.
    pub fn sealed(&self) -> &Arc<Sealed>
        ensures { result.now.value ≡ self.now }
    {
        &self.sealed
    }

    /// The answer to a stat.
    pub fn stat(&self) -> Answer
        ensures { note_of result ≡ reply_for stat_reply (Some self.now) }
    {
        Answer::Shape {
            version: self.sealed.version,
            len: self.sealed.len,
            stripes: self.sealed.stripes.len() as u64,
            lost: self.lost,
        }
    }

    /// Whether some fragment is lost.
    pub fn lacks_some(&self) -> bool
        ensures { result ≡ lacks_some self.now }
    {
        self.lost > 0
    }

    /// Whether the blob lacks this stripe, or the stripe this fragment.
    fn is_no_fragment(&self, stripe: u64, fragment: u64) -> bool
        ensures { result ≡ no_such self.now.width (view_in self.now) stripe fragment }
    {
        !self.sealed.has_fragment(stripe, fragment)
    }

    /// Whether this fragment is lost.
    fn is_lost(&self, stripe: u64, f: u8) -> bool
        requires stripe_below { stripe < stripe_count self.now.code self.now.width self.now.len }
        requires f_below { f < fragment_count self.now.code }
        ensures value { result ≡ lacks self.now stripe f }
        ensures absent { result ≡ absent_in self.now stripe f }
    {
        self.sealed.fragment(stripe, f).is_none()
    }

    /// Whether this fragment is lost and comes behind the item in the order of plans.
    fn is_lost_behind(&self, after: Option<&Item>, name: &Name, stripe: u64, f: u8) -> bool
        requires stripe_below { stripe < stripe_count self.now.code self.now.width self.now.len }
        requires f_below { f < fragment_count self.now.code }
        ensures { result ≡ lacks self.now stripe f
            && is_behind_in (option_map (λ i. i.now) after.entry) name.now stripe f }
    {
        self.is_lost(stripe, f) && is_behind(after, name, stripe, f)
    }

    /// Appends an item for each lost fragment that comes behind `after`, by stripe and then by
    /// fragment, until there are `most`. `AllocError` if memory runs out.
    pub fn list_lost(
        &self,
        name: &Name,
        after: Option<&Item>,
        most: usize,
        items: &mut Vec<Item>,
    ) -> Result<(), AllocError>
        requires { length items.old.items ≤ most }
        ensures { OnOk result (items.new.items ≡ take most (items.old.items
            ++ items_after (option_map (λ i. i.now) after.entry)
            (items_lacked (name.now, self.now)))) }
    {
        let version = self.sealed.version;
        let stripes = self.sealed.stripes.len() as u64;
        for stripe in first_stripe(after, name).min(stripes)..stripes {
            if items.len() >= most {
                return Ok(());
            }
            for f in 0..self.sealed.code.fragments() {
                if items.len() < most && self.is_lost_behind(after, name, stripe, f) {
                    let name = name.duplicate();
                    items.push(Item {
                        name,
                        version,
                        stripe,
                        f,
                    })?;
                }
            }
        }
        Ok(())
    }

    /// Loses a fragment. The only error is `NoMemory`; the blob is then unchanged.
    pub fn lose(&mut self, alloc: Global, stripe: u64, fragment: u64) -> Result<Answer, Fault>
        ensures answer { IfOk result (λ a. note_of a ≡ reply_for
            (λ w x. lose_reply w x stripe fragment) (Some self.old)) }
        ensures changed { IfOk result (λ a. Loses stripe fragment (note_of a) self.old self.new) }
        ensures faults { IfErr result (λ e. e ≡ Fault.NoMemory) }
        ensures err { OnErr result (self.new ≡ self.old) }
    {
        if self.is_no_fragment(stripe, fragment) {
            return Ok(Answer::NoFragment);
        }
        if self.is_lost(stripe, fragment as u8) {
            return Ok(Answer::AlreadyLost);
        }
        let version = self.sealed.version;
        let before = count_open(&self.sealed, stripe);
        take_out_of(&mut self.sealed, alloc, stripe, fragment as u8)?;
        self.lost += 1;
        self.unrecoverable = self.unrecoverable + count_open(&self.sealed, stripe) - before;
        Ok(Answer::Lost(version))
    }

    /// Rebuilds a lost fragment, or installs the bytes that were rebuilt if the blob has their
    /// version. The only error is `NoMemory`; the blob is then unchanged.
    pub fn repair(
        &mut self,
        alloc: Global,
        stripe: u64,
        fragment: u64,
        rebuilt: Option<Rebuilt>,
    ) -> Result<Answer, Fault>
        requires { IfSome rebuilt (λ r. IsRepairFor r.version stripe fragment r.bytes self.old) }
        ensures answer { IfOk result (λ a. note_of a ≡ reply_for
            (λ w x. repair_reply w x stripe fragment) (Some self.old)) }
        ensures changed { IfOk result (λ a. Mends stripe fragment (note_of a) self.old self.new) }
        ensures fewer { lacked_count self.new ≤ lacked_count self.old }
        ensures faults { IfErr result (λ e. e ≡ Fault.NoMemory) }
        ensures err { OnErr result (self.new ≡ self.old) }
    {
        if self.is_no_fragment(stripe, fragment) {
            return Ok(Answer::NoFragment);
        }
        if !self.is_lost(stripe, fragment as u8) {
            return Ok(Answer::NotLost);
        }
        if !self.sealed.is_rebuildable(stripe, fragment) {
            return Ok(Answer::Unrecoverable(self.sealed.version));
        }
        let bytes = self.lost_bytes(alloc, stripe, fragment, rebuilt)?;
        self.mend(alloc, stripe, fragment, bytes)
    }

    /// Restores a lost fragment with these bytes if the blob has this version. The only error is
    /// `NoMemory`; the blob is then unchanged.
    pub fn restore(
        &mut self,
        alloc: Global,
        version: u64,
        stripe: u64,
        fragment: u64,
        bytes: Bytes,
    ) -> Result<Answer, Fault>
        requires { length bytes ≡ self.old.width }
        ensures answer { IfOk result (λ a. note_of a ≡ reply_for
            (λ w x. restore_reply w x version stripe fragment) (Some self.old)) }
        ensures changed { IfOk result
            (λ a. Restores version stripe fragment bytes (note_of a) self.old self.new) }
        ensures fewer { lacked_count self.new ≤ lacked_count self.old }
        ensures faults { IfErr result (λ e. e ≡ Fault.NoMemory) }
        ensures err { OnErr result (self.new ≡ self.old) }
    {
        if self.sealed.version != version {
            return Ok(Answer::Replaced(self.sealed.version));
        }
        if self.is_no_fragment(stripe, fragment) {
            return Ok(Answer::NoFragment);
        }
        if self.is_lost(stripe, fragment as u8) {
            self.put_in(alloc, stripe, fragment, bytes)?;
            return Ok(Answer::Repaired(version));
        }
        Ok(Answer::NotLost)
    }

    /// The bytes of a lost fragment: those that were rebuilt, if the blob has their version.
    fn lost_bytes(
        &self,
        alloc: Global,
        stripe: u64,
        fragment: u64,
        rebuilt: Option<Rebuilt>,
    ) -> Result<Bytes, Fault>
        requires rebuildable { IsRebuildable self.now stripe fragment }
        requires own { IfSome rebuilt
            (λ r. IsRepairFor r.version stripe fragment r.bytes self.now) }
        ensures ok { IfOk result (IsFragmentOf self.now stripe fragment) }
        ensures long { IfOk result (λ bytes. length bytes ≡ self.now.width) }
        ensures err { IfErr result (λ e. e ≡ Fault.NoMemory) }
    {
        match rebuilt {
            Some(rebuilt) if rebuilt.version == self.sealed.version => Ok(rebuilt.bytes),
            _ => self.sealed.rebuild_fragment(alloc, stripe, fragment),
        }
    }

    /// Repairs a fragment with these bytes. The only error is `NoMemory`; the blob is then
    /// unchanged.
    fn mend(
        &mut self,
        alloc: Global,
        stripe: u64,
        fragment: u64,
        bytes: Bytes,
    ) -> Result<Answer, Fault>
        requires rebuildable { IsRebuildable self.old stripe fragment }
        requires long { length bytes ≡ self.old.width }
        requires own { IsFragmentOf self.old stripe fragment bytes }
        ensures answer { IfOk result (λ a. note_of a ≡ reply_for
            (λ w x. repair_reply w x stripe fragment) (Some self.old)) }
        ensures changed { IfOk result (λ a. Mends stripe fragment (note_of a) self.old self.new) }
        ensures fewer { lacked_count self.new ≤ lacked_count self.old }
        ensures faults { IfErr result (λ e. e ≡ Fault.NoMemory) }
        ensures err { OnErr result (self.new ≡ self.old) }
    {
        let version = self.sealed.version;
        self.put_in(alloc, stripe, fragment, bytes)?;
        Ok(Answer::Repaired(version))
    }

    /// Puts these bytes in the place of a fragment that is absent, and counts again. The only error
    /// is `NoMemory`; the blob is then unchanged.
    fn put_in(
        &mut self,
        alloc: Global,
        stripe: u64,
        fragment: u64,
        bytes: Bytes,
    ) -> Result<(), Fault>
        requires has { HasFragment self.old.code self.old.width self.old.len stripe fragment }
        requires lost { absent_in self.old stripe fragment ≡ true }
        requires long { length bytes ≡ self.old.width }
        ensures ok { OnOk result (IsChanged self.old stripe fragment (Some bytes) self.new) }
        ensures fewer { lacked_count self.new ≤ lacked_count self.old }
        ensures faults { IfErr result (λ e. e ≡ Fault.NoMemory) }
        ensures err { OnErr result (self.new ≡ self.old) }
    {
        let before = count_open(&self.sealed, stripe);
        put_back_in(&mut self.sealed, alloc, stripe, fragment as u8, bytes)?;
        self.lost -= 1;
        self.unrecoverable = self.unrecoverable + count_open(&self.sealed, stripe) - before;
        Ok(())
    }
}

/// 1 if some fragment of a stripe is unrecoverable, otherwise 0.
fn count_open(sealed: &Sealed, stripe: u64) -> u64
    requires { stripe < stripe_count sealed.now.code sealed.now.width sealed.now.len }
    ensures { result ≡ open_at sealed.now stripe }
{
    u64::from(sealed.lost(stripe).excess_in(sealed.code) > 2)
}

/// Takes a fragment out of a sealed value. If the value has other owners, it does so in a copy that
/// shares the stripes.
fn take_out_of(sealed: &mut Arc<Sealed>, alloc: Global, stripe: u64, f: u8) -> Result<(), Fault>
    requires stripe_below { stripe < stripe_count sealed.old.value.code sealed.old.value.width
        sealed.old.value.len }
    requires f_below { f < fragment_count sealed.old.value.code }
    ensures ok { OnOk result (IsChanged sealed.old.value stripe f None sealed.new.value) }
    ensures faults { IfErr result (λ e. e ≡ Fault.NoMemory) }
    ensures err { OnErr result (sealed.new.value ≡ sealed.old.value) }
{
    if let Some(own) = Arc::get_mut(sealed) {
        return own.take_out(alloc, stripe, f);
    }
    let changed = sealed.without(alloc, stripe, f)?;
    let Ok(changed) = Arc::new(alloc, changed) else {
        return Err(Fault::NoMemory);
    };
    *sealed = changed;
    Ok(())
}

/// Puts a fragment back, in place or in a copy, as `take_out_of` does.
fn put_back_in(
    sealed: &mut Arc<Sealed>,
    alloc: Global,
    stripe: u64,
    f: u8,
    bytes: Bytes,
) -> Result<(), Fault>
    requires stripe_below { stripe < stripe_count sealed.old.value.code sealed.old.value.width
        sealed.old.value.len }
    requires f_below { f < fragment_count sealed.old.value.code }
    requires long { length bytes ≡ sealed.old.value.width }
    ensures ok { OnOk result (IsChanged sealed.old.value stripe f (Some bytes) sealed.new.value) }
    ensures faults { IfErr result (λ e. e ≡ Fault.NoMemory) }
    ensures err { OnErr result (sealed.new.value ≡ sealed.old.value) }
{
    if let Some(own) = Arc::get_mut(sealed) {
        return own.put_back(alloc, stripe, f, bytes);
    }
    let changed = sealed.with(alloc, stripe, f, bytes)?;
    let Ok(changed) = Arc::new(alloc, changed) else {
        return Err(Fault::NoMemory);
    };
    *sealed = changed;
    Ok(())
}
