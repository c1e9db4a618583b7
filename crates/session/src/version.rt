//! Versions of blobs that are held out of their store.
ghost use Rattle.std.specs.Prelude.{◌≡◌, ◌≢◌, ◌↔◌, ◌<◌, ◌≤◌, ℕ, Err, false, IsTrue, IsSome};
ghost use Rattle.std.specs.Prelude.{IfSome, IfNone, IfOk, IfErr};
ghost use Rattle.lrc_code.specs.Code.{fragment_count, is_lost};
ghost use Rattle.lrc_code.specs.Count.{count_below};
ghost use Rattle.sealed.specs.Layout.{HasFragment, stripe_count};
ghost use Rattle.sealed.specs.Sealed.{absent_in};
ghost use Rattle.history.specs.Step.{repair as repair_of};
ghost use Rattle.book.specs.Known.{IsFragmentIn};
ghost use Rattle.shared.specs.Calls.{CanGrant};
ghost use Rattle.shared.specs.Passes.{FindsBusy};
ghost use Rattle.shared.specs.Snapshots.{HasNoBlob};
ghost use Rattle.named_calls.specs.Taken.{TakesSnapshot};
ghost use Rattle.session.specs.KnownFault.{IsBusyOrCallFault};
ghost use Rattle.session.specs.Learns.{HasRestored};
ghost use Rattle.session.specs.LostBits.{AreLostBits, lost_count};
ghost use Rattle.session.specs.VersionShows.{IsHeldFrom, IsKnownVersion, sealed_in};

use crate::Session;
use lrc_code::LostSet;
use named_calls::{TryCalls, TrySnapshots};
use sealed::has_fragment;
use shared::{Answer, Bytes, Fault, Name, Receipt, Snapshot};
use std::alloc::Global;
use std::marker::Model;

/// A version of a blob, held out of its store. Later calls of the store do not affect it, and its
/// own calls take no lock. A clause sees the name, the sealed value, and all that the session had
/// seen when it held the version.
#[derive(Drop)]
pub struct Version {
    name: Name,
    snapshot: Snapshot,
    receipt: Receipt,
}

impl Model for Version {
    ghost use Rattle.session.specs.VersionShows.{VersionShows, IsKnownVersion};

    ghost Value = { VersionShows };

    ghost view = { λ v. record { name = v.name; sealed = v.snapshot; known = v.receipt } };

    ghost invariant = { λ v. IsKnownVersion (record {
      name = v.name;
      sealed = v.snapshot;
      known = v.receipt;
    }) };
}

impl Session {
    /// Holds the version that a name's blob has, by a read of no byte. `None` if the name has no
    /// blob. `NoMemory` comes only in place of a version.
    pub fn hold(&mut self, name: Name) -> Result<Option<Version>, Fault>
        ensures called { TakesSnapshot self.old name (sealed_in result) self.new }
        ensures held { IfOk result (λ found. IfSome found (IsHeldFrom self.new name)) }
        ensures none { IfOk result (λ found. IfNone found (HasNoBlob self.new.seen name)) }
        ensures no_memory { result ≡ Err Fault.NoMemory
            → CanGrant self.new.seen self.old.store.width name 0 0 }
        ensures faults { IfErr result IsBusyOrCallFault }
        ensures busy { result ≡ Err Fault.Busy → FindsBusy self.old self.new }
        ensures lone { self.old.room ≡ 64 → result ≢ Err Fault.Busy }
    {
        let found = self.store.try_snapshot(&mut self.pass, name.duplicate());
        let receipt = self.pass.receipt(&self.store);
        version_of(found, name, receipt)
    }

    /// Restores a lost fragment of the version's name with the given bytes, whatever else is lost:
    /// those that the fragment has in the version. First the session learns what was seen when the
    /// version was held. The answer is `Replaced` if the name has another version by now.
    pub fn restore(
        &mut self,
        alloc: Global,
        version: &mut Version,
        stripe: u64,
        fragment: u64,
        bytes: Bytes,
    ) -> Result<Answer, Fault>
        requires store { version.old.known.store ≡ self.old.store }
        requires known { IsFragmentIn version.old.known.seen self.old.store.width version.old.name
            version.old.sealed.version stripe fragment bytes }
        ensures restored { HasRestored self.old version.old stripe fragment result self.new }
        ensures unchanged { version.new ≡ version.old }
    {
        let receipt = version.receipt.duplicate(&self.store);
        self.pass.accept(&self.store, receipt);
        let (name, number) = (version.name.duplicate(), version.snapshot.version());
        self.store.try_restore(alloc, &mut self.pass, name, number, stripe, fragment, bytes)
    }
}

impl Version {
    /// The blob as it was held.
    pub fn snapshot(&self) -> &Snapshot
        ensures same { result.now ≡ self.now.sealed }
        ensures known { IsKnownVersion self.now }
    {
        &self.snapshot
    }

    /// Whether the blob has this stripe, and its code this fragment.
    pub fn has_fragment(&self, stripe: u64, fragment: u64) -> bool
        ensures { IsTrue result
            ↔ HasFragment self.now.sealed.code self.now.sealed.width self.now.sealed.len stripe
            fragment }
    {
        let blob = &self.snapshot;
        has_fragment(blob.code(), blob.width(), blob.len(), stripe, fragment)
    }

    /// The fragments of a stripe that are lost, as a set of bits, or `None` if the blob has no such
    /// stripe.
    pub fn lost_bits(&self, stripe: u64) -> Option<u16>
        ensures variant { IsSome result
            ↔ (stripe < stripe_count self.now.sealed.code self.now.sealed.width
            self.now.sealed.len) }
        ensures bits { IfSome result (AreLostBits self.now.sealed stripe) }
    {
        match self.snapshot.lost(stripe) {
            Some(lost) => Some(bits_of(lost)),
            None => None,
        }
    }

    /// The number of lost fragments in all stripes.
    pub fn count_lost(&self) -> u64
        ensures { result ≡ lost_count self.now.sealed
            (stripe_count self.now.sealed.code self.now.sealed.width self.now.sealed.len) }
    {
        let mut count = 0;
        for stripe in 0..self.snapshot.stripes() {
            count += count_in(&self.snapshot, stripe);
        }
        count
    }
}

/// The version that was found, under this name.
fn version_of(
    found: Result<Option<Snapshot>, Fault>,
    name: Name,
    receipt: Receipt,
) -> Result<Option<Version>, Fault>
    requires { IfOk found (λ found. IfSome found (λ s. IsKnownVersion (record {
      name = name;
      sealed = s;
      known = receipt;
    }))) }
    ensures found { sealed_in result ≡ found }
    ensures held { IfOk result (λ found. IfSome found
        (λ x. (x.name ≡ name) × (x.known ≡ receipt) × IsKnownVersion x)) }
{
    match found {
        Ok(Some(snapshot)) => Ok(Some(Version {
            name,
            snapshot,
            receipt,
        })),
        Ok(None) => Ok(None),
        Err(fault) => Err(fault),
    }
}

/// The number of lost fragments of a stripe.
fn count_in(blob: &Snapshot, stripe: u64) -> u64
    requires { stripe < stripe_count blob.now.code blob.now.width blob.now.len }
    ensures { result ≡ count_below (absent_in blob.now stripe) (fragment_count blob.now.code) }
{
    match blob.lost(stripe) {
        Some(lost) => u64::from(lost.count_in(blob.code())),
        None => 0,
    }
}

/// The members of a set as bits.
fn bits_of(lost: LostSet) -> u16
    requires { (f : ℕ) → 16 ≤ f → is_lost lost f ≡ false }
    ensures { (f : ℕ) → is_lost result f ≡ is_lost lost f }
{
    let mut bits = 0u16;
    for f in 0..16u8 {
        if !lost.left(f) {
            bits |= 1 << f;
        }
    }
    bits
}
