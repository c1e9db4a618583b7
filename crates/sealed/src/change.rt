//! Values that differ from an old one in one fragment.
ghost use Rattle.std.specs.Prelude.{◌≡◌, ◌<◌, ℕ, List, None, Some, length, IfOk, IfErr};
ghost use Rattle.std.specs.Prelude.{IfSome, OnOk, OnErr};
ghost use Rattle.std.specs.FinSet as set;
ghost use Rattle.lrc_code.specs.Code.{fragment_count};
ghost use Rattle.sealed.specs.Layout.{stripe_count};
ghost use Rattle.sealed.specs.Blob.{Lost, fragment};
ghost use Rattle.sealed.specs.Sealed.{StandsFor};
ghost use Rattle.sealed.specs.Change.{IsChanged};

use crate::{Fault, Sealed};
use bytes::Bytes;
use lrc_code::NoMemory;
use std::alloc::Global;

impl Sealed {
    /// A copy without the fragment `f` of a stripe. It shares all other bytes with this value. The
    /// only error is `NoMemory`.
    pub fn without(&self, alloc: Global, stripe: u64, f: u8) -> Result<Sealed, Fault>
        requires stripe_below { stripe < stripe_count self.now.code self.now.width self.now.len }
        requires f_below { f < fragment_count self.now.code }
        ensures ok { IfOk result (IsChanged self.now stripe f None) }
        ensures stands { IfOk result (λ s. (b : List ℕ) (lost : Lost) → StandsFor self.now b lost
            → StandsFor s b (set.insert lost (stripe, f))) }
        ensures err { IfErr result (λ e. e ≡ Fault.NoMemory) }
    {
        let mut sealed = self.share(alloc)?;
        sealed.take_out(alloc, stripe, f)?;
        Ok(sealed)
    }

    /// A copy with `bytes` as the fragment `f` of a stripe. It shares all other bytes with this
    /// value. The only error is `NoMemory`.
    pub fn with(&self, alloc: Global, stripe: u64, f: u8, bytes: Bytes) -> Result<Sealed, Fault>
        requires stripe_below { stripe < stripe_count self.now.code self.now.width self.now.len }
        requires f_below { f < fragment_count self.now.code }
        requires long { length bytes ≡ self.now.width }
        ensures ok { IfOk result (IsChanged self.now stripe f (Some bytes)) }
        ensures stands { IfOk result (λ s. (b : List ℕ) (lost : Lost) → StandsFor self.now b lost
            → bytes ≡ fragment self.now.code self.now.width b stripe f
            → StandsFor s b (set.remove lost (stripe, f))) }
        ensures err { IfErr result (λ e. e ≡ Fault.NoMemory) }
    {
        let mut sealed = self.share(alloc)?;
        sealed.put_back(alloc, stripe, f, bytes)?;
        Ok(sealed)
    }

    /// Removes the fragment `f` of a stripe from this value. Other values that share the stripe
    /// keep it. The only error is `NoMemory`; the value is then unchanged.
    pub fn take_out(&mut self, alloc: Global, stripe: u64, f: u8) -> Result<(), Fault>
        requires stripe_below { stripe < stripe_count self.old.code self.old.width self.old.len }
        requires f_below { f < fragment_count self.old.code }
        ensures ok { OnOk result (IsChanged self.old stripe f None self.new) }
        ensures stands { OnOk result ((b : List ℕ) (lost : Lost) → StandsFor self.old b lost
            → StandsFor self.new b (set.insert lost (stripe, f))) }
        ensures faults { IfErr result (λ e. e ≡ Fault.NoMemory) }
        ensures err { OnErr result (self.new ≡ self.old) }
    {
        Ok(self.change(alloc, stripe, f, None)?)
    }

    /// Sets the fragment `f` of a stripe to `bytes`, of the value's width. Other values that share
    /// the stripe keep theirs. The only error is `NoMemory`; the value is then unchanged.
    pub fn put_back(&mut self, alloc: Global, stripe: u64, f: u8, bytes: Bytes) -> Result<(), Fault>
        requires stripe_below { stripe < stripe_count self.old.code self.old.width self.old.len }
        requires f_below { f < fragment_count self.old.code }
        requires long { length bytes ≡ self.old.width }
        ensures ok { OnOk result (IsChanged self.old stripe f (Some bytes) self.new) }
        ensures stands { OnOk result ((b : List ℕ) (lost : Lost) → StandsFor self.old b lost
            → bytes ≡ fragment self.old.code self.old.width b stripe f
            → StandsFor self.new b (set.remove lost (stripe, f))) }
        ensures faults { IfErr result (λ e. e ≡ Fault.NoMemory) }
        ensures err { OnErr result (self.new ≡ self.old) }
    {
        Ok(self.change(alloc, stripe, f, Some(bytes))?)
    }

    /// Sets the slot of the fragment `f` of a stripe. On an error the value is unchanged.
    fn change(
        &mut self,
        alloc: Global,
        stripe: u64,
        f: u8,
        slot: Option<Bytes>,
    ) -> Result<(), NoMemory>
        requires stripe_below { stripe < stripe_count self.old.code self.old.width self.old.len }
        requires f_below { f < fragment_count self.old.code }
        requires long { IfSome slot (λ bytes. length bytes ≡ self.old.width) }
        ensures ok { OnOk result (IsChanged self.old stripe f slot self.new) }
        ensures err { OnErr result (self.new ≡ self.old) }
    {
        self.stripes
            .set(alloc, stripe as usize, usize::from(f), slot)
    }

    /// A copy that shares all stripes.
    fn share(&self, alloc: Global) -> Result<Sealed, NoMemory>
        ensures { IfOk result (λ s. s ≡ self.now) }
    {
        Ok(Sealed {
            version: self.version,
            len: self.len,
            width: self.width,
            code: self.code,
            stripes: self.stripes.share(alloc)?,
        })
    }
}
