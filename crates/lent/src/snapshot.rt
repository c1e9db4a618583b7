//! One version of a blob.
ghost use Rattle.std.specs.Prelude.{◌≡◌, ◌<◌, ◌≤◌, ◌↔◌, ℕ, false, length};
ghost use Rattle.std.specs.Prelude.{IsSome, IfSome, IfOk, OnErr};
ghost use Rattle.std.specs.Option.{option_map};
ghost use Rattle.lrc_code.specs.Code.{fragment_count, is_lost};
ghost use Rattle.sealed.specs.Layout.{stripe_count};
ghost use Rattle.sealed.specs.Stripes.{fragment_at};
ghost use Rattle.sealed.specs.Sealed.{absent_in};
ghost use Rattle.sealed.specs.Rebuilding.{IsFragmentOf, IsRebuildable};
ghost use Rattle.sealed.specs.Range.{is_outside, IsReadable};
ghost use Rattle.lent.specs.Asked.{IsAnswer};
ghost use Rattle.lent.specs.Snapshot.{HasPresent};

use crate::{Asked, Grant};
use bytes::Bytes;
use lrc_code::{Code, LostSet, NoMemory};
use sealed::{Sealed, Width};
use std::alloc::{AllocError, Global};
use std::marker::Model;
use std::sync::Arc;

/// One version of a blob, with the fragments that were lost when it was taken. Later calls do not
/// affect it. Its calls take no lock. Contracts see its sealed value.
#[derive(Debug, Drop)]
pub struct Snapshot {
    sealed: Arc<Sealed>,
}

impl Model for Snapshot {
    ghost use Rattle.sealed.specs.declared.value.Sealed.{Sealed as SealedValue};

    ghost Value = { SealedValue };

    ghost view = { λ s. s.sealed.value };
}

impl Grant {
    /// The whole version that the range is of. Does not allocate.
    pub fn into_snapshot(self) -> Snapshot
        ensures { result ≡ self.sealed.value }
    {
        Snapshot {
            sealed: self.sealed,
        }
    }

    /// As `into_snapshot`, beside the grant. `NoMemory` if the count of the blob's owners can't
    /// grow.
    pub fn snapshot(&self) -> Result<Snapshot, NoMemory>
        ensures { IfOk result (λ s. s ≡ self.now.sealed.value) }
    {
        match Arc::try_clone(&self.sealed) {
            Ok(sealed) => Ok(Snapshot { sealed }),
            Err(error) => Err(error),
        }
    }
}

impl Snapshot {
    /// The version of the blob.
    pub fn version(&self) -> u64
        ensures { result ≡ self.now.version }
    {
        self.sealed.version
    }

    /// The length of the blob in bytes.
    pub fn len(&self) -> u64
        ensures { result ≡ self.now.len }
    {
        self.sealed.len
    }

    /// The code of the stripes.
    pub fn code(&self) -> Code
        ensures { result ≡ self.now.code }
    {
        self.sealed.code
    }

    /// The number of bytes in each fragment.
    pub fn width(&self) -> Width
        ensures { result ≡ self.now.width }
    {
        self.sealed.width
    }

    /// The number of stripes. An empty blob has none.
    pub fn stripes(&self) -> u64
        ensures { result ≡ stripe_count self.now.code self.now.width self.now.len }
    {
        self.sealed.stripes.len() as u64
    }

    /// The fragments of a stripe that are lost, or `None` if the blob has no such stripe. The set
    /// has only fragments of the code.
    pub fn lost(&self, stripe: u64) -> Option<LostSet>
        ensures variant { IsSome result
            ↔ (stripe < stripe_count self.now.code self.now.width self.now.len) }
        ensures absent { IfSome result (λ lost. (f : ℕ) → f < fragment_count self.now.code
            → is_lost lost f ≡ absent_in self.now stripe f) }
        ensures inside { IfSome result (λ lost. (f : ℕ) → fragment_count self.now.code ≤ f
            → is_lost lost f ≡ false) }
    {
        if stripe >= self.stripes() {
            return None;
        }
        Some(self.sealed.lost(stripe))
    }

    /// Asks for `len` bytes from the byte `start` on. `NoMemory` comes only in place of a grant, if
    /// the count of the blob's owners can't grow.
    pub fn read(&self, start: u64, len: u64) -> Result<Asked, NoMemory>
        ensures ok { IfOk result (IsAnswer self.now start len) }
        ensures err { OnErr result ((is_outside self.now.len start len ≡ false)
            × IsReadable self.now start len) }
    {
        Grant::ask(&self.sealed, start, len)
    }

    /// The bytes of a fragment of a stripe, data or parity, as many as the width. `None` if the
    /// blob has no such fragment or if it is lost.
    pub fn fragment(&self, stripe: u64, fragment: u64) -> Option<&[u8]>
        ensures value { option_map (λ bytes. bytes.now) result
            ≡ fragment_at self.now.stripes stripe fragment }
        ensures variant { IsSome result ↔ HasPresent self.now stripe fragment }
        ensures bytes { IfSome result (λ bytes. IsFragmentOf self.now stripe fragment bytes.now) }
        ensures long { IfSome result (λ bytes. length bytes.now ≡ self.now.width) }
    {
        let sealed: &Sealed = &self.sealed;
        if !sealed.has_fragment(stripe, fragment) {
            return None;
        }
        sealed.fragment(stripe, fragment as u8)
    }

    /// The bytes of a lost fragment, as many as the width, rebuilt from the remaining ones of its
    /// stripe. `None` if the blob has no such fragment, if it is present, or if it is
    /// unrecoverable. `NoMemory` if out of memory.
    pub fn rebuild(
        &self,
        alloc: Global,
        stripe: u64,
        fragment: u64,
    ) -> Result<Option<Bytes>, NoMemory>
        ensures variant { IfOk result (λ found. IsSome found
            ↔ IsRebuildable self.now stripe fragment) }
        ensures bytes { IfOk result
            (λ found. IfSome found (IsFragmentOf self.now stripe fragment)) }
        ensures long { IfOk result
            (λ found. IfSome found (λ bytes. length bytes ≡ self.now.width)) }
        ensures err { OnErr result (IsRebuildable self.now stripe fragment) }
    {
        let sealed: &Sealed = &self.sealed;
        if !sealed.is_rebuildable(stripe, fragment) {
            return Ok(None);
        }
        match sealed.rebuild_fragment(alloc, stripe, fragment) {
            Ok(bytes) => Ok(Some(bytes)),
            Err(_) => Err(AllocError),
        }
    }
}
