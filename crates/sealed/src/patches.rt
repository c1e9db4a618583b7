//! The fragments of a stripe that have bytes of their own.
ghost use Rattle.std.specs.Prelude.{◌≡◌, ◌<◌, ℕ, None, length, slice_index_or, slice_set, IfOk};
ghost use Rattle.std.specs.Prelude.{OnOk, OnErr};
ghost use Rattle.std.specs.Option.{option_map};

use bytes::Bytes;
use lrc_code::NoMemory;
use std::alloc::Global;
use std::sync::Arc;

/// The patches of a stripe: sixteen slots, each with the bytes of a fragment or empty.
#[derive(Drop)]
pub(crate) struct Patches {
    pub(crate) fragments: [Option<Bytes>; 16],
    ghost sixteen: { length fragments ≡ 16 },
}

impl Patches {
    /// No patches.
    pub(crate) fn none() -> Patches
        ensures { (f : ℕ) → slice_index_or result.fragments f None ≡ None }
    {
        let fragments: [Option<Bytes>; 16] = [
            None, None, None, None, None, None, None, None, None, None, None, None, None, None,
            None, None,
        ];
        Patches { fragments }
    }

    /// The patch of a fragment.
    pub(crate) fn fragment(&self, f: usize) -> Option<&[u8]>
        requires { f < 16 }
        ensures { option_map (λ x. x.now) result ≡ slice_index_or self.now.fragments f None }
    {
        match &self.fragments[f] {
            Some(bytes) => Some(bytes.as_slice()),
            None => None,
        }
    }

    /// Sets the slot of the fragment `f`.
    pub(crate) fn put(&mut self, f: usize, slot: Option<Bytes>)
        requires { f < 16 }
        ensures { self.new.fragments ≡ slice_set self.old.fragments f slot }
    {
        self.fragments[f] = slot;
    }
}

/// Sets the slot of the fragment `f`, in a copy of the patches if they have other owners.
pub(crate) fn set_slot(
    patches: &mut Arc<Patches>,
    alloc: Global,
    f: usize,
    slot: Option<Bytes>,
) -> Result<(), NoMemory>
    requires { f < 16 }
    ensures ok { OnOk result (patches.new.value.fragments
        ≡ slice_set patches.old.value.fragments f slot) }
    ensures err { OnErr result (patches.new.value.fragments ≡ patches.old.value.fragments) }
{
    if let Some(own) = Arc::get_mut(patches) {
        own.put(f, slot);
        return Ok(());
    }
    let changed = with_slot(patches, f, slot)?;
    *patches = Arc::new(alloc, changed)?;
    Ok(())
}

/// A copy of the patches with this slot for the fragment `f`. It shares the bytes of the others.
fn with_slot(patches: &Patches, f: usize, slot: Option<Bytes>) -> Result<Patches, NoMemory>
    requires { f < 16 }
    ensures { IfOk result (λ p. p.fragments ≡ slice_set patches.now.fragments f slot) }
{
    let mut copy = Patches::none();
    for g in 0..16usize {
        if g != f {
            copy.put(g, shared(&patches.fragments[g])?);
        }
    }
    copy.put(f, slot);
    Ok(copy)
}

/// One more owner of the fragment in a slot.
fn shared(slot: &Option<Bytes>) -> Result<Option<Bytes>, NoMemory>
    ensures { IfOk result (λ s. s ≡ slot.now) }
{
    match slot {
        Some(bytes) => Ok(Some(bytes.clone()?)),
        None => Ok(None),
    }
}
