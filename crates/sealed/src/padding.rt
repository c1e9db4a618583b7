//! Padding: bytes with zeros after them, up to a whole number of stripes.
ghost use Rattle.std.specs.Prelude.{◌≡◌, ◌<◌, ◌≤◌, ◌+◌, ◌*◌, ◌++◌, ℕ, List, length};
ghost use Rattle.std.specs.Prelude.{slice_index_or, IfOk, OnOk};
ghost use Rattle.sealed.specs.Packed.{held_by, IsPadded};

use bytes::Bytes;
use lrc_code::NoMemory;
use std::alloc::Global;

/// The bytes of a last, partial stripe, padded with zeros. They are empty if the blob fills its
/// last stripe.
pub(crate) fn last_held(alloc: Global, bytes: &Bytes, size: usize) -> Result<Vec<u8>, NoMemory>
    requires { (1 ≤ size) × (size ≤ 786432) }
    ensures long { IfOk result (λ last. (j : ℕ) → size * j < length bytes.now
        → length (held_by size bytes.now last.items j) ≡ size) }
    ensures bytes { IfOk result (λ last. (j i : ℕ) → size * j < length bytes.now → i < size
        → slice_index_or (held_by size bytes.now last.items j) i 0
        ≡ slice_index_or bytes.now (size * j + i) 0) }
{
    let rest = bytes.len() % size;
    if rest == 0 {
        return Ok(Vec::new(alloc));
    }
    copy_padded(alloc, &bytes.as_slice()[bytes.len() - rest..], size)
}

/// A copy of the bytes, padded with zeros to `size` bytes.
fn copy_padded(alloc: Global, bytes: &[u8], size: usize) -> Result<Vec<u8>, NoMemory>
    requires { (length bytes.now ≤ size) × (size ≤ 786432) }
    ensures long { IfOk result (λ copy. length copy.items ≡ size) }
    ensures bytes { IfOk result (λ copy. IsPadded bytes.now copy.items) }
{
    let mut copy = Vec::with_capacity(alloc, size)?;
    push_padded(&mut copy, bytes, size)?;
    Ok(copy)
}

/// Appends the bytes, padded with zeros to `size` bytes.
pub(crate) fn push_padded(blob: &mut Vec<u8>, bytes: &[u8], size: usize) -> Result<(), NoMemory>
    requires { (length bytes.now ≤ size) × (size ≤ 786432) }
    ensures { OnOk result ((more : List ℕ) × (length more ≡ size) × IsPadded bytes.now more
        × (blob.new.items ≡ blob.old.items ++ more)) }
{
    let end = blob.len() + size;
    blob.extend_from_slice(bytes)?;
    blob.resize(end, 0)?;
    Ok(())
}
