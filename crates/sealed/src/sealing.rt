//! Sealing: cutting a blob into stripes.
ghost use Rattle.std.specs.Prelude.{◌≡◌, ◌⊎◌, ◌<◌, ◌≤◌, ◌*◌, ◌↔◌, ℕ, All, [], length, take, drop};
ghost use Rattle.std.specs.Prelude.{IfOk, IfErr};
ghost use Rattle.sealed.specs.Layout.{stripe_count, stripe_size};
ghost use Rattle.sealed.specs.Blob.{nothing};
ghost use Rattle.sealed.specs.Packed.{ArePackedOf, AreParitiesOf, AreWhole, IsPadded};
ghost use Rattle.sealed.specs.Sealed.{StandsFor};

use crate::buffer::Buffer;
use crate::packed::{Packed, Parts};
use crate::padding::{last_held, push_padded};
use crate::parities::{all_parities, push_parities, write_parities};
use crate::{Fault, Sealed, Stripes, Width, count_stripes};
use bytes::Bytes;
use lrc_code::{Code, NoMemory};
use std::alloc::Global;

/// A blob of a single stripe lies in one allocation with its parities if its fragments have at most
/// this many bytes: a copy of it then takes less time than the handles of its fragments.
const JOINED_WIDTH: u32 = 512;

/// Cuts a blob into stripes of LRC(12,2,2) with fragments of `width` bytes. Every fragment is
/// present, and the version is 0.
///
/// The data fragments share the memory of `bytes`, except those of a last, partial stripe, which
/// lie in a copy that is padded with zeros. If `bytes` fill no stripe, all lie in that copy, and
/// `bytes` are released. One allocation holds the parities of all stripes; that of a small blob
/// of one stripe holds its bytes too.
///
/// `TooLong` if the blob needs more than 4,096 stripes; it has then not allocated. `NoMemory` if
/// memory runs out.
pub fn seal(alloc: Global, bytes: Bytes, width: Width) -> Result<Sealed, Fault>
    ensures too_long { (result ≡ Err Fault.TooLong)
        ↔ (4096 < stripe_count Code.Wide width (length bytes)) }
    ensures ok { IfOk result (λ s. StandsFor s bytes nothing) }
    ensures shape { IfOk result (λ s. (s.version ≡ 0) × (s.width ≡ width) × (s.code ≡ Code.Wide)) }
    ensures err { IfErr result (λ e. (e ≡ Fault.NoMemory) ⊎ (e ≡ Fault.TooLong)) }
{
    seal_as(alloc, bytes, width, Code::Wide)
}

/// Does the same as `seal`, with the stripes of a given code.
pub fn seal_as(alloc: Global, bytes: Bytes, width: Width, code: Code) -> Result<Sealed, Fault>
    ensures too_long { (result ≡ Err Fault.TooLong)
        ↔ (4096 < stripe_count code width (length bytes)) }
    ensures ok { IfOk result (λ s. StandsFor s bytes nothing) }
    ensures shape { IfOk result (λ s. (s.version ≡ 0) × (s.width ≡ width) × (s.code ≡ code)) }
    ensures err { IfErr result (λ e. (e ≡ Fault.NoMemory) ⊎ (e ≡ Fault.TooLong)) }
{
    let len = bytes.len() as u64;
    let count = checked_count(code, width, len)?;
    fits(bytes.as_slice());
    let stripes = all_stripes(alloc, code, width, bytes, count)?;
    Ok(Sealed {
        version: 0,
        len,
        width,
        code,
        stripes,
    })
}

/// Does the same as `seal_as`, with a copy of the bytes. Each stripe is encoded right after it is
/// copied, while the processor's cache holds it. One allocation holds the copy with its padding.
pub fn seal_copy(alloc: Global, bytes: &[u8], width: Width, code: Code) -> Result<Sealed, Fault>
    ensures too_long { (result ≡ Err Fault.TooLong)
        ↔ (4096 < stripe_count code width (length bytes.now)) }
    ensures ok { IfOk result (λ s. StandsFor s bytes.now nothing) }
    ensures shape { IfOk result (λ s. (s.version ≡ 0) × (s.width ≡ width) × (s.code ≡ code)) }
    ensures err { IfErr result (λ e. (e ≡ Fault.NoMemory) ⊎ (e ≡ Fault.TooLong)) }
{
    let len = bytes.len() as u64;
    let count = checked_count(code, width, len)?;
    fits(bytes);
    let stripes = stripes_of_copy(alloc, code, width, bytes, count)?;
    Ok(Sealed {
        version: 0,
        len,
        width,
        code,
        stripes,
    })
}

/// How many stripes a blob of `len` bytes has. The only error is `TooLong`, if more than 4,096.
fn checked_count(code: Code, width: Width, len: u64) -> Result<usize, Fault>
    ensures many { (result ≡ Err Fault.TooLong) ↔ (4096 < stripe_count code width len) }
    ensures few { IfOk result (λ count. (count ≡ stripe_count code width len) × (count ≤ 4096)) }
    ensures err { IfErr result (λ e. e ≡ Fault.TooLong) }
{
    let count = count_stripes(code, width, len);
    if count > 4096 {
        return Err(Fault::TooLong);
    }
    Ok(count as usize)
}

/// The stripes of a blob without lost fragments.
fn all_stripes(
    alloc: Global,
    code: Code,
    width: Width,
    bytes: Bytes,
    count: usize,
) -> Result<Stripes, NoMemory>
    requires count { (count ≡ stripe_count code width (length bytes)) × (count ≤ 4096) }
    requires bytes { All (λ x. x < 256) bytes }
    ensures wide { 1 ≤ width }
    ensures ok { IfOk result (λ s. AreWhole code width bytes count s) }
{
    let w = width.get() as usize;
    let size = usize::from(code.data_fragments()) * w;
    if bytes.len() < size {
        return stripes_of_copy(alloc, code, width, bytes.as_slice(), count);
    }
    let last = last_held(alloc, &bytes, size)?;
    let parities = all_parities(alloc, code, w, bytes.as_slice(), last.as_slice(), count)?;
    let parts = Parts {
        blob: Buffer::shared(bytes),
        last: Buffer::own(last),
        parities: Buffer::own(parities),
    };
    let packed = Packed::apart(alloc, code, width, parts, count)?;
    Ok(Stripes::from_packed(packed))
}

/// The stripes of a copy of a blob, without lost fragments.
fn stripes_of_copy(
    alloc: Global,
    code: Code,
    width: Width,
    bytes: &[u8],
    count: usize,
) -> Result<Stripes, NoMemory>
    requires count { (count ≡ stripe_count code width (length bytes.now)) × (count ≤ 4096) }
    requires bytes { All (λ x. x < 256) bytes.now }
    ensures wide { 1 ≤ width }
    ensures ok { IfOk result (λ s. AreWhole code width bytes.now count s) }
{
    if count == 1 && width.get() <= JOINED_WIDTH {
        return stripe_of_copy(alloc, code, width, bytes);
    }
    let w = width.get() as usize;
    let (blob, parities) = copy_and_encode(alloc, code, w, bytes, count)?;
    let parts = Parts {
        blob: Buffer::own(blob),
        last: Buffer::own(Vec::new(alloc)),
        parities: Buffer::own(parities),
    };
    let packed = Packed::apart(alloc, code, width, parts, count)?;
    Ok(Stripes::from_packed(packed))
}

/// The single stripe of a copy of a small blob, without lost fragments, in one allocation.
fn stripe_of_copy(
    alloc: Global,
    code: Code,
    width: Width,
    bytes: &[u8],
) -> Result<Stripes, NoMemory>
    requires count { stripe_count code width (length bytes.now) ≡ 1 }
    requires bytes { All (λ x. x < 256) bytes.now }
    ensures wide { 1 ≤ width }
    ensures ok { IfOk result (λ s. AreWhole code width bytes.now 1 s) }
{
    let w = width.get() as usize;
    let joined = join_and_encode(alloc, code, w, bytes)?;
    let packed = Packed::joined(code, width, joined);
    Ok(Stripes::from_packed(packed))
}

/// A copy of a blob's bytes, padded with zeros to a stripe, and then its parities.
fn join_and_encode(alloc: Global, code: Code, w: usize, bytes: &[u8]) -> Result<Vec<u8>, NoMemory>
    requires width { w ≤ 65536 }
    requires few { length bytes.now ≤ stripe_size code w }
    ensures padded { IfOk result (λ made.
        IsPadded bytes.now (take (stripe_size code w) made.items)) }
    ensures long { IfOk result (λ made.
        length (take (stripe_size code w) made.items) ≡ stripe_size code w) }
    ensures parities { IfOk result (λ made.
        AreParitiesOf code w (take (stripe_size code w) made.items)
        (drop (stripe_size code w) made.items)) }
{
    let size = usize::from(code.data_fragments()) * w;
    let mut joined = Vec::with_capacity(alloc, size + 4 * w)?;
    push_padded(&mut joined, bytes, size)?;
    joined.resize(size + 4 * w, 0)?;
    let (held, parities) = joined.split_at_mut(size);
    write_parities(code, w, held, parities);
    Ok(joined)
}

/// A copy of a blob's bytes, padded with zeros to `count` stripes, and the parities of each.
fn copy_and_encode(
    alloc: Global,
    code: Code,
    w: usize,
    bytes: &[u8],
    count: usize,
) -> Result<(Vec<u8>, Vec<u8>), NoMemory>
    requires width { w ≤ 65536 }
    requires count { count ≤ 4096 }
    requires begin { (j : ℕ) → j < count → stripe_size code w * j < length bytes.now }
    ensures blob { IfOk result (λ made. length made.0.items ≡ stripe_size code w * count) }
    ensures parities { IfOk result (λ made. length made.1.items ≡ 4 * w * count) }
    ensures packed { IfOk result (λ made.
        ArePackedOf code w bytes.now made.0.items [] made.1.items count) }
{
    let size = usize::from(code.data_fragments()) * w;
    let mut blob = Vec::with_capacity(alloc, size * count)?;
    let mut parities = Vec::with_capacity(alloc, 4 * w * count)?;
    for j in 0..count {
        let start = size * j;
        let end = bytes.len().min(start + size);
        push_padded(&mut blob, &bytes[start..end], size)?;
        push_parities(code, w, &blob[start..], &mut parities)?;
    }
    Ok((blob, parities))
}

/// States for the prover that each element of the slice is below 256.
fn fits(bytes: &[u8])
    ensures { All (λ x. x < 256) bytes.now }
{}
