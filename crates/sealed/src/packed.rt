//! The stripes of a blob as `seal` makes them.
ghost use Rattle.std.specs.Prelude.{◌≡◌, ◌+◌, ◌*◌, ◌/◌, ◌%◌, ◌<◌, ◌≤◌, ◌&&◌, ◌⊎◌, ℕ, None, Some};
ghost use Rattle.std.specs.Prelude.{◌==◌, ◌≢◌, if◌then◌else◌, slice_range};
ghost use Rattle.std.specs.Bool.{OnTrue, OnFalse};
ghost use Rattle.std.specs.Prelude.{[], length, nat_lt, is_none, slice_index_or, take, drop, IfOk};
ghost use Rattle.std.specs.Option.{option_map};
ghost use Rattle.lrc_code.specs.Code.{fragment_count, is_lost};
ghost use Rattle.sealed.specs.Layout.{stripe_size};
ghost use Rattle.sealed.specs.Stripes.{fragment_at};
ghost use Rattle.sealed.specs.Packed.{packed, held_by, parities_by, part_of, ArePacked, IsWritten};
ghost use Rattle.sealed.specs.Packed.{data_bytes, last_bytes, parity_bytes};
ghost use Rattle.sealed.specs.Runs.{IsDataFrom};

use crate::Width;
use crate::buffer::{Buffer, put_part};
use lrc_code::{Code, LostSet, NoMemory};
use std::alloc::Global;
use std::marker::Model;
use std::sync::Arc;

/// The stripes of a blob as they are sealed, with no fragment lost: a fragment is a slice of the
/// blob's bytes or of the parities. A small blob has both in one vector. Contracts see the
/// fragments of each stripe.
#[derive(Drop)]
pub(crate) struct Packed {
    code: Code,
    count: u16,
    width: Width,
    joined: Vec<u8>,
    parts: Option<Arc<Parts>>,
}

/// The bytes of a blob, those of its last, partial stripe, padded with zeros, and the parities of
/// all its stripes.
#[derive(Drop)]
pub(crate) struct Parts {
    pub(crate) blob: Buffer,
    pub(crate) last: Buffer,
    pub(crate) parities: Buffer,
}

impl Model for Packed {
    ghost use Rattle.std.specs.Prelude.{List, Option, ℕ};
    ghost use Rattle.sealed.specs.Layout.{stripe_size};
    ghost use Rattle.sealed.specs.Packed.{packed, ArePacked, data_bytes, last_bytes, parity_bytes};

    ghost Value = { List (List (Option (List ℕ))) };

    ghost view = { λ p. packed p.code p.width
        (data_bytes (λ a. a.value) p.parts p.joined.items (stripe_size p.code p.width))
        (last_bytes (λ a. a.value) p.parts)
        (parity_bytes (λ a. a.value) p.parts p.joined.items (stripe_size p.code p.width)) p.count };

    ghost invariant = { λ p. ArePacked p.code p.width
        (data_bytes (λ a. a.value) p.parts p.joined.items (stripe_size p.code p.width))
        (last_bytes (λ a. a.value) p.parts)
        (parity_bytes (λ a. a.value) p.parts p.joined.items (stripe_size p.code p.width)) p.count };
}

impl Packed {
    /// `count` stripes in these parts. `NoMemory` if memory runs out.
    pub(crate) fn apart(
        alloc: Global,
        code: Code,
        width: Width,
        parts: Parts,
        count: usize,
    ) -> Result<Packed, NoMemory>
        requires { ArePacked code width parts.blob parts.last parts.parities count }
        ensures { IfOk result (λ p.
            p ≡ packed code width parts.blob parts.last parts.parities count) }
    {
        Ok(Packed {
            code,
            count: count as u16,
            width,
            joined: Vec::new(alloc),
            parts: Some(Arc::new(alloc, parts)?),
        })
    }

    /// A single stripe: the bytes that it holds, and then its parities.
    pub(crate) fn joined(code: Code, width: Width, joined: Vec<u8>) -> Packed
        requires { ArePacked code width (take (stripe_size code width) joined.items) []
            (drop (stripe_size code width) joined.items) 1 }
        ensures { result ≡ packed code width (take (stripe_size code width) joined.items) []
            (drop (stripe_size code width) joined.items) 1 }
    {
        Packed {
            code,
            count: 1,
            width,
            joined,
            parts: None,
        }
    }

    /// States for the prover that each stripe has sixteen slots.
    pub(crate) fn sixteen(&self)
        ensures { (j : ℕ) → j < length self.now → length (slice_index_or self.now j []) ≡ 16 }
    {
        let _count = self.count;
    }

    /// The number of stripes.
    #[tactic(auto, using(crate::proofs::Packing::packed_count))]
    pub(crate) fn len(&self) -> usize
        ensures { result ≡ length self.now }
    {
        usize::from(self.count)
    }

    /// The bytes of a fragment, or `None` for a slot that the code does not use.
    pub(crate) fn fragment(&self, j: usize, f: usize) -> Option<&[u8]>
        requires j_below { j < length self.now }
        requires f_below { f < 16 }
        ensures { option_map (λ x. x.now) result ≡ fragment_at self.now j f }
    {
        let w = self.width.get() as usize;
        let data = usize::from(self.code.data_fragments());
        if f < data {
            let blob = blob_in(&self.parts, self.joined.as_slice(), data * w);
            let held = held_in(blob, last_in(&self.parts), data * w, j);
            return Some(&held[w * f..w * f + w]);
        }
        let k = f - data;
        if k < 4 {
            let all = all_parities_in(&self.parts, self.joined.as_slice(), data * w);
            let parities = parities_in(all, w, j);
            return Some(&parities[w * k..w * k + w]);
        }
        None
    }

    /// The slots that the code does not use, which are `None` in each stripe.
    pub(crate) fn lost(&self) -> LostSet
        ensures { (j f : ℕ) → j < length self.now → is_lost result f
            ≡ (nat_lt f 16 && is_none (fragment_at self.now j f)) }
    {
        match self.code {
            Code::Wide => LostSet::empty(),
            Code::Small => LostSet::of_bits(0xfc00),
        }
    }

    /// A copy that shares the bytes, or has a copy of those of a small blob.
    pub(crate) fn share(&self, alloc: Global) -> Result<Packed, NoMemory>
        ensures { IfOk result (λ p. p ≡ self.now) }
    {
        Ok(Packed {
            code: self.code,
            count: self.count,
            width: self.width,
            joined: Vec::from_slice(alloc, self.joined.as_slice())?,
            parts: one_more(&self.parts)?,
        })
    }

    /// Writes a fragment in place. `false`, with nothing changed, if its bytes have other owners,
    /// or it is none of the code's or of another width.
    pub(crate) fn write(&mut self, j: usize, f: usize, bytes: &[u8]) -> bool
        requires j_below { j < length self.old }
        requires f_below { f < 16 }
        ensures count { length self.new ≡ length self.old }
        ensures ok { OnTrue result ((i g : ℕ) → fragment_at self.new i g
            ≡ (if (i == j) && (g == f) then Some bytes.now else fragment_at self.old i g)) }
        ensures kept { OnFalse result (self.new ≡ self.old) }
    {
        let w = self.width.get() as usize;
        let data = usize::from(self.code.data_fragments());
        if bytes.len() != w || f >= data + 4 {
            return false;
        }
        match &mut self.parts {
            Some(parts) => write_apart(parts, self.code, j, f, bytes),
            None => {
                write_joined(&mut self.joined, f, bytes);
                true
            }
        }
    }

    /// The bytes of the data from the byte `start` on that lie one behind another, up to the byte
    /// `end`. They are empty if the stripes are of another code or width.
    pub(crate) fn run(&self, code: Code, width: Width, start: usize, end: usize) -> &[u8]
        requires some { start < end }
        requires inside { end ≤ stripe_size code width * length self.now }
        ensures bytes { IsDataFrom code width self.now start result.now }
        ensures few { start + length result.now ≤ end }
        ensures ends { (result.now ≡ []) ⊎ (start + length result.now ≡ end)
            ⊎ ((start + length result.now) % stripe_size code width ≡ 0) }
    {
        if code != self.code || width != self.width {
            return &[];
        }
        let size = usize::from(code.data_fragments()) * width.get() as usize;
        let blob = blob_in(&self.parts, self.joined.as_slice(), size);
        run_in(blob, last_in(&self.parts), size, start, end)
    }
}

impl Parts {
    /// Writes a fragment of a stripe in place. `false`, with nothing changed, if its bytes have
    /// other owners.
    fn write(&mut self, code: Code, j: usize, f: usize, bytes: &[u8]) -> bool
        requires inside { f < fragment_count code }
        requires width { length bytes.now ≤ 65536 }
        requires packed { (count : ℕ) × (j < count) × ArePacked code (length bytes.now)
            self.old.blob self.old.last self.old.parities count }
        ensures ok { OnTrue result ((count : ℕ) → j < count
            → IsWritten code (length bytes.now) count j f bytes.now self.old self.new) }
        ensures kept { OnFalse result (self.new ≡ self.old) }
    {
        let data = usize::from(code.data_fragments());
        if f >= data {
            return self.parities.put(4 * j + (f - data), bytes);
        }
        let size = data * bytes.len();
        if self.blob.as_slice().len() - size * j < size {
            return self.last.put(f, bytes);
        }
        self.blob.put(data * j + f, bytes)
    }
}

/// Does the same if the parts have one owner.
fn write_apart(parts: &mut Arc<Parts>, code: Code, j: usize, f: usize, bytes: &[u8]) -> bool
    requires inside { f < fragment_count code }
    requires width { length bytes.now ≤ 65536 }
    requires packed { (count : ℕ) × (j < count) × ArePacked code (length bytes.now)
        parts.old.value.blob parts.old.value.last parts.old.value.parities count }
    ensures ok { OnTrue result ((count : ℕ) → j < count → IsWritten code (length bytes.now)
        count j f bytes.now parts.old.value parts.new.value) }
    ensures kept { OnFalse result (parts.new.value ≡ parts.old.value) }
{
    match Arc::get_mut(parts) {
        Some(own) => own.write(code, j, f, bytes),
        None => false,
    }
}

/// Writes the part number `n` of those of as many bytes as these.
fn write_joined(joined: &mut Vec<u8>, n: usize, bytes: &[u8])
    requires { length bytes.now * n + length bytes.now ≤ length joined.old.items }
    ensures long { length joined.new.items ≡ length joined.old.items }
    ensures here { slice_range joined.new.items (length bytes.now * n)
        (length bytes.now * n + length bytes.now) ≡ bytes.now }
    ensures others { (m : ℕ) → m ≢ n
        → slice_range joined.new.items (length bytes.now * m)
        (length bytes.now * m + length bytes.now) ≡ slice_range joined.old.items
        (length bytes.now * m) (length bytes.now * m + length bytes.now) }
{
    put_part(joined.as_mut_slice(), n, bytes);
}

/// One more owner of the parts, if there are any.
fn one_more(parts: &Option<Arc<Parts>>) -> Result<Option<Arc<Parts>>, NoMemory>
    ensures { IfOk result (λ p. option_map (λ a. a.value) p
        ≡ option_map (λ a. a.value) parts.now) }
{
    match parts {
        Some(parts) => Ok(Some(Arc::try_clone(parts)?)),
        None => Ok(None),
    }
}

/// The bytes of the blob: those of the parts, or else the first `size` ones of `joined`.
fn blob_in<'a>(parts: &'a Option<Arc<Parts>>, joined: &'a [u8], size: usize) -> &'a [u8]
    ensures { result.now ≡ data_bytes (λ a. a.value) parts.now joined.now size }
{
    match parts {
        Some(parts) => parts.blob.as_slice(),
        None => &joined[..size.min(joined.len())],
    }
}

/// The bytes of a last, partial stripe of the parts. There are none without parts.
fn last_in(parts: &Option<Arc<Parts>>) -> &[u8]
    ensures { result.now ≡ last_bytes (λ a. a.value) parts.now }
{
    match parts {
        Some(parts) => parts.last.as_slice(),
        None => &[],
    }
}

/// The parities of all stripes: those of the parts, or else what follows the first `size` bytes of
/// `joined`.
fn all_parities_in<'a>(parts: &'a Option<Arc<Parts>>, joined: &'a [u8], size: usize) -> &'a [u8]
    ensures { result.now ≡ parity_bytes (λ a. a.value) parts.now joined.now size }
{
    match parts {
        Some(parts) => parts.parities.as_slice(),
        None => &joined[size.min(joined.len())..],
    }
}

/// The bytes of stripes that hold `size` bytes each, from the byte `start` on: those of the blob up
/// to the end of its last full stripe, or those of a last, partial stripe. They end before the
/// byte `end`.
fn run_in<'a>(blob: &'a [u8], last: &'a [u8], size: usize, start: usize, end: usize) -> &'a [u8]
    requires size { (1 ≤ size) × (size ≤ 786432) }
    requires some { start < end }
    requires hold { length (held_by size blob.now last.now (start / size)) ≡ size }
    ensures bytes { (i : ℕ) → i < length result.now → slice_index_or result.now i 0
        ≡ slice_index_or (held_by size blob.now last.now ((start + i) / size))
        ((start + i) % size) 0 }
    ensures few { start + length result.now ≤ end }
    ensures ends { (start + length result.now ≡ end)
        ⊎ ((start + length result.now) % size ≡ 0) }
{
    let full = blob.len() - blob.len() % size;
    if start < full {
        return &blob[start..end.min(full)];
    }
    let begin = start - start % size;
    &last[start - begin..size.min(end - begin)]
}

/// The bytes that stripe `j` holds, if a stripe holds `size`.
pub(crate) fn held_in<'a>(blob: &'a [u8], last: &'a [u8], size: usize, j: usize) -> &'a [u8]
    requires { size * j ≤ length blob.now }
    ensures { result.now ≡ held_by size blob.now last.now j }
{
    let start = size * j;
    if blob.len() - start < size {
        return last;
    }
    &blob[start..start + size]
}

/// The four parities of stripe `j`, of `w` bytes each, one after the other.
fn parities_in(parities: &[u8], w: usize, j: usize) -> &[u8]
    requires width { w ≤ 65536 }
    requires inside { 4 * w * j + 4 * w ≤ length parities.now }
    ensures { result.now ≡ parities_by w parities.now j }
{
    &parities[4 * w * j..4 * w * j + 4 * w]
}
