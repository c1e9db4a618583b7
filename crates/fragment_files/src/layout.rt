//! Where the parts of a set's files stand.

ghost use Rattle.std.specs.Prelude.{◌≡◌, ◌+◌, ◌*◌, ◌-◌, ◌^◌, ◌<◌, ◌≤◌, ℕ, IfOk, length, min};
ghost use Rattle.lrc_code.specs.Code.{data_count, fragment_count};
ghost use Rattle.fragment_header.specs.Fields.{IsMadeOf};
ghost use Rattle.fragment_files.specs.Layout.{stripe_bytes, HasStripes, place_in};

use fragment_header::{Header, NoMemory, PAGE, print};
use fragments::{DIGEST, Place};
use std::alloc::Global;

/// How many bytes a record has: those of its block, and its digest.
pub fn record_len(header: &Header) -> usize
    ensures { result ≡ header.now.width + 32 }
{
    header.width as usize + DIGEST
}

/// How many bytes of the file a stripe holds.
pub fn stripe_size(header: &Header) -> usize
    ensures { result ≡ stripe_bytes header.now }
{
    usize::from(header.code.data_fragments()) * header.width as usize
}

/// How many stripes the set has.
pub fn stripe_count(header: &Header) -> u64
    ensures { HasStripes header.now result }
{
    match stripe_size(header) {
        0 => 0,
        size => header.len.div_ceil(size as u64),
    }
}

/// Where the record of a stripe begins in the file of a fragment, in bytes, if that is below 2^64.
pub fn record_at(header: &Header, stripe: u64) -> u64
    ensures { result ≡ min (stripe * (header.now.width + 32) + 4096) (2 ^ 64 - 1) }
{
    stripe
        .saturating_mul(record_len(header) as u64)
        .saturating_add(PAGE as u64)
}

/// How many bytes the file of a fragment has: a header, the records and the header again.
pub fn file_len(header: &Header) -> u64
    ensures { (n : ℕ) → HasStripes header.now n
        → result ≡ n * (header.now.width + 32) + 8192 }
{
    record_at(header, stripe_count(header)).saturating_add(PAGE as u64)
}

/// The place of a block.
pub fn place_of(header: &Header, fragment: u8, stripe: u64) -> Place
    ensures { result ≡ place_in header.now fragment stripe }
{
    let set = header.set;
    Place {
        set,
        fragment: u64::from(fragment),
        stripe,
    }
}

/// The header of another fragment of the set.
pub fn with_fragment(header: &Header, fragment: u8) -> Header
    requires { fragment < fragment_count header.now.code }
    ensures number { result.fragment ≡ fragment }
    ensures rest { IsMadeOf result header.now.code fragment header.now.width header.now.len
        header.now.set header.now.digests }
{
    let set = header.set;
    let digests = header.digests;
    Header {
        code: header.code,
        fragment,
        width: header.width,
        len: header.len,
        set,
        digests,
    }
}

/// The digest that stands for the whole set: the one at the end of fragment 0's header.
pub fn set_digest(alloc: Global, header: &Header) -> Result<[u8; 32], NoMemory> {
    let page = print(alloc, &with_fragment(header, 0))?;
    let mut digest = [0; 32];
    if let Some(found) = page.as_slice().get(PAGE - DIGEST..PAGE) {
        if found.len() == 32 {
            digest.copy_from_slice(found);
        }
    }
    Ok(digest)
}
