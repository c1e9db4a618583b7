//! The bytes of a header.

ghost use Rattle.std.specs.Prelude.{◌≡◌, ◌++◌, IfOk};
ghost use Rattle.sha2.specs.Sha256.{sha256};
ghost use Rattle.fragment_header.specs.Page.{fields_bytes, padding, page_of};

use crate::header::{Header, NoMemory};
use sha2::{Digest, Sha256};
use std::alloc::Global;

/// The first bytes of a page. They are not text, and a change of line ends breaks them.
const MAGIC: [u8; 8] = [0x89, 0x4C, 0x52, 0x43, 0x0D, 0x0A, 0x1A, 0x0A];

/// How many zeros stand between the fields and the digest.
const PADDING: usize = 3504;

/// The fields, one after the other.
fn print_fields(alloc: Global, header: &Header) -> Result<Vec<u8>, NoMemory>
    ensures { IfOk result (λ bytes. bytes.items ≡ fields_bytes header.now) }
{
    let data = header.code.data_fragments();
    let set = header.set;
    let digests = header.digests;
    let mut bytes = Vec::new(alloc);
    bytes.extend_from_slice(&MAGIC)?;
    bytes.extend_from_slice(&[1, 0, 1, 0, data, header.fragment, 1, 0])?;
    bytes.extend_from_slice(&header.width.to_le_bytes())?;
    bytes.extend_from_slice(&[32, 0, 0, 0])?;
    bytes.extend_from_slice(&header.len.to_le_bytes())?;
    bytes.extend_from_slice(&set)?;
    bytes.extend_from_slice(&digests)?;
    Ok(bytes)
}

/// The zeros between the fields and the digest.
#[tactic(auto, unfolding(crate::specs::Page::padding))]
fn print_padding(alloc: Global) -> Result<Vec<u8>, NoMemory>
    ensures { IfOk result (λ zeros. zeros.items ≡ padding) }
{
    let zeros = vec![in alloc; 0u8; PADDING]?;
    Ok(zeros)
}

/// The bytes with their SHA-256 behind them.
fn with_digest(bytes: Vec<u8>) -> Result<Vec<u8>, NoMemory>
    ensures { IfOk result (λ all. all.items ≡ bytes.items ++ sha256 bytes.items) }
{
    let digest = Sha256::digest(bytes.as_slice());
    let mut all = bytes;
    all.extend_from_slice(&digest)?;
    Ok(all)
}

/// The page of a header: its fields, zeros, and the SHA-256 of all these.
pub fn print(alloc: Global, header: &Header) -> Result<Vec<u8>, NoMemory>
    ensures { IfOk result (λ bytes. bytes.items ≡ page_of header.now) }
{
    let mut bytes = print_fields(alloc, header)?;
    let zeros = print_padding(alloc)?;
    bytes.extend_from_slice(zeros.as_slice())?;
    let page = with_digest(bytes)?;
    Ok(page)
}
