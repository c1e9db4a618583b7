//! The header that a page has.

ghost use Rattle.std.specs.Prelude.{◌≡◌, ◌≢◌, IfOk, IfSome, MatchOption, length};
ghost use Rattle.lrc_code.specs.Code.{data_count};
ghost use Rattle.fragment_header.specs.declared.header.Header.{Header};
ghost use Rattle.fragment_header.specs.Page.{page_of};
ghost use Rattle.fragment_header.specs.Fields.{HasArrays, IsSame};

use crate::header::{Header, NoMemory};
use crate::making::header_of;
use crate::printing::print;
use lrc_code::Code;
use std::alloc::Global;

/// The code with so many data fragments.
fn code_of(data_fragments: u8) -> Option<Code>
    ensures { MatchOption result ((code : Code) → data_count code ≢ data_fragments)
        (λ code. data_count code ≡ data_fragments) }
{
    match data_fragments {
        12 => Some(Code::Wide),
        6 => Some(Code::Small),
        _ => None,
    }
}

/// The header whose fields these bytes have, if their numbers are in range: the only one that the
/// bytes can be the page of.
fn fields_of(page: &[u8]) -> Option<Header>
    requires { length page.now ≡ 4096 }
    ensures { MatchOption result ((h : Header) → HasArrays h → page.now ≢ page_of h)
        (λ found. (h : Header) → HasArrays h → page.now ≡ page_of h → IsSame found h) }
{
    let Some(code) = code_of(page[12]) else {
        return None;
    };
    let width = u32::from_le_bytes([page[16], page[17], page[18], page[19]]);
    let len = u64::from_le_bytes([
        page[24], page[25], page[26], page[27], page[28], page[29], page[30], page[31],
    ]);
    let mut set = [0; 16];
    set.copy_from_slice(&page[32..48]);
    let mut digests = [0; 512];
    digests.copy_from_slice(&page[48..560]);
    header_of(code, page[13], width, len, set, digests)
}

/// The header that a page has. It is None if and only if the bytes are the page of no header: the
/// magic bytes, the version, the checksum or a padding is wrong, or a number is out of range.
/// Refused memory is `NoMemory`.
pub fn parse(alloc: Global, page: &[u8]) -> Result<Option<Header>, NoMemory>
    requires { length page.now ≡ 4096 }
    ensures exact { IfOk result (λ found. MatchOption found
        ((h : Header) → HasArrays h → page.now ≢ page_of h) (λ h. page.now ≡ page_of h)) }
    ensures unique { IfOk result (λ found. IfSome found (λ header.
        (h : Header) → HasArrays h → page.now ≡ page_of h → IsSame header h)) }
{
    let Some(header) = fields_of(page) else {
        return Ok(None);
    };
    let printed = print(alloc, &header)?;
    if printed.as_slice() == page {
        Ok(Some(header))
    } else {
        Ok(None)
    }
}
