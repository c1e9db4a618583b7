//! A header from its fields.

ghost use Rattle.std.specs.Prelude.{◌≡◌, MatchOption};
ghost use Rattle.fragment_header.specs.declared.header.Header.{Header};
ghost use Rattle.fragment_header.specs.Fields.{IsMadeOf};

use crate::header::{Header, MAX_LEN, MAX_WIDTH, WIDTH_UNIT};
use lrc_code::Code;

/// The header of these fields, or None if and only if a number is out of range: the code does not
/// have the fragment, the width is 0, above `MAX_WIDTH` or no multiple of 64, or the length is
/// above `MAX_LEN`.
pub fn header_of(
    code: Code,
    fragment: u8,
    width: u32,
    len: u64,
    set: [u8; 16],
    digests: [u8; 512],
) -> Option<Header>
    ensures { MatchOption result
        ((h : Header) → IsMadeOf h code fragment width len set digests → ⊥)
        (λ h. IsMadeOf h code fragment width len set digests) }
{
    if fragment < code.fragments()
        && 0 < width
        && width <= MAX_WIDTH
        && width % WIDTH_UNIT == 0
        && len <= MAX_LEN
    {
        Some(Header {
            code,
            fragment,
            width,
            len,
            set,
            digests,
        })
    } else {
        None
    }
}
