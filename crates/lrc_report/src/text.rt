//! Parts of texts.

use lrc_code::Code;
use std::alloc::AllocError;
use std::fmt::Write;

/// Appends bytes as two hexadecimal digits each.
pub fn push_hex(text: &mut String, bytes: &[u8]) -> Result<(), AllocError> {
    for byte in bytes {
        write!(text, "{byte:02x}")?;
    }
    Ok(())
}

/// The name of a code.
pub fn code_name(code: Code) -> &'static str {
    match code {
        Code::Wide => "LRC(12,2,2)",
        Code::Small => "LRC(6,2,2)",
    }
}

/// Whether a set of numbers, as bits, has a number.
pub fn has(bits: u16, number: u8) -> bool {
    number < 16 && bits >> number & 1 == 1
}

/// Appends the numbers of a set, with commas between them.
pub fn push_numbers(text: &mut String, bits: u16) -> Result<(), AllocError> {
    let mut is_first = true;
    for number in 0..16u8 {
        if has(bits, number) {
            if !is_first {
                text.push_str(", ")?;
            }
            write!(text, "{number}")?;
            is_first = false;
        }
    }
    Ok(())
}

/// A word's ending for a number of things.
pub fn plural(count: u64) -> &'static str {
    if count == 1 { "" } else { "s" }
}
